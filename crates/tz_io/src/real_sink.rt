//! Standard output.
ghost use Rattle.std.specs.Prelude.{◌≡◌, None};

use crate::{Failed, Sink};

/// Standard output. It tells no bytes, and keeps a count that rises at each error, as where a pipe
/// was closed, and one that rises at each write that took nothing of a piece that was not empty.
#[derive(Drop)]
pub struct RealSink<'a, R: Print> {
    rt: &'a R,
    faults: u64,
    stalls: u64,
}

impl<'a, R: Print> RealSink<'a, R> {
    /// Standard output of that runtime, with nothing counted.
    pub fn new(rt: &'a R) -> Self
        ensures faults { result.faults ≡ 0 }
        ensures stalls { result.stalls ≡ 0 }
    {
        RealSink {
            rt,
            faults: 0,
            stalls: 0,
        }
    }
}

impl<R: Print> Sink for RealSink<'_, R> {
    ghost state = { λ sink. record { bytes = None; faults = sink.faults; stalls = sink.stalls } };

    fn write(&mut self, piece: &[u8]) -> Result<usize, Failed> {
        match self.rt.write_some(piece) {
            Ok(count) => {
                if count == 0 && !piece.is_empty() {
                    self.stalls = self.stalls.saturating_add(1);
                }
                Ok(count)
            }
            Err(_) => {
                self.faults = self.faults.saturating_add(1);
                Err(Failed)
            }
        }
    }
}

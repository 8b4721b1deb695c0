//! A sink that takes bytes, and the loop that gives it a whole text.
ghost use Rattle.std.specs.Prelude.{◌≡◌, ◌≤◌, IfOk, IfErr, OnOk, OnErr, length, take};
ghost use Rattle.tz_io.specs.declared.sink.PutError.TheVariants.{Failed as put_failed};
ghost use Rattle.tz_io.specs.Sink.{SinkState, with_bytes, IsStall, Counts, StopsBy};

use std::error::Error;
use std::fmt;

/// A write that failed, and took nothing.
#[derive(Clone, Copy, Debug, PartialEq, Eq)]
pub struct Failed;

impl fmt::Display for Failed {
    ghost use Rattle.std.specs.Prelude.{Some, codes};

    ghost output = { λ _. Some (codes "the write failed") };

    fn fmt<W: fmt::Write>(&self, f: &mut fmt::Formatter<W>) -> fmt::Result {
        f.write_str("the write failed")
    }
}

impl Error for Failed {}

/// Why a text was not taken whole.
#[derive(Clone, Copy, Debug, PartialEq, Eq)]
pub enum PutError {
    /// A write failed.
    Failed,
    /// A write took nothing of what was left.
    Stalled,
}

impl fmt::Display for PutError {
    ghost use Rattle.std.specs.Prelude.{Some};
    ghost use Rattle.tz_io.specs.Messages.{put_error_text};

    ghost output = { λ error. Some (put_error_text error) };

    fn fmt<W: fmt::Write>(&self, f: &mut fmt::Formatter<W>) -> fmt::Result {
        f.write_str(match self {
            PutError::Failed => "a write failed",
            PutError::Stalled => "a write took nothing",
        })
    }
}

impl Error for PutError {}

impl From<Failed> for PutError {
    ghost from_gives = { λ _ error. error ≡ put_failed };

    fn from(_: Failed) -> Self {
        PutError::Failed
    }
}

/// Something that takes bytes, in pieces.
pub trait Sink {
    /// All bytes taken so far, where the object tells them; how often a write has failed, and how often one took nothing
    /// of a piece that was not empty, each up to the end of its type.
    ghost state: { Self → SinkState };

    /// Takes the first bytes of the piece, and answers how many. `Failed` takes nothing, and is counted. A write that
    /// takes nothing of a piece that is not empty is counted too. Nothing else changes a count.
    fn write(&mut self, piece: &[u8]) -> Result<usize, Failed>
        ensures within { IfOk result (λ count. count ≤ length piece.now) }
        ensures taken { IfOk result (λ count. ¬ (IsStall count piece.now) →
            state self.new ≡ with_bytes (state self.old) (take count piece.now)) }
        ensures stalled { IfOk result (λ count. IsStall count piece.now →
            Counts PutError.Stalled (state self.old) (state self.new)) }
        ensures failed { OnErr result (Counts PutError.Failed (state self.old) (state self.new)) };
}

/// Writes until the whole text is taken. An error comes exactly where it was counted, behind a part of the text that is
/// shorter than all: `PutError::Failed` where a write failed, `PutError::Stalled` where one took nothing of what was
/// left. It takes no memory.
pub fn put_all<S: Sink>(sink: &mut S, text: &[u8]) -> Result<(), PutError>
    ensures ok { OnOk result (S.state sink.new ≡ with_bytes (S.state sink.old) text.now) }
    ensures err { IfErr result (λ error. StopsBy error (S.state sink.old) (S.state sink.new) text.now) }
{
    let mut done = 0;
    while done < text.len() {
        match sink.write(&text[done..])? {
            0 => return Err(PutError::Stalled),
            count => done += count,
        }
    }
    Ok(())
}

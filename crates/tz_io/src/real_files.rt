//! The system's files.
ghost use Rattle.std.specs.Prelude.{◌≡◌, ◌+◌, ◌≤◌, IfOk, vec_len};

use crate::{FileError, Files};
use std::alloc::Global;
use std::io::Read;
use std::{fs, rt};

// What one read of the system asks for at most.
const PIECE: usize = 64 * 1024;

/// The system's files. They tell no content, and keep one count of faults for all names, which rises
/// at each error.
#[derive(Drop)]
pub struct RealFiles<'a, R: rt::Files> {
    rt: &'a R,
    faults: u64,
}

impl<'a, R: rt::Files> RealFiles<'a, R> {
    /// The files of that runtime, with no fault counted.
    pub fn new(rt: &'a R) -> Self
        ensures { result.faults ≡ 0 }
    {
        RealFiles { rt, faults: 0 }
    }
}

// Reads on until the bytes are as many as wanted, or the file ends.
fn read_up_to<F: Read>(file: &mut F, bytes: &mut Vec<u8>, wanted: usize) -> Result<(), FileError>
    requires { vec_len bytes.old ≤ wanted }
    ensures { vec_len bytes.new ≤ wanted }
{
    while bytes.len() < wanted {
        let start = bytes.len();
        bytes.resize(start + PIECE.min(wanted - start), 0)?;
        match file.read(&mut bytes[start..]) {
            Ok(0) => {
                bytes.truncate(start);
                return Ok(());
            }
            Ok(count) => bytes.truncate(start + count),
            Err(_) => return Err(FileError::Failed),
        }
    }
    Ok(())
}

// The first `limit + 1` bytes of a file, or all of them. What is no file, as a folder, fails.
fn read_front<R: rt::Files>(
    rt: &R,
    alloc: Global,
    name: &str,
    limit: usize,
) -> Result<Vec<u8>, FileError>
    ensures { IfOk result (λ bytes. vec_len bytes ≤ limit + 1) }
{
    let Ok(mut file) = fs::open(rt, name) else {
        return Err(FileError::Failed);
    };
    let mut bytes = Vec::new(alloc);
    read_up_to(&mut file, &mut bytes, limit.saturating_add(1))?;
    Ok(bytes)
}

impl<R: rt::Files> Files for RealFiles<'_, R> {
    ghost use Rattle.std.specs.Prelude.{◌≡◌, ◌+◌, ◌-◌, ◌^◌, IfOk, OnOk, OnErr, IsErrOf, min};
    ghost use Rattle.tz_io.specs.Files.{IsFront, FileFailed, KeepsFiles, untold};

    ghost state = { λ files. untold files.faults };

    fn read(&mut self, alloc: Global, name: &str, limit: usize) -> Result<Vec<u8>, FileError>
        // What the trait promises.
        ensures bytes { IfOk result (λ bytes. IsFront (untold self.old.faults) name.now limit bytes.items) }
        ensures unharmed { OnOk result (untold self.new.faults ≡ untold self.old.faults) }
        ensures kept { KeepsFiles (untold self.old.faults) (untold self.new.faults) }
        ensures failed { IsErrOf result FileError.Failed → FileFailed (untold self.old.faults) (untold self.new.faults) name.now }

        // Each error is counted, also where memory ran out.
        ensures counted { OnErr result (self.new.faults ≡ min (self.old.faults + 1) (2 ^ 64 - 1)) }
    {
        let answer = read_front(self.rt, alloc, name, limit);
        if answer.is_err() {
            self.faults = self.faults.saturating_add(1);
        }
        answer
    }
}

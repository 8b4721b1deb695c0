//! Files that are read by name, up to a limit in bytes.
ghost use Rattle.std.specs.Prelude.{◌≡◌, IfOk, OnOk, IsErrOf};
ghost use Rattle.tz_io.specs.declared.files.FileError.TheVariants.{NoMemory};
ghost use Rattle.tz_io.specs.Files.{FilesState, IsFront, FileFailed, KeepsFiles};

use std::alloc::{AllocError, Global};
use std::error::Error;
use std::fmt;

/// Why a file gave no content.
#[derive(Clone, Copy, Debug, PartialEq, Eq)]
pub enum FileError {
    /// Memory ran out.
    NoMemory,
    /// There is no file of that name, or it could not be read.
    Failed,
}

impl fmt::Display for FileError {
    ghost use Rattle.std.specs.Prelude.{Some};
    ghost use Rattle.tz_io.specs.Messages.{file_error_text};

    ghost output = { λ error. Some (file_error_text error) };

    fn fmt<W: fmt::Write>(&self, f: &mut fmt::Formatter<W>) -> fmt::Result {
        f.write_str(match self {
            FileError::NoMemory => "memory ran out",
            FileError::Failed => "the file cannot be read",
        })
    }
}

impl Error for FileError {}

impl From<AllocError> for FileError {
    ghost from_gives = { λ _ error. error ≡ NoMemory };

    fn from(_: AllocError) -> Self {
        FileError::NoMemory
    }
}

/// Files that are read by name.
pub trait Files {
    /// The content of each name, where the object tells it, and how often a read of each name has failed, up to the end
    /// of its type. A name is given by its bytes.
    ghost state: { Self → FilesState };

    /// The first `limit + 1` bytes of the file of that name, or all of it where it is shorter: so
    /// more than `limit` bytes say that the file is longer than the limit. `FileError::Failed` comes
    /// only where the count of faults of that name rose; `FileError::NoMemory` may come at any call.
    /// The files hold what they held, whatever the answer, and no count falls. Where content is given, none rises.
    fn read(&mut self, alloc: Global, name: &str, limit: usize) -> Result<Vec<u8>, FileError>
        ensures bytes { IfOk result (λ bytes. IsFront (state self.old) name.now limit bytes.items) }
        ensures unharmed { OnOk result (state self.new ≡ state self.old) }
        ensures kept { KeepsFiles (state self.old) (state self.new) }
        ensures failed { IsErrOf result FileError.Failed → FileFailed (state self.old) (state self.new) name.now };
}

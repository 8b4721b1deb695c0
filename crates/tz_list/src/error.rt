//! Why a list isn't opened, or a source isn't reloaded.

use std::error::Error;
use std::fmt;
use tz_types::Fault;
use tz_version::MakeError;

/// Why a list isn't opened: the version of its first source isn't made, or memory ran out.
pub type OpenError = MakeError;

/// Why nothing was pushed. `w` is the position at which that was so.
#[derive(Clone, Copy, Debug, PartialEq, Eq, Hash)]
pub enum ReloadError {
    NoMemory,
    /// The source is refused. Nobody's turn was taken.
    Text(Fault),
    /// The front, number `n`, has the source's version text.
    Same { w: u32, n: u32 },
    /// The reader may make no write.
    JournalFull { w: u32 },
    /// Each slot keeps a version that is listed or that somebody holds.
    Full { w: u32 },
}

impl fmt::Display for ReloadError {
    ghost use Rattle.std.specs.Prelude.{Some};
    ghost use Rattle.tz_list.specs.Messages.{reload_error_text};

    ghost output = { λ error. Some (reload_error_text error) };

    fn fmt<W: fmt::Write>(&self, f: &mut fmt::Formatter<W>) -> fmt::Result {
        match self {
            ReloadError::NoMemory => f.write_str("memory ran out"),
            ReloadError::Text(fault) => write!(f, "{fault}"),
            ReloadError::Same { w: _, n } => {
                let n = *n;
                write!(
                    f,
                    "version {n} is the newest, and has the same version text"
                )
            }
            ReloadError::JournalFull { w: _ } => f.write_str("the reader may make no more writes"),
            ReloadError::Full { w: _ } => f.write_str("each slot is listed or held"),
        }
    }
}

impl Error for ReloadError {}

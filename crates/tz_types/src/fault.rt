//! Why a text is refused, and where.
ghost use Rattle.std.specs.Prelude.{◌≡◌};

use crate::Cause;
use std::fmt;

/// Why a text is refused that is read alone: the line, counted from 1, and the number of the cause.
#[derive(Clone, Copy, Debug, PartialEq, Eq, Hash)]
pub struct LineFault {
    pub line: u32,
    pub cause: u8,
}

/// Why a source is refused: its file, the line of that file, counted from 1, and the number of the cause.
///
/// Files are counted from 1 where a source has more than one. Where it has one alone, the file is 0.
#[derive(Clone, Copy, Debug, PartialEq, Eq, Hash)]
pub struct Fault {
    pub file: u32,
    pub line: u32,
    pub cause: u8,
}

impl fmt::Display for Fault {
    ghost use Rattle.std.specs.Prelude.{Some};
    ghost use Rattle.tz_types.specs.Fault.{fault_text};

    ghost output = { λ fault. Some (fault_text fault) };

    fn fmt<W: fmt::Write>(&self, f: &mut fmt::Formatter<W>) -> fmt::Result {
        let Fault { file, line, cause } = *self;
        match (file, Cause::of_number(cause)) {
            (0, None) => write!(f, "line {line}, cause {cause}"),
            (0, Some(why)) => write!(f, "line {line}, cause {cause}: {why}"),
            (_, None) => write!(f, "file {file}, line {line}, cause {cause}"),
            (_, Some(why)) => write!(f, "file {file}, line {line}, cause {cause}: {why}"),
        }
    }
}

impl LineFault {
    /// The same fault in the file of that number.
    pub fn in_file(self, file: u32) -> Fault
        ensures { result ≡ record { file = file; line = self.line; cause = self.cause } }
    {
        Fault {
            file,
            line: self.line,
            cause: self.cause,
        }
    }
}

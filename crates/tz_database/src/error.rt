//! Why what lines gave makes no database.
ghost use Rattle.std.specs.Prelude.{◌≡◌};
ghost use Rattle.tz_database.specs.declared.error.BuildError.TheVariants as errors;

use std::error::Error;
use std::fmt;
use tz_types::{Fault, NoMemory};

/// Why no database was built.
#[derive(Clone, Copy, Debug, PartialEq, Eq, Hash)]
pub enum BuildError {
    NoMemory,
    /// The line, counted from 1, and the number of the cause.
    Fault { line: u32, cause: u8 },
}

impl fmt::Display for BuildError {
    ghost use Rattle.std.specs.Prelude.{Some};
    ghost use Rattle.tz_database.specs.Messages.{build_error_text};

    ghost output = { λ error. Some (build_error_text error) };

    fn fmt<W: fmt::Write>(&self, f: &mut fmt::Formatter<W>) -> fmt::Result {
        match self {
            BuildError::NoMemory => f.write_str("memory ran out"),
            BuildError::Fault { line, cause } => {
                let fault = Fault {
                    file: 0,
                    line: *line,
                    cause: *cause,
                };
                write!(f, "{fault}")
            }
        }
    }
}

impl Error for BuildError {}

impl From<NoMemory> for BuildError {
    ghost from_gives = { λ _ e. e ≡ errors.NoMemory };

    fn from(_: NoMemory) -> Self {
        BuildError::NoMemory
    }
}

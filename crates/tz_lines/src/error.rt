//! Why a text isn't read.
ghost use Rattle.std.specs.Prelude.{◌≡◌};
ghost use Rattle.tz_types.specs.declared.fault.LineFault.{LineFault};
ghost use Rattle.tz_specs.specs.Causes.{fault_at};
ghost use Rattle.tz_lines.specs.declared.error.AddError.TheVariants as add_errors;
ghost use Rattle.tz_lines.specs.declared.error.LineError.TheVariants as line_errors;
ghost use Rattle.tz_lines.specs.Refusal.{line_error};

use std::error::Error;
use std::fmt;
use tz_database::BuildError;
use tz_types::{Cause, Fault, LineFault, NoMemory};

/// Why a source or a leap text wasn't read.
#[derive(Clone, Copy, Debug, PartialEq, Eq, Hash)]
pub enum ReadError {
    NoMemory,
    Fault(Fault),
}

impl fmt::Display for ReadError {
    ghost use Rattle.std.specs.Prelude.{Some};
    ghost use Rattle.tz_lines.specs.Messages.{read_error_text};

    ghost output = { λ error. Some (read_error_text error) };

    fn fmt<W: fmt::Write>(&self, f: &mut fmt::Formatter<W>) -> fmt::Result {
        match self {
            ReadError::NoMemory => f.write_str("memory ran out"),
            ReadError::Fault(fault) => write!(f, "{fault}"),
        }
    }
}

impl Error for ReadError {}

/// Why lines gave nothing, where the lines of all files are counted through.
#[derive(Clone, Copy, Debug, PartialEq, Eq, Hash)]
pub enum LineError {
    NoMemory,
    Fault(LineFault),
}

impl LineError {
    /// The fault of a line that has that cause.
    pub fn at(line: u32, cause: Cause) -> Self
        ensures { result ≡ line_errors.Fault (fault_at line cause) }
    {
        LineError::Fault(LineFault {
            line,
            cause: cause.number(),
        })
    }
}

impl From<NoMemory> for LineError {
    ghost from_gives = { λ _ e. e ≡ line_errors.NoMemory };

    fn from(_: NoMemory) -> Self {
        LineError::NoMemory
    }
}

impl From<BuildError> for LineError {
    ghost from_gives = { λ error e. e ≡ line_error error };

    fn from(error: BuildError) -> Self {
        match error {
            BuildError::NoMemory => LineError::NoMemory,
            BuildError::Fault { line, cause } => LineError::Fault(LineFault { line, cause }),
        }
    }
}

/// Why something wasn't added.
#[derive(Clone, Copy, Debug)]
pub enum AddError {
    NoMemory,
    /// It would be one too many.
    Limit,
}

impl From<NoMemory> for AddError {
    ghost from_gives = { λ _ e. e ≡ add_errors.NoMemory };

    fn from(_: NoMemory) -> Self {
        AddError::NoMemory
    }
}

//! Why a script isn't read.
use crate::ScriptCause;
use std::error::Error;
use std::fmt;
use tz_types::{LineFault, NoMemory};

/// Why a script wasn't read.
#[derive(Clone, Copy, Debug, PartialEq, Eq, Hash)]
pub enum ScriptError {
    NoMemory,
    Fault(LineFault),
}

impl fmt::Display for ScriptError {
    ghost use Rattle.std.specs.Prelude.{Some};
    ghost use Rattle.tz_script.specs.Messages.{script_error_text};

    ghost output = { λ error. Some (script_error_text error) };

    fn fmt<W: fmt::Write>(&self, f: &mut fmt::Formatter<W>) -> fmt::Result {
        match self {
            ScriptError::NoMemory => f.write_str("memory ran out"),
            ScriptError::Fault(LineFault { line, cause }) => match ScriptCause::of_number(*cause) {
                None => write!(f, "line {line}, cause {cause}"),
                Some(why) => write!(f, "line {line}, cause {cause}: {why}"),
            },
        }
    }
}

impl Error for ScriptError {}

impl From<NoMemory> for ScriptError {
    ghost use Rattle.std.specs.Prelude.{◌≡◌};
    ghost use Rattle.tz_script.specs.declared.error.ScriptError.TheVariants as errors;

    ghost from_gives = { λ _ e. e ≡ errors.NoMemory };

    fn from(_: NoMemory) -> Self {
        ScriptError::NoMemory
    }
}

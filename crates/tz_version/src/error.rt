//! Why a version isn't made, or has no such zone.
ghost use Rattle.std.specs.Prelude.{◌≡◌};
ghost use Rattle.tz_version.specs.declared.error.MakeError.TheVariants as make_errors;

use std::error::Error;
use std::fmt;
use tz_types::{Fault, NoMemory};

/// Why a version isn't made. The leap text is read first: where it is refused, nothing is said of the source.
#[derive(Clone, Copy, Debug, PartialEq, Eq, Hash)]
pub enum MakeError {
    NoMemory,
    /// The leap text is refused. Its file is 0.
    Leaps(Fault),
    /// The source is refused.
    Text(Fault),
}

impl fmt::Display for MakeError {
    ghost use Rattle.std.specs.Prelude.{Some};
    ghost use Rattle.tz_version.specs.Messages.{make_error_text};

    ghost output = { λ error. Some (make_error_text error) };

    fn fmt<W: fmt::Write>(&self, f: &mut fmt::Formatter<W>) -> fmt::Result {
        match self {
            MakeError::NoMemory => f.write_str("memory ran out"),
            MakeError::Leaps(fault) => write!(f, "leap text: {fault}"),
            MakeError::Text(fault) => write!(f, "{fault}"),
        }
    }
}

impl Error for MakeError {}

impl From<NoMemory> for MakeError {
    ghost from_gives = { λ _ e. e ≡ make_errors.NoMemory };

    fn from(_: NoMemory) -> Self {
        MakeError::NoMemory
    }
}

/// The version has no zone and no link of that name.
#[derive(Clone, Copy, Debug, PartialEq, Eq, Hash)]
pub struct NoZone;

impl fmt::Display for NoZone {
    ghost use Rattle.std.specs.Prelude.{Some, codes};

    ghost output = { λ _. Some (codes "no zone and no link has the name") };

    fn fmt<W: fmt::Write>(&self, f: &mut fmt::Formatter<W>) -> fmt::Result {
        f.write_str("no zone and no link has the name")
    }
}

impl Error for NoZone {}

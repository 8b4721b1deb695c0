//! Why a file isn't written.
ghost use Rattle.std.specs.Prelude.{◌≡◌};
ghost use Rattle.tz_tzif.specs.declared.tzif_error.TzifError.TheVariants as errors;

use std::error::Error;
use std::fmt;
use tz_types::NoMemory;

/// Why a file isn't written.
#[derive(Clone, Copy, Debug, PartialEq, Eq, Hash)]
pub enum TzifError {
    NoMemory,
    /// There are so many types, more than the 256 that octets can number.
    Types { count: u32 },
    /// A designation begins behind so many octets, more than the 255 that an octet can tell. It is the first such.
    Designations { at: u32 },
}

impl fmt::Display for TzifError {
    ghost use Rattle.std.specs.Prelude.{Some};
    ghost use Rattle.tz_tzif.specs.Messages.{tzif_error_text};

    ghost output = { λ error. Some (tzif_error_text error) };

    fn fmt<W: fmt::Write>(&self, f: &mut fmt::Formatter<W>) -> fmt::Result {
        match self {
            TzifError::NoMemory => f.write_str("memory ran out"),
            TzifError::Types { count } => {
                write!(
                    f,
                    "there are {count} local time types, and at most 256 have numbers"
                )
            }
            TzifError::Designations { at } => {
                write!(
                    f,
                    "a designation has the index {at}, and the greatest is 255"
                )
            }
        }
    }
}

impl Error for TzifError {}

impl From<NoMemory> for TzifError {
    ghost from_gives = { λ _ e. e ≡ errors.NoMemory };

    fn from(_: NoMemory) -> Self {
        TzifError::NoMemory
    }
}

//! Why no version stands behind that of a number.
use std::error::Error;
use std::fmt;

/// Why there is no version after the one of a number.
#[derive(Clone, Copy, Debug, PartialEq, Eq, Hash)]
pub enum AfterError {
    /// No version of that number is listed.
    NotListed,
    /// It is the oldest that is listed.
    Nothing,
}

impl fmt::Display for AfterError {
    ghost use Rattle.std.specs.Prelude.{Some};
    ghost use Rattle.pin_book.specs.Messages.{after_error_text};

    ghost output = { λ error. Some (after_error_text error) };

    fn fmt<W: fmt::Write>(&self, f: &mut fmt::Formatter<W>) -> fmt::Result {
        f.write_str(match self {
            AfterError::NotListed => "no version of this number is listed",
            AfterError::Nothing => "nothing is listed behind this version",
        })
    }
}

impl Error for AfterError {}

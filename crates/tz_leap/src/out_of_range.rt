//! Why a count of a clock has no other count.
use std::error::Error;
use std::fmt;

/// The time lies outside the range of its clock.
#[derive(Clone, Copy, Debug, PartialEq, Eq, Hash)]
pub struct OutOfRange;

impl fmt::Display for OutOfRange {
    ghost use Rattle.std.specs.Prelude.{Some, codes};

    ghost output = { λ _. Some (codes "the time is out of range") };

    fn fmt<W: fmt::Write>(&self, f: &mut fmt::Formatter<W>) -> fmt::Result {
        f.write_str("the time is out of range")
    }
}

impl Error for OutOfRange {}

//! The refusal of a split.

use std::error::Error;
use std::fmt;

/// All readers are out.
#[derive(Clone, Copy, Debug, PartialEq, Eq, Hash)]
pub struct NoReader;

impl fmt::Display for NoReader {
    ghost use Rattle.std.specs.Prelude.{Some, codes};

    ghost output = { λ _. Some (codes "all readers are out") };

    fn fmt<W: fmt::Write>(&self, f: &mut fmt::Formatter<W>) -> fmt::Result {
        f.write_str("all readers are out")
    }
}

impl Error for NoReader {}

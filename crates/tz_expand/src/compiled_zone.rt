//! A zone whose lines have their places in time.
ghost use Rattle.std.specs.Prelude.{◌≡◌, ◌↔◌, IsTrue};
ghost use Rattle.tz_expand.specs.Compiled.{cover_time};

use crate::CompiledLine;
use tz_types::{Items, Label};

/// A zone ready for questions: its lines, which lead from the beginning of time to its end.
#[derive(Debug, PartialEq, Drop)]
pub struct CompiledZone {
    pub name: Label,
    pub lines: Items<CompiledLine>,
    pub ghost covers: { IsTrue (cover_time lines) },
}

impl CompiledZone {
    /// Whether both are one value: the same name, and the same lines with the same rules, whether they share these or
    /// not. Then each answer from one is the answer from the other.
    pub fn same(&self, other: &CompiledZone) -> bool
        ensures { IsTrue result ↔ (self.now ≡ other.now) }
    {
        self == other
    }
}

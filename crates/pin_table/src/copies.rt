//! The copies that a push needs of its version: as many as all places of one slot hold.
//!
//! A push takes its memory here, before it takes the turn.
ghost use Rattle.std.specs.Prelude.{◌≡◌, replicate, IfOk};
ghost use Rattle.std.specs.Arc.{arc_value};
ghost use Rattle.pin_table.specs.Shelf.{full_shelf};

use crate::shelf::Shelf;
use pin_book::Payload;
use std::alloc::Global;
use std::marker::Model;
use std::sync::Arc;
use tz_types::NoMemory;

/// One full shelf of one version for each reader number of a table. Contracts see the version and for how many
/// numbers there is a shelf.
#[derive(Drop)]
pub struct Copies<P: Payload> {
    version: Arc<P>,
    shelves: Vec<Shelf<P>>,
}

impl<P: Payload> Model for Copies<P> {
    ghost use Rattle.std.specs.Prelude.{◌≡◌, length, replicate};
    ghost use Rattle.std.specs.Arc.{arc_value};
    ghost use Rattle.pin_table.specs.Copies.{Supply};
    ghost use Rattle.pin_table.specs.Shelf.{full_shelf};

    ghost Value = { Supply P };

    ghost view = { λ c. record { version = arc_value c.version; readers = length c.shelves.items } };

    ghost invariant = { λ c. c.shelves.items ≡ replicate (length c.shelves.items) (full_shelf (arc_value c.version)) };
}

impl<P: Payload> Copies<P> {
    /// Makes the copies of this version for so many reader numbers.
    pub(crate) fn new(alloc: Global, version: Arc<P>, readers: u32) -> Result<Self, NoMemory>
        ensures { IfOk result (λ copies. copies ≡ record { version = arc_value version; readers = readers }) }
    {
        let mut shelves = Vec::with_capacity(alloc, readers as usize)?;
        for _ in 0..readers {
            shelves.push(Shelf::full(&version)?)?;
        }
        Ok(Copies { version, shelves })
    }

    /// Returns the version that these are copies of.
    pub fn version(&self) -> &P
        ensures { result.now ≡ self.now.version }
    {
        &self.version
    }

    /// Returns the full shelves, one for each reader number.
    pub(crate) fn into_shelves(self) -> Vec<Shelf<P>>
        ensures { result.items ≡ replicate self.readers (full_shelf self.version) }
    {
        let Copies {
            version: _,
            shelves,
        } = self;
        shelves
    }
}

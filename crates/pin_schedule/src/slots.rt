//! The slots that a reader's claims found pinned.
ghost use Rattle.std.specs.Prelude.{◌≡◌, nat_lt, [], take_while, length, OnOk};
ghost use Rattle.pin_core.specs.Step.{with_number};

use std::alloc::Global;
use std::marker::Model;
use tz_types::NoMemory;

/// Slots, rising and each once.
#[derive(Debug, Drop)]
pub struct Slots {
    items: Vec<u32>,
}

impl Model for Slots {
    ghost use Rattle.std.specs.Prelude.{ℕ, List};

    ghost Value = { List ℕ };

    ghost view = { λ s. s.items.items };
}

impl Slots {
    /// No slot, and no memory.
    pub fn new(alloc: Global) -> Self
        ensures { result ≡ [] }
    {
        Slots {
            items: Vec::new(alloc),
        }
    }

    pub fn as_slice(&self) -> &[u32]
        ensures { result.now ≡ self.now }
    {
        self.items.as_slice()
    }

    /// Puts the slot in its place, unless it is there.
    pub fn add(&mut self, slot: u32) -> Result<(), NoMemory>
        ensures { OnOk result (self.new ≡ with_number slot self.old) }
    {
        let place = place_of(&self.items, slot);
        if place < self.items.len() && self.items[place] == slot {
            return Ok(());
        }
        self.items.insert(place, slot)?;
        Ok(())
    }

    pub fn clear(&mut self)
        ensures { self.new ≡ [] }
    {
        self.items.clear();
    }
}

/// Before how many of these slots this one doesn't come.
fn place_of(slots: &[u32], slot: u32) -> usize
    ensures { result ≡ length (take_while (λ other. nat_lt other slot) slots.now) }
{
    slots.iter().take_while(|other| **other < slot).count()
}

//! What a seat carries, and the one place where a slot of the base is exchanged.
//!
//! A seat carries the slots that it has taken, the one taken last at the head, and the base exchanges what the head
//! holds. So which slots a seat carries is kept as a list, and an exchange first turns the slot to the head.
ghost use Rattle.std.specs.Prelude.{◌≡◌, ◌==◌, ◌<◌, [], ◌∷◌, ◌++◌, length, position, take, drop};
ghost use Rattle.pin_core.specs.Core.{times};
ghost use Rattle.pin_table.specs.Carried.{slots_of, Exchanges};
ghost use Rattle.pin_table.specs.declared.exchange.TheConstants.{MOST_CARRIED};

use crate::shelf::SHELF_COPIES;
use arrayvec::ArrayVec;
use atomic_table::{Seat, Shared, TableRule};
use pin_book::READER_NUMBERS;
use std::marker::Model;

/// The most slots of the base that a seat carries: a place for each handle, the book, and the places of one slot.
pub const MOST_CARRIED: usize = SHELF_COPIES + 1 + READER_NUMBERS;

/// The slots of the base that a seat carries, the head first. Contracts see their list.
#[derive(Drop)]
pub struct Carried {
    slots: ArrayVec<usize, MOST_CARRIED>,
}

impl Model for Carried {
    ghost use Rattle.std.specs.Prelude.{List, ℕ};

    ghost Value = { List ℕ };

    ghost view = { λ c. c.slots.items };
}

impl Carried {
    pub(crate) fn new() -> Self
        ensures { result ≡ [] }
    {
        Carried {
            slots: ArrayVec::new(),
        }
    }

    /// The seat takes one more slot.
    pub(crate) fn take(&mut self, slot: usize)
        requires { length self.old < MOST_CARRIED }
        ensures { self.new ≡ slot ∷ self.old }
    {
        self.slots.insert(0, slot);
    }

    /// The seat gives the head back.
    pub(crate) fn give(&mut self)
        ensures { self.new ≡ drop 1 self.old }
    {
        if self.slots.len() > 0 {
            self.slots.remove(0);
        }
    }

    /// The head goes behind the others.
    fn turn(&mut self)
        ensures { self.new ≡ drop 1 self.old ++ take 1 self.old }
    {
        if self.slots.len() > 0 {
            let head = self.slots.remove(0);
            self.slots.push(head);
        }
    }

    /// How far the slot stands behind the head, if it is among them.
    fn position(&self, slot: usize) -> Option<usize>
        ensures { result ≡ position (λ other. other == slot) self.now }
    {
        self.slots
            .as_slice()
            .iter()
            .position(|other| *other == slot)
    }
}

/// Exchanges what the seat carries for a slot that it has taken. It is the head then, with those behind it still in
/// their order, and what stood before it behind them.
pub(crate) fn exchange<S, V, K, R: TableRule<S, V, K>>(
    shared: &Shared<S, V, K, R>,
    seat: &mut Seat<S, V>,
    carried: &mut Carried,
    slot: usize,
    new: S,
) -> S
    requires own { seat.old.table_id ≡ shared.now.table_id }
    requires listed { carried.old ≡ slots_of seat.old.me.1 }
    requires taken { times slot carried.old ≡ 1 }
    ensures same { (seat.new.table_id ≡ seat.old.table_id) × (seat.new.id ≡ seat.old.id) × (seat.new.me.0 ≡ seat.old.me.0) }
    ensures exchanged { Exchanges slot result new seat.old.me.1 seat.new.me.1 }
    ensures still_listed { carried.new ≡ slots_of seat.new.me.1 }
{
    let Some(turns) = carried.position(slot) else {
        unreachable!()
    };
    for _ in 0..turns {
        seat.turn();
        carried.turn();
    }
    shared.exchange(seat, slot, new)
}

//! A reader: what a thread works on the list with.
ghost use Rattle.std.specs.Prelude.{◌≡◌, ◌<◌, false, None};
ghost use Rattle.pin_book.specs.declared.limits.TheConstants.{READER_NUMBERS};
ghost use Rattle.pin_core.specs.Core.{IsReader};
ghost use Rattle.pin_table.specs.Handles.{AreAllHeld};
ghost use Rattle.pin_table.specs.Position.{IsAfter};
ghost use Rattle.pin_table.specs.Table.{IsAt, plan};

use crate::hand::Hand;
use crate::packing::unpack_front;
use crate::position::Position;
use crate::shelf::SHELF_COPIES;
use crate::table::PinTable;
use arrayvec::ArrayVec;
use pin_book::Payload;
use pin_core::Entry;

/// The most handles that a reader has.
pub const MOST_HANDLES: usize = SHELF_COPIES;

/// What a thread works on the list with. It has a reader number of its table for as long as it is out.
#[derive(Drop)]
pub struct Reader<'t, P: Payload> {
    pub(crate) table: &'t PinTable<P>,
    pub(crate) hand: Hand<P>,
    pub(crate) number: u32,
    pub(crate) allowance: u32,
    // The front that the reader has seen last.
    pub(crate) seen: Position,
    // The pins of its handles, in the order in which they were added.
    pub(crate) entries: ArrayVec<Entry, MOST_HANDLES>,
    pub ghost at: { IsAt table.now hand.seat },
    pub ghost small: { number < READER_NUMBERS },
    pub ghost reader: { IsReader number hand.seat.me.0.core },
    pub ghost idle: { (hand.seat.me.0.core.turn ≡ false) × (hand.seat.me.0.core.claimed ≡ None) },
    pub ghost handles: { AreAllHeld (plan table.now).slots hand.seat.me.0.core },
    ghost allowed: { allowance ≡ hand.seat.me.0.core.allowance },
    ghost position: { IsAfter table.now.slots hand.seat.me.0.core.seen seen },
    ghost pins: { entries.items ≡ hand.seat.me.0.core.entries },
}

impl<'t, P: Payload> Reader<'t, P> {
    ghost use Rattle.pin_table.specs.Kept.{KeepsHandles};
    ghost use Rattle.pin_table.specs.Reader.{Looks};

    /// Loads the front word, and returns the front that it shows.
    pub fn look(&mut self) -> Position
        ensures looks { Looks self.old self.new result }
        ensures handles { KeepsHandles P.home P.source self.old self.new }
    {
        let found = self.hand.load(self.table, self.number);
        self.seen = unpack_front(found);
        self.seen
    }
}

//! What a reader has in hand: its seat, and the places that the seat carries.
//!
//! A handle's copy is taken out of the reader's own place at the handle's slot, and put back there.
ghost use Rattle.std.specs.Prelude.{◌≡◌, ◌≢◌, ◌<◌, ◌/◌, ◌^◌, ◌==◌, true, not, length, slice_get, Some, IfOk, IfErr};
ghost use Rattle.std.specs.Arc.{arc_value};
ghost use Rattle.std.specs.List.{list_any, remove};
ghost use Rattle.pin_book.specs.declared.limits.TheConstants.{READER_NUMBERS};
ghost use Rattle.pin_book.specs.Replay.{replays};
ghost use Rattle.pin_core.specs.declared.entry.Entry.{Entry};
ghost use Rattle.pin_core.specs.Core.{IsReader, times};
ghost use Rattle.pin_core.specs.Packing.{place};
ghost use Rattle.pin_core.specs.Lawful.{entry_number};
ghost use Rattle.pin_core.specs.Step.{MayPin, unpinned};
ghost use Rattle.pin_table.specs.Carried.{slots_of};
ghost use Rattle.pin_table.specs.Handles.{CarriesPlaces, HoldsFront, HasCopyAt, HasRoomAt, CopyTaken, CopyPut, IsOf, entry_source, AreAllHeld, PinHeld, PinMissed};
ghost use Rattle.pin_table.specs.Plays.{ForReader, FrontLoaded};
ghost use Rattle.pin_table.specs.Position.{IsAfter};
ghost use Rattle.pin_table.specs.Seat.{knowing};
ghost use Rattle.pin_table.specs.Table.{IsAt, plan};

use crate::cell::Cell;
use crate::exchange::{Carried, exchange};
use crate::position::Position;
use crate::rule::Chair;
use crate::steps::{add_pin, load_front, take_pin};
use crate::table::PinTable;
use pin_book::{Payload, READER_NUMBERS};
use pin_core::Entry;
use std::sync::Arc;

/// A reader's seat, with its own place at each slot where it has a handle.
#[derive(Drop)]
pub struct Hand<P: Payload> {
    pub seat: Chair<P>,
    // Which slots of the base the seat carries.
    pub(crate) carried: Carried,
    ghost listed: { carried ≡ slots_of seat.me.1 },
    pub ghost places: { ForReader seat.me.0 (λ plan number. CarriesPlaces P.home P.source plan number seat.me.0.core seat.me.1) },
}

impl<P: Payload> Hand<P> {
    /// Loads the front word.
    pub(crate) fn load(&mut self, table: &PinTable<P>, number: u32) -> u64
        requires own { IsAt table.now self.old.seat }
        requires reader { IsReader number self.old.seat.me.0.core }
        requires held { AreAllHeld (plan table.now).slots self.old.seat.me.0.core }
        ensures own { IsAt table.now self.new.seat }
        ensures loaded { FrontLoaded (plan table.now) number self.old.seat.me result self.new.seat.me }
    {
        load_front(table, &mut self.seat, number)
    }

    /// Adds a pin at the front that the reader has seen last, beside its pins so far, and returns a copy of the version
    /// there. Where the slot's word shows another number there is a later front by now. Then the pin comes off again, once
    /// the front word is loaded, which is returned.
    pub(crate) fn pin(
        &mut self,
        table: &PinTable<P>,
        number: u32,
        seen: Position,
        pins: usize,
        is_first: bool,
    ) -> Result<Arc<P>, u64>
        requires own { IsAt table.now self.old.seat }
        requires reader { (number < READER_NUMBERS) × IsReader number self.old.seat.me.0.core }
        requires may { MayPin self.old.seat.me.0.core }
        requires held { AreAllHeld (plan table.now).slots self.old.seat.me.0.core }
        requires replay { replays (plan table.now).slots self.old.seat.me.0.core.seen ≡ true }
        requires front { IsAfter (plan table.now).slots self.old.seat.me.0.core.seen seen }
        requires pins { pins ≡ length self.old.seat.me.0.core.entries }
        requires first { is_first ≡ not (list_any (λ (e : Entry). e.slot == seen.slot) self.old.seat.me.0.core.entries) }
        ensures own { IsAt table.now self.new.seat }
        ensures pinned { IfOk result (λ copy. PinHeld P.home P.source (plan table.now) self.old.seat.me (arc_value copy) self.new.seat.me) }
        ensures missed { IfErr result (λ word. PinMissed (plan table.now) number self.old.seat.me word self.new.seat.me) }
    {
        let found = add_pin(table, &mut self.seat, number, seen.slot);
        if (found >> 32) as u32 != seen.n {
            let word = load_front(table, &mut self.seat, number);
            let stray = Entry {
                slot: seen.slot,
                position: seen.w,
                held: false,
            };
            take_pin(table, &mut self.seat, number, pins, stray);
            return Err(word);
        }
        let place = place_of(seen.slot, number);
        if is_first {
            self.carried.take(place);
        }
        Ok(take_copy(table, &mut self.seat, &mut self.carried, place))
    }

    /// Puts a copy back at the place of this pin, and takes the pin off, which stands so far behind the first. Returns
    /// what the slot's word showed.
    pub(crate) fn unpin(
        &mut self,
        table: &PinTable<P>,
        number: u32,
        at: usize,
        entry: Entry,
        copy: Arc<P>,
        is_last: bool,
    ) -> u64
        requires own { IsAt table.now self.old.seat }
        requires reader { (number < READER_NUMBERS) × IsReader number self.old.seat.me.0.core }
        requires held { AreAllHeld (plan table.now).slots self.old.seat.me.0.core }
        requires replay { replays (plan table.now).slots self.old.seat.me.0.core.seen ≡ true }
        requires there { slice_get self.old.seat.me.0.core.entries at ≡ Some entry }
        requires copy { IsOf P.home P.source (P.home (plan table.now).first) (entry_source (plan table.now).slots self.old.seat.me.0.core.seen entry) (arc_value copy) }
        requires last { is_last ≡ not (list_any (λ (e : Entry). e.slot == entry.slot) (remove self.old.seat.me.0.core.entries at)) }
        ensures own { IsAt table.now self.new.seat }
        ensures unpinned { self.new.seat.me.0 ≡ knowing (unpinned at self.old.seat.me.0.core) self.old.seat.me.0 }
        ensures shown { result / 2 ^ 32 ≡ entry_number (plan table.now).slots self.old.seat.me.0.core.seen entry }
    {
        let place = place_of(entry.slot, number);
        put_copy(table, &mut self.seat, &mut self.carried, place, copy);
        let found = take_pin(table, &mut self.seat, number, at, entry);
        if is_last {
            self.carried.give();
        }
        found
    }
}

/// The place of this reader at this slot.
fn place_of(slot: u32, number: u32) -> usize
    ensures { result ≡ place slot number }
{
    READER_NUMBERS * slot as usize + number as usize
}

/// Takes a copy out of a place that the seat carries.
fn take_copy<P: Payload>(
    table: &PinTable<P>,
    seat: &mut Chair<P>,
    carried: &mut Carried,
    place: usize,
) -> Arc<P>
    requires own { IsAt table.now seat.old }
    requires listed { carried.old ≡ slots_of seat.old.me.1 }
    requires once { times place carried.old ≡ 1 }
    requires some { HasCopyAt place seat.old.me.1 }
    ensures own { IsAt table.now seat.new }
    ensures same { seat.new.me.0 ≡ seat.old.me.0 }
    ensures taken { CopyTaken place (arc_value result) seat.old.me.1 seat.new.me.1 }
    ensures still_listed { carried.new ≡ slots_of seat.new.me.1 }
{
    let Cell::Place(shelf) = exchange(&table.base.shared, seat, carried, place, Cell::Empty) else {
        unreachable!()
    };
    let (copy, others) = shelf.take();
    exchange(
        &table.base.shared,
        seat,
        carried,
        place,
        Cell::Place(others),
    );
    copy
}

/// Puts a copy back at a place that the seat carries, which is the head then.
fn put_copy<P: Payload>(
    table: &PinTable<P>,
    seat: &mut Chair<P>,
    carried: &mut Carried,
    place: usize,
    copy: Arc<P>,
)
    requires own { IsAt table.now seat.old }
    requires listed { carried.old ≡ slots_of seat.old.me.1 }
    requires once { times place carried.old ≡ 1 }
    requires room { HasRoomAt P.home P.source place (arc_value copy) seat.old.me.1 }
    ensures own { IsAt table.now seat.new }
    ensures same { seat.new.me.0 ≡ seat.old.me.0 }
    ensures put { CopyPut place (arc_value copy) seat.old.me.1 seat.new.me.1 }
    ensures still_listed { carried.new ≡ slots_of seat.new.me.1 }
{
    let Cell::Place(shelf) = exchange(&table.base.shared, seat, carried, place, Cell::Empty) else {
        unreachable!()
    };
    let full = Cell::Place(shelf.put_back(copy));
    exchange(&table.base.shared, seat, carried, place, full);
}

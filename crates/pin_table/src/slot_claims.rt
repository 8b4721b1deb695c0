//! Which slot a push takes: a reader that has the turn tries to claim the unlisted ones, from the first on.
ghost use Rattle.std.specs.Prelude.{◌≡◌, ◌+◌, ◌<◌, ◌≤◌, ◌++◌, true, false, None, [], length, drop, IfSome, IfNone, Contains};
ghost use Rattle.pin_book.specs.Replay.{is_taken, kept_number, front_number};
ghost use Rattle.pin_core.specs.declared.entry.Entry.{Entry};
ghost use Rattle.pin_core.specs.Core.{IsReader};
ghost use Rattle.pin_core.specs.Packing.{place as place_of};
ghost use Rattle.pin_table.specs.Carried.{slots_of};
ghost use Rattle.pin_table.specs.Claims.{PassesSlot, PassesBelow, ClaimsLeast};
ghost use Rattle.pin_table.specs.declared.exchange.TheConstants.{MOST_CARRIED};
ghost use Rattle.pin_table.specs.Plays.{SlotClaimed};
ghost use Rattle.pin_table.specs.Runs.{run_slots};
ghost use Rattle.pin_table.specs.Table.{IsAt, plan};

use crate::exchange::{Carried, MOST_CARRIED};
use crate::packing::pack_slot;
use crate::rule::Chair;
use crate::steps::try_claim;
use crate::table::PinTable;
use pin_book::{Book, Payload, READER_NUMBERS};

/// The first place of this slot.
pub(crate) fn first_place(slot: u32) -> usize
    ensures { result ≡ place_of slot 0 }
{
    READER_NUMBERS * slot as usize
}

/// The seat takes so many slots of the base from this one on, the first last.
fn take_run(carried: &mut Carried, first: usize, count: usize)
    requires room { length carried.old + count ≤ MOST_CARRIED }
    requires small { first < 65536 }
    ensures { carried.new ≡ run_slots first count ++ carried.old }
{
    let mut left = count;
    while left > 0 {
        left -= 1;
        carried.take(first + left);
    }
}

/// The seat gives so many slots back, the head first.
pub(crate) fn give_run(carried: &mut Carried, count: usize)
    ensures { carried.new ≡ drop count carried.old }
{
    for _ in 0..count {
        carried.give();
    }
}

/// Whether a listed version is in the slot.
#[tactic(auto, unfolding(pin_book::specs::Replay::is_taken))]
fn is_taken_in(book: &Book, slot: u32) -> bool
    ensures { result ≡ is_taken book.now.slots book.now.journal slot }
{
    book.is_slot_listed(slot)
}

/// The number that the slot keeps.
#[tactic(auto, unfolding(pin_book::specs::Replay::kept_number))]
fn kept_in(book: &Book, slot: u32) -> u32
    requires { slot < book.now.slots }
    ensures { result ≡ kept_number book.now.slots book.now.journal slot }
{
    book.kept(slot)
}

/// Tries to claim the slot, if nothing listed is in it, and takes its places where it does.
fn try_slot<P: Payload>(
    table: &PinTable<P>,
    seat: &mut Chair<P>,
    carried: &mut Carried,
    number: u32,
    slot: u32,
    next: u32,
    book: &Book,
) -> bool
    requires own { IsAt table.now seat.old }
    requires reader { IsReader number seat.old.me.0.core }
    requires turn { (seat.old.me.0.core.turn ≡ true) × (seat.old.me.0.core.claimed ≡ None) }
    requires inside { slot < (plan table.now).slots }
    requires next { next ≡ front_number (plan table.now).slots seat.old.me.0.core.seen + 1 }
    requires book { (book.now.slots ≡ (plan table.now).slots) × (book.now.journal ≡ seat.old.me.0.core.seen) }
    requires listed { carried.old ≡ slots_of seat.old.me.1 }
    requires room { length carried.old + (plan table.now).readers ≤ MOST_CARRIED }
    ensures own { IsAt table.now seat.new }
    ensures listed { carried.new ≡ slots_of seat.new.me.1 }
    ensures claimed { result ≡ true → (is_taken (plan table.now).slots seat.old.me.0.core.seen slot ≡ false) × SlotClaimed (plan table.now) slot seat.old.me seat.new.me }
    ensures passed { result ≡ false → PassesSlot (plan table.now) slot seat.old.me seat.new.me }
{
    if is_taken_in(book, slot) {
        return false;
    }
    let kept = kept_in(book, slot);
    let found = try_claim(table, seat, number, slot, kept, next);
    if found != pack_slot(kept, 0) {
        return false;
    }
    take_run(carried, first_place(slot), table.readers as usize);
    true
}

/// Claims the least slot that can be, and takes its places.
pub(crate) fn claim_least<P: Payload>(
    table: &PinTable<P>,
    seat: &mut Chair<P>,
    carried: &mut Carried,
    number: u32,
    next: u32,
    book: &Book,
) -> Option<u32>
    requires own { IsAt table.now seat.old }
    requires reader { IsReader number seat.old.me.0.core }
    requires turn { (seat.old.me.0.core.turn ≡ true) × (seat.old.me.0.core.claimed ≡ None) }
    requires fresh { seat.old.me.0.core.pinned ≡ [] }
    requires held { (e : Entry) → Contains seat.old.me.0.core.entries e → e.held ≡ true }
    requires next { next ≡ front_number (plan table.now).slots seat.old.me.0.core.seen + 1 }
    requires book { (book.now.slots ≡ (plan table.now).slots) × (book.now.journal ≡ seat.old.me.0.core.seen) }
    requires listed { carried.old ≡ slots_of seat.old.me.1 }
    requires room { length carried.old + (plan table.now).readers ≤ MOST_CARRIED }
    ensures own { IsAt table.now seat.new }
    ensures listed { carried.new ≡ slots_of seat.new.me.1 }
    ensures claimed { IfSome result (λ slot. ClaimsLeast (plan table.now) slot seat.old.me seat.new.me) }
    ensures full { IfNone result (PassesBelow (plan table.now) (plan table.now).slots seat.old.me seat.new.me) }
{
    for slot in 0..table.slots {
        if try_slot(table, seat, carried, number, slot, next, book) {
            return Some(slot);
        }
    }
    None
}

//! The atomic steps of a reader, one in each call. They are all that a reader does to the words of its table.
ghost use Rattle.std.specs.Prelude.{◌≡◌, ◌+◌, ◌<◌, ◌^◌, [], ◌∷◌, ◌++◌, true};
ghost use Rattle.pin_book.specs.Replay.{front_number, front_slot, kept_number};
ghost use Rattle.pin_core.specs.Core.{IsReader, held_at};
ghost use Rattle.pin_core.specs.Lawful.{entry_number};
ghost use Rattle.pin_core.specs.Step.{MayPin, MayTake, MayTakeTurn, MayGive};
ghost use Rattle.pin_core.specs.Packing.{place as place_of};
ghost use Rattle.pin_table.specs.Layout.{slot_word};
ghost use Rattle.pin_table.specs.Plays.{FrontLoaded, PinAdded, PinTaken, MayGivePlace, TurnTried, TurnGiven, MayClaimSlot, SlotTried, MayWrite, IsErase, EraseStored, PushesStocked, PushStored, book_cell};
ghost use Rattle.pin_table.specs.Position.{IsAfter};
ghost use Rattle.pin_table.specs.Table.{IsAt, plan};
ghost use Rattle.atomic_table.specs.Table.{rest};

use crate::layout::{FIRST_SLOT_WORD, FRONT_WORD, TURN_WORD, WORD_STRIDE};
use crate::packing::{NOBODY, pack_front, pack_slot, pack_turn};
use crate::plays::{
    AddPin, GiveTurn, LoadFront, StoreErase, StorePush, TakePin, TryClaim, TryTurn, WhichPin,
    WhichSlot, WhichWrite,
};
use crate::position::Position;
use crate::rule::Chair;
use crate::table::PinTable;
use pin_book::{Payload, Write};
use pin_core::Entry;
use std::marker::Brand;

/// The word of this slot.
fn slot_word(slot: u32) -> usize
    ensures { result ≡ slot_word slot }
{
    FIRST_SLOT_WORD + WORD_STRIDE * slot as usize
}

/// Loads the front word.
pub(crate) fn load_front<P: Payload>(table: &PinTable<P>, seat: &mut Chair<P>, number: u32) -> u64
    requires own { IsAt table.now seat.old }
    requires reader { IsReader number seat.old.me.0.core }
    ensures own { IsAt table.now seat.new }
    ensures loaded { FrontLoaded (plan table.now) number seat.old.me result seat.new.me }
{
    let _ = number;
    table.base.shared.load::<LoadFront<P>>(seat, FRONT_WORD)
}

/// Adds a pin at the slot of the front that the reader has seen last.
pub(crate) fn add_pin<P: Payload>(
    table: &PinTable<P>,
    seat: &mut Chair<P>,
    number: u32,
    slot: u32,
) -> u64
    requires own { IsAt table.now seat.old }
    requires reader { IsReader number seat.old.me.0.core }
    requires may { MayPin seat.old.me.0.core }
    requires front { slot ≡ front_slot (plan table.now).slots seat.old.me.0.core.seen }
    requires inside { slot < (plan table.now).slots }
    ensures own { IsAt table.now seat.new }
    ensures added { PinAdded P.home P.source (plan table.now) number seat.old.me result seat.new.me }
{
    let _ = number;
    table
        .base
        .shared
        .fetch_add::<AddPin<P>>(seat, slot_word(slot), 1)
}

/// Takes the pin off that the caller's proof picks for W.
fn take_pin_as<W: WhichPin, P: Payload>(
    table: &PinTable<P>,
    seat: &mut Chair<P>,
    number: u32,
    place: usize,
    entry: Entry,
) -> u64
    requires picked { (place ≡ W.place) × (entry ≡ W.entry) }
    requires own { IsAt table.now seat.old }
    requires reader { IsReader number seat.old.me.0.core }
    requires may { MayTake place entry seat.old.me.0.core }
    requires inside { entry.slot < (plan table.now).slots }
    requires home { entry.held ≡ true → held_at entry.slot seat.old.me.0.core ≡ 1
        → MayGivePlace P.home P.source (plan table.now) seat.old.me.0.core.seen (entry_number (plan table.now).slots seat.old.me.0.core.seen entry) (place_of entry.slot number) seat.old.me.1 }
    ensures own { IsAt table.now seat.new }
    ensures taken { PinTaken P.home P.source (plan table.now) place entry seat.old.me result seat.new.me }
{
    let _ = (number, place);
    table
        .base
        .shared
        .fetch_sub::<TakePin<P, W>>(seat, slot_word(entry.slot), 1)
}

/// Takes this pin off, which stands at this place among the reader's pins. With the last handle at its slot the reader
/// gives its place back, which it has taken last then.
pub(crate) fn take_pin<P: Payload>(
    table: &PinTable<P>,
    seat: &mut Chair<P>,
    number: u32,
    place: usize,
    entry: Entry,
) -> u64
    requires own { IsAt table.now seat.old }
    requires reader { IsReader number seat.old.me.0.core }
    requires may { MayTake place entry seat.old.me.0.core }
    requires inside { entry.slot < (plan table.now).slots }
    requires home { entry.held ≡ true → held_at entry.slot seat.old.me.0.core ≡ 1
        → MayGivePlace P.home P.source (plan table.now) seat.old.me.0.core.seen (entry_number (plan table.now).slots seat.old.me.0.core.seen entry) (place_of entry.slot number) seat.old.me.1 }
    ensures own { IsAt table.now seat.new }
    ensures taken { PinTaken P.home P.source (plan table.now) place entry seat.old.me result seat.new.me }
{
    take_pin_as::<Brand, P>(table, seat, number, place, entry)
}

/// Tries to take the turn, from nobody.
pub(crate) fn try_turn<P: Payload>(table: &PinTable<P>, seat: &mut Chair<P>, number: u32) -> u64
    requires own { IsAt table.now seat.old }
    requires reader { IsReader number seat.old.me.0.core }
    requires may { MayTakeTurn seat.old.me.0.core }
    ensures own { IsAt table.now seat.new }
    ensures tried { TurnTried P.home P.name_of (plan table.now) number seat.old.me result seat.new.me }
{
    table
        .base
        .shared
        .compare_exchange::<TryTurn<P>>(seat, TURN_WORD, NOBODY, pack_turn(number))
}

/// Gives the turn back, and the book, which the reader has taken last then.
pub(crate) fn give_turn<P: Payload>(table: &PinTable<P>, seat: &mut Chair<P>, number: u32)
    requires own { IsAt table.now seat.old }
    requires reader { IsReader number seat.old.me.0.core }
    requires may { MayGive seat.old.me.0.core }
    requires book { seat.old.me.1 ≡ book_cell P.home P.name_of (plan table.now) seat.old.me.0.core.seen ∷ rest seat.old.me.1 }
    ensures own { IsAt table.now seat.new }
    ensures given { TurnGiven seat.old.me seat.new.me }
{
    let _ = number;
    table.base.shared.store::<GiveTurn>(seat, TURN_WORD, NOBODY)
}

/// Tries to claim the slot that the caller's proof picks for W.
fn try_claim_as<W: WhichSlot, P: Payload>(
    table: &PinTable<P>,
    seat: &mut Chair<P>,
    number: u32,
    slot: u32,
    kept: u32,
    next: u32,
) -> u64
    requires picked { slot ≡ W.slot }
    requires own { IsAt table.now seat.old }
    requires reader { IsReader number seat.old.me.0.core }
    requires may { MayClaimSlot (plan table.now).slots slot seat.old.me.0.core }
    requires kept { kept ≡ kept_number (plan table.now).slots seat.old.me.0.core.seen slot }
    requires next { next ≡ front_number (plan table.now).slots seat.old.me.0.core.seen + 1 }
    ensures own { IsAt table.now seat.new }
    ensures tried { SlotTried (plan table.now) slot seat.old.me result seat.new.me }
{
    let _ = number;
    let unpinned = pack_slot(kept, 0);
    let claimed = pack_slot(next, 0);
    table
        .base
        .shared
        .compare_exchange::<TryClaim<P, W>>(seat, slot_word(slot), unpinned, claimed)
}

/// Tries to claim this slot, in which nothing listed is: from the number that it keeps and no pin to the number that
/// comes next.
pub(crate) fn try_claim<P: Payload>(
    table: &PinTable<P>,
    seat: &mut Chair<P>,
    number: u32,
    slot: u32,
    kept: u32,
    next: u32,
) -> u64
    requires own { IsAt table.now seat.old }
    requires reader { IsReader number seat.old.me.0.core }
    requires may { MayClaimSlot (plan table.now).slots slot seat.old.me.0.core }
    requires kept { kept ≡ kept_number (plan table.now).slots seat.old.me.0.core.seen slot }
    requires next { next ≡ front_number (plan table.now).slots seat.old.me.0.core.seen + 1 }
    ensures own { IsAt table.now seat.new }
    ensures tried { SlotTried (plan table.now) slot seat.old.me result seat.new.me }
{
    try_claim_as::<Brand, P>(table, seat, number, slot, kept, next)
}

/// Stores the front word after the erase that the caller's proof picks for W.
fn store_erase_as<W: WhichWrite, P: Payload>(
    table: &PinTable<P>,
    seat: &mut Chair<P>,
    number: u32,
    write: Write,
    front: Position,
)
    requires picked { write ≡ W.write }
    requires own { IsAt table.now seat.old }
    requires reader { IsReader number seat.old.me.0.core }
    requires may { MayWrite (plan table.now).slots number write seat.old.me.0.core }
    requires erase { IsErase write.change }
    requires front { IsAfter (plan table.now).slots (seat.old.me.0.core.seen ++ write ∷ []) front }
    requires small { (front.n < 2 ^ 26) × (front.slot < 2 ^ 6) }
    ensures own { IsAt table.now seat.new }
    ensures stored { EraseStored write seat.old.me seat.new.me }
{
    let _ = (number, write);
    let word = pack_front(front.w, front.n, front.slot);
    table
        .base
        .shared
        .store::<StoreErase<W>>(seat, FRONT_WORD, word)
}

/// Stores the front word after this erase.
pub(crate) fn store_erase<P: Payload>(
    table: &PinTable<P>,
    seat: &mut Chair<P>,
    number: u32,
    write: Write,
    front: Position,
)
    requires own { IsAt table.now seat.old }
    requires reader { IsReader number seat.old.me.0.core }
    requires may { MayWrite (plan table.now).slots number write seat.old.me.0.core }
    requires erase { IsErase write.change }
    requires front { IsAfter (plan table.now).slots (seat.old.me.0.core.seen ++ write ∷ []) front }
    requires small { (front.n < 2 ^ 26) × (front.slot < 2 ^ 6) }
    ensures own { IsAt table.now seat.new }
    ensures stored { EraseStored write seat.old.me seat.new.me }
{
    store_erase_as::<Brand, P>(table, seat, number, write, front)
}

/// Stores the front word after the push that the caller's proof picks for W.
fn store_push_as<W: WhichWrite, P: Payload>(
    table: &PinTable<P>,
    seat: &mut Chair<P>,
    number: u32,
    write: Write,
    front: Position,
)
    requires picked { write ≡ W.write }
    requires own { IsAt table.now seat.old }
    requires reader { IsReader number seat.old.me.0.core }
    requires may { MayWrite (plan table.now).slots number write seat.old.me.0.core }
    requires push { PushesStocked P.home P.source (plan table.now) write.change seat.old.me.1 }
    requires front { IsAfter (plan table.now).slots (seat.old.me.0.core.seen ++ write ∷ []) front }
    requires small { (front.n < 2 ^ 26) × (front.slot < 2 ^ 6) }
    ensures own { IsAt table.now seat.new }
    ensures stored { PushStored (plan table.now) write seat.old.me seat.new.me }
{
    let _ = (number, write);
    let word = pack_front(front.w, front.n, front.slot);
    table
        .base
        .shared
        .store::<StorePush<P, W>>(seat, FRONT_WORD, word)
}

/// Stores the front word after this push, and gives the places of its slot back, which the reader has taken last and
/// which are stocked with the version.
pub(crate) fn store_push<P: Payload>(
    table: &PinTable<P>,
    seat: &mut Chair<P>,
    number: u32,
    write: Write,
    front: Position,
)
    requires own { IsAt table.now seat.old }
    requires reader { IsReader number seat.old.me.0.core }
    requires may { MayWrite (plan table.now).slots number write seat.old.me.0.core }
    requires push { PushesStocked P.home P.source (plan table.now) write.change seat.old.me.1 }
    requires front { IsAfter (plan table.now).slots (seat.old.me.0.core.seen ++ write ∷ []) front }
    requires small { (front.n < 2 ^ 26) × (front.slot < 2 ^ 6) }
    ensures own { IsAt table.now seat.new }
    ensures stored { PushStored (plan table.now) write seat.old.me seat.new.me }
{
    store_push_as::<Brand, P>(table, seat, number, write, front)
}

//! The calls of a reader that push a version.
ghost use Rattle.std.specs.Prelude.{◌≡◌, ◌+◌, ◌<◌, ◌≤◌, ◌++◌, true, false, None, Some, [], ◌∷◌, length, drop, replicate, IfOk, IfErr, OnErr, Contains, Ok, Err, ◌↔◌};
ghost use Rattle.pin_book.specs.declared.write.Change.TheVariants.{Push};
ghost use Rattle.pin_book.specs.Replay.{is_taken, front_number, front_of};
ghost use Rattle.pin_core.specs.declared.entry.Entry.{Entry};
ghost use Rattle.pin_core.specs.Core.{IsReader, times};
ghost use Rattle.pin_core.specs.Packing.{place as place_of};
ghost use Rattle.pin_core.specs.Step.{stored};
ghost use Rattle.pin_table.specs.BookHeld.{WritesIn};
ghost use Rattle.pin_table.specs.Carried.{slots_of};
ghost use Rattle.pin_table.specs.Claims.{FillsPlace, FreePlaces};
ghost use Rattle.pin_book.specs.Book.{IsBook, list_of};
ghost use Rattle.pin_book.specs.Names.{with_name};
ghost use Rattle.pin_table.specs.declared.exchange.TheConstants.{MOST_CARRIED};
ghost use Rattle.pin_table.specs.Turns.{PushAnswers, Pushes, RefusesPush, AfterWait};
ghost use Rattle.pin_book.specs.Sequence.{next_seq};
ghost use Rattle.pin_table.specs.declared.cell.Cell.TheVariants.{Place};
ghost use Rattle.pin_table.specs.Idle.{IsIdle};
ghost use Rattle.pin_table.specs.Kept.{KeepsPins, KeepsWrites, KeepsHandles};
ghost use Rattle.pin_table.specs.Position.{IsAfter};
ghost use Rattle.pin_table.specs.Reader.{reader_view};
ghost use Rattle.pin_table.specs.Runs.{run_from, CarriesRun};
ghost use Rattle.pin_table.specs.Seat.{knowing};
ghost use Rattle.pin_table.specs.Shelf.{full_shelf};
ghost use Rattle.pin_table.specs.Sources.{book_of};
ghost use Rattle.pin_table.specs.Table.{IsAt, plan};

use crate::answers::{PushRefused, PushWhy, Pushed};
use crate::cell::Cell;
use crate::copies::Copies;
use crate::exchange::{Carried, exchange};
use crate::hand::Hand;
use crate::position::Position;
use crate::reader::Reader;
use crate::rule::Chair;
use crate::shelf::Shelf;
use crate::slot_claims::{claim_least, first_place, give_run};
use crate::steps::store_push;
use crate::table::PinTable;
use crate::turns::{front_in, give_turn_back, take_turn};
use pin_book::{Book, Payload, Write};
use std::sync::Wait;
use std::thread;
use tz_types::VersionText;

/// Puts a shelf into a place that the seat carries.
fn fill<P: Payload>(
    table: &PinTable<P>,
    seat: &mut Chair<P>,
    carried: &mut Carried,
    place: usize,
    shelf: Shelf<P>,
)
    requires own { seat.old.table_id ≡ table.now.base.shared.table_id }
    requires listed { carried.old ≡ slots_of seat.old.me.1 }
    requires taken { times place carried.old ≡ 1 }
    ensures same { (seat.new.table_id ≡ seat.old.table_id) × (seat.new.me.0 ≡ seat.old.me.0) }
    ensures filled { FillsPlace place (Place shelf) seat.old.me.1 seat.new.me.1 }
    ensures listed { carried.new ≡ slots_of seat.new.me.1 }
{
    let _ = exchange(&table.base.shared, seat, carried, place, Cell::Place(shelf));
}

/// Fills the places of this slot, which the seat has taken last, from the last to the first, so that they stand first in
/// their order again.
fn refill<P: Payload>(
    table: &PinTable<P>,
    seat: &mut Chair<P>,
    carried: &mut Carried,
    slot: u32,
    copies: Copies<P>,
)
    requires own { seat.old.table_id ≡ table.now.base.shared.table_id }
    requires listed { carried.old ≡ slots_of seat.old.me.1 }
    requires many { copies.readers ≡ (plan table.now).readers }
    requires run { CarriesRun (place_of slot 0) (plan table.now).readers seat.old.me.1 }
    ensures same { (seat.new.table_id ≡ seat.old.table_id) × (seat.new.me.0 ≡ seat.old.me.0) }
    ensures stocked { seat.new.me.1 ≡ run_from (place_of slot 0) (replicate (plan table.now).readers (Place (full_shelf copies.version))) ++ drop (plan table.now).readers seat.old.me.1 }
    ensures listed { carried.new ≡ slots_of seat.new.me.1 }
{
    let first = first_place(slot);
    let mut shelves = copies.into_shelves();
    let mut left = table.readers as usize;
    while left > 0 {
        left -= 1;
        let Some(shelf) = shelves.pop() else {
            unreachable!()
        };
        fill(table, seat, carried, first + left, shelf);
    }
}

/// Writes a push into the book.
#[tactic(auto, unfolding(pin_book::specs::Replay::is_taken, pin_book::specs::Replay::front_number))]
fn write_push(book: &mut Book, by: u32, src: u32, name: VersionText, slot: u32) -> Write
    requires room { length book.old.journal < book.old.room }
    requires slot { slot < book.old.slots }
    requires unlisted { is_taken book.old.slots book.old.journal slot ≡ false }
    ensures write { result ≡ record { by = by; seq = next_seq by book.old.journal; change = Push (front_number book.old.slots book.old.journal + 1) src slot } }
    ensures book { book.new ≡ record book.old { journal = book.old.journal ++ result ∷ []; names = book.old.names ++ name ∷ [] } }
    ensures whole { IsBook book.new }
{
    let place = book.w() as usize;
    let _ = book.push(by, src, name, slot);
    book.entries()[place]
}

/// Pushes the version into this slot, which is claimed.
fn push_into<P: Payload>(
    table: &PinTable<P>,
    seat: &mut Chair<P>,
    carried: &mut Carried,
    number: u32,
    slot: u32,
    next: u32,
    copies: Copies<P>,
    book: &mut Book,
) -> Pushed
    requires own { IsAt table.now seat.old }
    requires reader { IsReader number seat.old.me.0.core }
    requires writes { WritesIn P.home P.name_of (plan table.now) number seat.old.me.0.core book.old }
    requires allowance { 0 < seat.old.me.0.core.allowance }
    requires slot { (slot < (plan table.now).slots) × (is_taken (plan table.now).slots seat.old.me.0.core.seen slot ≡ false) }
    requires next { next ≡ front_number (plan table.now).slots seat.old.me.0.core.seen + 1 }
    requires claimed { seat.old.me.0.core.claimed ≡ Some slot }
    requires copies { (copies.readers ≡ (plan table.now).readers) × (P.home copies.version ≡ P.home (plan table.now).first) }
    requires run { CarriesRun (place_of slot 0) (plan table.now).readers seat.old.me.1 }
    requires listed { carried.old ≡ slots_of seat.old.me.1 }
    ensures own { IsAt table.now seat.new }
    ensures pushed { result ≡ record { w = length seat.old.me.0.core.seen + 1; n = front_number (plan table.now).slots seat.old.me.0.core.seen + 1; slot = slot } }
    ensures stored { seat.new.me ≡ (knowing (stored record { by = number; seq = length seat.old.me.0.core.own + 1; change = Push result.n (P.source copies.version) slot } seat.old.me.0.core) seat.old.me.0, drop (plan table.now).readers seat.old.me.1) }
    ensures book { book.new ≡ book_of P.name_of (P.home (plan table.now).first) (plan table.now).slots (plan table.now).room seat.new.me.0.core.seen }
    ensures listed { carried.new ≡ slots_of seat.new.me.1 }
{
    let w = book.w();
    let src = copies.version().src();
    let name = copies.version().name();
    refill(table, seat, carried, slot, copies);
    let write = write_push(book, number, src, name, slot);
    store_push(table, seat, number, write, front_in(book));
    give_run(carried, table.readers as usize);
    Pushed {
        w: w + 1,
        n: next,
        slot,
    }
}

/// Whether the front has this name.
fn is_front_name(book: &Book, name: &VersionText) -> bool
    ensures { (result ≡ true) ↔ (name.now ≡ (with_name book.now.names (front_of (list_of book.now).listed)).name) }
{
    book.front().name == *name
}

/// Pushes the version in a turn, where that is possible.
fn push_by_book<P: Payload>(
    table: &PinTable<P>,
    seat: &mut Chair<P>,
    carried: &mut Carried,
    number: u32,
    allowance: u32,
    copies: Copies<P>,
    book: &mut Book,
) -> Result<Pushed, PushRefused<P>>
    requires own { IsAt table.now seat.old }
    requires reader { IsReader number seat.old.me.0.core }
    requires writes { WritesIn P.home P.name_of (plan table.now) number seat.old.me.0.core book.old }
    requires fresh { (seat.old.me.0.core.claimed ≡ None) × (seat.old.me.0.core.pinned ≡ []) }
    requires held { (e : Entry) → Contains seat.old.me.0.core.entries e → e.held ≡ true }
    requires allowance { allowance ≡ seat.old.me.0.core.allowance }
    requires copies { (copies.readers ≡ (plan table.now).readers) × (P.home copies.version ≡ P.home (plan table.now).first) }
    requires listed { carried.old ≡ slots_of seat.old.me.1 }
    requires room { length carried.old + (plan table.now).readers ≤ MOST_CARRIED }
    requires apart { FreePlaces (plan table.now) seat.old.me }
    ensures own { IsAt table.now seat.new }
    ensures pushed { IfOk result (λ pushed. PushAnswers P.home P.source P.name_of (plan table.now) number seat.old.me.0.core seat.new.me.0.core copies.version (Ok pushed)) }
    ensures refused { IfErr result (λ refused. PushAnswers P.home P.source P.name_of (plan table.now) number seat.old.me.0.core seat.new.me.0.core copies.version (Err refused.why)) }
    ensures copies { IfErr result (λ refused. refused.copies ≡ copies) }
    ensures seat { seat.new.me ≡ (knowing seat.new.me.0.core seat.old.me.0, seat.old.me.1) }
    ensures listed { carried.new ≡ slots_of seat.new.me.1 }
    ensures book { book.new ≡ book_of P.name_of (P.home (plan table.now).first) (plan table.now).slots (plan table.now).room seat.new.me.0.core.seen }
{
    let front = front_in(book);
    let w = front.w;
    if is_front_name(book, &copies.version().name()) {
        let why = PushWhy::Same { w, n: front.n };
        return Err(PushRefused { why, copies });
    }
    if allowance == 0 {
        let why = PushWhy::JournalFull { w };
        return Err(PushRefused { why, copies });
    }
    let next = front.n + 1;
    let Some(slot) = claim_least(table, seat, carried, number, next, book) else {
        let why = PushWhy::Full { w };
        return Err(PushRefused { why, copies });
    };
    Ok(push_into(table, seat, carried, number, slot, next, copies, book))
}

/// Pushes in a turn, where that is possible. The front and what is left of the allowance come along.
fn push_in_turn<P: Payload>(
    table: &PinTable<P>,
    hand: &mut Hand<P>,
    number: u32,
    allowance: u32,
    copies: Copies<P>,
) -> Result<(Result<Pushed, PushRefused<P>>, Position, u32), PushRefused<P>>
    requires own { IsAt table.now hand.old.seat }
    requires idle { IsIdle (plan table.now).slots number hand.old.seat.me.0.core }
    requires allowance { allowance ≡ hand.old.seat.me.0.core.allowance }
    requires copies { (copies.readers ≡ (plan table.now).readers) × (P.home copies.version ≡ P.home (plan table.now).first) }
    ensures own { IsAt table.now hand.new.seat }
    ensures idle { IsIdle (plan table.now).slots number hand.new.seat.me.0.core }
    ensures pushed { IfOk result (λ found. IfOk found.0 (λ pushed. Pushes P.home P.source P.name_of (plan table.now) number hand.old.seat.me.0.core hand.new.seat.me.0.core copies.version (Ok pushed))) }
    ensures refused { IfOk result (λ found. IfErr found.0 (λ refused. RefusesPush P.home P.source P.name_of (plan table.now) number hand.old.seat.me.0.core hand.new.seat.me.0.core copies.version refused.why × (refused.copies ≡ copies))) }
    ensures front { IfOk result (λ found. IsAfter (plan table.now).slots hand.new.seat.me.0.core.seen found.1) }
    ensures left { IfOk result (λ found. found.2 ≡ hand.new.seat.me.0.core.allowance) }
    ensures pins { hand.new.seat.me.0.core.entries ≡ hand.old.seat.me.0.core.entries }
    ensures busy { IfErr result (λ refused. RefusesPush P.home P.source P.name_of (plan table.now) number hand.old.seat.me.0.core hand.new.seat.me.0.core copies.version refused.why × (refused.copies ≡ copies)) }
    ensures same { IfErr result (λ refused. (hand.new.seat.me.0.core.seen ≡ hand.old.seat.me.0.core.seen) × (hand.new.seat.me.0.core.allowance ≡ hand.old.seat.me.0.core.allowance)) }
{
    let mut book = match take_turn(table, &mut hand.seat, &mut hand.carried, number) {
        Ok(book) => book,
        Err(busy) => {
            let why = PushWhy::Busy {
                holder: busy.holder,
            };
            return Err(PushRefused { why, copies });
        }
    };
    let answer = push_by_book(
        table,
        &mut hand.seat,
        &mut hand.carried,
        number,
        allowance,
        copies,
        &mut book,
    );
    let front = front_in(&book);
    give_turn_back(table, &mut hand.seat, &mut hand.carried, number, book);
    let left = match &answer {
        Ok(_) => allowance - 1,
        Err(_) => allowance,
    };
    Ok((answer, front, left))
}

impl<'t, P: Payload> Reader<'t, P> {
    /// Pushes the version that these are copies of, if no other reader has the turn. It goes into the first slot in which
    /// nothing listed is and which no reader has pinned. A push that is refused hands the copies back.
    pub fn try_push(&mut self, copies: Copies<P>) -> Result<Pushed, PushRefused<P>>
        requires copies { (copies.readers ≡ (plan self.old.table.now).readers) × (P.home copies.version ≡ P.home (plan self.old.table.now).first) }
        ensures pushed { IfOk result (λ pushed. Pushes P.home P.source P.name_of (plan self.old.table.now) self.old.number (reader_view self.old) (reader_view self.new) copies.version (Ok pushed)) }
        ensures refused { IfErr result (λ refused. RefusesPush P.home P.source P.name_of (plan self.old.table.now) self.old.number (reader_view self.old) (reader_view self.new) copies.version refused.why × (refused.copies ≡ copies)) }
        ensures table { self.new.table.now ≡ self.old.table.now }
        ensures number { self.new.number ≡ self.old.number }
        ensures kept { KeepsPins (reader_view self.old) (reader_view self.new) }
        ensures handles { KeepsHandles P.home P.source self.old self.new }
        ensures unwritten { OnErr result (KeepsWrites (reader_view self.old) (reader_view self.new)) }
    {
        let (answer, front, left) = push_in_turn(
            self.table,
            &mut self.hand,
            self.number,
            self.allowance,
            copies,
        )?;
        self.seen = front;
        self.allowance = left;
        answer
    }

    /// Pushes the version that these are copies of, once no other reader has the turn.
    pub fn push<R: Wait>(&mut self, rt: &R, copies: Copies<P>) -> Result<Pushed, PushRefused<P>>
        requires copies { (copies.readers ≡ (plan self.old.table.now).readers) × (P.home copies.version ≡ P.home (plan self.old.table.now).first) }
        ensures pushed { IfOk result (λ pushed. AfterWait (reader_view self.old) (λ v. Pushes P.home P.source P.name_of (plan self.old.table.now) self.old.number v (reader_view self.new) copies.version (Ok pushed))) }
        ensures refused { IfErr result (λ refused. AfterWait (reader_view self.old) (λ v. Pushes P.home P.source P.name_of (plan self.old.table.now) self.old.number v (reader_view self.new) copies.version (Err refused.why))) }
        ensures copies { IfErr result (λ refused. refused.copies ≡ copies) }
        ensures table { self.new.table.now ≡ self.old.table.now }
        ensures number { self.new.number ≡ self.old.number }
        ensures kept { KeepsPins (reader_view self.old) (reader_view self.new) }
        ensures handles { KeepsHandles P.home P.source self.old self.new }
        ensures unwritten { OnErr result (KeepsWrites (reader_view self.old) (reader_view self.new)) }
    {
        let mut in_hand = copies;
        for _ in rt.forever() {
            match self.try_push(in_hand) {
                Ok(pushed) => return Ok(pushed),
                Err(PushRefused { why, copies: back }) => {
                    let PushWhy::Busy { holder: _ } = why else {
                        return Err(PushRefused { why, copies: back });
                    };
                    in_hand = back;
                    thread::yield_now();
                }
            }
        }
        unreachable!()
    }
}

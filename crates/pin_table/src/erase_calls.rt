//! The calls of a reader that erase the version behind one of its handles.
ghost use Rattle.std.specs.Prelude.{◌≡◌, ◌+◌, ◌<◌, ◌≤◌, ◌∷◌, [], ◌++◌, true, length, IsTrue, IfOk, IfErr, OnErr};
ghost use Rattle.pin_book.specs.declared.write.Change.TheVariants.{Erase};
ghost use Rattle.pin_book.specs.Replay.{is_listed, greatest_below, replays};
ghost use Rattle.pin_book.specs.Sequence.{writes_by};
ghost use Rattle.pin_core.specs.Core.{IsReader};
ghost use Rattle.pin_core.specs.Step.{stored};
ghost use Rattle.pin_table.specs.BookHeld.{WritesIn};
ghost use Rattle.pin_table.specs.Handles.{MadeBy};
ghost use Rattle.pin_table.specs.Idle.{IsIdle};
ghost use Rattle.pin_table.specs.Kept.{KeepsPins, KeepsWrites, KeepsHandles};
ghost use Rattle.pin_table.specs.Position.{IsAfter};
ghost use Rattle.pin_table.specs.Reader.{reader_view};
ghost use Rattle.pin_table.specs.Seat.{knowing};
ghost use Rattle.pin_table.specs.Table.{IsAt, plan};
ghost use Rattle.pin_table.specs.Turns.{MeetsTurn, TriesErase, Erases, AfterWait, listed_after, erase_answer, view_after_erase};

use crate::answers::{Busy, EraseWhy, Erased};
use crate::hand::Hand;
use crate::pinned::Pinned;
use crate::position::Position;
use crate::reader::Reader;
use crate::rule::Chair;
use crate::steps::store_erase;
use crate::table::PinTable;
use crate::turns::{front_in, give_turn_back, take_turn};
use pin_book::{AfterError, Book, Payload};
use std::sync::Wait;
use std::thread;

/// Erases the version behind that of number `after`, and returns its number.
fn store_erased<P: Payload>(
    table: &PinTable<P>,
    seat: &mut Chair<P>,
    number: u32,
    after: u32,
    book: &mut Book,
) -> u32
    requires own { IsAt table.now seat.old }
    requires reader { IsReader number seat.old.me.0.core }
    requires writes { WritesIn P.home P.name_of (plan table.now) number seat.old.me.0.core book.old }
    requires allowance { 0 < seat.old.me.0.core.allowance }
    requires listed { IsTrue (is_listed after (listed_after (plan table.now).slots seat.old.me.0.core.seen)) }
    requires behind { 0 < greatest_below after (listed_after (plan table.now).slots seat.old.me.0.core.seen) }
    ensures gone { result ≡ greatest_below after (listed_after (plan table.now).slots seat.old.me.0.core.seen) }
    ensures own { IsAt table.now seat.new }
    ensures stored { seat.new.me ≡ (knowing (stored record { by = number; seq = length seat.old.me.0.core.own + 1; change = Erase after result } seat.old.me.0.core) seat.old.me.0, seat.old.me.1) }
    ensures book { book.new ≡ record book.old { journal = seat.new.me.0.core.seen } }
{
    let place = book.w() as usize;
    let gone = book.erase(number, after);
    let write = book.entries()[place];
    store_erase(table, seat, number, write, front_in(book));
    gone
}

/// Erases the version behind that of number `after`, where that is possible.
fn erase_by_book<P: Payload>(
    table: &PinTable<P>,
    seat: &mut Chair<P>,
    number: u32,
    allowance: u32,
    after: u32,
    book: &mut Book,
) -> Result<Erased, EraseWhy>
    requires own { IsAt table.now seat.old }
    requires reader { IsReader number seat.old.me.0.core }
    requires writes { WritesIn P.home P.name_of (plan table.now) number seat.old.me.0.core book.old }
    requires allowance { allowance ≡ seat.old.me.0.core.allowance }
    ensures answer { result ≡ erase_answer (plan table.now).slots seat.old.me.0.core.seen allowance after }
    ensures own { IsAt table.now seat.new }
    ensures seat { seat.new.me ≡ (knowing (view_after_erase number after seat.old.me.0.core result) seat.old.me.0, seat.old.me.1) }
    ensures book { book.new ≡ record book.old { journal = seat.new.me.0.core.seen } }
{
    let w = book.w();
    match book.after(after) {
        Err(AfterError::NotListed) => return Err(EraseWhy::NotListed { w }),
        Err(AfterError::Nothing) => return Err(EraseWhy::Nothing { w }),
        Ok(_) => {}
    }
    if allowance == 0 {
        return Err(EraseWhy::JournalFull { w });
    }
    let gone = store_erased(table, seat, number, after, book);
    Ok(Erased { w: w + 1, gone })
}

/// Erases in a turn, where that is possible. The front and what is left of the allowance come along.
fn erase_in_turn<P: Payload>(
    table: &PinTable<P>,
    hand: &mut Hand<P>,
    number: u32,
    allowance: u32,
    after: u32,
) -> Result<(Result<Erased, EraseWhy>, Position, u32), Busy>
    requires own { IsAt table.now hand.old.seat }
    requires idle { IsIdle (plan table.now).slots number hand.old.seat.me.0.core }
    requires allowance { allowance ≡ hand.old.seat.me.0.core.allowance }
    ensures own { IsAt table.now hand.new.seat }
    ensures idle { IsIdle (plan table.now).slots number hand.new.seat.me.0.core }
    ensures erased { IfOk result (λ found. Erases (plan table.now).slots number after hand.old.seat.me.0.core hand.new.seat.me.0.core found.0) }
    ensures front { IfOk result (λ found. IsAfter (plan table.now).slots hand.new.seat.me.0.core.seen found.1) }
    ensures left { IfOk result (λ found. found.2 ≡ hand.new.seat.me.0.core.allowance) }
    ensures pins { hand.new.seat.me.0.core.entries ≡ hand.old.seat.me.0.core.entries }
    ensures busy { IfErr result (λ busy. MeetsTurn (plan table.now) number hand.old.seat.me.0.core hand.new.seat.me.0.core busy.holder) }
{
    let mut book = take_turn(table, &mut hand.seat, &mut hand.carried, number)?;
    let answer = erase_by_book(table, &mut hand.seat, number, allowance, after, &mut book);
    let front = front_in(&book);
    give_turn_back(table, &mut hand.seat, &mut hand.carried, number, book);
    let left = match answer {
        Ok(_) => allowance - 1,
        Err(_) => allowance,
    };
    Ok((answer, front, left))
}

impl<'t, P: Payload> Reader<'t, P> {
    /// Erases the version behind that of a handle of this reader, if no other reader has the turn.
    pub fn try_erase_after(&mut self, handle: &Pinned<P>) -> Result<Erased, EraseWhy>
        requires made { MadeBy P.home P.source (plan self.old.table.now) (reader_view self.old) handle.now }
        ensures erased { TriesErase (plan self.old.table.now) self.old.number handle.now.number (reader_view self.old) (reader_view self.new) result }
        ensures table { self.new.table.now ≡ self.old.table.now }
        ensures number { self.new.number ≡ self.old.number }
        ensures kept { KeepsPins (reader_view self.old) (reader_view self.new) }
        ensures handles { KeepsHandles P.home P.source self.old self.new }
        ensures unwritten { OnErr result (KeepsWrites (reader_view self.old) (reader_view self.new)) }
    {
        let (answer, front, left) = erase_in_turn(
            self.table,
            &mut self.hand,
            self.number,
            self.allowance,
            handle.number(),
        )?;
        self.seen = front;
        self.allowance = left;
        answer
    }

    /// Erases the version behind that of a handle of this reader, once no other reader has the turn.
    pub fn erase_after<R: Wait>(&mut self, rt: &R, handle: &Pinned<P>) -> Result<Erased, EraseWhy>
        requires made { MadeBy P.home P.source (plan self.old.table.now) (reader_view self.old) handle.now }
        ensures erased { AfterWait (reader_view self.old) (λ v. Erases (plan self.old.table.now).slots self.old.number handle.now.number v (reader_view self.new) result) }
        ensures table { self.new.table.now ≡ self.old.table.now }
        ensures number { self.new.number ≡ self.old.number }
        ensures kept { KeepsPins (reader_view self.old) (reader_view self.new) }
        ensures handles { KeepsHandles P.home P.source self.old self.new }
        ensures unwritten { OnErr result (KeepsWrites (reader_view self.old) (reader_view self.new)) }
    {
        for _ in rt.forever() {
            match self.try_erase_after(handle) {
                Err(EraseWhy::Busy { holder: _ }) => thread::yield_now(),
                answer => return answer,
            }
        }
        unreachable!()
    }
}

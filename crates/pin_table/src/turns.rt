//! The turn: a reader that has it holds the book, and alone writes.
ghost use Rattle.std.specs.Prelude.{◌≡◌, ◌+◌, ◌<◌, ◌≤◌, ◌∷◌, length, IfOk, IfErr};
ghost use Rattle.pin_core.specs.Core.{IsReader, times};
ghost use Rattle.pin_core.specs.Packing.{book_place as book_place_of};
ghost use Rattle.pin_core.specs.Step.{MayTakeTurn, MayGive};
ghost use Rattle.pin_book.specs.Book.{list_of, rows_of};
ghost use Rattle.pin_table.specs.BookHeld.{HoldsBook};
ghost use Rattle.pin_table.specs.Carried.{slots_of};
ghost use Rattle.pin_table.specs.declared.cell.Cell.TheVariants.{Empty};
ghost use Rattle.pin_table.specs.declared.answers.TheConstants.{MOST_ROWS};
ghost use Rattle.pin_table.specs.Plays.{TurnMissed, TurnGiven};
ghost use Rattle.pin_table.specs.Position.{IsAfter};
ghost use Rattle.pin_table.specs.Sources.{book_of};
ghost use Rattle.pin_table.specs.Table.{IsAt, plan};
ghost use Rattle.atomic_table.specs.Table.{rest};

use crate::answers::{Busy, MOST_ROWS};
use crate::cell::Cell;
use crate::exchange::{Carried, exchange};
use crate::packing::NOBODY;
use crate::position::Position;
use crate::rule::Chair;
use crate::steps::{give_turn, try_turn};
use crate::table::PinTable;
use arrayvec::ArrayVec;
use pin_book::{Book, Listed, Payload, READER_NUMBERS};

/// Where the book of a table of so many slots stands.
fn book_place(slots: u32) -> usize
    ensures { result ≡ book_place_of slots }
{
    READER_NUMBERS * slots as usize
}

/// Tries to take the turn, and returns the book where it does. The book's place stays empty until `give_turn_back`.
pub(crate) fn take_turn<P: Payload>(
    table: &PinTable<P>,
    seat: &mut Chair<P>,
    carried: &mut Carried,
    number: u32,
) -> Result<Book, Busy>
    requires own { IsAt table.now seat.old }
    requires reader { IsReader number seat.old.me.0.core }
    requires may { MayTakeTurn seat.old.me.0.core }
    requires listed { carried.old ≡ slots_of seat.old.me.1 }
    requires few { length carried.old ≤ length seat.old.me.0.core.entries }
    requires apart { times (book_place_of (plan table.now).slots) carried.old ≡ 0 }
    ensures own { IsAt table.now seat.new }
    ensures listed { carried.new ≡ slots_of seat.new.me.1 }
    ensures held { IfOk result (λ book. HoldsBook P.home P.name_of (plan table.now) number seat.old.me book seat.new.me) }
    ensures missed { IfErr result (λ busy. TurnMissed (plan table.now) number seat.old.me (busy.holder + 1) seat.new.me) }
{
    let found = try_turn(table, seat, number);
    if found != NOBODY {
        return Err(Busy {
            holder: (found - 1) as u32,
        });
    }
    let place = book_place(table.slots);
    carried.take(place);
    let Cell::Desk(book) = exchange(&table.base.shared, seat, carried, place, Cell::Empty) else {
        unreachable!()
    };
    Ok(book)
}

/// Puts the book back into its place, which is the first that the seat carries, and gives the turn back.
pub(crate) fn give_turn_back<P: Payload>(
    table: &PinTable<P>,
    seat: &mut Chair<P>,
    carried: &mut Carried,
    number: u32,
    book: Book,
)
    requires own { IsAt table.now seat.old }
    requires reader { IsReader number seat.old.me.0.core }
    requires may { MayGive seat.old.me.0.core }
    requires listed { carried.old ≡ slots_of seat.old.me.1 }
    requires first { seat.old.me.1 ≡ (book_place_of (plan table.now).slots, Empty) ∷ rest seat.old.me.1 }
    requires apart { times (book_place_of (plan table.now).slots) (slots_of (rest seat.old.me.1)) ≡ 0 }
    requires book { book ≡ book_of P.name_of (P.home (plan table.now).first) (plan table.now).slots (plan table.now).room seat.old.me.0.core.seen }
    ensures own { IsAt table.now seat.new }
    ensures listed { carried.new ≡ slots_of seat.new.me.1 }
    ensures given { TurnGiven seat.old.me seat.new.me }
{
    let _ = exchange(
        &table.base.shared,
        seat,
        carried,
        book_place(table.slots),
        Cell::Desk(book),
    );
    give_turn(table, seat, number);
    carried.give();
}

/// The front by this book.
pub(crate) fn front_in(book: &Book) -> Position
    ensures { IsAfter book.now.slots book.now.journal result }
{
    let front = book.front();
    Position {
        w: book.w(),
        n: front.n,
        slot: front.slot,
    }
}

/// The rows of this book.
pub(crate) fn rows_in(book: &Book) -> ArrayVec<Listed, MOST_ROWS>
    requires { length (list_of book.now).listed ≤ MOST_ROWS }
    ensures { result.items ≡ rows_of book.now }
{
    let mut rows = ArrayVec::new();
    for row in book.listed() {
        rows.push(row.copied());
    }
    rows
}

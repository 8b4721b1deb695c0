//! The table: a list of versions that threads share.
ghost use Rattle.std.specs.Prelude.{◌≡◌, ◌≤◌, IfOk, length};
ghost use Rattle.std.specs.Arc.{arc_value};
ghost use Rattle.pin_book.specs.declared.limits.TheConstants.{FEWEST_SLOTS, MOST_SLOTS, MOST_WRITES, READER_NUMBERS};
ghost use Rattle.pin_table.specs.Layout.{word_count, cell_count};
ghost use Rattle.pin_table.specs.Seat.{plan_of, HasSizes};

use crate::cell::Cell;
use crate::closing::take_last;
use crate::copies::Copies;
use crate::main_seat::Main;
use crate::opening::{opening_cells, opening_words};
use crate::rule::Base;
use crate::sitting::Key;
use atomic_table::{Refused, Table};
use pin_book::{Book, Payload, READER_NUMBERS};
use std::alloc::Global;
use std::snapshot::Snapshot;
use std::sync::Arc;
use tz_types::NoMemory;

/// A list of versions that threads share. Each thread works on it through a reader of its own.
#[derive(Drop)]
pub struct PinTable<P: Payload> {
    pub(crate) base: Base<P>,
    pub(crate) slots: u32,
    pub(crate) readers: u32,
    pub ghost words: { base.shared.table_id.words ≡ word_count slots },
    pub ghost cells: { base.shared.table_id.slots ≡ cell_count slots },
    pub ghost made: { (slots ≡ base.shared.key.slots) × (readers ≡ base.shared.key.readers) },
    pub ghost sizes: { HasSizes (plan_of base.shared.key) },
}

impl<P: Payload> PinTable<P> {
    ghost use Rattle.pin_core.specs.Step.{main_at_first};
    ghost use Rattle.pin_table.specs.Closing.{IsWhole};
    ghost use Rattle.pin_table.specs.Main.{main_view};
    ghost use Rattle.pin_table.specs.Sources.{book_of};
    ghost use Rattle.pin_table.specs.Table.{plan, IsMainOf};

    /// Makes a table whose list has this first version, of source 0, with so many slots, reader numbers, and room for so
    /// many writes. No reader is out.
    pub fn new(
        alloc: Global,
        first: Arc<P>,
        slots: u32,
        readers: u32,
        writes: u32,
    ) -> Result<(Self, Main<P>), NoMemory>
        requires slots { (FEWEST_SLOTS ≤ slots) × (slots ≤ MOST_SLOTS) }
        requires readers { (1 ≤ readers) × (readers ≤ READER_NUMBERS) }
        requires writes { (1 ≤ writes) × (writes ≤ MOST_WRITES) }
        requires source { P.source (arc_value first) ≡ 0 }
        ensures made { IfOk result (λ t. plan t.0 ≡ record { slots = slots; readers = readers; room = writes; first = arc_value first }) }
        ensures main { IfOk result (λ t. IsMainOf t.0 t.1) }
        ensures knows { IfOk result (λ t. main_view t.1 ≡ main_at_first readers writes) }
    {
        let key = Key {
            first: Snapshot::of(&*first),
            slots,
            readers,
            room: writes,
        };
        let words = opening_words(alloc, slots)?;
        let book = Book::new(alloc, slots, writes, first.name())?;
        let cells = opening_cells(alloc, slots, readers, &first, book)?;
        match Table::new(alloc, words.as_slice(), cells, &key) {
            Ok((base, seat)) => {
                let table = PinTable {
                    base,
                    slots,
                    readers,
                };
                Ok((table, Main::first(seat, readers, writes)))
            }
            Err(Refused { slots: _ }) => Err(NoMemory),
        }
    }

    /// Makes the copies that a push of this version needs. It is of the table's home.
    pub fn copies(&self, alloc: Global, version: Arc<P>) -> Result<Copies<P>, NoMemory>
        requires { P.home (arc_value version) ≡ P.home (plan self.now).first }
        ensures { IfOk result (λ copies. copies ≡ record { version = arc_value version; readers = (plan self.now).readers }) }
    {
        Copies::new(alloc, version, self.readers)
    }

    /// Closes the table once no reader is out, and returns its book.
    pub fn close(self, main: Main<P>) -> Book
        requires own { IsMainOf self main }
        requires whole { length (main_view main).numbers ≡ (plan self).readers }
        ensures book { result ≡ book_of P.name_of (P.home (plan self).first) (plan self).slots (plan self).room result.journal }
        ensures journal { IsWhole (plan self).readers (main_view main) result.journal }
    {
        let PinTable {
            base,
            slots,
            readers: _,
        } = self;
        let closed = base.close_with(main.into_seat());
        let Cell::Desk(book) = take_last(closed, READER_NUMBERS * slots as usize) else {
            unreachable!()
        };
        book
    }
}

//! The words and the cells of a table as it is made.
ghost use Rattle.std.specs.Prelude.{◌≡◌, ◌≤◌, IfOk};
ghost use Rattle.std.specs.Arc.{arc_value};
ghost use Rattle.pin_book.specs.declared.limits.TheConstants.{MOST_SLOTS, FEWEST_SLOTS, READER_NUMBERS};
ghost use Rattle.pin_table.specs.Opening.{opening_words, opening_cells};

use crate::cell::Cell;
use crate::layout::{FIRST_SLOT_WORD, FRONT_WORD, WORD_STRIDE};
use crate::packing::{pack_front, pack_slot};
use crate::shelf::Shelf;
use pin_book::{Book, Payload, READER_NUMBERS};
use std::alloc::Global;
use std::sync::Arc;
use tz_types::NoMemory;

/// Returns the words: version 1 is the front, in slot 0.
pub(crate) fn opening_words(alloc: Global, slots: u32) -> Result<Vec<u64>, NoMemory>
    requires { (FEWEST_SLOTS ≤ slots) × (slots ≤ MOST_SLOTS) }
    ensures { IfOk result (λ words. words.items ≡ opening_words slots) }
{
    let mut words = vec![in alloc; 0; FIRST_SLOT_WORD + WORD_STRIDE * slots as usize]?;
    words[FRONT_WORD] = pack_front(0, 1, 0);
    words[FIRST_SLOT_WORD] = pack_slot(1, 0);
    Ok(words)
}

/// Returns what the slots of the base hold: the places of slot 0 the copies of the first version, the last the book.
pub(crate) fn opening_cells<P: Payload>(
    alloc: Global,
    slots: u32,
    readers: u32,
    first: &Arc<P>,
    book: Book,
) -> Result<Vec<Cell<P>>, NoMemory>
    requires slots { (FEWEST_SLOTS ≤ slots) × (slots ≤ MOST_SLOTS) }
    requires readers { readers ≤ READER_NUMBERS }
    ensures { IfOk result (λ cells. cells.items ≡ opening_cells slots readers (arc_value first.now) book) }
{
    let mut cells = Vec::new(alloc);
    for _ in 0..readers {
        cells.push(Cell::Place(Shelf::full(first)?))?;
    }
    for _ in 0..READER_NUMBERS * slots as usize - readers as usize {
        cells.push(Cell::Empty)?;
    }
    cells.push(Cell::Desk(book))?;
    Ok(cells)
}

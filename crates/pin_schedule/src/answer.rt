//! The core of the shared list, as a schedule leaves it.

use crate::core_reader::CoreReader;
use pin_book::Write;
use pin_core::SlotWord;
use tz_types::Items;

/// The writes of all readers, in the order in which they were made.
pub type Journal = Items<Write>;

/// The words of the slots, from slot 0 on.
pub type SlotWords = Items<SlotWord>;

/// The readers, from number 0 on.
pub type CoreReaders = Items<CoreReader>;

/// The journal, the words of the slots, the number of the reader that has the turn, the slot that it has claimed, and the
/// readers.
#[derive(Debug, Drop)]
pub struct Core {
    pub journal: Journal,
    pub words: SlotWords,
    pub turn: Option<u32>,
    pub claimed: Option<u32>,
    pub readers: CoreReaders,
}

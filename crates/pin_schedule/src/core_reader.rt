//! A reader of the shared list, as a schedule leaves it.

use crate::entries::Entries;
use crate::slots::Slots;

/// How many writes the reader has seen; how often it has loaded the front word, added a pin, taken the turn, and found
/// the turn taken; how many writes it may still make; the slots that its claims found pinned since it last took the
/// turn; and its pins.
#[derive(Debug, Drop)]
pub struct CoreReader {
    pub seen: u32,
    pub loads: u32,
    pub pins: u32,
    pub taken: u32,
    pub refused: u32,
    pub allowance: u32,
    pub pinned: Slots,
    pub entries: Entries,
}

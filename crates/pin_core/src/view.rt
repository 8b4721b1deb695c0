//! What each seat knows of the shared list. Proofs alone see it.

use crate::entry::Entry;
use pin_book::Write;
use std::collections::LinkedList;

/// Whose seat it is: the main's, a reader's that is out, or nobody's, since its reader was joined.
#[derive(Clone, Copy, Debug, PartialEq, Eq)]
pub enum Role {
    Main,
    Reader,
    Spent,
}

/// What a seat knows. No value of it is made.
pub struct View {
    /// Whose seat it is.
    pub role: Role,
    /// The reader numbers that it has: a reader its own, the main those that aren't out.
    pub numbers: LinkedList<u32>,
    /// The pins, in the order in which they were added.
    pub entries: LinkedList<Entry>,
    /// The journal as far as the seat has seen it.
    pub seen: LinkedList<Write>,
    /// The writes by its numbers.
    pub own: LinkedList<Write>,
    /// How many writes it may still make or hand out.
    pub allowance: u32,
    /// The position that no pin is older than.
    pub floor: u32,
    /// Whether it has the turn.
    pub turn: bool,
    /// The slot that it has claimed and not yet pushed into.
    pub claimed: Option<u32>,
    /// The slots that its claims found pinned since it last took the turn, rising.
    pub pinned: LinkedList<u32>,
    /// How often it has loaded the front word.
    pub loads: u64,
    /// How many pins it has added.
    pub pins: u64,
    /// How often it has taken the turn.
    pub taken: u64,
    /// How often it has found the turn taken.
    pub refused: u64,
    /// The reader that had the turn when it found it taken last.
    pub holder: Option<u32>,
}

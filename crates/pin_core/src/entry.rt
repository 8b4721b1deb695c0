//! The pins of a reader, and the words that count them.

/// A pin of a reader: its slot, the position that the reader had seen when it added the pin, and whether it holds the
/// front of that position. A pin that doesn't is a stray: the slot's word showed another number.
#[derive(Clone, Copy, Debug, Default, PartialEq, Eq)]
pub struct Entry {
    pub slot: u32,
    pub position: u32,
    pub held: bool,
}

/// The word of a slot: the number of the version that it keeps, or that is coming into it, and how many pins of all
/// readers stand there.
#[derive(Clone, Copy, Debug, PartialEq, Eq)]
pub struct SlotWord {
    pub number: u32,
    pub count: u32,
}

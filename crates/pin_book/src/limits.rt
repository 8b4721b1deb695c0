//! How much a list may have.

/// The fewest slots of a list.
pub const FEWEST_SLOTS: u32 = 2;

/// The most slots of a list.
pub const MOST_SLOTS: u32 = 64;

/// The most writes that a list's journal has room for.
pub const MOST_WRITES: u32 = 4_096;

/// How many reader numbers there are, from 0 on.
pub const READER_NUMBERS: usize = 16;

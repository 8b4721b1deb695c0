//! Where the words of a table stand.
//!
//! Words that different threads change stand sixteen apart, 128 bytes, so that none shares a cache line with another.

/// The front word.
pub const FRONT_WORD: usize = 0;

/// The turn word.
pub const TURN_WORD: usize = 16;

/// The word of slot 0.
pub const FIRST_SLOT_WORD: usize = 32;

/// How far the words of two slots stand apart.
pub const WORD_STRIDE: usize = 16;

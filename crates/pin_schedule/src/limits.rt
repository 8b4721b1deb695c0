//! How much a schedule may have.

/// More events than any schedule has.
pub const MOST_EVENTS: usize = 1_000_000;

/// The most handles of a reader.
pub const MOST_HANDLES: usize = 8;

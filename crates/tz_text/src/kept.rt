//! How much is kept of the fields of a line.

/// How many fields of a line are kept: as many as the record with the most has.
pub const MOST_KEPT: usize = 10;

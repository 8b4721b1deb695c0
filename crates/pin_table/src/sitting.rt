//! What a seat at the table knows, and how the table was made.

use pin_core::View;
use std::snapshot::Snapshot;

/// How a table is made: its sizes, and its first version, whose home all its versions have. No value of it is made.
pub struct Plan<P> {
    pub slots: u32,
    pub readers: u32,
    /// How many writes the journal has room for.
    pub room: u32,
    pub first: P,
}

/// What a seat knows of the list, and of how its table was made. No value of it is made.
pub struct Sitting<P> {
    pub core: View,
    /// A spent seat has none: what a join leaves is one sitting, the same at every table.
    pub plan: Option<Plan<P>>,
}

/// How a table was made, as the base keeps it.
#[derive(Drop)]
pub struct Key<P> {
    pub first: Snapshot<P>,
    pub slots: u32,
    pub readers: u32,
    pub room: u32,
}

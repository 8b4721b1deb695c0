//! Where a reader stands in the journal.

/// The front after the first `w` writes.
#[derive(Clone, Copy, Debug, PartialEq, Eq)]
pub struct Position {
    pub w: u32,
    pub n: u32,
    pub slot: u32,
}

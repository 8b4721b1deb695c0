//! A row of the list: a version in its slot.

/// The number of a version, and the slot that it was put in.
#[derive(Clone, Copy, Debug, PartialEq, Eq)]
pub struct Row {
    pub n: u32,
    pub slot: u32,
}

/// The version that each list begins with.
pub const FIRST: Row = Row { n: 1, slot: 0 };

//! The journal's entries: a push that lists a version, or an erase that takes one off the list.

/// What a write does to the list. A push lists the version of number `n`, made of source `src`, and puts it in `slot`.
/// An erase takes the version of number `gone` off the list, the one behind that of number `after`.
#[derive(Clone, Copy, Debug, PartialEq, Eq)]
pub enum Change {
    Push { n: u32, src: u32, slot: u32 },
    Erase { after: u32, gone: u32 },
}

/// A write of the journal: the number of the reader that made it, how many writes of that number stand so far, this
/// one counted, and what it changed.
#[derive(Clone, Copy, Debug, PartialEq, Eq)]
pub struct Write {
    pub by: u32,
    pub seq: u32,
    pub change: Change,
}

//! The events of a schedule: each is a step that a reader asks for.

/// Which step: a load of the front word, a pin added or taken off, an exchange of the turn word, a claim, a store of the
/// front word with a push or with an erase, or the turn given back.
#[derive(Clone, Copy, Debug, PartialEq, Eq)]
pub enum Kind {
    LoadFront,
    AddPin,
    TakePin { slot: u32 },
    TakeTurn,
    Claim { slot: u32 },
    StorePush { src: u32 },
    StoreErase { after: u32 },
    StoreTurn,
}

/// A step of the reader of this number.
#[derive(Clone, Copy, Debug, PartialEq, Eq)]
pub struct Event {
    pub reader: u32,
    pub kind: Kind,
}

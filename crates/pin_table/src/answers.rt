//! What calls on a reader answer.

use crate::copies::Copies;
use arrayvec::ArrayVec;
use pin_book::{Listed, Payload};

/// A handle that was released. Its slot's word showed this number, and the slot still kept it after `w` writes.
#[derive(Clone, Copy, Debug, PartialEq, Eq)]
pub struct Released {
    pub number: u32,
    pub slot: u32,
    pub w: u32,
}

/// The refusal of a handle: the reader has eight.
#[derive(Clone, Copy, Debug, PartialEq, Eq)]
pub struct TooManyHandles;

/// The refusal of the turn: the reader of this number has it.
#[derive(Clone, Copy, Debug, PartialEq, Eq)]
pub struct Busy {
    pub holder: u32,
}

/// How many rows a listing has at most: as many as a list may have slots.
pub const MOST_ROWS: usize = 64;

/// The versions that are listed after `w` writes, newest first.
#[derive(Debug, Drop)]
pub struct Listing {
    pub w: u32,
    pub rows: ArrayVec<Listed, MOST_ROWS>,
}

/// An erase: the `w`-th write took the version of number `gone` off the list.
#[derive(Clone, Copy, Debug, PartialEq, Eq)]
pub struct Erased {
    pub w: u32,
    pub gone: u32,
}

/// Why nothing was erased. `w` is the position at which that was so.
#[derive(Clone, Copy, Debug, PartialEq, Eq)]
pub enum EraseWhy {
    /// The reader of this number has the turn.
    Busy { holder: u32 },
    /// No version of the handle's number is listed.
    NotListed { w: u32 },
    /// It is the oldest that is listed.
    Nothing { w: u32 },
    /// The reader may make no write.
    JournalFull { w: u32 },
}

impl From<Busy> for EraseWhy {
    ghost use Rattle.std.specs.Prelude.{◌≡◌};
    ghost use Rattle.pin_table.specs.declared.answers.EraseWhy.TheVariants as erase;

    ghost from_gives = { λ busy why. why ≡ erase.Busy busy.holder };

    fn from(busy: Busy) -> Self {
        EraseWhy::Busy {
            holder: busy.holder,
        }
    }
}

/// A push: the `w`-th write listed the version as number `n`, in this slot.
#[derive(Clone, Copy, Debug, PartialEq, Eq)]
pub struct Pushed {
    pub w: u32,
    pub n: u32,
    pub slot: u32,
}

/// Why nothing was pushed. `w` is the position at which that was so.
#[derive(Clone, Copy, Debug, PartialEq, Eq)]
pub enum PushWhy {
    /// The reader of this number has the turn.
    Busy { holder: u32 },
    /// The front, number `n`, has the version's name.
    Same { w: u32, n: u32 },
    /// The reader may make no write.
    JournalFull { w: u32 },
    /// Each slot keeps a version that is listed or that somebody holds.
    Full { w: u32 },
}

/// A push that was refused. The copies come back.
#[derive(Drop)]
pub struct PushRefused<P: Payload> {
    pub why: PushWhy,
    pub copies: Copies<P>,
}

//! The versions that are listed at a position.
ghost use Rattle.std.specs.Prelude.{◌≤◌, length};
ghost use Rattle.pin_book.specs.declared.limits.TheConstants.{MOST_SLOTS};

use pin_book::Listed;
use tz_types::Items;

/// The position, and the versions that are listed there, newest first: at most 64.
#[derive(Debug, PartialEq, Drop)]
pub struct Listing {
    pub w: u32,
    pub rows: Items<Listed>,
    pub ghost few_rows: { length rows ≤ MOST_SLOTS },
}

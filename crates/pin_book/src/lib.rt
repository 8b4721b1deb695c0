//! The list of versions that one thread keeps: its journal, and what the journal replays to.
//!
//! `Book` holds the journal of what was pushed and erased with the names of the versions, and always equals that
//! journal's replay. The definitions in `specs/` are what every layer above means by a version's number, its slot, the
//! front and a position, and `replay_laws` says them in other words. `Payload` tells what a list of versions may ask of
//! a version: where it comes from, and its name. The crate stands on `tz_types` for the names of versions.
//!
//! ```rust
//! // two slots and room for three writes; version 1 of text 0 is listed in slot 0
//! let mut book = Book::new(alloc, 2, 3, VersionText::new(b"2024a")?)?;
//! // lane 0 pushes version 2, which is made of text 1, into slot 1
//! let number = book.push(0, 1, VersionText::new(b"2024b")?, 1);
//! let behind = book.after(number)?;
//! // erases version 1, which stands behind version 2; slot 0 still keeps it
//! let gone = book.erase(0, number);
//! assert_eq!(rt; (number, behind.slot, gone, book.kept(0), book.w()), (2, 0, 1, 1, 2));
//! ```
#![tactic(auto)]

mod after_error;
mod book;
mod journal;
mod limits;
mod listed;
mod payload;
mod replay_laws;
mod standing;
mod write;

pub use after_error::AfterError;
pub use book::Book;
pub use limits::{FEWEST_SLOTS, MOST_SLOTS, MOST_WRITES, READER_NUMBERS};
pub use listed::Listed;
pub use payload::Payload;
pub use replay_laws::{
    each_position_replays, erase_takes_the_next, front_is_never_erased, listed_is_kept,
    listed_is_pushed_and_not_erased, listed_numbers_fall, pushes_are_numbered_in_order,
    slots_keep_what_was_pushed_last, the_journal_tells_each_source,
};
pub use write::{Change, Write};

#[cfg(test)]
mod tests;

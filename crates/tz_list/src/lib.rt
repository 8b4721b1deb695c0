//! The list of time zone versions that threads share, and that is reloaded while they read it.
//!
//! `TzdbList::open` makes the list of some sources. It is a table of `pin_table` whose payload is a `Version`, so each
//! thread reads it through a reader: `front` pins the newest version, and `release` lets it go. `reload` reads a source
//! anew, and makes its version the newest. Nobody who reads waits for that.
//!
//! - **Versions.** Each version in the list is one of the list's sources: what a handle holds is the version of the source
//!   that the journal gives to the handle's number (`a_handle_holds_its_source`).
//! - **Refusals.** A source that is refused takes no turn, and the list stays as it was. The same holds where memory runs
//!   out: a reload takes all its memory before it takes the turn. The leap text is read first of all when the list is
//!   opened, so a reload never finds a fault there.
//!
//! The crate stands on `tz_version` for versions, and on `pin_table` for the list.
//!
//! ```rust
//! // `sources` has two texts; the list has 4 slots, 2 readers, and room for 8 writes
//! let (list, mut main) = TzdbList::open(alloc, sources, 4, 2, 8)?;
//! let mut reader = main.split(list.table(), 8)?;
//! // the version that a handle holds stays, whatever is reloaded meanwhile
//! let handle = reader.front()?;
//! let pushed = list.reload(rt, alloc, &mut reader, 1)?;
//! assert_eq!(rt; (pushed.w, pushed.n), (1, 2));
//! let zone = handle.version().zone(b"Europe/Paris")?;
//! reader.release(handle);
//! main.join(reader);
//! let book = list.close(main);
//! ```
#![tactic(auto)]

mod error;
mod laws;
mod list;
mod reload;

pub use error::{OpenError, ReloadError};
pub use laws::a_handle_holds_its_source;
pub use list::{ListHandle, ListMain, ListReader, TzdbList};

#[cfg(test)]
mod tests;

//! The list of versions that threads share: versions in a fixed number of slots, over atomic words.
//!
//! A `PinTable` keeps versions of any payload, not only time zones. The thread that makes it gets its `Main`, which sends
//! a `Reader` out to each thread and takes it in again. A reader pins the front (`front`), reads the version through the
//! handle, and releases it. It pushes and erases versions, one writer at a time. A slot is used again only when no handle
//! holds it, whatever the threads do in between.
//!
//! - **Which calls wait.** `look`, `front` and `release` wait for nobody. `front` tries again where a push came between,
//!   and each such try shows it a later position, so there are no more than writes. `try_push`, `try_erase_after` and
//!   `try_list` answer `Busy` where another reader has the turn. `push`, `erase_after` and `list` try again until they get
//!   it, and take a runtime that may wait. No call takes a lock.
//! - **Memory.** `PinTable::new` takes what the table needs, and `copies` what a push needs, before the push takes the
//!   turn. No other call takes memory, so none is refused for want of it.
//! - **A position** is a number of writes. What a reader is told never goes back to an earlier one. A handle's version was
//!   the front at the handle's position, and its slot keeps it until the release.
//! - **`Busy`** names the reader that has the turn. It is in the middle of a push, an erase or a listing.
//! - **`Full`**: each slot keeps a version that is listed or that somebody holds. An erase and a release make room.
//! - **A reader that is dropped** isn't taken in: its number, its writes and its pins stay with it, and the table can't be
//!   closed. `join` takes a reader in that has released its handles.
//! - **A handle** can't be dropped: `release` alone spends it. What is read of its version borrows from the handle, so a
//!   release while that is in use doesn't compile.
//!
//! The rule of the table (`specs/Rule`) is that its words, its seats and what stands at home are at each moment those of a
//! state that the steps of `pin_core` reach, so all that `pin_core` says of such states holds of the table, over every
//! interleaving. `steps` has the atomic steps of all seven kinds, each of which keeps the rule and tells its seat what
//! `pin_core`'s step of that kind makes of it. `exchange` is the one place where a slot of the base is exchanged. The
//! calls are made of these and of nothing else that threads share.
//!
//! ```rust
//! // a list of 4 slots, for 2 readers, with room for 8 writes
//! let (table, mut main) = PinTable::new(alloc, first, 4, 2, 8)?;
//! // a reader that may make 3 of them
//! let mut reader = main.split(&table, 3)?;
//! // the front after no write is version 1, in slot 0
//! let handle = reader.front()?;
//! assert_eq!(rt; (handle.number(), handle.position()), (1, 0));
//! // a second version is the next front; the handle keeps the first
//! let copies = table.copies(alloc, second)?;
//! let pushed = reader.push(rt, copies)?;
//! assert_eq!(rt; (pushed.w, pushed.n), (1, 2));
//! reader.release(handle);
//! main.join(reader);
//! let book = table.close(main);
//! ```
#![tactic(auto)]

mod answers;
mod cell;
mod closing;
mod copies;
mod erase_calls;
mod exchange;
mod hand;
mod handle_laws;
mod layout;
mod listing_calls;
mod main_seat;
mod no_reader;
mod opening;
mod packing;
mod parting;
mod pinned;
mod pins;
mod plays;
mod position;
mod push_calls;
mod reader;
mod rule;
mod shelf;
mod sitting;
mod slot_claims;
mod steps;
mod table;
mod turns;

pub use answers::{
    Busy, EraseWhy, Erased, Listing, MOST_ROWS, PushRefused, PushWhy, Pushed, Released,
    TooManyHandles,
};
pub use cell::Cell;
pub use copies::Copies;
pub use exchange::{Carried, MOST_CARRIED};
pub use hand::Hand;
pub use handle_laws::{
    a_handle_is_of_the_journal_s_version, a_handle_stays, what_is_seen_never_goes_back,
};
pub use layout::{FIRST_SLOT_WORD, FRONT_WORD, TURN_WORD, WORD_STRIDE};
pub use main_seat::Main;
pub use no_reader::NoReader;
pub use pinned::Pinned;
pub use position::Position;
pub use reader::{MOST_HANDLES, Reader};
pub use rule::{Base, Board, Chair, ListRule};
pub use shelf::{SHELF_COPIES, Shelf};
pub use sitting::{Key, Plan, Sitting};
pub use table::PinTable;

//! Scripts over the list of versions: what a batch means, and its text.
//!
//! A batch runs a script of lookups, holds, reloads and erasures over a list of versions. Its `Outcome` is the journal
//! of what was pushed and erased, and one reply to each operation. `outcome_text` prints it:
//!
//! ```text
//! journal 2
//! 1 1 1 push 2 1 1
//! 2 1 2 erase 2 1
//! replies 3
//! 3 @0 front 1 0
//! 4 @0 1 0 info 1710054000 1730613600 -14400 3600 EDT
//! 12 @2 list 2/1/1
//! end
//! ```
//!
//! The outcome of a script with one operation is made and printed so:
//!
//! ```rust
//! let mut replies = Items::new(alloc);
//! replies.push(Reply { line: 3, w: 0, answer: Answer::Front { n: 1, slot: 0 } })?;
//! let outcome = Outcome { journal: Items::new(alloc), replies };
//! let text = outcome_text(alloc, &outcome)?;
//! assert_eq!(rt; text.as_slice(), b"journal 0\nreplies 1\n3 @0 front 1 0\nend\n");
//! ```
//!
//! The text settles the journal, and of each reply the line, the position and the text of the answer; of a run of a
//! script it settles the whole outcome (`laws`). Which outcomes a script may have is defined in specs/Run.antt, for any
//! number of lanes and rounds: what the layer above promises, which runs scripts. The crate stands on `tz_script` for
//! scripts, on `tz_version` for versions, on `pin_book` for the list, and on `tz_lookup` for what is found and how it is spelled.
#![tactic(auto)]

mod answer;
mod laws;
mod listing;
mod outcome;
mod reply;
mod row;
mod run_laws;
mod word;
mod write_line;

pub use answer::Answer;
pub use laws::{
    a_look_has_a_run, texts_settle_journals, texts_settle_outcomes, texts_settle_what_replies_tell,
};
pub use listing::Listing;
pub use outcome::{Outcome, outcome_text};
pub use reply::Reply;
pub use run_laws::{
    a_full_list_has_few_slots, a_lane_never_looks_back, held_slots_were_the_fronts,
    lanes_run_beside_each_other, one_lane_is_full_where_no_slot_is_left,
    positions_dont_fall_between_rounds, positions_of_a_lane_dont_fall,
};

#[cfg(test)]
mod tests;

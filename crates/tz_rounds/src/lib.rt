//! Runs scripts: rounds of lanes over the list that threads share.
//!
//! `run_script` opens the list with the version of the first source. In each round it sends a reader out for each lane, each
//! runs its lane in a thread of its own, and once all lanes are done their readers are joined. It answers the outcome: the
//! journal, and one reply to each operation, in the order of the script. That outcome is a run of the script, by the
//! definition in `tz_batch`, whatever the threads did. The law `rounds_make_a_run` says why: rounds whose lanes each come to
//! what `run_lane` promises make a run. With one lane each position is how many writes the replies up to it tell of
//! (`rounds_of_one_lane_count_writes`). The crate stands on `tz_lane` for what a lane does, and on `tz_list` for the list.
//!
//! ```rust
//! // `sources` has two texts, so the script may reload texts 0 and 1
//! let script = read_script(alloc, b"lanes 2\nround\n1 reload 1\n2 look\n", 2)?;
//! // a list of four slots, and a gate that lets all pass
//! let outcome = run_script(&rt, alloc, &script, &sources, 4, &OpenGate)?;
//! // each operation has one reply, and each successful reload and erasure one write
//! assert_eq!(rt; outcome.replies.len(), script.operations.len());
//! let text = outcome_text(alloc, &outcome)?;
//! ```
#![tactic(auto)]

mod joining;
mod laws;
mod merging;
mod run;
mod running;
mod sending;

pub use laws::{rounds_make_a_run, rounds_of_one_lane_count_writes};
pub use run::run_script;
pub use tz_list::OpenError;

#[cfg(test)]
mod tests;

//! What one lane of a batch does on the list of versions that threads share.
//!
//! `run_lane` does what a lane has to do in a round, on the lane's own reader, and answers one reply per operation. A `Gate`
//! is passed before each of them. What that comes to stands in `RunsLane` (specs/Lane.antt).
//!
//! Each other call is one operation of a lane. It answers what a batch prints: a `Told`, the answer with its position. What
//! a call leaves of the reader stands in `Meets` (specs/Meeting.antt): the journal that it has seen goes on from what it had
//! seen, and the position is none before that. The answer is right by the definitions of `tz_batch`, over the round as the
//! lane knows it (`lane_round`): its journal is what the reader has seen, and it starts at the reader's floor.
//!
//! - `look` and `list` leave the reader's holds alone. `list` waits for its turn.
//! - `hold` pins the front, and hands the handle out; `let_go` spends it. Neither waits for another thread.
//! - `look_up_front` looks something up in the front, which it pins meanwhile; `look_up_held` does so in the version of a
//!   handle. Neither waits.
//! - `reload` puts the version of a source at the front, in its turn; a source that is refused takes none.
//! - `erase_held` takes the version behind that of a handle off the list, in its turn; `erase_front` does so behind the
//!   front, which it pins meanwhile.
//!
//! `LaneHolds` keeps the holds that are open, each with its handle, without taking memory.
//!
//! `tz_rounds` runs whole scripts by it. The crate stands on `tz_list` for the list, and on `tz_batch` for answers.
//!
//! ```rust
//! // the list has one version, and `reader` was split off its main
//! let (held, handle) = hold(&mut reader);
//! assert_eq!(rt; held.answer, Answer::Held { n: 1, slot: 0 });
//! let dropped = let_go(&mut reader, handle);
//! assert_eq!(rt; dropped.answer, Answer::Dropped { n: 1, slot: 0 });
//! ```
#![tactic(auto)]

mod endings;
mod erasures;
mod finding;
mod gate;
mod lane;
mod lane_hold;
mod lane_holds;
mod looks;
mod lookups;
mod pins;
mod reloads;
mod rounds;
mod serve;
mod told;

pub use erasures::{erase_front, erase_held};
pub use gate::{Gate, OpenGate};
pub use lane::run_lane;
pub use lane_hold::LaneHold;
pub use lane_holds::LaneHolds;
pub use looks::{list, look};
pub use lookups::{look_up_front, look_up_held};
pub use pins::{hold, let_go};
pub use reloads::reload;
pub use rounds::operations_in;
pub use told::Told;

#[cfg(test)]
mod tests;

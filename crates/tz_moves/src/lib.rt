//! When a zone's clock visibly changes, and how long its days are.
//!
//! Ranges of a zone may follow one another with nothing new on the clock: a line of the text ends, or a rule comes
//! that puts in force what was in force. A move is the begin of a range in which the offset, the save or the
//! abbreviation isn't that of the range before. `next_move` and `previous_move` answer the one nearest to an instant,
//! and go from range to range, so that they never make the ranges of all of time; `moves_between` answers all of a
//! stretch. `day_seconds` answers how many seconds the clock shows of a civil day. Instants are seconds from
//! 1970-01-01 00:00:00, and days are counted from 1970-01-01. Ranges are those of ISO C++20 [time.zone.info.sys]; the
//! crate stands on `info_at` and `expand_between` of `tz_expand`.
//!
//! ```rust
//! // New York's clock moved at 1710054000 to -14400 with a save of 3600, EDT, and at 1730613600 back to -18000, EST
//! let moves = moves_between(alloc, &zone, 1_704_067_200, 1_735_689_600)?;
//! assert_eq!(rt; moves.len(), 2);
//! assert_eq!(rt; (moves[0].at, moves[0].offset, moves[0].save), (1_710_054_000, -14_400, 3_600));
//! // so 2024-03-10 has 23 hours, and 2024-11-03 has 25
//! assert_eq!(rt; day_seconds(&zone, 19_792), Ok(82_800));
//! assert_eq!(rt; day_seconds(&zone, 20_030), Ok(90_000));
//! ```
#![tactic(auto)]

mod day;
mod laws;
mod moves;
mod nearest;
mod range;

pub use day::day_seconds;
pub use laws::{day_seconds_are_counted, moves_begin_ranges_that_differ, nearest_moves_are_one};
pub use moves::{Move, moves_between};
pub use nearest::{next_move, previous_move};

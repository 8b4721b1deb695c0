//! Runs schedules of the shared list: given events, one after another, as steps of the core on plain values.
//!
//! `run_schedule` takes each event where the core allows it, and answers the core that the steps give. So a state that
//! threads come to only by chance can be reached on purpose, and looked at. What a step is, and when it is allowed,
//! stands in `pin_core`, and nothing of it is said again here. No thread is here either.
//!
//! ```rust
//! let events = [
//!     Event { reader: 0, kind: Kind::AddPin },                // reader 0 pins slot 0, where version 1 stands
//!     Event { reader: 1, kind: Kind::TakeTurn },
//!     Event { reader: 1, kind: Kind::Claim { slot: 1 } },     // slot 0 could not be claimed now
//!     Event { reader: 1, kind: Kind::StorePush { src: 1 } },
//! ];
//! // two slots, two readers, room for four writes each
//! let core = run_schedule(alloc, 2, 2, 4, &events)?;
//! assert_eq!(rt; core.words.as_slice()[0], SlotWord { number: 1, count: 1 });
//! ```
#![tactic(auto)]

mod answer;
mod core_reader;
mod course;
mod entries;
mod event;
mod limits;
mod row;
mod schedule;
mod schedule_error;
mod schedule_laws;
mod slots;

pub use answer::{Core, CoreReaders, Journal, SlotWords};
pub use core_reader::CoreReader;
pub use entries::Entries;
pub use event::{Event, Kind};
pub use limits::{MOST_EVENTS, MOST_HANDLES};
pub use pin_core::{Entry, SlotWord};
pub use schedule::run_schedule;
pub use schedule_error::ScheduleError;
pub use schedule_laws::{
    a_schedule_has_one_outcome, a_schedule_is_a_run, strays_go_first_and_then_the_oldest,
    strays_stand_apart_in_schedules,
};
pub use slots::Slots;

#[cfg(test)]
mod tests;
#[cfg(test)]
mod walk_tests;

//! Windows on zones: answers near the last one.
//!
//! A window of a zone is a stretch of 2,019,644,928 seconds, 64 mean Gregorian years: 313 of them, the first from -9999-01-01
//! 00:00:00 on, hold all of time. A zone that is kept has `Cells` beside it, one a window. `ZoneRef` lends the zone with its
//! cells, answers the range that holds an instant, and goes over many instants in one scan. The crate stands on `info_at` of
//! `tz_expand`.
//!
//! ```rust
//! // New York at noon of universal time on each of the 366 days of 2024, when the clock moved twice
//! let cells = Cells::new(alloc)?;
//! let mut zone = ZoneRef::new(&zone, &cells);
//! let (mut probes, mut steps) = (Steps::<Q>::new(of_probes), Steps::<L>::new(of_steps));
//! let year = zone.scan(alloc, 1_704_110_400, 86_400, 366, &mut probes, &mut steps);
//! assert_eq!(rt; (year.inside, year.changes), (366, 2));
//! ```
#![tactic(auto)]

mod cells;
mod laws;
mod scan;
mod zone_ref;

pub use cells::{Cells, WINDOWS};
pub use laws::ranges_of_a_zone_begin_apart;
pub use scan::{MOST_LOOKS, Scan};
pub use zone_ref::ZoneRef;

//! Zones ready for questions, and their ranges.
//!
//! `compile` makes a zone of a sound database ready. `info_at` answers the one range of its full expansion that holds an
//! instant, `expand_between` all that meet a stretch, and `dump_zones` the same of many zones at once. No full
//! expansion is ever made: each answer comes from a few occurrences near the instant or the stretch. `info_uncounted` and
//! `expand_uncounted` answer the same where nobody asks for the count of steps. The crate stands
//! on `tz_rules` for occurrences and their changes, and on `rayon` for dumps.
//!
//! ```rust
//! // New York, where summer time began at 1710054000
//! let zone = compile(alloc, &db, 0)?;
//! let mut steps = Steps::<L>::new(blank);
//! let range = info_at(&zone, 1_720_000_000, &mut steps);
//! assert_eq!(rt; range.map(|range| (range.begin, range.offset)), Some((1_710_054_000, -14_400)));
//! let year = expand_between(alloc, &zone, 1_704_067_200, 1_735_689_600, &mut steps)?;
//! assert_eq!(rt; year.len(), 3);
//! ```
#![tactic(auto)]

mod compilation;
mod compiled_line;
mod compiled_zone;
mod dump;
mod expansion;
mod info;
mod laws;
mod looks;
mod range;
mod years;

pub use compilation::compile;
pub use compiled_line::{CompiledLine, CompiledRules};
pub use compiled_zone::CompiledZone;
pub use dump::dump_zones;
pub use expansion::{expand_between, expand_uncounted};
pub use info::{info_at, info_uncounted};
pub use laws::{ranges_between_have_an_instant_of_the_stretch, zones_are_compiled_to_one_value};

//! Local times: which ranges of a zone show one, and the instant that it stands for under a choice.
//!
//! A local time is the number of seconds from 1970-01-01 00:00:00 that a clock in the zone shows, as `civil_seconds` of
//! `tz_types` makes it of a date and a time of day. `local_info` answers whether one range shows it, or several, or none;
//! `to_sys` turns it into an instant. Both look at the ranges of the four days round the local time and at no others, since
//! no offset is above two days, and take no memory. They follow ISO C++20 [time.zone.info.local] and [time.zone.members]. The
//! crate stands on `info_at` of `tz_expand`.
//!
//! ```rust
//! // New York's clock went from 2:00 to 3:00 on 2024-03-10, so 2:30 of that day doesn't exist
//! let half_past_two = civil_seconds(2024, 3, 10, 2, 30, 0)?;
//! let info = local_info(&zone, half_past_two)?;
//! assert!(rt; matches!(&info, LocalInfo::Nonexistent { .. }));
//! assert_eq!(rt; to_sys(&zone, half_past_two, None), Err(ToSysError::Undecided(info)));
//! // by either choice it gives the instant of the change
//! assert_eq!(rt; to_sys(&zone, half_past_two, Some(Choose::Latest)), Ok(1_710_054_000));
//! ```
//!
//! On 2024-11-03 that clock went back from 2:00 to 1:00. So 1:30 of that day, 1730597400, is ambiguous: 1730611800 by
//! `Earliest` and 1730615400 by `Latest`.
#![tactic(auto)]

mod findings;
mod info;
mod instant;
mod laws;
mod out_of_range;
mod range;

pub use info::local_info;
pub use instant::{ToSysError, to_sys};
pub use laws::{gaps_are_jumped_over, instants_show_their_local_times};
pub use out_of_range::OutOfRange;

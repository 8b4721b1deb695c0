//! The clocks of UTC, TAI and GPS: system times, which know no leap seconds, to the counts of these clocks and back.
//!
//! A UTC count is the number of seconds since 1970-01-01 00:00:00, with the added ones and without the skipped ones. A leap
//! table says which those are: each of its entries has the midnight that follows. No call allocates, each searches the
//! entries at most once and looks up what those before a place add, and each takes every `i64`: one that isn't in its range
//! is answered by `OutOfRange`. A system time is in range from -9999-01-01 up to but excluding 10000-01-01. For a UTC count
//! the range ends as many seconds later as all entries add. The layer above brings the table, as `Leaps` of `tz_types`.
//!
//! ```rust
//! // 27 seconds had been added by 2017-01-01, the last of them right before that midnight
//! assert_eq!(rt; utc_of_sys(&leaps, 1_483_228_799), Ok(1_483_228_825));
//! assert_eq!(rt; utc_of_sys(&leaps, 1_483_228_800), Ok(1_483_228_827));
//! // the count in between is that of the added second itself
//! assert_eq!(rt; leap_info(&leaps, 1_483_228_826).map(|info| info.is_leap), Ok(true));
//! ```
#![tactic(auto)]

mod atomic;
mod out_of_range;
mod search;
#[cfg(test)]
mod tests;
mod utc;

pub use atomic::{gps_of_utc, tai_of_utc, utc_of_gps, utc_of_tai};
pub use out_of_range::OutOfRange;
pub use utc::{leap_info, sys_of_utc, utc_of_sys};

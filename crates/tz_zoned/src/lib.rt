//! Zoned times: an instant together with the zone whose clock shows it.
//!
//! A `ZonedTime` lends its zone and keeps the number of the version that the zone is from, so that times of two versions are
//! told apart. It is made of a system time, in seconds from 1970-01-01 00:00:00, or of a local time under a choice, and takes
//! no memory. It follows ISO C++20 [time.zone.zonedtime]. The crate stands on `tz_local` for local times and on `info_at` of
//! `tz_expand`.
//!
//! ```rust
//! // New York's clock showed 3:00 on 2024-03-10 where it would have shown 2:00; the zone is of version 1
//! let summer = ZonedTime::from_sys(&zone, 1, 1_710_054_000)?;
//! assert_eq!(rt; (summer.local(), summer.info().offset), (1_710_039_600, -14_400));
//! // 2:30 of that day doesn't exist, and by a choice it is the instant of the change
//! let chosen = ZonedTime::from_local(&zone, 1, 1_710_037_800, Some(Choose::Latest));
//! assert_eq!(rt; chosen, Ok(summer));
//! ```
#![tactic(auto)]

mod zoned_time;

pub use zoned_time::ZonedTime;

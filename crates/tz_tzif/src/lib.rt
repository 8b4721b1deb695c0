//! Zones as TZif files (RFC 8536), the binary form of time zones that most systems read.
//!
//! `tzif` writes the ranges of a zone over a stretch of time as a file of version 2, without leap seconds, indicators
//! and footer rule. Its block of version 1 is empty but for the one type that each block has. The crate stands on
//! `expand_between` of `tz_expand`.
//!
//! ```rust
//! // New York in 2024: the file has two transitions, 1710054000 to EDT and 1730613600 back to EST
//! let file = tzif(alloc, &zone, 1_704_067_200, 1_735_689_600)?;
//! assert_eq!(rt; &file[..5], b"TZif2".as_slice());
//! assert_eq!(rt; file.len(), 135);
//! ```
#![tactic(auto)]

mod designations;
mod file;
mod local_type;
mod octets;
mod types;
mod tzif_error;

pub use file::tzif;
pub use local_type::LocalType;
pub use tzif_error::TzifError;

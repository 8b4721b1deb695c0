//! What single lines of texts say, by their fields.
//!
//! The layer above reads texts whole, and keeps what lines have given so far. It has each line of a zone text read by
//! `read_line`, as an entry or the least of its causes, and each line of a leap text by `read_leap_line`. Whether a line of a
//! zone text, or its record, is one too many it asks itself. Records of both kinds of text are defined in `tz_specs`. Nothing
//! here allocates.
//!
//! ```rust
//! use tz_records::{Entry, read_line};
//! use tz_text::Joined;
//!
//! let mut joined = Joined::new();
//! let said = read_line(b"Link America/New_York US/Eastern", &mut joined, false, 1, false)?;
//! if let Some(Entry::Link { target, name, line }) = said {
//!     assert_eq!(rt; name.as_bytes(), b"US/Eastern".as_slice());
//! }
//! ```
#![tactic(auto)]

mod entry;
mod format_field;
mod given_name;
mod kind;
mod leap_line;
mod leap_record;
mod leap_values;
mod line;
mod link_line;
mod opening;
mod recurrence;
mod rule_line;
mod rules_field;
mod values;
mod zone_line;
mod zone_record;

pub use entry::{Entry, EntryLine, EntryRules};
pub use format_field::FormatField;
pub use given_name::GivenName;
pub use leap_line::read_leap_line;
pub use leap_record::LeapRecord;
pub use line::read_line;

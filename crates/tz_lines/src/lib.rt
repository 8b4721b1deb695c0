//! Texts to databases.
//!
//! `read_zones` reads the zone texts of a source whole, or refuses it with the file, the line and the cause; `locate` finds a zone by its name.
//! `read_leaps` reads a leap text whole, or refuses it with the line and the cause.
//!
//! Here stands what speaks of the lines of a text one after another, and of what they have given so far, also whether a line,
//! or what it says, is one too many. What a line says by itself is read in `tz_records`; `tz_database` builds the database of
//! what all lines gave, or tells the faults that no single line has.
//!
//! ```rust
//! use tz_lines::{locate, read_zones};
//! use tz_types::Source;
//!
//! let text = Vec::from_slice(alloc, b"Zone Test/Five -5 - EST\nLink Test/Five Test/Also\n")?;
//! let db = read_zones(alloc, &Source::of_text(alloc, text)?)?;
//! assert_eq!(rt; locate(&db, b"Test/Also"), Some(0));
//! assert_eq!(rt; locate(&db, b"Test/Other"), None);
//! ```
#![tactic(auto)]

mod addition;
mod contents;
mod error;
mod files;
mod last_zone;
mod leap_contents;
mod leap_faults;
mod leap_table;
mod limits;
mod name_index;
mod parts;
mod places;
mod rule_sets;
mod set_names;
mod source;
mod version;
mod zone_line;
mod zone_place;

pub use error::ReadError;
pub use leap_table::read_leaps;
pub use source::read_zones;
pub use zone_place::{link_place, locate};

#[cfg(test)]
mod leap_tests;

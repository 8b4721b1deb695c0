//! The types that every other crate speaks of: texts, days, rules, zones, links, leap seconds and ranges.
//!
//! Each type keeps its ranges and orders itself, so that the layers above need no tests of their own.
//! Years are proleptic Gregorian, instants and amounts are whole seconds from 1970-01-01 00:00:00.
//! The crate stands on `jiff_core` for civil days and on `arrayvec` for texts of fixed room.
//!
//! ```rust
//! use tz_types::{AtKind, Moment, Month, On, nominal};
//!
//! // zic's `1883 Nov 18 17:00u`, in seconds from 1970-01-01 00:00:00
//! let moment = Moment { month: Month::November, on: On::Day(18), at: 61_200, kind: AtKind::Universal };
//! assert_eq!(rt; nominal(1883, &moment), -2_717_650_800);
//! ```
#![tactic(auto)]

mod calendar;
mod cause;
mod civil;
mod counter;
mod database;
mod fault;
mod format;
mod instant;
mod leap_entry;
mod leap_info;
mod leaps;
mod limit;
mod link;
mod list;
mod memory;
mod moment;
mod range;
mod rule;
mod rule_set;
mod shared;
mod source;
mod text;
mod until;
mod zone;
mod zone_line;

pub use calendar::{Month, On, Weekday, civil_year, day_of, has_day, has_day_through};
pub use cause::Cause;
pub use civil::{BadDate, civil_seconds};
pub use counter::Steps;
pub use database::Db;
pub use fault::{Fault, LineFault};
pub use format::Format;
pub use instant::{END_OF_TIME, FIRST_INSTANT};
pub use leap_entry::LeapEntry;
pub use leap_info::LeapInfo;
pub use leaps::Leaps;
pub use limit::{
    LAST_RULE_YEAR, LAST_WRITTEN_YEAR, LONGEST_ABBREVIATION, LONGEST_FORMAT, LONGEST_LETTERS,
    LONGEST_LINE, LONGEST_NAME, LONGEST_OFFSET, LONGEST_SHIFT, LONGEST_TIME, LONGEST_VERSION,
    MOST_BYTES, MOST_FILES, MOST_LEAPS, MOST_LINKS, MOST_RULES, MOST_SETS, MOST_TEXT_LINES,
    MOST_ZONE_LINES, MOST_ZONES,
};
pub use link::Link;
pub use list::Items;
pub use memory::NoMemory;
pub use moment::{AtKind, Moment, nominal};
pub use range::{Choose, LocalInfo, SysInfo};
pub use rule::Rule;
pub use rule_set::RuleSet;
pub use shared::Shared;
pub use source::{Source, Text};
pub use text::{Abbrev, Label, Letters, PrintableText, TextError, VersionText};
pub use until::Until;
pub use zone::Zone;
pub use zone_line::{LineRules, ZoneLine};

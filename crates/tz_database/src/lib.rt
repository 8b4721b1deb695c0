//! The database of what the lines of a zone text gave, or the least fault of the text as a whole.
//!
//! The layer above gives `Parts`, and `build` makes the database of them: lines follow their rule sets by place, zones and
//! links stand in the order of their names, and each link has the place of its zone. Where the text as a whole has a fault,
//! `build` tells the least. `LeastFault` keeps the least of faults that are told one after another, for leap texts too.
//!
//! ```rust
//! use tz_database::{BuildError, build};
//!
//! match build(alloc, parts) {
//!     Ok(db) => db.zones.len(),
//!     Err(BuildError::Fault { line, cause }) => ..,       // `Zone A 0 - X 2000` alone: line 1, cause 19
//!     Err(BuildError::NoMemory) => ..,
//! }
//! ```
#![tactic(auto)]

mod database;
mod error;
mod followed_set;
mod late_line;
mod least_fault;
#[cfg(test)]
mod link_rows;
mod link_zones;
mod missing_target;
mod name_order;
mod parts;
mod places;
mod reach;
mod repeated_name;
mod settle;
mod settled_lines;
mod stop;
mod unfinished_zone;
mod unknown_set;
mod whole_fault;

pub use database::build;
pub use error::BuildError;
pub use least_fault::LeastFault;
pub use parts::Parts;

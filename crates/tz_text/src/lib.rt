//! Readers of what stands in a line of a text, and one writer of numbers.
//!
//! The layer above cuts a text into lines by `next_line`. It takes the fields of a line, and has each read as a year, an amount of time, a day of a month
//! or a name cut short. What each means is defined in `tz_specs`; nothing here allocates but where it is said.
//!
//! ```rust
//! use tz_text::{Fields, Joined, amount, year};
//!
//! let mut joined = Joined::new();
//! let fields = Fields::cut(b"Rule US 1967 2006 - Oct lastSun 2:00 0 S # summer ends", &mut joined)?;
//! assert_eq!(rt; fields.count(), 10);
//! assert_eq!(rt; year(fields.get(2)), Some(1967));
//! let at = amount(fields.get(7), b"wsugz");       // 7,200 seconds, and no letter behind them
//! ```
#![tactic(auto)]

mod bytes;
mod civil_word;
mod clock;
mod cut;
mod day;
mod digits;
mod duration;
mod kept;
mod lines;
mod local;
mod output;
mod second;
mod table;

pub use clock::amount;
pub use cut::{Fields, Joined, OpenQuote};
pub use day::on;
pub use digits::{number, signed_number, year};
pub use duration::Amount;
pub use kept::MOST_KEPT;
pub use lines::{may_have_nul, next_line};
pub use local::local_time;
pub use output::put_number;
pub use second::second_of_day;
pub use table::{named, named_among};

#[cfg(test)]
mod tests;

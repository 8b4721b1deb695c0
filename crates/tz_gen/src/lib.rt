//! Generated input: texts of many zones, and a script that looks into them from many lanes while they are reloaded.
//!
//! `generate` makes four texts and one script for a number of zones. The texts differ in their versions alone, so what a
//! lookup of the script finds is the same whichever text it falls on, and the sum of what all find doesn't depend on how
//! the lanes are scheduled. Each text, and the script, is short enough to be read.
//!
//! The text of one zone is, for the first of the four texts:
//!
//! ```text
//! # version g0
//! Rule G 1970 max - Mar lastSun 1:00u 1:00 S
//! Rule G 1970 max - Oct lastSun 1:00u 0 -
//! Zone Gen/0 -12:00 G G%sT
//! ```
//!
//! ```rust
//! let generated = generate(alloc, 1)?;
//! assert_eq!(rt; generated.texts.len(), 4);
//! assert!(rt; generated.script.as_slice().starts_with(b"lanes 8\nround\n1 reload 1\n"));
//! ```
//!
//! The crate stands on `tz_text` for the writing of numbers.
#![tactic(auto)]

mod generated;
mod line;
mod script;
mod sizes;
mod text;

pub use generated::{Generated, generate};
pub use sizes::{GENERATED_LANES, GENERATED_ROUNDS, GENERATED_TEXTS, MOST_GENERATED};

#[cfg(test)]
mod tests;

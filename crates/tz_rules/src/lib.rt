//! When rules occur, which occurrence is in effect at an instant, and when the lines of a zone end.
//!
//! The layer above uses `last_at_or_before` and `next_after`, the occurrence in effect at an instant and the next change;
//! `until_instant`, the instant at which a line with an UNTIL ends; `InForce`, what is in force, with `letters_before` for
//! the time before any occurrence is in effect; and `abbreviation`, how that time is called. Where it looks at single
//! occurrences itself, it does so by `Occurrence`.
//!
//! ```rust
//! // the rules of the United States from 2007 on, at -5:00, in July of 2024
//! let mut steps = Steps::<L>::new(blank);
//! let now = last_at_or_before(&rules, -18_000, 1_720_000_000, &mut steps);
//! let next = next_after(&rules, -18_000, 1_720_000_000, &mut steps);
//! assert_eq!(rt; now.map(|taken| taken.at), Some(1_710_054_000));
//! assert_eq!(rt; next.map(|taken| taken.at), Some(1_730_613_600));
//! ```
#![tactic(auto)]

mod format;
mod in_effect;
mod in_force;
mod instant;
mod letters;
mod mark;
mod next_change;
mod next_occurrence;
mod occurrences;
mod placed;
mod previous_occurrence;
mod shift;
mod taken;
mod until;
#[cfg(test)]
mod worked_rows;
mod years;

pub use format::abbreviation;
pub use in_force::InForce;
pub use letters::letters_before;
pub use occurrences::Occurrence;
pub use taken::{Taken, last_at_or_before, next_after};
pub use until::until_instant;
pub use years::{FIRST_YEAR, LAST_YEAR, occurrence};

//! Tests of the table that threads share, with plain records, used as hostile callers may.
#![tactic(auto)]

#[cfg(test)]
mod gated;
#[cfg(test)]
mod openings;
#[cfg(test)]
mod record;
#[cfg(test)]
mod threads;

//! The searches of `tz_rules` beside the plain listing of every rule in every year, over rule sets made to hurt.
//!
//! The listing is computed just as the definitions say it, and is proved to be theirs.
#![tactic(auto)]

#[cfg(test)]
mod compared;
#[cfg(test)]
mod listing;
#[cfg(test)]
mod rule_year;
#[cfg(test)]
mod sets;
#[cfg(test)]
mod state;
#[cfg(test)]
mod tests;

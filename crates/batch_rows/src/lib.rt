//! Tests of batches: worked scripts, lanes side by side, generated scripts, faults of files and sinks, and limits in bytes.
#![tactic(auto)]

#[cfg(test)]
mod batches;
#[cfg(test)]
mod commands;
#[cfg(test)]
mod faults;
#[cfg(test)]
mod generated;
#[cfg(test)]
mod lanes;
#[cfg(test)]
mod outside;
#[cfg(test)]
mod scripts;
#[cfg(test)]
mod sinks;
#[cfg(test)]
mod sizes;

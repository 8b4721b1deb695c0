//! Tests that cross crates: worked rows of all commands but `batch`, over files and a sink in memory.
#![tactic(auto)]

#[cfg(test)]
mod days;
#[cfg(test)]
mod dumps;
#[cfg(test)]
mod leap_texts;
#[cfg(test)]
mod links;
#[cfg(test)]
mod locals;
#[cfg(test)]
mod many_files;
#[cfg(test)]
mod moves;
#[cfg(test)]
mod outside;
#[cfg(test)]
mod rows;
#[cfg(test)]
mod sizes;
#[cfg(test)]
mod sources;
#[cfg(test)]
mod tzif;
#[cfg(test)]
mod zone_texts;

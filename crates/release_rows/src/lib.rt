//! Real releases, where the machine has them: tests.
#![tactic(auto)]

#[cfg(test)]
mod dumps;
#[cfg(test)]
mod folder;
#[cfg(test)]
mod outside;
#[cfg(test)]
mod texts;
#[cfg(test)]
mod versions;

//! Local times, zoned times, moves and days of zones that are read from texts, with ample memory.
#![tactic(auto)]

#[cfg(test)]
mod moves;
#[cfg(test)]
mod tests;
#[cfg(test)]
mod zone;

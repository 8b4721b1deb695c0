//! Zones of texts compiled and dumped, with ample memory: their ranges over a stretch of time.
#![tactic(auto)]

#[cfg(test)]
mod tests;

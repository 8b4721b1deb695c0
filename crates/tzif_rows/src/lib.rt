//! Zones that are read from texts and written as TZif files, with ample memory.
#![tactic(auto)]

#[cfg(test)]
mod tests;

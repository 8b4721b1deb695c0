//! Laws of zones and their ranges that nothing else stands on. There is no code here.
//!
//! Read aloud, the one law so far says: what `%z` writes for an offset of less than a hundred hours, as `-0330` for -12,600
//! seconds, is read back as that offset; whatever else is read as it is no shorter; and an offset of 0 is written `+00`.
#![tactic(auto)]

mod offset_laws;

pub use offset_laws::offsets_are_written_shortest;

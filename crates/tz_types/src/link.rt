//! Links: further names of zones (zic(8), "Link lines"; C++20, [time.zone.link]).
use crate::Label;

/// Another name for a zone. `zone` is the place, in the list of zones, of the zone that the targets reach.
#[derive(Debug, PartialEq, Drop)]
pub struct Link {
    pub name: Label,
    pub target: Label,
    pub zone: u32,
    /// Where the link stands in its text, counted from 1.
    pub line: u32,
}

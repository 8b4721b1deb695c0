//! Whether a zone waits for a line, and whether one more zone, line of a zone or link would be one too many.
ghost use Rattle.std.specs.Prelude.{◌≡◌};
ghost use Rattle.tz_specs.specs.Contents.{last_lines, wants_line, waits, exceeds_zones, exceeds_lines, exceeds_links};
ghost use Rattle.tz_lines.specs.Gathered.{contents_gathered};

use crate::contents::Gathered;
use tz_types::{MOST_LINKS, MOST_ZONE_LINES, MOST_ZONES};

impl Gathered {
    /// Whether the last line of the zone that was begun last has an UNTIL.
    fn wants_line(&self) -> bool
        ensures { result ≡ wants_line (last_lines (contents_gathered self.now).zones) }
    {
        match self.zones.as_slice().last() {
            None => false,
            Some(zone) => match zone.lines.as_slice().last() {
                None => false,
                Some(line) => line.until.is_some(),
            },
        }
    }

    /// Whether the zone that was begun last, in this file, waits for a line.
    pub fn waits(&self) -> bool
        ensures { result ≡ waits (contents_gathered self.now) }
    {
        self.begun && self.wants_line()
    }

    /// Whether a zone would be one too many.
    pub fn exceeds_zones(&self) -> bool
        ensures { result ≡ exceeds_zones (contents_gathered self.now) }
    {
        self.zones.len() >= MOST_ZONES
    }

    /// Whether a line would be one too many of its zone.
    pub fn exceeds_lines(&self) -> bool
        ensures { result ≡ exceeds_lines (contents_gathered self.now) }
    {
        match self.zones.as_slice().last() {
            None => false,
            Some(zone) => zone.lines.len() >= MOST_ZONE_LINES,
        }
    }

    /// Whether a link would be one too many.
    pub fn exceeds_links(&self) -> bool
        ensures { result ≡ exceeds_links (contents_gathered self.now) }
    {
        self.links.len() >= MOST_LINKS
    }
}

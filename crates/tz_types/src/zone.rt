//! Zones (zic(8), "Zone lines"; C++20, [time.zone.timezone]).
ghost use Rattle.std.specs.Prelude.{◌≤◌, length};
ghost use Rattle.tz_types.specs.declared.limit.TheConstants.{MOST_ZONE_LINES};

use crate::{Items, Label, ZoneLine};

/// A zone's name and its lines, one at least, in the order of time.
#[derive(Debug, PartialEq, Drop)]
pub struct Zone {
    pub name: Label,
    pub lines: Items<ZoneLine>,
    pub ghost some_line: { 1 ≤ length lines },
    pub ghost few_lines: { length lines ≤ MOST_ZONE_LINES },
}

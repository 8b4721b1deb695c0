//! Local time types, after RFC 8536, section 3.2: what a clock shows in a range, whenever that is.
ghost use Rattle.std.specs.Prelude.{◌≡◌};
ghost use Rattle.tz_tzif.specs.Types.{type_of};

use tz_types::{Abbrev, SysInfo};

/// Local time is `offset` seconds ahead of universal time, is daylight saving time or not, and is called `designation`.
#[derive(Debug, PartialEq, Drop)]
pub struct LocalType {
    pub offset: i64,
    pub is_daylight: bool,
    pub designation: Abbrev,
}

impl LocalType {
    /// The type of a range. It is daylight saving time exactly where some is saved.
    pub fn of(range: &SysInfo) -> Self
        ensures { result ≡ type_of range.now }
    {
        LocalType {
            offset: range.offset,
            is_daylight: range.save != 0,
            designation: range.abbrev.copied(),
        }
    }
}

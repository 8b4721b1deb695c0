//! Ranges on their own clocks, seconds from 1970-01-01 00:00:00.
ghost use Rattle.std.specs.Prelude.{◌≡◌};
ghost use Rattle.jiff_core.specs.Calendar.{IsWithin};
ghost use Rattle.tz_types.specs.declared.limit.TheConstants.{LONGEST_OFFSET};
ghost use Rattle.tz_specs.specs.Local.{shows_local, begins_by};
ghost use Rattle.tz_local.specs.LocalTime.{IsLocalTime};

use tz_types::SysInfo;

/// The local time is shown in the range.
pub fn is_shown(range: &SysInfo, l: i64) -> bool
    requires inside { IsLocalTime l }
    requires near { IsWithin LONGEST_OFFSET range.now.offset }
    ensures { result ≡ shows_local l range.now }
{
    let t = l - range.offset;
    range.begin <= t && t < range.end
}

/// The range begins, on its own clock, at or before the local time.
pub fn has_begun(range: &SysInfo, l: i64) -> bool
    requires inside { IsLocalTime l }
    requires near { IsWithin LONGEST_OFFSET range.now.offset }
    ensures { result ≡ begins_by l range.now }
{
    range.begin <= l - range.offset
}

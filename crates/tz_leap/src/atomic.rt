//! TAI and GPS, after ISO C++20 [time.clock.tai] and [time.clock.gps], each a fixed number of seconds from UTC.
ghost use Rattle.std.specs.Prelude.{◌≡◌, ◌↔◌, ◌+ℤ◌, ◌-ℤ◌, IsOk, IfOk};
ghost use Rattle.tz_specs.specs.LeapSecond.{IsUtcCount, tai_ahead, gps_behind, tai_count, gps_count};

use crate::OutOfRange;
use crate::utc::is_utc_count;
use tz_types::Leaps;

/// The count of TAI, from 1958-01-01 00:00:00, is that much greater than that of UTC.
const TAI_AHEAD: i64 = 378_691_210;

/// The count of GPS, from 1980-01-06 00:00:00, is that much less than that of UTC.
const GPS_BEHIND: i64 = 315_964_809;

/// The count of TAI at the UTC count `u`, in seconds from 1958-01-01 00:00:00 TAI.
/// `OutOfRange` comes exactly where `u` isn't in the range of UTC counts.
pub fn tai_of_utc(leaps: &Leaps, u: i64) -> Result<i64, OutOfRange>
    ensures in_range { IsOk result ↔ IsUtcCount leaps.now.entries u }
    ensures value { IfOk result (λ tai. tai ≡ tai_count u) }
{
    if is_utc_count(leaps, u) {
        Ok(u + TAI_AHEAD)
    } else {
        Err(OutOfRange)
    }
}

/// The count of GPS at the UTC count `u`, in seconds from 1980-01-06 00:00:00.
/// `OutOfRange` comes exactly where `u` isn't in the range of UTC counts.
pub fn gps_of_utc(leaps: &Leaps, u: i64) -> Result<i64, OutOfRange>
    ensures in_range { IsOk result ↔ IsUtcCount leaps.now.entries u }
    ensures value { IfOk result (λ gps. gps ≡ gps_count u) }
{
    if is_utc_count(leaps, u) {
        Ok(u - GPS_BEHIND)
    } else {
        Err(OutOfRange)
    }
}

/// The UTC count at the count `tai` of TAI, in seconds from 1970-01-01 00:00:00.
/// `OutOfRange` comes exactly where that isn't in the range of UTC counts.
pub fn utc_of_tai(leaps: &Leaps, tai: i64) -> Result<i64, OutOfRange>
    ensures in_range { IsOk result ↔ IsUtcCount leaps.now.entries (tai -ℤ tai_ahead) }
    ensures value { IfOk result (λ u. u ≡ tai -ℤ tai_ahead) }
{
    match tai.checked_sub(TAI_AHEAD) {
        Some(u) if is_utc_count(leaps, u) => Ok(u),
        _ => Err(OutOfRange),
    }
}

/// The UTC count at the count `gps` of GPS, in seconds from 1970-01-01 00:00:00.
/// `OutOfRange` comes exactly where that isn't in the range of UTC counts.
pub fn utc_of_gps(leaps: &Leaps, gps: i64) -> Result<i64, OutOfRange>
    ensures in_range { IsOk result ↔ IsUtcCount leaps.now.entries (gps +ℤ gps_behind) }
    ensures value { IfOk result (λ u. u ≡ gps +ℤ gps_behind) }
{
    match gps.checked_add(GPS_BEHIND) {
        Some(u) if is_utc_count(leaps, u) => Ok(u),
        _ => Err(OutOfRange),
    }
}

//! UTC counts, after ISO C++20 [time.clock.utc] and [time.clock.utc.members]: seconds since 1970-01-01 00:00:00, with those
//! that were added and without those that were skipped.
ghost use Rattle.std.specs.Prelude.{◌≡◌, ◌≤◌, ◌<◌, ◌&&◌, ◌↔◌, ℤ, ◌+ℤ◌, ◌-ℤ◌, length, take, slice_index_or, count_by, IsTrue, IsOk, IfOk};
ghost use Rattle.std.specs.Ordering.{int_eq};
ghost use Rattle.jiff_core.specs.Calendar.{IsWithin};
ghost use Rattle.tz_types.specs.declared.leap_entry.LeapEntry.{LeapEntry};
ghost use Rattle.tz_specs.specs.Expansion.{IsInstant};
ghost use Rattle.tz_specs.specs.LeapSecond.{IsUtcCount, IsSystemTime, IsLeapInfo, all_seconds, utc_count, counts_at, is_inserted, elapsed_by, is_past};

use crate::OutOfRange;
use crate::search::{added_by, entries_at, sum_before, sum_of_all};
use tz_types::{END_OF_TIME, FIRST_INSTANT, LeapInfo, Leaps};

/// The UTC count lies in the range of the clock. No such count lies further from 1970 than the beginning of time.
pub(crate) fn is_utc_count(leaps: &Leaps, u: i64) -> bool
    ensures in_range { IsTrue result ↔ IsUtcCount leaps.now.entries u }
    ensures near { IsTrue result → IsWithin 377_705_116_800 u }
{
    u >= FIRST_INSTANT && u < END_OF_TIME + sum_of_all(leaps)
}

/// The UTC count is the second that the entry at a place adds.
fn is_second_of(leaps: &Leaps, place: usize, u: i64) -> bool
    requires there { place < length leaps.now.entries }
    requires near { IsWithin 377_705_116_800 u }
    ensures { (missing : LeapEntry) → result ≡ ((slice_index_or leaps.now.entries place missing).added && int_eq (slice_index_or leaps.now.entries place missing).date (u -ℤ all_seconds (take place leaps.now.entries))) }
{
    let entry = leaps.entries.as_slice()[place];
    entry.added && entry.date == u - sum_before(leaps, place)
}

/// The UTC count is an added second, where that many entries count at it.
fn is_inserted_second(leaps: &Leaps, u: i64, count: usize) -> bool
    requires near { IsWithin 377_705_116_800 u }
    requires counted { count ≡ count_by (counts_at leaps.now.entries u) leaps.now.entries }
    requires bound { count ≤ length leaps.now.entries }
    ensures { result ≡ is_inserted leaps.now.entries u }
{
    count > 0 && is_second_of(leaps, count - 1, u)
}

/// The table expires, and the system time isn't before that moment.
fn is_past(expires: Option<i64>, t: i64) -> bool
    ensures { result ≡ is_past expires t }
{
    match expires {
        Some(moment) => moment <= t,
        None => false,
    }
}

/// The UTC count of the system time `t`, in seconds from 1970-01-01 00:00:00.
/// `OutOfRange` comes exactly where `t` isn't in the range of system times.
pub fn utc_of_sys(leaps: &Leaps, t: i64) -> Result<i64, OutOfRange>
    ensures in_range { IsOk result ↔ IsInstant t }
    ensures value { IfOk result (λ u. u ≡ utc_count leaps.now.entries t) }
{
    if t < FIRST_INSTANT || t >= END_OF_TIME {
        return Err(OutOfRange);
    }
    Ok(t + added_by(leaps, t))
}

/// The system time of the UTC count `u`, in seconds from 1970-01-01 00:00:00. That of an added second is the second before
/// its date, and that of a count which two system times share is the later one. `OutOfRange` comes exactly where `u` isn't
/// in the range of UTC counts.
pub fn sys_of_utc(leaps: &Leaps, u: i64) -> Result<i64, OutOfRange>
    ensures in_range { IsOk result ↔ IsUtcCount leaps.now.entries u }
    ensures value { IfOk result (λ t. IsSystemTime leaps.now.entries u t) }
    ensures elapsed { IfOk result (λ t. u ≡ t +ℤ elapsed_by leaps.now.entries u) }
{
    if !is_utc_count(leaps, u) {
        return Err(OutOfRange);
    }
    // An added second is among those taken off, so it comes out as the second before its date.
    Ok(u - sum_before(leaps, entries_at(leaps, u)))
}

/// Whether the UTC count `u` is an added second, how many were added up to it, itself among them, less those that were
/// skipped, and whether the table has expired by its system time. `OutOfRange` comes exactly where `u` isn't in the range
/// of UTC counts.
pub fn leap_info(leaps: &Leaps, u: i64) -> Result<LeapInfo, OutOfRange>
    ensures in_range { IsOk result ↔ IsUtcCount leaps.now.entries u }
    ensures info { IfOk result (λ info. IsLeapInfo leaps.now u info) }
    ensures elapsed { IfOk result (λ info. (t : ℤ) → IsSystemTime leaps.now.entries u t → u ≡ t +ℤ info.elapsed) }
{
    if !is_utc_count(leaps, u) {
        return Err(OutOfRange);
    }
    let count = entries_at(leaps, u);
    let elapsed = sum_before(leaps, count);
    Ok(LeapInfo {
        is_leap: is_inserted_second(leaps, u, count),
        elapsed,
        expired: is_past(leaps.expires, u - elapsed),
    })
}

//! How many seconds a civil day has.
ghost use Rattle.std.specs.Prelude.{◌≡◌, ◌<◌, ◌↔◌, pos, IsOk, IfOk};
ghost use Rattle.jiff_core.specs.Calendar.{IsWithin, IsBetween};
ghost use Rattle.tz_types.specs.declared.limit.TheConstants.{LONGEST_OFFSET};
ghost use Rattle.tz_expand.specs.Zone.{expansion_of};
ghost use Rattle.tz_moves.specs.Moves.{IsInTime};
ghost use Rattle.tz_moves.specs.Day.{IsDay, seconds_in, day_seconds};

use crate::range::range_at;
use std::marker::Brand;
use std::sync::ledger::{Blank, Ledger};
use tz_expand::CompiledZone;
use tz_local::OutOfRange;
use tz_types::{END_OF_TIME, FIRST_INSTANT, LONGEST_OFFSET, Steps, SysInfo};

/// The most by which a local time is ahead of universal time or behind it, in seconds: a standard offset and a save
/// of a day each.
const MOST_OFFSET: i64 = LONGEST_OFFSET as i64;

/// The seconds from one midnight to the next on a clock that doesn't move.
const DAY: i64 = 86_400;

/// The first day that is told.
const FIRST_DAY: i64 = (FIRST_INSTANT + MOST_OFFSET) / DAY;

/// The last day that is told.
const LAST_DAY: i64 = (END_OF_TIME - MOST_OFFSET) / DAY - 1;

/// How many seconds of the day the clock shows in the range.
fn seconds_in(day: i64, range: &SysInfo) -> i64
    requires inside { IsDay day }
    requires in_time { IsInTime range.now }
    requires near { IsWithin LONGEST_OFFSET range.now.offset }
    ensures value { result ≡ seconds_in day range.now }
    ensures bound { IsBetween (pos 0) (pos 86_400) result }
{
    let first = (range.begin + range.offset).max(day * DAY);
    let last = (range.end + range.offset).min((day + 1) * DAY);
    (last - first).max(0)
}

/// What the ranges show of a day that meet the five days round it.
fn seconds_among<L: Ledger>(zone: &CompiledZone, day: i64, steps: &mut Steps<L>) -> i64
    requires { IsDay day }
    ensures value { result ≡ day_seconds day (expansion_of zone.now) }
    ensures bound { IsBetween (pos 0) (pos 432_000) result }
{
    let mut range = range_at(zone, day * DAY - MOST_OFFSET, steps);
    let mut seconds = seconds_in(day, &range);
    while range.end < (day + 1) * DAY + MOST_OFFSET {
        range = range_at(zone, range.end, steps);
        seconds += seconds_in(day, &range);
    }
    seconds
}

/// The same, where nobody asks for the count of steps.
fn seconds_uncounted<L: Ledger>(zone: &CompiledZone, day: i64, blank: Blank) -> i64
    requires name { blank.name ≡ L.name }
    requires parts { blank.parts ≡ L.parts }
    requires counts { 0 < blank.parts }
    requires inside { IsDay day }
    ensures value { result ≡ day_seconds day (expansion_of zone.now) }
    ensures bound { IsBetween (pos 0) (pos 432_000) result }
{
    let mut steps = Steps::<L>::new(blank);
    seconds_among(zone, day, &mut steps)
}

/// How many seconds the zone's clock shows of a day, counted from 1970-01-01: 86400, but for days on which it is put
/// forward or back. `OutOfRange` comes exactly where the day doesn't begin two days or more after -9999-01-01
/// 00:00:00 and end two days or more before 10000-01-01 00:00:00. It takes no memory.
pub fn day_seconds(zone: &CompiledZone, day: i64) -> Result<i64, OutOfRange>
    ensures in_range { IsOk result ↔ IsDay day }
    ensures seconds { IfOk result (λ seconds. seconds ≡ day_seconds day (expansion_of zone.now)) }
    ensures bound { IfOk result (λ seconds. IsBetween (pos 0) (pos 432_000) seconds) }
{
    if day < FIRST_DAY || day > LAST_DAY {
        return Err(OutOfRange);
    }
    Ok(seconds_uncounted::<Brand>(zone, day, Blank::new(1)))
}

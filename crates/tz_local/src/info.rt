//! The local info of a local time: which ranges show it.
ghost use Rattle.std.specs.Prelude.{◌≡◌, ℕ, ◌<◌, ◌↔◌, IsOk, IfOk, Some};
ghost use Rattle.jiff_core.specs.Calendar.{IsWithin};
ghost use Rattle.tz_types.specs.declared.limit.TheConstants.{LONGEST_OFFSET};
ghost use Rattle.tz_specs.specs.Expansion.{IsInstant, range_at};
ghost use Rattle.tz_specs.specs.Local.{local_info};
ghost use Rattle.tz_expand.specs.Zone.{expansion_of};
ghost use Rattle.tz_local.specs.LocalTime.{IsLocalTime};

use crate::OutOfRange;
use crate::findings::Findings;
use std::marker::Brand;
use std::sync::ledger::{Blank, Ledger};
use tz_expand::{CompiledZone, info_at};
use tz_types::{END_OF_TIME, FIRST_INSTANT, LONGEST_OFFSET, LocalInfo, Steps, SysInfo};

/// The most by which a local time is ahead of universal time or behind it, in seconds: a standard offset and a save of a
/// day each.
const MOST_OFFSET: i64 = LONGEST_OFFSET as i64;

/// The range that holds an instant in time.
fn range_at<L: Ledger>(zone: &CompiledZone, t: i64, steps: &mut Steps<L>) -> SysInfo
    requires { IsInstant t }
    ensures range { range_at (expansion_of zone.now) t ≡ Some result }
    ensures near { IsWithin LONGEST_OFFSET result.offset }
{
    match info_at(zone, t, steps) {
        Some(range) => range,
        None => unreachable!(),
    }
}

/// What the ranges tell that meet the four days round the local time.
fn info_among<L: Ledger>(zone: &CompiledZone, l: i64, steps: &mut Steps<L>) -> LocalInfo
    requires { IsLocalTime l }
    ensures { local_info (expansion_of zone.now) l ≡ Some result }
{
    let first = range_at(zone, l - MOST_OFFSET, steps);
    let mut end = first.end;
    let mut findings = Findings::from_first(first, l);
    while end <= l + MOST_OFFSET {
        let range = range_at(zone, end, steps);
        end = range.end;
        findings = findings.and(range, l);
    }
    match findings {
        Findings::Told(info) => info,
        Findings::Begun(_) => unreachable!(),
    }
}

/// The same, where nobody asks for the count of steps.
fn info_uncounted<L: Ledger>(zone: &CompiledZone, l: i64, blank: Blank) -> LocalInfo
    requires name { blank.name ≡ L.name }
    requires parts { blank.parts ≡ L.parts }
    requires counts { 0 < blank.parts }
    requires inside { IsLocalTime l }
    ensures { local_info (expansion_of zone.now) l ≡ Some result }
{
    let mut steps = Steps::<L>::new(blank);
    info_among(zone, l, &mut steps)
}

/// Which ranges of the zone show the local time `l`: one, or several, of which the first and the last are told, or none, and
/// then `l` lies in a gap between two, the last such two. `OutOfRange` comes exactly where `l` isn't two days or more after
/// -9999-01-01 00:00:00 and more than two days before 10000-01-01 00:00:00. It takes no memory.
pub fn local_info(zone: &CompiledZone, l: i64) -> Result<LocalInfo, OutOfRange>
    ensures in_range { IsOk result ↔ IsLocalTime l }
    ensures info { IfOk result (λ info. local_info (expansion_of zone.now) l ≡ Some info) }
{
    if l < FIRST_INSTANT + MOST_OFFSET || l >= END_OF_TIME - MOST_OFFSET {
        return Err(OutOfRange);
    }
    Ok(info_uncounted::<Brand>(zone, l, Blank::new(1)))
}

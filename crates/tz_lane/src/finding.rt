//! What lookups find in a version: in its zones by their names, or by its leap table. Instants and local times are in
//! seconds from 1970-01-01 00:00:00.
//!
//! The name is looked up first, so where it stands for no zone that is found, whatever the time. A lookup in the zone
//! compares no texts and allocates nothing for itself; what the zone keeps of its windows changes nothing that is found.
ghost use Rattle.std.specs.Prelude.{◌≤◌, ◌^◌, IsTrue};
ghost use Rattle.jiff_core.specs.Calendar.{IsWithin};
ghost use Rattle.tz_script.specs.Size.{IsSized};
ghost use Rattle.tz_windows.specs.declared.scan.TheConstants.{MOST_LOOKS};
ghost use Rattle.tz_batch.specs.Finding.{FindsInfo, FindsLocal, FindsSys, FindsScan, FindsInZone, FindsByClock};
ghost use Rattle.tz_lane.specs.LaneLookup.{is_lookup, FindsFor};

use std::alloc::Global;
use tz_lookup::{Conversion, Found, find_count, find_info_by_windows};
use tz_script::Op;
use tz_types::Choose;
use tz_version::Version;

/// What a lookup finds in a version, whichever version it picks.
pub fn find(alloc: Global, version: &Version, op: &Op) -> Found
    requires lookup { IsTrue (is_lookup op.now) }
    requires sized { IsSized op.now }
    ensures { FindsFor op.now version.now.sources version.now.src result }
{
    match op {
        Op::Info { v: _, zone, t } => find_info(alloc, version, zone.as_bytes(), *t),
        Op::Local { v: _, zone, l } => find_local(version, zone.as_bytes(), *l),
        Op::Sys {
            v: _,
            zone,
            l,
            choose,
        } => find_sys(version, zone.as_bytes(), *l, *choose),
        Op::Scan {
            v: _,
            zone,
            from,
            step,
            count,
        } => find_scan(alloc, version, zone.as_bytes(), *from, *step, *count),
        Op::Clock { v: _, conv, x } => find_by_clock(version, *conv, *x),
        Op::Look | Op::Hold(_) | Op::Drop(_) | Op::Reload { .. } | Op::Erase { .. } | Op::List =>
            unreachable!(),
    }
}

/// What a lookup of an instant finds in the zone of that name.
fn find_info(alloc: Global, version: &Version, name: &[u8], t: i64) -> Found
    ensures { FindsInZone version.now.sources version.now.src name.now (λ compiled. FindsInfo compiled t) result }
{
    match version.zone(name) {
        Ok(mut zone) => find_info_by_windows(alloc, &mut zone, t),
        Err(_) => Found::NoZone,
    }
}

/// What a lookup of a local time finds in the zone of that name.
fn find_local(version: &Version, name: &[u8], l: i64) -> Found
    ensures { FindsInZone version.now.sources version.now.src name.now (λ compiled. FindsLocal compiled l) result }
{
    match version.zone(name) {
        Ok(zone) => tz_lookup::find_local(zone.compiled(), l),
        Err(_) => Found::NoZone,
    }
}

/// What is found of the instant of a local time in the zone of that name. Without a choice it may be undecided.
fn find_sys(version: &Version, name: &[u8], l: i64, choose: Option<Choose>) -> Found
    ensures { FindsInZone version.now.sources version.now.src name.now (λ compiled. FindsSys compiled l choose) result }
{
    match version.zone(name) {
        Ok(zone) => tz_lookup::find_sys(zone.compiled(), l, choose),
        Err(_) => Found::NoZone,
    }
}

/// What a scan finds in the zone of that name: it looks at as many instants as it counts, from the first on, a step apart.
fn find_scan(
    alloc: Global,
    version: &Version,
    name: &[u8],
    from: i64,
    step: u32,
    count: u32,
) -> Found
    requires apart { 1 ≤ step }
    requires few { count ≤ MOST_LOOKS }
    requires near { IsWithin (10 ^ 15) from }
    ensures { FindsInZone version.now.sources version.now.src name.now (λ compiled. FindsScan compiled from step count) result }
{
    match version.zone(name) {
        Ok(mut zone) => tz_lookup::find_scan(alloc, &mut zone, from, step, count),
        Err(_) => Found::NoZone,
    }
}

/// What is found by a clock over the leap table of a version: the count of the other clock, or what there is to know of a
/// UTC count.
fn find_by_clock(version: &Version, conversion: Conversion, x: i64) -> Found
    ensures { FindsByClock version.now.sources conversion x result }
{
    find_count(version.leaps(), conversion, x)
}

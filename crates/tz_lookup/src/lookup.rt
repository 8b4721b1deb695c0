//! Lookups in zones, and conversions between clocks. Instants and local times are in seconds from 1970-01-01 00:00:00.
//!
//! A lookup takes no memory for itself. What a zone keeps of its windows changes nothing that is found.
ghost use Rattle.std.specs.Prelude.{◌≡◌, ◌<◌, ◌≤◌, ◌^◌, ◌↔◌, IsSome, IsErr, IfOk};
ghost use Rattle.jiff_core.specs.Calendar.{IsWithin};
ghost use Rattle.tz_specs.specs.Expansion.{IsInstant, range_at};
ghost use Rattle.tz_expand.specs.Zone.{expansion_of};
ghost use Rattle.tz_windows.specs.Scan.{scan_of};
ghost use Rattle.tz_windows.specs.declared.scan.TheConstants.{MOST_LOOKS};
ghost use Rattle.tz_lookup.specs.Finding.{IsInfoFound, IsLocalFound, IsSysFound, IsCountFound};
ghost use Rattle.tz_lookup.specs.declared.found.Found.{Found};

use crate::conversion::Conversion;
use crate::found::Found;
use std::alloc::Global;
use std::marker::Brand;
use std::sync::ledger::{Blank, Ledger};
use tz_expand::{CompiledZone, info_uncounted};
use tz_leap::{
    OutOfRange, gps_of_utc, leap_info, sys_of_utc, tai_of_utc, utc_of_gps, utc_of_sys, utc_of_tai,
};
use tz_local::{ToSysError, local_info, to_sys};
use tz_types::{Choose, LeapInfo, Leaps, Steps, SysInfo};
use tz_windows::{Scan, ZoneRef};

/// The range of a zone that holds an instant, where nobody asks for the counts of probes and steps.
fn range_uncounted<Q: Ledger, L: Ledger>(
    alloc: Global,
    zone: &mut ZoneRef<'_>,
    t: i64,
    of_probes: Blank,
    of_steps: Blank,
) -> Option<SysInfo>
    requires probes_name { of_probes.name ≡ Q.name }
    requires probes_parts { of_probes.parts ≡ Q.parts }
    requires probes_count { 0 < of_probes.parts }
    requires steps_name { of_steps.name ≡ L.name }
    requires steps_parts { of_steps.parts ≡ L.parts }
    requires steps_count { 0 < of_steps.parts }
    ensures range { result ≡ range_at (expansion_of zone.old) t }
    ensures in_range { IsSome result ↔ IsInstant t }
{
    let mut probes = Steps::<Q>::new(of_probes);
    let mut steps = Steps::<L>::new(of_steps);
    zone.info(alloc, t, &mut probes, &mut steps)
}

/// A scan of a zone, where nobody asks for the counts of probes and steps.
fn scan_uncounted<Q: Ledger, L: Ledger>(
    alloc: Global,
    zone: &mut ZoneRef<'_>,
    from: i64,
    step: u32,
    count: u32,
    of_probes: Blank,
    of_steps: Blank,
) -> Scan
    requires probes_name { of_probes.name ≡ Q.name }
    requires probes_parts { of_probes.parts ≡ Q.parts }
    requires probes_count { 0 < of_probes.parts }
    requires steps_name { of_steps.name ≡ L.name }
    requires steps_parts { of_steps.parts ≡ L.parts }
    requires steps_count { 0 < of_steps.parts }
    requires apart { 1 ≤ step }
    requires few { count ≤ MOST_LOOKS }
    requires near { IsWithin (10 ^ 15) from }
    ensures { result ≡ scan_of zone.old from step count }
{
    let mut probes = Steps::<Q>::new(of_probes);
    let mut steps = Steps::<L>::new(of_steps);
    zone.scan(alloc, from, step, count, &mut probes, &mut steps)
}

/// What a lookup of an instant finds in a zone.
pub fn find_info(zone: &CompiledZone, t: i64) -> Found
    ensures { IsInfoFound (expansion_of zone.now) t result }
{
    match info_uncounted(zone, t) {
        Some(range) => Found::Info(range),
        None => Found::Range,
    }
}

/// The same, where the zone keeps windows on what was found before.
pub fn find_info_by_windows(alloc: Global, zone: &mut ZoneRef<'_>, t: i64) -> Found
    ensures { IsInfoFound (expansion_of zone.old) t result }
{
    match range_uncounted::<Brand, Brand>(alloc, zone, t, Blank::new(1), Blank::new(1)) {
        Some(range) => Found::Info(range),
        None => Found::Range,
    }
}

/// What a lookup of a local time finds in a zone.
pub fn find_local(zone: &CompiledZone, l: i64) -> Found
    ensures { IsLocalFound (expansion_of zone.now) l result }
{
    match local_info(zone, l) {
        Ok(info) => Found::Local(info),
        Err(_) => Found::Range,
    }
}

/// What is found in a zone of the instant of a local time. Without a choice it may be undecided.
pub fn find_sys(zone: &CompiledZone, l: i64, choose: Option<Choose>) -> Found
    ensures { IsSysFound (expansion_of zone.now) l choose result }
{
    match to_sys(zone, l, choose) {
        Ok(t) => Found::Sys(t),
        Err(ToSysError::Undecided(info)) => Found::Undecided(info),
        Err(ToSysError::OutOfRange) => Found::Range,
    }
}

/// What a scan finds in a zone: it looks at as many instants as it counts, from the first on, a step apart.
pub fn find_scan(alloc: Global, zone: &mut ZoneRef<'_>, from: i64, step: u32, count: u32) -> Found
    requires apart { 1 ≤ step }
    requires few { count ≤ MOST_LOOKS }
    requires near { IsWithin (10 ^ 15) from }
    ensures { result ≡ Found.Scan (scan_of zone.old from step count) }
{
    let of_probes = Blank::new(1);
    let of_steps = Blank::new(1);
    Found::Scan(scan_uncounted::<Brand, Brand>(alloc, zone, from, step, count, of_probes, of_steps))
}

/// The count of the other clock, where there is one.
fn found_count(count: Result<i64, OutOfRange>) -> Found
    ensures count { IfOk count (λ y. result ≡ Found.Clock y) }
    ensures range { IsErr count → result ≡ Found.Range }
{
    match count {
        Ok(count) => Found::Clock(count),
        Err(_) => Found::Range,
    }
}

/// What there is to know of a UTC count, where it is in range.
fn found_leap(info: Result<LeapInfo, OutOfRange>) -> Found
    ensures info { IfOk info (λ known. result ≡ Found.Leap known) }
    ensures range { IsErr info → result ≡ Found.Range }
{
    match info {
        Ok(info) => Found::Leap(info),
        Err(_) => Found::Range,
    }
}

/// What a conversion finds over a leap table: the count of the other clock, or what there is to know of a UTC count.
pub fn find_count(leaps: &Leaps, conversion: Conversion, x: i64) -> Found
    ensures { IsCountFound conversion leaps.now x result }
{
    match conversion {
        Conversion::SysToUtc => found_count(utc_of_sys(leaps, x)),
        Conversion::UtcToSys => found_count(sys_of_utc(leaps, x)),
        Conversion::UtcInfo => found_leap(leap_info(leaps, x)),
        Conversion::UtcToTai => found_count(tai_of_utc(leaps, x)),
        Conversion::TaiToUtc => found_count(utc_of_tai(leaps, x)),
        Conversion::UtcToGps => found_count(gps_of_utc(leaps, x)),
        Conversion::GpsToUtc => found_count(utc_of_gps(leaps, x)),
    }
}

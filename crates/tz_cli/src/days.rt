//! The lengths of a zone's days, which are counted from 1970-01-01.
ghost use Rattle.std.specs.Prelude.{◌≡◌, ◌++◌, pos, ◌+ℤ◌, IsNone, IfSome, IfErr, OnOk};
ghost use Rattle.tz_expand.specs.Zone.{expansion_of};
ghost use Rattle.tz_moves.specs.Day.{IsDay, day_seconds};
ghost use Rattle.tz_cli.specs.Line.{day_line};
ghost use Rattle.tz_cli.specs.Days.{AreDays, AreDaysOf, DaysAnswers};
ghost use Rattle.tz_cli.specs.Refusal.{Gives, RefusesRange};
ghost use Rattle.tz_cli.specs.ZoneAnswer.{GivesOfZone};

use crate::line::put_day;
use crate::named_zone::named_zone;
use crate::refusal::Refusal;
use std::alloc::Global;
use tz_expand::CompiledZone;
use tz_moves::day_seconds;
use tz_types::Source;

/// The day so many days later, or none where it has no number and so is out of range.
fn day_later(first: i64, later: u32) -> Option<i64>
    ensures some { IfSome result (λ day. day ≡ (first +ℤ pos later)) }
    ensures none { IsNone result → ¬ (IsDay (first +ℤ pos later)) }
{
    first.checked_add(i64::from(later))
}

/// Puts the line of the day so many days later, where it is in range.
fn put_later(out: &mut Vec<u8>, zone: &CompiledZone, first: i64, later: u32) -> Result<(), Refusal>
    ensures put { OnOk result (out.new.items ≡ out.old.items ++ day_line (first +ℤ pos later) (day_seconds (first +ℤ pos later) (expansion_of zone.now))) }
    ensures inside { OnOk result (IsDay (first +ℤ pos later)) }
    ensures refused { IfErr result (λ refusal. RefusesRange (¬ (IsDay (first +ℤ pos later))) refusal) }
{
    let Some(day) = day_later(first, later) else {
        return Err(Refusal::Range);
    };
    let Ok(seconds) = day_seconds(zone, day) else {
        return Err(Refusal::Range);
    };
    match put_day(out, day, seconds) {
        Ok(()) => Ok(()),
        Err(_) => Err(Refusal::Memory),
    }
}

/// The lines of so many days from the first on, up to the first that is out of range.
fn days_in(alloc: Global, zone: &CompiledZone, first: i64, count: u32) -> Result<Vec<u8>, Refusal>
    ensures { GivesOfZone (AreDays first count) (AreDaysOf first count zone.now) result }
{
    let mut text = Vec::new(alloc);
    for later in 0..count {
        match put_later(&mut text, zone, first, later) {
            Ok(()) => {}
            Err(refusal) => return Err(refusal),
        }
    }
    Ok(text)
}

/// What `days` prints: a line for each of so many days from the first on, with the seconds that it has in the zone
/// named.
pub fn days(
    alloc: Global,
    source: &Source,
    name: &[u8],
    first: i64,
    count: u32,
) -> Result<Vec<u8>, Refusal>
    ensures { Gives (DaysAnswers source.now name.now first count) result }
{
    match named_zone(alloc, source, name) {
        Ok(zone) => days_in(alloc, &zone, first, count),
        Err(refusal) => Err(refusal),
    }
}

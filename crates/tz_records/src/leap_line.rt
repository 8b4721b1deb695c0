//! One line of a leap text, after zic(8), "Leap lines": `Leap YEAR MONTH DAY 23:59:60 + S`, `Leap YEAR MONTH DAY 23:59:59 - S`
//! or `Expires YEAR MONTH DAY HH:MM:SS`. Dates and moments are in seconds from 1970-01-01 00:00:00.
ghost use Rattle.std.specs.Prelude.{◌≡◌, ℕ, ◌<◌, ◌≤◌, neg_ℤ, pos, List, Ok, Err, true, nat_lt, option_map, IfOk, IfErr};
ghost use Rattle.jiff_core.specs.Calendar.{IsBetween};
ghost use Rattle.tz_types.specs.declared.limit.TheConstants.{MOST_TEXT_LINES};
ghost use Rattle.tz_specs.specs.LeapLine.{day_causes, leap_day, entry_of, entry_causes, moment_of, expiry_causes, leap_record_of, leap_record_causes, leap_field_causes, leap_record_of_fields, leap_line_says, has_leap_count};
ghost use Rattle.tz_text.specs.Kept.{kept_of};
ghost use Rattle.tz_records.specs.Tells.{Tells, unless_late};
ghost use Rattle.tz_records.specs.LeapRecord.{kind_meant, record_meant, leap_fields_say, Means};

use crate::leap_record::{LeapKind, LeapRecord};
use crate::leap_values::{correction, is_leap_time, is_stationary, leap_day};
use crate::opening::cut_fields;
use crate::values::{month, rule_year};
use tz_text::{Fields, Joined, second_of_day};
use tz_types::{Cause, LeapEntry, MOST_LEAPS, MOST_TEXT_LINES, On, day_of};

/// The day of a record, from 1970-01-01, or the least cause of the fields that say it.
#[tactic(auto, unfolding(tz_specs::specs::LeapLine::leap_day, tz_types::specs::Calendar::day_number))]
fn day(fields: &Fields<'_>) -> Result<i64, Cause>
    requires { 4 ≤ fields.now.count }
    ensures told { Tells (λ day. day) (day_causes fields.now.first) (leap_day fields.now.first) result }
    ensures bound { IfOk result (IsBetween (neg_ℤ (pos 4_371_228)) (pos 2_932_567)) }
{
    let Some(year) = rule_year(fields.get(1)) else {
        return Err(Cause::Year);
    };
    let Some(month) = month(fields.get(2)) else {
        return Err(Cause::Month);
    };
    let Some(day) = leap_day(year, month, fields.get(3)) else {
        return Err(Cause::Day);
    };
    Ok(day_of(year, month, On::Day(day)))
}

/// The leap second of a record of seven fields, before which `earlier` stand, or the least cause of its values.
fn entry(fields: &Fields<'_>, earlier: usize) -> Result<LeapEntry, Cause>
    requires { fields.now.count ≡ 7 }
    ensures { Tells (λ entry. entry) (entry_causes earlier fields.now.first) (entry_of fields.now.first) result }
{
    let day = match day(fields) {
        Ok(day) => day,
        Err(cause) => return Err(cause),
    };
    let correction = correction(fields.get(5));
    if !is_leap_time(correction, fields.get(4)) {
        return Err(Cause::Time);
    }
    let Some(added) = correction else {
        return Err(Cause::Corr);
    };
    if !is_stationary(fields.get(6)) {
        return Err(Cause::Rolling);
    }
    if earlier >= MOST_LEAPS {
        return Err(Cause::Limit);
    }
    Ok(LeapEntry {
        date: 86_400 * (day + 1),
        added,
    })
}

/// The moment of a record of five fields, or the least cause of its values.
fn moment(fields: &Fields<'_>) -> Result<i64, Cause>
    requires { fields.now.count ≡ 5 }
    ensures { Tells (λ moment. moment) (expiry_causes fields.now.first) (moment_of fields.now.first) result }
{
    let day = match day(fields) {
        Ok(day) => day,
        Err(cause) => return Err(cause),
    };
    let Some(second) = second_of_day(fields.get(4)) else {
        return Err(Cause::Time);
    };
    Ok(86_400 * day + second as i64)
}

/// The record of a kind, or the least cause of its values.
fn record_of_kind(kind: LeapKind, fields: &Fields<'_>, earlier: usize) -> Result<LeapRecord, Cause>
    requires { has_leap_count (kind_meant kind) fields.now.count ≡ true }
    ensures { Tells record_meant (leap_record_causes earlier (kind_meant kind) fields.now.first) (leap_record_of (kind_meant kind) fields.now.first) result }
{
    match kind {
        LeapKind::Second => match entry(fields, earlier) {
            Ok(entry) => Ok(LeapRecord::Second(entry)),
            Err(cause) => Err(cause),
        },
        LeapKind::Expiry => match moment(fields) {
            Ok(moment) => Ok(LeapRecord::Expiry(moment)),
            Err(cause) => Err(cause),
        },
    }
}

/// What the fields of a line say that isn't blank, or their least cause.
#[tactic(auto, using(crate::proofs::LeapLines::no_kind, crate::proofs::LeapLines::other_count, crate::proofs::LeapLines::counted_fields))]
fn record(fields: &Fields<'_>, earlier: usize) -> Result<LeapRecord, Cause>
    requires { 0 < fields.now.count }
    ensures { (all : List (List ℕ)) → kept_of all ≡ fields.now → Tells record_meant (leap_field_causes earlier all) (leap_record_of_fields all) result }
{
    let Some(kind) = LeapKind::named(fields.get(0)) else {
        return Err(Cause::Keyword);
    };
    if !kind.has_count(fields.count()) {
        return Err(Cause::FieldCount);
    }
    record_of_kind(kind, fields, earlier)
}

/// What is said by a line that isn't one too many.
fn unless_late(told: Option<LeapRecord>, number: u32) -> Result<Option<LeapRecord>, Cause>
    ensures { result ≡ unless_late (nat_lt MOST_TEXT_LINES number) told }
{
    if number > MOST_TEXT_LINES {
        return Err(Cause::Limit);
    }
    Ok(told)
}

/// What the fields of a line say: a record, nothing where there are none, or their least cause.
fn said(fields: &Fields<'_>, number: u32, earlier: usize) -> Result<Option<LeapRecord>, Cause>
    ensures { (all : List (List ℕ)) → kept_of all ≡ fields.now → Means result (leap_fields_say number earlier all) }
{
    if fields.count() == 0 {
        return unless_late(None, number);
    }
    match record(fields, earlier) {
        Ok(told) => unless_late(Some(told), number),
        Err(cause) => Err(cause),
    }
}

/// What a line of a leap text says: a record, nothing where it is blank, or its least cause. `number` is the line's, from 1,
/// and `earlier` says how many leap seconds stand before it.
pub fn read_leap_line(
    line: &[u8],
    joined: &mut Joined,
    number: u32,
    earlier: usize,
) -> Result<Option<LeapRecord>, Cause>
    ensures ok { IfOk result (λ said. leap_line_says number earlier line.now ≡ Ok (option_map record_meant said)) }
    ensures err { IfErr result (λ cause. leap_line_says number earlier line.now ≡ Err cause) }
{
    match cut_fields(line, joined, true) {
        Ok(fields) => said(&fields, number, earlier),
        Err(cause) => Err(cause),
    }
}

//! Lines of zones: `STDOFF RULES FORMAT [YEAR [MONTH [DAY [TIME]]]]`, where other fields may stand before them.
ghost use Rattle.std.specs.Prelude.{◌≡◌, ◌||◌, IsTrue, ◌+◌, ◌≤◌, ◌<◌, ◌^◌, drop, length, option_map};
ghost use Rattle.tz_types.specs.Amount.{IsShift};
ghost use Rattle.tz_types.specs.Format.{is_format};
ghost use Rattle.tz_text.specs.declared.kept.TheConstants.{MOST_KEPT};
ghost use Rattle.tz_specs.specs.Value.{field_at, field_or};
ghost use Rattle.tz_specs.specs.Written.{written_until};
ghost use Rattle.tz_specs.specs.Record.{written_end, until_of, line_of, line_causes};
ghost use Rattle.tz_records.specs.Entry.{written_entry_rules, written_entry_line};
ghost use Rattle.tz_records.specs.FixedSave.{is_entry_save};
ghost use Rattle.tz_records.specs.FormatField.{format_told, is_visible_format};
ghost use Rattle.tz_records.specs.RulesField.{is_long_named};
ghost use Rattle.tz_records.specs.LineFields.{end_causes, until_causes, line_with};
ghost use Rattle.tz_records.specs.Tells.{Tells};

use crate::entry::{EntryLine, EntryRules};
use crate::format_field::{FormatField, format_field};
use crate::rules_field::{RulesField, rules_field};
use crate::values::{month, rule_year, standard_offset, time, until_day};
use tz_text::Fields;
use tz_types::{Cause, LONGEST_FORMAT, Moment, Until};

/// The field at a place behind the first, or what stands for it where it is missing.
#[tactic(auto, using(crate::proofs::ZoneLines::later_field))]
fn field_or<'a>(fields: &Fields<'a>, first: usize, place: usize, missing: &'static [u8]) -> &'a [u8]
    requires few { fields.now.count ≤ MOST_KEPT }
    requires whole { length fields.now.first ≡ fields.now.count }
    requires within { first + place < 2 ^ 32 }
    ensures { result.now ≡ field_or missing.now place (drop first fields.now.first) }
{
    if first + place < fields.count() {
        fields.get(first + place)
    } else {
        missing
    }
}

/// The same where a field that is missing has no bytes.
fn field_at<'a>(fields: &Fields<'a>, first: usize, place: usize) -> &'a [u8]
    requires few { fields.now.count ≤ MOST_KEPT }
    requires whole { length fields.now.first ≡ fields.now.count }
    requires within { first + place < 2 ^ 32 }
    ensures { result.now ≡ field_at place (drop first fields.now.first) }
{
    field_or(fields, first, place, &[])
}

/// The UNTIL of a line that has one, or the least cause of its fields.
#[tactic(auto, unfolding(crate::specs::LineFields::end_causes, tz_specs::specs::Record::written_end))]
fn written_end(fields: &Fields<'_>, first: usize) -> Result<Until, Cause>
    requires few { fields.now.count ≤ MOST_KEPT }
    requires whole { length fields.now.first ≡ fields.now.count }
    requires within { first ≤ 2 }
    ensures { Tells written_until (end_causes (drop first fields.now.first)) (written_end (drop first fields.now.first)) result }
{
    let Some(year) = rule_year(field_at(fields, first, 3)) else {
        return Err(Cause::Year);
    };
    let name = field_or(fields, first, 4, b"January");
    let Some(month) = month(name) else {
        return Err(Cause::Month);
    };
    let day = field_or(fields, first, 5, b"1");
    let Some(on) = until_day(year, month, day) else {
        return Err(Cause::Day);
    };
    let clock = field_or(fields, first, 6, b"0");
    let Some((at, kind)) = time(clock) else {
        return Err(Cause::Time);
    };
    let moment = Moment {
        month,
        on,
        at,
        kind,
    };
    Ok(Until { year, moment })
}

/// The UNTIL of a line, none where it has none, or the least cause of its fields.
#[tactic(auto, using(crate::proofs::ZoneLines::without_until, crate::proofs::ZoneLines::until_refused, crate::proofs::ZoneLines::until_told))]
fn until(fields: &Fields<'_>, first: usize) -> Result<Option<Until>, Cause>
    requires few { fields.now.count ≤ MOST_KEPT }
    requires whole { length fields.now.first ≡ fields.now.count }
    requires within { first ≤ 2 }
    ensures { Tells (option_map written_until) (until_causes (drop first fields.now.first)) (until_of (drop first fields.now.first)) result }
{
    if fields.count() < first + 4 {
        return Ok(None);
    }
    match written_end(fields, first) {
        Ok(until) => Ok(Some(until)),
        Err(cause) => Err(cause),
    }
}

/// A line of a zone that keeps this up to the UNTIL.
fn entry_line<'a>(
    stdoff: i64,
    rules: EntryRules<'a>,
    format: FormatField<'a>,
    until: Option<Until>,
    line: u32,
) -> EntryLine<'a>
    requires stdoff_in { IsShift stdoff }
    requires save_in { IsTrue (is_entry_save rules) }
    requires visible { IsTrue (is_visible_format (format_told format)) }
    requires format_in { IsTrue (is_format (format_told format)) }
    ensures { written_entry_line result ≡ line_with stdoff (written_entry_rules rules.entry) (format_told format.entry) (option_map written_until until) line }
{
    EntryLine {
        stdoff,
        rules,
        format,
        until,
        line,
    }
}

/// Whether the name of the zone or that of a rule set is too long.
fn has_long_name(rules: &RulesField<'_>, long_named: bool) -> bool
    ensures { result ≡ (long_named || is_long_named rules.now) }
{
    long_named || rules.is_long_named()
}

/// A line of a zone, whose name may be bad or too long, or the least cause of its fields.
#[tactic(auto, using(crate::proofs::ZoneLines::end_refused, crate::proofs::ZoneLines::end_told), unfolding(crate::specs::LineFields::keeping_causes))]
pub fn zone_line<'a>(
    fields: &Fields<'a>,
    first: usize,
    number: u32,
    badly_named: bool,
    long_named: bool,
) -> Result<EntryLine<'a>, Cause>
    requires few { fields.now.count ≤ MOST_KEPT }
    requires whole { length fields.now.first ≡ fields.now.count }
    requires within { first ≤ 2 }
    ensures { Tells written_entry_line (line_causes badly_named long_named (drop first fields.now.first)) (line_of number (drop first fields.now.first)) result }
{
    let until = match until(fields, first) {
        Ok(until) => until,
        Err(cause) => return Err(cause),
    };
    let Some(stdoff) = standard_offset(field_at(fields, first, 0)) else {
        return Err(Cause::Time);
    };
    let Some(rules) = rules_field(field_at(fields, first, 1)) else {
        return Err(Cause::Save);
    };
    if badly_named || rules.is_badly_named() {
        return Err(Cause::BadName);
    }
    let field = field_at(fields, first, 2);
    let Some(format) = format_field(field) else {
        return Err(Cause::Format);
    };
    if field.len() > LONGEST_FORMAT {
        return Err(Cause::LongAbbrev);
    }
    if has_long_name(&rules, long_named) {
        return Err(Cause::Limit);
    }
    Ok(entry_line(stdoff, rules.rules(), format, until, number))
}

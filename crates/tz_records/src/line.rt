//! One line of a zone text.
ghost use Rattle.std.specs.Prelude.{◌≡◌, ℕ, ◌==◌, ◌≤◌, true, false, List, Some, option_map, IfOk, IfErr, length};
ghost use Rattle.std.specs.List.{list_any};
ghost use Rattle.tz_text.specs.declared.kept.TheConstants.{MOST_KEPT};
ghost use Rattle.tz_text.specs.Kept.{kept_of};
ghost use Rattle.tz_specs.specs.Record.{has_count, record_of};
ghost use Rattle.tz_specs.specs.Contents.{Contents, waits, record_causes, field_causes, record_of_fields};
ghost use Rattle.tz_records.specs.Entry.{written_entry};
ghost use Rattle.tz_records.specs.Kind.{kind_told};
ghost use Rattle.tz_records.specs.Counts.{exceeds, exceeds_said};
ghost use Rattle.tz_records.specs.Tells.{TellsUncounted};
ghost use Rattle.tz_records.specs.LineAlone.{SaysAlone, RefusesAlone};

use crate::entry::Entry;
use crate::kind::Kind;
use crate::link_line::link_entry;
use crate::opening::cut_fields;
use crate::rule_line::rule_entry;
use crate::zone_record::{continuation_entry, zone_entry};
use tz_text::{Fields, Joined};
use tz_types::Cause;

/// The record of a kind that has so many fields, or the least cause of its fields.
fn record_entry<'a>(kind: Kind, fields: &Fields<'a>, number: u32) -> Result<Entry<'a>, Cause>
    requires count { has_count (kind_told kind) fields.now.count ≡ true }
    requires whole { length fields.now.first ≡ fields.now.count }
    ensures { (before : Contents) → TellsUncounted written_entry (exceeds before) (record_causes before (kind_told kind) fields.now.first) (record_of (kind_told kind) number fields.now.first) result }
{
    match kind {
        Kind::Rule => rule_entry(fields, number),
        Kind::Zone => zone_entry(fields, number),
        Kind::Link => link_entry(fields, number),
        Kind::Continuation => continuation_entry(fields, number),
    }
}

/// What the fields of a line say: an entry, nothing where there are none, or their least cause.
fn said<'a>(fields: &Fields<'a>, number: u32, waiting: bool) -> Result<Option<Entry<'a>>, Cause>
    requires { fields.now.count ≤ MOST_KEPT → length fields.now.first ≡ fields.now.count }
    ensures { (before : Contents) (all : List (List ℕ)) → waits before ≡ waiting → kept_of all ≡ fields.now →
        TellsUncounted (option_map written_entry) (exceeds_said before) (field_causes before all) (Some (record_of_fields before number all)) result }
{
    if fields.count() == 0 {
        return Ok(None);
    }
    let Some(kind) = Kind::of_fields(fields, waiting) else {
        return Err(Cause::Keyword);
    };
    if !kind.has_count(fields.count()) {
        return Err(Cause::FieldCount);
    }
    match record_entry(kind, fields, number) {
        Ok(entry) => Ok(Some(entry)),
        Err(cause) => Err(cause),
    }
}

/// What a line of a zone text says by itself: an entry, nothing where it is blank, or its least cause. Nothing is counted here:
/// `Cause::Limit` comes only for a name that is too long, and an entry may be one too many.
///
/// `number` is the line's, from 1, and `waiting` says whether the zone before it waits for a line. `nuls` says whether the text
/// may have a NUL byte. `joined` keeps the bytes of fields that join pieces; what it had is gone.
pub fn read_line<'a>(
    line: &'a [u8],
    joined: &'a mut Joined,
    nuls: bool,
    number: u32,
    waiting: bool,
) -> Result<Option<Entry<'a>>, Cause>
    requires { nuls ≡ false → list_any (λ byte. byte == 0) line.now ≡ false }
    ensures ok { IfOk result (λ said. SaysAlone waiting number line.now (option_map written_entry said)) }
    ensures err { IfErr result (RefusesAlone waiting line.now) }
{
    match cut_fields(line, joined, nuls) {
        Ok(fields) => said(&fields, number, waiting),
        Err(cause) => Err(cause),
    }
}

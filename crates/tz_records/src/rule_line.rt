//! Rule lines: `Rule NAME FROM TO - IN ON AT SAVE LETTER/S`.
ghost use Rattle.std.specs.Prelude.{◌≡◌, false};
ghost use Rattle.tz_types.specs.Amount.{IsShift};
ghost use Rattle.tz_specs.specs.Written.{written_rule};
ghost use Rattle.tz_specs.specs.Record.{RuleLine, rule_causes, record_of};
ghost use Rattle.tz_records.specs.Entry.{written_entry};
ghost use Rattle.tz_records.specs.RuleFields.{rule_with, written_recurrence};
ghost use Rattle.tz_records.specs.Tells.{Tells};

use crate::entry::Entry;
use crate::given_name::GivenName;
use crate::recurrence::Recurrence;
use crate::values::{
    are_visible, is_bad_name, is_long_name, letter_bytes, letters, save, starts_amount,
};
use tz_text::Fields;
use tz_types::{Cause, LONGEST_LETTERS, Letters, Rule};

/// The rule that occurs so, and sets the save and the letters.
fn rule(recurrence: Recurrence, save: i64, daylight: bool, letters: Letters, line: u32) -> Rule
    requires { IsShift save }
    ensures { written_rule result ≡ rule_with line letters (written_recurrence recurrence) (save, daylight) }
{
    Rule {
        from: recurrence.from,
        to: recurrence.to,
        moment: recurrence.moment,
        save,
        daylight,
        letters,
        line,
    }
}

/// The rule of ten fields, or their least cause.
#[tactic(auto, using(crate::proofs::RuleLines::recurrence_refused, crate::proofs::RuleLines::recurrence_told), unfolding(crate::specs::RuleFields::setting_causes))]
pub fn rule_entry<'a>(fields: &Fields<'a>, number: u32) -> Result<Entry<'a>, Cause>
    requires { fields.now.count ≡ 10 }
    ensures { Tells written_entry (rule_causes false fields.now.first) (record_of RuleLine number fields.now.first) result }
{
    let recurrence = match Recurrence::of_fields(fields) {
        Ok(recurrence) => recurrence,
        Err(cause) => return Err(cause),
    };
    let Some((save, daylight)) = save(fields.get(8)) else {
        return Err(Cause::Save);
    };
    let name = fields.get(1);
    if is_bad_name(name) || starts_amount(name) {
        return Err(Cause::BadName);
    }
    let bytes = letter_bytes(fields.get(9));
    if !are_visible(bytes) {
        return Err(Cause::Format);
    }
    if bytes.len() > LONGEST_LETTERS {
        return Err(Cause::LongAbbrev);
    }
    if is_long_name(name) {
        return Err(Cause::Limit);
    }
    Ok(Entry::Rule {
        name: GivenName::of_field(name),
        rule: rule(recurrence, save, daylight, letters(bytes), number),
    })
}

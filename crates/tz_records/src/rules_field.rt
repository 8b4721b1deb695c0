//! The rules that a line of a zone follows.
ghost use Rattle.std.specs.Prelude.{◌≡◌, ◌&&◌, false, IsTrue, IfSome, option_map};
ghost use Rattle.tz_specs.specs.Value.{names_set, is_bad_name, is_long_name, rules_of};
ghost use Rattle.tz_records.specs.Entry.{written_entry_rules};
ghost use Rattle.tz_records.specs.FixedSave.{is_entry_save};
ghost use Rattle.tz_records.specs.RulesField.{rules_told, has_shift, is_badly_named, is_long_named};

use crate::entry::EntryRules;
use crate::given_name::GivenName;
use crate::values::{is_bad_name, is_dash, is_long_name, save, starts_amount};

/// What the save of a line follows, where a name may be bad or too long.
#[derive(Clone, Copy)]
pub enum RulesField<'a> {
    Plain,
    Fixed { save: i64, daylight: bool },
    Named(&'a [u8]),
}

/// What the field says: `-` for no rules, an amount, or the name of a rule set.
pub fn rules_field(field: &[u8]) -> Option<RulesField<'_>>
    ensures value { option_map rules_told result ≡ rules_of field.now }
    ensures shift { IfSome result (λ rules. IsTrue (has_shift rules)) }
    ensures bad { IfSome result (λ rules. is_badly_named rules ≡ (names_set field.now && is_bad_name field.now)) }
    ensures long { IfSome result (λ rules. is_long_named rules ≡ (names_set field.now && is_long_name field.now)) }
{
    if is_dash(field) {
        return Some(RulesField::Plain);
    }
    if !starts_amount(field) {
        return Some(RulesField::Named(field));
    }
    let (save, daylight) = save(field)?;
    Some(RulesField::Fixed { save, daylight })
}

impl<'a> RulesField<'a> {
    /// Whether the name of a rule set has no bytes, or one that isn't visible.
    pub fn is_badly_named(&self) -> bool
        ensures { result ≡ is_badly_named self.now }
    {
        match self {
            RulesField::Plain | RulesField::Fixed { .. } => false,
            RulesField::Named(name) => is_bad_name(name),
        }
    }

    /// Whether the name of a rule set has more than `LONGEST_NAME` bytes.
    pub fn is_long_named(&self) -> bool
        ensures { result ≡ is_long_named self.now }
    {
        match self {
            RulesField::Plain | RulesField::Fixed { .. } => false,
            RulesField::Named(name) => is_long_name(name),
        }
    }

    /// What the save of a line follows.
    pub fn rules(self) -> EntryRules<'a>
        requires shift { IsTrue (has_shift self) }
        requires good { is_badly_named self ≡ false }
        requires short { is_long_named self ≡ false }
        ensures value { written_entry_rules result ≡ rules_told self.entry }
        ensures save { IsTrue (is_entry_save result) }
    {
        match self {
            RulesField::Plain => EntryRules::Plain,
            RulesField::Fixed { save, daylight } => EntryRules::Fixed { save, daylight },
            RulesField::Named(name) => EntryRules::Named(GivenName::of_field(name)),
        }
    }
}

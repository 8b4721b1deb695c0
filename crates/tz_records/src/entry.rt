//! What one line says, before its names are looked up (zic(8), "Rule lines", "Zone lines", "Link lines").
ghost use Rattle.std.specs.Prelude.{IsTrue};
ghost use Rattle.tz_types.specs.Amount.{IsShift};
ghost use Rattle.tz_types.specs.Format.{is_format};
ghost use Rattle.tz_records.specs.FixedSave.{is_entry_save};
ghost use Rattle.tz_records.specs.FormatField.{format_told, is_visible_format};

use crate::format_field::FormatField;
use crate::given_name::GivenName;
use tz_types::{Rule, Until};

/// What the save of a line follows: nothing, a fixed amount of seconds, or the rules of a name.
#[derive(Clone, Copy, Debug)]
pub enum EntryRules<'a> {
    Plain,
    Fixed { save: i64, daylight: bool },
    Named(GivenName<'a>),
}

/// A line of a zone, whose rule set isn't looked up yet. Its texts lie where their line has them.
#[derive(Clone, Copy, Debug)]
pub struct EntryLine<'a> {
    pub stdoff: i64,
    pub rules: EntryRules<'a>,
    pub format: FormatField<'a>,
    pub until: Option<Until>,
    /// Where the line stands in its text, counted from 1.
    pub line: u32,
    pub ghost stdoff_in: { IsShift stdoff },
    pub ghost save_in: { IsTrue (is_entry_save rules) },
    pub ghost visible: { IsTrue (is_visible_format (format_told format)) },
    pub ghost format_in: { IsTrue (is_format (format_told format)) },
}

/// What a line that isn't blank says. Names and formats lie where the line has them, so that an entry is small: they are copied
/// once, to where they stay.
#[derive(Debug, Drop)]
pub enum Entry<'a> {
    Rule {
        name: GivenName<'a>,
        rule: Rule,
    },
    Zone {
        name: GivenName<'a>,
        line: EntryLine<'a>,
    },
    Continuation(EntryLine<'a>),
    Link {
        target: GivenName<'a>,
        name: GivenName<'a>,
        line: u32,
    },
}

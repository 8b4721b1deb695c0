//! Lines of zones, with amounts in seconds (zic(8), "Zone lines").
ghost use Rattle.std.specs.Prelude.{IsTrue};
ghost use Rattle.tz_types.specs.Amount.{IsShift};
ghost use Rattle.tz_types.specs.Format.{is_format};
ghost use Rattle.tz_types.specs.Saves.{is_fixed_save};

use crate::{Format, Until};

/// What a line's save follows: nothing, a fixed amount of seconds, or the rule set at a place in the list of sets.
#[derive(Clone, Copy, Debug, PartialEq, Eq, Hash)]
pub enum LineRules {
    Plain,
    Fixed { save: i64, daylight: bool },
    Set(u32),
}

/// One line of a zone: from the end of the line before it to its own end, the standard offset in seconds,
/// the rules and the format that hold.
#[derive(Debug, PartialEq, Drop)]
pub struct ZoneLine {
    pub stdoff: i64,
    pub rules: LineRules,
    pub format: Format,
    /// The last line of a zone has none.
    pub until: Option<Until>,
    /// Where the line stands in its text, counted from 1.
    pub line: u32,
    pub ghost stdoff_in: { IsShift stdoff },
    pub ghost save_in: { IsTrue (is_fixed_save rules) },
    pub ghost format_in: { IsTrue (is_format format) },
}

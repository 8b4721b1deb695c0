//! One line of a zone with its place in time, in seconds from 1970-01-01 00:00:00.
ghost use Rattle.std.specs.Prelude.{◌≡◌, IsTrue};
ghost use Rattle.tz_types.specs.Amount.{IsShift};
ghost use Rattle.tz_types.specs.Format.{is_format};
ghost use Rattle.tz_specs.specs.Before.{letters_before};
ghost use Rattle.tz_expand.specs.Followed.{is_compiled_save, followed_by};

use tz_types::{Format, Letters, RuleSet, Shared};

/// What a line's save follows: nothing, a fixed amount of seconds, or a rule set.
#[derive(Debug, PartialEq, Drop)]
pub enum CompiledRules {
    Plain,
    Fixed { save: i64, daylight: bool },
    Set(Shared<RuleSet>),
}

/// One line of a zone with its place in time, from `start` up to but excluding `end`.
#[derive(Debug, PartialEq, Drop)]
pub struct CompiledLine {
    pub start: i64,
    pub end: i64,
    pub stdoff: i64,
    pub format: Format,
    pub rules: CompiledRules,
    /// The letters that hold before any rule is in effect.
    pub letters: Letters,
    pub ghost stdoff_in: { IsShift stdoff },
    pub ghost format_in: { IsTrue (is_format format) },
    pub ghost save_in: { IsTrue (is_compiled_save rules) },
    pub ghost letters_are: { letters ≡ letters_before (followed_by rules) },
}

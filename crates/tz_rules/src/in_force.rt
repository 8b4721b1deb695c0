//! What is in force at an instant, after zic(8), "Rule lines", SAVE and LETTER/S: a save in seconds, whether the time is
//! daylight time, and the letters that stand for `%s`.
ghost use Rattle.std.specs.Prelude.{◌≡◌, ℤ, [], pos, ◌+ℤ◌, false};
ghost use Rattle.jiff_core.specs.Calendar.{IsWithin};
ghost use Rattle.tz_types.specs.declared.limit.TheConstants.{LONGEST_LETTERS, LONGEST_OFFSET};
ghost use Rattle.tz_types.specs.Amount.{IsShift};
ghost use Rattle.tz_types.specs.Text.{IsText};
ghost use Rattle.tz_specs.specs.State.{put_in_force};

use std::marker::Model;
use tz_types::{Letters, Rule};

/// The save in seconds, whether the time is daylight time, and the letters, which stay where they are.
#[derive(Debug, Drop)]
pub struct InForce<'a> {
    save: i64,
    daylight: bool,
    letters: &'a [u8],
}

impl<'a> Model for InForce<'a> {
    ghost use Rattle.tz_types.specs.declared.limit.TheConstants.{LONGEST_LETTERS};
    ghost use Rattle.tz_types.specs.Amount.{IsShift};
    ghost use Rattle.tz_types.specs.Text.{IsText};
    ghost use Rattle.tz_specs.specs.State.{InForce as Kept};

    ghost Value = { Kept };

    ghost view = { λ s. record { save = s.save; daylight = s.daylight; letters = s.letters.now } };

    ghost invariant = { λ s. IsShift s.save × IsText 0 LONGEST_LETTERS s.letters.now };
}

impl<'a> InForce<'a> {
    /// In a line without a rule set: its fixed save, or 0, and no letters.
    pub fn fixed(save: i64, daylight: bool) -> Self
        requires { IsShift save }
        ensures { result ≡ record { save = save; daylight = daylight; letters = [] } }
    {
        InForce {
            save,
            daylight,
            letters: &[],
        }
    }

    /// Before any occurrence is in effect: standard time, with the letters that the line then has.
    pub fn standard(letters: &'a Letters) -> Self
        ensures { result ≡ record { save = pos 0; daylight = false; letters = letters.now } }
    {
        InForce {
            save: 0,
            daylight: false,
            letters: letters.as_bytes(),
        }
    }

    /// While an occurrence of the rule is in effect, of whichever year.
    pub fn put_by(rule: &'a Rule) -> Self
        ensures { (year : ℤ) → result ≡ put_in_force (record { rule = rule.now; year = year }) }
    {
        InForce {
            save: rule.save,
            daylight: rule.daylight,
            letters: rule.letters.as_bytes(),
        }
    }

    /// The save in seconds.
    pub fn save(&self) -> i64
        ensures value { result ≡ self.now.save }
        ensures bound { IsShift result }
    {
        self.save
    }

    /// Whether the time is daylight time.
    pub fn is_daylight(&self) -> bool
        ensures { result ≡ self.now.daylight }
    {
        self.daylight
    }

    /// The letters that stand for `%s`.
    pub fn letters(&self) -> &'a [u8]
        ensures letters { result.now ≡ self.now.letters }
        ensures text { IsText 0 LONGEST_LETTERS result.now }
    {
        self.letters
    }

    /// How many seconds local time is ahead of universal time where standard time is ahead by `stdoff`.
    pub fn offset(&self, stdoff: i64) -> i64
        requires { IsShift stdoff }
        ensures value { result ≡ (stdoff +ℤ self.now.save) }
        ensures bound { IsWithin LONGEST_OFFSET result }
    {
        stdoff + self.save
    }
}

//! Civil years near a stretch of time, and the years of a rule that are looked at for them.
ghost use Rattle.std.specs.Prelude.{◌≡◌, pos, neg_ℤ, ◌+ℤ◌, ◌-ℤ◌, ◌≤ℤ◌, ◌<ℤ◌};
ghost use Rattle.jiff_core.specs.Calendar.{IsBetween};
ghost use Rattle.tz_specs.specs.Expansion.{first_instant, end_of_time};
ghost use Rattle.tz_expand.specs.Looks.{first_look, last_look, years_through, IsSpan, AreYearsNear};

use tz_rules::{FIRST_YEAR, LAST_YEAR};
use tz_types::{Rule, civil_year};

/// So many years before a stretch begins, a rule that occurs each year has two occurrences that have come.
const YEARS_BEFORE: i32 = 3;

/// So many years after a stretch ends, a rule that occurs each year has an occurrence that hasn't come.
const YEARS_AFTER: i32 = 2;

/// Civil years, from the first through the last. There are none where the last is before the first.
#[derive(Clone, Copy, Debug)]
pub(crate) struct Years {
    pub first: i32,
    pub last: i32,
}

impl Years {
    /// The years in which rules are looked at for the stretch from an instant up to but excluding another.
    pub(crate) fn near(from: i64, to: i64) -> Self
        requires begins { first_instant ≤ℤ from }
        requires ordered { from <ℤ to }
        requires ends { to ≤ℤ end_of_time }
        ensures near { AreYearsNear from to result.first result.last }
        ensures span { IsSpan result.first result.last }
    {
        Years {
            first: civil_year(from) - YEARS_BEFORE,
            last: civil_year(to - 1) + YEARS_AFTER,
        }
    }

    /// The years of the rule among these, and beside them its last two before these or its first after them.
    pub(crate) fn of_rule(self, rule: &Rule) -> Self
        requires { IsSpan self.first self.last }
        ensures first { result.first ≡ first_look rule.now self.first }
        ensures last { result.last ≡ last_look rule.now self.last }
        ensures bound { IsBetween (neg_ℤ (pos 1_000_000_000)) (pos 1_000_000_000) result.first × IsBetween (neg_ℤ (pos 1_000_000_000)) (pos 1_000_000_000) result.last }
    {
        let since = rule.from.max(FIRST_YEAR);
        let through = rule.to.min(LAST_YEAR);
        Years {
            first: since.max(self.first.min(through - 1)),
            last: through.min(self.last.max(since)),
        }
    }

    /// How many there are.
    pub(crate) fn count(self) -> u32
        requires { IsBetween (neg_ℤ (pos 1_000_000_000)) (pos 1_000_000_000) self.first × IsBetween (neg_ℤ (pos 1_000_000_000)) (pos 1_000_000_000) self.last }
        ensures { result ≡ years_through self.first self.last }
    {
        if self.last < self.first {
            0
        } else {
            (self.last - self.first) as u32 + 1
        }
    }

    /// The year so many after the first.
    pub(crate) fn ahead(self, years: u32) -> i32
        requires low { neg_ℤ (pos 1_000_000_000) ≤ℤ self.first }
        requires high { (self.first +ℤ pos years) ≤ℤ self.last }
        requires bound { self.last ≤ℤ pos 1_000_000_000 }
        ensures { result ≡ self.first +ℤ pos years }
    {
        self.first + years as i32
    }
}

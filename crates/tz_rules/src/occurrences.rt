//! Occurrences: rules in their years, each at its nominal second.
ghost use Rattle.std.specs.Prelude.{◌≡◌, ◌+◌, ◌-ℤ◌, pos, neg_ℤ};
ghost use Rattle.jiff_core.specs.Calendar.{IsBetween};
ghost use Rattle.tz_types.specs.Amount.{IsShift};
ghost use Rattle.tz_specs.specs.Occurrence.{nominal_of, precedes};
ghost use Rattle.tz_specs.specs.State.{shift};
ghost use Rattle.tz_rules.specs.Occurs.{OccursIn};
ghost use Rattle.tz_rules.specs.Mark.{is_before, is_after, IsInReach};

use crate::mark::Mark;
use crate::shift::shift_of;
use std::marker::Model;
use std::sync::ledger::Ledger;
use tz_types::{Rule, Steps, nominal};

/// A rule in one of its years, with its nominal second. Contracts see it as the occurrence that it is.
#[derive(Debug, Drop)]
pub struct Occurrence<'a> {
    rule: &'a Rule,
    year: i32,
    nominal: i64,
}

impl<'a> Model for Occurrence<'a> {
    ghost use Rattle.std.specs.Prelude.{◌≡◌, pos, neg_ℤ};
    ghost use Rattle.jiff_core.specs.Calendar.{IsBetween};
    ghost use Rattle.tz_specs.specs.Occurrence.{Occurrence as Occurs, nominal_second};
    ghost use Rattle.tz_rules.specs.Occurs.{OccursIn};

    ghost Value = { Occurs };

    ghost view = { λ o. record { rule = o.rule.now; year = o.year } };

    ghost invariant = { λ o. (o.nominal ≡ nominal_second o.year o.rule.now.moment) × IsBetween (neg_ℤ (pos 377_677_699_201)) (pos 253_377_388_801) o.nominal × OccursIn o.rule.now o.year };
}

impl<'a> Occurrence<'a> {
    /// Looks at the rule in one of its years, which is a rule step.
    pub fn look<L: Ledger>(rule: &'a Rule, year: i32, steps: &mut Steps<L>) -> Self
        requires { OccursIn rule.now year }
        ensures value { result ≡ record { rule = rule.now; year = year } }
        ensures steps { steps.new ≡ steps.old + 1 }
    {
        steps.tick();
        Occurrence {
            rule,
            year,
            nominal: nominal(year, &rule.moment),
        }
    }

    /// The rule.
    pub fn rule(&self) -> &'a Rule
        ensures { result.now ≡ self.now.rule }
    {
        self.rule
    }

    /// The year.
    pub(crate) fn year(&self) -> i32
        ensures value { result ≡ self.now.year }
        ensures occurs { OccursIn self.now.rule result }
    {
        self.year
    }

    /// The save that it puts in force.
    pub fn save(&self) -> i64
        ensures value { result ≡ self.now.rule.save }
        ensures bound { IsShift result }
    {
        self.rule.save
    }

    /// The seconds from 1970-01-01 00:00:00 on the clock that the rule's time is read from.
    pub(crate) fn nominal(&self) -> i64
        ensures value { result ≡ nominal_of self.now }
        ensures bound { IsBetween (neg_ℤ (pos 377_677_699_201)) (pos 253_377_388_801) result }
    {
        self.nominal
    }

    /// Its place in the order of occurrences: its nominal second, and within that its line.
    pub fn key(&self) -> (i64, u32)
        ensures second { result.0 ≡ nominal_of self.now }
        ensures line { result.1 ≡ self.now.rule.line }
    {
        (self.nominal, self.rule.line)
    }

    /// The instant at which it comes where that save is in force right before it.
    pub fn instant_after(&self, stdoff: i64, save: i64) -> i64
        requires stdoff_in { IsShift stdoff }
        requires save_in { IsShift save }
        ensures value { result ≡ nominal_of self.now -ℤ shift self.now.rule.moment.kind stdoff save }
        ensures bound { IsBetween (neg_ℤ (pos 377_677_872_001)) (pos 253_377_561_601) result }
    {
        self.nominal - shift_of(self.rule.moment.kind, stdoff, save)
    }

    /// Its own mark: what precedes it lies before the mark, and what it precedes after the mark.
    pub(crate) fn mark(&self) -> Mark
        ensures value { result ≡ record { second = nominal_of self.now; line = self.now.rule.line } }
        ensures in_reach { IsInReach result.second }
    {
        Mark {
            second: self.nominal,
            line: self.rule.line,
        }
    }

    /// Whether it has the earlier nominal second, or in the same one the earlier line.
    pub(crate) fn precedes(&self, other: &Occurrence<'_>) -> bool
        ensures { result ≡ precedes self.now other.now }
    {
        self.nominal < other.nominal
            || self.nominal == other.nominal && self.rule.line < other.rule.line
    }

    /// Whether it comes earlier than the mark.
    pub(crate) fn is_before(&self, mark: Mark) -> bool
        ensures { result ≡ is_before mark self.now }
    {
        self.nominal < mark.second || self.nominal == mark.second && self.rule.line < mark.line
    }

    /// Whether it comes later than the mark.
    pub(crate) fn is_after(&self, mark: Mark) -> bool
        ensures { result ≡ is_after mark self.now }
    {
        mark.second < self.nominal || mark.second == self.nominal && mark.line < self.rule.line
    }
}

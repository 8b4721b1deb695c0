//! A rule in one of its years.
ghost use Rattle.std.specs.Prelude.{◌≡◌, ◌≤ℤ◌, pos, neg_ℤ};
ghost use Rattle.jiff_core.specs.Calendar.{IsBetween};
ghost use Rattle.tz_types.specs.Year.{IsRuleYear};
ghost use Rattle.tz_specs.specs.Occurrence.{nominal_of, precedes};

use std::marker::Model;
use tz_types::{Rule, nominal};

/// A rule in one of its years, with its nominal second. Contracts see it as an occurrence.
#[derive(Debug, Drop)]
pub struct RuleYear<'a> {
    rule: &'a Rule,
    year: i32,
    nominal: i64,
}

impl<'a> Model for RuleYear<'a> {
    ghost use Rattle.std.specs.Prelude.{◌≡◌, pos, neg_ℤ};
    ghost use Rattle.jiff_core.specs.Calendar.{IsBetween};
    ghost use Rattle.tz_specs.specs.Occurrence.{Occurrence, nominal_second};

    ghost Value = { Occurrence };

    ghost view = { λ o. record { rule = o.rule.now; year = o.year } };

    ghost invariant = { λ o. (o.nominal ≡ nominal_second o.year o.rule.now.moment) × IsBetween (neg_ℤ (pos 377_677_699_201)) (pos 253_377_388_801) o.nominal };
}

impl<'a> RuleYear<'a> {
    /// The rule in that year, which is one of its years.
    pub fn new(rule: &'a Rule, year: i32) -> Self
        requires year_in { IsRuleYear year }
        requires since { rule.now.from ≤ℤ year }
        requires through { year ≤ℤ rule.now.to }
        ensures { result ≡ record { rule = rule.now; year = year } }
    {
        RuleYear {
            rule,
            year,
            nominal: nominal(year, &rule.moment),
        }
    }

    /// The rule.
    pub fn rule(&self) -> &Rule
        ensures { result.now ≡ self.now.rule }
    {
        self.rule
    }

    /// The seconds from 1970-01-01 00:00:00 on the clock that the rule's time is read from.
    pub fn nominal(&self) -> i64
        ensures value { result ≡ nominal_of self.now }
        ensures bound { IsBetween (neg_ℤ (pos 377_677_699_201)) (pos 253_377_388_801) result }
    {
        self.nominal
    }

    /// Whether it has the earlier nominal second, or in the same one the earlier line.
    pub fn precedes(&self, other: &RuleYear<'_>) -> bool
        ensures { result ≡ precedes self.now other.now }
    {
        self.nominal < other.nominal
            || self.nominal == other.nominal && self.rule.line < other.rule.line
    }
}

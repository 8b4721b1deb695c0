//! The years of a rule in which it occurs, counted from the last or from the first, and its nominal second in one.
ghost use Rattle.std.specs.Prelude.{◌≡◌, ◌↔◌, ◌≤◌, ◌+ℤ◌, ◌-ℤ◌, ◌≤ℤ◌, ◌<ℤ◌, pos, neg_ℤ, IsSome, IfSome};
ghost use Rattle.jiff_core.specs.Calendar.{IsYear};
ghost use Rattle.tz_types.specs.Year.{IsWrittenYear};
ghost use Rattle.tz_specs.specs.Occurrence.{nominal_second};
ghost use Rattle.tz_rules.specs.Occurs.{OccursIn};
ghost use Rattle.tz_rules.specs.Search.{IsFirstYear, IsLastYear, IsYearCount};

use tz_types::{LAST_RULE_YEAR, Rule, nominal};

/// The first year in which rules occur.
pub const FIRST_YEAR: i32 = -(LAST_RULE_YEAR as i32);

/// The last year in which rules occur.
pub const LAST_YEAR: i32 = LAST_RULE_YEAR as i32;

/// The nominal second of a rule in a year: the seconds from 1970-01-01 00:00:00 on the clock that the rule's time is
/// read from. None comes exactly where the year isn't one of the rule's, or isn't from -9998 to 9998.
pub fn occurrence(rule: &Rule, year: i32) -> Option<i64>
    ensures second { IfSome result (λ second. second ≡ nominal_second year rule.now.moment) }
    ensures some { IsSome result ↔ OccursIn rule.now year }
{
    if year < rule.from.max(FIRST_YEAR) || year > rule.to.min(LAST_YEAR) {
        return None;
    }
    Some(nominal(year, &rule.moment))
}

/// The first year from `since` on in which the rule occurs, if it occurs in any later one.
pub(crate) fn first_year(rule: &Rule, since: i32) -> i32
    requires { IsYear since }
    ensures first { IsFirstYear rule.now since result }
    ensures bound { IsWrittenYear result }
{
    rule.from.max(since).max(FIRST_YEAR)
}

/// The last year up to `through` in which the rule occurs, if it occurs in any earlier one.
pub(crate) fn last_year(rule: &Rule, through: i32) -> i32
    requires { IsYear through }
    ensures last { IsLastYear rule.now through result }
    ensures bound { IsWrittenYear result }
{
    rule.to.min(through).min(LAST_YEAR)
}

/// How many years there are from the first through the last, and 0 where the last is earlier.
pub(crate) fn years_through(first: i32, last: i32) -> u32
    requires first_in { IsWrittenYear first }
    requires last_in { IsWrittenYear last }
    ensures count { IsYearCount first last result }
    ensures bound { result ≤ 2_000_000_000 }
{
    if last < first {
        return 0;
    }
    (last - first + 1) as u32
}

/// The year so many years earlier.
pub(crate) fn years_before(year: i32, back: u32) -> i32
    requires year_in { IsWrittenYear year }
    requires back_in { back ≤ 2 }
    ensures { result ≡ year -ℤ pos back }
{
    year - back as i32
}

/// The year so many years later.
pub(crate) fn years_after(year: i32, on: u32) -> i32
    requires year_in { IsWrittenYear year }
    requires on_in { on ≤ 2 }
    ensures { result ≡ year +ℤ pos on }
{
    year + on as i32
}

//! Marks in the order of occurrences, and the years in which occurrences near a mark lie.
ghost use Rattle.std.specs.Prelude.{◌≡◌, ◌+ℤ◌, pos};
ghost use Rattle.jiff_core.specs.Calendar.{IsYear};
ghost use Rattle.tz_rules.specs.Mark.{IsInReach, IsLatestYear, IsEarliestYear};

use tz_types::civil_year;

/// A nominal second lies at most so many seconds outside its year: 999 hours, and a week's step of days.
const OUTSIDE_YEAR: i64 = 4_118_401;

/// A nominal second, and within it a line: what comes earlier in the order of occurrences lies before the mark.
#[derive(Clone, Copy, Debug)]
pub struct Mark {
    pub second: i64,
    pub line: u32,
}

/// The last year in which an occurrence may lie at or before the second. Two years earlier each one does.
pub(crate) fn latest_year(second: i64) -> i32
    requires { IsInReach second }
    ensures latest { IsLatestYear second result }
    ensures bound { IsYear result }
{
    civil_year(second + OUTSIDE_YEAR)
}

/// The first year in which an occurrence may lie at or after the second. Two years later each one does.
pub(crate) fn earliest_year(second: i64) -> i32
    requires { IsInReach second }
    ensures earliest { IsEarliestYear second result }
    ensures bound { IsYear result }
{
    civil_year(second - OUTSIDE_YEAR - 1)
}

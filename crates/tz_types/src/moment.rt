//! A time within a year, and the clock that it is read from (zic(8), "Rule lines", AT).
ghost use Rattle.std.specs.Prelude.{◌≡◌, pos, neg_ℤ, ◌+ℤ◌, ◌*ℤ◌, IsTrue};
ghost use Rattle.jiff_core.specs.Calendar.{IsBetween};
ghost use Rattle.tz_types.specs.Year.{IsRuleYear};
ghost use Rattle.tz_types.specs.Amount.{IsTimeOfDay};
ghost use Rattle.tz_types.specs.Calendar.{has_day, day_number};

use crate::{Month, On, day_of};

/// Which clock a time of day is read from: local time, local time without its save, or universal time.
#[derive(Clone, Copy, Debug, PartialEq, Eq, Hash)]
pub enum AtKind {
    Wall,
    Standard,
    Universal,
}

/// A time within a year: `at` seconds after the midnight that begins a day of a month.
#[derive(Clone, Copy, Debug, PartialEq, Eq, Hash)]
pub struct Moment {
    pub month: Month,
    pub on: On,
    pub at: i64,
    pub kind: AtKind,
}

/// The nominal second of a moment in a year: the seconds from 1970-01-01 00:00:00 on the moment's own clock.
pub fn nominal(year: i32, moment: &Moment) -> i64
    requires year_in { IsRuleYear year }
    requires day_in { IsTrue (has_day year moment.now.month moment.now.on) }
    requires at_in { IsTimeOfDay moment.now.at }
    ensures value { result ≡ (pos 86_400 *ℤ day_number year moment.now.month moment.now.on) +ℤ moment.now.at }
    ensures bound { IsBetween (neg_ℤ (pos 377_677_699_201)) (pos 253_377_388_801) result }
{
    86_400 * day_of(year, moment.month, moment.on) + moment.at
}

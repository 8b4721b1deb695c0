//! When a line of a zone ends (zic(8), "Zone lines", UNTIL).
ghost use Rattle.std.specs.Prelude.{IsTrue};
ghost use Rattle.tz_types.specs.Year.{IsRuleYear};
ghost use Rattle.tz_types.specs.Amount.{IsTimeOfDay};
ghost use Rattle.tz_types.specs.Calendar.{has_day};

use crate::Moment;

/// When a line of a zone ends, on the clock that the line itself keeps.
#[derive(Clone, Copy, Debug, PartialEq, Eq, Hash)]
pub struct Until {
    pub year: i32,
    pub moment: Moment,
    pub ghost year_in: { IsRuleYear year },
    pub ghost day_in: { IsTrue (has_day year moment.month moment.on) },
    pub ghost at_in: { IsTimeOfDay moment.at },
}

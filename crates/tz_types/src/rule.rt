//! Rules (zic(8), "Rule lines").
ghost use Rattle.std.specs.Prelude.{◌≤ℤ◌, IsTrue};
ghost use Rattle.tz_types.specs.Year.{IsWrittenYear};
ghost use Rattle.tz_types.specs.Amount.{IsTimeOfDay, IsShift};
ghost use Rattle.tz_types.specs.Calendar.{has_day_through};

use crate::{Letters, Moment};

/// One Rule line: at its moment in each year from `from` to `to` it sets the save, in seconds, and the letters.
#[derive(Debug, PartialEq, Drop)]
pub struct Rule {
    pub from: i32,
    pub to: i32,
    pub moment: Moment,
    pub save: i64,
    pub daylight: bool,
    pub letters: Letters,
    /// Where the rule stands in its text, counted from 1.
    pub line: u32,
    pub ghost from_in: { IsWrittenYear from },
    pub ghost to_in: { IsWrittenYear to },
    pub ghost ordered: { from ≤ℤ to },
    pub ghost day_in: { IsTrue (has_day_through from to moment.month moment.on) },
    pub ghost at_in: { IsTimeOfDay moment.at },
    pub ghost save_in: { IsShift save },
}

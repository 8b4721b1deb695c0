//! When rules occur: the fields FROM, TO, IN, ON and AT of Rule lines, and the one that is reserved.
ghost use Rattle.std.specs.Prelude.{◌≡◌, ◌≤ℤ◌, IsTrue};
ghost use Rattle.tz_types.specs.Year.{IsWrittenYear};
ghost use Rattle.tz_types.specs.Amount.{IsTimeOfDay};
ghost use Rattle.tz_types.specs.Calendar.{has_day_through};

use crate::values::{is_dash, month, rule_day, time, years};
use tz_text::Fields;
use tz_types::{Cause, Moment};

/// The years in which a rule occurs, and the moment in each of them.
#[derive(Clone, Copy)]
pub struct Recurrence {
    pub from: i32,
    pub to: i32,
    pub moment: Moment,
    pub ghost from_in: { IsWrittenYear from },
    pub ghost to_in: { IsWrittenYear to },
    pub ghost ordered: { from ≤ℤ to },
    pub ghost day_in: { IsTrue (has_day_through from to moment.month moment.on) },
    pub ghost at_in: { IsTimeOfDay moment.at },
}

impl Recurrence {
    ghost use Rattle.tz_records.specs.Tells.{Tells};
    ghost use Rattle.tz_records.specs.RuleFields.{written_recurrence, recurrence_causes, recurrence_of};

    /// When a rule occurs, or the least cause of the fields that say it.
    #[tactic(auto, unfolding(crate::specs::RuleFields::recurrence_causes, crate::specs::RuleFields::recurrence_of))]
    pub fn of_fields(fields: &Fields<'_>) -> Result<Self, Cause>
        requires { fields.now.count ≡ 10 }
        ensures { Tells written_recurrence (recurrence_causes fields.now.first) (recurrence_of fields.now.first) result }
    {
        let Some((from, to)) = years(fields.get(2), fields.get(3)) else {
            return Err(Cause::Year);
        };
        if to < from {
            return Err(Cause::YearOrder);
        }
        if !is_dash(fields.get(4)) {
            return Err(Cause::Reserved);
        }
        let Some(month) = month(fields.get(5)) else {
            return Err(Cause::Month);
        };
        let Some(on) = rule_day(from, to, month, fields.get(6)) else {
            return Err(Cause::Day);
        };
        let Some((at, kind)) = time(fields.get(7)) else {
            return Err(Cause::Time);
        };
        Ok(Recurrence {
            from,
            to,
            moment: Moment {
                month,
                on,
                at,
                kind,
            },
        })
    }
}

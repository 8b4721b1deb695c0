//! The instants at which occurrences come: each is read on the clock that the occurrence right before it keeps.
ghost use Rattle.std.specs.Prelude.{◌≡◌, ◌+◌, ◌*◌, ◌≤◌, length, pos, neg_ℤ};
ghost use Rattle.jiff_core.specs.Calendar.{IsBetween};
ghost use Rattle.tz_types.specs.Amount.{IsShift};
ghost use Rattle.tz_specs.specs.Effect.{ComesAt};
ghost use Rattle.tz_rules.specs.InEffect.{saved_by};

use crate::occurrences::Occurrence;
use crate::placed::Placed;
use crate::previous_occurrence::last_before;
use std::sync::ledger::Ledger;
use tz_types::{RuleSet, Steps};

/// The save that an occurrence puts in force, and 0 before the first.
pub(crate) fn save_by(previous: &Option<Placed<'_>>) -> i64
    ensures value { result ≡ saved_by previous.now }
    ensures bound { IsShift result }
{
    match previous {
        None => 0,
        Some(previous) => previous.occurrence.save(),
    }
}

/// The instant at which an occurrence comes.
pub(crate) fn instant_of<L: Ledger>(
    set: &RuleSet,
    stdoff: i64,
    occurrence: &Occurrence<'_>,
    steps: &mut Steps<L>,
) -> i64
    requires { IsShift stdoff }
    ensures comes { ComesAt set.now stdoff occurrence.now result }
    ensures bound { IsBetween (neg_ℤ (pos 377_677_872_001)) (pos 253_377_561_601) result }
    ensures steps { steps.new ≤ steps.old + 3 * length set.now.rules }
{
    let previous = last_before(set, occurrence, steps);
    occurrence.instant_after(stdoff, save_by(&previous))
}

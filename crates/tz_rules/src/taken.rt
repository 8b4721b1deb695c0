//! The two searches that the layer above uses, and what they tell.
ghost use Rattle.std.specs.Prelude.{◌≡◌, ◌↔◌, ◌+◌, ◌*◌, ◌≤◌, length, IsNone, IfSome};
ghost use Rattle.tz_types.specs.Amount.{IsShift};
ghost use Rattle.tz_specs.specs.Occurrence.{Occurrence};
ghost use Rattle.tz_specs.specs.Effect.{NoneInEffect};
ghost use Rattle.tz_specs.specs.Around.{IsToCome, IsNextChange};
ghost use Rattle.tz_rules.specs.Placed.{StandsIn};
ghost use Rattle.tz_rules.specs.Taken.{IsTakenOccurrence, IsTakenAt, IsLastTaken, IsNextTaken};

use crate::in_effect::{in_effect, near_time};
use crate::instant::instant_of;
use crate::next_change::next_change;
use crate::placed::Placed;
use std::sync::ledger::Ledger;
use tz_types::{RuleSet, Steps};

/// An occurrence of a rule set: the place of its rule in the set, its year, and the instant at which it comes.
#[derive(Clone, Copy, Debug, PartialEq, Eq, Hash)]
pub struct Taken {
    pub rule: u32,
    pub year: i32,
    pub at: i64,
}

/// The occurrence as it is told.
fn taken_of(set: &RuleSet, placed: &Placed<'_>, at: i64) -> Taken
    requires { StandsIn set.now placed.now }
    ensures tells { IsTakenOccurrence set.now result placed.now.occurrence }
    ensures at { result.at ≡ at }
{
    let _ = set;
    Taken {
        rule: placed.place as u32,
        year: placed.occurrence.year(),
        at,
    }
}

/// The occurrence in effect at `t` in a line with the standard offset `stdoff`: of those that have come by `t`, the
/// last in their order. None comes exactly where none has come.
///
/// A step is a look at one rule in one year.
pub fn last_at_or_before<L: Ledger>(
    set: &RuleSet,
    stdoff: i64,
    t: i64,
    steps: &mut Steps<L>,
) -> Option<Taken>
    requires { IsShift stdoff }
    ensures some { IfSome result (λ taken. IsTakenAt set.now stdoff t taken) }
    ensures none { IsNone result ↔ NoneInEffect set.now stdoff t }
    ensures steps { steps.new ≤ steps.old + 4 * (length set.now.rules * (length set.now.rules + 3)) }
{
    last_taken(set, stdoff, t, steps)
}

/// The same, told by cases.
fn last_taken<L: Ledger>(set: &RuleSet, stdoff: i64, t: i64, steps: &mut Steps<L>) -> Option<Taken>
    requires { IsShift stdoff }
    ensures last { IsLastTaken set.now stdoff t result }
    ensures steps { steps.new ≤ steps.old + 9 * length set.now.rules + length set.now.rules * (3 + 3 * length set.now.rules) }
{
    match in_effect(set, stdoff, near_time(t), steps) {
        None => None,
        Some(placed) => {
            let at = instant_of(set, stdoff, &placed.occurrence, steps);
            Some(taken_of(set, &placed, at))
        }
    }
}

/// What is in effect from the next change after `t` on, and when that comes: the least instant of the occurrences
/// after the one in effect at `t`. None comes exactly where there are no such occurrences.
///
/// A step is a look at one rule in one year.
pub fn next_after<L: Ledger>(
    set: &RuleSet,
    stdoff: i64,
    t: i64,
    steps: &mut Steps<L>,
) -> Option<Taken>
    requires { IsShift stdoff }
    ensures change { IfSome result (λ taken. IsNextChange set.now stdoff t taken.at) }
    ensures some { IfSome result (λ taken. IsTakenAt set.now stdoff taken.at taken) }
    ensures none { IsNone result ↔ ((other : Occurrence) → ¬ (IsToCome set.now stdoff t other)) }
    ensures steps { steps.new ≤ steps.old + 12 * (length set.now.rules * (length set.now.rules + 1)) }
{
    next_taken(set, stdoff, t, steps)
}

/// The same, told by cases.
fn next_taken<L: Ledger>(set: &RuleSet, stdoff: i64, t: i64, steps: &mut Steps<L>) -> Option<Taken>
    requires { IsShift stdoff }
    ensures next { IsNextTaken set.now stdoff t result }
    ensures steps { steps.new ≤ steps.old + 9 * length set.now.rules + 2 * (length set.now.rules * (3 + 3 * length set.now.rules)) }
{
    match next_change(set, stdoff, near_time(t), steps) {
        None => None,
        Some(coming) => Some(taken_of(set, &coming.placed, coming.at)),
    }
}

//! What comes next after an instant. All occurrences after the one in effect come later, though not always in their
//! order: a later one may come sooner, if it lies within four days of the first on its own clock. Each rule has one
//! occurrence in these days at most.
ghost use Rattle.std.specs.Prelude.{◌≡◌, ◌↔◌, ◌+◌, ◌*◌, ◌<◌, ◌≤◌, ◌+ℤ◌, pos, length, IsTrue};
ghost use Rattle.jiff_core.specs.Calendar.{IsYear};
ghost use Rattle.tz_types.specs.Amount.{IsShift};
ghost use Rattle.tz_types.specs.declared.rule_set.RuleSet.{RuleSet};
ghost use Rattle.tz_specs.specs.Occurrence.{nominal_of};
ghost use Rattle.tz_rules.specs.declared.shift.TheConstants.{MOST_SHIFT};
ghost use Rattle.tz_rules.specs.Mark.{IsInReach};
ghost use Rattle.tz_rules.specs.Search.{FirstAfter};
ghost use Rattle.tz_rules.specs.InEffect.{IsNearTime};
ghost use Rattle.tz_rules.specs.NextChange.{mark_from, IsWindow, IsSoonest, is_sooner, sooner_of, IsFirstToCome, IsNextAfter};

use crate::in_effect::{BEFORE_ALL, in_effect};
use crate::instant::{instant_of, save_by};
use crate::mark::{Mark, earliest_year, latest_year};
use crate::next_occurrence::{first_after_mark, first_of_rule};
use crate::placed::Placed;
use crate::shift::MOST_SHIFT;
use std::sync::ledger::Ledger;
use tz_types::{RuleSet, Steps};

/// An occurrence of a set and the instant at which it comes.
#[derive(Debug, Drop)]
pub struct Coming<'a> {
    pub placed: Placed<'a>,
    pub at: i64,
}

/// The occurrences after a mark and up to a nominal second, and the years in which these lie.
#[derive(Clone, Copy, Debug)]
pub struct Window {
    pub mark: Mark,
    pub limit: i64,
    pub earliest: i32,
    pub latest: i32,
}

/// The mark of what is in effect, and where nothing is, one before all.
fn mark_after(state: &Option<Placed<'_>>) -> Mark
    ensures mark { result ≡ mark_from state.now }
    ensures in_reach { IsInReach result.second }
{
    match state {
        None => Mark {
            second: BEFORE_ALL,
            line: 0,
        },
        Some(state) => state.occurrence.mark(),
    }
}

/// The window from a mark to four days after the first occurrence after it.
fn window_from(mark: Mark, first: &Placed<'_>) -> Window
    requires { IsInReach mark.second }
    ensures mark { result.mark ≡ mark }
    ensures limit { result.limit ≡ nominal_of first.now.occurrence +ℤ (MOST_SHIFT +ℤ MOST_SHIFT) }
    ensures window { (set : RuleSet) → FirstAfter set mark first.now → IsWindow set result }
    ensures earliest { IsYear result.earliest }
    ensures latest { IsYear result.latest }
{
    let limit = first.occurrence.nominal() + 2 * MOST_SHIFT;
    Window {
        mark,
        limit,
        earliest: earliest_year(mark.second),
        latest: latest_year(limit),
    }
}

/// Whether the two are one occurrence.
fn is_same(placed: &Placed<'_>, other: &Placed<'_>) -> bool
    ensures { IsTrue result ↔ ((placed.now.place ≡ other.now.place) × (placed.now.occurrence.year ≡ other.now.occurrence.year)) }
{
    placed.place == other.place && placed.occurrence.year() == other.occurrence.year()
}

/// Whether the one found is sooner, or comes at the same instant and later in the order.
fn is_sooner(found: &Coming<'_>, other: &Coming<'_>) -> bool
    ensures { result ≡ is_sooner found.now other.now }
{
    if found.at != other.at {
        return found.at < other.at;
    }
    other.placed.occurrence.precedes(&found.placed.occurrence)
}

/// The sooner of the two, and of two that come at one instant the last.
fn sooner<'a>(other: Coming<'a>, found: Coming<'a>) -> Coming<'a>
    ensures { result ≡ sooner_of other.entry found.entry }
{
    if is_sooner(&found, &other) {
        found
    } else {
        other
    }
}

/// The soonest, of those found so far and of one more rule.
fn sooner_with<'a, L: Ledger>(
    soonest: Coming<'a>,
    set: &'a RuleSet,
    stdoff: i64,
    window: Window,
    place: usize,
    steps: &mut Steps<L>,
) -> Coming<'a>
    requires stdoff_in { IsShift stdoff }
    requires window { IsWindow set.now window }
    requires earliest { IsYear window.earliest }
    requires latest { IsYear window.latest }
    requires place_in { place < length set.now.rules }
    requires so_far { IsSoonest set.now stdoff window place soonest }
    ensures soonest { IsSoonest set.now stdoff window (place + 1) result }
    ensures steps { steps.new ≤ steps.old + (3 + 3 * length set.now.rules) }
{
    let rule = &set.rules.as_slice()[place];
    match first_of_rule(
        rule,
        place,
        window.earliest,
        window.latest,
        window.mark,
        steps,
    ) {
        None => soonest,
        Some(found) => {
            if found.occurrence.nominal() > window.limit {
                return soonest;
            }
            if is_same(&soonest.placed, &found) {
                return soonest;
            }
            let at = instant_of(set, stdoff, &found.occurrence, steps);
            let found = Coming { placed: found, at };
            sooner(soonest, found)
        }
    }
}

/// The soonest of all in the window, where the first in their order is known.
fn soonest<'a, L: Ledger>(
    first: Coming<'a>,
    set: &'a RuleSet,
    stdoff: i64,
    window: Window,
    steps: &mut Steps<L>,
) -> Coming<'a>
    requires stdoff_in { IsShift stdoff }
    requires window { IsWindow set.now window }
    requires earliest { IsYear window.earliest }
    requires latest { IsYear window.latest }
    requires first { IsSoonest set.now stdoff window 0 first }
    ensures soonest { IsSoonest set.now stdoff window (length set.now.rules) result }
    ensures steps { steps.new ≤ steps.old + length set.now.rules * (3 + 3 * length set.now.rules) }
{
    let mut soonest = first;
    for place in 0..set.rules.len() {
        soonest = sooner_with(soonest, set, stdoff, window, place, steps);
    }
    soonest
}

/// The first occurrence after the one in effect, which comes on the clock of that one.
fn first_to_come<'a, L: Ledger>(
    set: &'a RuleSet,
    stdoff: i64,
    state: &Option<Placed<'_>>,
    steps: &mut Steps<L>,
) -> Option<Coming<'a>>
    requires { IsShift stdoff }
    ensures first { IsFirstToCome set.now stdoff state.now result }
    ensures steps { steps.new ≤ steps.old + 3 * length set.now.rules }
{
    match first_after_mark(set, mark_after(state), steps) {
        None => None,
        Some(first) => {
            let at = first.occurrence.instant_after(stdoff, save_by(state));
            Some(Coming { placed: first, at })
        }
    }
}

/// The soonest occurrence of those to come after `t`, and of those that come at one instant the last.
pub(crate) fn next_change<'a, L: Ledger>(
    set: &'a RuleSet,
    stdoff: i64,
    t: i64,
    steps: &mut Steps<L>,
) -> Option<Coming<'a>>
    requires stdoff_in { IsShift stdoff }
    requires near { IsNearTime t }
    ensures next { IsNextAfter set.now stdoff t result }
    ensures steps { steps.new ≤ steps.old + 9 * length set.now.rules + 2 * (length set.now.rules * (3 + 3 * length set.now.rules)) }
{
    let state = in_effect(set, stdoff, t, steps);
    match first_to_come(set, stdoff, &state, steps) {
        None => None,
        Some(first) => {
            let window = window_from(mark_after(&state), &first.placed);
            Some(soonest(first, set, stdoff, window, steps))
        }
    }
}

//! Which occurrence is in effect at an instant. No clock is more than two days ahead of universal time or behind
//! it, so what comes two days before the instant on its own clock has come, and what comes more than two days after
//! it hasn't. In the days between each rule has one occurrence at most, and each of these is asked for its instant.
ghost use Rattle.std.specs.Prelude.{◌≡◌, ◌⊎◌, ◌+◌, ◌*◌, ◌<◌, ◌≤◌, ◌+ℤ◌, pos, neg_ℤ, true, false, IsTrue, length};
ghost use Rattle.jiff_core.specs.Calendar.{IsYear};
ghost use Rattle.tz_types.specs.Amount.{IsShift};
ghost use Rattle.tz_rules.specs.declared.shift.TheConstants.{MOST_SHIFT};
ghost use Rattle.tz_rules.specs.Mark.{IsLatestYear};
ghost use Rattle.tz_rules.specs.Placed.{StandsIn};
ghost use Rattle.tz_rules.specs.InEffect.{IsNearTime, IsAsGoodAs, IsState, IsLastCome, ComesLater, is_settled, follows};

use crate::instant::instant_of;
use crate::mark::{Mark, latest_year};
use crate::placed::Placed;
use crate::previous_occurrence::{last_by, last_of_rule};
use crate::shift::MOST_SHIFT;
use crate::years::FIRST_YEAR;
use std::sync::ledger::Ledger;
use tz_types::{RuleSet, Steps};

/// All occurrences come after this instant.
pub(crate) const BEFORE_ALL: i64 = -377_678_000_000;

/// All occurrences come before this instant.
const AFTER_ALL: i64 = 253_378_000_000;

/// The instant, or where it lies far outside of time one by which the same occurrences have come.
pub(crate) fn near_time(t: i64) -> i64
    ensures { IsAsGoodAs t result }
{
    t.clamp(BEFORE_ALL, AFTER_ALL)
}

/// The mark after what comes up to two days after `t` on its own clock.
fn two_days_after(t: i64) -> Mark
    requires { IsNearTime t }
    ensures second { result.second ≡ t +ℤ (MOST_SHIFT +ℤ pos 1) }
    ensures line { result.line ≡ 0 }
{
    Mark {
        second: t + MOST_SHIFT + 1,
        line: 0,
    }
}

/// Whether it comes two days before `t` on its own clock, if it is one at all.
fn is_settled(found: &Option<Placed<'_>>, t: i64) -> bool
    requires { IsNearTime t }
    ensures { result ≡ is_settled t found.now }
{
    match found {
        None => true,
        Some(found) => found.occurrence.nominal() <= t - MOST_SHIFT,
    }
}

/// Whether it comes after the one found so far, if there is one.
fn follows(last: &Option<Placed<'_>>, found: &Placed<'_>) -> bool
    ensures { result ≡ follows last.now found.now }
{
    match last {
        None => true,
        Some(last) => last.occurrence.precedes(&found.occurrence),
    }
}

/// Whether an occurrence less than two days before `t` has come, and comes after the one found so far.
fn comes_later<L: Ledger>(
    set: &RuleSet,
    stdoff: i64,
    t: i64,
    last: &Option<Placed<'_>>,
    found: &Placed<'_>,
    steps: &mut Steps<L>,
) -> bool
    requires stdoff_in { IsShift stdoff }
    requires near { IsNearTime t }
    requires stands { StandsIn set.now found.now }
    ensures later { result ≡ true → ComesLater set.now stdoff t last.now found.now }
    ensures not_later { result ≡ false → ¬ (ComesLater set.now stdoff t last.now found.now) }
    ensures steps { steps.new ≤ steps.old + 3 * length set.now.rules }
{
    if found.occurrence.nominal() <= t - MOST_SHIFT {
        return false;
    }
    if follows(last, found) {
        return instant_of(set, stdoff, &found.occurrence, steps) <= t;
    }
    false
}

/// The last occurrence that has come, of those found so far and of one more rule. `latest` is the last year in which
/// one may lie up to two days after `t`.
fn come_with<'a, L: Ledger>(
    last: Option<Placed<'a>>,
    set: &'a RuleSet,
    stdoff: i64,
    t: i64,
    latest: i32,
    place: usize,
    steps: &mut Steps<L>,
) -> Option<Placed<'a>>
    requires stdoff_in { IsShift stdoff }
    requires near { IsNearTime t }
    requires latest_in { IsYear latest }
    requires latest { IsLatestYear (t +ℤ (MOST_SHIFT +ℤ pos 1)) latest }
    requires place_in { place < length set.now.rules }
    requires so_far { IsLastCome set.now stdoff t place last }
    ensures last { IsLastCome set.now stdoff t (place + 1) result }
    ensures steps { steps.new ≤ steps.old + (3 + 3 * length set.now.rules) }
{
    let rule = &set.rules.as_slice()[place];
    let mark = two_days_after(t);
    match last_of_rule(rule, place, FIRST_YEAR, latest, mark, steps) {
        None => last,
        Some(found) => {
            if comes_later(set, stdoff, t, &last, &found, steps) {
                Some(found)
            } else {
                last
            }
        }
    }
}

/// The last occurrence that has come by `t`.
fn last_come<'a, L: Ledger>(
    set: &'a RuleSet,
    stdoff: i64,
    t: i64,
    steps: &mut Steps<L>,
) -> Option<Placed<'a>>
    requires stdoff_in { IsShift stdoff }
    requires near { IsNearTime t }
    ensures state { IsState set.now stdoff t result }
    ensures steps { steps.new ≤ steps.old + 3 * length set.now.rules + length set.now.rules * (3 + 3 * length set.now.rules) }
{
    let latest = latest_year(two_days_after(t).second);
    let mut last = last_by(set, t - MOST_SHIFT, steps);
    for place in 0..set.rules.len() {
        last = come_with(last, set, stdoff, t, latest, place, steps);
    }
    last
}

/// The occurrence in effect at `t`. Mostly the last one up to two days after `t` has come two days before it, and
/// no other is asked for its instant.
pub(crate) fn in_effect<'a, L: Ledger>(
    set: &'a RuleSet,
    stdoff: i64,
    t: i64,
    steps: &mut Steps<L>,
) -> Option<Placed<'a>>
    requires stdoff_in { IsShift stdoff }
    requires near { IsNearTime t }
    ensures state { IsState set.now stdoff t result }
    ensures steps { steps.new ≤ steps.old + 6 * length set.now.rules + length set.now.rules * (3 + 3 * length set.now.rules) }
{
    let found = last_by(set, t + MOST_SHIFT, steps);
    if is_settled(&found, t) {
        return found;
    }
    last_come(set, stdoff, t, steps)
}

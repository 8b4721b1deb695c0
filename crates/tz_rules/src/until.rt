//! When a line with an UNTIL ends, after zic(8), "Zone lines", UNTIL: on the clock that the line itself keeps. Instants are
//! seconds from 1970-01-01 00:00:00 in universal time, offsets and saves are seconds.
ghost use Rattle.std.specs.Prelude.{◌≡◌, ◌<◌, pos, neg_ℤ, ◌+ℤ◌, ◌≤ℤ◌};
ghost use Rattle.std.specs.Option.{option_copied};
ghost use Rattle.jiff_core.specs.Calendar.{IsBetween};
ghost use Rattle.tz_types.specs.Amount.{IsShift};
ghost use Rattle.tz_specs.specs.Occurrence.{nominal_second};
ghost use Rattle.tz_specs.specs.Until.{Rules, until_instant};
ghost use Rattle.tz_specs.specs.Effect.{until_with};
ghost use Rattle.tz_rules.specs.declared.until.TheConstants.{SURELY_EARLIER};
ghost use Rattle.tz_rules.specs.Following.{following_given};
ghost use Rattle.tz_rules.specs.Mark.{IsInReach};
ghost use Rattle.tz_rules.specs.Passed.{Passed, NoneBy, PassesFirst, PassesNext};

use crate::mark::Mark;
use crate::next_occurrence::{first_after, first_after_mark};
use crate::placed::Placed;
use crate::previous_occurrence::last_by;
use crate::shift::{MOST_SHIFT, shift_of};
use std::marker::Brand;
use std::sync::ledger::{Blank, Ledger};
use tz_types::{RuleSet, Steps, Until, nominal};

/// What has its nominal second this much earlier than another comes earlier, whatever clocks the two are read from.
const SURELY_EARLIER: i64 = 2 * MOST_SHIFT + 1;

/// The instant of an UNTIL while that save is in force.
fn until_with(until: &Until, stdoff: i64, save: i64) -> i64
    requires stdoff_in { IsShift stdoff }
    requires save_in { IsShift save }
    ensures value { result ≡ until_with stdoff until.now.year until.now.moment save }
    ensures bound { IsBetween (neg_ℤ (pos 377_677_872_001)) (pos 253_377_561_601) result }
{
    nominal(until.year, &until.moment) - shift_of(until.moment.kind, stdoff, save)
}

/// The nominal second up to which occurrences come before the UNTIL for sure.
fn sure_second(until: &Until) -> i64
    ensures value { (result +ℤ SURELY_EARLIER) ≡ nominal_second until.now.year until.now.moment }
    ensures in_reach { IsInReach result }
    ensures next_in_reach { IsInReach (result +ℤ pos 1) }
{
    nominal(until.year, &until.moment) - SURELY_EARLIER
}

/// The first occurrence, where all are later than a nominal second, and where it comes before the UNTIL as read without
/// a save.
fn first_before<'a, L: Ledger>(
    set: &'a RuleSet,
    stdoff: i64,
    until: &Until,
    second: i64,
    steps: &mut Steps<L>,
) -> Option<Placed<'a>>
    requires stdoff_in { IsShift stdoff }
    requires in_reach { IsInReach second }
    requires none { NoneBy set.now second }
    ensures { PassesFirst set.now stdoff until.now.year until.now.moment result }
{
    let mark = Mark {
        second,
        line: u32::MAX,
    };
    let first = match first_after_mark(set, mark, steps) {
        Some(first) => first,
        None => return None,
    };
    if first.occurrence.instant_after(stdoff, 0) < until_with(until, stdoff, 0) {
        Some(first)
    } else {
        None
    }
}

/// An occurrence that comes before the UNTIL, with all before it; none where the first one doesn't.
fn start<'a, L: Ledger>(
    set: &'a RuleSet,
    stdoff: i64,
    until: &Until,
    steps: &mut Steps<L>,
) -> Option<Placed<'a>>
    requires stdoff_in { IsShift stdoff }
    ensures { PassesFirst set.now stdoff until.now.year until.now.moment result }
{
    let second = sure_second(until);
    match last_by(set, second, steps) {
        Some(last) => Some(last),
        None => first_before(set, stdoff, until, second, steps),
    }
}

/// The next occurrence, where it comes before the UNTIL as read under the one before it.
fn next_before<'a, L: Ledger>(
    set: &'a RuleSet,
    stdoff: i64,
    until: &Until,
    under: &Placed<'a>,
    steps: &mut Steps<L>,
) -> Option<Placed<'a>>
    requires stdoff_in { IsShift stdoff }
    requires passed { Passed set.now stdoff until.now.year until.now.moment under.now.occurrence }
    ensures { PassesNext set.now stdoff until.now.year until.now.moment under.now.occurrence result }
{
    let next = match first_after(set, &under.occurrence, steps) {
        Some(next) => next,
        None => return None,
    };
    let save = under.occurrence.save();
    if next.occurrence.instant_after(stdoff, save) < until_with(until, stdoff, save) {
        Some(next)
    } else {
        None
    }
}

/// The instant of an UNTIL that isn't read under any occurrence before the one given: that under the first one from it on
/// whose successor doesn't come before the UNTIL.
fn until_from<'a, L: Ledger>(
    set: &'a RuleSet,
    stdoff: i64,
    until: &Until,
    start: Placed<'a>,
    steps: &mut Steps<L>,
) -> i64
    requires stdoff_in { IsShift stdoff }
    requires passed { Passed set.now stdoff until.now.year until.now.moment start.occurrence }
    ensures value { result ≡ until_instant (Rules set.now) stdoff until.now.year until.now.moment }
    ensures bound { IsBetween (neg_ℤ (pos 377_677_872_001)) (pos 253_377_561_601) result }
{
    let mut under = start;
    while let Some(next) = next_before(set, stdoff, until, &under, steps) {
        under = next;
    }
    until_with(until, stdoff, under.occurrence.save())
}

/// The instant of an UNTIL in a line that follows a rule set, where nobody asks for the count of steps.
fn until_uncounted<L: Ledger>(set: &RuleSet, stdoff: i64, until: &Until, blank: Blank) -> i64
    requires name { blank.name ≡ L.name }
    requires parts { blank.parts ≡ L.parts }
    requires counts { 0 < blank.parts }
    requires stdoff_in { IsShift stdoff }
    ensures value { result ≡ until_instant (Rules set.now) stdoff until.now.year until.now.moment }
    ensures bound { IsBetween (neg_ℤ (pos 377_677_872_001)) (pos 253_377_561_601) result }
{
    let mut steps = Steps::<L>::new(blank);
    match start(set, stdoff, until, &mut steps) {
        Some(start) => until_from(set, stdoff, until, start, &mut steps),
        None => until_with(until, stdoff, 0),
    }
}

/// The instant of an UNTIL, in a line with the standard offset `stdoff`. The save is that of the first occurrence of the rule
/// set whose successor doesn't come before the UNTIL as that save tells it; without a rule set it is `fixed`.
#[tactic(auto, unfolding(tz_specs::specs::Until::until_instant))]
pub fn until_instant(set: Option<&RuleSet>, fixed: i64, stdoff: i64, until: &Until) -> i64
    requires fixed_in { IsShift fixed }
    requires stdoff_in { IsShift stdoff }
    ensures value { result ≡ until_instant (following_given (option_copied set.entry) fixed) stdoff until.now.year until.now.moment }
    ensures bound { IsBetween (neg_ℤ (pos 377_677_872_001)) (pos 253_377_561_601) result }
{
    match set {
        Some(set) => until_uncounted::<Brand>(set, stdoff, until, Blank::new(1)),
        None => until_with(until, stdoff, fixed),
    }
}

//! The range that holds an instant.
ghost use Rattle.std.specs.Prelude.{◌≡◌, ℤ, ◌↔◌, ◌+◌, ◌*◌, ◌≤◌, ◌<◌, ◌≤ℤ◌, ◌<ℤ◌, length, IsTrue, IsSome};
ghost use Rattle.tz_types.specs.declared.rule_set.RuleSet.{RuleSet};
ghost use Rattle.tz_rules.specs.Taken.{IsLastTaken, IsNextTaken};
ghost use Rattle.tz_specs.specs.Until.{Rules};
ghost use Rattle.tz_specs.specs.Expansion.{IsInstant, state_in, range_of, holds_instant, range_at};
ghost use Rattle.tz_specs.specs.RulesFollowed.{rules_followed, most_rules_followed};
ghost use Rattle.tz_specs.specs.Standing.{IsRangeOf};
ghost use Rattle.tz_specs.specs.Around.{IsBeginAround, IsEndAround};
ghost use Rattle.tz_expand.specs.Followed.{followed_by};
ghost use Rattle.tz_expand.specs.Compiled.{period_of, periods};
ghost use Rattle.tz_expand.specs.Zone.{expansion_of};

use crate::{CompiledLine, CompiledRules, CompiledZone};
use std::marker::Brand;
use std::sync::ledger::{Blank, Ledger};
use tz_rules::{InForce, Taken, last_at_or_before, next_after};
use tz_types::{END_OF_TIME, FIRST_INSTANT, RuleSet, Steps, SysInfo};

/// Where the range begins: where the occurrence in effect comes, if that lies inside the line, and else where the line
/// starts.
fn begin_around(line: &CompiledLine, now: Option<Taken>) -> i64
    ensures { (set : RuleSet) (t : ℤ) → IsLastTaken set line.now.stdoff t now → IsBeginAround set (period_of line.now) t result }
{
    match now {
        Some(taken) => taken.at.max(line.start),
        None => line.start,
    }
}

/// Where it ends: at the next change, if that lies inside the line, and else where the line ends.
fn end_around(line: &CompiledLine, next: Option<Taken>) -> i64
    ensures { (set : RuleSet) (t : ℤ) → IsNextTaken set line.now.stdoff t next → IsEndAround set (period_of line.now) t result }
{
    match next {
        Some(taken) => taken.at.min(line.end),
        None => line.end,
    }
}

/// What is in force at `t` in a line that follows a rule set, where the occurrence then in effect is known.
fn in_force_under<'a>(line: &'a CompiledLine, set: &'a RuleSet, now: Option<Taken>) -> InForce<'a>
    requires follows { followed_by line.now.rules ≡ Rules set.now }
    requires taken { (t : ℤ) × IsLastTaken set.now line.now.stdoff t now }
    ensures { (t : ℤ) → IsLastTaken set.now line.now.stdoff t now → state_in (period_of line.now) t ≡ result }
{
    match now {
        Some(taken) => InForce::put_by(&set.rules.as_slice()[taken.rule as usize]),
        None => InForce::standard(&line.letters),
    }
}

/// The range around an instant of a line that follows a rule set.
fn range_in_rules<L: Ledger>(
    line: &CompiledLine,
    set: &RuleSet,
    t: i64,
    steps: &mut Steps<L>,
) -> SysInfo
    requires follows { followed_by line.now.rules ≡ Rules set.now }
    requires begun { line.now.start ≤ℤ t }
    requires inside { t <ℤ line.now.end }
    ensures range { IsRangeOf (period_of line.now) result }
    ensures holds { IsTrue (holds_instant t result) }
    ensures steps { steps.new ≤ steps.old + 16 * (length set.now.rules * (length set.now.rules + 2)) }
{
    let now = last_at_or_before(set, line.stdoff, t, steps);
    let next = next_after(set, line.stdoff, t, steps);
    let begin = begin_around(line, now);
    line.range(
        in_force_under(line, set, now),
        begin,
        end_around(line, next),
    )
}

/// The range around an instant of any line.
fn range_in_line<L: Ledger>(line: &CompiledLine, t: i64, steps: &mut Steps<L>) -> SysInfo
    requires begun { line.now.start ≤ℤ t }
    requires inside { t <ℤ line.now.end }
    ensures range { IsRangeOf (period_of line.now) result }
    ensures holds { IsTrue (holds_instant t result) }
    ensures steps { let rules = rules_followed (followed_by line.now.rules) in steps.new ≤ steps.old + 16 * (rules * (rules + 2)) }
{
    match &line.rules {
        CompiledRules::Plain => line.range(InForce::fixed(0, false), line.start, line.end),
        CompiledRules::Fixed { save, daylight } => {
            line.range(InForce::fixed(*save, *daylight), line.start, line.end)
        }
        CompiledRules::Set(set) => range_in_rules(line, set.get(), t, steps),
    }
}

/// The range of the zone that holds an instant in time.
fn range_among<L: Ledger>(zone: &CompiledZone, t: i64, steps: &mut Steps<L>) -> SysInfo
    requires { IsInstant t }
    ensures range { range_at (expansion_of zone.now) t ≡ Some result }
    ensures steps { let rules = most_rules_followed (periods zone.now.lines) in steps.new ≤ steps.old + 16 * (rules * (rules + 2)) }
{
    let lines = zone.lines.as_slice();
    for line in lines {
        if t < line.end {
            return range_in_line(line, t, steps);
        }
    }
    unreachable!()
}

/// The one range of the zone's full expansion that holds the instant `t`, in seconds from 1970-01-01 00:00:00.
/// None comes exactly where `t` isn't from -9999-01-01 up to but excluding 10000-01-01. It takes no memory, and few rule
/// steps: looks at one rule in one year.
pub fn info_at<L: Ledger>(zone: &CompiledZone, t: i64, steps: &mut Steps<L>) -> Option<SysInfo>
    ensures range { result ≡ range_at (expansion_of zone.now) t }
    ensures in_range { IsSome result ↔ IsInstant t }
    ensures steps { let rules = most_rules_followed (periods zone.now.lines) in steps.new ≤ steps.old + 16 * (rules * (rules + 2)) }
{
    if t < FIRST_INSTANT || t >= END_OF_TIME {
        return None;
    }
    Some(range_among(zone, t, steps))
}

/// The same range, where the steps are counted by `blank` and told to nobody.
fn info_with<L: Ledger>(zone: &CompiledZone, t: i64, blank: Blank) -> Option<SysInfo>
    requires name { blank.name ≡ L.name }
    requires parts { blank.parts ≡ L.parts }
    requires counts { 0 < blank.parts }
    ensures range { result ≡ range_at (expansion_of zone.now) t }
    ensures in_range { IsSome result ↔ IsInstant t }
{
    let mut steps = Steps::<L>::new(blank);
    info_at(zone, t, &mut steps)
}

/// What `info_at` answers, where nobody asks for the count of steps.
pub fn info_uncounted(zone: &CompiledZone, t: i64) -> Option<SysInfo>
    ensures range { result ≡ range_at (expansion_of zone.now) t }
    ensures in_range { IsSome result ↔ IsInstant t }
{
    info_with::<Brand>(zone, t, Blank::new(1))
}

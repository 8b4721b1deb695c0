//! The ranges of a stretch of time.
ghost use Rattle.std.specs.Prelude.{◌≡◌, ℕ, ◌+◌, ◌*◌, ◌≤◌, ◌<◌, [], ◌∷◌, ◌++◌, length, filter, reverse, ◌<ℤ◌, IfOk, OnOk, if◌then◌else◌};
ghost use Rattle.tz_specs.specs.Until.{Rules};
ghost use Rattle.tz_specs.specs.Expansion.{state_in, range_of, ranges_of};
ghost use Rattle.tz_specs.specs.RulesFollowed.{rules_followed, most_rules_followed};
ghost use Rattle.tz_expand.specs.Followed.{followed_by};
ghost use Rattle.tz_expand.specs.Compiled.{period_of, periods};
ghost use Rattle.tz_expand.specs.Looks.{AreLooksOf};
ghost use Rattle.tz_expand.specs.Stretch.{IsStretch, TouchesYears, meets, line_meets, ranges_between, lines_between};

use crate::looks::{instant_at, looks_near};
use crate::{CompiledLine, CompiledRules, CompiledZone};
use std::alloc::Global;
use std::marker::Brand;
use std::sync::ledger::{Blank, Ledger};
use tz_rules::{InForce, Occurrence};
use tz_types::{NoMemory, RuleSet, Steps, SysInfo};

/// Puts the ranges of a line that meet the stretch behind those of later lines, the last of them first. The list has
/// the looks near what the line and the stretch share.
fn push_changes(
    ranges: &mut Vec<SysInfo>,
    line: &CompiledLine,
    list: &[Occurrence<'_>],
    from: i64,
    to: i64,
) -> Result<(), NoMemory>
    requires looked { AreLooksOf (period_of line.now) from to list.now }
    requires takes_time { line.now.start <ℤ line.now.end }
    requires begins { line.now.start <ℤ to }
    requires ends { from <ℤ line.now.end }
    requires ordered { from <ℤ to }
    ensures { OnOk result (reverse ranges.new.items ≡ filter (meets from to) (ranges_of (period_of line.now)) ++ reverse ranges.old.items) }
{
    let earliest = from.max(line.start);
    let mut end = line.end;
    for back in 0..list.len() {
        let place = list.len() - 1 - back;
        let begin = instant_at(list, line.stdoff, place).max(line.start);
        if begin < end {
            if begin < to {
                let in_force = InForce::put_by(list[place].rule());
                ranges.push(line.range(in_force, begin, end))?;
            }
            end = begin;
        }
        if end <= earliest {
            return Ok(());
        }
    }
    ranges.push(line.range(InForce::standard(&line.letters), line.start, end))?;
    Ok(())
}

/// The same of a line that follows a rule set, and meets the stretch.
fn push_followed<L: Ledger>(
    alloc: Global,
    ranges: &mut Vec<SysInfo>,
    line: &CompiledLine,
    set: &RuleSet,
    from: i64,
    to: i64,
    steps: &mut Steps<L>,
) -> Result<(), NoMemory>
    requires follows { followed_by line.now.rules ≡ Rules set.now }
    requires stretch { IsStretch from to }
    requires takes_time { line.now.start <ℤ line.now.end }
    requires begins { line.now.start <ℤ to }
    requires ends { from <ℤ line.now.end }
    ensures ranges { OnOk result (reverse ranges.new.items ≡ filter (meets from to) (ranges_of (period_of line.now)) ++ reverse ranges.old.items) }
    ensures steps { (years : ℕ) → TouchesYears from to years → steps.new ≤ steps.old + length set.now.rules * (years + 12) }
{
    let list = looks_near(alloc, set, from.max(line.start), to.min(line.end), steps)?;
    push_changes(ranges, line, list.as_slice(), from, to)
}

/// Puts the one range that a line without a rule set is behind those of later lines.
fn push_whole(
    ranges: &mut Vec<SysInfo>,
    line: &CompiledLine,
    in_force: InForce<'_>,
) -> Result<(), NoMemory>
    ensures { OnOk result (state_in (period_of line.now) line.now.start ≡ in_force.entry → ranges.new.items ≡ ranges.old.items ++ range_of (period_of line.now) line.now.start line.now.end ∷ []) }
{
    ranges.push(line.range(in_force, line.start, line.end))?;
    Ok(())
}

/// Puts the ranges of any line that meet the stretch behind those of later lines, the last of them first.
fn push_line<L: Ledger>(
    alloc: Global,
    ranges: &mut Vec<SysInfo>,
    line: &CompiledLine,
    from: i64,
    to: i64,
    steps: &mut Steps<L>,
) -> Result<(), NoMemory>
    requires stretch { IsStretch from to }
    requires takes_time { line.now.start <ℤ line.now.end }
    ensures ranges { OnOk result (reverse ranges.new.items ≡ filter (meets from to) (ranges_of (period_of line.now)) ++ reverse ranges.old.items) }
    ensures steps { (years : ℕ) → TouchesYears from to years → steps.new ≤ steps.old + (if line_meets from to line.now then rules_followed (followed_by line.now.rules) * (years + 12) else 0) }
{
    let meets = line.meets(from, to);
    if !meets {
        return Ok(());
    }
    match &line.rules {
        CompiledRules::Plain => push_whole(ranges, line, InForce::fixed(0, false)),
        CompiledRules::Fixed { save, daylight } => {
            push_whole(ranges, line, InForce::fixed(*save, *daylight))
        }
        CompiledRules::Set(set) => push_followed(alloc, ranges, line, set.get(), from, to, steps),
    }
}

/// The ranges of the zone's full expansion that meet the stretch from an instant up to but excluding another, in
/// seconds from 1970-01-01 00:00:00: whole, and in the order of time. Of each line that meets it, it looks at each rule in
/// no more years than the stretch touches, and twelve more.
pub fn expand_between<L: Ledger>(
    alloc: Global,
    zone: &CompiledZone,
    from: i64,
    to: i64,
    steps: &mut Steps<L>,
) -> Result<Vec<SysInfo>, NoMemory>
    requires { IsStretch from to }
    ensures ranges { IfOk result (λ ranges. ranges.items ≡ ranges_between zone.now from to) }
    ensures steps { (years : ℕ) → TouchesYears from to years → steps.new ≤ steps.old + lines_between zone.now from to * (most_rules_followed (periods zone.now.lines) * (years + 12)) }
{
    let mut ranges = Vec::new(alloc);
    let lines = zone.lines.as_slice();
    for back in 0..lines.len() {
        let line = &lines[lines.len() - 1 - back];
        push_line(alloc, &mut ranges, line, from, to, steps)?;
    }
    ranges.as_mut_slice().reverse();
    Ok(ranges)
}

/// The same ranges, where the steps are counted by `blank` and told to nobody.
fn expand_with<L: Ledger>(
    alloc: Global,
    zone: &CompiledZone,
    from: i64,
    to: i64,
    blank: Blank,
) -> Result<Vec<SysInfo>, NoMemory>
    requires name { blank.name ≡ L.name }
    requires parts { blank.parts ≡ L.parts }
    requires counts { 0 < blank.parts }
    requires stretch { IsStretch from to }
    ensures { IfOk result (λ ranges. ranges.items ≡ ranges_between zone.now from to) }
{
    let mut steps = Steps::<L>::new(blank);
    expand_between(alloc, zone, from, to, &mut steps)
}

/// What `expand_between` answers, where nobody asks for the count of steps.
pub fn expand_uncounted(
    alloc: Global,
    zone: &CompiledZone,
    from: i64,
    to: i64,
) -> Result<Vec<SysInfo>, NoMemory>
    requires { IsStretch from to }
    ensures { IfOk result (λ ranges. ranges.items ≡ ranges_between zone.now from to) }
{
    expand_with::<Brand>(alloc, zone, from, to, Blank::new(1))
}

//! What comes last before a mark in the order of occurrences.
ghost use Rattle.std.specs.Prelude.{◌≡◌, ◌+◌, ◌*◌, ◌<◌, ◌≤◌, ◌+ℤ◌, pos, length};
ghost use Rattle.jiff_core.specs.Calendar.{IsYear};
ghost use Rattle.tz_rules.specs.Mark.{IsInReach, IsLatestYear};
ghost use Rattle.tz_rules.specs.Search.{IsLastOfRule, IsLastFrom, IsLastBefore, IsLastBy, IsPreviousOf, since_of, later_of};

use crate::mark::{Mark, latest_year};
use crate::occurrences::Occurrence;
use crate::placed::Placed;
use crate::years::{FIRST_YEAR, first_year, last_year, years_before, years_through};
use std::sync::ledger::Ledger;
use tz_types::{Rule, RuleSet, Steps};

/// The last occurrence of a rule before the mark, of the years from `since` on. `latest` is the last year in which one
/// may lie there.
pub(crate) fn last_of_rule<'a, L: Ledger>(
    rule: &'a Rule,
    place: usize,
    since: i32,
    latest: i32,
    mark: Mark,
    steps: &mut Steps<L>,
) -> Option<Placed<'a>>
    requires since_in { IsYear since }
    requires latest_in { IsYear latest }
    requires latest { IsLatestYear mark.second latest }
    ensures last { IsLastOfRule rule.now place since mark result }
    ensures steps { steps.new ≤ steps.old + 3 }
{
    let first = first_year(rule, since);
    let last = last_year(rule, latest);
    for back in 0..years_through(first, last) {
        let found = Placed::look(rule, place, years_before(last, back), steps);
        if found.occurrence.is_before(mark) {
            return Some(found);
        }
    }
    None
}

/// The first year in which an occurrence may come later than this one.
fn year_since(last: &Option<Placed<'_>>) -> i32
    ensures value { result ≡ since_of last.now }
    ensures bound { IsYear result }
{
    match last {
        None => FIRST_YEAR,
        Some(last) => last.occurrence.year() - 1,
    }
}

/// The later of the two, where there may be only one.
fn later<'a>(last: Option<Placed<'a>>, found: Placed<'a>) -> Placed<'a>
    ensures { result ≡ later_of last.entry found.entry }
{
    match last {
        None => found,
        Some(last) => {
            if last.occurrence.precedes(&found.occurrence) {
                found
            } else {
                last
            }
        }
    }
}

/// The last occurrence before the mark of the rules from a place on, where that of the rules after it is known.
fn last_with<'a, L: Ledger>(
    last: Option<Placed<'a>>,
    set: &'a RuleSet,
    place: usize,
    latest: i32,
    mark: Mark,
    steps: &mut Steps<L>,
) -> Option<Placed<'a>>
    requires place_in { place < length set.now.rules }
    requires so_far { IsLastFrom set.now mark (place + 1) last }
    requires latest_in { IsYear latest }
    requires latest { IsLatestYear mark.second latest }
    ensures last { IsLastFrom set.now mark place result }
    ensures steps { steps.new ≤ steps.old + 3 }
{
    let rule = &set.rules.as_slice()[place];
    let since = year_since(&last);
    if rule.to < since {
        return last;
    }
    match last_of_rule(rule, place, since, latest, mark, steps) {
        None => last,
        Some(found) => Some(later(last, found)),
    }
}

/// The last occurrence before the mark. Later rules are looked at first, since they mostly have the later years.
pub(crate) fn last_before_mark<'a, L: Ledger>(
    set: &'a RuleSet,
    mark: Mark,
    steps: &mut Steps<L>,
) -> Option<Placed<'a>>
    requires { IsInReach mark.second }
    ensures last { IsLastBefore set.now mark result }
    ensures steps { steps.new ≤ steps.old + 3 * length set.now.rules }
{
    let latest = latest_year(mark.second);
    let mut last = None;
    for back in 0..set.rules.len() {
        let place = set.rules.len() - 1 - back;
        last = last_with(last, set, place, latest, mark, steps);
    }
    last
}

/// The last occurrence whose nominal second is at or before this one.
pub(crate) fn last_by<'a, L: Ledger>(
    set: &'a RuleSet,
    second: i64,
    steps: &mut Steps<L>,
) -> Option<Placed<'a>>
    requires { IsInReach (second +ℤ pos 1) }
    ensures last { IsLastBy set.now second result }
    ensures steps { steps.new ≤ steps.old + 3 * length set.now.rules }
{
    let mark = Mark {
        second: second + 1,
        line: 0,
    };
    last_before_mark(set, mark, steps)
}

/// The occurrence right before this one.
pub(crate) fn last_before<'a, L: Ledger>(
    set: &'a RuleSet,
    occurrence: &Occurrence<'_>,
    steps: &mut Steps<L>,
) -> Option<Placed<'a>>
    ensures last { IsPreviousOf set.now occurrence.now result }
    ensures steps { steps.new ≤ steps.old + 3 * length set.now.rules }
{
    last_before_mark(set, occurrence.mark(), steps)
}

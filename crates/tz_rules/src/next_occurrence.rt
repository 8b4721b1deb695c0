//! What comes first after a mark in the order of occurrences.
ghost use Rattle.std.specs.Prelude.{◌≡◌, ◌+◌, ◌*◌, ◌<◌, ◌≤◌, length};
ghost use Rattle.jiff_core.specs.Calendar.{IsYear};
ghost use Rattle.tz_specs.specs.Standing.{IsOccurrence};
ghost use Rattle.tz_rules.specs.Mark.{IsInReach, IsEarliestYear};
ghost use Rattle.tz_rules.specs.Search.{IsFirstOfRule, IsFirstFrom, IsFirstAfter, IsNextOf, through_of, earlier_of};

use crate::mark::{Mark, earliest_year};
use crate::occurrences::Occurrence;
use crate::placed::Placed;
use crate::years::{LAST_YEAR, first_year, last_year, years_after, years_through};
use std::sync::ledger::Ledger;
use tz_types::{Rule, RuleSet, Steps};

/// The first occurrence of a rule after the mark, of the years up to `through`. `earliest` is the first year in which
/// one may lie there.
pub(crate) fn first_of_rule<'a, L: Ledger>(
    rule: &'a Rule,
    place: usize,
    earliest: i32,
    through: i32,
    mark: Mark,
    steps: &mut Steps<L>,
) -> Option<Placed<'a>>
    requires earliest_in { IsYear earliest }
    requires through_in { IsYear through }
    requires earliest { IsEarliestYear mark.second earliest }
    ensures first { IsFirstOfRule rule.now place through mark result }
    ensures steps { steps.new ≤ steps.old + 3 }
{
    let first = first_year(rule, earliest);
    let last = last_year(rule, through);
    for on in 0..years_through(first, last) {
        let found = Placed::look(rule, place, years_after(first, on), steps);
        if found.occurrence.is_after(mark) {
            return Some(found);
        }
    }
    None
}

/// The last year in which an occurrence may come earlier than this one.
fn year_through(first: &Option<Placed<'_>>) -> i32
    ensures value { result ≡ through_of first.now }
    ensures bound { IsYear result }
{
    match first {
        None => LAST_YEAR,
        Some(first) => first.occurrence.year() + 1,
    }
}

/// The earlier of the two, where there may be only one.
fn earlier<'a>(first: Option<Placed<'a>>, found: Placed<'a>) -> Placed<'a>
    ensures { result ≡ earlier_of first.entry found.entry }
{
    match first {
        None => found,
        Some(first) => {
            if found.occurrence.precedes(&first.occurrence) {
                found
            } else {
                first
            }
        }
    }
}

/// The first occurrence after the mark of the rules from a place on, where that of the rules after it is known.
fn first_with<'a, L: Ledger>(
    first: Option<Placed<'a>>,
    set: &'a RuleSet,
    place: usize,
    earliest: i32,
    mark: Mark,
    steps: &mut Steps<L>,
) -> Option<Placed<'a>>
    requires place_in { place < length set.now.rules }
    requires so_far { IsFirstFrom set.now mark (place + 1) first }
    requires earliest_in { IsYear earliest }
    requires earliest { IsEarliestYear mark.second earliest }
    ensures first { IsFirstFrom set.now mark place result }
    ensures steps { steps.new ≤ steps.old + 3 }
{
    let rule = &set.rules.as_slice()[place];
    if rule.to < earliest {
        return first;
    }
    let through = year_through(&first);
    match first_of_rule(rule, place, earliest, through, mark, steps) {
        None => first,
        Some(found) => Some(earlier(first, found)),
    }
}

/// The first occurrence after the mark. Later rules are looked at first, since rules that are over cost nothing.
pub(crate) fn first_after_mark<'a, L: Ledger>(
    set: &'a RuleSet,
    mark: Mark,
    steps: &mut Steps<L>,
) -> Option<Placed<'a>>
    requires { IsInReach mark.second }
    ensures first { IsFirstAfter set.now mark result }
    ensures steps { steps.new ≤ steps.old + 3 * length set.now.rules }
{
    let earliest = earliest_year(mark.second);
    let mut first = None;
    for back in 0..set.rules.len() {
        let place = set.rules.len() - 1 - back;
        first = first_with(first, set, place, earliest, mark, steps);
    }
    first
}

/// The occurrence right after this one.
pub(crate) fn first_after<'a, L: Ledger>(
    set: &'a RuleSet,
    occurrence: &Occurrence<'_>,
    steps: &mut Steps<L>,
) -> Option<Placed<'a>>
    requires { IsOccurrence set.now occurrence.now }
    ensures first { IsNextOf set.now occurrence.now result }
    ensures steps { steps.new ≤ steps.old + 3 * length set.now.rules }
{
    first_after_mark(set, occurrence.mark(), steps)
}

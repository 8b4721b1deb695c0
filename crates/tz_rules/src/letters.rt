//! The letters that stand for `%s` before any occurrence is in effect: those of the first one with save 0.
ghost use Rattle.std.specs.Prelude.{◌≡◌, ◌+◌, ◌<◌, length, Some, slice_get};
ghost use Rattle.tz_specs.specs.Until.{Rules};
ghost use Rattle.tz_specs.specs.Before.{letters_before};
ghost use Rattle.tz_rules.specs.Letters.{IsFirstOfStandard, IsFirstBelow};

use crate::placed::Placed;
use crate::years::{FIRST_YEAR, LAST_YEAR, first_year, last_year};
use std::marker::Brand;
use std::sync::ledger::{Blank, Ledger};
use tz_types::{Letters, Rule, RuleSet, Steps};

/// The rule at a place of the set.
fn rule_at(set: &RuleSet, place: usize) -> &Rule
    requires { place < length set.now.rules }
    ensures { slice_get set.now.rules place ≡ Some result.now }
{
    &set.rules.as_slice()[place]
}

/// The rule's first occurrence, where its save is 0.
fn first_of_standard<'a, L: Ledger>(
    rule: &'a Rule,
    place: usize,
    steps: &mut Steps<L>,
) -> Option<Placed<'a>>
    ensures { IsFirstOfStandard rule.now place result }
{
    let year = first_year(rule, FIRST_YEAR);
    if rule.save != 0 || year > last_year(rule, LAST_YEAR) {
        return None;
    }
    Some(Placed::look(rule, place, year, steps))
}

/// The first occurrence with save 0 of the rules up to a place, where that of the rules before it is known.
fn first_through<'a, L: Ledger>(
    set: &'a RuleSet,
    place: usize,
    best: Option<Placed<'a>>,
    steps: &mut Steps<L>,
) -> Option<Placed<'a>>
    requires within { place < length set.now.rules }
    requires best { IsFirstBelow set.now place best }
    ensures { IsFirstBelow set.now (place + 1) result }
{
    let found = match first_of_standard(rule_at(set, place), place, steps) {
        None => return best,
        Some(found) => found,
    };
    match best {
        None => Some(found),
        Some(best) => {
            if found.occurrence.precedes(&best.occurrence) {
                Some(found)
            } else {
                Some(best)
            }
        }
    }
}

/// The first occurrence with save 0 of the whole set.
fn first_standard<'a, L: Ledger>(set: &'a RuleSet, steps: &mut Steps<L>) -> Option<Placed<'a>>
    ensures { IsFirstBelow set.now (length set.now.rules) result }
{
    let mut best = None;
    for place in 0..set.rules.len() {
        best = first_through(set, place, best, steps);
    }
    best
}

/// The letters, where nobody asks for the count of steps.
fn letters_uncounted<L: Ledger>(set: &RuleSet, blank: Blank) -> Letters
    requires name { blank.name ≡ L.name }
    requires parts { blank.parts ≡ L.parts }
    requires counts { 0 < blank.parts }
    ensures { result ≡ letters_before (Rules set.now) }
{
    let mut steps = Steps::<L>::new(blank);
    match first_standard(set, &mut steps) {
        Some(found) => found.occurrence.rule().letters.copied(),
        None => Letters::empty(),
    }
}

/// The letters of the first occurrence with save 0, and none where none has save 0. It takes no memory.
pub fn letters_before(set: &RuleSet) -> Letters
    ensures { result ≡ letters_before (Rules set.now) }
{
    letters_uncounted::<Brand>(set, Blank::new(1))
}

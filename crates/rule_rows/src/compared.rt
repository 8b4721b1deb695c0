//! The two searches beside the list of all occurrences of a set.
ghost use Rattle.std.specs.Prelude.{◌≡◌, ◌<◌};
ghost use Rattle.tz_types.specs.Amount.{IsShift};

use crate::rule_year::RuleYear;
use crate::state::state_at;
use std::marker::Brand;
use std::sync::ledger::{Blank, Ledger};
use tz_rules::{Taken, last_at_or_before, next_after, occurrence};
use tz_types::{RuleSet, Steps};

/// All occurrences of a set, in order, and their instants under a standard offset.
#[derive(Clone, Copy)]
pub(crate) struct Listed<'a> {
    pub set: &'a RuleSet,
    pub list: &'a [RuleYear<'a>],
    pub instants: &'a [i64],
}

/// What both searches tell.
pub(crate) type Told = (Option<Taken>, Option<Taken>);

/// The number from 1 of the next change where that one is the state, and 0 where nothing is to come: of those that
/// come soonest the last.
fn next_number(instants: &[i64], state: usize) -> usize {
    let mut next = 0;
    let mut soonest = i64::MAX;
    for (place, instant) in instants.iter().enumerate() {
        if place >= state && *instant <= soonest {
            next = place + 1;
            soonest = *instant;
        }
    }
    next
}

/// Whether the one told is the occurrence with that number, and none is told for 0.
fn is_number(listed: Listed<'_>, told: Option<Taken>, number: usize) -> bool {
    let Some(taken) = told else {
        return number == 0;
    };
    if number == 0 {
        return false;
    }
    let rule = listed.set.rules.as_slice().get(taken.rule as usize);
    let place = number - 1;
    match (rule, listed.list.get(place), listed.instants.get(place)) {
        (Some(rule), Some(wanted), Some(at)) => {
            rule.line == wanted.rule().line
                && occurrence(rule, taken.year) == Some(wanted.nominal())
                && taken.at == *at
        }
        _ => false,
    }
}

/// What both searches tell of an instant.
fn told<L: Ledger>(set: &RuleSet, stdoff: i64, t: i64, blank: Blank) -> Told
    requires stdoff_in { IsShift stdoff }
    requires name { blank.name ≡ L.name }
    requires parts { blank.parts ≡ L.parts }
    requires counts { 0 < blank.parts }
{
    let mut steps = Steps::<L>::new(blank);
    let last = last_at_or_before(set, stdoff, t, &mut steps);
    let next = next_after(set, stdoff, t, &mut steps);
    (last, next)
}

/// The same, where nobody asks for the count of steps.
pub(crate) fn searched(set: &RuleSet, stdoff: i64, t: i64) -> Told
    requires { IsShift stdoff }
{
    told::<Brand>(set, stdoff, t, Blank::new(1))
}

/// Whether both searches tell of an instant what the list says.
pub(crate) fn agree(listed: Listed<'_>, stdoff: i64, t: i64) -> bool
    requires { IsShift stdoff }
{
    let (last, next) = searched(listed.set, stdoff, t);
    let state = state_at(listed.instants, t);
    is_number(listed, last, state) && is_number(listed, next, next_number(listed.instants, state))
}

//! Looks at the rules of a set near a stretch of time, one look a rule and year, in the order of occurrences.
ghost use Rattle.std.specs.Prelude.{◌≡◌, ℕ, ◌+◌, ◌*◌, ◌≤◌, ◌<◌, ◌++◌, ◌<ℤ◌, ◌≤ℤ◌, length, IfOk, OnOk, Some, slice_get};
ghost use Rattle.tz_types.specs.Amount.{IsShift};
ghost use Rattle.tz_specs.specs.Expansion.{first_instant, end_of_time};
ghost use Rattle.tz_specs.specs.State.{instants};
ghost use Rattle.tz_expand.specs.Looks.{looks_of, looks_of_set, looks_count, years_through, IsSpan, AreInOrder, AreLooksNear, IsSaveBefore};
ghost use Rattle.tz_expand.specs.Stretch.{TouchesYears};

use crate::years::Years;
use std::alloc::Global;
use std::sync::ledger::Ledger;
use tz_rules::Occurrence;
use tz_types::{NoMemory, Rule, RuleSet, Steps};

/// Puts the occurrences of a rule that are looked at behind those before them, from its first year on.
fn put_looks<'a, L: Ledger>(
    list: &mut Vec<Occurrence<'a>>,
    rule: &'a Rule,
    near: Years,
    steps: &mut Steps<L>,
) -> Result<(), NoMemory>
    requires { IsSpan near.first near.last }
    ensures looks { OnOk result (list.new.items ≡ list.old.items ++ looks_of near.first near.last rule.now) }
    ensures steps { steps.new ≤ steps.old + looks_count near.first near.last rule.now }
{
    let years = near.of_rule(rule);
    for ahead in 0..years.count() {
        list.push(Occurrence::look(rule, years.ahead(ahead), steps))?;
    }
    Ok(())
}

/// Puts occurrences in their order.
fn sort(list: &mut [Occurrence<'_>])
    ensures { AreInOrder list.old list.new }
{
    list.sort_unstable_by_key(|occurrence| occurrence.key());
}

/// The occurrences of a set that are looked at where these years are near, in order.
fn looks_in_years<'a, L: Ledger>(
    alloc: Global,
    set: &'a RuleSet,
    near: Years,
    steps: &mut Steps<L>,
) -> Result<Vec<Occurrence<'a>>, NoMemory>
    requires { IsSpan near.first near.last }
    ensures looks { IfOk result (λ list. AreInOrder (looks_of_set near.first near.last set.now) list.items) }
    ensures steps { steps.new ≤ steps.old + length set.now.rules * years_through near.first near.last }
{
    let mut list = Vec::new(alloc);
    let rules = set.rules.as_slice();
    for rule in rules {
        put_looks(&mut list, rule, near, steps)?;
    }
    sort(list.as_mut_slice());
    Ok(list)
}

/// The occurrences of a set near the stretch from an instant up to but excluding another, in order. They are enough to
/// tell each change of the stretch, the one before it and the one after it.
pub(crate) fn looks_near<'a, L: Ledger>(
    alloc: Global,
    set: &'a RuleSet,
    from: i64,
    to: i64,
    steps: &mut Steps<L>,
) -> Result<Vec<Occurrence<'a>>, NoMemory>
    requires begins { first_instant ≤ℤ from }
    requires ordered { from <ℤ to }
    requires ends { to ≤ℤ end_of_time }
    ensures looks { IfOk result (λ list. AreLooksNear set.now from to list.items) }
    ensures steps { (years : ℕ) → TouchesYears from to years → steps.new ≤ steps.old + length set.now.rules * (years + 12) }
{
    looks_in_years(alloc, set, Years::near(from, to), steps)
}

/// The instant at which the occurrence at a place comes where the one before it in the list has put its save in force,
/// and none is in force before the first.
pub(crate) fn instant_at(list: &[Occurrence<'_>], stdoff: i64, place: usize) -> i64
    requires place_in { place < length list.now }
    requires stdoff_in { IsShift stdoff }
    ensures { slice_get (instants stdoff list.now) place ≡ Some result }
{
    list[place].instant_after(stdoff, save_before(list, place))
}

/// The save that the occurrence before a place puts in force, and 0 before the first.
fn save_before(list: &[Occurrence<'_>], place: usize) -> i64
    requires { place < length list.now }
    ensures value { IsSaveBefore list.now place result }
    ensures bound { IsShift result }
{
    if place == 0 {
        0
    } else {
        list[place - 1].save()
    }
}

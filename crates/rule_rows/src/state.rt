//! When the occurrences of a list take effect, and which of them has at an instant.
ghost use Rattle.std.specs.Prelude.{◌≡◌, ◌≤◌, ◌++◌, pos, ◌-ℤ◌, List, ◌∷◌, ℤ, length, neg_ℤ, IfOk};
ghost use Rattle.jiff_core.specs.Calendar.{IsBetween};
ghost use Rattle.std.specs.List.{All};
ghost use Rattle.tz_types.specs.declared.limit.TheConstants.{LONGEST_OFFSET};
ghost use Rattle.tz_types.specs.Amount.{IsShift};
ghost use Rattle.tz_specs.specs.Occurrence.{Occurrence, nominal_of};
ghost use Rattle.tz_specs.specs.State.{shift, instants, instants_from, state_at};

use crate::rule_year::RuleYear;
use std::alloc::Global;
use tz_types::{AtKind, NoMemory};

/// How many seconds the clock that a time is read from is ahead of universal time.
fn shift_of(kind: AtKind, stdoff: i64, save: i64) -> i64
    requires stdoff_in { IsShift stdoff }
    requires save_in { IsShift save }
    ensures value { result ≡ shift kind stdoff save }
    ensures bound { IsBetween (neg_ℤ (pos LONGEST_OFFSET)) (pos LONGEST_OFFSET) result }
{
    match kind {
        AtKind::Universal => 0,
        AtKind::Standard => stdoff,
        AtKind::Wall => stdoff + save,
    }
}

/// When an occurrence takes effect where that save is in force before it.
fn instant_of(occurrence: &RuleYear<'_>, stdoff: i64, save: i64) -> i64
    requires stdoff_in { IsShift stdoff }
    requires save_in { IsShift save }
    ensures { result ≡ nominal_of occurrence.now -ℤ shift occurrence.now.rule.moment.kind stdoff save }
{
    let kind = occurrence.rule().moment.kind;
    occurrence.nominal() - shift_of(kind, stdoff, save)
}

/// The save that an occurrence puts in force.
fn save_of(occurrence: &RuleYear<'_>) -> i64
    ensures value { result ≡ occurrence.now.rule.save }
    ensures bound { IsShift result }
{
    occurrence.rule().save
}

/// The instants at which the occurrences take effect, in their order.
pub fn instants(alloc: Global, stdoff: i64, list: &[RuleYear<'_>]) -> Result<Vec<i64>, NoMemory>
    requires { IsShift stdoff }
    ensures { IfOk result (λ told. told.items ≡ instants stdoff list.now) }
{
    let mut instants = Vec::new(alloc);
    let mut save = 0;
    for occurrence in list {
        instants.push(instant_of(occurrence, stdoff, save))?;
        save = save_of(occurrence);
    }
    Ok(instants)
}

/// The greatest number from 1 on whose instant is at or before `t`, and 0 where there is none.
pub fn state_at(instants: &[i64], t: i64) -> usize
    ensures value { result ≡ state_at instants.now t }
    ensures bound { result ≤ length instants.now }
{
    for back in 0..instants.len() {
        let number = instants.len() - back;
        if instants[number - 1] <= t {
            return number;
        }
    }
    0
}

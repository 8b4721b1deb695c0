//! The moves nearest to an instant, in seconds from 1970-01-01 00:00:00.
ghost use Rattle.std.specs.Prelude.{◌≡◌, ℤ, pos, ◌+ℤ◌, ◌↔◌, ◌+◌, ◌*◌, ◌≤◌, ◌≤ℤ◌, ◌<ℤ◌, length, None, IfSome};
ghost use Rattle.tz_specs.specs.Expansion.{IsInstant};
ghost use Rattle.tz_specs.specs.RulesFollowed.{most_rules_followed};
ghost use Rattle.tz_expand.specs.Compiled.{periods};
ghost use Rattle.tz_expand.specs.Stretch.{ranges_between};
ghost use Rattle.tz_moves.specs.Moves.{IsMove, IsNextMove, IsPreviousMove, begin_with, end_with};

use crate::range::{range_at, runs_alike};
use std::sync::ledger::Ledger;
use tz_expand::CompiledZone;
use tz_types::{END_OF_TIME, FIRST_INSTANT, Steps};

/// The least move of the zone's clock after the instant `t`, and None exactly where there is none. It takes no
/// memory, and few rule steps for each range from that of `t` to that which begins with the move, or to the last.
pub fn next_move<L: Ledger>(zone: &CompiledZone, t: i64, steps: &mut Steps<L>) -> Option<i64>
    requires { IsInstant t }
    ensures at { IfSome result (λ at. IsNextMove zone.now t at) }
    ensures none { (result ≡ None) ↔ ((other : ℤ) → IsMove zone.now other → other ≤ℤ t) }
    ensures steps { let rules = most_rules_followed (periods zone.now.lines) in
        let ranges = length (ranges_between zone.now t (end_with result)) in
        steps.new ≤ steps.old + ranges * (16 * (rules * (rules + 2))) }
{
    let mut before = range_at(zone, t, steps);
    while before.end < END_OF_TIME {
        let range = range_at(zone, before.end, steps);
        if !runs_alike(&before, &range) {
            return Some(range.begin);
        }
        before = range;
    }
    None
}

/// The greatest move of the zone's clock at or before the instant `t`, and None exactly where there is none. It takes
/// no memory, and few rule steps for each range from that before the move, or from the first, to that of `t`.
pub fn previous_move<L: Ledger>(zone: &CompiledZone, t: i64, steps: &mut Steps<L>) -> Option<i64>
    requires { IsInstant t }
    ensures at { IfSome result (λ at. IsPreviousMove zone.now t at) }
    ensures none { (result ≡ None) ↔ ((other : ℤ) → IsMove zone.now other → t <ℤ other) }
    ensures steps { let rules = most_rules_followed (periods zone.now.lines) in
        let ranges = length (ranges_between zone.now (begin_with result) (t +ℤ pos 1)) in
        steps.new ≤ steps.old + ranges * (16 * (rules * (rules + 2))) }
{
    let mut range = range_at(zone, t, steps);
    while range.begin > FIRST_INSTANT {
        let before = range_at(zone, range.begin - 1, steps);
        if !runs_alike(&before, &range) {
            return Some(range.begin);
        }
        range = before;
    }
    None
}

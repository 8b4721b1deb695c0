//! Ranges one after another.
ghost use Rattle.std.specs.Prelude.{◌≡◌, ◌+◌, ◌*◌, ◌≤◌, ◌≤ℤ◌, ◌<ℤ◌, Some};
ghost use Rattle.jiff_core.specs.Calendar.{IsWithin};
ghost use Rattle.tz_types.specs.declared.limit.TheConstants.{LONGEST_OFFSET};
ghost use Rattle.tz_specs.specs.Expansion.{IsInstant, range_at};
ghost use Rattle.tz_specs.specs.RulesFollowed.{most_rules_followed};
ghost use Rattle.tz_expand.specs.Compiled.{periods};
ghost use Rattle.tz_expand.specs.Zone.{expansion_of};
ghost use Rattle.tz_moves.specs.Moves.{runs_alike, IsInTime};

use std::sync::ledger::Ledger;
use tz_expand::{CompiledZone, info_at};
use tz_types::{Steps, SysInfo};

/// The clock runs alike in two ranges: a look at it can't tell them apart.
pub(crate) fn runs_alike(before: &SysInfo, range: &SysInfo) -> bool
    ensures { result ≡ runs_alike before.now range.now }
{
    before.offset == range.offset && before.save == range.save && before.abbrev == range.abbrev
}

/// The range that holds an instant in time.
pub(crate) fn range_at<L: Ledger>(zone: &CompiledZone, t: i64, steps: &mut Steps<L>) -> SysInfo
    requires { IsInstant t }
    ensures range { range_at (expansion_of zone.now) t ≡ Some result }
    ensures near { IsWithin LONGEST_OFFSET result.offset }
    ensures in_time { IsInTime result }
    ensures holds { (result.begin ≤ℤ t) × (t <ℤ result.end) }
    ensures steps { let rules = most_rules_followed (periods zone.now.lines) in
        steps.new ≤ steps.old + 16 * (rules * (rules + 2)) }
{
    match info_at(zone, t, steps) {
        Some(range) => range,
        None => unreachable!(),
    }
}

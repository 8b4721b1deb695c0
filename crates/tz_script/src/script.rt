//! Scripts: rounds of operations in lanes.
ghost use Rattle.std.specs.Prelude.{◌≤◌, Some};
ghost use Rattle.tz_script.specs.Inside.{change_count, IsOrderly, RoundsDontFall};
ghost use Rattle.tz_script.specs.Keeping.{KeepsHolds};
ghost use Rattle.tz_script.specs.declared.limit.TheConstants.{MOST_ROUNDS, MOST_CHANGES};
ghost use Rattle.std.proofs.Props.{props};
ghost use Rattle.tz_script.specs.Size.{AreSized};

use crate::operation::Operation;
use tz_types::Items;

/// A script: how many lanes it has, at most 16, how many rounds, at most 1,024, and its operations in the order of their
/// lines, at most 65,536, of which at most 4,096 are reloads or erasures. Each operation has a lane and a round from 1
/// on, and rounds don't fall from one operation to the next. In each round each lane begins without an open hold, may do
/// what it does, and ends without one.
#[derive(Debug, Drop)]
pub struct Script {
    pub lanes: u32,
    pub rounds: u32,
    pub operations: Items<Operation>,
    pub ghost few_rounds: { rounds ≤ MOST_ROUNDS },
    pub ghost few_changes: { change_count operations ≤ MOST_CHANGES },
    pub ghost sound: { IsOrderly (Some lanes) rounds operations },
    pub ghost sized: { AreSized operations } by { Prim.hlevel props },
    pub ghost in_rounds: { RoundsDontFall operations },
    pub ghost holds_kept: { KeepsHolds operations } by { Prim.hlevel props },
}

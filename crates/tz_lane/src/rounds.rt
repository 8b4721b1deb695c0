//! The operations of one round of a script.
ghost use Rattle.std.specs.Prelude.{◌≡◌, ℕ, ◌<◌, ◌≤◌, nat_lt, length, take, drop, All};
ghost use Rattle.tz_script.specs.Inside.{RoundsDontFall};
ghost use Rattle.tz_script.specs.declared.limit.TheConstants.{MOST_ROUNDS};
ghost use Rattle.tz_script.specs.declared.operation.Operation.{Operation as DeclaredOperation};
ghost use Rattle.tz_lane.specs.Lane.{lane_operations, round_operations};
ghost use Rattle.tz_lane.specs.Parts.{StandTogether};

use tz_script::{Operation, Script};

/// How many of the operations stand in rounds before this one. They are the first so many.
fn count_before(operations: &[Operation], round: u32) -> usize
    requires { RoundsDontFall operations.now }
    ensures bound { result ≤ length operations.now }
    ensures earlier { All (λ (operation : DeclaredOperation). operation.round < round) (take result operations.now) }
    ensures others { All (λ (operation : DeclaredOperation). round ≤ operation.round) (drop result operations.now) }
{
    operations.partition_point(
        |operation: &Operation| -> bool
            ensures { result ≡ nat_lt operation.now.round round }
        { operation.round < round },
    )
}

/// The operations of a round, which stand together in the script. It takes two searches, whatever the script's length.
pub fn operations_in(script: &Script, round: u32) -> &[Operation]
    requires { round ≤ MOST_ROUNDS }
    ensures is { result.now ≡ round_operations round script.now.operations }
    ensures part { StandTogether script.now.operations result.now }
    ensures whole { (lane : ℕ) → lane_operations lane round result.now ≡ lane_operations lane round script.now.operations }
{
    let all = script.operations.as_slice();
    let rest = &all[count_before(all, round)..];
    &rest[..count_before(rest, round + 1)]
}

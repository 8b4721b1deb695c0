//! What rounds of lanes come to together.
ghost use Rattle.std.specs.Prelude.{ℕ};
ghost use Rattle.pin_core.specs.declared.view.View.{View};
ghost use Rattle.pin_table.specs.declared.sitting.Plan.{Plan};
ghost use Rattle.tz_batch.specs.Batch.{Batch};
ghost use Rattle.tz_batch.specs.Positions.{PositionsCountWrites};
ghost use Rattle.tz_batch.specs.Run.{IsRunOf};
ghost use Rattle.tz_rounds.specs.Rounds.{RanRounds};
ghost use Rattle.tz_version.specs.Release.{Release};

/// A batch whose rounds were run lane by lane, each lane by a reader of its own, is a run.
pub fn rounds_make_a_run()
    ensures { (plan : Plan Release) (batch : Batch) (rounds : ℕ) (main : View) → RanRounds plan batch rounds main → IsRunOf batch }
{}

/// With one lane each position is how many writes the replies up to that one tell of.
pub fn rounds_of_one_lane_count_writes()
    ensures { (plan : Plan Release) (batch : Batch) (rounds : ℕ) (main : View) → RanRounds plan batch rounds main → PositionsCountWrites batch.lanes batch.outcome.replies }
{}

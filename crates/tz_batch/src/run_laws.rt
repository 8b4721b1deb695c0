//! What follows of any run, and two outcomes that show what sets runs of several lanes apart.
ghost use Rattle.std.specs.Prelude.{◌≡◌, ℕ, ◌+◌, ◌-◌, ◌<◌, ◌≤◌, length};
ghost use Rattle.tz_script.specs.declared.operation.Operation.{Operation as DeclaredOperation};
ghost use Rattle.tz_script.specs.declared.script.Script.{Script as DeclaredScript};
ghost use Rattle.tz_version.specs.declared.sources.Sources.{Sources as DeclaredSources};
ghost use Rattle.pin_book.specs.Pushes.{pushes};
ghost use Rattle.tz_batch.specs.Answering.{IsAccepted};
ghost use Rattle.tz_batch.specs.Batch.{name_of_source};
ghost use Rattle.tz_batch.specs.Laws.{IsReplied, batch_of, writes_between, WasFrontInRound, IsTaken, looks_around, looks_turned};
ghost use Rattle.tz_batch.specs.PassedOver.{IsHeldSlot};
ghost use Rattle.tz_batch.specs.Round.{list_at};
ghost use Rattle.tz_batch.specs.Run.{EachInTurn, IsRun, IsRunOf};
ghost use Rattle.tz_batch.specs.declared.answer.Answer.TheVariants as answers;
ghost use Rattle.tz_batch.specs.declared.outcome.Outcome.{Outcome as DeclaredOutcome};
ghost use Rattle.tz_batch.specs.declared.reply.Reply.{Reply as DeclaredReply};

/// Of two replies to operations of one lane in one round the later one's position isn't below the other's.
pub fn positions_of_a_lane_dont_fall()
    ensures { (script : DeclaredScript) (sources : DeclaredSources) (slots : ℕ) (outcome : DeclaredOutcome) (i j : ℕ) (p q : DeclaredOperation) (x y : DeclaredReply) → IsRun script sources slots outcome → i < j → IsReplied script outcome i p x → IsReplied script outcome j q y → p.lane ≡ q.lane → p.round ≡ q.round → x.w ≤ y.w }
{}

/// No position of a round is below one of an earlier round, whichever lanes they are of.
pub fn positions_dont_fall_between_rounds()
    ensures { (script : DeclaredScript) (sources : DeclaredSources) (slots : ℕ) (outcome : DeclaredOutcome) (i j : ℕ) (p q : DeclaredOperation) (x y : DeclaredReply) → IsRun script sources slots outcome → IsReplied script outcome i p x → IsReplied script outcome j q y → p.round < q.round → x.w ≤ y.w }
{}

/// The slot of a hold that is open was the front's at a position of its round. So what one lane passes over for a hold,
/// several lanes might.
pub fn held_slots_were_the_fronts()
    ensures { (script : DeclaredScript) (sources : DeclaredSources) (slots : ℕ) (outcome : DeclaredOutcome) → IsRun script sources slots outcome → EachInTurn (batch_of script sources slots outcome) (λ round before here. (slot : ℕ) → IsHeldSlot round before here.operation slot → WasFrontInRound round slot) }
{}

/// With several lanes a list is full only where its slots aren't more than the versions that were listed as the round
/// began and those that were pushed in it so far.
pub fn a_full_list_has_few_slots()
    ensures { (script : DeclaredScript) (sources : DeclaredSources) (slots : ℕ) (outcome : DeclaredOutcome) → IsRun script sources slots outcome → ¬ (script.lanes ≡ 1) → EachInTurn (batch_of script sources slots outcome) (λ round before here. here.reply.answer ≡ answers.Full → slots ≤ length (list_at round round.start).listed + length (pushes (writes_between round.start here.reply.w outcome.journal))) }
{}

/// While one lane pushes, another may meet the list before the push, though its reply is printed later. No run of one
/// lane is so.
pub fn lanes_run_beside_each_other()
    ensures two_lanes { (sources : DeclaredSources) → IsAccepted sources 1 → ¬ (name_of_source sources 0 ≡ name_of_source sources 1) → IsRunOf (looks_around sources 2 2) }
    ensures one_lane { (sources : DeclaredSources) → ¬ (IsRunOf (looks_around sources 1 1)) }
{}

/// A lane that has met the push doesn't meet an older list later on in the round.
pub fn a_lane_never_looks_back()
    ensures { (sources : DeclaredSources) → ¬ (IsRunOf (looks_turned sources 2 2)) }
{}

/// With one lane a reload of another name is answered that the list is full exactly where each slot is listed or has an
/// open hold: then it is, and a push has met the list otherwise.
pub fn one_lane_is_full_where_no_slot_is_left()
    ensures full { (script : DeclaredScript) (sources : DeclaredSources) (slots : ℕ) (outcome : DeclaredOutcome) → IsRun script sources slots outcome → script.lanes ≡ 1 → EachInTurn (batch_of script sources slots outcome) (λ round before here. here.reply.answer ≡ answers.Full → IsTaken round before here.operation here.reply.w) }
    ensures pushed { (script : DeclaredScript) (sources : DeclaredSources) (slots : ℕ) (outcome : DeclaredOutcome) → IsRun script sources slots outcome → script.lanes ≡ 1 → EachInTurn (batch_of script sources slots outcome) (λ round before here. (n slot : ℕ) → here.reply.answer ≡ answers.Pushed n slot → ¬ (IsTaken round before here.operation (here.reply.w - 1))) }
{}

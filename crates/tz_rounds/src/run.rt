//! Whole runs of scripts.
ghost use Rattle.std.specs.Prelude.{◌≡◌, ◌≤◌, ◌↔◌, [], length, max, Err, IfOk, OnOk};
ghost use Rattle.tz_types.specs.declared.fault.Fault.{Fault};
ghost use Rattle.tz_script.specs.Inside.{change_count};
ghost use Rattle.tz_script.specs.Keeping.{KeepsSources};
ghost use Rattle.tz_script.specs.declared.limit.TheConstants.{MOST_ROUNDS};
ghost use Rattle.tz_version.specs.Refusal.{RefusesLeapText, RefusesSource};
ghost use Rattle.pin_book.specs.Book.{IsBook};
ghost use Rattle.pin_book.specs.declared.limits.TheConstants.{FEWEST_SLOTS, MOST_SLOTS};
ghost use Rattle.pin_table.specs.Main.{main_view};
ghost use Rattle.pin_table.specs.Table.{plan, IsMainOf};
ghost use Rattle.tz_batch.specs.Positions.{PositionsCountWrites};
ghost use Rattle.tz_batch.specs.Run.{IsRun};
ghost use Rattle.tz_lane.specs.Lane.{round_operations};
ghost use Rattle.tz_list.specs.Opening.{IsOpened};
ghost use Rattle.tz_rounds.specs.RoundRun.{HasRunRound, HasRunRounds};
ghost use Rattle.tz_rounds.specs.Sending.{HasNumbers};
ghost use Rattle.pin_core.specs.Step.{main_at_first};

use crate::joining::take_back;
use crate::merging::merge;
use crate::running::run_jobs;
use crate::sending::send_out;
use pin_book::Book;
use std::alloc::Global;
use std::sync::Wait;
use std::thread::Threads;
use tz_batch::{Outcome, Reply};
use tz_lane::{Gate, operations_in};
use tz_list::{ListMain, OpenError, TzdbList};
use tz_script::Script;
use tz_types::{Items, NoMemory, Shared};
use tz_version::{MakeError, Sources};

/// Runs a round: sends a reader out for each lane, lets each run its lane in a thread of its own, and joins them. The replies
/// go behind those of earlier rounds, in the order of the script. `NoMemory` may come at any time; readers may be lost then.
fn run_round<R: Threads + Wait + Sync, G: Gate>(
    rt: &R,
    alloc: Global,
    list: &TzdbList,
    main: &mut ListMain,
    script: &Script,
    round: u32,
    gate: &G,
    replies: &mut Vec<Reply>,
) -> Result<(), NoMemory>
    requires own { IsMainOf list.now.table main.old }
    requires lanes { (plan list.now.table).readers ≡ script.now.lanes }
    requires round { round ≤ MOST_ROUNDS }
    requires sources { KeepsSources (length list.now.sources.texts) script.now.operations }
    requires numbers { HasNumbers 0 script.now.lanes (main_view main.old) }
    requires room { change_count (round_operations round script.now.operations) ≤ (main_view main.old).allowance }
    ensures own { IsMainOf list.now.table main.new }
    ensures ran { OnOk result (HasRunRound (plan list.now.table) list.now.sources round (round_operations round script.now.operations) (main_view main.old) (main_view main.new) replies.old.items replies.new.items) }
{
    let operations = operations_in(script, round);
    let jobs = send_out(alloc, list.table(), main, script.lanes, operations)?;
    let runs = run_jobs(rt, alloc, list, script, round, gate, jobs)?;
    let parts = take_back(alloc, list.table(), main, runs)?;
    merge(operations, parts, replies)
}

/// Runs the rounds of a script one after another, and returns one reply per operation, in order. `NoMemory` may come at any
/// time.
fn run_rounds<R: Threads + Wait + Sync, G: Gate>(
    rt: &R,
    alloc: Global,
    list: &TzdbList,
    main: &mut ListMain,
    script: &Script,
    gate: &G,
) -> Result<Vec<Reply>, NoMemory>
    requires own { IsMainOf list.now.table main.old }
    requires lanes { (plan list.now.table).readers ≡ script.now.lanes }
    requires sources { KeepsSources (length list.now.sources.texts) script.now.operations }
    requires numbers { HasNumbers 0 script.now.lanes (main_view main.old) }
    requires seen { (main_view main.old).seen ≡ [] }
    requires written { (main_view main.old).own ≡ [] }
    requires room { change_count script.now.operations ≤ (main_view main.old).allowance }
    ensures own { IsMainOf list.now.table main.new }
    ensures numbers { IfOk result (λ replies. HasNumbers 0 script.now.lanes (main_view main.new)) }
    ensures ran { IfOk result (λ replies. HasRunRounds (plan list.now.table) list.now.sources script.now.rounds script.now.operations replies.items (main_view main.new)) }
{
    let mut replies = Vec::with_capacity(alloc, script.operations.len())?;
    for earlier in 0..script.rounds {
        run_round(
            rt,
            alloc,
            list,
            main,
            script,
            earlier + 1,
            gate,
            &mut replies,
        )?;
    }
    Ok(replies)
}

/// How many writes a script may make, its reloads and erasures, and at least 1.
fn room_of(script: &Script) -> u32
    ensures { result ≡ max (change_count script.now.operations) 1 }
{
    let operations = script.operations.as_slice();
    let changes = operations
        .iter()
        .filter(|operation| operation.op.is_change())
        .count();
    (changes as u32).max(1)
}

/// The outcome: the writes of a book, and the replies.
fn outcome_of(alloc: Global, book: &Book, replies: Vec<Reply>) -> Result<Outcome, NoMemory>
    ensures outcome { IfOk result (λ outcome. outcome ≡ record { journal = book.now.journal; replies = replies.items }) }
    ensures book { IsBook book.now }
{
    let journal = book.entries().to_vec(alloc)?;
    Ok(Outcome {
        journal: Items::from_vec(journal),
        replies: Items::from_vec(replies),
    })
}

/// Runs a script over a list that was opened for it, and closes the list.
fn run_on<R: Threads + Wait + Sync, G: Gate>(
    rt: &R,
    alloc: Global,
    list: TzdbList,
    mut main: ListMain,
    script: &Script,
    gate: &G,
) -> Result<Outcome, NoMemory>
    requires own { IsMainOf list.table main }
    requires lanes { (plan list.table).readers ≡ script.now.lanes }
    requires sources { KeepsSources (length list.sources.texts) script.now.operations }
    requires knows { main_view main ≡ main_at_first script.now.lanes (plan list.table).room }
    requires room { change_count script.now.operations ≤ (plan list.table).room }
    ensures run { IfOk result (λ outcome. IsRun script.now list.sources (plan list.table).slots outcome) }
    ensures positions { IfOk result (λ outcome. PositionsCountWrites script.now.lanes outcome.replies) }
{
    let replies = run_rounds(rt, alloc, &list, &mut main, script, gate)?;
    let book = list.close(main);
    outcome_of(alloc, &book, replies)
}

/// Runs a script over these sources, in a list of so many slots that begins with the version of the first source. In each
/// round every lane runs in a thread of its own, over the one list that they share; the next round begins once all lanes of
/// it are done. Before each operation the gate is passed. With one lane each operation is done before the next one, so that
/// a position is how many writes the replies up to it tell of.
///
/// `NoMemory` may come at any time. Memory aside, `Leaps` comes exactly where the leap text is refused, with its fault, and
/// `Text` exactly where the leap text is accepted and the first source refused, with the source's. A source that is refused
/// later on is a reply.
pub fn run_script<R: Threads + Wait + Sync, G: Gate>(
    rt: &R,
    alloc: Global,
    script: &Script,
    sources: &Shared<Sources>,
    slots: u32,
    gate: &G,
) -> Result<Outcome, OpenError>
    requires slots { (FEWEST_SLOTS ≤ slots) × (slots ≤ MOST_SLOTS) }
    requires sources { KeepsSources (length sources.now.texts) script.now.operations }
    ensures run { IfOk result (λ outcome. IsRun script.now sources.now slots outcome) }
    ensures positions { IfOk result (λ outcome. PositionsCountWrites script.now.lanes outcome.replies) }
    ensures leaps { (fault : Fault) → ¬ (result ≡ Err MakeError.NoMemory) → (result ≡ Err (MakeError.Leaps fault)) ↔ RefusesLeapText sources.now.leaps fault }
    ensures text { (fault : Fault) → ¬ (result ≡ Err MakeError.NoMemory) → (result ≡ Err (MakeError.Text fault)) ↔ RefusesSource sources.now 0 fault }
{
    let Ok(shared) = sources.share() else {
        return Err(MakeError::NoMemory);
    };
    match TzdbList::open(alloc, shared, slots, script.lanes, room_of(script)) {
        Ok((list, main)) => match run_on(rt, alloc, list, main, script, gate) {
            Ok(outcome) => Ok(outcome),
            Err(_) => Err(MakeError::NoMemory),
        },
        Err(error) => Err(error),
    }
}

//! The top call: every command, `batch` among them.
ghost use Rattle.std.specs.Prelude.{◌≡◌, ◌⊎◌, ℕ, List};
ghost use Rattle.std.specs.List.{AllZip, Any};
ghost use Rattle.tz_io.specs.Files.{FileFailed};
ghost use Rattle.tz_io.specs.Sink.{with_bytes, SinkFailed};
ghost use Rattle.tz_batch.specs.OutcomeText.{outcome_text};
ghost use Rattle.tz_batch.specs.declared.outcome.Outcome.{Outcome};
ghost use Rattle.tz_cli.specs.Answer.{IsAnswer};
ghost use Rattle.tz_words.specs.BatchCommand.{BatchCommand, IsBatchCommand};
ghost use Rattle.tz_words.specs.Command.{Command, IsCommand, IsNoCommand, words_of, files_of};
ghost use Rattle.tz_cli.specs.Outcome.{Holds, Prints};
ghost use Rattle.tz_words.specs.declared.status.Status.{Status as DeclaredStatus};
ghost use Rattle.tz_top.specs.Groups.{HoldsGroups, AnyFailed};
ghost use Rattle.tz_top.specs.BatchTexts.{file_groups};
ghost use Rattle.tz_top.specs.BatchAnswer.{IsBatchAnswer, IsAcceptedBatch};
ghost use Rattle.tz_top.specs.Due.{IsOutcomeOf, IsDueOfAny};

use crate::batch::run_batch;
use std::alloc::Global;
use std::sync::Wait;
use std::thread::Threads;
use tz_cli::{Plain, run_plain};
use tz_io::{Files, Sink};
use tz_lane::Gate;
use tz_words::{BatchLine, Status};

/// Does a whole command, any that `run_plain` does or `batch`, and answers its status. `batch SCRIPT SLOTS LEAPS TEXT..`
/// runs the script over a list of so many slots, with the version of the first text in it, and prints the outcome at
/// `Ok`, else the line of the refusal. At `Write` a part of that was taken. Before each operation of the script the gate
/// is passed.
pub fn run<F: Files, S: Sink, G: Gate>(
    rt: &(impl Threads + Wait + Sync),
    alloc: Global,
    words: &[String],
    files: &mut F,
    sink: &mut S,
    gate: &G,
) -> Status
    // 0 for `batch`: the sink has what it had and then the text of an outcome that a run of the script may give, over the
    // sources of the texts named, by the contents of the files.
    ensures batch { (batch : BatchCommand) → IsBatchCommand (words_of words.now) batch → result ≡ Status.Ok →
        (outcome : Outcome) × IsOutcomeOf batch (F.state files.old) outcome
        × (S.state sink.new ≡ with_bytes (S.state sink.old) (outcome_text outcome)) }

    // At every status but 6, all that was printed is the line that is due at it: 4 has its reason in the script, 3 in the
    // batch's leap text or first text, or in the text of another command, 0, 8, 9, 10, 14 and 15 in the text, 11 in the
    // size of the files, 5 in a fault of the next file that was counted in this call. At 6 a part of a line that is due
    // was printed, and then a fault of the sink or a stall was counted.
    ensures due { Prints (IsDueOfAny (words_of words.now) (F.state files.old) (F.state files.new)) result
        (S.state sink.old) (S.state sink.new) }

    // 2: exactly where the words match no form, and want of memory never hides it: only the sink may.
    ensures usage { result ≡ Status.Usage → IsNoCommand (words_of words.now) }
    ensures no_command { IsNoCommand (words_of words.now) → (result ≡ Status.Usage) ⊎ (result ≡ Status.Write) }

    // Where no fault and no stall was counted, an answer of `batch` over the contents has its status, but for want of
    // memory.
    ensures exact_batch { (batch : BatchCommand) (contents : List (List (List ℕ))) (status : DeclaredStatus) (line : List ℕ) →
        IsBatchCommand (words_of words.now) batch → HoldsGroups (F.state files.old) (file_groups batch) contents →
        IsBatchAnswer batch contents status line →
        ¬ (AnyFailed (F.state files.old) (F.state files.new) (file_groups batch)) →
        ¬ (SinkFailed (S.state sink.old) (S.state sink.new)) →
        (result ≡ status) ⊎ (result ≡ Status.Memory) }
    // There a batch whose script is read, and of whose first text a version is made, has the status 0.
    ensures complete { (batch : BatchCommand) (contents : List (List (List ℕ))) →
        IsBatchCommand (words_of words.now) batch → HoldsGroups (F.state files.old) (file_groups batch) contents →
        IsAcceptedBatch batch contents →
        ¬ (AnyFailed (F.state files.old) (F.state files.new) (file_groups batch)) →
        ¬ (SinkFailed (S.state sink.old) (S.state sink.new)) →
        (result ≡ Status.Ok) ⊎ (result ≡ Status.Memory) }
    // There an answer of any other command has its status, with the same exception.
    ensures exact { (command : Command) (contents : List (List ℕ)) (status : DeclaredStatus) (line : List ℕ) →
        IsCommand (words_of words.now) command → AllZip (Holds (F.state files.old)) (files_of command) contents →
        IsAnswer command contents status line →
        ¬ (Any (FileFailed (F.state files.old) (F.state files.new)) (files_of command)) →
        ¬ (SinkFailed (S.state sink.old) (S.state sink.new)) →
        (result ≡ status) ⊎ (result ≡ Status.Memory) }

    // The files hold what they held.
    ensures kept { (F.state files.new).contents ≡ (F.state files.old).contents }
{
    match run_plain(rt, alloc, words, files, sink) {
        Plain::Done(status) => status,
        Plain::Shared => match BatchLine::new(words) {
            Some(line) => run_batch(rt, alloc, line, files, sink, gate),
            // `run_plain` leaves no other words.
            None => unreachable!(),
        },
    }
}

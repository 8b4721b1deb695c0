//! Every command but `batch`: from its words over the contents of its files to what it prints.
ghost use Rattle.std.specs.Prelude.{◌≡◌, ◌≢◌, ◌⊎◌, ◌≤◌, ◌↔◌, ℕ, List, length, IfOk};
ghost use Rattle.std.specs.List.{AllZip, Any, concat};
ghost use Rattle.tz_types.specs.declared.limit.TheConstants.{MOST_BYTES};
ghost use Rattle.tz_types.specs.Source.{bytes_together};
ghost use Rattle.tz_io.specs.Files.{FileFailed};
ghost use Rattle.tz_io.specs.Sink.{SinkFailed};
ghost use Rattle.tz_words.specs.BatchCommand.{BatchCommand, IsBatchCommand};
ghost use Rattle.tz_words.specs.Command.{Command, IsCommand, IsNoCommand, words_of, files_of, meant};
ghost use Rattle.tz_cli.specs.Answer.{TextAnswers, IsAnswer, comes_in_pieces};
ghost use Rattle.tz_cli.specs.Outcome.{Holds, IsDueFor, IsDue, Prints};
ghost use Rattle.tz_cli.specs.Output.{GivesOutput, as_output, is_in_pieces};
ghost use Rattle.tz_words.specs.declared.status.Status.{Status};

use crate::check::check;
use crate::days::days;
use crate::file_contents::contents_of;
use crate::lookup::{clock, info, local};
use crate::moves::moves;
use crate::output::{Output, print_output};
use crate::printout::{print, print_refusal};
use crate::refusal::Refusal;
use crate::tzif::tzif;
use crate::zones::dump;
use std::alloc::Global;
use std::thread::Threads;
use tz_io::{Files, Sink};
use tz_types::{Items, Text};
use tz_words::{BatchLine, CommandLine, Status, command_of};

/// What `run_plain` did: nothing, since the words are those of `batch`, or all of the command.
#[derive(Clone, Copy, Debug, PartialEq, Eq, Hash)]
pub enum Plain {
    Shared,
    Done(Status),
}

/// What was made whole, a line, lines or a file, or its refusal.
fn line(outcome: Result<Vec<u8>, Refusal>) -> Result<Output, Refusal>
    ensures { result ≡ as_output outcome }
{
    match outcome {
        Ok(line) => Ok(Output::Line(line)),
        Err(refusal) => Err(refusal),
    }
}

/// What a command comes to over the contents of its files.
fn answer_over(
    alloc: Global,
    command: CommandLine<'_>,
    contents: Items<Text>,
) -> Result<Output, Refusal>
    requires each { length contents ≡ length (files_of (meant command)) }
    requires few_bytes { bytes_together contents ≤ MOST_BYTES }
    ensures answers { GivesOutput (TextAnswers (meant command.entry) contents) result }
    ensures pieces { IfOk result (λ output. is_in_pieces output ≡ comes_in_pieces (meant command.entry)) }
{
    match command {
        CommandLine::Info {
            text,
            zone,
            instant,
        } => info(alloc, &text.source(contents), zone.as_bytes(), instant),
        CommandLine::Local {
            text,
            zone,
            time,
            choice,
        } => local(alloc, &text.source(contents), zone.as_bytes(), time, choice),
        CommandLine::Moves {
            text,
            zone,
            from,
            to,
        } => line(moves(alloc, &text.source(contents), zone.as_bytes(), from, to)),
        CommandLine::Days {
            text,
            zone,
            first,
            count,
        } => line(days(alloc, &text.source(contents), zone.as_bytes(), first, count)),
        CommandLine::Tzif {
            text,
            zone,
            first,
            last,
        } => line(tzif(alloc, &text.source(contents), zone.as_bytes(), first, last)),
        CommandLine::Dump {
            text,
            from,
            to,
            zone,
        } => match dump(alloc, &text.source(contents), from, to, zone.as_bytes()) {
            Ok(dump) => Ok(Output::Zones(dump)),
            Err(refusal) => Err(refusal),
        },
        CommandLine::Check { text } => line(check(alloc, &text.source(contents))),
        CommandLine::Clock {
            conversion,
            number,
            ..
        } => clock(alloc, leap_text(&contents), conversion, number),
    }
}

/// The bytes of the one file, or none where there is no file.
fn leap_text(contents: &Items<Text>) -> &[u8]
    requires { length contents.now ≤ 1 }
    ensures { result.now ≡ concat contents.now }
{
    match contents.as_slice().first() {
        Some(text) => text.as_slice(),
        None => b"",
    }
}

/// What a command comes to.
fn answer<F: Files>(
    alloc: Global,
    command: CommandLine<'_>,
    files: &mut F,
) -> Result<Output, Refusal>
    ensures due { GivesOutput (IsDueFor (meant command.entry) (F.state files.old) (F.state files.new)) result }
    ensures pieces { IfOk result (λ output. is_in_pieces output ≡ comes_in_pieces (meant command.entry)) }
    ensures kept { (F.state files.new).contents ≡ (F.state files.old).contents }
{
    match contents_of(alloc, command, files) {
        Ok(contents) => answer_over(alloc, command, contents),
        Err(refusal) => Err(refusal),
    }
}

/// Does a command: prints its text or the line of its refusal, and answers the status.
fn run_command<F: Files, S: Sink>(
    rt: &(impl Threads + Sync),
    alloc: Global,
    command: CommandLine<'_>,
    files: &mut F,
    sink: &mut S,
) -> Status
    ensures due { Prints (IsDueFor (meant command.entry) (F.state files.old) (F.state files.new)) result
        (S.state sink.old) (S.state sink.new) }
    ensures kept { (F.state files.new).contents ≡ (F.state files.old).contents }
{
    match answer(alloc, command, files) {
        Ok(output) => print_output(rt, alloc, &output, sink),
        Err(refusal) => print_refusal(alloc, refusal, sink),
    }
}

/// Does a whole command, `info`, `local`, `moves`, `days`, `tzif`, `dump`, `check` or `clock`, and answers its
/// status. It prints the text of the command at `Ok`, what there is to know of the local time at `Local`, and else
/// the line of the refusal. At `Write` a part of that was taken. `dump` prints what it has made before it makes the
/// rest, so where memory runs out on the way its line stands behind a first part of the text. `batch` is left to the
/// caller, and nothing is done.
pub fn run_plain<F: Files, S: Sink>(
    rt: &(impl Threads + Sync),
    alloc: Global,
    words: &[String],
    files: &mut F,
    sink: &mut S,
) -> Plain
    // At every status but 6, all that was printed is the line that is due at it: 0, 3, 8, 9, 10, 14 and 15 have their
    // reason in the text, 11 in the size of the files, 5 in a fault of the next file that was counted in this call. At 6 a
    // part of a line that is due was printed, and then a fault of the sink or a stall was counted.
    ensures due { (status : Status) → result ≡ Plain.Done status →
        Prints (IsDue (words_of words.now) (F.state files.old) (F.state files.new)) status (S.state sink.old) (S.state sink.new) }

    // 2: exactly where the words match no form, and want of memory never hides it: only the sink may.
    ensures usage { result ≡ Plain.Done Status.Usage → IsNoCommand (words_of words.now) }
    ensures no_command { IsNoCommand (words_of words.now) → (result ≡ Plain.Done Status.Usage) ⊎ (result ≡ Plain.Done Status.Write) }

    // Where no fault and no stall was counted, an answer over the contents has its status, but for want of memory.
    ensures exact { (command : Command) (contents : List (List ℕ)) (status : Status) (line : List ℕ) →
        IsCommand (words_of words.now) command → AllZip (Holds (F.state files.old)) (files_of command) contents →
        IsAnswer command contents status line →
        ¬ (Any (FileFailed (F.state files.old) (F.state files.new)) (files_of command)) →
        ¬ (SinkFailed (S.state sink.old) (S.state sink.new)) →
        (result ≡ Plain.Done status) ⊎ (result ≡ Plain.Done Status.Memory) }

    // Words are left to the caller exactly where they are those of `batch`, and then nothing was read or written.
    ensures shared { (result ≡ Plain.Shared) ↔ ((batch : BatchCommand) × IsBatchCommand (words_of words.now) batch) }
    ensures unread { result ≡ Plain.Shared → F.state files.new ≡ F.state files.old }
    ensures unwritten { result ≡ Plain.Shared → S.state sink.new ≡ S.state sink.old }

    // 4 doesn't come, and the files hold what they held.
    ensures never { result ≢ Plain.Done Status.Script }
    ensures kept { (F.state files.new).contents ≡ (F.state files.old).contents }
{
    if BatchLine::new(words).is_some() {
        return Plain::Shared;
    }
    match command_of(words) {
        Some(command) => Plain::Done(run_command(rt, alloc, command, files, sink)),
        None => Plain::Done(print(sink, b"usage\n", Status::Usage)),
    }
}

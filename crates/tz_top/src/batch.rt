//! The command `batch`.
ghost use Rattle.std.specs.Prelude.{◌≡◌};
ghost use Rattle.tz_words.specs.Command.{batch_meant};
ghost use Rattle.tz_cli.specs.Outcome.{Prints};
ghost use Rattle.tz_cli.specs.Refusal.{Gives};
ghost use Rattle.tz_top.specs.Due.{IsBatchDue};

use crate::outcome::batch_text;
use crate::texts::read_texts;
use std::alloc::Global;
use std::sync::Wait;
use std::thread::Threads;
use tz_cli::{Refusal, print, print_refusal};
use tz_io::{Files, Sink};
use tz_lane::Gate;
use tz_words::{BatchLine, Status};

/// What a batch comes to.
fn answer<F: Files, G: Gate>(
    rt: &(impl Threads + Wait + Sync),
    alloc: Global,
    line: BatchLine<'_>,
    files: &mut F,
    gate: &G,
) -> Result<Vec<u8>, Refusal>
    ensures due { Gives (IsBatchDue (batch_meant line.entry) (F.state files.old) (F.state files.new)) result }
    ensures kept { (F.state files.new).contents ≡ (F.state files.old).contents }
{
    match read_texts(alloc, line, files) {
        Ok(texts) => batch_text(rt, alloc, texts, line.slots, gate),
        Err(refusal) => Err(refusal),
    }
}

/// Does a batch: prints the text of its outcome or the line of its refusal, and answers the status. The text is made
/// whole before any of it is printed.
pub fn run_batch<F: Files, S: Sink, G: Gate>(
    rt: &(impl Threads + Wait + Sync),
    alloc: Global,
    line: BatchLine<'_>,
    files: &mut F,
    sink: &mut S,
    gate: &G,
) -> Status
    ensures due { Prints (IsBatchDue (batch_meant line.entry) (F.state files.old) (F.state files.new)) result
        (S.state sink.old) (S.state sink.new) }
    ensures kept { (F.state files.new).contents ≡ (F.state files.old).contents }
{
    match answer(rt, alloc, line, files, gate) {
        Ok(text) => print(sink, text.as_slice(), Status::Ok),
        Err(refusal) => print_refusal(alloc, refusal, sink),
    }
}

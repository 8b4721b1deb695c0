//! A whole line given to the sink.
ghost use Rattle.std.specs.Prelude.{◌≢◌};
ghost use Rattle.tz_cli.specs.Outcome.{Prints, Exactly};
ghost use Rattle.tz_cli.specs.Refusal.{TellsRefusal};

use crate::refusal::Refusal;
use std::alloc::Global;
use tz_io::{Sink, put_all};
use tz_words::Status;

/// Prints a line, and answers its status, or `Write` where only a part of it was taken.
pub fn print<S: Sink>(sink: &mut S, line: &[u8], status: Status) -> Status
    requires { status ≢ Status.Write }
    ensures { Prints (Exactly status line.now) result (S.state sink.old) (S.state sink.new) }
{
    match put_all(sink, line) {
        Ok(()) => status,
        Err(_) => Status::Write,
    }
}

/// Prints the line of a refusal, or that of want of memory where it can't be made.
pub fn print_refusal<S: Sink>(alloc: Global, refusal: Refusal, sink: &mut S) -> Status
    ensures { Prints (TellsRefusal refusal) result (S.state sink.old) (S.state sink.new) }
{
    match refusal.line(alloc) {
        Ok(line) => print(sink, line.as_slice(), refusal.status()),
        Err(_) => print(sink, b"memory\n", Status::Memory),
    }
}

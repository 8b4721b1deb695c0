//! What a command prints where it isn't refused.
ghost use Rattle.tz_cli.specs.Outcome.{Prints};
ghost use Rattle.tz_cli.specs.Output.{TellsOutput};

use crate::dump::{Stop, write_zones};
use crate::printout::print;
use crate::zone_dump::ZoneDump;
use std::alloc::Global;
use std::thread::Threads;
use tz_io::Sink;
use tz_words::Status;

/// What a command prints: a line, lines or a file that were made whole, or a dump of zones, whose text is made group
/// by group. `Undecided` is the line of a local time that stands for an instant only by a choice, where none is made.
#[derive(Drop)]
pub enum Output {
    Line(Vec<u8>),
    Undecided(Vec<u8>),
    Zones(ZoneDump),
}

/// Prints a dump. Where memory runs out on the way, the line that says so stands behind a first part.
fn print_dump<S: Sink>(
    rt: &(impl Threads + Sync),
    alloc: Global,
    dump: &ZoneDump,
    sink: &mut S,
) -> Status
    ensures { Prints (TellsOutput (Output.Zones dump.now)) result (S.state sink.old) (S.state sink.new) }
{
    match write_zones(rt, alloc, dump.zones.as_slice(), dump.from, dump.to, sink) {
        Ok(()) => Status::Ok,
        Err(Stop::Write) => Status::Write,
        Err(Stop::Memory) => print(sink, b"memory\n", Status::Memory),
    }
}

/// Prints what a command comes to.
pub fn print_output<S: Sink>(
    rt: &(impl Threads + Sync),
    alloc: Global,
    output: &Output,
    sink: &mut S,
) -> Status
    ensures { Prints (TellsOutput output.now) result (S.state sink.old) (S.state sink.new) }
{
    match output {
        Output::Line(line) => print(sink, line.as_slice(), Status::Ok),
        Output::Undecided(line) => print(sink, line.as_slice(), Status::Local),
        Output::Zones(dump) => print_dump(rt, alloc, dump, sink),
    }
}

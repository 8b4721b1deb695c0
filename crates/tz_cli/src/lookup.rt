//! The commands that look up: `info`, the range of a zone that holds an instant; `local`, which ranges show a local time,
//! or the instant that it stands for (C++20, [time.zone.members]); and `clock`, a count of one clock by that of another.
//! Instants and local times are in seconds from 1970-01-01 00:00:00. What is found is told at its status, in its line.
ghost use Rattle.std.specs.Prelude.{◌≡◌, ◌≤◌, length, false, IfOk};
ghost use Rattle.tz_types.specs.declared.limit.TheConstants.{MOST_BYTES};
ghost use Rattle.tz_expand.specs.Zone.{expansion_of};
ghost use Rattle.tz_cli.specs.FoundLine.{found_status, found_line};
ghost use Rattle.tz_cli.specs.Lookup.{IsFoundByChoice, InfoAnswers, LocalAnswers, ClockAnswers};
ghost use Rattle.tz_cli.specs.Outcome.{Exactly};
ghost use Rattle.tz_cli.specs.Output.{GivesOutput, is_in_pieces};

use crate::named_zone::named_zone;
use crate::output::Output;
use crate::refusal::Refusal;
use std::alloc::Global;
use tz_expand::CompiledZone;
use tz_lines::{ReadError, read_leaps};
use tz_lookup::{
    Choice, Conversion, Found, find_count, find_info, find_local, find_sys, put_found,
};
use tz_types::{Choose, NoMemory, Source};

/// The line of what is found.
fn found_line(alloc: Global, found: &Found) -> Result<Vec<u8>, NoMemory>
    ensures { IfOk result (λ line. line.items ≡ found_line found.now) }
{
    let mut line = Vec::new(alloc);
    put_found(&mut line, found)?;
    line.extend_from_slice(b"\n")?;
    Ok(line)
}

/// What a command comes to that finds this.
fn output_of(alloc: Global, found: &Found) -> Result<Output, Refusal>
    ensures line { GivesOutput (Exactly (found_status found.now) (found_line found.now)) result }
    ensures pieces { IfOk result (λ output. is_in_pieces output ≡ false) }
{
    let Ok(line) = found_line(alloc, found) else {
        return Err(Refusal::Memory);
    };
    match found {
        Found::NoZone => Err(Refusal::NoZone),
        Found::Range => Err(Refusal::Range),
        Found::Undecided(_) => Ok(Output::Undecided(line)),
        Found::Info(_)
        | Found::Local(_)
        | Found::Sys(_)
        | Found::Scan(_)
        | Found::Clock(_)
        | Found::Leap(_) => Ok(Output::Line(line)),
    }
}

/// What `info` comes to: the range of the zone named which holds the instant.
pub fn info(alloc: Global, source: &Source, name: &[u8], instant: i64) -> Result<Output, Refusal>
    ensures answers { GivesOutput (InfoAnswers source.now name.now instant) result }
    ensures pieces { IfOk result (λ output. is_in_pieces output ≡ false) }
{
    match named_zone(alloc, source, name) {
        Ok(zone) => output_of(alloc, &find_info(&zone, instant)),
        Err(refusal) => Err(refusal),
    }
}

/// What is asked of a local time in the zone.
fn find_by_choice(zone: &CompiledZone, l: i64, choice: Choice) -> Found
    ensures { IsFoundByChoice choice l (expansion_of zone.now) result }
{
    match choice {
        Choice::None => find_local(zone, l),
        Choice::Strict => find_sys(zone, l, None),
        Choice::Earliest => find_sys(zone, l, Some(Choose::Earliest)),
        Choice::Latest => find_sys(zone, l, Some(Choose::Latest)),
    }
}

/// What `local` comes to: which ranges of the zone named show the local time, or its instant, or that it has one only by a
/// choice.
pub fn local(
    alloc: Global,
    source: &Source,
    name: &[u8],
    l: i64,
    choice: Choice,
) -> Result<Output, Refusal>
    ensures answers { GivesOutput (LocalAnswers source.now name.now l choice) result }
    ensures pieces { IfOk result (λ output. is_in_pieces output ≡ false) }
{
    match named_zone(alloc, source, name) {
        Ok(zone) => output_of(alloc, &find_by_choice(&zone, l, choice)),
        Err(refusal) => Err(refusal),
    }
}

/// What `clock` comes to: the number's conversion with the leap table of the text.
pub fn clock(
    alloc: Global,
    text: &[u8],
    conversion: Conversion,
    number: i64,
) -> Result<Output, Refusal>
    requires { length text.now ≤ MOST_BYTES }
    ensures answers { GivesOutput (ClockAnswers text.now conversion number) result }
    ensures pieces { IfOk result (λ output. is_in_pieces output ≡ false) }
{
    let leaps = match read_leaps(alloc, text) {
        Ok(leaps) => leaps,
        Err(ReadError::NoMemory) => return Err(Refusal::Memory),
        Err(ReadError::Fault(fault)) => return Err(Refusal::Leaps(fault)),
    };
    output_of(alloc, &find_count(&leaps, conversion, number))
}

//! Asks for local times and instants of a zone, as often as asked: what `bench/local.sh` takes the time of.
//!
//! The first word names a zone text, whose first rule set the zone follows, five hours west. The second says what is done
//! with each number: `sys` turns it, as a local time, into the earliest instant, `local` tells which ranges show it, `info`
//! asks for the range that holds it, as an instant, and `stretch` for all ranges of the ten years from it on. The third is
//! how often. Each takes the same numbers, the seconds
//! from 1970 to 2037 in no order. The line that is printed is a sum, so that no work can be left out.
#![tactic(auto)]

ghost use Rattle.std.specs.Prelude.{◌≡◌, ◌<◌, ◌≤◌, length, pos, IsTrue, IfSome};
ghost use Rattle.jiff_core.specs.Calendar.{IsBetween};
ghost use Rattle.tz_types.specs.Format.{is_format};
ghost use Rattle.tz_specs.specs.Expansion.{first_instant, end_of_time};

use std::alloc::Global;
use std::rt::{Env, Files};
use std::{env, fs, io};
use tz_expand::{CompiledLine, CompiledRules, CompiledZone, expand_uncounted, info_uncounted};
use tz_lines::read_zones;
use tz_local::{local_info, to_sys};
use tz_rules::letters_before;
use tz_types::{
    Abbrev, Choose, END_OF_TIME, FIRST_INSTANT, Format, Items, Label, LocalInfo, MOST_BYTES,
    RuleSet, Shared, Source,
};

/// The seconds from 1970 to 2037.
const SECONDS: u32 = 2_145_916_800;

/// As long as ten years, about.
const TEN_YEARS: i64 = 315_532_800;

/// What is done with each number.
#[derive(Clone, Copy)]
enum Work {
    Sys,
    Local,
    Info,
    Stretch,
}

/// Numbers in no order, the same in each run.
#[derive(Drop)]
struct Seconds {
    state: u64,
}

impl Seconds {
    /// A second from 1970 to 2037.
    fn next(&mut self) -> i64
        ensures { IsBetween (pos 0) (pos 2_145_916_799) result }
    {
        self.state = self
            .state
            .wrapping_mul(6_364_136_223_846_793_005)
            .wrapping_add(1_442_695_040_888_963_407);
        i64::from((self.state >> 33) as u32 % SECONDS)
    }
}

/// New York's abbreviations: `E%sT`.
fn format() -> Option<Format>
    ensures { IfSome result (λ format. IsTrue (is_format format)) }
{
    let Ok(before) = Abbrev::new(b"E") else {
        return None;
    };
    let Ok(after) = Abbrev::new(b"T") else {
        return None;
    };
    Some(Format::Letters { before, after })
}

/// New York's one line under a rule set, over all of time.
fn line(set: Shared<RuleSet>, format: Format) -> CompiledLine
    requires { IsTrue (is_format format) }
    ensures begin { result.start ≡ first_instant }
    ensures end { result.end ≡ end_of_time }
{
    let letters = letters_before(set.get());
    CompiledLine {
        start: FIRST_INSTANT,
        end: END_OF_TIME,
        stdoff: -18_000,
        format,
        rules: CompiledRules::Set(set),
        letters,
    }
}

/// New York under a rule set.
fn new_york(alloc: Global, set: Shared<RuleSet>) -> io::Result<CompiledZone> {
    let (Ok(name), Some(format)) = (Label::new(b"America/New_York"), format()) else {
        return Err(refused());
    };
    let mut lines = Items::new(alloc);
    match lines.push(line(set, format)) {
        Ok(()) => Ok(CompiledZone { name, lines }),
        Err(_) => Err(io::Error::from(io::ErrorKind::OutOfMemory)),
    }
}

/// Where the range that holds an instant begins, or 0.
fn begin_of(zone: &CompiledZone, t: i64) -> i64 {
    match info_uncounted(zone, t) {
        Some(range) => range.begin,
        None => 0,
    }
}

/// Where the first range that is told of a local time begins, or 0.
fn begin_told(zone: &CompiledZone, l: i64) -> i64 {
    match local_info(zone, l) {
        Ok(LocalInfo::Unique(range)) => range.begin,
        Ok(LocalInfo::Nonexistent { first, .. }) => first.begin,
        Ok(LocalInfo::Ambiguous { first, .. }) => first.begin,
        Err(_) => 0,
    }
}

/// How many ranges the ten years from an instant on meet.
fn ranges_met(alloc: Global, zone: &CompiledZone, from: i64) -> i64
    requires { IsBetween (pos 0) (pos 2_145_916_799) from }
{
    match expand_uncounted(alloc, zone, from, from + TEN_YEARS) {
        Ok(ranges) => ranges.len() as i64,
        Err(_) => 0,
    }
}

/// What the work gives for a number.
fn done(alloc: Global, work: Work, zone: &CompiledZone, second: i64) -> i64
    requires { IsBetween (pos 0) (pos 2_145_916_799) second }
{
    match work {
        Work::Sys => to_sys(zone, second, Some(Choose::Earliest)).unwrap_or(0),
        Work::Local => begin_told(zone, second),
        Work::Info => begin_of(zone, second),
        Work::Stretch => ranges_met(alloc, zone, second),
    }
}

/// The sum of what the work gives for so many numbers.
fn sum_of(alloc: Global, work: Work, zone: &CompiledZone, count: u32) -> i64 {
    let mut seconds = Seconds { state: 1 };
    let mut sum: i64 = 0;
    for _ in 0..count {
        sum = sum.wrapping_add(done(alloc, work, zone, seconds.next()));
    }
    sum
}

fn refused() -> io::Error {
    io::Error::from(io::ErrorKind::InvalidInput)
}

/// The name of the text, the work, and how often it is done.
fn words(rt: &(impl Env + AllocGlobal)) -> io::Result<(String, Work, u32)> {
    let mut words = env::args(rt)?.skip(1);
    let (Some(name), Some(work), Some(count)) = (words.next(), words.next(), words.next()) else {
        return Err(refused());
    };
    let work = match work.as_str() {
        "sys" => Work::Sys,
        "local" => Work::Local,
        "info" => Work::Info,
        "stretch" => Work::Stretch,
        _ => return Err(refused()),
    };
    match count.parse::<u32>() {
        Ok(count) => Ok((name, work, count)),
        Err(_) => Err(refused()),
    }
}

fn main(rt: HostRuntime) -> io::Result<()> {
    let (name, work, count) = words(&rt)?;
    let text = fs::read(&rt, name)?;
    if text.len() > MOST_BYTES {
        return Err(refused());
    }
    let Ok(source) = Source::of_text(rt.alloc(), text) else {
        return Err(refused());
    };
    let Ok(db) = read_zones(rt.alloc(), &source) else {
        return Err(refused());
    };
    let Some(Ok(set)) = db.sets.as_slice().first().map(|set| set.share()) else {
        return Err(refused());
    };
    let zone = new_york(rt.alloc(), set)?;
    let sum = sum_of(rt.alloc(), work, &zone, count);
    println!(rt; "{sum}")
}

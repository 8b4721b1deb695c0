//! Searches a rule set for instants, as often as asked: what `bench/rules.sh` takes the time of.
//!
//! The first word names a zone text, whose first rule set is the one searched. The second says what is done with each
//! instant: `last` asks what is in effect, `next` what comes next, and `look` looks at every rule of the set in the
//! instant's year. The third is how often. Each takes the same instants, from 1970 to 2038 in no order, and a standard
//! offset of five hours west. The line that is printed is a sum, so that no work can be left out.
#![tactic(auto)]

ghost use Rattle.std.specs.Prelude.{◌≡◌, ◌<◌, ◌≤◌, length};

use std::marker::Brand;
use std::rt::{Env, Files};
use std::sync::ledger::{Blank, Ledger};
use std::{env, fs, io};
use tz_lines::read_zones;
use tz_rules::{Taken, last_at_or_before, next_after, occurrence};
use tz_types::{MOST_BYTES, RuleSet, Source, Steps, civil_year};

/// The standard offset, in seconds.
const STDOFF: i64 = -18_000;

/// What is done with each instant.
#[derive(Clone, Copy)]
enum Work {
    Last,
    Next,
    Look,
}

/// Instants in no order, the same in each run.
#[derive(Drop)]
struct Instants {
    state: u64,
}

impl Instants {
    /// An instant from 1970 to 2038, in seconds.
    fn next(&mut self) -> u32 {
        self.state = self
            .state
            .wrapping_mul(6_364_136_223_846_793_005)
            .wrapping_add(1_442_695_040_888_963_407);
        (self.state >> 33) as u32
    }
}

/// The occurrence in effect, where nobody asks for the count of steps.
fn last_uncounted<L: Ledger>(set: &RuleSet, t: i64, blank: Blank) -> Option<Taken>
    requires name { blank.name ≡ L.name }
    requires parts { blank.parts ≡ L.parts }
    requires counts { 0 < blank.parts }
{
    let mut steps = Steps::<L>::new(blank);
    last_at_or_before(set, STDOFF, t, &mut steps)
}

/// The next change, where nobody asks for the count of steps.
fn next_uncounted<L: Ledger>(set: &RuleSet, t: i64, blank: Blank) -> Option<Taken>
    requires name { blank.name ≡ L.name }
    requires parts { blank.parts ≡ L.parts }
    requires counts { 0 < blank.parts }
{
    let mut steps = Steps::<L>::new(blank);
    next_after(set, STDOFF, t, &mut steps)
}

/// The instant told, or 0.
fn at_of(taken: Option<Taken>) -> i64 {
    match taken {
        Some(taken) => taken.at,
        None => 0,
    }
}

/// The sum of the nominal seconds of all rules in a year.
fn look(set: &RuleSet, year: i32) -> i64 {
    let mut sum: i64 = 0;
    for rule in set.rules.as_slice() {
        sum = sum.wrapping_add(occurrence(rule, year).unwrap_or(0));
    }
    sum
}

/// What the work gives for an instant.
fn done(work: Work, set: &RuleSet, t: u32) -> i64 {
    let t = i64::from(t);
    match work {
        Work::Last => at_of(last_uncounted::<Brand>(set, t, Blank::new(1))),
        Work::Next => at_of(next_uncounted::<Brand>(set, t, Blank::new(1))),
        Work::Look => look(set, civil_year(t)),
    }
}

/// The sum of what the work gives for so many instants.
fn sum_of(work: Work, set: &RuleSet, count: u32) -> i64 {
    let mut instants = Instants { state: 1 };
    let mut sum: i64 = 0;
    for _ in 0..count {
        sum = sum.wrapping_add(done(work, set, instants.next()));
    }
    sum
}

fn refused() -> io::Error {
    io::Error::from(io::ErrorKind::InvalidInput)
}

/// The name of the text, the work, and how often it is done.
fn words(rt: &(impl Env + AllocGlobal)) -> io::Result<(String, Work, u32)> {
    let mut words = env::args(rt)?.skip(1);
    let (Some(name), Some(work), Some(count)) = (words.next(), words.next(), words.next()) else {
        return Err(refused());
    };
    let work = match work.as_str() {
        "last" => Work::Last,
        "next" => Work::Next,
        "look" => Work::Look,
        _ => return Err(refused()),
    };
    match count.parse::<u32>() {
        Ok(count) => Ok((name, work, count)),
        Err(_) => Err(refused()),
    }
}

fn main(rt: HostRuntime) -> io::Result<()> {
    let (name, work, count) = words(&rt)?;
    let text = fs::read(&rt, name)?;
    if text.len() > MOST_BYTES {
        return Err(refused());
    }
    let Ok(source) = Source::of_text(rt.alloc(), text) else {
        return Err(refused());
    };
    let Ok(db) = read_zones(rt.alloc(), &source) else {
        return Err(refused());
    };
    let Some(set) = db.sets.as_slice().first() else {
        return Err(refused());
    };
    let sum = sum_of(work, set.get(), count);
    println!(rt; "{sum}")
}

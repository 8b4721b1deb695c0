//! Converts instants between clocks, as often as asked: what `bench/leaps.sh` takes the time of.
//!
//! The first word names a leap text, the second what is done with each instant, and the third how often: `utc` is the
//! UTC count of a system time, `sys` the system time of a UTC count, `info` what there is to know of a UTC count, and
//! `search` a plain binary search among the dates of the table. Each takes the same instants, from 1970 to 2038 in no
//! order. The line that is printed is a sum, so that no work can be left out.
#![tactic(auto)]

ghost use Rattle.std.specs.Prelude.{◌<◌, ◌≤◌, length, pos, ◌≤ℤ◌, ◌<ℤ◌};

use std::alloc::Global;
use std::rt::{Env, Files};
use std::{env, fs, io};
use tz_leap::{leap_info, sys_of_utc, utc_of_sys};
use tz_lines::read_leaps;
use tz_types::{LeapEntry, Leaps};

/// The most bytes of a leap text.
const MOST_BYTES: usize = 4_194_304;

/// What is done with each instant.
#[derive(Clone, Copy)]
enum Work {
    Utc,
    Sys,
    Info,
    Search,
}

/// Instants in no order, the same in each run.
#[derive(Drop)]
struct Instants {
    state: u64,
}

impl Instants {
    /// An instant from 1970 to 2038, in seconds.
    fn next(&mut self) -> i64 {
        self.state = self
            .state
            .wrapping_mul(6_364_136_223_846_793_005)
            .wrapping_add(1_442_695_040_888_963_407);
        i64::from((self.state >> 33) as u32)
    }
}

/// How many leap dates lie at or before an instant, by a plain binary search.
fn dates_by(entries: &[LeapEntry], t: i64) -> i64 {
    match entries.binary_search_by_key(&t, |entry| entry.date) {
        Ok(place) => place as i64,
        Err(place) => place as i64,
    }
}

/// How many seconds elapsed, and one more at an added second.
fn elapsed_at(leaps: &Leaps, u: i64) -> i64 {
    match leap_info(leaps, u) {
        Ok(info) => info.elapsed.wrapping_add(i64::from(info.is_leap)),
        Err(_) => 0,
    }
}

/// What the work gives for an instant.
fn done(work: Work, leaps: &Leaps, t: i64) -> i64 {
    match work {
        Work::Utc => utc_of_sys(leaps, t).unwrap_or(0),
        Work::Sys => sys_of_utc(leaps, t).unwrap_or(0),
        Work::Info => elapsed_at(leaps, t),
        Work::Search => dates_by(leaps.entries.as_slice(), t),
    }
}

/// The sum of what the work gives for so many instants.
fn sum_of(work: Work, leaps: &Leaps, count: u32) -> i64 {
    let mut instants = Instants { state: 1 };
    let mut sum: i64 = 0;
    for _ in 0..count {
        sum = sum.wrapping_add(done(work, leaps, instants.next()));
    }
    sum
}

fn refused() -> io::Error {
    io::Error::from(io::ErrorKind::InvalidInput)
}

/// The name of the leap text, the work, and how often it is done.
fn words(rt: &(impl Env + AllocGlobal)) -> io::Result<(String, Work, u32)> {
    let mut words = env::args(rt)?.skip(1);
    let (Some(name), Some(work), Some(count)) = (words.next(), words.next(), words.next()) else {
        return Err(refused());
    };
    let work = match work.as_str() {
        "utc" => Work::Utc,
        "sys" => Work::Sys,
        "info" => Work::Info,
        "search" => Work::Search,
        _ => return Err(refused()),
    };
    match count.parse::<u32>() {
        Ok(count) => Ok((name, work, count)),
        Err(_) => Err(refused()),
    }
}

fn main(rt: HostRuntime) -> io::Result<()> {
    let (name, work, count) = words(&rt)?;
    let text = fs::read(&rt, name)?;
    if text.len() > MOST_BYTES {
        return Err(refused());
    }
    let Ok(leaps) = read_leaps(rt.alloc(), &text) else {
        return Err(refused());
    };
    let sum = sum_of(work, &leaps, count);
    println!(rt; "{sum}")
}

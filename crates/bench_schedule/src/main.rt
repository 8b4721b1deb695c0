//! Runs schedules, as long as asked and as often as asked: what `bench/schedule.sh` takes the time of.
//!
//! The first word is how many events a schedule has, and the second how often it is run. Seven readers load, pin, load
//! again and take the pin off, and one after another pushes a version and erases the one behind it, round after round. The
//! line that is printed is a sum, so that no work can be left out.
#![tactic(auto)]

ghost use Rattle.std.specs.Prelude.{◌≡◌, ◌<◌, length};

use pin_book::{FEWEST_SLOTS, MOST_WRITES, READER_NUMBERS};
use pin_schedule::{Core, Event, Kind, MOST_EVENTS, run_schedule};
use std::rt::Env;
use std::{env, io};

/// How many readers there are.
const READERS: u32 = READER_NUMBERS as u32;

/// The next events of a schedule, the same in each run.
#[derive(Drop)]
struct Rounds {
    round: u32,
    place: u32,
}

/// How many events a round has: seven readers make four each, and one makes five.
const ROUND: u32 = 33;

impl Rounds {
    /// The next event. In each round the front stands in the other slot.
    fn next(&mut self) -> Event {
        let place = self.place;
        let round = self.round;
        let event = if place < 28 {
            let reader = (round.wrapping_add(place / 4)) % READERS;
            let kind = match place % 4 {
                0 | 2 => Kind::LoadFront,
                1 => Kind::AddPin,
                _ => Kind::TakePin { slot: round % 2 },
            };
            Event { reader, kind }
        } else {
            let kind = match place {
                28 => Kind::TakeTurn,
                29 => Kind::Claim {
                    slot: round.wrapping_add(1) % 2,
                },
                30 => Kind::StorePush { src: round },
                31 => Kind::StoreErase {
                    after: round.wrapping_add(2),
                },
                _ => Kind::StoreTurn,
            };
            Event {
                reader: round % READERS,
                kind,
            }
        };
        self.place = if place.wrapping_add(1) < ROUND {
            place.wrapping_add(1)
        } else {
            0
        };
        if self.place == 0 {
            self.round = round.wrapping_add(1);
        }
        event
    }
}

/// So many events.
fn events(alloc: std::alloc::Global, count: usize) -> io::Result<Vec<Event>> {
    let mut rounds = Rounds { round: 0, place: 0 };
    let mut all = Vec::with_capacity(alloc, count)?;
    for _ in 0..count {
        all.push(rounds.next())?;
    }
    Ok(all)
}

/// What the core tells, as one number.
fn sum_of(core: &Core) -> u64 {
    let mut sum = core.journal.len() as u64;
    for reader in core.readers.as_slice() {
        sum = sum
            .wrapping_add(u64::from(reader.loads))
            .wrapping_add(u64::from(reader.pins));
    }
    for word in core.words.as_slice() {
        sum = sum.wrapping_add(u64::from(word.number));
    }
    sum
}

fn refused() -> io::Error {
    io::Error::from(io::ErrorKind::InvalidInput)
}

/// How many events there are, and how often they are run.
fn words(rt: &(impl Env + AllocGlobal)) -> io::Result<(u32, u32)> {
    let mut words = env::args(rt)?.skip(1);
    let (Some(count), Some(passes)) = (words.next(), words.next()) else {
        return Err(refused());
    };
    match (count.parse::<u32>(), passes.parse::<u32>()) {
        (Ok(count), Ok(passes)) => Ok((count, passes)),
        _ => Err(refused()),
    }
}

fn main(rt: HostRuntime) -> io::Result<()> {
    let (count, passes) = words(&rt)?;
    let events = events(rt.alloc(), count as usize)?;
    if events.len() >= MOST_EVENTS {
        return Err(refused());
    }
    let mut sum: u64 = 0;
    for _ in 0..passes {
        match run_schedule(rt.alloc(), FEWEST_SLOTS, READERS, MOST_WRITES, &events) {
            Ok(core) => sum = sum.wrapping_add(sum_of(&core)),
            Err(_) => return Err(refused()),
        }
    }
    println!(rt; "{sum}")
}

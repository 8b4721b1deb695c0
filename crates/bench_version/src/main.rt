//! Makes the version of a release, as often as asked: what `bench/version.sh` takes the time of.
//!
//! The first word names a zone text, the second is how often. Each time the text is read whole, and all its zones are
//! compiled. The line that is printed is how many zones there were in all, so that no work can be left out.
#![tactic(auto)]

use std::alloc::Global;
use std::rt::{Env, Files};
use std::sync::Arc;
use std::{env, fs, io};
use tz_types::{Items, MOST_BYTES, NoMemory, Shared, Source};
use tz_version::{Sources, Version};

fn refused() -> io::Error {
    io::Error::from(io::ErrorKind::InvalidInput)
}

/// The name of the text, and how often its version is made.
fn words(rt: &(impl Env + AllocGlobal)) -> io::Result<(String, u32)> {
    let mut words = env::args(rt)?.skip(1);
    let (Some(name), Some(count)) = (words.next(), words.next()) else {
        return Err(refused());
    };
    match count.parse::<u32>() {
        Ok(count) => Ok((name, count)),
        Err(_) => Err(refused()),
    }
}

/// One source alone, with no leap seconds.
fn sources_of(alloc: Global, text: Vec<u8>) -> Result<Option<Sources>, NoMemory> {
    if text.len() > MOST_BYTES {
        return Ok(None);
    }
    let mut texts = Items::new(alloc);
    texts.push(Source::of_text(alloc, text)?)?;
    Ok(Sources::new(texts, Items::new(alloc)))
}

/// How many zones the version has.
fn zone_count(alloc: Global, sources: &Shared<Sources>) -> u64 {
    if sources.get().texts.is_empty() {
        return 0;
    }
    match Version::make(alloc, sources, 0) {
        Ok(version) => version.get().zones().len() as u64,
        Err(_) => 0,
    }
}

fn main(rt: HostRuntime) -> io::Result<()> {
    let (name, count) = words(&rt)?;
    let text = fs::read(&rt, name)?;
    let Ok(Some(sources)) = sources_of(rt.alloc(), text) else {
        return Err(refused());
    };
    let Ok(sources) = Arc::new(rt.alloc(), sources) else {
        return Err(refused());
    };
    let sources = Shared::from_arc(sources);
    let mut zones = 0u64;
    for _ in 0..count {
        zones = zones.saturating_add(zone_count(rt.alloc(), &sources));
    }
    println!(rt; "{zones}")
}

//! What a caller of the library writes: it makes a version of a text, and asks what the clock of one of its zones shows at an
//! instant.
#![tactic(auto)]

use std::sync::Arc;
use std::{fs, io};
use tz_types::{Items, MOST_BYTES, Shared, Source};
use tz_version::{Sources, Version};
use tz_zoned::ZonedTime;

fn refused() -> io::Error {
    io::Error::from(io::ErrorKind::InvalidData)
}

fn main(rt: HostRuntime) -> io::Result<()> {
    let alloc = rt.alloc();
    let text = fs::read(&rt, "N")?;
    if text.len() > MOST_BYTES {
        return Err(refused());
    }
    let source = Source::of_text(alloc, text).map_err(|_| refused())?;
    let mut texts = Items::new(alloc);
    texts.push(source).map_err(|_| refused())?;
    let sources = Sources::new(texts, Items::new(alloc)).ok_or_else(refused)?;
    let sources = Shared::from_arc(Arc::new(alloc, sources).map_err(|_| refused())?);
    let version = Version::make(alloc, &sources, 0).map_err(|_| refused())?;
    let zone = version
        .get()
        .zone(b"America/New_York")
        .map_err(|_| refused())?;
    let time = ZonedTime::from_sys(zone.compiled(), 1, 0).map_err(|_| refused())?;
    println!(rt;
        "local time {}, offset {}",
        time.local(),
        time.info().offset
    )
}

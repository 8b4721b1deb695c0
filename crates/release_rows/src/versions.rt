//! A release as a version, with all its names.
use crate::outside::RELEASE;
use std::alloc::Global;
use std::fs;
use std::sync::Arc;
use std::test::Fail;
use tz_types::{Items, MOST_BYTES, NoMemory, Shared, Source};
use tz_version::{Sources, Version};

/// How many names are looked for that no release has.
const ABSENT: u32 = 10_000;

/// The version of a text alone, with no leap seconds.
fn version_of(alloc: Global, text: &[u8]) -> Result<Option<Shared<Version>>, NoMemory> {
    if text.len() > MOST_BYTES {
        return Ok(None);
    }
    let mut texts = Items::new(alloc);
    texts.push(Source::of_text(alloc, text.to_vec(alloc)?)?)?;
    let Some(sources) = Sources::new(texts, Items::new(alloc)) else {
        return Ok(None);
    };
    if sources.texts.is_empty() {
        return Ok(None);
    }
    let sources = Shared::from_arc(Arc::new(alloc, sources)?);
    match Version::make(alloc, &sources, 0) {
        Ok(version) => Ok(Some(version)),
        Err(_) => Ok(None),
    }
}

/// The name that a line gives to a zone, `Z NAME`, or to a link, `L TARGET NAME`.
fn name_given(line: &str) -> Option<&str> {
    if let Some(rest) = line.strip_prefix("Z ") {
        return rest.split(' ').next();
    }
    match line.strip_prefix("L ") {
        Some(rest) => rest.split(' ').nth(1),
        None => None,
    }
}

#[test]
fn a_real_release_has_its_names(rt: HostRuntime) -> Result<(), Fail> {
    if !fs::exists(&rt, RELEASE)? {
        return Ok(());
    }
    let text = fs::read_to_string(&rt, RELEASE)?;
    let Some(version) = version_of(rt.alloc(), text.as_bytes())? else {
        assert!(rt; false, "{RELEASE} is refused");
        return Ok(());
    };
    let version = version.get();
    let mut names = 0u32;
    for line in text.lines() {
        if let Some(name) = name_given(line) {
            assert!(rt; version.zone(name.as_bytes()).is_ok(), "{name}");
            names = names.saturating_add(1);
        }
    }
    assert!(rt; names > 0, "no name in {RELEASE}");
    for number in 0..ABSENT {
        let name = format!(in rt.alloc(); "Nowhere/{number}")?;
        assert!(rt; version.zone(name.as_bytes()).is_err(), "{name}");
    }
    Ok(())
}

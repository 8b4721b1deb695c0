//! A dump of all zones of a release from 1900 to 2100.
use crate::outside::{RELEASE, answer_over};
use std::test::Fail;
use std::{fs, str};
use tz_cli::Plain;
use tz_text::signed_number;
use tz_words::Status;

/// The room that a dump is given, in bytes.
const ROOM: usize = 16_777_216;

/// Where the range of a line begins and ends.
fn ends(line: &str) -> Option<(i64, i64)> {
    let mut words = line.split(' ');
    let begin = signed_number(words.next()?.as_bytes())?;
    let end = signed_number(words.next()?.as_bytes())?;
    Some((begin, end))
}

/// How many zones a dump has, where the ranges of each follow one another without a gap. None where some don't.
fn joined_zones(dump: &str) -> Option<usize> {
    let mut zones = 0usize;
    let mut last = None;
    for line in dump.lines() {
        if line.starts_with("zone ") {
            zones = zones.saturating_add(1);
            last = None;
            continue;
        }
        let (begin, end) = ends(line)?;
        if end <= begin || last.is_some_and(|last: i64| last != begin) {
            return None;
        }
        last = Some(end);
    }
    Some(zones)
}

#[test]
fn a_real_release_is_dumped_without_gaps(rt: HostRuntime) -> Result<(), Fail> {
    if !fs::exists(&rt, RELEASE)? {
        return Ok(());
    }
    let text = fs::read_to_string(&rt, RELEASE)?;
    let zones = text.lines().filter(|line| line.starts_with("Z ")).count();
    let alloc = rt.alloc();
    let (answer, taken) = answer_over(
        &rt,
        alloc,
        text.as_bytes().to_vec(alloc)?,
        "dump T -2208988800 4102444800 -",
        ROOM,
    )?;
    assert_eq!(rt; answer, Plain::Done(Status::Ok));
    let Ok(dump) = str::from_utf8(taken.as_slice()) else {
        assert!(rt; false, "a dump that isn't ASCII");
        return Ok(());
    };
    assert_eq!(rt; joined_zones(dump), Some(zones));
    Ok(())
}

//! The octets are worked out by hand from RFC 8536, section 3, and the lines of the zones.
ghost use Rattle.tz_expand.specs.Stretch.{IsStretch};

use std::alloc::Global;
use std::process::Abort;
use std::test::Fail;
use tz_expand::{CompiledZone, compile};
use tz_lines::read_zones;
use tz_types::{NoMemory, Source};
use tz_tzif::{TzifError, tzif};

/// New York's rules and its zone.
const NEW_YORK: &str = "Rule US 1967 2006 - Oct lastSun 2:00 0 S
Rule US 1967 1973 - Apr lastSun 2:00 1:00 D
Rule US 1974 only - Jan 6 2:00 1:00 D
Rule US 1975 only - Feb lastSun 2:00 1:00 D
Rule US 1976 1986 - Apr lastSun 2:00 1:00 D
Rule US 1987 2006 - Apr Sun>=1 2:00 1:00 D
Rule US 2007 max - Mar Sun>=8 2:00 1:00 D
Rule US 2007 max - Nov Sun>=1 2:00 0 S
Zone America/New_York -4:56:02 - LMT 1883 Nov 18 17:00u
-5:00 US E%sT
";

/// An abbreviation that another one ends with, one that two types have, and two neighbours of one type.
const SHARED: &str = "Zone Test/Shared 0 - XEST 2000
0 - EST 2001
1 - EST 2002
1 - EST 2003
0 - XEST
";

/// Saves of an hour and of two that give one offset, then none, and one below zero.
const SAVES: &str = "Zone Test/Saves 0 1:00 X 2000
-1 2:00 X 2001
1 - X 2002
1 -1:00 X
";

/// The same offset under twelve abbreviations of 24 letters.
const TWELVE_NAMES: &str = "Zone W 0 - AAAAAAAAAAAAAAAAAAAAAA00 2000
0 - AAAAAAAAAAAAAAAAAAAAAA01 2001
0 - AAAAAAAAAAAAAAAAAAAAAA02 2002
0 - AAAAAAAAAAAAAAAAAAAAAA03 2003
0 - AAAAAAAAAAAAAAAAAAAAAA04 2004
0 - AAAAAAAAAAAAAAAAAAAAAA05 2005
0 - AAAAAAAAAAAAAAAAAAAAAA06 2006
0 - AAAAAAAAAAAAAAAAAAAAAA07 2007
0 - AAAAAAAAAAAAAAAAAAAAAA08 2008
0 - AAAAAAAAAAAAAAAAAAAAAA09 2009
0 - AAAAAAAAAAAAAAAAAAAAAA10 2010
0 - AAAAAAAAAAAAAAAAAAAAAA11
";

/// The block of version 1, with no transition and one type.
const FIRST_BLOCK: &[u8] = b"TZif2\0\0\0\0\0\0\0\0\0\0\0\0\0\0\0\
    \0\0\0\0\0\0\0\0\0\0\0\0\0\0\0\0\0\0\0\x01\0\0\0\x01\
    \0\0\0\0\0\0\0";

/// What the next header begins with, as far as its count of transitions.
const SECOND_HEADER: &[u8] = b"TZif2\0\0\0\0\0\0\0\0\0\0\0\0\0\0\0\0\0\0\0\0\0\0\0\0\0\0\0";

/// Midnights, in universal time, at which years begin.
const YEAR_1970: i64 = 0;

const YEAR_1999: i64 = 915148800;

const YEAR_2000: i64 = 946684800;

const YEAR_2001: i64 = 978307200;

const YEAR_2004: i64 = 1072915200;

const YEAR_2010: i64 = 1262304000;

const YEAR_2021: i64 = 1609459200;

const YEAR_2024: i64 = 1704067200;

const YEAR_2025: i64 = 1735689600;

const YEAR_2300: i64 = 10413792000;

/// The one zone of a text, ready for questions.
fn zone_of(alloc: Global, text: &[u8]) -> Result<Option<CompiledZone>, NoMemory> {
    if text.len() > 4_194_304 {
        return Ok(None);
    }
    let source = Source::of_text(alloc, text.to_vec(alloc)?)?;
    let Ok(db) = read_zones(alloc, &source) else {
        return Ok(None);
    };
    if db.zones.is_empty() {
        return Ok(None);
    }
    Ok(Some(compile(alloc, &db, 0)?))
}

/// The file of the text's one zone is of these parts.
fn tell(
    rt: &(impl Abort + AllocGlobal),
    text: &str,
    a: i64,
    b: i64,
    parts: &[&[u8]],
) -> Result<(), Fail>
    requires { IsStretch a b }
{
    let zone = zone_of(rt.alloc(), text.as_bytes())?.ok_or("the text is read")?;
    let mut file = Vec::new(rt.alloc());
    for part in parts {
        file.extend_from_slice(part)?;
    }
    let written = tzif(rt.alloc(), &zone, a, b)?;
    assert_eq!(rt; written.as_slice(), file.as_slice());
    Ok(())
}

/// A zone with a change of its offset in each year from 1970 on: after no save one of a second, of two, and so on.
fn zone_of_saves(alloc: Global, saves: u32) -> Result<Option<CompiledZone>, NoMemory> {
    let mut text = Vec::new(alloc);
    for back in 0..saves.min(1000) {
        let year = 1970 + back;
        let minutes = (back + 1) / 60;
        let seconds = (back + 1) % 60;
        let rule = format!(in alloc; "Rule S {year} only - Jul 1 0 0:{minutes}:{seconds} -\n")?;
        text.extend_from_slice(rule.as_bytes())?;
    }
    text.extend_from_slice(b"Zone Test/Saves 0 S X\n")?;
    zone_of(alloc, text.as_slice())
}

/// A zone of one offset under abbreviations of these lengths, each of one letter, from a year to the next from 2000 on.
fn zone_of_names(alloc: Global, lengths: &[u32]) -> Result<Option<CompiledZone>, NoMemory> {
    let mut text = Vec::new(alloc);
    text.extend_from_slice(b"Zone Test/Names")?;
    for (place, length) in lengths.iter().enumerate() {
        let place = place.min(25);
        if place > 0 {
            let year = 1999 + place;
            text.extend_from_slice(format!(in alloc; " {year}\n")?.as_bytes())?;
        }
        text.extend_from_slice(b" 0 - ")?;
        for _ in 0..*length {
            text.push(b'A' + place as u8)?;
        }
    }
    zone_of(alloc, text.as_slice())
}

#[test]
fn new_york_has_two_transitions_in_a_year(rt: HostRuntime) -> Result<(), Fail> {
    let parts = [
        FIRST_BLOCK,
        SECOND_HEADER,
        b"\0\0\0\x02\0\0\0\x02\0\0\0\x08",
        b"\0\0\0\0\x65\xed\x5a\x70\0\0\0\0\x67\x27\x11\x60",
        b"\x01\0",
        b"\xff\xff\xb9\xb0\0\0\xff\xff\xc7\xc0\x01\x04",
        b"EST\0EDT\0",
        b"\n\n",
    ];
    tell(&rt, NEW_YORK, YEAR_2024, YEAR_2025, parts.as_slice())?;
    let zone = zone_of(rt.alloc(), NEW_YORK.as_bytes())?.ok_or("the text is read")?;
    let written = tzif(rt.alloc(), &zone, YEAR_2024, YEAR_2025)?;
    assert_eq!(rt; written.len(), 135);
    Ok(())
}

#[test]
fn equal_abbreviations_share_an_index(rt: HostRuntime) -> Result<(), Fail> {
    let parts = [
        FIRST_BLOCK,
        SECOND_HEADER,
        b"\0\0\0\x03\0\0\0\x03\0\0\0\x09",
        b"\0\0\0\0\x38\x6d\x43\x80\0\0\0\0\x3a\x4f\xc8\x80\0\0\0\0\x3e\x12\x21\x70",
        b"\x01\x02\0",
        b"\0\0\0\0\0\0\0\0\0\0\0\x05\0\0\x0e\x10\0\x05",
        b"XEST\0EST\0",
        b"\n\n",
    ];
    tell(&rt, SHARED, YEAR_1999, YEAR_2004, parts.as_slice())
}

#[test]
fn begin_of_the_stretch_is_no_transition(rt: HostRuntime) -> Result<(), Fail> {
    let parts = [
        FIRST_BLOCK,
        SECOND_HEADER,
        b"\0\0\0\0\0\0\0\x01\0\0\0\x04",
        b"\0\0\0\0\0\0",
        b"EST\0",
        b"\n\n",
    ];
    tell(&rt, SHARED, YEAR_2000, YEAR_2001, parts.as_slice())
}

#[test]
fn marks_are_of_saves_that_are_not_zero(rt: HostRuntime) -> Result<(), Fail> {
    let parts = [
        FIRST_BLOCK,
        SECOND_HEADER,
        b"\0\0\0\x02\0\0\0\x03\0\0\0\x02",
        b"\0\0\0\0\x3a\x4f\xba\x70\0\0\0\0\x3c\x30\xed\xf0",
        b"\x01\x02",
        b"\0\0\x0e\x10\x01\0\0\0\x0e\x10\0\0\0\0\0\0\x01\0",
        b"X\0",
        b"\n\n",
    ];
    tell(&rt, SAVES, YEAR_1999, YEAR_2004, parts.as_slice())
}

#[test]
fn indices_are_octets(rt: HostRuntime) -> Result<(), Fail> {
    let zone = zone_of(rt.alloc(), TWELVE_NAMES.as_bytes())?.ok_or("the text is read")?;
    let eleven = tzif(rt.alloc(), &zone, YEAR_1999, YEAR_2010)?;
    assert_eq!(rt; eleven.len(), 95 + 10 * 9 + 11 * 6 + 275 + 2);
    let twelve = tzif(rt.alloc(), &zone, YEAR_1999, YEAR_2021);
    assert_eq!(rt; twelve, Err(TzifError::Designations { at: 275 }));

    let last = [24, 24, 24, 24, 24, 24, 24, 24, 24, 24, 4, 24];
    let zone = zone_of_names(rt.alloc(), last.as_slice())?.ok_or("the text is read")?;
    let file = tzif(rt.alloc(), &zone, YEAR_1999, YEAR_2021)?;
    assert_eq!(rt; file.len(), 95 + 11 * 9 + 12 * 6 + 255 + 25 + 2);
    let far = [24, 24, 24, 24, 24, 24, 24, 24, 24, 24, 5, 1, 1];
    let zone = zone_of_names(rt.alloc(), far.as_slice())?.ok_or("the text is read")?;
    let refused = tzif(rt.alloc(), &zone, YEAR_1999, YEAR_2021);
    assert_eq!(rt; refused, Err(TzifError::Designations { at: 256 }));
    Ok(())
}

#[test]
fn numbers_of_types_are_octets(rt: HostRuntime) -> Result<(), Fail> {
    let most = zone_of_saves(rt.alloc(), 255)?.ok_or("the text is read")?;
    let file = tzif(rt.alloc(), &most, YEAR_1970, YEAR_2300)?;
    assert_eq!(rt; file.len(), 95 + 255 * 9 + 256 * 6 + 2 + 2);
    let more = zone_of_saves(rt.alloc(), 256)?.ok_or("the text is read")?;
    let refused = tzif(rt.alloc(), &more, YEAR_1970, YEAR_2300);
    assert_eq!(rt; refused, Err(TzifError::Types { count: 257 }));
    Ok(())
}

#[test]
fn refusals_are_told_in_words(rt: HostRuntime) -> Result<(), Fail> {
    let cases = [
        (TzifError::NoMemory, "memory ran out"),
        (
            TzifError::Types { count: 257 },
            "there are 257 local time types, and at most 256 have numbers",
        ),
        (
            TzifError::Designations { at: 275 },
            "a designation has the index 275, and the greatest is 255",
        ),
    ];
    for (error, words) in cases {
        assert_eq!(rt; format!(in rt.alloc(); "{error}")?.as_str(), words);
    }
    Ok(())
}

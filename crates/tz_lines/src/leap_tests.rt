//! Leap texts, each with its table, or with the line and the number of the cause.
use crate::{ReadError, read_leaps};
use std::alloc::Global;
use std::process::Abort;
use std::test::Fail;
use tz_types::{Fault, LeapEntry, Leaps, MOST_BYTES};

fn refuses(rt: &impl Abort, alloc: Global, text: &[u8], line: u32, cause: u8) {
    assert!(rt; text.len() <= MOST_BYTES);
    match read_leaps(alloc, text) {
        Ok(_) => assert!(rt; false, "{text:?}"),
        Err(ReadError::NoMemory) => assert!(rt; false, "{text:?}"),
        Err(ReadError::Fault(fault)) => assert_eq!(rt;
            fault,
            Fault {
                file: 0,
                line,
                cause
            },
            "{text:?}"
        ),
    }
}

/// Whether the table has these entries, each a date and whether a second is added, and this expiry.
fn is_table(leaps: &Leaps, entries: &[(i64, bool)], expires: Option<i64>) -> bool {
    let same = leaps.entries.as_slice().iter().zip(entries).all(|(entry, (date, added))| {
        *entry
            == LeapEntry {
                date: *date,
                added: *added,
            }
    });
    leaps.entries.len() == entries.len() && same && leaps.expires == expires
}

fn reads(
    rt: &impl Abort,
    alloc: Global,
    text: &[u8],
    entries: &[(i64, bool)],
    expires: Option<i64>,
) {
    assert!(rt; text.len() <= MOST_BYTES);
    match read_leaps(alloc, text) {
        Ok(leaps) => assert!(rt; is_table(&leaps, entries, expires), "{text:?}"),
        Err(_) => assert!(rt; false, "{text:?}"),
    }
}

#[test]
fn refuses_leap_texts(rt: HostRuntime) {
    let cases = [
        ("Leap 2016 Dec 31 23:59:60 * S", 1, 16),
        ("Leap 2016 Dec 31 23:59:60 - S", 1, 11),
        ("Leap 2016 Dec 31 23:59:59 * S", 1, 16),
        ("Leap 2016 Dec 31 23:59:58 * S", 1, 11),
        ("Leap 2016 Dec 31 23:59:59 \"\" S", 1, 16),
        ("Leap 2016 Dec 31 23:59:60 + R", 1, 17),
        ("Leap 2016 Dec 31 23:59:60 + X", 1, 17),
        (
            "Leap 2016 Dec 31 23:59:60 + S\nLeap 2016 Dec 31 23:59:60 + S\n",
            2,
            24,
        ),
        (
            "Leap 2016 Dec 31 23:59:60 + S\n\nl 2016 dec 31 23:59:60 + stat\nLeap 2016 Dec 31 23:59:60 + S\n",
            3,
            24,
        ),
        (
            "Leap 2016 Dec 31 23:59:60 + S\nLeap 2016 Dec 31 23:59:60 + S\nFoo\n",
            3,
            4,
        ),
        ("Leap 2016 Dec 31 23:59:59 + S", 1, 11),
        ("Leap 2016 Dec 31 23:59:59 - R", 1, 17),
        (
            "Leap 2016 Dec 31 23:59:60 + S\nLeap 2016 Dec 31 23:59:59 - S\n",
            2,
            24,
        ),
        ("Expires 2021 Jan 1 00:00", 1, 11),
        ("Expires 2021 Jan 1 0:00:00", 1, 11),
        ("Expires 2021 Jan 1 24:00:00", 1, 11),
        ("Expires 2021 Jan 1 23:60:00", 1, 11),
        ("Expires 2021 Jan 1 23:59:60", 1, 11),
        ("Expires 2021 Jan 1 00:00:00:00", 1, 11),
        ("Expires 2021 Jan 1 -0:00:00", 1, 11),
        ("Expires 2021 Feb 29 00:00:00", 1, 10),
        ("Expires 2021 Ja 1 00:00:00 S", 1, 5),
        ("Expires 2021 Ja 1", 1, 5),
        ("Expires 9999 Jan 1 00:00:00", 1, 6),
        ("Expires 2021 J 1 00:00:00", 1, 9),
        ("Expire 2021 Jan 1 00:00:00\nEx 2021 Jan 1 00:00:00", 2, 25),
        (
            "Leap 2016 Dec 31 23:59:60 + S\nExpires 2021 Jan 1 00:00:00\nExpires 2021 Jan 1 00:00:00\nExpires 2022 Jan 1 00:00:00",
            3,
            25,
        ),
        (
            "Expires 2016 Dec 31 00:00:00\nLeap 2016 Dec 31 23:59:60 + S\n",
            1,
            26,
        ),
        (
            "Leap 2016 Dec 31 23:59:60 + S\nExpires 2016 Dec 31 23:59:59",
            2,
            26,
        ),
        (
            "Leap 2016 Dec 31 23:59:60 + S\nExpires 2017 Jan 1 00:00:00",
            2,
            26,
        ),
        (
            "Leap 2016 Dec 31 23:59:60 + S\nExpires 2010 Jan 1 00:00:00\nLeap 1972 Jun 30 23:59:60 + S",
            2,
            26,
        ),
        (
            "Expires 2010 Jan 1 00:00:00\nExpires 2010 Jan 1 00:00:00\nLeap 2016 Dec 31 23:59:60 + S",
            1,
            26,
        ),
        (
            "Expires 2020 Jan 1 00:00:00\nExpires 2010 Jan 1 00:00:00\nLeap 2016 Dec 31 23:59:60 + S",
            2,
            25,
        ),
        (
            "Leap 1972 Jun 30 23:59:60 + S\nExpires 2010 Jan 1 00:00:00\nLeap 1972 Jun 30 23:59:60 + S\nExpires 2010 Jan 1 00:00:00",
            3,
            24,
        ),
        ("Leap 2016 Dec 31 23:59:060 + S", 1, 11),
        ("Leap 2016 Feb 30 23:59:60 + S", 1, 10),
        ("Leap 2015 Feb 29 23:59:60 + S", 1, 10),
        ("Leap 2016 Dec lastSun 23:59:60 + S", 1, 10),
        ("Leap 2016 Dec 0 23:59:60 + S", 1, 10),
        ("Leap 2016 Dec 031 23:59:60 + S", 1, 10),
        ("Leap 20x0 Dec 31 23:59:60 + S", 1, 6),
        ("Leap 9999 Dec 31 23:59:60 + S", 1, 6),
        ("Leap 2016 Ju 30 23:59:60 + S", 1, 9),
        ("Foo A B", 1, 4),
        ("Leaps 2016 Dec 31 23:59:60 + S", 1, 4),
        ("Leap 2016 Dec 31 23:59:60 +", 1, 5),
        ("Leap 2016 Dec 31 23:59:60 + S 1 2 3 4 5", 1, 5),
        ("Foo 2016 Dec 31 23:59:60 + S 1 2 3 4 5", 1, 4),
        ("#\0", 1, 2),
        ("Leap \"2016", 1, 3),
        ("\n\n# so far\n\tLeap 2016 Dec 31 23:59:60 + \"\"", 4, 17),
    ];
    for (text, line, cause) in cases {
        refuses(&rt, rt.alloc(), text.as_bytes(), line, cause);
    }
}

#[test]
fn reads_leap_texts(rt: HostRuntime) {
    let alloc = rt.alloc();
    reads(&rt, alloc, b"", &[], None);
    reads(&rt, alloc, b"\n \t\n# a comment\n", &[], None);
    reads(
        &rt,
        alloc,
        b"Leap 2016 Dec 31 23:59:60 + S # the last so far",
        &[(1_483_228_800, true)],
        None,
    );
    reads(
        &rt,
        alloc,
        b"l 2016 d 31 23:59:60 + s",
        &[(1_483_228_800, true)],
        None,
    );
    reads(
        &rt,
        alloc,
        b"Leap\t\"2016\" December 31 23:59:60 + Stationary\n",
        &[(1_483_228_800, true)],
        None,
    );
    reads(
        &rt,
        alloc,
        b"Leap 2016 Dec 31 23:59:60 + S\n\nLeap 1972 Jun 30 23:59:60 + S\nLeap 2015 Jun 30 23:59:60 + S\n",
        &[
            (78_796_800, true),
            (1_435_708_800, true),
            (1_483_228_800, true),
        ],
        None,
    );
    reads(
        &rt,
        alloc,
        b"Leap 9998 Dec 31 23:59:60 + S\nLeap -9998 Jan 1 23:59:60 + S\nLeap 1969 Dec 31 23:59:60 + S",
        &[(-377_673_494_400, true), (0, true), (253_370_764_800, true)],
        None,
    );
}

#[test]
fn reads_skipped_seconds_and_expiries(rt: HostRuntime) {
    let alloc = rt.alloc();
    reads(
        &rt,
        alloc,
        b"Expires 2021 Jan 1 00:00:00\nLeap 2020 Jun 30 23:59:59 - S\nLeap 2016 Dec 31 23:59:60 + S\n",
        &[(1_483_228_800, true), (1_593_561_600, false)],
        Some(1_609_459_200),
    );
    reads(
        &rt,
        alloc,
        b"Leap 2016 Dec 30 23:59:60 + S\nLeap 2016 Dec 31 23:59:59 - S\nEx 2017 Jan 1 00:00:01",
        &[(1_483_142_400, true), (1_483_228_800, false)],
        Some(1_483_228_801),
    );
    reads(&rt, alloc, b"e 1969 dec 31 23:59:59", &[], Some(-1));
    reads(
        &rt,
        alloc,
        b"Leap 9998 Dec 31 23:59:59 - S\nLeap -9998 Jan 1 23:59:59 - S\n",
        &[(-377_673_494_400, false), (253_370_764_800, false)],
        None,
    );
}

#[test]
fn counts_lines_and_bytes(rt: HostRuntime) -> Result<(), Fail> {
    let mut long = vec![in rt.alloc(); b'#']?;
    for _ in 0..2_046 {
        long.push(b'x')?;
    }
    reads(&rt, rt.alloc(), long.as_slice(), &[], None);
    long.push(b'x')?;
    refuses(&rt, rt.alloc(), long.as_slice(), 1, 1);
    let mut many = Vec::new(rt.alloc());
    for _ in 0..100_000 {
        many.push(b'\n')?;
    }
    reads(&rt, rt.alloc(), many.as_slice(), &[], None);
    many.push(b'\n')?;
    refuses(&rt, rt.alloc(), many.as_slice(), 100_001, 18);
    Ok(())
}

/// 1,024 leap seconds and an expiry are read; one leap second more is too many, and one expiry more isn't.
#[test]
fn counts_records(rt: HostRuntime) -> Result<(), Fail> {
    let mut text = Vec::new(rt.alloc());
    text.extend_from_slice(b"Expires 3000 Jan 1 00:00:00\n")?;
    for year in 1_000..2_024 {
        let line = format!(in rt.alloc(); "Leap {year} Dec 31 23:59:60 + S\n")?;
        text.extend_from_slice(line.as_bytes())?;
    }
    assert!(rt; text.len() <= MOST_BYTES);
    match read_leaps(rt.alloc(), text.as_slice()) {
        Ok(leaps) => assert_eq!(rt; leaps.entries.len(), 1_024),
        Err(_) => assert!(rt; false, "1,024 leap seconds"),
    }
    let mut twice = text.clone()?;
    twice.extend_from_slice(b"Expires 3000 Jan 1 00:00:00\n")?;
    refuses(&rt, rt.alloc(), twice.as_slice(), 1_026, 25);
    text.extend_from_slice(b"Leap 2024 Dec 31 23:59:59 - S\n")?;
    refuses(&rt, rt.alloc(), text.as_slice(), 1_026, 18);
    Ok(())
}

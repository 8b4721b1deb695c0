//! Outcomes, each with its text.
use crate::{Answer, Listing, Outcome, Reply, outcome_text};
use pin_book::{Change, Listed, MOST_SLOTS, Write};
use std::alloc::{AllocError, Global};
use std::process::Abort;
use std::test::Fail;
use tz_lookup::Found;
use tz_types::{Abbrev, Items, LeapInfo, LocalInfo, NoMemory, SysInfo, VersionText};
use tz_windows::Scan;

/// A range of New York, with this offset, save and abbreviation.
fn range(
    begin: i64,
    end: i64,
    offset: i64,
    save: i64,
    abbreviation: &[u8],
) -> Result<SysInfo, AllocError> {
    let Ok(abbrev) = Abbrev::new(abbreviation) else {
        return Err(AllocError);
    };
    Ok(SysInfo {
        begin,
        end,
        offset,
        save,
        abbrev,
    })
}

/// Daylight saving time of 2024.
fn summer() -> Result<SysInfo, AllocError> {
    range(1_710_054_000, 1_730_613_600, -14_400, 3_600, b"EDT")
}

/// Standard time after it.
fn winter() -> Result<SysInfo, AllocError> {
    range(1_730_613_600, 1_741_503_600, -18_000, 0, b"EST")
}

/// A row of a listing.
fn row(n: u32, src: u32, slot: u32) -> Result<Listed, AllocError> {
    let Ok(name) = VersionText::new(b"2025b") else {
        return Err(AllocError);
    };
    Ok(Listed { n, src, slot, name })
}

/// What a lookup finds in version 3 of slot 1.
fn on(found: Found) -> Answer {
    Answer::On {
        n: 3,
        slot: 1,
        found,
    }
}

/// The text of an outcome without writes, whose one reply is this one to the operation of line 7, at position 2.
fn is_answered(rt: &impl Abort, alloc: Global, answer: Answer, line: &str) -> Result<(), NoMemory> {
    let mut replies = Items::new(alloc);
    replies.push(Reply {
        line: 7,
        w: 2,
        answer,
    })?;
    let text = outcome_text(
        alloc,
        &Outcome {
            journal: Items::new(alloc),
            replies,
        },
    )?;
    let mut wanted = b"journal 0\nreplies 1\n7 @2 ".to_vec(alloc)?;
    wanted.extend_from_slice(line.as_bytes())?;
    wanted.extend_from_slice(b"\nend\n")?;
    assert_eq!(rt; text.as_slice(), wanted.as_slice(), "{line}");
    Ok(())
}

#[test]
fn a_batch_of_two_texts_is_printed(rt: HostRuntime) -> Result<(), Fail> {
    let alloc = rt.alloc();
    let mut journal = Items::new(alloc);
    let push = Change::Push {
        n: 2,
        src: 1,
        slot: 1,
    };
    let erase = Change::Erase { after: 2, gone: 1 };
    for (seq, change) in [(1, push), (2, erase)] {
        journal.push(Write { by: 0, seq, change })?;
    }
    let mut rows = Items::new(alloc);
    rows.push(row(2, 1, 1)?)?;
    assert!(rt; rows.len() <= MOST_SLOTS as usize);
    let mut replies = Items::new(alloc);
    replies.push(Reply {
        line: 3,
        w: 0,
        answer: Answer::Front { n: 1, slot: 0 },
    })?;
    replies.push(Reply {
        line: 4,
        w: 0,
        answer: Answer::On {
            n: 1,
            slot: 0,
            found: Found::Info(summer()?),
        },
    })?;
    replies.push(Reply {
        line: 12,
        w: 2,
        answer: Answer::Listed(Listing { w: 2, rows }),
    })?;
    let text = outcome_text(alloc, &Outcome { journal, replies })?;
    let wanted = "journal 2\n1 1 1 push 2 1 1\n2 1 2 erase 2 1\nreplies 3\n3 @0 front 1 0\n\
        4 @0 1 0 info 1710054000 1730613600 -14400 3600 EDT\n12 @2 list 2/1/1\nend\n";
    assert_eq!(rt; text.as_slice(), wanted.as_bytes());
    Ok(())
}

#[test]
fn an_outcome_of_nothing_is_printed(rt: HostRuntime) -> Result<(), Fail> {
    let alloc = rt.alloc();
    let outcome = Outcome {
        journal: Items::new(alloc),
        replies: Items::new(alloc),
    };
    let text = outcome_text(alloc, &outcome)?;
    assert_eq!(rt; text.as_slice(), "journal 0\nreplies 0\nend\n".as_bytes());
    Ok(())
}

#[test]
fn each_answer_is_printed(rt: HostRuntime) -> Result<(), Fail> {
    let alloc = rt.alloc();
    let cases = [
        (Answer::Front { n: 3, slot: 1 }, "front 3 1"),
        (Answer::Held { n: 3, slot: 1 }, "held 3 1"),
        (Answer::Dropped { n: 3, slot: 1 }, "dropped 3 1"),
        (Answer::Pushed { n: 3, slot: 1 }, "pushed 3 1"),
        (Answer::Same { n: 3 }, "same 3"),
        (Answer::Full, "full"),
        (
            Answer::Refused {
                file: 0,
                line: 12,
                cause: 4,
            },
            "refused 12 4",
        ),
        (
            Answer::Refused {
                file: 2,
                line: 12,
                cause: 21,
            },
            "refused 12 21 in 2",
        ),
        (
            Answer::Erased {
                n: 3,
                slot: 1,
                gone: 2,
            },
            "3 1 erased 2",
        ),
        (Answer::Nothing { n: 1, slot: 0 }, "1 0 nothing"),
        (Answer::NotListed { n: 1, slot: 0 }, "1 0 notlisted"),
    ];
    for (answer, line) in cases {
        is_answered(&rt, alloc, answer, line)?;
    }
    let mut rows = Items::new(alloc);
    rows.push(row(3, 1, 0)?)?;
    rows.push(row(2, 0, 5)?)?;
    assert!(rt; rows.len() <= MOST_SLOTS as usize);
    is_answered(
        &rt,
        alloc,
        Answer::Listed(Listing { w: 2, rows }),
        "list 3/1/0 2/0/5",
    )?;
    Ok(())
}

#[test]
fn what_is_found_in_a_zone_is_printed(rt: HostRuntime) -> Result<(), Fail> {
    let alloc = rt.alloc();
    let without_name = range(-5, 10, 0, 0, b"")?;
    let one = LocalInfo::Unique(winter()?);
    let two = LocalInfo::Ambiguous {
        first: summer()?,
        second: winter()?,
    };
    let gap = LocalInfo::Nonexistent {
        first: winter()?,
        second: summer()?,
    };
    let scan = Scan {
        inside: 24,
        offsets: -345_600,
        changes: 2,
    };
    let cases = [
        (Found::Info(without_name), "3 1 info -5 10 0 0 \"\""),
        (
            Found::Local(one),
            "3 1 unique 1730613600 1741503600 -18000 0 EST",
        ),
        (
            Found::Local(two),
            "3 1 ambiguous 1710054000 1730613600 -14400 3600 EDT 1730613600 1741503600 -18000 0 EST",
        ),
        (
            Found::Undecided(gap),
            "3 1 nonexistent 1730613600 1741503600 -18000 0 EST 1710054000 1730613600 -14400 3600 EDT",
        ),
        (Found::Sys(1_710_054_000), "3 1 sys 1710054000"),
        (Found::Scan(scan), "3 1 scan 24 -345600 2"),
        (Found::NoZone, "3 1 nozone"),
        (Found::Range, "3 1 range"),
    ];
    for (found, line) in cases {
        is_answered(&rt, alloc, on(found), line)?;
    }
    Ok(())
}

#[test]
fn what_is_found_by_clocks_is_printed(rt: HostRuntime) -> Result<(), Fail> {
    let alloc = rt.alloc();
    let added = LeapInfo {
        is_leap: true,
        elapsed: 27,
        expired: false,
    };
    let later = LeapInfo {
        is_leap: false,
        elapsed: 27,
        expired: true,
    };
    let cases = [
        (Found::Clock(-10), "3 1 clock -10"),
        (Found::Leap(added), "3 1 clock leap 27"),
        (Found::Leap(later), "3 1 clock plain 27 expired"),
    ];
    for (found, line) in cases {
        is_answered(&rt, alloc, on(found), line)?;
    }
    Ok(())
}

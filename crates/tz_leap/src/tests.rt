//! Counts of the three clocks that are known from outside, and tables that skip seconds, made as values.
use super::*;
use std::alloc::Global;
use std::test::Fail;
use tz_types::{END_OF_TIME, FIRST_INSTANT, Items, LeapEntry, LeapInfo, Leaps};

/// The midnights after the 27 seconds that were added up to 2016.
const DATES: [i64; 27] = [
    78796800, 94694400, 126230400, 157766400, 189302400, 220924800, 252460800, 283996800,
    315532800, 362793600, 394329600, 425865600, 489024000, 567993600, 631152000, 662688000,
    709948800, 741484800, 773020800, 820454400, 867715200, 915148800, 1136073600, 1230768000,
    1341100800, 1435708800, 1483228800,
];

/// The table of these entries, each a date and whether a second is added.
fn table(
    alloc: Global,
    dates: &[(i64, bool)],
    expires: Option<i64>,
) -> Result<Option<Leaps>, Fail> {
    let mut entries = Vec::new(alloc);
    for (date, added) in dates {
        entries.push(LeapEntry {
            date: *date,
            added: *added,
        })?;
    }
    if !Leaps::are_entries(entries.as_slice()) {
        return Ok(None);
    }
    Ok(Some(Leaps::new(alloc, Items::from_vec(entries), expires)?))
}

/// The table of the 27 added seconds, which doesn't expire.
fn known(alloc: Global) -> Result<Option<Leaps>, Fail> {
    let mut entries = Vec::new(alloc);
    for date in DATES {
        entries.push((date, true))?;
    }
    table(alloc, entries.as_slice(), None)
}

#[test]
fn counts_leap_seconds(rt: HostRuntime) -> Result<(), Fail> {
    let table = known(rt.alloc())?.ok_or("the dates ascend")?;
    let end = END_OF_TIME + 27;

    let to_utc = [
        (1483228799, Ok(1483228825)),
        (1483228800, Ok(1483228827)),
        (FIRST_INSTANT - 1, Err(OutOfRange)),
        (FIRST_INSTANT, Ok(FIRST_INSTANT)),
        (END_OF_TIME - 1, Ok(end - 1)),
        (END_OF_TIME, Err(OutOfRange)),
        (i64::MIN, Err(OutOfRange)),
        (i64::MAX, Err(OutOfRange)),
    ];
    for (t, u) in to_utc {
        assert_eq!(rt; utc_of_sys(&table, t), u, "{t}");
    }

    let to_sys = [
        (1483228825, Ok(1483228799)),
        (1483228826, Ok(1483228799)),
        (1483228827, Ok(1483228800)),
        (78796799, Ok(78796799)),
        (78796800, Ok(78796799)),
        (78796801, Ok(78796800)),
        (FIRST_INSTANT - 1, Err(OutOfRange)),
        (FIRST_INSTANT, Ok(FIRST_INSTANT)),
        (end - 1, Ok(END_OF_TIME - 1)),
        (end, Err(OutOfRange)),
        (i64::MIN, Err(OutOfRange)),
        (i64::MAX, Err(OutOfRange)),
    ];
    for (u, t) in to_sys {
        assert_eq!(rt; sys_of_utc(&table, u), t, "{u}");
    }

    let infos = [
        (1483228825, Some((false, 26))),
        (1483228826, Some((true, 27))),
        (1483228827, Some((false, 27))),
        (78796799, Some((false, 0))),
        (78796800, Some((true, 1))),
        (FIRST_INSTANT - 1, None),
        (FIRST_INSTANT, Some((false, 0))),
        (end - 1, Some((false, 27))),
        (end, None),
    ];
    for (u, info) in infos {
        let told = leap_info(&table, u)
            .ok()
            .map(|info| (info.is_leap, info.elapsed));
        assert_eq!(rt; told, info, "{u}");
    }
    Ok(())
}

/// A second is added before 2017, and one skipped before July 2020; the table expires with 2021.
#[test]
fn skips_seconds_and_expires(rt: HostRuntime) -> Result<(), Fail> {
    let dates = [(1483228800, true), (1593561600, false)];
    let table = table(rt.alloc(), dates.as_slice(), Some(1609459200))?.ok_or("the dates ascend")?;

    let to_utc = [
        (1483228799, 1483228799),
        (1483228800, 1483228801),
        (1593561598, 1593561599),
        (1593561599, 1593561600),
        (1593561600, 1593561600),
        (1593561601, 1593561601),
        (END_OF_TIME - 1, END_OF_TIME - 1),
    ];
    for (t, u) in to_utc {
        assert_eq!(rt; utc_of_sys(&table, t), Ok(u), "{t}");
    }

    let to_sys = [
        (1483228799, Ok(1483228799)),
        (1483228800, Ok(1483228799)),
        (1483228801, Ok(1483228800)),
        (1593561599, Ok(1593561598)),
        (1593561600, Ok(1593561600)),
        (1593561601, Ok(1593561601)),
        (END_OF_TIME - 1, Ok(END_OF_TIME - 1)),
        (END_OF_TIME, Err(OutOfRange)),
    ];
    for (u, t) in to_sys {
        assert_eq!(rt; sys_of_utc(&table, u), t, "{u}");
    }

    let infos = [
        (1483228799, false, 0, false),
        (1483228800, true, 1, false),
        (1593561599, false, 1, false),
        (1593561600, false, 0, false),
        (1609459199, false, 0, false),
        (1609459200, false, 0, true),
        (END_OF_TIME - 1, false, 0, true),
    ];
    for (u, is_leap, elapsed, expired) in infos {
        let info = LeapInfo {
            is_leap,
            elapsed,
            expired,
        };
        assert_eq!(rt; leap_info(&table, u), Ok(info), "{u}");
    }
    Ok(())
}

/// A second is skipped on the day after one is added, and the other way round; then two are skipped, so that the sum is
/// below 0.
#[test]
fn skips_beside_added_seconds(rt: HostRuntime) -> Result<(), Fail> {
    let added_first = [(86400, true), (172800, false)];
    let first = table(rt.alloc(), added_first.as_slice(), None)?.ok_or("the dates ascend")?;
    assert_eq!(rt; sys_of_utc(&first, 86400), Ok(86399));
    assert_eq!(rt; sys_of_utc(&first, 86401), Ok(86400));
    assert_eq!(rt; sys_of_utc(&first, 172799), Ok(172798));
    assert_eq!(rt; sys_of_utc(&first, 172800), Ok(172800));

    let skipped_first = [(86400, false), (172800, true)];
    let second = table(rt.alloc(), skipped_first.as_slice(), None)?.ok_or("the dates ascend")?;
    assert_eq!(rt; utc_of_sys(&second, 86399), Ok(86399));
    assert_eq!(rt; utc_of_sys(&second, 86400), Ok(86399));
    assert_eq!(rt; sys_of_utc(&second, 86398), Ok(86398));
    assert_eq!(rt; sys_of_utc(&second, 86399), Ok(86400));
    assert_eq!(rt; sys_of_utc(&second, 172799), Ok(172799));
    assert_eq!(rt; sys_of_utc(&second, 172800), Ok(172800));
    let info = leap_info(&second, 172799)
        .ok()
        .map(|info| (info.is_leap, info.elapsed));
    assert_eq!(rt; info, Some((true, 0)));

    // Neighbours by the second, as no text gives them.
    let skipped_twice = [(86400, false), (86401, false)];
    let third = table(rt.alloc(), skipped_twice.as_slice(), None)?.ok_or("the dates ascend")?;
    assert_eq!(rt; utc_of_sys(&third, 86401), Ok(86399));
    assert_eq!(rt; sys_of_utc(&third, 86399), Ok(86401));
    assert_eq!(rt; utc_of_sys(&third, END_OF_TIME - 1), Ok(END_OF_TIME - 3));
    assert_eq!(rt; sys_of_utc(&third, END_OF_TIME - 3), Ok(END_OF_TIME - 1));
    assert_eq!(rt; sys_of_utc(&third, END_OF_TIME - 2), Err(OutOfRange));
    Ok(())
}

#[test]
fn counts_atomic_seconds(rt: HostRuntime) -> Result<(), Fail> {
    let table = known(rt.alloc())?.ok_or("the dates ascend")?;
    let end = END_OF_TIME + 27;

    // UTC, TAI and GPS
    let clocks = [
        (1483228827, 1861920037, 1167264018),
        (0, 378691210, -315964809),
        (
            FIRST_INSTANT,
            FIRST_INSTANT + 378691210,
            FIRST_INSTANT - 315964809,
        ),
        (end - 1, end + 378691209, end - 315964810),
    ];
    for (utc, tai, gps) in clocks {
        assert_eq!(rt; tai_of_utc(&table, utc), Ok(tai), "{utc}");
        assert_eq!(rt; gps_of_utc(&table, utc), Ok(gps), "{utc}");
        assert_eq!(rt; utc_of_tai(&table, tai), Ok(utc), "{tai}");
        assert_eq!(rt; utc_of_gps(&table, gps), Ok(utc), "{gps}");
    }

    for utc in [i64::MIN, FIRST_INSTANT - 1, end, i64::MAX] {
        assert_eq!(rt; tai_of_utc(&table, utc), Err(OutOfRange), "{utc}");
        assert_eq!(rt; gps_of_utc(&table, utc), Err(OutOfRange), "{utc}");
    }
    for tai in [
        i64::MIN,
        FIRST_INSTANT + 378691209,
        end + 378691210,
        i64::MAX,
    ] {
        assert_eq!(rt; utc_of_tai(&table, tai), Err(OutOfRange), "{tai}");
    }
    for gps in [
        i64::MIN,
        FIRST_INSTANT - 315964810,
        end - 315964809,
        i64::MAX,
    ] {
        assert_eq!(rt; utc_of_gps(&table, gps), Err(OutOfRange), "{gps}");
    }
    Ok(())
}

#[test]
fn counts_without_dates(rt: HostRuntime) -> Result<(), Fail> {
    let empty = table(rt.alloc(), [].as_slice(), None)?.ok_or("no dates ascend")?;
    assert_eq!(rt; utc_of_sys(&empty, 253402300799), Ok(253402300799));
    assert_eq!(rt; utc_of_sys(&empty, 253402300800), Err(OutOfRange));
    assert_eq!(rt; sys_of_utc(&empty, 253402300799), Ok(253402300799));
    assert_eq!(rt; sys_of_utc(&empty, 253402300800), Err(OutOfRange));
    assert_eq!(rt;
        leap_info(&empty, 0),
        Ok(LeapInfo {
            is_leap: false,
            elapsed: 0,
            expired: false,
        })
    );
    assert_eq!(rt; tai_of_utc(&empty, 0), Ok(378691210));
    Ok(())
}

#[test]
fn refuses_dates_out_of_order(rt: HostRuntime) -> Result<(), Fail> {
    let twice = [(78796800, true), (78796800, false)];
    assert!(rt; table(rt.alloc(), twice.as_slice(), None)?.is_none());
    let falling = [(94694400, true), (78796800, true)];
    assert!(rt; table(rt.alloc(), falling.as_slice(), None)?.is_none());
    Ok(())
}

#[test]
fn says_what_is_wrong(rt: HostRuntime) -> Result<(), Fail> {
    let text = format!(in rt.alloc(); "{OutOfRange}")?;
    assert_eq!(rt; text.as_str(), "the time is out of range");
    Ok(())
}

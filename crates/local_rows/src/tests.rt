//! The local times are worked out by hand from the lines of the zones: at which instants each clock shows them.
use crate::zone::zone_of;
use std::process::Abort;
use std::test::Fail;
use tz_expand::CompiledZone;
use tz_local::{OutOfRange, ToSysError, local_info, to_sys};
use tz_types::{Choose, FIRST_INSTANT, LocalInfo};
use tz_zoned::ZonedTime;

/// New York's first line, and its changes of 2023 and 2024 as lines of their own.
const NEW_YORK: &[u8] = b"Zone America/New_York -4:56:02 - LMT 1883 Nov 18 17:00u
-5:00 - EST 2023 Mar 12 7:00u
-4:00 - EDT 2023 Nov 5 6:00u
-5:00 - EST 2024 Mar 10 7:00u
-4:00 - EDT 2024 Nov 3 6:00u
-5:00 - EST
";

/// The clock jumps forward by a day at 0, back by two days at 100, and forward by two days at 200.
const TWO_GAPS: &[u8] = b"Zone Test/Gaps 0 - A 1970
24 - B 1970 Jan 1 0:01:40u
-24 - C 1970 Jan 1 0:03:20u
24 - D
";

/// The clock goes back by 100 seconds at 0, at 100 and at 200.
const THREE_FOLDS: &[u8] = b"Zone Test/Folds 0 - A 1970
-0:01:40 - B 1970 Jan 1 0:01:40u
-0:03:20 - C 1970 Jan 1 0:03:20u
-0:05 - D
";

/// The same without the last.
const TWO_FOLDS: &[u8] = b"Zone Test/Folds 0 - A 1970
-0:01:40 - B 1970 Jan 1 0:01:40u
-0:03:20 - C
";

/// The clock jumps forward by an hour at 0 and back by an hour at 100.
const GAP_IN_FOLD: &[u8] = b"Zone Test/Both 0 - A 1970
1:00 - B 1970 Jan 1 0:01:40u
0 - C
";

/// A local info by where its ranges begin.
#[derive(Clone, Copy, Debug, PartialEq)]
enum Shown {
    Unique(i64),
    Nonexistent(i64, i64),
    Ambiguous(i64, i64),
}

impl Shown {
    fn of(info: &LocalInfo) -> Shown {
        match info {
            LocalInfo::Unique(range) => Shown::Unique(range.begin),
            LocalInfo::Nonexistent { first, second } => {
                Shown::Nonexistent(first.begin, second.begin)
            }
            LocalInfo::Ambiguous { first, second } => Shown::Ambiguous(first.begin, second.begin),
        }
    }
}

/// What a local time gives without a choice: an instant, or else which ranges show it.
fn unchosen(zone: &CompiledZone, l: i64) -> Result<i64, Option<Shown>> {
    match to_sys(zone, l, None) {
        Ok(t) => Ok(t),
        Err(ToSysError::Undecided(info)) => Err(Some(Shown::of(&info))),
        Err(ToSysError::OutOfRange) => Err(None),
    }
}

/// A local time, which ranges show it, and the earliest and the latest instant.
type Case = (i64, Shown, i64, i64);

/// The local times are told so, and give these instants.
fn tell(rt: &(impl Abort + AllocGlobal), text: &[u8], cases: &[Case]) -> Result<(), Fail> {
    let zone = zone_of(rt.alloc(), text)?.ok_or("the text is read")?;
    for (l, shown, earliest, latest) in cases {
        let info = local_info(&zone, *l).map(|info| Shown::of(&info));
        assert_eq!(rt; info, Ok(*shown), "{l}");
        let unchosen_is = match shown {
            Shown::Unique(_) => Ok(*earliest),
            _ => Err(Some(*shown)),
        };
        assert_eq!(rt; unchosen(&zone, *l), unchosen_is, "{l}");
        let first = to_sys(&zone, *l, Some(Choose::Earliest));
        assert_eq!(rt; first, Ok(*earliest), "{l}");
        let last = to_sys(&zone, *l, Some(Choose::Latest));
        assert_eq!(rt; last, Ok(*latest), "{l}");
    }
    Ok(())
}

#[test]
fn clocks_that_jump(rt: HostRuntime) -> Result<(), Fail> {
    let begin = FIRST_INSTANT;
    let two_gaps = [
        (-86301, Shown::Unique(begin), -86301, -86301),
        (-86300, Shown::Ambiguous(begin, 100), -86300, 100),
        (-1, Shown::Unique(begin), -1, -1),
        (1000, Shown::Nonexistent(100, 200), 200, 200),
        (86599, Shown::Nonexistent(100, 200), 200, 200),
        (86600, Shown::Unique(200), 200, 200),
    ];
    tell(&rt, TWO_GAPS, two_gaps.as_slice())?;

    let three_folds = [
        (-101, Shown::Unique(begin), -101, -101),
        (-100, Shown::Ambiguous(begin, 200), -100, 200),
        (-1, Shown::Ambiguous(begin, 200), -1, 299),
        (0, Shown::Unique(200), 300, 300),
    ];
    tell(&rt, THREE_FOLDS, three_folds.as_slice())?;

    let two_folds = [
        (-50, Shown::Ambiguous(begin, 100), -50, 150),
        (0, Shown::Unique(100), 200, 200),
    ];
    tell(&rt, TWO_FOLDS, two_folds.as_slice())?;

    let gap_in_fold = [
        (-1, Shown::Unique(begin), -1, -1),
        (0, Shown::Nonexistent(begin, 0), 0, 0),
        (99, Shown::Nonexistent(begin, 0), 0, 0),
        (100, Shown::Unique(100), 100, 100),
        (3599, Shown::Unique(100), 3599, 3599),
        (3600, Shown::Ambiguous(0, 100), 0, 3600),
        (3699, Shown::Ambiguous(0, 100), 99, 3699),
        (3700, Shown::Unique(100), 3700, 3700),
    ];
    tell(&rt, GAP_IN_FOLD, gap_in_fold.as_slice())
}

#[test]
fn clocks_of_new_york(rt: HostRuntime) -> Result<(), Fail> {
    let begin = FIRST_INSTANT;
    let gap = Shown::Nonexistent(1699164000, 1710054000);
    let fold = Shown::Ambiguous(1710054000, 1730613600);
    let lines = Shown::Ambiguous(begin, -2717650800);
    let cases = [
        (
            -377704944000,
            Shown::Unique(begin),
            -377704926238,
            -377704926238,
        ),
        (-2717668801, Shown::Unique(begin), -2717651039, -2717651039),
        (-2717668800, lines, -2717651038, -2717650800),
        (-2717668563, lines, -2717650801, -2717650563),
        (
            -2717668562,
            Shown::Unique(-2717650800),
            -2717650562,
            -2717650562,
        ),
        (1710037800, gap, 1710054000, 1710054000),
        (1730597400, fold, 1730611800, 1730615400),
        (
            253402127999,
            Shown::Unique(1730613600),
            253402145999,
            253402145999,
        ),
    ];
    tell(&rt, NEW_YORK, cases.as_slice())?;

    let zone = zone_of(rt.alloc(), NEW_YORK)?.ok_or("the text is read")?;
    for l in [i64::MIN, -377704944001, 253402128000, i64::MAX] {
        assert_eq!(rt; local_info(&zone, l), Err(OutOfRange), "{l}");
        assert_eq!(rt; unchosen(&zone, l), Err(None), "{l}");
    }
    Ok(())
}

#[test]
fn zoned_times(rt: HostRuntime) -> Result<(), Fail> {
    let zone = zone_of(rt.alloc(), NEW_YORK)?.ok_or("the text is read")?;
    let other = zone_of(rt.alloc(), TWO_GAPS)?.ok_or("the text is read")?;

    let summer = ZonedTime::from_sys(&zone, 1, 1710054000)?;
    assert_eq!(rt; summer.sys(), 1710054000);
    assert_eq!(rt; summer.local(), 1710039600);
    assert_eq!(rt; summer.info().begin, 1710054000);
    assert_eq!(rt; summer.info().abbrev.as_bytes(), b"EDT".as_slice());

    let gap = ZonedTime::from_local(&zone, 1, 1710037800, Some(Choose::Latest));
    assert_eq!(rt; gap, Ok(summer));
    let undecided = ZonedTime::from_local(&zone, 1, 1710037800, None);
    let info = local_info(&zone, 1710037800)?;
    assert_eq!(rt; undecided, Err(ToSysError::Undecided(info)));
    let outside = ZonedTime::from_sys(&zone, 1, FIRST_INSTANT - 1);
    assert_eq!(rt; outside, Err(OutOfRange));

    for differs in [
        ZonedTime::from_sys(&other, 1, 1710054000)?,
        ZonedTime::from_sys(&zone, 2, 1710054000)?,
        ZonedTime::from_sys(&zone, 1, 1710054001)?,
    ] {
        assert!(rt; differs != summer, "{differs:?}");
    }
    Ok(())
}

#[test]
fn refusals_are_told_in_words(rt: HostRuntime) -> Result<(), Fail> {
    let zone = zone_of(rt.alloc(), NEW_YORK)?.ok_or("the text is read")?;
    let cases = [
        (1710037800, "the local time does not exist"),
        (
            1730597400,
            "the local time stands for more than one instant",
        ),
        (253402128000, "the local time is out of range"),
    ];
    for (l, words) in cases {
        let Err(error) = to_sys(&zone, l, None) else {
            return Err("it is refused".into());
        };
        assert_eq!(rt; format!(in rt.alloc(); "{error}")?.as_str(), words);
    }
    Ok(())
}

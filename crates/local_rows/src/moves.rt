//! The moves and the days are worked out by hand from the lines of the zones, and those of New York from its rules. On
//! 1883-11-18 its clock was put back by 238 seconds.
ghost use Rattle.std.specs.Prelude.{◌≡◌, ◌<◌};
ghost use Rattle.tz_specs.specs.Expansion.{IsInstant};

use crate::zone::zone_of;
use std::marker::Brand;
use std::process::Abort;
use std::sync::ledger::{Blank, Ledger};
use std::test::Fail;
use tz_expand::CompiledZone;
use tz_local::OutOfRange;
use tz_moves::{Move, day_seconds, moves_between, next_move, previous_move};
use tz_types::{END_OF_TIME, FIRST_INSTANT, Steps};

/// New York's rules and its zone.
const NEW_YORK: &[u8] = b"Rule US 1967 2006 - Oct lastSun 2:00 0 S
Rule US 1967 1973 - Apr lastSun 2:00 1:00 D
Rule US 1974 only - Jan 6 2:00 1:00 D
Rule US 1975 only - Feb lastSun 2:00 1:00 D
Rule US 1976 1986 - Apr lastSun 2:00 1:00 D
Rule US 1987 2006 - Apr Sun>=1 2:00 1:00 D
Rule US 2007 max - Mar Sun>=8 2:00 1:00 D
Rule US 2007 max - Nov Sun>=1 2:00 0 S
Zone America/New_York -4:56:02 - LMT 1883 Nov 18 17:00u
-5:00 US E%sT
";

/// A second line says nothing new.
const SAME: &[u8] = b"Zone A 1 - X 2000
1 - X
";

/// The abbreviation alone changes at 0, the save alone at 100, and nothing at 200.
const FAINT: &[u8] = b"Zone Test/Faint 1 - X 1970 Jan 1 0u
1 - Y 1970 Jan 1 0:01:40u
0 1 Y 1970 Jan 1 0:03:20u
0 1 Y
";

/// The clock jumps over 1970-01-02.
const LOST_DAY: &[u8] = b"Zone Test/Lost -10 - A 1970 Jan 2 10:00u
14 - B
";

/// It shows 1970-01-02 twice.
const DOUBLE_DAY: &[u8] = b"Zone Test/Double 14 - A 1970 Jan 2 10:00u
-10 - B
";

/// The offset goes from two days behind to two days ahead, and jumps over 1970-01-01 through 1970-01-04.
const FAR_JUMP: &[u8] = b"Zone Test/Far -24 -24 A 1970 Jan 3 0u
24 24 B
";

/// What a move has.
fn row(step: &Move) -> (i64, i64, i64, &[u8]) {
    (step.at, step.offset, step.save, step.abbrev.as_bytes())
}

/// The next move and the previous one, where nobody asks for the count of steps.
fn nearest_uncounted<L: Ledger>(
    zone: &CompiledZone,
    t: i64,
    blank: Blank,
) -> (Option<i64>, Option<i64>)
    requires name { blank.name ≡ L.name }
    requires parts { blank.parts ≡ L.parts }
    requires counts { 0 < blank.parts }
    requires inside { IsInstant t }
{
    let mut steps = Steps::<L>::new(blank);
    let previous = previous_move(zone, t, &mut steps);
    (previous, next_move(zone, t, &mut steps))
}

/// The previous move and the next one.
fn nearest(zone: &CompiledZone, t: i64) -> (Option<i64>, Option<i64>)
    requires { IsInstant t }
{
    nearest_uncounted::<Brand>(zone, t, Blank::new(1))
}

#[test]
fn moves_of_new_york(rt: HostRuntime) -> Result<(), Fail> {
    let zone = zone_of(rt.alloc(), NEW_YORK)?.ok_or("the text is read")?;
    let summer = (1710054000, -14400, 3600, b"EDT".as_slice());
    let winter = (1730613600, -18000, 0, b"EST".as_slice());

    let year = moves_between(rt.alloc(), &zone, 1704067200, 1735689600)?;
    assert_eq!(rt; year.len(), 2);
    assert_eq!(rt; row(&year[0]), summer);
    assert_eq!(rt; row(&year[1]), winter);

    let from_one_to_the_other = moves_between(rt.alloc(), &zone, 1710054000, 1730613600)?;
    assert_eq!(rt; from_one_to_the_other.len(), 1);
    assert_eq!(rt; row(&from_one_to_the_other[0]), summer);
    let between = moves_between(rt.alloc(), &zone, 1710054001, 1730613600)?;
    assert_eq!(rt; between.len(), 0);

    let cases = [
        (FIRST_INSTANT, None, Some(-2717650800)),
        (-2717650801, None, Some(-2717650800)),
        (-2717650800, Some(-2717650800), Some(-84387600)),
        (1710053999, Some(1699164000), Some(1710054000)),
        (1710054000, Some(1710054000), Some(1730613600)),
        (1720000000, Some(1710054000), Some(1730613600)),
        (1730613600, Some(1730613600), Some(1741503600)),
    ];
    for (t, previous, next) in cases {
        assert_eq!(rt; nearest(&zone, t), (previous, next), "{t}");
    }
    Ok(())
}

#[test]
fn moves_that_are_hard_to_see(rt: HostRuntime) -> Result<(), Fail> {
    let same = zone_of(rt.alloc(), SAME)?.ok_or("the text is read")?;
    let none = moves_between(rt.alloc(), &same, FIRST_INSTANT, END_OF_TIME)?;
    assert_eq!(rt; none.len(), 0);
    for t in [FIRST_INSTANT, 946681199, 946681200, END_OF_TIME - 1] {
        assert_eq!(rt; nearest(&same, t), (None, None), "{t}");
    }

    let faint = zone_of(rt.alloc(), FAINT)?.ok_or("the text is read")?;
    let all = moves_between(rt.alloc(), &faint, FIRST_INSTANT, END_OF_TIME)?;
    assert_eq!(rt; all.len(), 2);
    assert_eq!(rt; row(&all[0]), (0, 3600, 0, b"Y".as_slice()));
    assert_eq!(rt; row(&all[1]), (100, 3600, 3600, b"Y".as_slice()));
    let cases = [
        (-1, None, Some(0)),
        (0, Some(0), Some(100)),
        (99, Some(0), Some(100)),
        (100, Some(100), None),
        (200, Some(100), None),
        (END_OF_TIME - 1, Some(100), None),
    ];
    for (t, previous, next) in cases {
        assert_eq!(rt; nearest(&faint, t), (previous, next), "{t}");
    }
    Ok(())
}

/// The zone's days have so many seconds.
fn last(
    rt: &(impl Abort + AllocGlobal),
    text: &[u8],
    days: &[(i64, Result<i64, OutOfRange>)],
) -> Result<(), Fail> {
    let zone = zone_of(rt.alloc(), text)?.ok_or("the text is read")?;
    for (day, seconds) in days {
        assert_eq!(rt; day_seconds(&zone, *day), *seconds, "{day}");
    }
    Ok(())
}

#[test]
fn days_of_zones(rt: HostRuntime) -> Result<(), Fail> {
    let new_york = [
        (i64::MIN, Err(OutOfRange)),
        (-4371586, Err(OutOfRange)),
        (-4371585, Ok(86400)),
        (-31455, Ok(86638)),
        (19791, Ok(86400)),
        (19792, Ok(82800)),
        (19793, Ok(86400)),
        (20030, Ok(90000)),
        (2932894, Ok(86400)),
        (2932895, Err(OutOfRange)),
        (i64::MAX, Err(OutOfRange)),
    ];
    last(&rt, NEW_YORK, new_york.as_slice())?;

    let lost = [(0, Ok(86400)), (1, Ok(0)), (2, Ok(86400))];
    last(&rt, LOST_DAY, lost.as_slice())?;
    let double = [(0, Ok(86400)), (1, Ok(172800)), (2, Ok(86400))];
    last(&rt, DOUBLE_DAY, double.as_slice())?;
    let far = [(-1, Ok(86400)), (0, Ok(0)), (3, Ok(0)), (4, Ok(86400))];
    last(&rt, FAR_JUMP, far.as_slice())
}

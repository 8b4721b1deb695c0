//! The text has one zone of two lines. Its second range begins at the UNTIL, -2717650800.
use std::alloc::Global;
use std::sync::Arc;
use std::test::Fail;
use tz_expand::{CompiledZone, compile, dump_zones};
use tz_lines::read_zones;
use tz_types::{END_OF_TIME, FIRST_INSTANT, NoMemory, Shared, Source, SysInfo};

const TEXT: &[u8] = b"Zone America/New_York -4:56:02 - LMT 1883 Nov 18 17:00u\n-5:00 - EST\n";

/// The one zone of the text, ready for questions.
fn zone(alloc: Global) -> Result<Option<CompiledZone>, NoMemory> {
    let source = Source::of_text(alloc, TEXT.to_vec(alloc)?)?;
    let Ok(db) = read_zones(alloc, &source) else {
        return Ok(None);
    };
    if db.zones.is_empty() {
        return Ok(None);
    }
    Ok(Some(compile(alloc, &db, 0)?))
}

/// What a range has, in the order in which it is printed.
fn row(range: &SysInfo) -> (i64, i64, i64, i64, &[u8]) {
    (
        range.begin,
        range.end,
        range.offset,
        range.save,
        range.abbrev.as_bytes(),
    )
}

#[test]
fn zones_are_dumped(rt: HostRuntime) -> Result<(), Fail> {
    let zone = zone(rt.alloc())?.ok_or("the text is read")?;
    let mut zones = Vec::new(rt.alloc());
    zones.push(Shared::from_arc(Arc::new(rt.alloc(), zone)?))?;
    zones.push(zones[0].share()?)?;

    let first = (FIRST_INSTANT, -2717650800, -17762, 0, b"LMT".as_slice());
    let second = (-2717650800, END_OF_TIME, -18000, 0, b"EST".as_slice());
    let all = dump_zones(
        &rt,
        rt.alloc(),
        zones.as_slice(),
        FIRST_INSTANT,
        END_OF_TIME,
    )?;
    assert_eq!(rt; all.len(), 2);
    for ranges in &all {
        assert_eq!(rt; ranges.len(), 2);
        assert_eq!(rt; row(&ranges[0]), first);
        assert_eq!(rt; row(&ranges[1]), second);
    }

    let late = dump_zones(&rt, rt.alloc(), zones.as_slice(), -2717650800, 0)?;
    assert_eq!(rt; late.len(), 2);
    for ranges in &late {
        assert_eq!(rt; ranges.len(), 1);
        assert_eq!(rt; row(&ranges[0]), second);
    }
    Ok(())
}

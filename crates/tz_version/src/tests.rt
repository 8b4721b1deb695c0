//! Versions of short texts, as calls. What is expected of New York is known from its own clocks.
ghost use Rattle.std.specs.Prelude.{◌≡◌, ◌<◌, ◌≤◌, ◌^◌};
ghost use Rattle.jiff_core.specs.Calendar.{IsWithin};
ghost use Rattle.tz_windows.specs.declared.scan.TheConstants.{MOST_LOOKS};

use crate::{MakeError, NoZone, Sources, Version};
use std::alloc::Global;
use std::marker::Brand;
use std::sync::Arc;
use std::sync::ledger::{Blank, Ledger};
use std::test::Fail;
use tz_types::{END_OF_TIME, FIRST_INSTANT, Fault, Items, MOST_BYTES, Shared, Source, Steps};
use tz_windows::{Scan, ZoneRef};

/// New York's rules, its zone, and a link to it.
const TEXT_A: &str = "\
# version 2024a
Rule US 1967 2006 - Oct lastSun 2:00 0 S
Rule US 1967 1973 - Apr lastSun 2:00 1:00 D
Rule US 1974 only - Jan 6 2:00 1:00 D
Rule US 1975 only - Feb lastSun 2:00 1:00 D
Rule US 1976 1986 - Apr lastSun 2:00 1:00 D
Rule US 1987 2006 - Apr Sun>=1 2:00 1:00 D
Rule US 2007 max - Mar Sun>=8 2:00 1:00 D
Rule US 2007 max - Nov Sun>=1 2:00 0 S
Zone America/New_York -4:56:02 - LMT 1883 Nov 18 17:00u
        -5:00 US E%sT
Link America/New_York US/Eastern
";

/// Two zones without rules, and a link to each.
const TEXT_OTHER: &str = "\
# version 2024b
Zone Test/West -1 - W
Zone Test/East 1 - E
Link Test/West Test/Left
Link Test/East Test/Right
";

/// The last line has no keyword.
const TEXT_BAD: &str = "Zone Test/West -1 - W\n? Test/East\n";

const LEAPS: &str = "Leap 2016 Dec 31 23:59:60 + S\n";

/// A second is neither added nor skipped.
const LEAPS_BAD: &str = "Leap 2016 Dec 31 23:59:60 * S\n";

/// The version of the source at a place, of these texts.
fn made(
    alloc: Global,
    texts: &[&str],
    leaps: &str,
    src: u32,
) -> Result<Shared<Version>, MakeError> {
    let mut sources = Items::new(alloc);
    for text in texts {
        if text.len() > MOST_BYTES {
            return Err(MakeError::NoMemory);
        }
        let bytes = text
            .as_bytes()
            .to_vec(alloc)
            .map_err(|_| MakeError::NoMemory)?;
        sources.push(Source::of_text(alloc, bytes)?)?;
    }
    let leap_text = leaps
        .as_bytes()
        .to_vec(alloc)
        .map_err(|_| MakeError::NoMemory)?;
    let Some(sources) = Sources::new(sources, Items::from_vec(leap_text)) else {
        return Err(MakeError::NoMemory);
    };
    if src as usize >= sources.texts.len() {
        return Err(MakeError::NoMemory);
    }
    let Ok(arc) = Arc::new(alloc, sources) else {
        return Err(MakeError::NoMemory);
    };
    Version::make(alloc, &Shared::from_arc(arc), src)
}

/// A scan whose probes and steps nobody counts.
fn scanned<Q: Ledger, L: Ledger>(
    zone: &mut ZoneRef<'_>,
    alloc: Global,
    asked: (i64, u32, u32),
    of_probes: Blank,
    of_steps: Blank,
) -> Scan
    requires probes_name { of_probes.name ≡ Q.name }
    requires probes_parts { of_probes.parts ≡ Q.parts }
    requires probes_count { 0 < of_probes.parts }
    requires steps_name { of_steps.name ≡ L.name }
    requires steps_parts { of_steps.parts ≡ L.parts }
    requires steps_count { 0 < of_steps.parts }
    requires apart { 1 ≤ asked.1 }
    requires few { asked.2 ≤ MOST_LOOKS }
    requires near { IsWithin (10 ^ 15) asked.0 }
{
    let (from, step, count) = asked;
    let mut probes = Steps::<Q>::new(of_probes);
    let mut steps = Steps::<L>::new(of_steps);
    zone.scan(alloc, from, step, count, &mut probes, &mut steps)
}

#[test]
fn a_version_has_its_names(rt: HostRuntime) -> Result<(), Fail> {
    let version = made(rt.alloc(), [TEXT_A, TEXT_OTHER].as_slice(), LEAPS, 0)?;
    let version = version.get();
    assert_eq!(rt; version.src(), 0);
    assert_eq!(rt; version.name().as_bytes(), b"2024a".as_slice());
    assert_eq!(rt; version.leaps().entries.len(), 1);
    assert_eq!(rt; version.zones().len(), 1);
    for name in ["America/New_York", "US/Eastern"] {
        let zone = version.zone(name.as_bytes())?;
        assert_eq!(rt;
            zone.compiled().name.as_bytes(),
            b"America/New_York".as_slice(),
            "{name}"
        );
        assert_eq!(rt; zone.compiled().lines.len(), 2, "{name}");
    }
    for name in ["", "US/East", "US/Eastern/", "us/eastern", "Test/West"] {
        assert!(rt; version.zone(name.as_bytes()).is_err(), "{name}");
    }
    Ok(())
}

#[test]
fn each_source_has_its_own_version(rt: HostRuntime) -> Result<(), Fail> {
    let version = made(rt.alloc(), [TEXT_A, TEXT_OTHER].as_slice(), "", 1)?;
    let version = version.get();
    assert_eq!(rt; version.src(), 1);
    assert_eq!(rt; version.name().as_bytes(), b"2024b".as_slice());
    assert!(rt; version.leaps().entries.is_empty());
    let cases = [
        ("Test/East", "Test/East"),
        ("Test/Left", "Test/West"),
        ("Test/Right", "Test/East"),
        ("Test/West", "Test/West"),
    ];
    for (name, told) in cases {
        let zone = version.zone(name.as_bytes())?;
        assert_eq!(rt; zone.compiled().name.as_bytes(), told.as_bytes(), "{name}");
    }
    Ok(())
}

#[test]
fn refusals_are_told(rt: HostRuntime) {
    let leaps = MakeError::Leaps(Fault {
        file: 0,
        line: 1,
        cause: 16,
    });
    let text = MakeError::Text(Fault {
        file: 0,
        line: 2,
        cause: 4,
    });
    let cases = [
        (TEXT_A, LEAPS_BAD, leaps),
        (TEXT_BAD, LEAPS_BAD, leaps),
        (TEXT_BAD, LEAPS, text),
    ];
    for (source, leap_text, told) in cases {
        match made(rt.alloc(), [source].as_slice(), leap_text, 0) {
            Ok(_) => assert!(rt; false, "{source}"),
            Err(error) => assert_eq!(rt; error, told, "{source}"),
        }
    }
}

#[test]
fn scans_sum_up(rt: HostRuntime) -> Result<(), Fail> {
    let version = made(rt.alloc(), [TEXT_A].as_slice(), LEAPS, 0)?;
    let mut zone = version.get().zone(b"US/Eastern".as_slice())?;
    let cases = [
        ((1704067200, 86400, 366), (366, -5731200, 2)),
        ((FIRST_INSTANT - 2, 1, 4), (2, -35524, 0)),
        ((END_OF_TIME - 1, 1, 3), (1, -18000, 0)),
        ((END_OF_TIME, 1, 10), (0, 0, 0)),
        ((0, 1, 0), (0, 0, 0)),
    ];
    for (asked, (inside, offsets, changes)) in cases {
        let scan = scanned::<Brand, Brand>(
            &mut zone,
            rt.alloc(),
            asked,
            Blank::new(1),
            Blank::new(1),
        );
        assert_eq!(rt;
            scan,
            Scan {
                inside,
                offsets,
                changes
            },
            "{asked:?}"
        );
    }
    Ok(())
}

//! How long days of zones are.
use crate::outside::{named_files, run};
use crate::rows::answers;
use std::test::Fail;
use tz_cli::Plain;
use tz_words::Status;

/// Days on which New York's clock leaves out an hour and shows one twice, a day that it leaves out and one that it shows
/// twice, and days at both ends of time and past them.
const DAYS: [(&str, Status, &str); 24] = [
    (
        "days A US/Eastern 19792 2",
        Status::Ok,
        "19792 82800\n19793 86400\n",
    ),
    ("days A US/Eastern 20030 1", Status::Ok, "20030 90000\n"),
    (
        "days =x,A America/New_York 20029 000000000000003",
        Status::Ok,
        "20029 86400\n20030 90000\n20031 86400\n",
    ),
    ("days A US/Eastern -0 1", Status::Ok, "0 86400\n"),
    ("days A US/Eastern -1 1", Status::Ok, "-1 86400\n"),
    ("days D Far/East -4371585 1", Status::Ok, "-4371585 86400\n"),
    ("days D Far/East -4371586 1", Status::Range, "range\n"),
    ("days D Far/East -4371586 2", Status::Range, "range\n"),
    ("days D Far/East 2932894 1", Status::Ok, "2932894 86400\n"),
    ("days D Far/East 2932894 2", Status::Range, "range\n"),
    ("days D Far/East 2932895 1", Status::Range, "range\n"),
    (
        "days D Far/East 999999999999999 4096",
        Status::Range,
        "range\n",
    ),
    (
        "days D Far/East -999999999999999 4096",
        Status::Range,
        "range\n",
    ),
    ("days D Nowhere 2932895 1", Status::NoZone, "nozone\n"),
    ("days W A 0 1", Status::Text, "text 1 19\n"),
    ("days Missing A 0 1", Status::Read, "read\n"),
    ("days A US/Eastern 0 0", Status::Usage, "usage\n"),
    ("days A US/Eastern 0 4097", Status::Usage, "usage\n"),
    ("days A US/Eastern 0 -1", Status::Usage, "usage\n"),
    (
        "days A US/Eastern 0 0000000000000001",
        Status::Usage,
        "usage\n",
    ),
    ("days A US/Eastern 0 +1", Status::Usage, "usage\n"),
    ("days A US/Eastern 0", Status::Usage, "usage\n"),
    ("days A US/Eastern 0 1 1", Status::Usage, "usage\n"),
    ("days A US/Eastern 2024-03-10 1", Status::Usage, "usage\n"),
];

#[test]
fn days_of_zones(rt: HostRuntime) -> Result<(), Fail> {
    answers(&rt, rt.alloc(), DAYS.as_slice())?;
    Ok(())
}

/// The most days have a line each.
#[test]
fn the_most_days(rt: HostRuntime) -> Result<(), Fail> {
    let mut files = named_files(rt.alloc())?;
    let line = "days D Far/East 10000 4096";
    let (answer, taken) = run(&rt, rt.alloc(), &mut files, line, 4_096, 65_536)?;
    assert_eq!(rt; answer, Plain::Done(Status::Ok));
    assert_eq!(rt; taken.len(), 4_096 * b"10000 86400\n".len());
    assert!(rt; taken.as_slice().ends_with(b"14095 86400\n".as_slice()));
    Ok(())
}

//! Moves of zones' clocks in stretches of time.
use crate::outside::{named_files, run};
use crate::rows::answers;
use std::test::Fail;
use tz_cli::Plain;
use tz_words::Status;

/// New York in 2024, whose clock moves twice; a zone in which two lines show the same; one whose abbreviations
/// have no bytes; and stretches that have no move, no
/// instant or no place in time.
const MOVES: [(&str, Status, &str); 19] = [
    (
        "moves A America/New_York 1704067200 1735689600",
        Status::Ok,
        "1710054000 -14400 3600 EDT\n1730613600 -18000 0 EST\n",
    ),
    (
        "moves =x,A US/Eastern 1710054000 1730613600",
        Status::Ok,
        "1710054000 -14400 3600 EDT\n",
    ),
    (
        "moves A America/New_York 1710054001 1730613601",
        Status::Ok,
        "1730613600 -18000 0 EST\n",
    ),
    (
        "moves A America/New_York 1710054001 1730613600",
        Status::Ok,
        "",
    ),
    ("moves V A -377705116800 253402300800", Status::Ok, ""),
    (
        "moves bare Z 0 253402300800",
        Status::Ok,
        "946684800 3600 3600 \"\"\n",
    ),
    (
        "moves N America/New_York -377705116800 253402300800",
        Status::Ok,
        "-2717650800 -18000 0 EST\n",
    ),
    (
        "moves A America/New_York 1710054000 1710054000",
        Status::Range,
        "range\n",
    ),
    (
        "moves A America/New_York 1735689600 1704067200",
        Status::Range,
        "range\n",
    ),
    ("moves V A -377705116801 0", Status::Range, "range\n"),
    ("moves V A 0 253402300801", Status::Range, "range\n"),
    ("moves V B 1 0", Status::NoZone, "nozone\n"),
    ("moves W A 1 0", Status::Text, "text 1 19\n"),
    ("moves Missing A 0 1", Status::Read, "read\n"),
    ("moves A America/New_York 0", Status::Usage, "usage\n"),
    ("moves A America/New_York 0 1 2", Status::Usage, "usage\n"),
    ("moves A America/New_York +0 1", Status::Usage, "usage\n"),
    (
        "moves A America/New_York 0 1234567890123456",
        Status::Usage,
        "usage\n",
    ),
    ("move A America/New_York 0 1", Status::Usage, "usage\n"),
];

#[test]
fn moves_of_zones(rt: HostRuntime) -> Result<(), Fail> {
    answers(&rt, rt.alloc(), MOVES.as_slice())?;
    Ok(())
}

/// A sink that fails within the lines has a part of them.
#[test]
fn a_part_of_the_moves(rt: HostRuntime) -> Result<(), Fail> {
    let mut files = named_files(rt.alloc())?;
    let line = "moves A America/New_York 1704067200 1735689600";
    let (answer, taken) = run(&rt, rt.alloc(), &mut files, line, 64, 30)?;
    assert_eq!(rt; answer, Plain::Done(Status::Write));
    assert_eq!(rt;
        taken.as_slice(),
        b"1710054000 -14400 3600 EDT\n173".as_slice()
    );
    Ok(())
}

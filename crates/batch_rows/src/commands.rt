//! The other commands, which the call that knows `batch` answers too.
use crate::outside::{answers, named_files};
use std::test::Fail;
use tz_words::Status;

/// A row of each command, and words of none.
const ROWS: [(&str, Status, &str); 14] = [
    (
        "info N America/New_York 0",
        Status::Ok,
        "-2717650800 253402300800 -18000 0 EST\n",
    ),
    ("info A Nowhere 253402300800", Status::NoZone, "nozone\n"),
    (
        "local A America/New_York 1730597400 strict",
        Status::Local,
        "ambiguous 1710054000 1730613600 -14400 3600 EDT 1730613600 1741503600 -18000 0 EST\n",
    ),
    (
        "moves A America/New_York 1704067200 1735689600",
        Status::Ok,
        "1710054000 -14400 3600 EDT\n1730613600 -18000 0 EST\n",
    ),
    (
        "days A US/Eastern 19792 2",
        Status::Ok,
        "19792 82800\n19793 86400\n",
    ),
    (
        "dump several 0 1 L",
        Status::Ok,
        "zone B\n-377705116800 253402300800 0 0 b\n",
    ),
    ("dump A 0 8589934593 -", Status::Range, "range\n"),
    (
        "tzif twelve W 1999 2020",
        Status::Designations,
        "designations\n",
    ),
    ("check A", Status::Ok, "ok 2024a rules 8 zones 1 links 1\n"),
    ("check G,H", Status::Text, "text 1 4 in 2\n"),
    ("check Missing", Status::Read, "read\n"),
    ("clock L27 utc-info 1483228826", Status::Ok, "leap 27\n"),
    ("gen 0", Status::Usage, "usage\n"),
    ("", Status::Usage, "usage\n"),
];

#[test]
fn answers_each_command(rt: HostRuntime) -> Result<(), Fail> {
    let mut files = named_files(rt.alloc())?;
    answers(&rt, rt.alloc(), &mut files, ROWS.as_slice())?;
    Ok(())
}

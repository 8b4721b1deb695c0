//! Local times: which ranges show them, and their instants under a choice.
use crate::rows::answers;
use std::test::Fail;
use tz_words::Status;

/// New York, whose clock leaves out an hour in March and shows one twice in November.
const NEW_YORK: [(&str, Status, &str); 23] = [
    (
        "local A America/New_York 2024-03-10T02:30:00 none",
        Status::Ok,
        "nonexistent 1699164000 1710054000 -18000 0 EST 1710054000 1730613600 -14400 3600 EDT\n",
    ),
    (
        "local A America/New_York 2024-03-10T02:30:00 strict",
        Status::Local,
        "nonexistent 1699164000 1710054000 -18000 0 EST 1710054000 1730613600 -14400 3600 EDT\n",
    ),
    (
        "local A America/New_York 2024-03-10T02:30:00 earliest",
        Status::Ok,
        "sys 1710054000\n",
    ),
    (
        "local A America/New_York 2024-03-10T02:30:00 latest",
        Status::Ok,
        "sys 1710054000\n",
    ),
    (
        "local A America/New_York 1730597400 none",
        Status::Ok,
        "ambiguous 1710054000 1730613600 -14400 3600 EDT 1730613600 1741503600 -18000 0 EST\n",
    ),
    (
        "local A US/Eastern 2024-11-03T01:30:00 strict",
        Status::Local,
        "ambiguous 1710054000 1730613600 -14400 3600 EDT 1730613600 1741503600 -18000 0 EST\n",
    ),
    (
        "local A America/New_York 1730597400 earliest",
        Status::Ok,
        "sys 1730611800\n",
    ),
    (
        "local A America/New_York 2024-11-03T01:30:00 latest",
        Status::Ok,
        "sys 1730615400\n",
    ),
    (
        "local Z America/New_York 2024-07-01T00:00:00 strict",
        Status::Ok,
        "sys 1719806400\n",
    ),
    (
        "local A America/New_York -377705116800 none",
        Status::Range,
        "range\n",
    ),
    (
        "local A America/New_York -377704944001 none",
        Status::Range,
        "range\n",
    ),
    (
        "local A America/New_York -377704944000 none",
        Status::Ok,
        "unique -377705116800 -2717650800 -17762 0 LMT\n",
    ),
    (
        "local A America/New_York 253402127999 none",
        Status::Ok,
        "unique 253365516000 253402300800 -18000 0 EST\n",
    ),
    (
        "local A America/New_York 253402128000 none",
        Status::Range,
        "range\n",
    ),
    (
        "local A America/New_York 253402128000 strict",
        Status::Range,
        "range\n",
    ),
    (
        "local A Nowhere 253402128000 none",
        Status::NoZone,
        "nozone\n",
    ),
    (
        "local C A 946684799 none",
        Status::Ok,
        "unique -377705116800 946684800 0 0 X\n",
    ),
    (
        "local gap W 1000 none",
        Status::Ok,
        "nonexistent 100 200 -86400 0 C 200 253402300800 86400 0 D\n",
    ),
    ("local gap W 1000 earliest", Status::Ok, "sys 200\n"),
    ("local gap W 1000 latest", Status::Ok, "sys 200\n"),
    (
        "local gap W 1970-01-01T00:16:40 none",
        Status::Ok,
        "nonexistent 100 200 -86400 0 C 200 253402300800 86400 0 D\n",
    ),
    (
        "local N America/New_York 1883-11-18T12:02:00 none",
        Status::Ok,
        "ambiguous -377705116800 -2717650800 -17762 0 LMT -2717650800 253402300800 -18000 0 EST\n",
    ),
    ("local keyword W 0 none", Status::Text, "text 3 4\n"),
];

/// Words that name no local time or no choice.
const NO_FORM: [&str; 16] = [
    "local A America/New_York 2024-02-30T00:00:00 none",
    "local A America/New_York 2023-02-29T00:00:00 none",
    "local A America/New_York 2024-13-01T00:00:00 none",
    "local A America/New_York 2024-00-01T00:00:00 none",
    "local A America/New_York 2024-01-01T24:00:00 none",
    "local A America/New_York 2024-01-01T00:60:00 none",
    "local A America/New_York 2024-01-01T00:00:60 none",
    "local A America/New_York 2024-01-01t00:00:00 none",
    "local A America/New_York 2024-01-01_00:00:00 none",
    "local A America/New_York 2024-01-01T00:00:0 none",
    "local A America/New_York 2024-01-01T00:00:000 none",
    "local A America/New_York 1234567890123456 none",
    "local A America/New_York 1.5 none",
    "local A America/New_York 0 first",
    "local A America/New_York 0",
    "local A America/New_York 0 none none",
];

#[test]
fn local_times_of_zones(rt: HostRuntime) -> Result<(), Fail> {
    answers(&rt, rt.alloc(), NEW_YORK.as_slice())?;
    Ok(())
}

#[test]
fn words_that_are_no_local_time(rt: HostRuntime) -> Result<(), Fail> {
    for line in NO_FORM {
        answers(
            &rt,
            rt.alloc(),
            [(line, Status::Usage, "usage\n")].as_slice(),
        )?;
    }
    Ok(())
}

//! Worked rows: the words of a command, its status, and what it prints.
use crate::outside::{named_files, run};
use std::alloc::{AllocError, Global};
use std::process::Abort;
use std::test::Fail;
use std::thread::Threads;
use tz_cli::Plain;
use tz_words::Status;

const INFO: [(&str, Status, &str); 32] = [
    (
        "info N America/New_York 0",
        Status::Ok,
        "-2717650800 253402300800 -18000 0 EST\n",
    ),
    (
        "info N America/New_York -2717650800",
        Status::Ok,
        "-2717650800 253402300800 -18000 0 EST\n",
    ),
    (
        "info N America/New_York -2717650801",
        Status::Ok,
        "-377705116800 -2717650800 -17762 0 LMT\n",
    ),
    (
        "info N America/New_York -377705116800",
        Status::Ok,
        "-377705116800 -2717650800 -17762 0 LMT\n",
    ),
    (
        "info N America/New_York -377705116801",
        Status::Range,
        "range\n",
    ),
    (
        "info N America/New_York 253402300799",
        Status::Ok,
        "-2717650800 253402300800 -18000 0 EST\n",
    ),
    (
        "info N America/New_York 253402300800",
        Status::Range,
        "range\n",
    ),
    ("info N Nowhere 253402300800", Status::NoZone, "nozone\n"),
    ("info N Nowhere 0", Status::NoZone, "nozone\n"),
    ("info empty Nowhere 0", Status::NoZone, "nozone\n"),
    (
        "info D Far/East 0",
        Status::Ok,
        "-377705116800 253402300800 86400 0 DAY\n",
    ),
    ("info A Nowhere 253402300800", Status::NoZone, "nozone\n"),
    ("info N - 0", Status::NoZone, "nozone\n"),
    (
        "info several - 0",
        Status::Ok,
        "-377705116800 253402300800 7200 0 +02\n",
    ),
    (
        "info several A 0",
        Status::Ok,
        "-377705116800 253402300800 0 3600 e\n",
    ),
    (
        "info several L 0",
        Status::Ok,
        "-377705116800 253402300800 0 0 b\n",
    ),
    (
        "info several a 0",
        Status::Ok,
        "-377705116800 253402300800 3600 0 c\n",
    ),
    ("info several l 0", Status::NoZone, "nozone\n"),
    (
        "info C A 946684799",
        Status::Ok,
        "-377705116800 946684800 0 0 X\n",
    ),
    ("info C B 0", Status::NoZone, "nozone\n"),
    ("info emptyline A 0", Status::Text, "text 2 23\n"),
    ("info W A 0", Status::Text, "text 1 19\n"),
    ("info Missing America/New_York 0", Status::Read, "read\n"),
    ("info - America/New_York 0", Status::Read, "read\n"),
    ("info A America/New_York", Status::Usage, "usage\n"),
    ("info N America/New_York", Status::Usage, "usage\n"),
    ("info N America/New_York 0 0", Status::Usage, "usage\n"),
    ("info N America/New_York +1", Status::Usage, "usage\n"),
    (
        "info N America/New_York 1234567890123456",
        Status::Usage,
        "usage\n",
    ),
    ("Info N America/New_York 0", Status::Usage, "usage\n"),
    ("--help", Status::Usage, "usage\n"),
    ("", Status::Usage, "usage\n"),
];

/// Instants of New York, by two names of its zone, and the lines of the ranges that hold them. The first two are the very
/// second of a change and the second before it.
const NEW_YORK: [(&str, &str); 10] = [
    (
        "America/New_York 1710054000",
        "1710054000 1730613600 -14400 3600 EDT\n",
    ),
    (
        "America/New_York 1710053999",
        "1699164000 1710054000 -18000 0 EST\n",
    ),
    (
        "US/Eastern 1710053999",
        "1699164000 1710054000 -18000 0 EST\n",
    ),
    (
        "US/Eastern -377705116800",
        "-377705116800 -2717650800 -17762 0 LMT\n",
    ),
    (
        "America/New_York -2717650801",
        "-377705116800 -2717650800 -17762 0 LMT\n",
    ),
    (
        "America/New_York -2717650800",
        "-2717650800 -84387600 -18000 0 EST\n",
    ),
    (
        "America/New_York -84387601",
        "-2717650800 -84387600 -18000 0 EST\n",
    ),
    (
        "America/New_York -84387600",
        "-84387600 -68666400 -14400 3600 EDT\n",
    ),
    ("America/New_York 0", "-5767200 9961200 -18000 0 EST\n"),
    (
        "America/New_York 253402300799",
        "253365516000 253402300800 -18000 0 EST\n",
    ),
];

/// Zones of one text each: a save below zero, a rule at the very end of a line, and a day in the next month.
const ZONES: [(&str, Status, &str); 13] = [
    (
        "info E Europe/Dublin 1704067200",
        Status::Ok,
        "1698541200 1711846800 0 -3600 GMT\n",
    ),
    (
        "info E Europe/Dublin 354675599",
        Status::Ok,
        "-377705116800 354675600 3600 0 IST\n",
    ),
    (
        "info E Europe/Dublin 354675600",
        Status::Ok,
        "354675600 386125200 3600 0 IST\n",
    ),
    (
        "info U Test/Until 0",
        Status::Ok,
        "-377705116800 954550800 3600 0 AST\n",
    ),
    (
        "info U Test/Until 954550800",
        Status::Ok,
        "954550800 970358400 7200 3600 ADT\n",
    ),
    (
        "info U Test/Until 1285891199",
        Status::Ok,
        "1270083600 1285891200 7200 3600 ADT\n",
    ),
    (
        "info U Test/Until 1285891200",
        Status::Ok,
        "1285891200 253402300800 7200 0 B\n",
    ),
    (
        "info O Test/Oct 0",
        Status::Ok,
        "-377705116800 1635638400 0 0 TT\n",
    ),
    (
        "info O Test/Oct 1640000000",
        Status::Ok,
        "1635638400 1667692800 3600 3600 TXT\n",
    ),
    (
        "info O Test/Oct 1667692800",
        Status::Ok,
        "1667692800 253402300800 3600 3600 TXT\n",
    ),
    (
        "info A America/New_York 253402300800",
        Status::Range,
        "range\n",
    ),
    ("info A US/Eastern -377705116801", Status::Range, "range\n"),
    ("info A US/eastern 0", Status::NoZone, "nozone\n"),
];

const CHECK: [(&str, Status, &str); 18] = [
    (
        "check empty",
        Status::Ok,
        "ok unknown rules 0 zones 0 links 0\n",
    ),
    (
        "check N",
        Status::Ok,
        "ok unknown rules 0 zones 1 links 0\n",
    ),
    (
        "check D",
        Status::Ok,
        "ok unknown rules 0 zones 1 links 0\n",
    ),
    ("check W", Status::Text, "text 1 19\n"),
    ("check A", Status::Ok, "ok 2024a rules 8 zones 1 links 1\n"),
    ("check Z", Status::Ok, "ok 2024a rules 8 zones 1 links 1\n"),
    ("check B", Status::Ok, "ok 2024b rules 8 zones 1 links 1\n"),
    (
        "check E",
        Status::Ok,
        "ok unknown rules 2 zones 1 links 0\n",
    ),
    (
        "check U",
        Status::Ok,
        "ok unknown rules 2 zones 1 links 0\n",
    ),
    (
        "check O",
        Status::Ok,
        "ok unknown rules 1 zones 1 links 0\n",
    ),
    (
        "check several",
        Status::Ok,
        "ok unknown rules 0 zones 4 links 1\n",
    ),
    ("check emptyline", Status::Text, "text 2 23\n"),
    ("check Missing", Status::Read, "read\n"),
    ("check -", Status::Read, "read\n"),
    ("check", Status::Usage, "usage\n"),
    ("check N N", Status::Usage, "usage\n"),
    ("Check N", Status::Usage, "usage\n"),
    ("check X", Status::Text, "text 1 4\n"),
];

const CLOCK: [(&str, Status, &str); 62] = [
    ("clock L27 sys-utc 1483228800", Status::Ok, "1483228827\n"),
    ("clock L27 utc-info 1483228826", Status::Ok, "leap 27\n"),
    ("clock L27 utc-sys 1483228826", Status::Ok, "1483228799\n"),
    ("clock L27 utc-tai 1483228827", Status::Ok, "1861920037\n"),
    ("clock L27 utc-gps 1483228827", Status::Ok, "1167264018\n"),
    ("clock L27 tai-utc 1861920037", Status::Ok, "1483228827\n"),
    ("clock L27 gps-utc 1167264018", Status::Ok, "1483228827\n"),
    ("clock L27 utc-info 1483228827", Status::Ok, "plain 27\n"),
    ("clock L27 utc-info 78796799", Status::Ok, "plain 0\n"),
    ("clock L27 utc-info 78796800", Status::Ok, "leap 1\n"),
    ("clock - sys-utc 253402300800", Status::Range, "range\n"),
    ("clock - sys-utc -0", Status::Ok, "0\n"),
    ("clock - utc-tai 0", Status::Ok, "378691210\n"),
    ("clock - utc-sys 253402300800", Status::Range, "range\n"),
    ("clock - utc-info 0", Status::Ok, "plain 0\n"),
    ("clock empty utc-gps 0", Status::Ok, "-315964809\n"),
    ("clock Missing sys-utc 0", Status::Read, "read\n"),
    ("clock Missing sys-utc", Status::Usage, "usage\n"),
    ("clock L27 sys-utc 0 0", Status::Usage, "usage\n"),
    ("clock L27 Sys-utc 0", Status::Usage, "usage\n"),
    ("clock L27 sys-ut 0", Status::Usage, "usage\n"),
    ("clock L27 utc-information 0", Status::Usage, "usage\n"),
    ("clock L27 gps-tai 0", Status::Usage, "usage\n"),
    ("clock L27 sys-utc +1", Status::Usage, "usage\n"),
    (
        "clock L27 sys-utc 1234567890123456",
        Status::Usage,
        "usage\n",
    ),
    (
        "clock L27 sys-utc 999999999999999",
        Status::Range,
        "range\n",
    ),
    (
        "clock L27 tai-utc -999999999999999",
        Status::Range,
        "range\n",
    ),
    ("clock", Status::Usage, "usage\n"),
    ("clock N sys-utc 0", Status::Text, "leaps 1 4\n"),
    ("clock nul sys-utc 0", Status::Text, "leaps 1 2\n"),
    ("clock quote sys-utc 0", Status::Text, "leaps 1 3\n"),
    ("clock keyword sys-utc 0", Status::Text, "leaps 3 4\n"),
    ("clock count sys-utc 0", Status::Text, "leaps 1 5\n"),
    ("clock year sys-utc 0", Status::Text, "leaps 1 6\n"),
    ("clock month sys-utc 0", Status::Text, "leaps 1 9\n"),
    ("clock day sys-utc 0", Status::Text, "leaps 1 10\n"),
    ("clock time sys-utc 0", Status::Text, "leaps 1 11\n"),
    ("clock corr sys-utc 0", Status::Text, "leaps 1 16\n"),
    ("clock rolling sys-utc 0", Status::Text, "leaps 1 17\n"),
    ("clock twice sys-utc 0", Status::Text, "leaps 2 24\n"),
    (
        "clock twice sys-utc 253402300800",
        Status::Text,
        "leaps 2 24\n",
    ),
    ("clock L27 utc-utc 0", Status::Usage, "usage\n"),
    ("clock M sys-utc 1483228800", Status::Ok, "1483228801\n"),
    ("clock M utc-info 1483228800", Status::Ok, "leap 1\n"),
    ("clock M sys-utc 1593561599", Status::Ok, "1593561600\n"),
    ("clock M sys-utc 1593561600", Status::Ok, "1593561600\n"),
    ("clock M utc-sys 1593561600", Status::Ok, "1593561600\n"),
    ("clock M utc-sys 1593561599", Status::Ok, "1593561598\n"),
    ("clock M utc-info 1593561599", Status::Ok, "plain 1\n"),
    ("clock M utc-info 1593561600", Status::Ok, "plain 0\n"),
    ("clock M utc-info 1609459199", Status::Ok, "plain 0\n"),
    (
        "clock M utc-info 1609459200",
        Status::Ok,
        "plain 0 expired\n",
    ),
    ("clock M utc-sys 253402300799", Status::Ok, "253402300799\n"),
    ("clock M utc-sys 253402300800", Status::Range, "range\n"),
    ("clock below utc-info 0", Status::Ok, "plain -2\n"),
    ("clock below sys-utc 0", Status::Ok, "-2\n"),
    ("clock below utc-sys -2", Status::Ok, "0\n"),
    (
        "clock below utc-sys 253402300797",
        Status::Ok,
        "253402300799\n",
    ),
    ("clock below utc-sys 253402300798", Status::Range, "range\n"),
    (
        "clock X utc-info 1609459200",
        Status::Ok,
        "plain 0 expired\n",
    ),
    ("clock expires sys-utc 0", Status::Text, "leaps 4 25\n"),
    ("clock early sys-utc 0", Status::Text, "leaps 1 26\n"),
];

/// The first and the last count in range of each conversion, each with the one past it.
const ENDS: [(&str, Status, &str); 28] = [
    ("clock L27 sys-utc -377705116801", Status::Range, "range\n"),
    (
        "clock L27 sys-utc -377705116800",
        Status::Ok,
        "-377705116800\n",
    ),
    (
        "clock L27 sys-utc 253402300799",
        Status::Ok,
        "253402300826\n",
    ),
    ("clock L27 sys-utc 253402300800", Status::Range, "range\n"),
    ("clock L27 utc-sys -377705116801", Status::Range, "range\n"),
    (
        "clock L27 utc-sys -377705116800",
        Status::Ok,
        "-377705116800\n",
    ),
    (
        "clock L27 utc-sys 253402300826",
        Status::Ok,
        "253402300799\n",
    ),
    ("clock L27 utc-sys 253402300827", Status::Range, "range\n"),
    ("clock L27 utc-info -377705116801", Status::Range, "range\n"),
    ("clock L27 utc-info -377705116800", Status::Ok, "plain 0\n"),
    ("clock L27 utc-info 253402300826", Status::Ok, "plain 27\n"),
    ("clock L27 utc-info 253402300827", Status::Range, "range\n"),
    ("clock L27 utc-tai -377705116801", Status::Range, "range\n"),
    (
        "clock L27 utc-tai -377705116800",
        Status::Ok,
        "-377326425590\n",
    ),
    (
        "clock L27 utc-tai 253402300826",
        Status::Ok,
        "253780992036\n",
    ),
    ("clock L27 utc-tai 253402300827", Status::Range, "range\n"),
    ("clock L27 tai-utc -377326425591", Status::Range, "range\n"),
    (
        "clock L27 tai-utc -377326425590",
        Status::Ok,
        "-377705116800\n",
    ),
    (
        "clock L27 tai-utc 253780992036",
        Status::Ok,
        "253402300826\n",
    ),
    ("clock L27 tai-utc 253780992037", Status::Range, "range\n"),
    ("clock L27 utc-gps -377705116801", Status::Range, "range\n"),
    (
        "clock L27 utc-gps -377705116800",
        Status::Ok,
        "-378021081609\n",
    ),
    (
        "clock L27 utc-gps 253402300826",
        Status::Ok,
        "253086336017\n",
    ),
    ("clock L27 utc-gps 253402300827", Status::Range, "range\n"),
    ("clock L27 gps-utc -378021081610", Status::Range, "range\n"),
    (
        "clock L27 gps-utc -378021081609",
        Status::Ok,
        "-377705116800\n",
    ),
    (
        "clock L27 gps-utc 253086336017",
        Status::Ok,
        "253402300826\n",
    ),
    ("clock L27 gps-utc 253086336018", Status::Range, "range\n"),
];

/// What a sink takes that has room for few bytes.
const PARTS: [(&str, usize, &str); 10] = [
    ("info N America/New_York 0", 0, ""),
    ("check A", 0, ""),
    (
        "info N America/New_York 0",
        37,
        "-2717650800 253402300800 -18000 0 EST",
    ),
    ("check empty", 5, "ok un"),
    ("check Missing", 3, "rea"),
    ("clock twice sys-utc 0", 7, "leaps 2"),
    ("clock", 2, "us"),
    ("dump A 0 0 -", 3, "ran"),
    ("dump A 0 1 Nowhere", 6, "nozone"),
    ("dump W 0 1 -", 0, ""),
];

/// Whether each command prints its line and ends with its status, in pieces of one byte and of many.
pub fn answers(
    rt: &(impl Abort + Threads + Sync),
    alloc: Global,
    rows: &[(&str, Status, &str)],
) -> Result<(), AllocError> {
    let mut files = named_files(alloc)?;
    for (line, status, printed) in rows {
        for piece in [1, 64] {
            let (answer, taken) = run(rt, alloc, &mut files, line, piece, 4_096)?;
            assert_eq!(rt; answer, Plain::Done(*status), "{line}");
            assert_eq!(rt; taken.as_slice(), printed.as_bytes(), "{line}");
        }
    }
    Ok(())
}

#[test]
fn answers_each_row(rt: HostRuntime) -> Result<(), Fail> {
    answers(&rt, rt.alloc(), INFO.as_slice())?;
    answers(&rt, rt.alloc(), ZONES.as_slice())?;
    answers(&rt, rt.alloc(), CHECK.as_slice())?;
    answers(&rt, rt.alloc(), CLOCK.as_slice())?;
    answers(&rt, rt.alloc(), ENDS.as_slice())?;
    Ok(())
}

/// The long, the later and the compact spelling of one zone tell the same of it.
#[test]
fn texts_of_one_zone_agree(rt: HostRuntime) -> Result<(), Fail> {
    let alloc = rt.alloc();
    let mut files = named_files(alloc)?;
    for text in ["A", "B", "Z"] {
        for (asked, printed) in NEW_YORK {
            let line = format!(in alloc; "info {text} {asked}")?;
            let (answer, taken) = run(&rt, alloc, &mut files, line.as_str(), 64, 4_096)?;
            assert_eq!(rt; answer, Plain::Done(Status::Ok), "{line}");
            assert_eq!(rt; taken.as_slice(), printed.as_bytes(), "{line}");
        }
    }
    Ok(())
}

#[test]
fn writes_a_part(rt: HostRuntime) -> Result<(), Fail> {
    let mut files = named_files(rt.alloc())?;
    for (line, room, printed) in PARTS {
        let (answer, taken) = run(&rt, rt.alloc(), &mut files, line, 64, room)?;
        assert_eq!(rt; answer, Plain::Done(Status::Write), "{line}");
        assert_eq!(rt; taken.as_slice(), printed.as_bytes(), "{line}");
    }
    Ok(())
}

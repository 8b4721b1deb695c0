//! Dumps: the ranges of one zone or of all zones that meet a stretch of time.
use crate::outside::{named_files, one_file, run, run_into};
use std::alloc::{AllocError, Global};
use std::str;
use std::test::Fail;
use std::thread::Threads;
use tz_cli::Plain;
use tz_io::{MemoryFiles, MemorySink};
use tz_text::signed_number;
use tz_words::Status;

/// New York in 2024, whose first range begins in 2023 and whose last ends in 2025.
const YEAR_2024: &str = "\
zone America/New_York
1699164000 1710054000 -18000 0 EST
1710054000 1730613600 -14400 3600 EDT
1730613600 1741503600 -18000 0 EST
";

/// Both ranges of New York without its rules.
const ALL_OF_TIME: &str = "\
zone America/New_York
-377705116800 -2717650800 -17762 0 LMT
-2717650800 253402300800 -18000 0 EST
";

const FIRST: &str = "zone America/New_York\n-377705116800 -2717650800 -17762 0 LMT\n";

const SECOND: &str = "zone America/New_York\n-2717650800 253402300800 -18000 0 EST\n";

/// All zones of a text, in the order of the bytes of their names. Links aren't among them.
const SEVERAL: &str = "\
zone -
-377705116800 253402300800 7200 0 +02
zone A
-377705116800 253402300800 0 3600 e
zone B
-377705116800 253402300800 0 0 b
zone a
-377705116800 253402300800 3600 0 c
";

/// The range of the first line ends where the rule of its UNTIL takes effect.
const UNTIL_2010: &str = "\
zone Test/Until
1270083600 1285891200 7200 3600 ADT
1285891200 253402300800 7200 0 B
";

/// Both occurrences of the rule in the next month or on its last day.
const ALL_OF_TEST_OCT: &str = "\
zone Test/Oct
-377705116800 1635638400 0 0 TT
1635638400 1667692800 3600 3600 TXT
1667692800 253402300800 3600 3600 TXT
";

const DUMPS: [(&str, Status, &str); 22] = [
    (
        "dump Z 1704067200 1735689600 US/Eastern",
        Status::Ok,
        YEAR_2024,
    ),
    (
        "dump A 1704067200 1735689600 US/Eastern",
        Status::Ok,
        YEAR_2024,
    ),
    (
        "dump A 1704067200 1735689600 America/New_York",
        Status::Ok,
        YEAR_2024,
    ),
    ("dump A 1704067200 1735689600 -", Status::Ok, YEAR_2024),
    ("dump B 1704067200 1735689600 -", Status::Ok, YEAR_2024),
    // A range that ends where the stretch begins doesn't meet it, nor does one that begins where it ends.
    (
        "dump A 1699164000 1741503600 US/Eastern",
        Status::Ok,
        YEAR_2024,
    ),
    (
        "dump A 1710053999 1730613601 US/Eastern",
        Status::Ok,
        YEAR_2024,
    ),
    (
        "dump N -377705116800 253402300800 America/New_York",
        Status::Ok,
        ALL_OF_TIME,
    ),
    (
        "dump N -2717650801 -2717650799 America/New_York",
        Status::Ok,
        ALL_OF_TIME,
    ),
    (
        "dump N -2717650801 -2717650800 America/New_York",
        Status::Ok,
        FIRST,
    ),
    (
        "dump N -377705116800 -377705116799 America/New_York",
        Status::Ok,
        FIRST,
    ),
    (
        "dump N -2717650800 -2717650799 America/New_York",
        Status::Ok,
        SECOND,
    ),
    (
        "dump N 253402300799 253402300800 America/New_York",
        Status::Ok,
        SECOND,
    ),
    (
        "dump U 1285891199 1285891201 Test/Until",
        Status::Ok,
        UNTIL_2010,
    ),
    (
        "dump O -377705116800 253402300800 Test/Oct",
        Status::Ok,
        ALL_OF_TEST_OCT,
    ),
    ("dump several 0 1 -", Status::Ok, SEVERAL),
    ("dump several 0 8589934592 -", Status::Ok, SEVERAL),
    (
        "dump several 0 1 L",
        Status::Ok,
        "zone B\n-377705116800 253402300800 0 0 b\n",
    ),
    ("dump empty 0 1 -", Status::Ok, ""),
    // All of time is no longer than a dump of one zone may be.
    (
        "dump several -377705116800 253402300800 B",
        Status::Ok,
        "zone B\n-377705116800 253402300800 0 0 b\n",
    ),
    (
        "dump several 0 8589934593 a",
        Status::Ok,
        "zone a\n-377705116800 253402300800 3600 0 c\n",
    ),
    (
        "dump several -0 1 L",
        Status::Ok,
        "zone B\n-377705116800 253402300800 0 0 b\n",
    ),
];

const REFUSED: [(&str, Status, &str); 28] = [
    // All zones, one second too long.
    ("dump A 0 8589934593 -", Status::Range, "range\n"),
    ("dump several -8589934592 1 -", Status::Range, "range\n"),
    (
        "dump A -377705116800 253402300800 -",
        Status::Range,
        "range\n",
    ),
    // No instant.
    ("dump A 0 0 America/New_York", Status::Range, "range\n"),
    ("dump A 0 0 -", Status::Range, "range\n"),
    ("dump A 1 0 US/Eastern", Status::Range, "range\n"),
    ("dump A 1 0 -", Status::Range, "range\n"),
    // Past the ends of time.
    (
        "dump A -377705116801 0 America/New_York",
        Status::Range,
        "range\n",
    ),
    (
        "dump A 0 253402300801 America/New_York",
        Status::Range,
        "range\n",
    ),
    (
        "dump A -377705116801 -377705116800 -",
        Status::Range,
        "range\n",
    ),
    (
        "dump A 253402300800 253402300801 -",
        Status::Range,
        "range\n",
    ),
    (
        "dump A -999999999999999 999999999999999 US/Eastern",
        Status::Range,
        "range\n",
    ),
    (
        "dump A -999999999999999 999999999999999 -",
        Status::Range,
        "range\n",
    ),
    ("dump empty 1 0 -", Status::Range, "range\n"),
    // A name that isn't there, also where the stretch is none.
    ("dump A 0 1 Nowhere", Status::NoZone, "nozone\n"),
    ("dump A 1 0 Nowhere", Status::NoZone, "nozone\n"),
    ("dump A 0 1 US", Status::NoZone, "nozone\n"),
    ("dump empty 0 1 A", Status::NoZone, "nozone\n"),
    // A text that is refused, before a name or a stretch is looked at.
    ("dump W 0 1 -", Status::Text, "text 1 19\n"),
    ("dump emptyline 1 0 Nowhere", Status::Text, "text 2 23\n"),
    ("dump Missing 0 1 -", Status::Read, "read\n"),
    ("dump - 0 1 -", Status::Read, "read\n"),
    ("dump A 0 1", Status::Usage, "usage\n"),
    ("dump A 0 1 - -", Status::Usage, "usage\n"),
    ("dump A - 1 -", Status::Usage, "usage\n"),
    ("dump A 0 +1 -", Status::Usage, "usage\n"),
    ("dump A 0 1234567890123456 -", Status::Usage, "usage\n"),
    ("Dump A 0 1 -", Status::Usage, "usage\n"),
];

/// The number that a word is.
fn number(word: &str) -> Option<i64> {
    signed_number(word.as_bytes())
}

#[test]
fn dumps_are_printed(rt: HostRuntime) -> Result<(), Fail> {
    let alloc = rt.alloc();
    let mut files = named_files(alloc)?;
    for table in [DUMPS.as_slice(), REFUSED.as_slice()] {
        for (line, status, printed) in table {
            for piece in [1, 64] {
                let (answer, taken) = run(&rt, alloc, &mut files, line, piece, 4_096)?;
                assert_eq!(rt; taken.as_slice(), printed.as_bytes(), "{line}");
                assert_eq!(rt; answer, Plain::Done(*status), "{line}");
            }
        }
    }
    Ok(())
}

/// What a dump of New York prints over a stretch, in all spellings of its text and by all words that ask for its zone.
#[test]
fn long_dumps_agree(rt: HostRuntime) -> Result<(), Fail> {
    let alloc = rt.alloc();
    let mut files = named_files(alloc)?;
    // From 1883, before the first line ends, to 2155: as long as a dump of all zones may be.
    let stretch = "-2717650801 5872283791";
    let first = format!(in alloc; "dump A {stretch} America/New_York")?;
    let (answer, wanted) = run(&rt, alloc, &mut files, first.as_str(), 4_096, 65_536)?;
    assert_eq!(rt; answer, Plain::Done(Status::Ok));
    assert!(rt; wanted.starts_with(FIRST.as_bytes()));
    for asked in [
        "A US/Eastern",
        "A -",
        "B -",
        "Z America/New_York",
        "Z US/Eastern",
        "Z -",
    ] {
        let (text, zone) = asked.split_once(' ').ok_or("two words")?;
        let line = format!(in alloc; "dump {text} {stretch} {zone}")?;
        let (answer, taken) = run(&rt, alloc, &mut files, line.as_str(), 4_096, 65_536)?;
        assert_eq!(rt; answer, Plain::Done(Status::Ok), "{line}");
        assert!(rt; taken == wanted, "{line}");
    }
    Ok(())
}

/// Each range of a dump is what `info` tells at its first and at its last second.
#[test]
fn dumps_and_single_answers_agree(rt: HostRuntime) -> Result<(), Fail> {
    let alloc = rt.alloc();
    let mut files = named_files(alloc)?;
    let zones = [
        "A America/New_York",
        "E Europe/Dublin",
        "U Test/Until",
        "O Test/Oct",
    ];
    for asked in zones {
        let (text, zone) = asked.split_once(' ').ok_or("two words")?;
        let line = format!(in alloc; "dump {text} -3000000000 3000000000 {zone}")?;
        let (_, dump) = run(&rt, alloc, &mut files, line.as_str(), 4_096, 65_536)?;
        let dump = str::from_utf8(dump.as_slice()).ok().ok_or("a text")?;
        let mut ranges = 0usize;
        for range in dump.lines().skip(1) {
            let mut words = range.split(' ');
            let begin = words.next().and_then(number).ok_or("a begin")?;
            let end = words.next().and_then(number).ok_or("an end")?;
            for instant in [begin, end.saturating_sub(1)] {
                let line = format!(in alloc; "info {asked} {instant}")?;
                let (_, taken) = run(&rt, alloc, &mut files, line.as_str(), 64, 4_096)?;
                let wanted = format!(in alloc; "{range}\n")?;
                assert_eq!(rt; taken.as_slice(), wanted.as_bytes(), "{line}");
            }
            ranges = ranges.saturating_add(1);
        }
        assert!(rt; ranges > 2, "{asked}");
    }
    Ok(())
}

/// A file `T` of so many zones, `Zone001` and so on, each with the rules of summer.
fn many_zones(alloc: Global, count: u32) -> Result<MemoryFiles, AllocError> {
    let mut text =
        b"Rule S 2000 max - Mar lastSun 1:00u 1:00 S\nRule S 2000 max - Oct lastSun 1:00u 0 -\n".to_vec(
            alloc,
        )?;
    for number in 0..count {
        let line = format!(in alloc; "Zone Zone{number:03} {} S G%sT\n", number % 25)?;
        text.extend_from_slice(line.as_bytes())?;
    }
    one_file(alloc, text)
}

/// What the dumps of so many zones print, each asked for by its name, one after another.
fn one_by_one(
    rt: &(impl Threads + Sync),
    alloc: Global,
    files: &mut MemoryFiles,
    count: u32,
    stretch: &str,
) -> Result<Vec<u8>, AllocError> {
    let mut text = Vec::new(alloc);
    for number in 0..count {
        let line = format!(in alloc; "dump T {stretch} Zone{number:03}")?;
        let (_, taken) = run(rt, alloc, files, line.as_str(), 4_096, 4_096)?;
        text.extend_from_slice(taken.as_slice())?;
    }
    Ok(text)
}

/// All zones print what each prints alone, however many there are.
#[test]
fn all_zones_are_dumped_in_order(rt: HostRuntime) -> Result<(), Fail> {
    let alloc = rt.alloc();
    let stretch = "1704067200 1767225600";
    for count in [1, 15, 16, 17, 32, 33, 50] {
        let mut files = many_zones(alloc, count)?;
        let wanted = one_by_one(&rt, alloc, &mut files, count, stretch)?;
        let line = format!(in alloc; "dump T {stretch} -")?;
        let (answer, taken) = run(&rt, alloc, &mut files, line.as_str(), 4_096, 65_536)?;
        assert_eq!(rt; answer, Plain::Done(Status::Ok), "{count}");
        assert!(rt; taken == wanted, "{count}");
        assert!(rt; wanted.len() > 100, "{count}");
    }
    Ok(())
}

/// A sink of too little room takes a first part of the dump, whatever it takes at once.
#[test]
fn a_first_part_of_a_dump_is_taken(rt: HostRuntime) -> Result<(), Fail> {
    let alloc = rt.alloc();
    let mut files = named_files(alloc)?;
    // Nothing is due of a text without zones, so a sink without room has taken all.
    let (answer, _) = run(&rt, alloc, &mut files, "dump empty 0 1 -", 1, 0)?;
    assert_eq!(rt; answer, Plain::Done(Status::Ok));
    let line = "dump several 0 1 -";
    for room in 0..SEVERAL.len() {
        for piece in [0, 1, 7, 4_096] {
            let (answer, taken) = run(&rt, alloc, &mut files, line, piece, room)?;
            let length = if piece == 0 { 0 } else { room };
            assert_eq!(rt; answer, Plain::Done(Status::Write), "{room} {piece}");
            assert_eq!(rt; taken.len(), length, "{room} {piece}");
            assert!(rt;
                SEVERAL.as_bytes().starts_with(taken.as_slice()),
                "{room} {piece}"
            );
        }
    }
    Ok(())
}

/// A write fails in the middle of a dump of three groups: what was taken before stands, and no more is written.
#[test]
fn a_write_fails_in_a_dump(rt: HostRuntime) -> Result<(), Fail> {
    let alloc = rt.alloc();
    let line = "dump T 1704067200 1767225600 -";
    let mut files = many_zones(alloc, 40)?;
    let (answer, whole) = run(&rt, alloc, &mut files, line, 64, 65_536)?;
    assert_eq!(rt; answer, Plain::Done(Status::Ok));
    let mut last = 0;
    for failing in [
        1, 2, 3, 10, 40, 50, 51, 52, 53, 54, 55, 56, 57, 58, 59, 60, 100,
    ] {
        let mut numbers = Vec::new(alloc);
        numbers.push(failing)?;
        let mut sink = MemorySink::new(alloc, 64, 65_536, numbers)?;
        let answer = run_into(&rt, alloc, &mut files, line, &mut sink)?;
        assert_eq!(rt; answer, Plain::Done(Status::Write), "{failing}");
        assert!(rt; whole.starts_with(sink.taken()), "{failing}");
        assert!(rt; sink.taken().len() < whole.len(), "{failing}");
        assert!(rt; failing == 1 || sink.taken().len() > last, "{failing}");
        last = sink.taken().len();
    }
    Ok(())
}

/// Dumps, and lines that refuse one, each with all that is printed.
const BY_BYTES: [(&str, &str); 5] = [
    ("dump several 0 1 -", SEVERAL),
    ("dump A 1704067200 1735689600 -", YEAR_2024),
    ("dump A 1704067200 1735689600 US/Eastern", YEAR_2024),
    ("dump A 0 0 -", "range\n"),
    ("dump A 0 1 Nowhere", "nozone\n"),
];

/// A sink that takes one byte a write, and of which one write fails, has just the bytes before that.
#[test]
fn a_write_of_a_byte_fails_in_a_dump(rt: HostRuntime) -> Result<(), Fail> {
    let alloc = rt.alloc();
    let mut files = named_files(alloc)?;
    for (line, whole) in BY_BYTES {
        for place in 0..250u32 {
            let Some(before) = whole.as_bytes().get(..place as usize) else {
                break;
            };
            let mut failing = Vec::new(alloc);
            failing.push(place + 1)?;
            let mut sink = MemorySink::new(alloc, 1, 4_096, failing)?;
            let answer = run_into(&rt, alloc, &mut files, line, &mut sink)?;
            assert_eq!(rt; sink.taken(), before, "{line}, byte {place}");
            let is_whole = before.len() == whole.len();
            assert!(rt;
                is_whole || answer == Plain::Done(Status::Write),
                "{line}, byte {place}"
            );
        }
    }
    Ok(())
}

//! Sources of several files, and of a version that is given: the words that name them, and what is answered over them.
use crate::outside::run;
use crate::rows::answers;
use row_files::{blank_lines, files_of};
use std::alloc::{AllocError, Global};
use std::test::Fail;
use std::thread::Threads;
use tz_cli::Plain;
use tz_words::Status;

/// Rule sets, zones and links of one file serve those of another, in any order; a continuation stands in the file of its zone.
const FILES: [(&str, Status, &str); 15] = [
    (
        "info P,Q Test/Until 1285891199",
        Status::Ok,
        "1270083600 1285891200 7200 3600 ADT\n",
    ),
    (
        "info Q,P Test/Until 1285891199",
        Status::Ok,
        "1270083600 1285891200 7200 3600 ADT\n",
    ),
    ("local P,Q Test/Until 3600 strict", Status::Ok, "sys 0\n"),
    (
        "dump empty,P,N,Q 0 1 Test/Until",
        Status::Ok,
        "zone Test/Until\n-377705116800 954550800 3600 0 AST\n",
    ),
    (
        "check Q,P",
        Status::Ok,
        "ok unknown rules 2 zones 1 links 0\n",
    ),
    ("check G,H", Status::Text, "text 1 4 in 2\n"),
    ("check G,P", Status::Text, "text 1 19 in 1\n"),
    ("check P,Q,G", Status::Text, "text 1 19 in 3\n"),
    ("check empty,N,N", Status::Text, "text 1 21 in 3\n"),
    ("info empty,quote N 0", Status::Text, "text 1 3 in 2\n"),
    ("check emptyline,empty", Status::Text, "text 2 23 in 1\n"),
    ("check Q", Status::Text, "text 1 20\n"),
    ("info P,Q Nowhere 253402300800", Status::NoZone, "nozone\n"),
    ("info P,Q Test/Until 253402300800", Status::Range, "range\n"),
    (
        "check empty,empty,empty,empty,empty,empty,empty,empty,empty,empty,empty,empty,empty,empty,empty,empty",
        Status::Ok,
        "ok unknown rules 0 zones 0 links 0\n",
    ),
];

/// A version that is given stands in place of that of the first file; those of later files are comments.
const VERSIONS: [(&str, Status, &str); 10] = [
    (
        "check =2024x,P,Q",
        Status::Ok,
        "ok 2024x rules 2 zones 1 links 0\n",
    ),
    (
        "check A,P",
        Status::Ok,
        "ok 2024a rules 10 zones 1 links 1\n",
    ),
    (
        "check P,A",
        Status::Ok,
        "ok unknown rules 10 zones 1 links 1\n",
    ),
    ("check =x,A", Status::Ok, "ok x rules 8 zones 1 links 1\n"),
    (
        "check =unknown,B,P",
        Status::Ok,
        "ok unknown rules 10 zones 1 links 1\n",
    ),
    ("check ==,N", Status::Ok, "ok = rules 0 zones 1 links 0\n"),
    ("check =x,W", Status::Text, "text 1 19\n"),
    (
        "check =vvvvvvvvvvvvvvvvvvvvvvvvvvvvvvvvvvvvvvvvvvvvvvvvvvvvvvvvvvvvvvvv,N",
        Status::Ok,
        "ok vvvvvvvvvvvvvvvvvvvvvvvvvvvvvvvvvvvvvvvvvvvvvvvvvvvvvvvvvvvvvvvv rules 0 zones 1 links 0\n",
    ),
    // Behind the first part a name may begin with `=`.
    (
        "check N,=f",
        Status::Ok,
        "ok unknown rules 0 zones 2 links 0\n",
    ),
    ("check =f,=f", Status::Ok, "ok f rules 0 zones 1 links 0\n"),
];

/// Words that name no text, and files that aren't there.
const NAMES: [(&str, Status, &str); 24] = [
    ("check =x", Status::Usage, "usage\n"),
    ("check P,,Q", Status::Usage, "usage\n"),
    ("check P,Q,", Status::Usage, "usage\n"),
    ("check ,P,Q", Status::Usage, "usage\n"),
    ("check ,", Status::Usage, "usage\n"),
    ("check =", Status::Usage, "usage\n"),
    ("check =,P", Status::Usage, "usage\n"),
    ("check =x,", Status::Usage, "usage\n"),
    ("check =x,,P", Status::Usage, "usage\n"),
    ("check =x\u{7f},N", Status::Usage, "usage\n"),
    ("check =\u{e9},N", Status::Usage, "usage\n"),
    (
        "check =vvvvvvvvvvvvvvvvvvvvvvvvvvvvvvvvvvvvvvvvvvvvvvvvvvvvvvvvvvvvvvvvv,N",
        Status::Usage,
        "usage\n",
    ),
    (
        "check empty,empty,empty,empty,empty,empty,empty,empty,empty,empty,empty,empty,empty,empty,empty,empty,empty",
        Status::Usage,
        "usage\n",
    ),
    ("info P,,Q Test/Until 0", Status::Usage, "usage\n"),
    ("local P,,Q Test/Until 0 none", Status::Usage, "usage\n"),
    ("dump P,,Q 0 1 -", Status::Usage, "usage\n"),
    ("check P,Missing", Status::Read, "read\n"),
    ("check Missing,P", Status::Read, "read\n"),
    ("check W,Missing", Status::Read, "read\n"),
    ("check N,=g", Status::Read, "read\n"),
    // A comma parts names where a text is named, and stands in the name of a leap text's file.
    ("check a,b", Status::Read, "read\n"),
    ("clock a,b sys-utc 7", Status::Ok, "7\n"),
    ("clock L27,L27 sys-utc 7", Status::Read, "read\n"),
    ("clock =x sys-utc 7", Status::Read, "read\n"),
];

#[test]
fn answers_over_several_files(rt: HostRuntime) -> Result<(), Fail> {
    answers(&rt, rt.alloc(), FILES.as_slice())?;
    answers(&rt, rt.alloc(), VERSIONS.as_slice())?;
    answers(&rt, rt.alloc(), NAMES.as_slice())?;
    Ok(())
}

/// What `check` answers over the files `S` and `T` of so many bytes, by that word, and what it writes.
fn check_sizes(
    rt: &(impl Threads + Sync),
    alloc: Global,
    first: usize,
    second: usize,
    word: &str,
) -> Result<(Plain, Vec<u8>), AllocError> {
    let mut list = Vec::new(alloc);
    list.push((format!(in alloc; "S")?, blank_lines(alloc, first)?))?;
    list.push((format!(in alloc; "T")?, blank_lines(alloc, second)?))?;
    let mut files = files_of(alloc, list)?;
    let line = format!(in alloc; "check {word}")?;
    run(rt, alloc, &mut files, line.as_str(), 64, 64)
}

/// Files have 4,194,304 bytes together. Where the first ones have more, no later one is read.
#[test]
fn files_are_large_together(rt: HostRuntime) -> Result<(), Fail> {
    let ok = "ok unknown rules 0 zones 0 links 0\n";
    let cases = [
        (4_194_294, 10, "S,T", Status::Ok, ok),
        (4_194_294, 11, "S,T", Status::TooLarge, "toolarge\n"),
        (4_194_294, 5, "S,T,T", Status::Ok, ok),
        (4_194_294, 5, "S,T,T,T", Status::TooLarge, "toolarge\n"),
        (4_194_304, 0, "S,T", Status::Ok, ok),
        (4_194_304, 1, "S,T", Status::TooLarge, "toolarge\n"),
        (4_194_304, 1, "T,S", Status::TooLarge, "toolarge\n"),
        (4_194_304, 0, "S,Missing", Status::Read, "read\n"),
        (4_194_305, 0, "S,Missing", Status::TooLarge, "toolarge\n"),
        (4_194_305, 0, "Missing,S", Status::Read, "read\n"),
    ];
    for (first, second, word, status, printed) in cases {
        let (answer, taken) = check_sizes(&rt, rt.alloc(), first, second, word)?;
        assert_eq!(rt; answer, Plain::Done(status), "{first} {second} {word}");
        assert_eq!(rt;
            taken.as_slice(),
            printed.as_bytes(),
            "{first} {second} {word}"
        );
    }
    Ok(())
}

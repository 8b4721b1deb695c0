//! A release in its other spelling, a folder of files, where the machine has one.
use crate::outside::answer_over_files;
use std::alloc::{AllocError, Global};
use std::process::Abort;
use std::test::Fail;
use std::thread::Threads;
use std::{fs, io, rt};
use tz_cli::Plain;
use tz_words::Status;

/// The folder of Debian's package `librust-chrono-tz-dev`.
const FOLDER: &str = "/usr/share/cargo/registry/chrono-tz-0.6.1/tz";

/// The files of a source, as a command names them.
const NAMES: &str =
    "africa,antarctica,asia,australasia,backward,etcetera,europe,northamerica,southamerica";

/// The files of the folder, by the names that a command gives them.
fn texts_of<R: rt::Files + AllocGlobal>(rt: &R) -> io::Result<Vec<(String, String)>> {
    let mut texts = Vec::new(rt.alloc());
    for name in NAMES.split(',') {
        let path = format!(in rt.alloc(); "{FOLDER}/{name}")?;
        let text = fs::read_to_string(rt, path.as_str())?;
        texts.push((String::from_str(rt.alloc(), name)?, text))?;
    }
    Ok(texts)
}

/// Whether the first field of a line is that keyword.
fn is_record(line: &str, keyword: &str) -> bool {
    line.split_whitespace().next() == Some(keyword)
}

/// How many lines of the files have that keyword.
fn records(texts: &[(String, String)], keyword: &str) -> usize {
    let mut count = 0usize;
    for (_, text) in texts {
        let here = text.lines().filter(|line| is_record(line, keyword)).count();
        count = count.saturating_add(here);
    }
    count
}

/// What `check` answers over the files, and what it prints.
fn check(
    rt: &(impl Threads + Sync),
    alloc: Global,
    texts: &[(String, String)],
) -> Result<(Plain, Vec<u8>), AllocError> {
    let mut list = Vec::new(alloc);
    for (name, text) in texts {
        list.push((name.clone()?, text.as_bytes().to_vec(alloc)?))?;
    }
    let line = format!(in alloc; "check {NAMES}")?;
    answer_over_files(rt, alloc, list, line.as_str(), 4_096)
}

#[test]
fn a_release_of_several_files_is_counted(rt: HostRuntime) -> Result<(), Fail> {
    if !fs::exists(&rt, FOLDER)? {
        return Ok(());
    }
    let texts = texts_of(&rt)?;
    let rules = records(texts.as_slice(), "Rule");
    let zones = records(texts.as_slice(), "Zone");
    let links = records(texts.as_slice(), "Link");
    assert!(rt; rules > 1_000 && zones > 300 && links > 100);
    let printed = format!(in rt.alloc(); "ok unknown rules {rules} zones {zones} links {links}\n")?;
    let (answer, taken) = check(&rt, rt.alloc(), texts.as_slice())?;
    assert_eq!(rt; taken.as_slice(), printed.as_bytes());
    assert_eq!(rt; answer, Plain::Done(Status::Ok));
    Ok(())
}

/// Lines that are refused, each with the file that it is put into, that file's number, and the cause.
const BAD: [(&str, &str, u32, u32); 3] = [
    ("africa", "Rule Bad 2000 only - Ju 1 0 0 -", 1, 9),
    ("europe", "Zone Bad/Zone 0 - X%d", 7, 14),
    ("southamerica", "Foo A B", 9, 4),
];

/// The text with one more line behind the last rule, and that line's number.
fn with_line(alloc: Global, text: &str, more: &str) -> Result<(String, usize), AllocError> {
    let mut last = 0;
    for (place, line) in text.lines().enumerate() {
        if is_record(line, "Rule") {
            last = place;
        }
    }
    let mut whole = String::new(alloc);
    for (place, line) in text.lines().enumerate() {
        whole.push_str(line)?;
        whole.push_str("\n")?;
        if place == last {
            whole.push_str(more)?;
            whole.push_str("\n")?;
        }
    }
    // Lines are numbered from 1.
    Ok((whole, last.saturating_add(2)))
}

/// Puts a line into the file of that name. Answers the line's number.
fn spoil(
    alloc: Global,
    texts: &mut [(String, String)],
    name: &str,
    more: &str,
) -> Result<usize, AllocError> {
    let mut number = 0;
    for (known, text) in texts.iter_mut() {
        if known.as_str() == name {
            let (whole, line) = with_line(alloc, text.as_str(), more)?;
            *text = whole;
            number = line;
        }
    }
    Ok(number)
}

/// Asserts that the files are refused with that line, cause and file.
fn is_refused(
    rt: &(impl Abort + Threads + Sync),
    alloc: Global,
    texts: &[(String, String)],
    fault: (usize, u32, u32),
) -> Result<(), AllocError> {
    let (line, cause, file) = fault;
    let printed = format!(in alloc; "text {line} {cause} in {file}\n")?;
    let (answer, taken) = check(rt, alloc, texts)?;
    assert_eq!(rt; taken.as_slice(), printed.as_bytes());
    assert_eq!(rt; answer, Plain::Done(Status::Text));
    Ok(())
}

/// A bad line in one of three files, and one in each: then that of the first file is told.
#[test]
fn a_release_with_a_bad_line_is_refused(rt: HostRuntime) -> Result<(), Fail> {
    if !fs::exists(&rt, FOLDER)? {
        return Ok(());
    }
    let alloc = rt.alloc();
    let mut all = texts_of(&rt)?;
    let mut first = None;
    for (name, more, file, cause) in BAD {
        let mut texts = texts_of(&rt)?;
        let line = spoil(alloc, texts.as_mut_slice(), name, more)?;
        is_refused(&rt, alloc, texts.as_slice(), (line, cause, file))?;
        spoil(alloc, all.as_mut_slice(), name, more)?;
        first = first.or(Some((line, cause, file)));
    }
    is_refused(&rt, alloc, all.as_slice(), first.ok_or("a bad line")?)?;
    Ok(())
}

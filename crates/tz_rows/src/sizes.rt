//! Texts that are too large, or have too long a line, too many lines or too many records.
use crate::outside::answer_over;
use row_files::blank_lines;
use std::alloc::{AllocError, Global};
use std::process::Abort;
use std::test::Fail;
use std::thread::Threads;
use tz_cli::Plain;
use tz_words::Status;

/// A comment of that many bytes with its newline.
fn comment(alloc: Global, length: usize) -> Result<Vec<u8>, AllocError> {
    let mut text = vec![in alloc; b'#'; length]?;
    if let Some(last) = text.last_mut() {
        *last = b'\n';
    }
    Ok(text)
}

/// Leap lines of so many years.
fn leap_lines(alloc: Global, count: u32) -> Result<Vec<u8>, AllocError> {
    let mut text = Vec::new(alloc);
    for year in 1_000..1_000 + u64::from(count) {
        let line = format!(in alloc; "Leap {year} Dec 31 23:59:60 + S\n")?;
        text.extend_from_slice(line.as_bytes())?;
    }
    Ok(text)
}

/// A line with so many times the letter in the place of `@`.
fn with_letters(
    alloc: Global,
    before: &str,
    letters: usize,
    after: &str,
) -> Result<Vec<u8>, AllocError> {
    let mut text = before.as_bytes().to_vec(alloc)?;
    text.extend_from_slice(vec![in alloc; b'A'; letters]?.as_slice())?;
    text.extend_from_slice(after.as_bytes())?;
    Ok(text)
}

/// So many lines, each with its number in the place between the two parts.
pub fn numbered(
    alloc: Global,
    before: &str,
    lines: u32,
    after: &str,
) -> Result<Vec<u8>, AllocError> {
    let mut text = Vec::new(alloc);
    for number in 0..lines {
        let line = format!(in alloc; "{before}{number}{after}\n")?;
        text.extend_from_slice(line.as_bytes())?;
    }
    Ok(text)
}

/// Lines with one more before them.
pub fn first(alloc: Global, line: &str, lines: Vec<u8>) -> Result<Vec<u8>, AllocError> {
    let mut text = line.as_bytes().to_vec(alloc)?;
    text.extend_from_slice(lines.as_slice())?;
    Ok(text)
}

/// Lines with one more behind them.
fn last(lines: Vec<u8>, line: &str) -> Result<Vec<u8>, AllocError> {
    let mut text = lines;
    text.extend_from_slice(line.as_bytes())?;
    Ok(text)
}

/// A zone of so many lines.
fn long_zone(alloc: Global, lines: u32) -> Result<Vec<u8>, AllocError> {
    let mut text = b"Zone A 0 - X 1000\n".to_vec(alloc)?;
    for year in 1_001..999 + u64::from(lines) {
        let line = format!(in alloc; "0 - X {year}\n")?;
        text.extend_from_slice(line.as_bytes())?;
    }
    text.extend_from_slice(b"0 - X\n")?;
    Ok(text)
}

#[test]
fn a_file_too_large_is_told(rt: HostRuntime) -> Result<(), Fail> {
    let alloc = rt.alloc();
    // No fault but the length: the same lines, a byte shorter, are a text without zones and records.
    let fitting = [
        ("check T", "ok unknown rules 0 zones 0 links 0\n"),
        ("clock T sys-utc 7", "7\n"),
    ];
    for (line, printed) in fitting {
        let (answer, taken) = answer_over(&rt, alloc, blank_lines(alloc, 4_194_304)?, line)?;
        assert_eq!(rt; answer, Plain::Done(Status::Ok), "{line}");
        assert_eq!(rt; taken.as_slice(), printed.as_bytes(), "{line}");
    }
    let lines = [
        "check T",
        "clock T sys-utc 7",
        "info T Nowhere 253402300800",
        "dump T 1 0 -",
    ];
    for line in lines {
        let (answer, taken) = answer_over(&rt, alloc, blank_lines(alloc, 4_194_305)?, line)?;
        assert_eq!(rt; answer, Plain::Done(Status::TooLarge), "{line}");
        assert_eq!(rt; taken.as_slice(), b"toolarge\n".as_slice(), "{line}");
    }
    Ok(())
}

#[test]
fn leap_texts_have_limits(rt: HostRuntime) -> Result<(), Fail> {
    let alloc = rt.alloc();
    let cases = [
        (comment(alloc, 2_048)?, Status::Ok, "0\n"),
        (comment(alloc, 2_049)?, Status::Text, "leaps 1 1\n"),
        (leap_lines(alloc, 1_024)?, Status::Ok, "970\n"),
        (leap_lines(alloc, 1_025)?, Status::Text, "leaps 1025 18\n"),
        (vec![in alloc; b'\n'; 100_000]?, Status::Ok, "0\n"),
        (
            vec![in alloc; b'\n'; 100_001]?,
            Status::Text,
            "leaps 100001 18\n",
        ),
    ];
    for (text, status, printed) in cases {
        let (answer, taken) = answer_over(&rt, alloc, text, "clock T sys-utc 0")?;
        assert_eq!(rt; answer, Plain::Done(status), "{printed}");
        assert_eq!(rt; taken.as_slice(), printed.as_bytes());
    }
    Ok(())
}

/// Asserts what `check` prints of a text.
fn check_prints(
    rt: &(impl Abort + Threads + Sync),
    alloc: Global,
    text: Vec<u8>,
    printed: &str,
) -> Result<(), AllocError> {
    let status = if printed.starts_with("ok") {
        Status::Ok
    } else {
        Status::Text
    };
    let (answer, taken) = answer_over(rt, alloc, text, "check T")?;
    assert_eq!(rt; taken.as_slice(), printed.as_bytes(), "{printed}");
    assert_eq!(rt; answer, Plain::Done(status), "{printed}");
    Ok(())
}

#[test]
fn lines_have_limits(rt: HostRuntime) -> Result<(), Fail> {
    let alloc = rt.alloc();
    let none = "ok unknown rules 0 zones 0 links 0\n";
    let one = "ok unknown rules 0 zones 1 links 0\n";
    let cases = [
        (with_letters(alloc, "#", 2_046, "\n")?, none),
        (with_letters(alloc, "#", 2_047, "\n")?, "text 1 1\n"),
        (with_letters(alloc, "#", 2_047, "")?, "text 1 1\n"),
        // A line that is too long, has a NUL byte and an open quote, or two of these: the least cause.
        (with_letters(alloc, "#\0", 2_045, "\n")?, "text 1 2\n"),
        (with_letters(alloc, "#\0", 2_046, "\n")?, "text 1 1\n"),
        (with_letters(alloc, "\"", 2_046, "\n")?, "text 1 3\n"),
        (with_letters(alloc, "\"", 2_047, "\n")?, "text 1 1\n"),
        (with_letters(alloc, "\"\0", 2_045, "\n")?, "text 1 2\n"),
        (with_letters(alloc, "\"\0", 2_046, "\n")?, "text 1 1\n"),
        (with_letters(alloc, "Zone ", 255, " 0 - X\n")?, one),
        (
            with_letters(alloc, "Zone ", 256, " 0 - X\n")?,
            "text 1 18\n",
        ),
        (
            with_letters(alloc, "Zone A 0 ", 255, " X\n")?,
            "text 1 20\n",
        ),
        (
            with_letters(alloc, "Zone A 0 ", 256, " X\n")?,
            "text 1 18\n",
        ),
        (
            with_letters(alloc, "Rule ", 255, " 1 max - Mar 1 0 0 -\n")?,
            "ok unknown rules 1 zones 0 links 0\n",
        ),
        (
            with_letters(alloc, "Rule ", 256, " 1 max - Mar 1 0 0 -\n")?,
            "text 1 18\n",
        ),
        (with_letters(alloc, "Link ", 255, " B\n")?, "text 1 22\n"),
        (with_letters(alloc, "Link ", 256, " B\n")?, "text 1 18\n"),
        (with_letters(alloc, "Link A ", 255, "\n")?, "text 1 22\n"),
        (with_letters(alloc, "Link A ", 256, "\n")?, "text 1 18\n"),
        // A name that is too long, and begins with a digit or has a space.
        (
            with_letters(alloc, "Rule 2", 255, " 1 max - Mar 1 0 0 -\n")?,
            "text 1 13\n",
        ),
        (
            with_letters(alloc, "Zone \"A ", 254, "\" 0 - X\n")?,
            "text 1 13\n",
        ),
        (
            with_letters(alloc, "Link \"A ", 254, "\" B\n")?,
            "text 1 13\n",
        ),
        (with_letters(alloc, "Zone A 0 - ", 24, "\n")?, one),
        (with_letters(alloc, "Zone A 0 - ", 25, "\n")?, "text 1 15\n"),
        (vec![in alloc; b'\n'; 100_000]?, none),
        (vec![in alloc; b'\n'; 100_001]?, "text 100001 18\n"),
        (last(vec![in alloc; b'\n'; 99_999]?, "Zone A 0 - X")?, one),
        // Where a line is one too many and has a lesser cause, that is told.
        (
            last(vec![in alloc; b'\n'; 100_000]?, "Zone \"\" 0 - X")?,
            "text 100001 13\n",
        ),
        (
            last(vec![in alloc; b'\n'; 100_000]?, "Foo")?,
            "text 100001 4\n",
        ),
    ];
    for (text, printed) in cases {
        check_prints(&rt, alloc, text, printed)?;
    }
    Ok(())
}

#[test]
fn rules_have_limits(rt: HostRuntime) -> Result<(), Fail> {
    let alloc = rt.alloc();
    let cases = [
        (
            numbered(alloc, "Rule US ", 512, " max - Mar 1 0 0 -")?,
            "ok unknown rules 512 zones 0 links 0\n",
        ),
        (
            numbered(alloc, "Rule US ", 513, " max - Mar 1 0 0 -")?,
            "text 513 18\n",
        ),
        (
            numbered(alloc, "Rule US", 1_024, " 1 max - Mar 1 0 0 -")?,
            "ok unknown rules 1024 zones 0 links 0\n",
        ),
        (
            numbered(alloc, "Rule US", 1_025, " 1 max - Mar 1 0 0 -")?,
            "text 1025 18\n",
        ),
        // Another set has room, and so has a set that is there already.
        (
            last(
                numbered(alloc, "Rule US ", 512, " max - Mar 1 0 0 -")?,
                "Rule EU 1 max - Mar 1 0 0 -\n",
            )?,
            "ok unknown rules 513 zones 0 links 0\n",
        ),
        (
            last(
                numbered(alloc, "Rule US", 1_024, " 1 max - Mar 1 0 0 -")?,
                "Rule US7 1 max - Mar 1 0 0 -\n",
            )?,
            "ok unknown rules 1025 zones 0 links 0\n",
        ),
    ];
    for (text, printed) in cases {
        check_prints(&rt, alloc, text, printed)?;
    }
    Ok(())
}

#[test]
fn zones_and_links_have_limits(rt: HostRuntime) -> Result<(), Fail> {
    let alloc = rt.alloc();
    let one = "ok unknown rules 0 zones 1 links 0\n";
    let cases = [
        (
            numbered(alloc, "Zone A", 1_024, " 0 - X")?,
            "ok unknown rules 0 zones 1024 links 0\n",
        ),
        (
            numbered(alloc, "Zone A", 1_025, " 0 - X")?,
            "text 1025 18\n",
        ),
        (long_zone(alloc, 255)?, one),
        (long_zone(alloc, 256)?, "text 256 18\n"),
        (
            last(long_zone(alloc, 255)?, "Zone B 0 - X\n")?,
            "ok unknown rules 0 zones 2 links 0\n",
        ),
        (
            first(
                alloc,
                "Zone A 0 - X\n",
                numbered(alloc, "Link A B", 4_096, "")?,
            )?,
            "ok unknown rules 0 zones 1 links 4096\n",
        ),
        (
            first(
                alloc,
                "Zone A 0 - X\n",
                numbered(alloc, "Link A B", 4_097, "")?,
            )?,
            "text 4098 18\n",
        ),
        (numbered(alloc, "Link A B", 4_096, "")?, "text 1 22\n"),
    ];
    for (text, printed) in cases {
        check_prints(&rt, alloc, text, printed)?;
    }
    Ok(())
}

//! Texts that the machine may have. Where it has none, nothing is tested.
use crate::outside::{RELEASE, answer_over};
use std::alloc::{AllocError, Global};
use std::fs;
use std::process::Abort;
use std::test::Fail;
use tz_cli::Plain;
use tz_lines::read_leaps;
use tz_text::{Fields, Joined, amount, named, on, signed_number, year};
use tz_words::Status;

/// The leap seconds.
const LEAPS: &str = "/usr/share/zoneinfo/leapseconds";

const MONTHS: &[u8] =
    b"January February March April May June July August September October November December";

/// Whether the line is a rule of the compact spelling, `R NAME FROM TO - IN ON AT SAVE LETTER`.
fn is_rule(fields: &Fields<'_>) -> bool {
    fields.count() > 0 && fields.get(0) == b"R".as_slice()
}

fn has_values(rt: &impl Abort, fields: &Fields<'_>, line: &str) {
    assert_eq!(rt; fields.count(), 10, "{line}");
    assert!(rt; year(fields.get(2)).is_some(), "FROM of {line}");
    assert!(rt; named(fields.get(5), MONTHS).is_some(), "IN of {line}");
    assert!(rt; on(fields.get(6)).is_some(), "ON of {line}");
    assert!(rt; amount(fields.get(7), b"wsugz").is_some(), "AT of {line}");
    assert!(rt; amount(fields.get(8), b"sd").is_some(), "SAVE of {line}");
}

#[test]
fn a_real_text_has_values(rt: HostRuntime) -> Result<(), Fail> {
    if !fs::exists(&rt, RELEASE)? {
        return Ok(());
    }
    let text = fs::read_to_string(&rt, RELEASE)?;
    let mut joined = Joined::new();
    let mut rules = 0u32;
    for line in text.lines() {
        assert!(rt; line.len() <= 2_048, "{line}");
        match Fields::cut(line.as_bytes(), &mut joined) {
            Ok(fields) => {
                if is_rule(&fields) {
                    has_values(&rt, &fields, line);
                    rules = rules.saturating_add(1);
                }
            }
            Err(_) => assert!(rt; false, "{line}"),
        }
    }
    assert!(rt; rules > 0, "no rule in {RELEASE}");
    Ok(())
}

/// How many lines of a text begin so.
fn lines_with(text: &str, start: &str) -> usize {
    text.lines().filter(|line| line.starts_with(start)).count()
}

#[test]
fn a_real_text_is_counted(rt: HostRuntime) -> Result<(), Fail> {
    if !fs::exists(&rt, RELEASE)? {
        return Ok(());
    }
    let text = fs::read_to_string(&rt, RELEASE)?;
    let first = text.lines().next().ok_or("a first line")?;
    let version = first.strip_prefix("# version ").ok_or("a version")?;
    let rules = lines_with(text.as_str(), "R ");
    let zones = lines_with(text.as_str(), "Z ");
    let links = lines_with(text.as_str(), "L ");
    let alloc = rt.alloc();
    let printed = format!(in alloc; "ok {version} rules {rules} zones {zones} links {links}\n")?;
    let (answer, taken) = answer_over(
        &rt,
        alloc,
        text.as_bytes().to_vec(alloc)?,
        "check T",
        4_096,
    )?;
    assert_eq!(rt; taken.as_slice(), printed.as_bytes());
    assert_eq!(rt; answer, Plain::Done(Status::Ok));
    Ok(())
}

/// The moment that a comment of the leap table names, after `#expires`.
fn expiry(text: &str) -> Option<i64> {
    let line = text.lines().find(|line| line.starts_with("#expires "))?;
    signed_number(line.split(' ').nth(1)?.as_bytes())
}

/// The leap table with the line of its expiry, which may stand in a comment.
fn with_expiry(alloc: Global, text: &str) -> Result<Vec<u8>, AllocError> {
    let mut whole = Vec::new(alloc);
    for line in text.lines() {
        match line.strip_prefix("#Expires") {
            Some(rest) => {
                whole.extend_from_slice(b"Expires")?;
                whole.extend_from_slice(rest.as_bytes())?;
            }
            None => whole.extend_from_slice(line.as_bytes())?,
        }
        whole.push(b'\n')?;
    }
    Ok(whole)
}

#[test]
fn a_real_leap_table_is_read(rt: HostRuntime) -> Result<(), Fail> {
    if !fs::exists(&rt, LEAPS)? {
        return Ok(());
    }
    let text = fs::read_to_string(&rt, LEAPS)?;
    let lines = text
        .lines()
        .filter(|line| line.starts_with("Leap\t"))
        .count();
    let whole = with_expiry(rt.alloc(), text.as_str())?;
    assert!(rt; whole.len() <= 4_194_304);
    match read_leaps(rt.alloc(), whole.as_slice()) {
        Ok(leaps) => {
            assert_eq!(rt; leaps.entries.len(), lines);
            assert_eq!(rt; leaps.expires, expiry(text.as_str()));
        }
        Err(_) => assert!(rt; false, "{LEAPS} is refused"),
    }
    assert!(rt; lines > 0, "no leap second in {LEAPS}");
    Ok(())
}

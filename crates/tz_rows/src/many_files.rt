//! What counts over all files of a source: how many lines, rules, sets, zones and links there are, and which rule comes first.
use crate::outside::run;
use crate::sizes::{first, numbered};
use row_files::files_of;
use std::alloc::{AllocError, Global};
use std::process::Abort;
use std::test::Fail;
use std::thread::Threads;
use tz_cli::Plain;
use tz_words::Status;

/// Asserts what a command prints over the files `S` and `T`.
fn prints(
    rt: &(impl Abort + Threads + Sync),
    alloc: Global,
    files: (&[u8], &[u8]),
    line: &str,
    printed: &str,
) -> Result<(), AllocError> {
    let (earlier, later) = files;
    let mut list = Vec::new(alloc);
    list.push((format!(in alloc; "S")?, earlier.to_vec(alloc)?))?;
    list.push((format!(in alloc; "T")?, later.to_vec(alloc)?))?;
    let mut files = files_of(alloc, list)?;
    let status = if printed.starts_with("text") {
        Status::Text
    } else {
        Status::Ok
    };
    let (answer, taken) = run(rt, alloc, &mut files, line, 64, 64)?;
    assert_eq!(rt; taken.as_slice(), printed.as_bytes(), "{line}");
    assert_eq!(rt; answer, Plain::Done(status), "{line}");
    Ok(())
}

/// Lines of one kind: what stands before and behind the number of each.
#[derive(Clone, Copy)]
struct Kind<'a> {
    before: &'a str,
    after: &'a str,
}

/// Asserts that so many lines of the first file and one of the second are accepted, and that two of the second are one too many.
fn holds_one_more(
    rt: &(impl Abort + Threads + Sync),
    alloc: Global,
    earlier: &[u8],
    later: Kind<'_>,
    printed: &str,
) -> Result<(), AllocError> {
    let Kind { before, after } = later;
    let one = numbered(alloc, before, 1, after)?;
    let two = numbered(alloc, before, 2, after)?;
    prints(rt, alloc, (earlier, one.as_slice()), "check S,T", printed)?;
    prints(
        rt,
        alloc,
        (earlier, two.as_slice()),
        "check S,T",
        "text 2 18 in 2\n",
    )
}

#[test]
fn limits_count_over_files(rt: HostRuntime) -> Result<(), Fail> {
    let alloc = rt.alloc();
    let rule = " max - Mar 1 0 0 -";
    let set = " 1 max - Mar 1 0 0 -";
    let links = first(
        alloc,
        "Zone A 0 - X\n",
        numbered(alloc, "Link A B", 4_095, "")?,
    )?;
    let cases = [
        (
            numbered(alloc, "Rule US ", 511, rule)?,
            Kind {
                before: "Rule US ",
                after: rule,
            },
            "ok unknown rules 512 zones 0 links 0\n",
        ),
        (
            numbered(alloc, "Rule US", 1_023, set)?,
            Kind {
                before: "Rule EU",
                after: set,
            },
            "ok unknown rules 1024 zones 0 links 0\n",
        ),
        (
            numbered(alloc, "Zone A", 1_023, " 0 - X")?,
            Kind {
                before: "Zone B",
                after: " 0 - X",
            },
            "ok unknown rules 0 zones 1024 links 0\n",
        ),
        (
            links,
            Kind {
                before: "Link A C",
                after: "",
            },
            "ok unknown rules 0 zones 1 links 4096\n",
        ),
        (
            vec![in alloc; b'\n'; 99_999]?,
            Kind {
                before: "#",
                after: "",
            },
            "ok unknown rules 0 zones 0 links 0\n",
        ),
    ];
    for (ref earlier, later, printed) in cases {
        holds_one_more(&rt, alloc, earlier.as_slice(), later, printed)?;
    }
    Ok(())
}

/// Two rules come at the same nominal second. The one of the later file comes last, by the clock that the other has set.
#[test]
fn rules_of_later_files_come_later(rt: HostRuntime) -> Result<(), Fail> {
    let one = b"Rule R 2000 only - Jan 1 0:00 1:00 A\n".as_slice();
    let two = b"Rule R 2000 only - Jan 1 0:00 2:00 B\nZone Z 0 R T%s\n".as_slice();
    let cases = [
        (
            "info S,T Z 946684800",
            "946681200 253402300800 7200 7200 TB\n",
        ),
        (
            "info T,S Z 946684800",
            "946677600 253402300800 3600 3600 TA\n",
        ),
    ];
    for (line, printed) in cases {
        prints(&rt, rt.alloc(), (one, two), line, printed)?;
    }
    Ok(())
}

/// A link leads to one of a later file, and names are those of all files.
#[test]
fn links_lead_to_other_files(rt: HostRuntime) -> Result<(), Fail> {
    let to_a_link = b"Link B C\n".as_slice();
    let to_a_zone = b"Zone Z 0 - z\nLink Z B\n".as_slice();
    let zone = b"Zone A 0 - X\n".as_slice();
    let named_so = b"Link B A\nZone B 0 - Y\n".as_slice();
    let circle = (b"Link A B\n".as_slice(), b"Link B A\n".as_slice());
    let range = "-377705116800 253402300800 0 0 z\n";
    let cases = [
        ((to_a_link, to_a_zone), "info S,T C 0", range),
        ((to_a_link, to_a_zone), "info T,S C 0", range),
        ((to_a_link, zone), "check S,T", "text 1 22 in 1\n"),
        ((to_a_link, zone), "check T,S", "text 1 22 in 2\n"),
        // A link has the name of a zone of another file.
        ((zone, named_so), "check S,T", "text 1 21 in 2\n"),
        ((zone, named_so), "check T,S", "text 1 21 in 2\n"),
        // Two links lead to one another.
        (circle, "check S,T", "text 1 22 in 1\n"),
    ];
    for (files, line, printed) in cases {
        prints(&rt, rt.alloc(), files, line, printed)?;
    }
    Ok(())
}

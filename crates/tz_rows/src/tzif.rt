//! Zones as files of RFC 8536 over civil years.
use crate::outside::{answer_over, named_files, run};
use crate::rows::answers;
use std::alloc::{AllocError, Global};
use std::test::Fail;
use tz_cli::Plain;
use tz_words::Status;

/// Years that have another form, that no file begins or ends with, or that aren't in order; zones that aren't there; and a zone
/// of twelve designations, of which the last begins too far behind the first.
const REFUSED: [(&str, Status, &str); 19] = [
    (
        "tzif twelve W 1999 2020",
        Status::Designations,
        "designations\n",
    ),
    (
        "tzif twelve W 1999 2010",
        Status::Designations,
        "designations\n",
    ),
    ("tzif twelve W 2020 1999", Status::Range, "range\n"),
    ("tzif N America/New_York -9999 0", Status::Range, "range\n"),
    (
        "tzif N America/New_York 2024 9998",
        Status::Range,
        "range\n",
    ),
    (
        "tzif N America/New_York 2025 2024",
        Status::Range,
        "range\n",
    ),
    ("tzif N Nowhere 2025 2024", Status::NoZone, "nozone\n"),
    ("tzif W A 2025 2024", Status::Text, "text 1 19\n"),
    ("tzif Missing A 2024 2024", Status::Read, "read\n"),
    (
        "tzif N America/New_York 20240 20240",
        Status::Usage,
        "usage\n",
    ),
    (
        "tzif N America/New_York 02024 2024",
        Status::Usage,
        "usage\n",
    ),
    (
        "tzif N America/New_York -10000 2024",
        Status::Usage,
        "usage\n",
    ),
    (
        "tzif N America/New_York +2024 2024",
        Status::Usage,
        "usage\n",
    ),
    ("tzif N America/New_York - 2024", Status::Usage, "usage\n"),
    (
        "tzif N America/New_York 2024 20x4",
        Status::Usage,
        "usage\n",
    ),
    ("tzif N America/New_York 2024", Status::Usage, "usage\n"),
    (
        "tzif N America/New_York 2024 2024 2024",
        Status::Usage,
        "usage\n",
    ),
    ("tzif N 2024 2024", Status::Usage, "usage\n"),
    (
        "TZif N America/New_York 2024 2024",
        Status::Usage,
        "usage\n",
    ),
];

/// Files, by how many octets they have.
const SIZES: [(&str, usize); 5] = [
    ("tzif A America/New_York 2024 2024", 135),
    ("tzif =x,A US/Eastern 2024 2024", 135),
    ("tzif N America/New_York -9998 9997", 126),
    ("tzif N America/New_York -0 0", 107),
    ("tzif twelve W 1999 2009", 528),
];

/// The data of New York in 2024: two transitions with their types, two types and their designations.
const DATA: &[u8] = b"\x00\x00\x00\x00\x65\xed\x5a\x70\x00\x00\x00\x00\x67\x27\x11\x60\x01\x00\
    \xff\xff\xb9\xb0\x00\x00\xff\xff\xc7\xc0\x01\x04\x45\x53\x54\x00\x45\x44\x54\x00";

#[test]
fn files_that_are_refused(rt: HostRuntime) -> Result<(), Fail> {
    answers(&rt, rt.alloc(), REFUSED.as_slice())?;
    Ok(())
}

#[test]
fn sizes_of_files(rt: HostRuntime) -> Result<(), Fail> {
    let mut files = named_files(rt.alloc())?;
    for (line, size) in SIZES {
        for piece in [1, 64] {
            let (answer, taken) = run(&rt, rt.alloc(), &mut files, line, piece, 4_096)?;
            assert_eq!(rt; answer, Plain::Done(Status::Ok), "{line}");
            assert_eq!(rt; taken.len(), size, "{line}");
            assert!(rt;
                taken.as_slice().starts_with(b"TZif2\0".as_slice()),
                "{line}"
            );
            assert!(rt; taken.as_slice().ends_with(b"\0\n\n".as_slice()), "{line}");
        }
    }
    Ok(())
}

#[test]
fn new_york_in_2024(rt: HostRuntime) -> Result<(), Fail> {
    let mut files = named_files(rt.alloc())?;
    let line = "tzif A America/New_York 2024 2024";
    let (answer, taken) = run(&rt, rt.alloc(), &mut files, line, 64, 4_096)?;
    assert_eq!(rt; answer, Plain::Done(Status::Ok));
    assert_eq!(rt; taken.len(), 135);
    assert_eq!(rt; &taken[95..133], DATA);
    Ok(())
}

/// A sink that fails within the file has a part of it.
#[test]
fn a_part_of_a_file(rt: HostRuntime) -> Result<(), Fail> {
    let mut files = named_files(rt.alloc())?;
    let line = "tzif A America/New_York 2024 2024";
    let (answer, taken) = run(&rt, rt.alloc(), &mut files, line, 64, 100)?;
    assert_eq!(rt; answer, Plain::Done(Status::Write));
    assert_eq!(rt; taken.len(), 100);
    Ok(())
}

/// A zone that has other letters in each of 257 years.
fn many_letters(alloc: Global) -> Result<Vec<u8>, AllocError> {
    let mut text = b"Zone Z 0 R %s\n".to_vec(alloc)?;
    for number in 0..257u32 {
        let year = 1_000 + number;
        let line = format!(in alloc; "Rule R {year} only - Jan 1 0 0 L{number}\n")?;
        text.extend_from_slice(line.as_bytes())?;
    }
    Ok(text)
}

/// More than 256 types are told before designations that begin too far.
#[test]
fn types_before_designations(rt: HostRuntime) -> Result<(), Fail> {
    let text = many_letters(rt.alloc())?;
    let (answer, taken) = answer_over(
        &rt,
        rt.alloc(),
        text.as_slice().to_vec(rt.alloc())?,
        "tzif T Z 1000 1256",
    )?;
    assert_eq!(rt; answer, Plain::Done(Status::Types));
    assert_eq!(rt; taken.as_slice(), b"types\n".as_slice());
    let (answer, taken) = answer_over(&rt, rt.alloc(), text, "tzif T Z 1001 1256")?;
    assert_eq!(rt; answer, Plain::Done(Status::Designations));
    assert_eq!(rt; taken.as_slice(), b"designations\n".as_slice());
    Ok(())
}

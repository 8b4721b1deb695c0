//! How large the script, the leap text and the texts of a batch may be.
use crate::outside::{answers, named_files, named_list, run};
use crate::scripts::LOOK;
use row_files::{blank_lines, files_of};
use std::alloc::{AllocError, Global};
use std::test::Fail;
use tz_io::MemoryFiles;
use tz_words::Status;

/// A script, a leap text and a text may have 4,194,304 bytes each.
const MOST: usize = 4_194_304;

const LOOKED: &str = "journal 0\nreplies 1\n3 @0 front 1 0\nend\n";

const SAME: &str = "journal 0\nreplies 1\n3 @0 same 1\nend\n";

/// The texts and the scripts, and blank texts of these names and lengths.
fn large_files(alloc: Global, blank: &[(&str, usize)]) -> Result<MemoryFiles, AllocError> {
    let mut list = named_list(alloc)?;
    for (name, length) in blank {
        list.push((format!(in alloc; "{name}")?, blank_lines(alloc, *length)?))?;
    }
    files_of(alloc, list)
}

const OF_SCRIPTS: [(&str, Status, &str); 2] = [
    ("batch long 4 - N", Status::Ok, LOOKED),
    ("batch longer 4 - N", Status::TooLarge, "toolarge\n"),
];

const OF_LEAP_TEXTS: [(&str, Status, &str); 2] = [
    ("batch look 4 whole N", Status::Ok, LOOKED),
    ("batch look 4 over N", Status::TooLarge, "toolarge\n"),
];

/// A first text and a later one, whether it is reloaded or not.
const OF_TEXTS: [(&str, Status, &str); 4] = [
    ("batch look 4 - whole", Status::Ok, LOOKED),
    ("batch look 4 - over", Status::TooLarge, "toolarge\n"),
    ("batch look 4 - N over", Status::TooLarge, "toolarge\n"),
    ("batch S6 4 - N over", Status::TooLarge, "toolarge\n"),
];

/// The files of one text share its bytes.
const OF_FILES: [(&str, Status, &str); 5] = [
    ("batch look 4 - half,half,empty", Status::Ok, LOOKED),
    (
        "batch look 4 - half,half,one",
        Status::TooLarge,
        "toolarge\n",
    ),
    (
        "batch look 4 - one,half,half",
        Status::TooLarge,
        "toolarge\n",
    ),
    ("batch look 4 - whole,one", Status::TooLarge, "toolarge\n"),
    (
        "batch S6 4 - half half,one,half",
        Status::TooLarge,
        "toolarge\n",
    ),
];

/// Texts don't share their bytes with one another, nor with the script and the leap text.
const OF_SEVERAL: [(&str, Status, &str); 3] = [
    ("batch S6 4 - half,half half", Status::Ok, SAME),
    ("batch S6 4 - half half,half", Status::Ok, SAME),
    ("batch look 4 whole N whole", Status::Ok, LOOKED),
];

/// Files are read in the order of the words, and none behind one that is too large. All are read before the script, the
/// leap text or a text is refused.
const IN_ORDER: [(&str, Status, &str); 7] = [
    ("batch over 4 absent A", Status::TooLarge, "toolarge\n"),
    ("batch look 4 over absent", Status::TooLarge, "toolarge\n"),
    ("batch look 4 - over absent", Status::TooLarge, "toolarge\n"),
    ("batch look 4 - absent over", Status::Read, "read\n"),
    ("batch absent 4 over over", Status::Read, "read\n"),
    ("batch open 4 corr ju over", Status::TooLarge, "toolarge\n"),
    ("batch look 1 - over", Status::Usage, "usage\n"),
];

/// A script of one `look` and blank lines up to that length.
fn long_script(alloc: Global, length: usize) -> Result<Vec<u8>, AllocError> {
    let start = LOOK.as_bytes();
    let mut script = start.to_vec(alloc)?;
    let rest = blank_lines(alloc, length.saturating_sub(start.len()))?;
    script.extend_from_slice(rest.as_slice())?;
    Ok(script)
}

#[test]
fn scripts_have_a_limit_in_bytes(rt: HostRuntime) -> Result<(), Fail> {
    let alloc = rt.alloc();
    let mut list = named_list(alloc)?;
    list.push((format!(in alloc; "long")?, long_script(alloc, MOST)?))?;
    list.push((format!(in alloc; "longer")?, long_script(alloc, MOST + 1)?))?;
    let mut files = files_of(alloc, list)?;
    answers(&rt, alloc, &mut files, OF_SCRIPTS.as_slice())?;
    Ok(())
}

#[test]
fn leap_texts_have_a_limit_in_bytes(rt: HostRuntime) -> Result<(), Fail> {
    let blank = [("whole", MOST), ("over", MOST + 1)];
    let mut files = large_files(rt.alloc(), blank.as_slice())?;
    answers(&rt, rt.alloc(), &mut files, OF_LEAP_TEXTS.as_slice())?;
    Ok(())
}

#[test]
fn texts_have_a_limit_in_bytes(rt: HostRuntime) -> Result<(), Fail> {
    let blank = [("whole", MOST), ("over", MOST + 1)];
    let mut files = large_files(rt.alloc(), blank.as_slice())?;
    answers(&rt, rt.alloc(), &mut files, OF_TEXTS.as_slice())?;
    Ok(())
}

#[test]
fn files_too_large_are_told_in_order(rt: HostRuntime) -> Result<(), Fail> {
    let blank = [("over", MOST + 1)];
    let mut files = large_files(rt.alloc(), blank.as_slice())?;
    answers(&rt, rt.alloc(), &mut files, IN_ORDER.as_slice())?;
    Ok(())
}

#[test]
fn files_of_a_text_share_its_bytes(rt: HostRuntime) -> Result<(), Fail> {
    let blank = [("one", 1), ("half", MOST / 2), ("whole", MOST)];
    let mut files = large_files(rt.alloc(), blank.as_slice())?;
    answers(&rt, rt.alloc(), &mut files, OF_FILES.as_slice())?;
    Ok(())
}

#[test]
fn texts_share_no_bytes(rt: HostRuntime) -> Result<(), Fail> {
    let blank = [("half", MOST / 2), ("whole", MOST)];
    let mut files = large_files(rt.alloc(), blank.as_slice())?;
    answers(&rt, rt.alloc(), &mut files, OF_SEVERAL.as_slice())?;
    Ok(())
}

/// A batch of one to 64 texts.
#[test]
fn a_batch_has_at_most_64_texts(rt: HostRuntime) -> Result<(), Fail> {
    let alloc = rt.alloc();
    let mut files = named_files(alloc)?;
    let cases = [(64, Status::Ok, LOOKED), (65, Status::Usage, "usage\n")];
    for (texts, status, printed) in cases {
        let mut line = format!(in alloc; "batch look 2 -")?;
        for _ in 0..texts {
            line.push_str(" N")?;
        }
        let (answer, taken) = run(&rt, alloc, &mut files, line.as_str(), 64, 64)?;
        assert_eq!(rt; answer, status, "{texts} texts");
        assert_eq!(rt; taken.as_slice(), printed.as_bytes(), "{texts} texts");
    }
    Ok(())
}

//! Sinks that take a part of what a batch prints, or fail.
use crate::outside::{named_files, run, run_into};
use crate::scripts::S1_PRINTED;
use std::test::Fail;
use tz_io::MemorySink;
use tz_words::Status;

/// A batch that prints `S1_PRINTED`.
const BATCH: &str = "batch S1 4 - A B";

/// What a sink takes that has room for few bytes: of an outcome, and of the line of each refusal.
const PARTS: [(&str, usize, &str); 14] = [
    (BATCH, 0, ""),
    (BATCH, 3, "jou"),
    (BATCH, 10, "journal 1\n"),
    (
        BATCH,
        68,
        "journal 1\n1 1 1 push 2 1 1\nreplies 2\n3 @1 pushed 2 1\n4 @1 same 2\nend",
    ),
    ("batch none 2 - A", 10, "journal 0\n"),
    ("batch undropped 4 - A", 0, ""),
    ("batch undropped 4 - A", 4, "scri"),
    ("batch open 4 - A", 10, "script 3 6"),
    ("batch S1 4 - ju A", 6, "text 1"),
    ("batch S1 4 - A,ju B", 10, "text 1 9 i"),
    ("batch S1 4 corr ju A", 3, "lea"),
    ("batch S1 1 - A B", 4, "usag"),
    ("batch absent 4 - A", 3, "rea"),
    ("batch S1 4 - absent", 4, "read"),
];

#[test]
fn a_part_of_a_batch_is_taken(rt: HostRuntime) -> Result<(), Fail> {
    let mut files = named_files(rt.alloc())?;
    for (line, room, printed) in PARTS {
        for piece in [1, 3, 4, 6, 10, 64] {
            let (answer, taken) = run(&rt, rt.alloc(), &mut files, line, piece, room)?;
            assert_eq!(rt; answer, Status::Write, "{line}, {room} bytes");
            assert_eq!(rt;
                taken.as_slice(),
                printed.as_bytes(),
                "{line}, {room} bytes"
            );
        }
    }
    Ok(())
}

#[test]
fn a_batch_is_taken_in_pieces(rt: HostRuntime) -> Result<(), Fail> {
    let mut files = named_files(rt.alloc())?;
    for piece in [1, 3, 4, 6, 10, 64] {
        let (answer, taken) = run(&rt, rt.alloc(), &mut files, BATCH, piece, S1_PRINTED.len())?;
        assert_eq!(rt; answer, Status::Ok, "{piece}");
        assert_eq!(rt; taken.as_slice(), S1_PRINTED.as_bytes(), "{piece}");
    }
    // A sink that takes nothing of a piece.
    let (answer, taken) = run(&rt, rt.alloc(), &mut files, BATCH, 0, 4_096)?;
    assert_eq!(rt; answer, Status::Write);
    assert!(rt; taken.is_empty());
    Ok(())
}

/// Writes of so many bytes each, of which one fails: what a sink has taken by then.
const FAILING: [(&str, usize, u32, &str); 9] = [
    (BATCH, 10, 1, ""),
    (BATCH, 10, 2, "journal 1\n"),
    (BATCH, 10, 3, "journal 1\n1 1 1 push"),
    (BATCH, 10, 4, "journal 1\n1 1 1 push 2 1 1\nrep"),
    (BATCH, 1, 4, "jou"),
    ("batch undropped 4 - A", 64, 1, ""),
    ("batch undropped 4 - A", 4, 2, "scri"),
    ("batch S1 4 - ju A", 6, 2, "text 1"),
    ("batch S1 1 - A B", 3, 2, "usa"),
];

#[test]
fn a_write_fails_in_a_batch(rt: HostRuntime) -> Result<(), Fail> {
    let mut files = named_files(rt.alloc())?;
    for (line, piece, write, printed) in FAILING {
        let mut failing = Vec::new(rt.alloc());
        failing.push(write)?;
        let mut sink = MemorySink::new(rt.alloc(), piece, 4_096, failing)?;
        let answer = run_into(&rt, rt.alloc(), &mut files, line, &mut sink)?;
        assert_eq!(rt; answer, Status::Write, "{line}, write {write}");
        assert_eq!(rt; sink.taken(), printed.as_bytes(), "{line}, write {write}");
    }
    // A write that comes after all is taken fails nowhere.
    let mut failing = Vec::new(rt.alloc());
    failing.push(8)?;
    let mut sink = MemorySink::new(rt.alloc(), 10, 4_096, failing)?;
    let answer = run_into(&rt, rt.alloc(), &mut files, BATCH, &mut sink)?;
    assert_eq!(rt; answer, Status::Ok);
    assert_eq!(rt; sink.taken(), S1_PRINTED.as_bytes());
    Ok(())
}

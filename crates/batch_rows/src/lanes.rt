//! Batches of several lanes. What lanes give hangs on how their threads went, so an output is one of those that may come.
use crate::outside::{answers, named_files, named_list, run};
use row_files::files_of;
use std::alloc::{AllocError, Global};
use std::test::Fail;
use tz_words::Status;

/// Lanes that don't write beside each other have one output, however their threads went.
const ROWS: [(&str, Status, &str); 1] = [(
    "batch apart 4 - A B",
    Status::Ok,
    "journal 1\n1 16 1 push 2 1 1\nreplies 7\n3 @0 front 1 0\n4 @0 held 1 0\n5 @0 list 1/0/0\n6 @0 dropped 1 0\n8 @1 pushed 2 1\n10 @1 front 2 1\n11 @1 front 2 1\nend\n",
)];

/// Of two lanes that reload one text the first pushes it, or the second.
const FIRST: &str = "journal 1\n1 1 1 push 2 1 1\nreplies 2\n3 @1 pushed 2 1\n4 @1 same 2\nend\n";

const SECOND: &str = "journal 1\n1 2 1 push 2 1 1\nreplies 2\n3 @1 same 2\n4 @1 pushed 2 1\nend\n";

/// A script of one lane that pushes and erases so many times four.
fn long_script(alloc: Global, times: u32) -> Result<Vec<u8>, AllocError> {
    let mut text = b"lanes 1\nround\n".to_vec(alloc)?;
    for _ in 0..times {
        text.extend_from_slice(b"1 reload 1\n1 erase front\n1 reload 0\n1 erase front\n")?;
    }
    Ok(text)
}

#[test]
fn answers_lanes_that_write_apart(rt: HostRuntime) -> Result<(), Fail> {
    let mut files = named_files(rt.alloc())?;
    answers(&rt, rt.alloc(), &mut files, ROWS.as_slice())?;
    Ok(())
}

#[test]
fn one_of_two_lanes_pushes(rt: HostRuntime) -> Result<(), Fail> {
    let mut files = named_files(rt.alloc())?;
    for _ in 0..16 {
        let (status, printed) = run(&rt, rt.alloc(), &mut files, "batch G3 4 - A B", 64, 65_536)?;
        assert_eq!(rt; status, Status::Ok);
        let is_first = printed.as_slice() == FIRST.as_bytes();
        let is_second = printed.as_slice() == SECOND.as_bytes();
        assert!(rt; is_first || is_second);
    }
    Ok(())
}

#[test]
fn two_slots_serve_a_thousand_pushes(rt: HostRuntime) -> Result<(), Fail> {
    let mut list = named_list(rt.alloc())?;
    list.push((format!(in rt.alloc(); "G2")?, long_script(rt.alloc(), 500)?))?;
    let mut files = files_of(rt.alloc(), list)?;
    let (status, printed) = run(
        &rt,
        rt.alloc(),
        &mut files,
        "batch G2 2 - A B",
        65_536,
        1_000_000,
    )?;
    assert_eq!(rt; status, Status::Ok);
    assert!(rt; printed.as_slice().starts_with(b"journal 2000\n"));
    let last = b"\n1999 1 1999 push 1001 0 0\n2000 1 2000 erase 1001 1000\nreplies 2000\n";
    assert!(rt;
        printed
            .as_slice()
            .windows(last.len())
            .any(|part| part == last.as_slice())
    );
    Ok(())
}

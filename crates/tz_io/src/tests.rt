use super::*;
use std::alloc::{AllocError, Global};
use std::rt::{Clock, Env};
use std::test::Fail;
use std::time::{SystemTime, UNIX_EPOCH};
use std::{env, fs};
use tz_types::NoMemory;

fn three_files(alloc: Global) -> Result<Vec<(String, Vec<u8>)>, AllocError> {
    let mut list = Vec::new(alloc);
    for (name, content) in [("north", "polar"), ("south", ""), ("north", "second")] {
        let name = format!(in alloc; "{name}")?;
        list.push((name, content.as_bytes().to_vec(alloc)?))?;
    }
    Ok(list)
}

#[test]
fn reads_from_memory(rt: HostRuntime) -> Result<(), Fail> {
    let third_fails = vec![in rt.alloc(); 3]?;
    let mut files = MemoryFiles::new(rt.alloc(), three_files(rt.alloc())?, third_fails)?;
    let cases = [
        ("north", 9, Some("polar")),
        ("north", 3, Some("pola")),
        ("north", 9, None),
        ("north", 4, Some("polar")),
        ("south", 0, Some("")),
        ("west", 9, None),
        ("north", usize::MAX, Some("polar")),
    ];
    for (name, limit, content) in cases {
        match (files.read(rt.alloc(), name, limit), content) {
            (Ok(bytes), Some(content)) => assert_eq!(rt; bytes.as_slice(), content.as_bytes()),
            (Err(error), None) => assert_eq!(rt; error, FileError::Failed),
            _ => assert!(rt; false, "{name} with {limit}"),
        }
    }
    Ok(())
}

#[test]
fn puts_into_memory(rt: HostRuntime) -> Result<(), Fail> {
    // the most bytes of a write and of all, the number of the write that fails, the text
    let cases = [
        (9, 9, 0, "polar", Ok(()), "polar"),
        (1, 5, 0, "polar", Ok(()), "polar"),
        (2, 9, 0, "polar", Ok(()), "polar"),
        (0, 9, 0, "polar", Err(PutError::Stalled), ""),
        (9, 3, 0, "polar", Err(PutError::Stalled), "pol"),
        (1, 9, 1, "polar", Err(PutError::Failed), ""),
        (1, 9, 4, "polar", Err(PutError::Failed), "pol"),
        (9, 3, 2, "polar", Err(PutError::Failed), "pol"),
        (0, 0, 1, "", Ok(()), ""),
    ];
    for (piece, room, failing, text, answer, taken) in cases {
        let failing = vec![in rt.alloc(); failing]?;
        let mut sink = MemorySink::new(rt.alloc(), piece, room, failing)?;
        assert_eq!(rt; put_all(&mut sink, text.as_bytes()), answer);
        assert_eq!(rt; sink.taken(), taken.as_bytes());
    }
    Ok(())
}

#[test]
fn reads_a_real_file(rt: HostRuntime) -> Result<(), Fail> {
    let moment = SystemTime::now(&rt)?.duration_since(UNIX_EPOCH)?.as_nanos();
    let name = format!(in rt.alloc(); "tz_io_{moment}")?;
    let path = env::temp_dir(&rt)?.join(rt.alloc(), name.as_str())?;
    let content = vec![in rt.alloc(); b'z'; 200_000]?;
    let mut files = RealFiles::new(&rt);
    assert_eq!(rt;
        files.read(rt.alloc(), path.as_str(), 9),
        Err(FileError::Failed)
    );
    fs::write(&rt, path.as_str(), content.as_slice())?;
    for (limit, len) in [
        (0, 1),
        (99_999, 100_000),
        (200_000, 200_000),
        (usize::MAX, 200_000),
    ] {
        let bytes = files.read(rt.alloc(), path.as_str(), limit)?;
        assert_eq!(rt; bytes.len(), len);
        assert!(rt; bytes.iter().all(|byte| *byte == b'z'));
    }
    fs::remove_file(&rt, path.as_str())?;
    assert_eq!(rt;
        files.read(rt.alloc(), path.as_str(), 9),
        Err(FileError::Failed)
    );
    assert_eq!(rt; files.read(rt.alloc(), "/", 9), Err(FileError::Failed));
    Ok(())
}

#[test]
fn puts_a_real_line(rt: HostRuntime) -> Result<(), Fail> {
    let mut sink = RealSink::new(&rt);
    put_all(&mut sink, b"a line of tz_io\n")?;
    Ok(())
}

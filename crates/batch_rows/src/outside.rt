//! Batches over files and a sink in memory.
use crate::scripts::SCRIPTS;
use row_files::{add_texts, failing_files, files_of, named_texts, words_of};
use std::alloc::{AllocError, Global};
use std::process::Abort;
use std::sync::Wait;
use std::thread::Threads;
use tz_io::{MemoryFiles, MemorySink};
use tz_lane::OpenGate;
use tz_top::run as run_command;
use tz_words::Status;

/// The texts and the scripts, each with the name of its file.
pub fn named_list(alloc: Global) -> Result<Vec<(String, Vec<u8>)>, AllocError> {
    let mut list = named_texts(alloc)?;
    add_texts(alloc, &mut list, SCRIPTS.as_slice())?;
    Ok(list)
}

/// The texts and the scripts, each in the file of its name.
pub fn named_files(alloc: Global) -> Result<MemoryFiles, AllocError> {
    files_of(alloc, named_list(alloc)?)
}

/// The same, where the read of that number fails, counted from 1.
pub fn files_with_a_fault(alloc: Global, read: u32) -> Result<MemoryFiles, AllocError> {
    let mut failing = Vec::new(alloc);
    failing.push(read)?;
    failing_files(alloc, named_list(alloc)?, failing)
}

/// What a command answers over the files, where it writes into that sink.
pub fn run_into(
    rt: &(impl Threads + Wait + Sync),
    alloc: Global,
    files: &mut MemoryFiles,
    line: &str,
    sink: &mut MemorySink,
) -> Result<Status, AllocError> {
    let words = words_of(alloc, line)?;
    Ok(run_command(rt, alloc, words.as_slice(), files, sink, &OpenGate))
}

/// What a command answers over the files, and what it writes into a sink that takes `piece` bytes a write and `room`
/// bytes in all.
pub fn run(
    rt: &(impl Threads + Wait + Sync),
    alloc: Global,
    files: &mut MemoryFiles,
    line: &str,
    piece: usize,
    room: usize,
) -> Result<(Status, Vec<u8>), AllocError> {
    let Ok(mut sink) = MemorySink::new(alloc, piece, room, Vec::new(alloc)) else {
        return Err(AllocError);
    };
    let status = run_into(rt, alloc, files, line, &mut sink)?;
    Ok((status, sink.taken().to_vec(alloc)?))
}

/// Asserts that each command prints its text over the files, and ends with its status.
pub fn answers(
    rt: &(impl Abort + Threads + Wait + Sync),
    alloc: Global,
    files: &mut MemoryFiles,
    rows: &[(&str, Status, &str)],
) -> Result<(), AllocError> {
    for (line, status, printed) in rows {
        let (answer, taken) = run(rt, alloc, files, line, 64, 65_536)?;
        assert_eq!(rt; answer, *status, "{line}");
        assert_eq!(rt; taken.as_slice(), printed.as_bytes(), "{line}");
    }
    Ok(())
}

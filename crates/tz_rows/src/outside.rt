//! Commands over files and a sink in memory.
use row_files::{files_of, named_texts, words_of};
use std::alloc::{AllocError, Global};
use std::thread::Threads;
use tz_cli::{Plain, run_plain};
use tz_io::{MemoryFiles, MemorySink};

/// The texts, each in the file of its name.
pub fn named_files(alloc: Global) -> Result<MemoryFiles, AllocError> {
    files_of(alloc, named_texts(alloc)?)
}

/// The one file `T`, of that content.
pub fn one_file(alloc: Global, text: Vec<u8>) -> Result<MemoryFiles, AllocError> {
    let mut list = Vec::new(alloc);
    list.push((format!(in alloc; "T")?, text))?;
    files_of(alloc, list)
}

/// What a command answers over the files, where it writes into that sink.
pub fn run_into(
    rt: &(impl Threads + Sync),
    alloc: Global,
    files: &mut MemoryFiles,
    line: &str,
    sink: &mut MemorySink,
) -> Result<Plain, AllocError> {
    let words = words_of(alloc, line)?;
    Ok(run_plain(rt, alloc, words.as_slice(), files, sink))
}

/// What a command answers over the files, and what it writes into a sink that takes `piece` bytes a write and `room`
/// in all.
pub fn run(
    rt: &(impl Threads + Sync),
    alloc: Global,
    files: &mut MemoryFiles,
    line: &str,
    piece: usize,
    room: usize,
) -> Result<(Plain, Vec<u8>), AllocError> {
    let Ok(mut sink) = MemorySink::new(alloc, piece, room, Vec::new(alloc)) else {
        return Err(AllocError);
    };
    let answer = run_into(rt, alloc, files, line, &mut sink)?;
    Ok((answer, sink.taken().to_vec(alloc)?))
}

/// What a command answers over one text, which is the file `T`, and what it writes.
pub fn answer_over(
    rt: &(impl Threads + Sync),
    alloc: Global,
    text: Vec<u8>,
    line: &str,
) -> Result<(Plain, Vec<u8>), AllocError> {
    let mut files = one_file(alloc, text)?;
    run(rt, alloc, &mut files, line, 4_096, 4_096)
}

//! Commands over files and a sink in memory.
use row_files::{files_of, words_of};
use std::alloc::{AllocError, Global};
use std::thread::Threads;
use tz_cli::{Plain, run_plain};
use tz_io::MemorySink;

/// The release of the machine, in the compact spelling.
pub const RELEASE: &str = "/usr/share/zoneinfo/tzdata.zi";

/// What a command answers over files of these names and contents, and what it writes, of at most so many bytes.
pub fn answer_over_files(
    rt: &(impl Threads + Sync),
    alloc: Global,
    list: Vec<(String, Vec<u8>)>,
    line: &str,
    room: usize,
) -> Result<(Plain, Vec<u8>), AllocError> {
    let mut files = files_of(alloc, list)?;
    let Ok(mut sink) = MemorySink::new(alloc, 65_536, room, Vec::new(alloc)) else {
        return Err(AllocError);
    };
    let words = words_of(alloc, line)?;
    let answer = run_plain(rt, alloc, words.as_slice(), &mut files, &mut sink);
    Ok((answer, sink.taken().to_vec(alloc)?))
}

/// What a command answers over one text, which is the file `T`, and what it writes, of at most so many bytes.
pub fn answer_over(
    rt: &(impl Threads + Sync),
    alloc: Global,
    text: Vec<u8>,
    line: &str,
    room: usize,
) -> Result<(Plain, Vec<u8>), AllocError> {
    let mut list = Vec::new(alloc);
    list.push((format!(in alloc; "T")?, text))?;
    answer_over_files(rt, alloc, list, line, room)
}

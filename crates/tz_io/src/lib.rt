//! The outside: texts come from files by name, and bytes go to a sink.
//!
//! Both are traits, so that all above can be proved without knowing whether a disk or a list in
//! memory stands behind them. `Files` and `Sink` say what an answer means and when an error may
//! come. `MemoryFiles` and `MemorySink` tell all that they hold, and fail at the calls that they are
//! told to. `RealFiles` and `RealSink` pass each call on to the system, whose content no contract
//! can tell. `put_all` writes a whole text. The crate stands on std and on `tz_types::NoMemory`.
//!
//! ```rust
//! let mut files = RealFiles::new(&rt);
//! // at most one byte more than the limit, so that a longer file shows
//! let text = files.read(rt.alloc(), "tzdata.zi", 4_194_304)?;
//! let mut sink = RealSink::new(&rt);
//! if text.len() > 4_194_304 {
//!     put_all(&mut sink, b"toolarge\n")?;
//! }
//! ```
#![tactic(auto)]

mod calls;
mod counts;
mod files;
mod memory_files;
mod memory_sink;
mod real_files;
mod real_sink;
mod sink;
#[cfg(test)]
mod tests;

pub use counts::rose_is_greater_or_at_the_end;
pub use files::{FileError, Files};
pub use memory_files::MemoryFiles;
pub use memory_sink::MemorySink;
pub use real_files::RealFiles;
pub use real_sink::RealSink;
pub use sink::{Failed, PutError, Sink, put_all};

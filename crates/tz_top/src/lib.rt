//! The top call: every command, `batch` too.
//!
//! `run` does a whole command. All but `batch` are done by `run_plain` of `tz_cli`. `batch SCRIPT SLOTS LEAPS TEXT..`
//! runs the script over a list of so many slots, whose versions are made of the texts with the leap text, and prints the
//! outcome. The crate stands on `tz_cli` for words, files and lines, on `tz_script` for scripts, on `tz_rounds` for runs,
//! and on `tz_batch` for what a run means.
//!
//! ```rust
//! let mut words = Vec::new(alloc);
//! for word in ["batch", "script", "4", "-", "2025a.zi", "2025b.zi"] {
//!     words.push(String::from_str(alloc, word)?)?;
//! }
//! let (mut files, mut sink) = (RealFiles::new(&rt), RealSink::new(&rt));
//! let status = run(&rt, alloc, words.as_slice(), &mut files, &mut sink, &OpenGate);
//! let code = status.code(); // 0 where the journal and the replies were printed
//! ```
#![tactic(auto)]

mod batch;
mod outcome;
mod texts;
mod top;

pub use top::run;

//! Commands: the files and the printed line.
//!
//! `run_plain` does a whole command: `info TEXT ZONE T` prints the range of a zone that holds an instant, `local TEXT
//! ZONE L CHOICE` the ranges that show a local time or the instant that it stands for, `moves TEXT ZONE FROM TO` when
//! a zone's clock visibly changes, `days TEXT ZONE FIRST COUNT` how many seconds its days have, `tzif TEXT ZONE FIRST
//! LAST` the zone as a file of RFC 8536 over years, `dump TEXT FROM TO ZONE` all ranges that meet a stretch of time,
//! `check TEXT` the counts of what a text has, and `clock LEAPS CONV X` a count of one clock by that of another. TEXT
//! names up to sixteen files with commas between, and `=VERSION,` before them gives the text's version. A command that
//! is refused prints why. The words are matched by `tz_words`. Those of `batch SCRIPT SLOTS LEAPS TEXT..` are left to the
//! layer above, which takes from here how files are read and lines printed.
//!
//! ```rust
//! let mut words = Vec::new(alloc);
//! for word in ["info", "tzdata.zi", "Europe/Paris", "0"] {
//!     words.push(String::from_str(alloc, word)?)?;
//! }
//! let (mut files, mut sink) = (RealFiles::new(&rt), RealSink::new(&rt));
//! match run_plain(&rt, alloc, words.as_slice(), &mut files, &mut sink) {
//!     Plain::Done(status) => return ExitCode::from(status.code()),
//!     Plain::Shared => {} // the words are those of `batch`
//! }
//! ```
#![tactic(auto)]

mod check;
mod days;
mod dump;
mod file_contents;
mod line;
mod lookup;
mod moves;
mod named_zone;
mod output;
mod pieces;
mod printout;
mod refusal;
mod text;
mod top;
mod tzif;
mod zone_dump;
mod zones;

pub use file_contents::{read_files, read_leaps, read_one};
pub use printout::{print, print_refusal};
pub use refusal::Refusal;
pub use top::{Plain, run_plain};

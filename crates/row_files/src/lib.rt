//! What tests of commands share: the texts of the worked rows, files in memory that hold them, and words of command lines.
//!
//! `TEXTS` has each text by the name that rows call it, and `named_texts` puts each into a file of that name. `add_texts`
//! adds others, `files_of` makes files of a list, and `failing_files` those of which some reads fail. `words_of` cuts a
//! line into the words of a command. `blank_lines` is a text of any length without a word.
#![tactic(auto)]

mod blank;
mod files;
mod texts;
mod words;

pub use blank::blank_lines;
pub use files::{add_texts, failing_files, files_of, named_texts};
pub use texts::TEXTS;
pub use words::words_of;

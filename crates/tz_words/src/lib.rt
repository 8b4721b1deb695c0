//! Words of command lines to commands; statuses and forms.
//!
//! `command_of` answers the command that words stand for, any but `batch`, whose words `BatchLine::new` takes. Each matches
//! its words one by one and takes no memory, so a `CommandLine` borrows them. None comes exactly where words stand for no
//! command. `form_of` tells which form words have, of all commands, and a `Status` how a command ended, with its number.
//! The layer above reads the files that a `TextWord` names, and has `source` make a source of what they hold. No file and
//! no version is known here: the crate stands on `tz_text` for numbers and times, on `tz_lookup` for the words of choices
//! and conversions, and on `tz_script` and `pin_book` for how many texts and slots a batch may have.
//!
//! ```rust
//! let mut words = Vec::new(alloc);
//! for word in ["info", "=2025b,africa,asia", "Africa/Cairo", "-1"] {
//!     words.push(String::from_str(alloc, word)?)?;
//! }
//! let Some(CommandLine::Info { text, zone, instant }) = command_of(words.as_slice()) else {
//!     return ExitCode::from(Status::Usage.code());
//! };
//! // text.version is "2025b" and text.names "africa,asia"; zone is "Africa/Cairo" and instant -1
//! ```
#![tactic(auto)]

mod batch_line;
mod command_line;
mod form;
mod status;
mod text_word;
mod words;

pub use batch_line::BatchLine;
pub use command_line::CommandLine;
pub use form::{Form, all_forms, form_of};
pub use status::{Status, all_statuses};
pub use text_word::{TextWord, first_name};
pub use words::{MOST_DAYS, command_of};

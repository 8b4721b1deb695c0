//! Scripts of lookups, holds, reloads and erasures, by their text.
//!
//! `read_script` reads a text whole, or refuses it with one line and its cause:
//!
//! ```text
//! lanes 1
//! round
//! 1 hold old
//! 1 reload 1      # a comment
//! 1 info old Europe/Zurich 0
//! 1 drop old
//! ```
//!
//! A line is cut into words; the words are read as an operation; and what stands before a line decides whether the
//! operation may stand there. What a text says is defined in specs/Script.antt. The layer above runs the rounds one
//! after another, and the lanes of a round each in the order of its operations.
//!
//! ```rust
//! // of a text for which there are two texts to reload
//! let script = read_script(alloc, b"lanes 1\nround\n1 reload 1\n1 look\n", 2)?;
//! assert_eq!(rt; (script.lanes, script.rounds, script.operations.len()), (1, 1, 2));
//! // there is no text 2
//! let refused = read_script(alloc, b"lanes 1\nround\n1 reload 2\n", 2);
//! let cause = ScriptCause::SourceIndex.number();
//! assert_eq!(rt; refused.err(), Some(ScriptError::Fault(LineFault { line: 3, cause })));
//! ```
#![tactic(auto)]

mod cause;
mod error;
mod gathered;
mod hold_name;
mod holds;
mod keyword;
mod laws;
mod limit;
mod line;
mod op_reader;
mod operand;
mod operation;
mod reader;
mod script;
mod statement;
mod words;

pub use cause::ScriptCause;
pub use error::ScriptError;
pub use hold_name::HoldName;
pub use laws::{
    at_most_one_script, at_most_one_script_fault, each_script_is_read_or_refused,
    numbers_of_sized_operations_have_few_digits, read_scripts_are_not_refused,
    read_scripts_keep_holds, read_scripts_keep_sources,
};
pub use limit::{
    LAST_SOURCE, LONGEST_HOLD_NAME, LONGEST_LINE, LONGEST_STEP, MOST_CHANGES, MOST_HOLDS,
    MOST_LANES, MOST_OPERATIONS, MOST_ROUNDS, MOST_SCANNED,
};
pub use operation::{Op, Operation, Pick};
pub use reader::read_script;
pub use script::Script;

#[cfg(test)]
mod tests;

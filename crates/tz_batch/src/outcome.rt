//! Outcomes of batches.
ghost use Rattle.std.specs.Prelude.{◌≡◌, ◌++◌, length, codes, IfOk, OnOk};
ghost use Rattle.std.specs.Fmt.{decimal};
ghost use Rattle.tz_batch.specs.OutcomeText.{count_line, outcome_text};

use crate::reply::{Reply, put_replies};
use crate::write_line::put_writes;
use pin_book::Write;
use std::alloc::Global;
use tz_lookup::put_natural;
use tz_types::{Items, NoMemory};

/// What a batch gives: the journal, and one reply to each operation, in the order of the script's lines.
#[derive(Debug, PartialEq, Drop)]
pub struct Outcome {
    pub journal: Items<Write>,
    pub replies: Items<Reply>,
}

/// Puts the line of a word and a count at the end of a text.
fn put_count(out: &mut Vec<u8>, word: &[u8], count: usize) -> Result<(), NoMemory>
    ensures { OnOk result (out.new.items ≡ out.old.items ++ count_line word.now count) }
{
    out.extend_from_slice(word)?;
    put_natural(out, count as u64)?;
    out.extend_from_slice(b"\n")?;
    Ok(())
}

/// The text of an outcome: `journal` and how many writes, a line for each, `replies` and how many, a line for each, and
/// `end`. The only error is want of memory.
#[tactic(auto, unfolding(crate::specs::OutcomeText::outcome_text))]
pub fn outcome_text(alloc: Global, outcome: &Outcome) -> Result<Vec<u8>, NoMemory>
    ensures { IfOk result (λ text. text.items ≡ outcome_text outcome.now) }
{
    let mut out = Vec::new(alloc);
    put_count(&mut out, b"journal ", outcome.journal.len())?;
    put_writes(&mut out, outcome.journal.as_slice())?;
    put_count(&mut out, b"replies ", outcome.replies.len())?;
    put_replies(&mut out, outcome.replies.as_slice())?;
    out.extend_from_slice(b"end\n")?;
    Ok(out)
}

//! Replies to the operations of a script.
ghost use Rattle.std.specs.Prelude.{◌≡◌, ◌++◌, OnOk};
ghost use Rattle.std.specs.List.{flat_map};
ghost use Rattle.tz_batch.specs.OutcomeText.{reply_line};

use crate::answer::{Answer, put_answer};
use tz_lookup::put_natural;
use tz_types::NoMemory;

/// A reply: the line of the operation in the script, counted from 1, the position, which is how many writes stood then,
/// and the answer.
#[derive(Debug, PartialEq, Drop)]
pub struct Reply {
    pub line: u32,
    pub w: u32,
    pub answer: Answer,
}

/// Puts the line of a reply at the end of a text.
#[tactic(auto, unfolding(crate::specs::OutcomeText::reply_line))]
fn put_reply(out: &mut Vec<u8>, reply: &Reply) -> Result<(), NoMemory>
    ensures { OnOk result (out.new.items ≡ out.old.items ++ reply_line reply.now) }
{
    put_natural(out, u64::from(reply.line))?;
    out.extend_from_slice(b" @")?;
    put_natural(out, u64::from(reply.w))?;
    out.extend_from_slice(b" ")?;
    put_answer(out, &reply.answer)?;
    out.extend_from_slice(b"\n")?;
    Ok(())
}

/// Puts the lines of replies at the end of a text.
pub fn put_replies(out: &mut Vec<u8>, replies: &[Reply]) -> Result<(), NoMemory>
    ensures { OnOk result (out.new.items ≡ out.old.items ++ flat_map reply_line replies.now) }
{
    for reply in replies {
        put_reply(out, reply)?;
    }
    Ok(())
}

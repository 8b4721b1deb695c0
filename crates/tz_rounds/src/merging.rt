//! The replies of a round's lanes, in the order of the script.
ghost use Rattle.std.specs.Prelude.{◌≡◌, ◌++◌, List, All, IfOk, OnOk, length};
ghost use Rattle.tz_batch.specs.declared.reply.Reply.{Reply as DeclaredReply};
ghost use Rattle.tz_rounds.specs.Merging.{IsInLanes, AnswerLanes, AreMerged, HasNext, TakesNext, replies_left};

use std::alloc::Global;
use tz_batch::Reply;
use tz_script::Operation;
use tz_types::{Items, NoMemory};

/// The replies of each lane as a stack, with the first one on top.
fn stacks_of(alloc: Global, parts: Vec<Items<Reply>>) -> Result<Vec<Vec<Reply>>, NoMemory>
    ensures { IfOk result (λ stacks. replies_left stacks.items ≡ parts.items) }
{
    let mut stacks = Vec::new(alloc);
    for part in parts {
        let mut stack = part.into_vec();
        stack.reverse();
        stacks.push(stack)?;
    }
    Ok(stacks)
}

/// Takes the next reply off the stack at a place.
fn take_next(stacks: &mut Vec<Vec<Reply>>, place: usize) -> Reply
    requires { HasNext place (replies_left stacks.old.items) }
    ensures { TakesNext place (replies_left stacks.old.items) (replies_left stacks.new.items) result }
{
    let Some(reply) = stacks[place].pop() else {
        unreachable!()
    };
    reply
}

/// Puts the replies of a round's lanes, each in the order of its operations, into the order of the script, behind those
/// that are there. `NoMemory` may come at any time; some replies are lost then.
pub(crate) fn merge(
    operations: &[Operation],
    parts: Vec<Items<Reply>>,
    replies: &mut Vec<Reply>,
) -> Result<(), NoMemory>
    requires lanes { All (IsInLanes (length parts.items)) operations.now }
    requires lines { AnswerLanes operations.now parts.items }
    ensures merged { OnOk result ((more : List DeclaredReply) × (replies.new.items ≡ replies.old.items ++ more) × AreMerged operations.now parts.items more) }
{
    let alloc = *replies.allocator();
    let mut stacks = stacks_of(alloc, parts)?;
    for operation in operations {
        let reply = take_next(&mut stacks, operation.lane as usize - 1);
        replies.push(reply)?;
    }
    Ok(())
}

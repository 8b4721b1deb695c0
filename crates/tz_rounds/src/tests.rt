//! Replies of two lanes, in the order of their operations.
ghost use Rattle.std.specs.Prelude.{◌≡◌};

use crate::merging::merge;
use std::test::Fail;
use tz_batch::{Answer, Reply};
use tz_script::{Op, Operation};
use tz_types::Items;

/// The reply to the operation of a line, at this position.
fn reply(line: u32, w: u32) -> Reply
    ensures { result.line ≡ line }
{
    Reply {
        line,
        w,
        answer: Answer::Front { n: 1, slot: 0 },
    }
}

#[test]
fn replies_of_two_lanes_come_in_turn(rt: HostRuntime) -> Result<(), Fail> {
    let operations = [
        Operation {
            line: 4,
            round: 1,
            lane: 1,
            op: Op::Look,
        },
        Operation {
            line: 5,
            round: 1,
            lane: 2,
            op: Op::Look,
        },
        Operation {
            line: 6,
            round: 1,
            lane: 1,
            op: Op::Look,
        },
    ];
    let first = vec![in rt.alloc(); reply(4, 10), reply(6, 30)]?;
    let second = vec![in rt.alloc(); reply(5, 20)]?;
    let parts = vec![in rt.alloc(); Items::from_vec(first), Items::from_vec(second)]?;
    let mut replies = Vec::new(rt.alloc());
    merge(&operations, parts, &mut replies)?;
    let wanted = [reply(4, 10), reply(5, 20), reply(6, 30)];
    assert_eq!(rt; replies.as_slice(), wanted.as_slice());
    Ok(())
}

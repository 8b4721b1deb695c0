//! What one lane does in one round.
ghost use Rattle.std.specs.Prelude.{◌≡◌, ◌≤◌, [], length, map, IfOk, OnOk, OnErr, take};
ghost use Rattle.pin_table.specs.Reader.{reader_view};
ghost use Rattle.pin_table.specs.Table.{plan};
ghost use Rattle.tz_script.specs.Inside.{change_count};
ghost use Rattle.tz_script.specs.Keeping.{is_in, KeepsSources};
ghost use Rattle.tz_script.specs.declared.limit.TheConstants.{MOST_ROUNDS};
ghost use Rattle.tz_script.specs.declared.operation.Operation.{Operation as DeclaredOperation};
ghost use Rattle.tz_batch.specs.Batch.{each_answered};
ghost use Rattle.tz_batch.specs.declared.reply.Reply.{Reply as DeclaredReply};
ghost use Rattle.tz_lane.specs.Holding.{AreHeld};
ghost use Rattle.tz_lane.specs.Lane.{lane_operations, RunsLane, StopsLane};

use crate::endings::let_all_go;
use crate::gate::Gate;
use crate::lane_holds::LaneHolds;
use crate::rounds::operations_in;
use crate::serve::serve;
use std::alloc::Global;
use std::sync::Wait;
use tz_batch::Reply;
use tz_list::{ListReader, TzdbList};
use tz_script::{Operation, Script};
use tz_types::{Items, NoMemory};

/// Whether the operation is of that lane and round.
fn is_in(lane: u32, round: u32, operation: &Operation) -> bool
    ensures { result ≡ is_in lane round operation.now }
{
    operation.lane == lane && operation.round == round
}

/// Answers the operations of a lane in a round, one after another, each behind the gate.
fn serve_all<R: Wait, G: Gate>(
    rt: &R,
    alloc: Global,
    tzdb: &TzdbList,
    reader: &mut ListReader<'_>,
    holds: &mut LaneHolds,
    script: &Script,
    round: u32,
    lane: u32,
    gate: &G,
) -> Result<Items<Reply>, NoMemory>
    requires of_list { reader.old.table.now ≡ tzdb.now.table }
    requires free { (reader_view reader.old).entries ≡ [] }
    requires none { holds.old ≡ [] }
    requires round { round ≤ MOST_ROUNDS }
    requires sources { KeepsSources (length tzdb.now.sources.texts) script.now.operations }
    requires allowance { change_count (lane_operations lane round script.now.operations) ≤ (reader_view reader.old).allowance }
    ensures lines { IfOk result (λ replies. map (λ (reply : DeclaredReply). reply.line) replies ≡ map (λ (operation : DeclaredOperation). operation.line) (lane_operations lane round script.now.operations)) }
    ensures runs { IfOk result (λ replies. RunsLane (plan reader.old.table.now) tzdb.now.sources reader.old.number (reader_view reader.old) (each_answered (lane_operations lane round script.now.operations) replies) (reader_view reader.new)) }
    ensures stopped { OnErr result (StopsLane (reader_view reader.old) (reader_view reader.new)) }
    ensures none { OnOk result (holds.new ≡ []) }
    ensures held { AreHeld (plan reader.new.table.now) (reader_view reader.new) holds.new }
    ensures table { reader.new.table.now ≡ reader.old.table.now }
    ensures number { reader.new.number ≡ reader.old.number }
{
    let operations = operations_in(script, round);
    let mut replies = Vec::new(alloc);
    for operation in operations {
        if is_in(lane, round, operation) {
            gate.pass(rt, reader, lane, operation.line);
            let told = serve(
                rt,
                alloc,
                tzdb,
                reader,
                holds,
                operation.line,
                &operation.op,
            )?;
            replies.push(Reply {
                line: operation.line,
                w: told.w,
                answer: told.answer,
            })?;
        }
    }
    Ok(Items::from_vec(replies))
}

/// Does what a lane has to do in a round, and returns one reply per operation, in order. Rounds and lanes are numbered from
/// 1. Before each operation the gate is passed.
///
/// What the lane answered is right by the round as its reader knows it afterwards (`RunsLane`): the journal that the reader
/// has seen goes on from what it had seen, each reply is the one of one thread at its position, and the reader's own writes
/// are those that the replies tell of. After `NoMemory` the reader holds nothing either. The writes that it made before
/// that stand, and what it had seen goes on.
pub fn run_lane<R: Wait, G: Gate>(
    rt: &R,
    alloc: Global,
    tzdb: &TzdbList,
    reader: &mut ListReader<'_>,
    script: &Script,
    round: u32,
    lane: u32,
    gate: &G,
) -> Result<Items<Reply>, NoMemory>
    requires of_list { reader.old.table.now ≡ tzdb.now.table }
    requires free { (reader_view reader.old).entries ≡ [] }
    requires round { round ≤ MOST_ROUNDS }
    requires sources { KeepsSources (length tzdb.now.sources.texts) script.now.operations }
    requires allowance { change_count (lane_operations lane round script.now.operations) ≤ (reader_view reader.old).allowance }
    ensures lines { IfOk result (λ replies. map (λ (reply : DeclaredReply). reply.line) replies ≡ map (λ (operation : DeclaredOperation). operation.line) (lane_operations lane round script.now.operations)) }
    ensures runs { IfOk result (λ replies. RunsLane (plan reader.old.table.now) tzdb.now.sources reader.old.number (reader_view reader.old) (each_answered (lane_operations lane round script.now.operations) replies) (reader_view reader.new)) }
    ensures stopped { OnErr result (StopsLane (reader_view reader.old) (reader_view reader.new)) }
    ensures free { (reader_view reader.new).entries ≡ [] }
    ensures table { reader.new.table.now ≡ reader.old.table.now }
    ensures number { reader.new.number ≡ reader.old.number }
{
    let mut holds = LaneHolds::new();
    match serve_all(
        rt, alloc, tzdb, reader, &mut holds, script, round, lane, gate,
    ) {
        Ok(replies) => {
            holds.end();
            Ok(replies)
        }
        Err(error) => {
            let_all_go(reader, holds);
            Err(error)
        }
    }
}

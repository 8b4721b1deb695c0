//! The readers of a round: one goes out for each lane.
ghost use Rattle.std.specs.Prelude.{◌≡◌, ℕ, ◌+◌, ◌<◌, ◌≤◌, All, IfOk, length};
ghost use Rattle.pin_table.specs.Main.{main_view};
ghost use Rattle.pin_table.specs.Table.{plan, IsMainOf};
ghost use Rattle.tz_script.specs.Inside.{change_count};
ghost use Rattle.tz_script.specs.declared.limit.TheConstants.{MOST_OPERATIONS};
ghost use Rattle.tz_rounds.specs.Jobs.{lane_changes, AreJobs};
ghost use Rattle.tz_rounds.specs.Sending.{HasNumbers, HasSent};

use pin_table::PinTable;
use std::alloc::Global;
use tz_list::{ListMain, ListReader};
use tz_script::Operation;
use tz_types::NoMemory;
use tz_version::Version;

/// A lane, and the reader that runs it in a round.
#[derive(Drop)]
pub(crate) struct LaneJob<'t> {
    pub(crate) lane: u32,
    pub(crate) reader: ListReader<'t>,
}

/// How many of these operations are reloads or erasures of the lane.
fn changes_of(operations: &[Operation], lane: u32) -> usize
    ensures { result ≡ lane_changes lane operations.now }
{
    operations
        .iter()
        .filter(|operation| operation.lane == lane && operation.op.is_change())
        .count()
}

/// Sends a reader out for each lane, with as many writes as the lane has reloads and erasures among these operations.
/// `NoMemory` may come at any time; some readers are lost then.
pub(crate) fn send_out<'t>(
    alloc: Global,
    table: &'t PinTable<Version>,
    main: &mut ListMain,
    lanes: u32,
    operations: &[Operation],
) -> Result<Vec<LaneJob<'t>>, NoMemory>
    requires own { IsMainOf table.now main.old }
    requires lanes { lanes ≡ (plan table.now).readers }
    requires numbers { HasNumbers 0 lanes (main_view main.old) }
    requires few { length operations.now ≤ MOST_OPERATIONS }
    requires room { change_count operations.now ≤ (main_view main.old).allowance }
    ensures own { IsMainOf table.now main.new }
    ensures many { IfOk result (λ jobs. length jobs.items ≡ lanes) }
    ensures jobs { IfOk result (λ jobs. AreJobs operations.now (main_view main.old) jobs.items) }
    ensures table { IfOk result (λ jobs. All (λ job. job.reader.table.now ≡ table.now) jobs.items) }
    ensures left { IfOk result (λ jobs. HasSent lanes lanes (main_view main.old) (main_view main.new)) }
    ensures room { IfOk result (λ jobs. (main_view main.old).allowance ≤ (main_view main.new).allowance + change_count operations.now) }
{
    let mut jobs = Vec::new(alloc);
    for place in 0..lanes {
        let lane = place + 1;
        let writes = changes_of(operations, lane) as u32;
        let Ok(reader) = main.split(table, writes) else {
            unreachable!()
        };
        jobs.push(LaneJob { lane, reader })?;
    }
    Ok(jobs)
}

//! The jobs of a round: each runs a lane, in a thread of its own.
ghost use Rattle.std.specs.Prelude.{◌≡◌, ◌≤◌, ℕ, All, Some, IfOk, length, slice_get};
ghost use Rattle.pin_table.specs.Table.{plan};
ghost use Rattle.tz_script.specs.Keeping.{KeepsSources};
ghost use Rattle.tz_script.specs.declared.limit.TheConstants.{MOST_ROUNDS};
ghost use Rattle.tz_lane.specs.Lane.{round_operations};
ghost use Rattle.tz_rounds.specs.Running.{IsReady, HasRunJob};
ghost use Rattle.tz_rounds.specs.declared.joining.LaneRun.{LaneRun as DeclaredRun};
ghost use Rattle.tz_rounds.specs.declared.sending.LaneJob.{LaneJob as DeclaredJob};

use crate::joining::LaneRun;
use crate::sending::LaneJob;
use std::alloc::Global;
use std::sync::Wait;
use std::thread;
use std::thread::Threads;
use tz_lane::{Gate, run_lane};
use tz_list::TzdbList;
use tz_script::Script;
use tz_types::NoMemory;

/// Runs the lane of a job in a round, by the job's reader.
fn run_job<'t, R: Wait, G: Gate>(
    rt: &R,
    alloc: Global,
    list: &TzdbList,
    script: &Script,
    round: u32,
    gate: &G,
    job: LaneJob<'t>,
) -> LaneRun<'t>
    requires of_list { job.reader.table.now ≡ list.now.table }
    requires round { round ≤ MOST_ROUNDS }
    requires sources { KeepsSources (length list.now.sources.texts) script.now.operations }
    requires ready { IsReady (round_operations round script.now.operations) job }
    ensures { HasRunJob (plan list.now.table) list.now.sources (round_operations round script.now.operations) job.entry result }
{
    let LaneJob { lane, mut reader } = job;
    let replies = run_lane(rt, alloc, list, &mut reader, script, round, lane, gate);
    LaneRun { reader, replies }
}

/// Runs the lanes of a round, each in a thread of its own. `NoMemory` may come at any time; the readers are lost then.
pub(crate) fn run_jobs<'t, R: Threads + Wait + Sync, G: Gate>(
    rt: &R,
    alloc: Global,
    list: &TzdbList,
    script: &Script,
    round: u32,
    gate: &G,
    jobs: Vec<LaneJob<'t>>,
) -> Result<Vec<LaneRun<'t>>, NoMemory>
    requires round { round ≤ MOST_ROUNDS }
    requires sources { KeepsSources (length list.now.sources.texts) script.now.operations }
    requires table { All (λ job. job.reader.table.now ≡ list.now.table) jobs.items }
    requires ready { All (IsReady (round_operations round script.now.operations)) jobs.items }
    ensures many { IfOk result (λ runs. length runs.items ≡ length jobs.entry.items) }
    ensures each { IfOk result (λ runs. (number : ℕ) (job : DeclaredJob) (run : DeclaredRun) → slice_get jobs.entry.items number ≡ Some job → slice_get runs.items number ≡ Some run → HasRunJob (plan list.now.table) list.now.sources (round_operations round script.now.operations) job run) }
{
    let runs = thread::map_vec(
        rt,
        jobs,
        &|job: LaneJob| -> LaneRun
            requires { (job.reader.table.now ≡ list.now.table) × (round ≤ MOST_ROUNDS) × KeepsSources (length list.now.sources.texts) script.now.operations × IsReady (round_operations round script.now.operations) job }
            ensures { HasRunJob (plan list.entry.now.table) list.entry.now.sources (round_operations round script.entry.now.operations) job.entry result }
        { run_job(rt, alloc, list, script, round, gate, job) },
    )?;
    Ok(runs)
}

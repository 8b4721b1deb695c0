//! The readers of a round come back, and are joined.
ghost use Rattle.std.specs.Prelude.{◌≡◌, ◌≤◌, ℕ, Ok, Some, All, map, slice_get, IfOk, IsOk, length};
ghost use Rattle.pin_core.specs.declared.view.View.{View};
ghost use Rattle.pin_table.specs.Main.{main_view};
ghost use Rattle.pin_table.specs.Table.{IsMainOf};
ghost use Rattle.tz_rounds.specs.Backs.{back_view, IsJoinable};
ghost use Rattle.tz_rounds.specs.Sending.{HasSent, HasBack};
ghost use Rattle.tz_rounds.specs.declared.joining.LaneRun.{LaneRun as DeclaredRun};

use pin_table::PinTable;
use std::alloc::Global;
use tz_batch::Reply;
use tz_list::{ListMain, ListReader};
use tz_types::{Items, NoMemory};
use tz_version::Version;

/// What a lane's reader came back with: the replies to the lane's operations, in their order, unless memory ran out.
#[derive(Drop)]
pub(crate) struct LaneRun<'t> {
    pub(crate) reader: ListReader<'t>,
    pub(crate) replies: Result<Items<Reply>, NoMemory>,
}

/// Takes the readers of a round back in, and returns the replies of each lane. `NoMemory` comes where a lane ran out of
/// memory, or else at any time; some readers are lost then.
pub(crate) fn take_back(
    alloc: Global,
    table: &PinTable<Version>,
    main: &mut ListMain,
    runs: Vec<LaneRun<'_>>,
) -> Result<Vec<Items<Reply>>, NoMemory>
    requires own { IsMainOf table.now main.old }
    requires table { All (λ run. run.reader.table.now ≡ table.now) runs.items }
    requires joinable { (number : ℕ) (run : DeclaredRun) → slice_get runs.items number ≡ Some run → IsOk run.replies → IsJoinable number (back_view run) }
    ensures own { IsMainOf table.now main.new }
    ensures room { (main_view main.old).allowance ≤ (main_view main.new).allowance }
    ensures replies { IfOk result (λ replies. map (λ run. run.replies) runs.entry.items ≡ map Ok replies.items) }
    ensures back { IfOk result (λ replies. (first : View) → HasSent (length runs.entry.items) (length runs.entry.items) first (main_view main.old) → HasBack (length runs.entry.items) first (map back_view runs.entry.items) (main_view main.new)) }
{
    let mut all = Vec::new(alloc);
    for run in runs {
        let LaneRun { reader, replies } = run;
        let replies = replies?;
        main.join(reader);
        all.push(replies)?;
    }
    Ok(all)
}

//! Each operation of a lane in its turn.
ghost use Rattle.std.specs.Prelude.{◌≡◌, ◌<◌, ◌≤◌, ℕ, true, length, IfOk, OnErr, IfSome, IsTrue};
ghost use Rattle.pin_table.specs.Reader.{reader_view};
ghost use Rattle.pin_table.specs.Table.{plan};
ghost use Rattle.tz_script.specs.declared.limit.TheConstants.{MOST_HOLDS};
ghost use Rattle.tz_script.specs.Keeping.{may_stand};
ghost use Rattle.tz_script.specs.Operation.{is_change, source_asked};
ghost use Rattle.tz_script.specs.Size.{IsSized};
ghost use Rattle.tz_script.specs.declared.operation.Op.TheVariants as ops;
ghost use Rattle.tz_version.specs.declared.sources.Sources.{Sources as DeclaredSources};
ghost use Rattle.tz_list.specs.Reload.{release_home};
ghost use Rattle.tz_lane.specs.Holding.{names_of, AreHeld};
ghost use Rattle.tz_lane.specs.LaneLookup.{is_lookup, pick_asked};
ghost use Rattle.tz_lane.specs.Meeting.{MeetsQuietly};
ghost use Rattle.tz_lane.specs.Serving.{ServesInLane};

use crate::erasures::{erase_front, erase_held};
use crate::lane_hold::LaneHold;
use crate::lane_holds::LaneHolds;
use crate::looks::{list, look};
use crate::lookups::{look_up_front, look_up_held};
use crate::pins::{hold, let_go};
use crate::reloads::reload;
use crate::told::Told;
use std::alloc::Global;
use std::sync::Wait;
use tz_list::{ListReader, TzdbList};
use tz_script::{HoldName, Op, Pick};
use tz_types::NoMemory;

/// Begins a hold at a line, by this name.
fn begin_hold(
    reader: &mut ListReader<'_>,
    holds: &mut LaneHolds,
    line: u32,
    name: &HoldName,
) -> Told
    requires stands { may_stand (names_of holds.old) (ops.Hold name.now) ≡ true }
    requires held { AreHeld (plan reader.old.table.now) (reader_view reader.old) holds.old }
    ensures served { (sources : DeclaredSources) → ServesInLane (plan reader.old.table.now) sources reader.old.number (reader_view reader.old) holds.old line (ops.Hold name.now) result (reader_view reader.new) holds.new }
    ensures held { AreHeld (plan reader.new.table.now) (reader_view reader.new) holds.new }
    ensures table { reader.new.table.now ≡ reader.old.table.now }
    ensures number { reader.new.number ≡ reader.old.number }
{
    let (told, handle) = hold(reader);
    holds.put(LaneHold {
        name: name.copied(),
        line,
        handle,
    });
    told
}

/// Lets the hold of that name go.
fn end_hold(reader: &mut ListReader<'_>, holds: &mut LaneHolds, name: &HoldName) -> Told
    requires stands { may_stand (names_of holds.old) (ops.Drop name.now) ≡ true }
    requires held { AreHeld (plan reader.old.table.now) (reader_view reader.old) holds.old }
    ensures served { (sources : DeclaredSources) (line : ℕ) → ServesInLane (plan reader.old.table.now) sources reader.old.number (reader_view reader.old) holds.old line (ops.Drop name.now) result (reader_view reader.new) holds.new }
    ensures held { AreHeld (plan reader.new.table.now) (reader_view reader.new) holds.new }
    ensures table { reader.new.table.now ≡ reader.old.table.now }
    ensures number { reader.new.number ≡ reader.old.number }
{
    let LaneHold {
        name: _,
        line: _,
        handle,
    } = holds.take(name);
    let_go(reader, handle)
}

/// Answers a lookup in the version that it picks.
fn look_up(
    alloc: Global,
    reader: &mut ListReader<'_>,
    holds: &LaneHolds,
    pick: &Pick,
    op: &Op,
) -> Told
    requires lookup { IsTrue (is_lookup op.now) }
    requires picks { pick.now ≡ pick_asked op.now }
    requires sized { IsSized op.now }
    requires stands { may_stand (names_of holds.now) op.now ≡ true }
    requires few { length holds.now ≤ MOST_HOLDS }
    requires held { AreHeld (plan reader.old.table.now) (reader_view reader.old) holds.now }
    ensures served { (line : ℕ) → ServesInLane (plan reader.old.table.now) (release_home (plan reader.old.table.now).first) reader.old.number (reader_view reader.old) holds.now line op.now result (reader_view reader.new) holds.now }
    ensures held { AreHeld (plan reader.new.table.now) (reader_view reader.new) holds.now }
    ensures table { reader.new.table.now ≡ reader.old.table.now }
    ensures number { reader.new.number ≡ reader.old.number }
{
    match pick {
        Pick::Front => look_up_front(alloc, reader, op),
        Pick::Held(name) => look_up_held(alloc, reader, &holds.named(name).handle, op),
    }
}

/// Erases the version behind the one that is picked.
fn erase<R: Wait>(rt: &R, reader: &mut ListReader<'_>, holds: &LaneHolds, pick: &Pick) -> Told
    requires may { 0 < (reader_view reader.old).allowance }
    requires stands { may_stand (names_of holds.now) (ops.Erase pick.now) ≡ true }
    requires few { length holds.now ≤ MOST_HOLDS }
    requires held { AreHeld (plan reader.old.table.now) (reader_view reader.old) holds.now }
    ensures served { (sources : DeclaredSources) (line : ℕ) → ServesInLane (plan reader.old.table.now) sources reader.old.number (reader_view reader.old) holds.now line (ops.Erase pick.now) result (reader_view reader.new) holds.now }
    ensures held { AreHeld (plan reader.new.table.now) (reader_view reader.new) holds.now }
    ensures table { reader.new.table.now ≡ reader.old.table.now }
    ensures number { reader.new.number ≡ reader.old.number }
{
    match pick {
        Pick::Front => erase_front(rt, reader),
        Pick::Held(name) => erase_held(rt, reader, &holds.named(name).handle),
    }
}

/// Answers an operation at a line of the lane. After `NoMemory` the reader may have seen more, and has made no write.
pub(crate) fn serve<R: Wait>(
    rt: &R,
    alloc: Global,
    tzdb: &TzdbList,
    reader: &mut ListReader<'_>,
    holds: &mut LaneHolds,
    line: u32,
    op: &Op,
) -> Result<Told, NoMemory>
    requires of_list { reader.old.table.now ≡ tzdb.now.table }
    requires there { IfSome (source_asked op.now) (λ src. src < length tzdb.now.sources.texts) }
    requires sized { IsSized op.now }
    requires may { IsTrue (is_change op.now) → 0 < (reader_view reader.old).allowance }
    requires stands { may_stand (names_of holds.old) op.now ≡ true }
    requires few { length holds.old ≤ MOST_HOLDS }
    requires held { AreHeld (plan reader.old.table.now) (reader_view reader.old) holds.old }
    ensures served { IfOk result (λ told. ServesInLane (plan reader.old.table.now) tzdb.now.sources reader.old.number (reader_view reader.old) holds.old line op.now told (reader_view reader.new) holds.new) }
    ensures failed { OnErr result (MeetsQuietly (reader_view reader.old) (reader_view reader.new)) }
    ensures held { AreHeld (plan reader.new.table.now) (reader_view reader.new) holds.new }
    ensures table { reader.new.table.now ≡ reader.old.table.now }
    ensures number { reader.new.number ≡ reader.old.number }
{
    match op {
        Op::Look => Ok(look(reader)),
        Op::Hold(name) => Ok(begin_hold(reader, holds, line, name)),
        Op::Drop(name) => Ok(end_hold(reader, holds, name)),
        Op::Info { v, .. }
        | Op::Local { v, .. }
        | Op::Sys { v, .. }
        | Op::Scan { v, .. }
        | Op::Clock { v, .. } => Ok(look_up(alloc, reader, holds, v, op)),
        Op::Reload { src } => reload(rt, alloc, tzdb, reader, *src),
        Op::Erase { v } => Ok(erase(rt, reader, holds, v)),
        Op::List => list(rt, alloc, reader),
    }
}

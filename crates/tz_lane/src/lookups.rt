//! Lookups: something is looked up in the version at the front, or in one that the lane holds.
ghost use Rattle.std.specs.Prelude.{◌≡◌, ◌<◌, ◌≤◌, [], ℕ, length, IsPermutation, IsTrue};
ghost use Rattle.pin_table.specs.declared.reader.TheConstants.{MOST_HANDLES};
ghost use Rattle.pin_table.specs.Handles.{MadeBy};
ghost use Rattle.pin_table.specs.Kept.{KeepsHandles};
ghost use Rattle.pin_table.specs.Reader.{reader_view};
ghost use Rattle.pin_table.specs.Table.{plan};
ghost use Rattle.tz_script.specs.Size.{IsSized};
ghost use Rattle.tz_batch.specs.Run.{TellsKept};
ghost use Rattle.tz_list.specs.Reload.{release_home, release_source};
ghost use Rattle.tz_lane.specs.Counting.{TalliesRise};
ghost use Rattle.tz_lane.specs.LaneLookup.{is_lookup, IsOnHandle, AnswersOnFrontAt};
ghost use Rattle.tz_lane.specs.Meeting.{lane_round, Meets};

use crate::finding::find;
use crate::pins::{hold, let_go};
use crate::told::Told;
use std::alloc::Global;
use tz_batch::Answer;
use tz_list::{ListHandle, ListReader};
use tz_script::Op;

/// The answer to a lookup in a handle's version.
fn answer_on(alloc: Global, handle: &ListHandle, op: &Op) -> Answer
    requires lookup { IsTrue (is_lookup op.now) }
    requires sized { IsSized op.now }
    ensures { IsOnHandle op.now handle.now result }
{
    Answer::On {
        n: handle.number(),
        slot: handle.slot(),
        found: find(alloc, handle.version(), op),
    }
}

/// Looks something up in the version at the front, which is pinned meanwhile.
pub fn look_up_front(alloc: Global, reader: &mut ListReader<'_>, op: &Op) -> Told
    requires few { length (reader_view reader.old).entries < MOST_HANDLES }
    requires lookup { IsTrue (is_lookup op.now) }
    requires sized { IsSized op.now }
    ensures meets { Meets (plan reader.old.table.now).slots (reader_view reader.old) [] (reader_view reader.new) result.w }
    ensures answer { (begun : ℕ) → AnswersOnFrontAt (lane_round (plan reader.old.table.now) (release_home (plan reader.old.table.now).first) begun (reader_view reader.new)) op.now result.w result.answer }
    ensures kept { (begun : ℕ) → TellsKept (lane_round (plan reader.old.table.now) (release_home (plan reader.old.table.now).first) begun (reader_view reader.new)) result.w result.answer }
    ensures counts { TalliesRise (reader_view reader.old) (reader_view reader.new) 1 0 }
    ensures entries { IsPermutation (reader_view reader.old).entries (reader_view reader.new).entries }
    ensures handles { KeepsHandles release_home release_source reader.old reader.new }
    ensures table { reader.new.table.now ≡ reader.old.table.now }
    ensures number { reader.new.number ≡ reader.old.number }
{
    let (held, handle) = hold(reader);
    let answer = answer_on(alloc, &handle, op);
    let _ = let_go(reader, handle);
    Told { w: held.w, answer }
}

/// Looks something up in the version of a handle of the reader.
pub fn look_up_held(
    alloc: Global,
    reader: &mut ListReader<'_>,
    handle: &ListHandle,
    op: &Op,
) -> Told
    requires made { MadeBy release_home release_source (plan reader.old.table.now) (reader_view reader.old) handle.now }
    requires lookup { IsTrue (is_lookup op.now) }
    requires sized { IsSized op.now }
    ensures meets { Meets (plan reader.old.table.now).slots (reader_view reader.old) [] (reader_view reader.new) result.w }
    ensures answer { (begun : ℕ) → AnswersOnFrontAt (lane_round (plan reader.old.table.now) (release_home (plan reader.old.table.now).first) begun (reader_view reader.new)) op.now handle.now.position result.answer }
    ensures kept { (begun : ℕ) → TellsKept (lane_round (plan reader.old.table.now) (release_home (plan reader.old.table.now).first) begun (reader_view reader.new)) result.w result.answer }
    ensures counts { TalliesRise (reader_view reader.old) (reader_view reader.new) 1 0 }
    ensures entries { (reader_view reader.new).entries ≡ (reader_view reader.old).entries }
    ensures handles { KeepsHandles release_home release_source reader.old reader.new }
    ensures table { reader.new.table.now ≡ reader.old.table.now }
    ensures number { reader.new.number ≡ reader.old.number }
{
    let position = reader.look();
    Told {
        w: position.w,
        answer: answer_on(alloc, handle, op),
    }
}

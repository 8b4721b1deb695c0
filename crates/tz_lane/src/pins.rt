//! Holds: a version pinned at the front, and let go.
ghost use Rattle.std.specs.Prelude.{◌≡◌, ◌<◌, ◌≤◌, ◌+◌, [], ◌∷◌, ◌++◌, ℕ, length, Contains, IsPermutation};
ghost use Rattle.pin_table.specs.declared.reader.TheConstants.{MOST_HANDLES};
ghost use Rattle.pin_table.specs.Handles.{Handle, pin_of, MadeBy};
ghost use Rattle.pin_table.specs.Kept.{KeepsHandles};
ghost use Rattle.pin_table.specs.Reader.{reader_view};
ghost use Rattle.pin_table.specs.Table.{plan};
ghost use Rattle.tz_version.specs.declared.sources.Sources.{Sources as DeclaredSources};
ghost use Rattle.tz_version.specs.Release.{Release};
ghost use Rattle.tz_batch.specs.Answering.{AnswersHold};
ghost use Rattle.tz_batch.specs.Run.{TellsKept};
ghost use Rattle.tz_list.specs.Reload.{release_home, release_source};
ghost use Rattle.tz_lane.specs.Counting.{TalliesRise};
ghost use Rattle.tz_lane.specs.Meeting.{lane_round, Meets};
ghost use Rattle.tz_lane.specs.Pins.{AnswersDropOf, IsLeft};

use crate::told::Told;
use tz_batch::Answer;
use tz_list::{ListHandle, ListReader};

/// Pins the front.
pub fn hold(reader: &mut ListReader<'_>) -> (Told, ListHandle)
    requires few { length (reader_view reader.old).entries < MOST_HANDLES }
    ensures meets { Meets (plan reader.old.table.now).slots (reader_view reader.old) [] (reader_view reader.new) result.0.w }
    ensures answer { (sources : DeclaredSources) (begun : ℕ) → AnswersHold (lane_round (plan reader.old.table.now) sources begun (reader_view reader.new)) result.0.w result.0.answer }
    ensures kept { (sources : DeclaredSources) (begun : ℕ) → TellsKept (lane_round (plan reader.old.table.now) sources begun (reader_view reader.new)) result.0.w result.0.answer }
    ensures position { result.1.position ≡ result.0.w }
    ensures made { MadeBy release_home release_source (plan reader.old.table.now) (reader_view reader.new) result.1 }
    ensures entries { IsPermutation (reader_view reader.new).entries (pin_of result.1 ∷ (reader_view reader.old).entries) }
    ensures added { (reader_view reader.new).entries ≡ (reader_view reader.old).entries ++ pin_of result.1 ∷ [] }
    ensures loads { (reader_view reader.old).loads + 1 ≤ (reader_view reader.new).loads }
    ensures taken { (reader_view reader.new).taken ≡ (reader_view reader.old).taken }
    ensures counts { TalliesRise (reader_view reader.old) (reader_view reader.new) 1 0 }
    ensures handles { KeepsHandles release_home release_source reader.old reader.new }
    ensures table { reader.new.table.now ≡ reader.old.table.now }
    ensures number { reader.new.number ≡ reader.old.number }
{
    let Ok(handle) = reader.front() else {
        unreachable!()
    };
    let told = Told {
        w: handle.position(),
        answer: Answer::Held {
            n: handle.number(),
            slot: handle.slot(),
        },
    };
    (told, handle)
}

/// Lets a version go that the reader has pinned.
pub fn let_go(reader: &mut ListReader<'_>, handle: ListHandle) -> Told
    requires made { MadeBy release_home release_source (plan reader.old.table.now) (reader_view reader.old) handle }
    ensures meets { Meets (plan reader.old.table.now).slots (reader_view reader.old) [] (reader_view reader.new) result.w }
    ensures answer { (sources : DeclaredSources) (begun : ℕ) → AnswersDropOf (lane_round (plan reader.old.table.now) sources begun (reader_view reader.new)) handle.position result.answer }
    ensures kept { (sources : DeclaredSources) (begun : ℕ) → TellsKept (lane_round (plan reader.old.table.now) sources begun (reader_view reader.new)) result.w result.answer }
    ensures entries { IsPermutation (reader_view reader.old).entries (pin_of handle ∷ (reader_view reader.new).entries) }
    ensures left { IsLeft (reader_view reader.old).entries (pin_of handle) (reader_view reader.new).entries }
    ensures loads { (reader_view reader.new).loads ≡ (reader_view reader.old).loads + 1 }
    ensures taken { (reader_view reader.new).taken ≡ (reader_view reader.old).taken }
    ensures counts { TalliesRise (reader_view reader.old) (reader_view reader.new) 1 0 }
    ensures others { (other : Handle Release) → MadeBy release_home release_source (plan reader.old.table.now) (reader_view reader.old) other → Contains (reader_view reader.new).entries (pin_of other) → MadeBy release_home release_source (plan reader.new.table.now) (reader_view reader.new) other }
    ensures table { reader.new.table.now ≡ reader.old.table.now }
    ensures number { reader.new.number ≡ reader.old.number }
{
    let released = reader.release(handle);
    Told {
        w: released.w,
        answer: Answer::Dropped {
            n: released.number,
            slot: released.slot,
        },
    }
}

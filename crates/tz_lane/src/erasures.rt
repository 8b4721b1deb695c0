//! `erase`: the version behind another one, taken off the list.
ghost use Rattle.std.specs.Prelude.{◌≡◌, ◌<◌, ℕ, length, IsPermutation};
ghost use Rattle.pin_table.specs.declared.reader.TheConstants.{MOST_HANDLES};
ghost use Rattle.pin_table.specs.Handles.{MadeBy};
ghost use Rattle.pin_table.specs.Kept.{KeepsHandles};
ghost use Rattle.pin_table.specs.Reader.{reader_view, seen};
ghost use Rattle.pin_table.specs.Table.{plan};
ghost use Rattle.tz_version.specs.declared.sources.Sources.{Sources as DeclaredSources};
ghost use Rattle.tz_list.specs.Reload.{release_home, release_source};
ghost use Rattle.tz_lane.specs.Changing.{ErasesInLane, AnswersEraseOf, AnswersEraseFront};
ghost use Rattle.tz_lane.specs.Meeting.{lane_round};

use crate::told::Told;
use pin_table::EraseWhy;
use std::sync::Wait;
use tz_batch::Answer;
use tz_list::{ListHandle, ListReader};

/// Erases the version behind one that the lane holds. It waits for its turn.
pub fn erase_held<R: Wait>(rt: &R, reader: &mut ListReader<'_>, handle: &ListHandle) -> Told
    requires made { MadeBy release_home release_source (plan reader.old.table.now) (reader_view reader.old) handle.now }
    requires may { 0 < (reader_view reader.old).allowance }
    ensures erases { ErasesInLane (plan reader.old.table.now) reader.old.number (reader_view reader.old) result (reader_view reader.new) }
    ensures answer { (sources : DeclaredSources) (begun : ℕ) → AnswersEraseOf (lane_round (plan reader.old.table.now) sources begun (reader_view reader.new)) handle.now.position result.w result.answer }
    ensures handles { KeepsHandles release_home release_source reader.old reader.new }
    ensures entries { (reader_view reader.new).entries ≡ (reader_view reader.old).entries }
    ensures table { reader.new.table.now ≡ reader.old.table.now }
    ensures number { reader.new.number ≡ reader.old.number }
{
    let n = handle.number();
    let slot = handle.slot();
    match reader.erase_after(rt, handle) {
        Ok(erased) => Told {
            w: erased.w,
            answer: Answer::Erased {
                n,
                slot,
                gone: erased.gone,
            },
        },
        Err(EraseWhy::Nothing { w }) => Told {
            w,
            answer: Answer::Nothing { n, slot },
        },
        Err(EraseWhy::NotListed { w }) => Told {
            w,
            answer: Answer::NotListed { n, slot },
        },
        Err(EraseWhy::JournalFull { w: _ }) => unreachable!(),
        Err(EraseWhy::Busy { holder: _ }) => unreachable!(),
    }
}

/// Erases the version behind the front: pins the front, erases behind that, and lets it go. It waits for its turn, and
/// the front may be another one by then.
pub fn erase_front<R: Wait>(rt: &R, reader: &mut ListReader<'_>) -> Told
    requires few { length (reader_view reader.old).entries < MOST_HANDLES }
    requires may { 0 < (reader_view reader.old).allowance }
    ensures erases { ErasesInLane (plan reader.old.table.now) reader.old.number (reader_view reader.old) result (reader_view reader.new) }
    ensures answer { (sources : DeclaredSources) (begun : ℕ) → AnswersEraseFront (lane_round (plan reader.old.table.now) sources begun (reader_view reader.new)) (length (seen reader.old)) result.w result.answer }
    ensures handles { KeepsHandles release_home release_source reader.old reader.new }
    ensures entries { IsPermutation (reader_view reader.old).entries (reader_view reader.new).entries }
    ensures table { reader.new.table.now ≡ reader.old.table.now }
    ensures number { reader.new.number ≡ reader.old.number }
{
    let Ok(handle) = reader.front() else {
        unreachable!()
    };
    let told = erase_held(rt, reader, &handle);
    let _ = reader.release(handle);
    told
}

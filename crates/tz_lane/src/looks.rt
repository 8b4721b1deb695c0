//! Operations that only read the list as it stands: `look` and `list`.
ghost use Rattle.std.specs.Prelude.{◌≡◌, ◌+◌, ◌<◌, ◌≤◌, [], ℕ, IfOk};
ghost use Rattle.pin_table.specs.Kept.{KeepsHandles};
ghost use Rattle.pin_table.specs.Reader.{reader_view};
ghost use Rattle.pin_table.specs.Table.{plan};
ghost use Rattle.tz_version.specs.declared.sources.Sources.{Sources as DeclaredSources};
ghost use Rattle.tz_batch.specs.Answering.{AnswersLook, AnswersList};
ghost use Rattle.tz_batch.specs.Run.{TellsKept};
ghost use Rattle.tz_list.specs.Reload.{release_home, release_source};
ghost use Rattle.tz_lane.specs.Counting.{TalliesRise};
ghost use Rattle.tz_lane.specs.Meeting.{lane_round, Meets, MeetsQuietly};

use crate::told::Told;
use pin_book::Listed;
use std::alloc::Global;
use std::sync::Wait;
use tz_batch::{Answer, Listing};
use tz_list::ListReader;
use tz_types::{Items, NoMemory};

/// Looks at the front.
pub fn look(reader: &mut ListReader<'_>) -> Told
    ensures meets { Meets (plan reader.old.table.now).slots (reader_view reader.old) [] (reader_view reader.new) result.w }
    ensures answer { (sources : DeclaredSources) (begun : ℕ) → AnswersLook (lane_round (plan reader.old.table.now) sources begun (reader_view reader.new)) result.w result.answer }
    ensures kept { (sources : DeclaredSources) (begun : ℕ) → TellsKept (lane_round (plan reader.old.table.now) sources begun (reader_view reader.new)) result.w result.answer }
    ensures loads { (reader_view reader.new).loads ≡ (reader_view reader.old).loads + 1 }
    ensures taken { (reader_view reader.new).taken ≡ (reader_view reader.old).taken }
    ensures counts { TalliesRise (reader_view reader.old) (reader_view reader.new) 1 0 }
    ensures entries { (reader_view reader.new).entries ≡ (reader_view reader.old).entries }
    ensures handles { KeepsHandles release_home release_source reader.old reader.new }
    ensures table { reader.new.table.now ≡ reader.old.table.now }
    ensures number { reader.new.number ≡ reader.old.number }
{
    let position = reader.look();
    Told {
        w: position.w,
        answer: Answer::Front {
            n: position.n,
            slot: position.slot,
        },
    }
}

/// The same rows, in a list of their own.
fn copied_rows(alloc: Global, rows: &[Listed]) -> Result<Items<Listed>, NoMemory>
    ensures { IfOk result (λ copied. copied ≡ rows.now) }
{
    let mut copied = Items::new(alloc);
    for row in rows {
        copied.push(row.copied())?;
    }
    Ok(copied)
}

/// Lists the versions, once no other reader has the turn. After `NoMemory` the reader has met the list all the same.
pub fn list<R: Wait>(rt: &R, alloc: Global, reader: &mut ListReader<'_>) -> Result<Told, NoMemory>
    ensures meets { IfOk result (λ told. Meets (plan reader.old.table.now).slots (reader_view reader.old) [] (reader_view reader.new) told.w) }
    ensures answer { IfOk result (λ told. (begun : ℕ) → AnswersList (lane_round (plan reader.old.table.now) (release_home (plan reader.old.table.now).first) begun (reader_view reader.new)) told.w told.answer) }
    ensures kept { IfOk result (λ told. (sources : DeclaredSources) (begun : ℕ) → TellsKept (lane_round (plan reader.old.table.now) sources begun (reader_view reader.new)) told.w told.answer) }
    ensures quiet { MeetsQuietly (reader_view reader.old) (reader_view reader.new) }
    ensures loads { (reader_view reader.new).loads ≡ (reader_view reader.old).loads }
    ensures taken { (reader_view reader.new).taken ≡ (reader_view reader.old).taken + 1 }
    ensures counts { TalliesRise (reader_view reader.old) (reader_view reader.new) 0 1 }
    ensures entries { (reader_view reader.new).entries ≡ (reader_view reader.old).entries }
    ensures handles { KeepsHandles release_home release_source reader.old reader.new }
    ensures table { reader.new.table.now ≡ reader.old.table.now }
    ensures number { reader.new.number ≡ reader.old.number }
{
    let listing = reader.list(rt);
    let rows = copied_rows(alloc, listing.rows.as_slice())?;
    Ok(Told {
        w: listing.w,
        answer: Answer::Listed(Listing { w: listing.w, rows }),
    })
}

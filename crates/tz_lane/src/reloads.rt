//! `reload`: the version of a source, put at the front of the list.
ghost use Rattle.std.specs.Prelude.{◌≡◌, ◌<◌, length, IfOk, OnErr};
ghost use Rattle.pin_table.specs.Kept.{KeepsHandles};
ghost use Rattle.pin_table.specs.Reader.{reader_view};
ghost use Rattle.pin_table.specs.Table.{plan};
ghost use Rattle.tz_batch.specs.declared.answer.Answer.TheVariants as answers;
ghost use Rattle.tz_list.specs.Reload.{release_home, release_source};
ghost use Rattle.tz_lane.specs.Changing.{ReloadsInLane};

use crate::told::Told;
use std::alloc::Global;
use std::sync::Wait;
use tz_batch::Answer;
use tz_list::{ListReader, ReloadError, TzdbList};
use tz_types::{Fault, NoMemory};

/// Tells why a source is refused.
fn refusal(fault: Fault) -> Answer
    ensures { result ≡ answers.Refused fault.file fault.line fault.cause }
{
    Answer::Refused {
        file: fault.file,
        line: fault.line,
        cause: fault.cause,
    }
}

/// Reloads the source at a place: puts its version at the front, where the front has another name and a slot is free. It
/// waits for its turn. A source that is refused takes no turn, and is told at the position that the lane then looks at.
///
/// After `NoMemory` the reader knows what it knew.
pub fn reload<R: Wait>(
    rt: &R,
    alloc: Global,
    list: &TzdbList,
    reader: &mut ListReader<'_>,
    src: u32,
) -> Result<Told, NoMemory>
    requires of_list { reader.old.table.now ≡ list.now.table }
    requires there { src < length list.now.sources.texts }
    requires may { 0 < (reader_view reader.old).allowance }
    ensures reloads { IfOk result (λ told. ReloadsInLane (plan reader.old.table.now) list.now.sources reader.old.number (reader_view reader.old) src told (reader_view reader.new)) }
    ensures unchanged { OnErr result (reader_view reader.new ≡ reader_view reader.old) }
    ensures handles { KeepsHandles release_home release_source reader.old reader.new }
    ensures entries { (reader_view reader.new).entries ≡ (reader_view reader.old).entries }
    ensures table { reader.new.table.now ≡ reader.old.table.now }
    ensures number { reader.new.number ≡ reader.old.number }
{
    match list.reload(rt, alloc, reader, src) {
        Ok(pushed) => Ok(Told {
            w: pushed.w,
            answer: Answer::Pushed {
                n: pushed.n,
                slot: pushed.slot,
            },
        }),
        Err(ReloadError::Same { w, n }) => Ok(Told {
            w,
            answer: Answer::Same { n },
        }),
        Err(ReloadError::Full { w }) => Ok(Told {
            w,
            answer: Answer::Full,
        }),
        Err(ReloadError::Text(fault)) => Ok(Told {
            w: reader.look().w,
            answer: refusal(fault),
        }),
        Err(ReloadError::JournalFull { w: _ }) => unreachable!(),
        Err(ReloadError::NoMemory) => Err(NoMemory),
    }
}

//! A lane's operations on a list over short texts.
ghost use Rattle.std.specs.Prelude.{◌≡◌, length, IfOk};

use crate::{
    LaneHold, LaneHolds, OpenGate, Told, erase_front, hold, let_go, list, look, look_up_front,
    look_up_held, reload, run_lane,
};
use pin_book::MOST_WRITES;
use std::alloc::Global;
use std::sync::Arc;
use std::test::Fail;
use tz_batch::Answer;
use tz_list::TzdbList;
use tz_lookup::Found;
use tz_script::{HoldName, Op, Pick, read_script};
use tz_types::{Items, Label, MOST_BYTES, NoMemory, Shared, Source};
use tz_version::Sources;

const TEXT_A: &str = "# version 2024a\nZone Test/West -1 - W\n";

const TEXT_B: &str = "# version 2024b\nZone Test/East 1 - E\n";

const TEXT_BAD: &str = "Zone Test/West -1 - W\n? Test/East\n";

/// The source of one text.
fn source_of(alloc: Global, text: &str) -> Result<Source, NoMemory> {
    if text.len() > MOST_BYTES {
        return Err(NoMemory);
    }
    Source::of_text(alloc, text.as_bytes().to_vec(alloc)?)
}

/// Three sources, of which the last is refused, with a leap text without bytes.
fn three_sources(alloc: Global) -> Result<Shared<Sources>, NoMemory>
    ensures { IfOk result (λ sources. length sources.texts ≡ 3) }
{
    let mut texts = Items::new(alloc);
    texts.push(source_of(alloc, TEXT_A)?)?;
    texts.push(source_of(alloc, TEXT_B)?)?;
    texts.push(source_of(alloc, TEXT_BAD)?)?;
    match Sources::new(texts, Items::new(alloc)) {
        Some(sources) => Ok(Shared::from_arc(Arc::new(alloc, sources)?)),
        None => Err(NoMemory),
    }
}

/// How many versions an answer lists, and the number of the newest.
fn rows_told(answer: &Answer) -> Option<(usize, u32)> {
    match answer {
        Answer::Listed(listing) => match listing.rows.as_slice() {
            [newest, ..] => Some((listing.rows.len(), newest.n)),
            [] => None,
        },
        _ => None,
    }
}

#[test]
fn a_lane_meets_the_list_as_it_stands(rt: HostRuntime) -> Result<(), Fail> {
    let sources = three_sources(rt.alloc())?;
    let (tzdb, mut main) = TzdbList::open(rt.alloc(), sources, 2, 2, 8)?;
    let mut reader = main.split(tzdb.table(), 8)?;
    let (held, handle) = hold(&mut reader);
    assert_eq!(rt; held.w, 0);
    assert_eq!(rt; held.answer, Answer::Held { n: 1, slot: 0 });
    let dropped = let_go(&mut reader, handle);
    assert_eq!(rt; dropped.answer, Answer::Dropped { n: 1, slot: 0 });
    let pushed = reload(&rt, rt.alloc(), &tzdb, &mut reader, 1)?;
    assert_eq!(rt; pushed.w, 1);
    assert_eq!(rt; pushed.answer, Answer::Pushed { n: 2, slot: 1 });
    let same = reload(&rt, rt.alloc(), &tzdb, &mut reader, 1)?;
    assert_eq!(rt; same.answer, Answer::Same { n: 2 });
    let refused = reload(&rt, rt.alloc(), &tzdb, &mut reader, 2)?;
    assert_eq!(rt;
        refused.answer,
        Answer::Refused {
            file: 0,
            line: 2,
            cause: 4
        }
    );
    let erased = erase_front(&rt, &mut reader);
    assert_eq!(rt;
        erased.answer,
        Answer::Erased {
            n: 2,
            slot: 1,
            gone: 1
        }
    );
    let looked = look(&mut reader);
    assert_eq!(rt; looked.w, 2);
    assert_eq!(rt; looked.answer, Answer::Front { n: 2, slot: 1 });
    let listed = list(&rt, rt.alloc(), &mut reader)?;
    assert_eq!(rt; rows_told(&listed.answer), Some((1, 2)));
    Ok(())
}

#[test]
fn a_lane_looks_up_what_it_holds(rt: HostRuntime) -> Result<(), Fail> {
    let sources = three_sources(rt.alloc())?;
    let (tzdb, mut main) = TzdbList::open(rt.alloc(), sources, 2, 2, 4)?;
    let mut reader = main.split(tzdb.table(), 2)?;
    let name = HoldName::new(b"before").ok_or("no name")?;
    let op = Op::Sys {
        v: Pick::Front,
        zone: Label::new(b"Test/West")?,
        l: 0,
        choose: None,
    };
    let (_, handle) = hold(&mut reader);
    let held = look_up_held(rt.alloc(), &mut reader, &handle, &op);
    let mut holds = LaneHolds::new();
    holds.put(LaneHold {
        name: name.copied(),
        line: 3,
        handle,
    });
    let begun = holds.named(&name).line;
    let LaneHold {
        name: _,
        line,
        handle,
    } = holds.take(&name);
    holds.end();
    let _ = let_go(&mut reader, handle);
    let front = look_up_front(rt.alloc(), &mut reader, &op);
    assert_eq!(rt; (begun, line), (3, 3));
    let found = Found::Sys(3_600);
    assert_eq!(rt;
        held.answer,
        Answer::On {
            n: 1,
            slot: 0,
            found
        }
    );
    assert_eq!(rt; front, held);
    Ok(())
}

/// The script of one lane that holds, reloads beside its hold, and looks into both versions.
const SCRIPT: &[u8] =
    b"lanes 1\nround\n1 hold a\n1 reload 1\n1 sys a Test/West 0 strict\n1 look\n1 drop a\n1 erase front\nround\n1 reload 0\n";

#[test]
fn a_lane_runs_its_round_alone(rt: HostRuntime) -> Result<(), Fail> {
    let sources = three_sources(rt.alloc())?;
    let (tzdb, mut main) = TzdbList::open(rt.alloc(), sources, 3, 2, MOST_WRITES)?;
    let mut reader = main.split(tzdb.table(), MOST_WRITES)?;
    let script = read_script(rt.alloc(), SCRIPT, 3)?;
    let replies = run_lane(
        &rt,
        rt.alloc(),
        &tzdb,
        &mut reader,
        &script,
        1,
        1,
        &OpenGate,
    )?;
    let positions: Vec<u32> = replies
        .as_slice()
        .iter()
        .map(|reply| reply.w)
        .collect(rt.alloc())?;
    assert_eq!(rt; positions.as_slice(), [0, 1, 1, 1, 1, 2].as_slice());
    main.join(reader);
    Ok(())
}

//! A list over short texts, as calls.
ghost use Rattle.std.specs.Prelude.{◌≡◌, length, IfOk};

use crate::{ReloadError, TzdbList};
use pin_table::Pushed;
use std::alloc::Global;
use std::sync::Arc;
use std::test::Fail;
use tz_types::{Fault, Items, MOST_BYTES, NoMemory, Shared, Source};
use tz_version::{MakeError, Sources};

const TEXT_A: &str = "# version 2024a\nZone Test/West -1 - W\n";

const TEXT_B: &str = "# version 2024b\nZone Test/East 1 - E\n";

/// The last line has no keyword.
const TEXT_BAD: &str = "Zone Test/West -1 - W\n? Test/East\n";

/// The source of one text.
fn source_of(alloc: Global, text: &str) -> Result<Source, NoMemory> {
    if text.len() > MOST_BYTES {
        return Err(NoMemory);
    }
    Source::of_text(alloc, text.as_bytes().to_vec(alloc)?)
}

/// Three sources, with a leap text without bytes.
fn three_sources(
    alloc: Global,
    first: &str,
    second: &str,
    third: &str,
) -> Result<Shared<Sources>, NoMemory>
    ensures { IfOk result (λ sources. length sources.texts ≡ 3) }
{
    let mut texts = Items::new(alloc);
    texts.push(source_of(alloc, first)?)?;
    texts.push(source_of(alloc, second)?)?;
    texts.push(source_of(alloc, third)?)?;
    match Sources::new(texts, Items::new(alloc)) {
        Some(sources) => Ok(Shared::from_arc(Arc::new(alloc, sources)?)),
        None => Err(NoMemory),
    }
}

#[test]
fn a_reload_pushes_the_version_of_its_source(rt: HostRuntime) -> Result<(), Fail> {
    let sources = three_sources(rt.alloc(), TEXT_A, TEXT_B, TEXT_BAD)?;
    let (list, mut main) = TzdbList::open(rt.alloc(), sources, 2, 2, 4)?;
    let mut reader = main.split(list.table(), 2)?;
    let pushed = Pushed {
        w: 1,
        n: 2,
        slot: 1,
    };
    assert_eq!(rt; list.reload(&rt, rt.alloc(), &mut reader, 1), Ok(pushed));
    let Ok(handle) = reader.front() else {
        return Err(Fail::from(NoMemory));
    };
    assert_eq!(rt; handle.version().name().as_bytes(), "2024b".as_bytes());
    reader.release(handle);
    main.join(reader);
    assert_eq!(rt; list.close(main).w(), 1);
    Ok(())
}

#[test]
fn each_refusal_has_its_reason(rt: HostRuntime) -> Result<(), Fail> {
    let sources = three_sources(rt.alloc(), TEXT_A, TEXT_B, TEXT_BAD)?;
    let (list, mut main) = TzdbList::open(rt.alloc(), sources, 2, 2, 4)?;
    let mut writer = main.split(list.table(), 2)?;
    let mut reader = main.split(list.table(), 0)?;
    let fault = Fault {
        file: 0,
        line: 2,
        cause: 4,
    };
    let refused = Err(ReloadError::Text(fault));
    assert_eq!(rt; list.reload(&rt, rt.alloc(), &mut writer, 2), refused);
    let same = Err(ReloadError::Same { w: 0, n: 1 });
    assert_eq!(rt; list.reload(&rt, rt.alloc(), &mut writer, 0), same);
    let no_write = Err(ReloadError::JournalFull { w: 0 });
    assert_eq!(rt; list.reload(&rt, rt.alloc(), &mut reader, 1), no_write);
    assert!(rt; list.reload(&rt, rt.alloc(), &mut writer, 1).is_ok());
    let full = Err(ReloadError::Full { w: 1 });
    assert_eq!(rt; list.reload(&rt, rt.alloc(), &mut writer, 0), full);
    Ok(())
}

#[test]
fn a_refused_first_source_opens_no_list(rt: HostRuntime) -> Result<(), Fail> {
    let sources = three_sources(rt.alloc(), TEXT_BAD, TEXT_A, TEXT_B)?;
    let fault = Fault {
        file: 0,
        line: 2,
        cause: 4,
    };
    match TzdbList::open(rt.alloc(), sources, 2, 2, 4) {
        Ok(_) => assert!(rt; false),
        Err(error) => assert_eq!(rt; error, MakeError::Text(fault)),
    }
    Ok(())
}

//! Values of a book's calls.
ghost use Rattle.std.specs.Prelude.{◌≡◌, ◌≤◌};

use crate::{
    AfterError, Book, Change, FEWEST_SLOTS, Listed, MOST_SLOTS, MOST_WRITES, READER_NUMBERS, Write,
};
use std::test::Fail;
use tz_types::VersionText;

fn name(text: &str) -> Result<VersionText, Fail> {
    Ok(VersionText::new(text.as_bytes())?)
}

fn row(n: u32, src: u32, slot: u32, text: &str) -> Result<Listed, Fail> {
    Ok(Listed {
        n,
        src,
        slot,
        name: name(text)?,
    })
}

/// A push, where the book may make it.
fn try_push(book: &mut Book, by: u32, src: u32, slot: u32) -> Result<Option<u32>, Fail> {
    let may = slot < book.slots() && book.w() < book.room() && !book.is_slot_listed(slot);
    let text = name("next")?;
    if may {
        Ok(Some(book.push(by, src, text, slot)))
    } else {
        Ok(None)
    }
}

/// An erase, where the book may make it.
fn try_erase(book: &mut Book, by: u32, after: u32) -> Option<u32> {
    if book.w() < book.room() && book.after(after).is_ok() {
        Some(book.erase(by, after))
    } else {
        None
    }
}

#[test]
fn pushes_and_erases(rt: HostRuntime) -> Result<(), Fail> {
    let mut book = Book::new(rt.alloc(), 2, 3, name("2024a")?)?;
    assert_eq!(rt; book.push(0, 1, name("2024b")?, 1), 2);
    assert_eq!(rt; book.after(1), Err(AfterError::Nothing));
    assert_eq!(rt; book.after(7), Err(AfterError::NotListed));
    assert_eq!(rt; book.after(2), Ok(row(1, 0, 0, "2024a")?));
    assert_eq!(rt; book.erase(0, 2), 1);
    assert_eq!(rt; book.kept(0), 1);
    assert_eq!(rt; book.after(1), Err(AfterError::NotListed));
    assert_eq!(rt; book.w(), 2);
    assert_eq!(rt; book.front(), row(2, 1, 1, "2024b")?);
    assert_eq!(rt; book.listed(), [row(2, 1, 1, "2024b")?].as_slice());
    let push = Change::Push {
        n: 2,
        src: 1,
        slot: 1,
    };
    let erase = Change::Erase { after: 2, gone: 1 };
    let writes = [
        Write {
            by: 0,
            seq: 1,
            change: push,
        },
        Write {
            by: 0,
            seq: 2,
            change: erase,
        },
    ];
    assert_eq!(rt; book.entries(), writes.as_slice());
    assert_eq!(rt; book.names(), [name("2024a")?, name("2024b")?].as_slice());
    Ok(())
}

#[test]
fn opens_with_one_version(rt: HostRuntime) -> Result<(), Fail> {
    for slots in [FEWEST_SLOTS, MOST_SLOTS] {
        let book = Book::new(rt.alloc(), slots, 1, name("2024a")?)?;
        assert_eq!(rt; (book.w(), book.room(), book.slots()), (0, 1, slots));
        assert_eq!(rt; book.listed(), [row(1, 0, 0, "2024a")?].as_slice());
        assert_eq!(rt; book.kept(0), 1);
        for slot in 1..slots {
            assert_eq!(rt; book.kept(slot), 0);
            assert_eq!(rt; book.is_slot_listed(slot), false);
        }
        for number in [0, 2, 3, 64, 4_097, u32::MAX] {
            assert_eq!(rt; book.after(number), Err(AfterError::NotListed));
        }
    }
    Ok(())
}

#[test]
fn takes_no_write_beyond_its_room(rt: HostRuntime) -> Result<(), Fail> {
    let mut book = Book::new(rt.alloc(), 2, 1, name("2024a")?)?;
    assert_eq!(rt; try_push(&mut book, 3, 7, 1)?, Some(2));
    assert_eq!(rt; try_push(&mut book, 3, 7, 0)?, None);
    assert_eq!(rt; try_erase(&mut book, 3, 2), None);
    assert_eq!(rt; book.w(), 1);
    Ok(())
}

#[test]
fn fills_every_slot(rt: HostRuntime) -> Result<(), Fail> {
    let mut book = Book::new(rt.alloc(), MOST_SLOTS, MOST_WRITES, name("2024a")?)?;
    for slot in 1..MOST_SLOTS {
        assert_eq!(rt; try_push(&mut book, slot, 0, slot)?, Some(slot + 1));
    }
    assert_eq!(rt; book.listed().len(), MOST_SLOTS as usize);
    for slot in 0..MOST_SLOTS {
        assert_eq!(rt; try_push(&mut book, 0, 0, slot)?, None);
    }
    assert_eq!(rt; try_erase(&mut book, 0, 64), Some(63));
    assert_eq!(rt; try_erase(&mut book, 0, 64), Some(62));
    assert_eq!(rt; try_erase(&mut book, 0, 2), Some(1));
    assert_eq!(rt; try_erase(&mut book, 0, 2), None);
    assert_eq!(rt; try_push(&mut book, 0, 0, 62)?, Some(65));
    Ok(())
}

#[test]
fn keeps_writing_to_the_end_of_its_room(rt: HostRuntime) -> Result<(), Fail> {
    let mut book = Book::new(rt.alloc(), 2, MOST_WRITES, name("2024a")?)?;
    for pair in 0..MOST_WRITES / 2 {
        let by = pair % 20;
        assert_eq!(rt;
            try_push(&mut book, by, pair, (pair + 1) % 2)?,
            Some(pair + 2)
        );
        assert_eq!(rt; try_erase(&mut book, by, pair + 2), Some(pair + 1));
    }
    assert_eq!(rt; book.w(), MOST_WRITES);
    assert_eq!(rt; book.names().len(), MOST_WRITES as usize / 2 + 1);
    assert_eq!(rt; (book.kept(0), book.kept(1)), (2_049, 2_048));
    let mut counts = [0u32; 20];
    for write in book.entries() {
        let by = write.by as usize;
        if by < counts.len() {
            counts[by] = counts[by].wrapping_add(1);
            assert_eq!(rt; write.seq, counts[by]);
        }
    }
    assert_eq!(rt; (counts[0], counts[READER_NUMBERS]), (206, 204));
    Ok(())
}

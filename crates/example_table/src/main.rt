//! How threads share a table of versions: two readers look at the newest version, while a writer pushes newer ones and
//! erases those behind them.
//!
//! No thread waits for another. What is printed is the same for every schedule of the threads.
#![tactic(auto)]

ghost use Rattle.std.specs.Prelude.{◌≡◌, []};
ghost use Rattle.pin_table.specs.Reader.{reader_view};

use pin_book::Payload;
use pin_table::{PinTable, Reader, a_handle_stays};
use std::alloc::Global;
use std::io;
use std::sync::Arc;
use std::thread::{Threads, join_mut};
use tz_types::{NoMemory, VersionText};

/// How often each reader looks.
const LOOKS: u32 = 1_000;

/// How many versions the writer pushes.
const PUSHES: u32 = 50;

/// What the table keeps: the record of a source.
#[derive(Drop)]
struct Record {
    src: u32,
}

// What all versions of a table have in common is their home, and the place of each there is its source. The table asks for
// a name too: a push of a version with the front's name is refused.
impl Payload for Record {
    ghost use Rattle.std.specs.Prelude.{◌+◌, ◌%◌, [], ◌∷◌};

    type Home = ();

    ghost home = { λ _. tt };

    ghost source = { λ one. one.src };

    ghost name_of = { λ _ src. (src % 26 + 97) ∷ [] };

    fn src(&self) -> u32 {
        self.src
    }

    fn name(&self) -> VersionText {
        let letter = [(self.src % 26) as u8 + 97];
        match VersionText::new(&letter) {
            Ok(name) => name,
            Err(_) => unreachable!(),
        }
    }
}

/// Pins the newest version, looks at it, and releases it. While a handle is out its slot keeps the version, whatever other
/// threads do. Returns whether that was the version of the handle's number: here they are numbered from 1, and sources
/// from 0.
fn look(reader: &mut Reader<Record>) -> bool
    requires none { (reader_view reader.old).entries ≡ [] }
    ensures none { (reader_view reader.new).entries ≡ [] }
    ensures table { reader.new.table.now ≡ reader.old.table.now }
{
    match reader.front() {
        Ok(handle) => {
            let right = u64::from(handle.version().src) + 1 == u64::from(handle.number());
            // A handle can't be dropped: its reader alone can spend it.
            reader.release(handle);
            right
        }
        // A reader has eight handles at most.
        Err(_) => false,
    }
}

/// Looks as often as readers do. Returns how often it found the version of the handle's number.
fn look_often(reader: &mut Reader<Record>) -> u32
    requires none { (reader_view reader.old).entries ≡ [] }
    ensures none { (reader_view reader.new).entries ≡ [] }
    ensures table { reader.new.table.now ≡ reader.old.table.now }
{
    let mut right: u32 = 0;
    for _ in 0..LOOKS {
        if look(reader) {
            right = right.saturating_add(1);
        }
    }
    right
}

/// Pushes the record of this source. Returns whether it was pushed.
fn push(
    table: &PinTable<Record>,
    alloc: Global,
    src: u32,
    writer: &mut Reader<Record>,
) -> Result<bool, NoMemory>
    requires at { writer.old.table.now ≡ table.now }
    requires none { (reader_view writer.old).entries ≡ [] }
    ensures none { (reader_view writer.new).entries ≡ [] }
    ensures table { writer.new.table.now ≡ writer.old.table.now }
{
    // All memory that a push needs is taken here, before the turn is.
    let copies = table.copies(alloc, Arc::new(alloc, Record { src })?)?;
    match writer.try_push(copies) {
        Ok(_) => Ok(true),
        // Another reader has the turn, or the front has this name, or there is no write left, or no slot.
        Err(_) => Ok(false),
    }
}

/// Erases the version behind the newest one. Its slot is free for a push as soon as no reader has pinned it. Returns
/// whether there was one.
fn erase(writer: &mut Reader<Record>) -> bool
    requires none { (reader_view writer.old).entries ≡ [] }
    ensures none { (reader_view writer.new).entries ≡ [] }
    ensures table { writer.new.table.now ≡ writer.old.table.now }
{
    match writer.front() {
        Ok(handle) => {
            a_handle_stays::<Record>();
            let erased = writer.try_erase_after(&handle);
            writer.release(handle);
            erased.is_ok()
        }
        Err(_) => false,
    }
}

/// Pushes the records of one source after the other, and erases what stands behind each. Returns how many of these writes
/// were made.
fn write(table: &PinTable<Record>, alloc: Global, writer: &mut Reader<Record>) -> u32
    requires at { writer.old.table.now ≡ table.now }
    requires none { (reader_view writer.old).entries ≡ [] }
    ensures none { (reader_view writer.new).entries ≡ [] }
    ensures table { writer.new.table.now ≡ writer.old.table.now }
{
    let mut made: u32 = 0;
    for before in 0..PUSHES {
        if let Ok(true) = push(table, alloc, before + 1, writer) {
            made = made.saturating_add(1);
        }
        if erase(writer) {
            made = made.saturating_add(1);
        }
    }
    made
}

/// Two readers look, each on a thread of its own.
fn look_on_threads<R: Threads + Sync>(
    rt: &R,
    one: &mut Reader<Record>,
    other: &mut Reader<Record>,
) -> (u32, u32)
    requires one { (reader_view one.old).entries ≡ [] }
    requires other { (reader_view other.old).entries ≡ [] }
    ensures one { (reader_view one.new).entries ≡ [] }
    ensures other { (reader_view other.new).entries ≡ [] }
    ensures one_at { one.new.table.now ≡ one.old.table.now }
    ensures other_at { other.new.table.now ≡ other.old.table.now }
{
    join_mut(rt, &mut || look_often(one), &mut || look_often(other))
}

/// Two readers look while a writer writes.
fn share<R: Threads + Sync>(
    rt: &R,
    table: &PinTable<Record>,
    alloc: Global,
    one: &mut Reader<Record>,
    other: &mut Reader<Record>,
    writer: &mut Reader<Record>,
) -> ((u32, u32), u32)
    requires at { writer.old.table.now ≡ table.now }
    requires one { (reader_view one.old).entries ≡ [] }
    requires other { (reader_view other.old).entries ≡ [] }
    requires writer { (reader_view writer.old).entries ≡ [] }
    ensures one { (reader_view one.new).entries ≡ [] }
    ensures other { (reader_view other.new).entries ≡ [] }
    ensures writer { (reader_view writer.new).entries ≡ [] }
    ensures one_at { one.new.table.now ≡ one.old.table.now }
    ensures other_at { other.new.table.now ≡ other.old.table.now }
    ensures writer_at { writer.new.table.now ≡ writer.old.table.now }
{
    join_mut(
        rt,
        &mut || -> (u32, u32)
            requires { ((reader_view one.now).entries ≡ []) × ((reader_view other.now).entries ≡ []) }
        { look_on_threads(rt, one, other) },
        &mut || write(table, alloc, writer),
    )
}

fn refused() -> io::Error {
    io::Error::from(io::ErrorKind::OutOfMemory)
}

fn main(rt: HostRuntime) -> io::Result<()> {
    let alloc = rt.alloc();
    // A table of four slots for three readers, with room for 100 writes. Two slots are listed at most and each reader pins
    // one more, so that a push always finds a slot.
    let first = Arc::new(alloc, Record { src: 0 })?;
    let (table, mut main) = PinTable::new(alloc, first, 4, 3, 100).map_err(|_| refused())?;
    // The main sends a reader out for each thread, with the writes that it may make.
    let mut one = main.split(&table, 0).map_err(|_| refused())?;
    let mut other = main.split(&table, 0).map_err(|_| refused())?;
    let mut writer = main.split(&table, 100).map_err(|_| refused())?;
    let ((one_saw, other_saw), made) = share(&rt, &table, alloc, &mut one, &mut other, &mut writer);
    // It takes them in again. That none of them has a handle left is proved, or this wouldn't be built.
    main.join(one);
    main.join(other);
    main.join(writer);
    // The book of a closed table tells each write.
    let book = table.close(main);
    println!(rt;
        "one reader looked {LOOKS} times, and saw the version of its handle {one_saw} times"
    )?;
    println!(rt;
        "the other looked {LOOKS} times, and saw the version of its handle {other_saw} times"
    )?;
    println!(rt;
        "the writer made {made} writes of {}, and version {} is the newest",
        book.w(),
        book.front().n
    )
}

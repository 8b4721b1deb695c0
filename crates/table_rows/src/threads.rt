//! Readers and a writer on threads of their own.
ghost use Rattle.std.specs.Prelude.{◌≡◌, []};
ghost use Rattle.pin_table.specs.Reader.{reader_view};

use crate::gated::{Gate, Gated, behind};
use pin_book::Payload;
use pin_table::{PinTable, Reader, a_handle_stays};
use std::alloc::Global;
use std::sync::Arc;
use std::test::Fail;
use std::thread::{Threads, join_mut};
use tz_types::NoMemory;

/// How often each reader pins.
const ROUNDS: u32 = 100_000;

/// How many writes the writer makes: half of them push.
const WRITES: u32 = 4_000;

/// Pins the front, reads it, and releases it. Returns whether the version is that of the handle's number, by a table whose
/// versions are pushed in the order of their sources.
fn read(reader: &mut Reader<Gated>) -> bool
    requires none { (reader_view reader.old).entries ≡ [] }
    ensures none { (reader_view reader.new).entries ≡ [] }
    ensures table { reader.new.table.now ≡ reader.old.table.now }
{
    match reader.front() {
        Ok(handle) => {
            let right = u64::from(handle.version().src()) + 1 == u64::from(handle.number());
            let number = handle.number();
            let released = reader.release(handle);
            right && released.number == number
        }
        Err(_) => false,
    }
}

/// Reads so often. Returns how often that went right.
fn read_often(reader: &mut Reader<Gated>, rounds: u32) -> u32
    requires none { (reader_view reader.old).entries ≡ [] }
    ensures none { (reader_view reader.new).entries ≡ [] }
    ensures table { reader.new.table.now ≡ reader.old.table.now }
{
    let mut right: u32 = 0;
    for _ in 0..rounds {
        if read(reader) {
            right = right.saturating_add(1);
        }
    }
    right
}

/// Pushes the record of this source. Returns whether it was pushed.
fn push(
    table: &PinTable<Gated>,
    alloc: Global,
    gate: &Arc<Gate>,
    src: u32,
    writer: &mut Reader<Gated>,
) -> Result<bool, NoMemory>
    requires at { writer.old.table.now ≡ table.now }
    requires none { (reader_view writer.old).entries ≡ [] }
    ensures none { (reader_view writer.new).entries ≡ [] }
    ensures table { writer.new.table.now ≡ writer.old.table.now }
{
    let copies = table.copies(alloc, behind(alloc, gate, src)?)?;
    match writer.try_push(copies) {
        Ok(_) => Ok(true),
        Err(_) => Ok(false),
    }
}

/// Erases the version behind the front. Returns whether there was one.
fn erase(writer: &mut Reader<Gated>) -> bool
    requires none { (reader_view writer.old).entries ≡ [] }
    ensures none { (reader_view writer.new).entries ≡ [] }
    ensures table { writer.new.table.now ≡ writer.old.table.now }
{
    match writer.front() {
        Ok(handle) => {
            a_handle_stays::<Gated>();
            let erased = writer.try_erase_after(&handle);
            writer.release(handle);
            erased.is_ok()
        }
        Err(_) => false,
    }
}

/// Pushes and erases as fast as it can. Returns how many writes were made.
fn write(
    table: &PinTable<Gated>,
    alloc: Global,
    gate: &Arc<Gate>,
    writer: &mut Reader<Gated>,
) -> u32
    requires at { writer.old.table.now ≡ table.now }
    requires none { (reader_view writer.old).entries ≡ [] }
    ensures none { (reader_view writer.new).entries ≡ [] }
    ensures table { writer.new.table.now ≡ writer.old.table.now }
{
    let mut made: u32 = 0;
    for before in 0..WRITES / 2 {
        if let Ok(true) = push(table, alloc, gate, before + 1, writer) {
            made = made.saturating_add(1);
        }
        if erase(writer) {
            made = made.saturating_add(1);
        }
    }
    made
}

/// Two readers read on two threads. Returns how often that went right.
fn read_on_threads<R: Threads + Sync>(
    rt: &R,
    one: &mut Reader<Gated>,
    other: &mut Reader<Gated>,
) -> (u32, u32)
    requires one { (reader_view one.old).entries ≡ [] }
    requires other { (reader_view other.old).entries ≡ [] }
    ensures one { (reader_view one.new).entries ≡ [] }
    ensures other { (reader_view other.new).entries ≡ [] }
    ensures one_at { one.new.table.now ≡ one.old.table.now }
    ensures other_at { other.new.table.now ≡ other.old.table.now }
{
    join_mut(
        rt,
        &mut || read_often(one, ROUNDS),
        &mut || read_often(other, ROUNDS),
    )
}

/// The same while a writer writes.
fn read_while_written<R: Threads + Sync>(
    rt: &R,
    table: &PinTable<Gated>,
    alloc: Global,
    gate: &Arc<Gate>,
    one: &mut Reader<Gated>,
    other: &mut Reader<Gated>,
    writer: &mut Reader<Gated>,
) -> ((u32, u32), u32)
    requires at { writer.old.table.now ≡ table.now }
    requires one { (reader_view one.old).entries ≡ [] }
    requires other { (reader_view other.old).entries ≡ [] }
    requires writer { (reader_view writer.old).entries ≡ [] }
    ensures one { (reader_view one.new).entries ≡ [] }
    ensures other { (reader_view other.new).entries ≡ [] }
    ensures writer { (reader_view writer.new).entries ≡ [] }
    ensures one_at { one.new.table.now ≡ one.old.table.now }
    ensures other_at { other.new.table.now ≡ other.old.table.now }
    ensures writer_at { writer.new.table.now ≡ writer.old.table.now }
{
    join_mut(
        rt,
        &mut || -> (u32, u32)
            requires { ((reader_view one.now).entries ≡ []) × ((reader_view other.now).entries ≡ []) }
        { read_on_threads(rt, one, other) },
        &mut || write(table, alloc, gate, writer),
    )
}

/// What a reader that goes on and one that tries the turn see while a writer has the turn: how often a read went right,
/// and who has the turn.
fn go_on(gate: &Arc<Gate>, one: &mut Reader<Gated>, other: &mut Reader<Gated>) -> (u32, Option<u32>)
    requires one { (reader_view one.old).entries ≡ [] }
    requires other { (reader_view other.old).entries ≡ [] }
    ensures one { (reader_view one.new).entries ≡ [] }
    ensures other { (reader_view other.new).entries ≡ [] }
    ensures one_at { one.new.table.now ≡ one.old.table.now }
    ensures other_at { other.new.table.now ≡ other.old.table.now }
{
    gate.until_reached();
    let right = read_often(one, ROUNDS);
    let holder = match other.try_list() {
        Ok(_) => None,
        Err(busy) => Some(busy.holder),
    };
    gate.open();
    (right, holder)
}

/// The two go on while a writer is held in its turn.
fn go_on_while_held<R: Threads + Sync>(
    rt: &R,
    table: &PinTable<Gated>,
    alloc: Global,
    gate: &Arc<Gate>,
    one: &mut Reader<Gated>,
    other: &mut Reader<Gated>,
    writer: &mut Reader<Gated>,
) -> ((u32, Option<u32>), Result<bool, NoMemory>)
    requires at { writer.old.table.now ≡ table.now }
    requires one { (reader_view one.old).entries ≡ [] }
    requires other { (reader_view other.old).entries ≡ [] }
    requires writer { (reader_view writer.old).entries ≡ [] }
    ensures one { (reader_view one.new).entries ≡ [] }
    ensures other { (reader_view other.new).entries ≡ [] }
    ensures writer { (reader_view writer.new).entries ≡ [] }
    ensures one_at { one.new.table.now ≡ one.old.table.now }
    ensures other_at { other.new.table.now ≡ other.old.table.now }
    ensures writer_at { writer.new.table.now ≡ writer.old.table.now }
{
    join_mut(
        rt,
        &mut || go_on(gate, one, other),
        &mut || push(table, alloc, gate, 1, writer),
    )
}

#[test]
fn each_read_is_of_its_handle(rt: HostRuntime) -> Result<(), Fail> {
    let gate = Arc::new(rt.alloc(), Gate::new())?;
    let first = behind(rt.alloc(), &gate, 0)?;
    let (table, mut main) = PinTable::new(rt.alloc(), first, 4, 3, WRITES)?;
    let mut one = main.split(&table, 0)?;
    let mut other = main.split(&table, 0)?;
    let mut writer = main.split(&table, WRITES)?;
    let answers = read_while_written(
        &rt,
        &table,
        rt.alloc(),
        &gate,
        &mut one,
        &mut other,
        &mut writer,
    );
    assert_eq!(rt; answers, ((ROUNDS, ROUNDS), WRITES));
    main.join(one);
    main.join(other);
    main.join(writer);
    assert_eq!(rt; table.close(main).w(), WRITES);
    Ok(())
}

#[test]
fn no_reader_waits_for_the_turn(rt: HostRuntime) -> Result<(), Fail> {
    let gate = Arc::new(rt.alloc(), Gate::new())?;
    let first = behind(rt.alloc(), &gate, 0)?;
    let (table, mut main) = PinTable::new(rt.alloc(), first, 4, 3, 1)?;
    let mut one = main.split(&table, 0)?;
    let mut other = main.split(&table, 0)?;
    let mut writer = main.split(&table, 1)?;
    gate.shut();
    let (seen, pushed) = go_on_while_held(
        &rt,
        &table,
        rt.alloc(),
        &gate,
        &mut one,
        &mut other,
        &mut writer,
    );
    assert_eq!(rt; seen, (ROUNDS, Some(writer.number())));
    assert!(rt; pushed.is_ok_and(|done| done));
    main.join(one);
    main.join(other);
    main.join(writer);
    assert_eq!(rt; table.close(main).w(), 1);
    Ok(())
}

//! The text of `dump`: for each zone its name, and its ranges that meet a stretch of time. It is written while it is made, so
//! that at any time only ranges of a group of zones are kept, and text of one piece.
ghost use Rattle.std.specs.Prelude.{◌≡◌, ◌≤◌, ◌<◌, ◌+◌, ◌++◌, ℕ, ℤ, List, length, take, drop, codes, slice_get, Some, IsTrue, IfOk, IfErr, OnOk};
ghost use Rattle.std.specs.List.{flat_map, AllZip};
ghost use Rattle.tz_types.specs.declared.zone.Zone.{Zone};
ghost use Rattle.tz_specs.specs.Sound.{is_sound};
ghost use Rattle.tz_io.specs.Sink.{with_bytes};
ghost use Rattle.tz_expand.specs.Stretch.{IsStretch, ranges_between};
ghost use Rattle.tz_cli.specs.Line.{range_line};
ghost use Rattle.tz_cli.specs.Dump.{zone_lines, zone_text, dump_text};
ghost use Rattle.tz_cli.specs.Dumping.{compiled_texts, IsPut, IsStopped};
ghost use Rattle.tz_cli.specs.declared.dump.Stop.TheVariants as stops;

use crate::pieces::{room_for_a_piece, write_enough, write_text};
use std::alloc::Global;
use std::sync::Arc;
use std::thread::Threads;
use tz_expand::{CompiledZone, compile, dump_zones};
use tz_io::{PutError, Sink};
use tz_lookup::put_range;
use tz_types::{Db, NoMemory, Shared, SysInfo};

/// How many zones are expanded at once. Their ranges are let go before those of the next ones are made.
const GROUP: usize = 16;

/// Why a dump ended early.
#[derive(Clone, Copy, Debug, PartialEq, Eq)]
pub enum Stop {
    Memory,
    Write,
}

impl From<NoMemory> for Stop {
    ghost from_gives = { λ _ stop. stop ≡ stops.Memory };

    fn from(_: NoMemory) -> Self {
        Stop::Memory
    }
}

impl From<PutError> for Stop {
    ghost from_gives = { λ _ stop. stop ≡ stops.Write };

    fn from(_: PutError) -> Self {
        Stop::Write
    }
}

/// Puts the line of a range behind the text that waits.
fn put_range_line<S: Sink>(waiting: &mut Vec<u8>, range: &SysInfo, sink: &mut S) -> Result<(), Stop>
    ensures ok { OnOk result
        (IsPut (S.state sink.old) (S.state sink.new) waiting.old.items waiting.new.items (range_line range.now)) }
    ensures stopped { IfErr result (λ stop. (later : List ℕ) →
        IsStopped stop (S.state sink.old) (S.state sink.new) (waiting.old.items ++ (range_line range.now ++ later))) }
{
    put_line(waiting, range)?;
    write_enough(waiting, sink)
}

/// Puts the line of a range at the end of a text.
fn put_line(out: &mut Vec<u8>, range: &SysInfo) -> Result<(), NoMemory>
    ensures { OnOk result (out.new.items ≡ out.old.items ++ range_line range.now) }
{
    put_range(out, range)?;
    out.extend_from_slice(b"\n")?;
    Ok(())
}

/// Puts a line for each range behind the text that waits.
fn put_ranges<S: Sink>(waiting: &mut Vec<u8>, ranges: &[SysInfo], sink: &mut S) -> Result<(), Stop>
    ensures ok { OnOk result
        (IsPut (S.state sink.old) (S.state sink.new) waiting.old.items waiting.new.items (flat_map range_line ranges.now)) }
    ensures stopped { IfErr result (λ stop. (later : List ℕ) →
        IsStopped stop (S.state sink.old) (S.state sink.new) (waiting.old.items ++ (flat_map range_line ranges.now ++ later))) }
{
    for range in ranges {
        put_range_line(waiting, range, sink)?;
    }
    Ok(())
}

/// Puts the line of a zone's name at the end of a text.
fn put_name(out: &mut Vec<u8>, zone: &CompiledZone) -> Result<(), NoMemory>
    ensures { OnOk result (out.new.items ≡ out.old.items ++ (codes "zone " ++ zone.now.name ++ codes "\n")) }
{
    out.extend_from_slice(b"zone ")?;
    out.extend_from_slice(zone.name.as_bytes())?;
    out.extend_from_slice(b"\n")?;
    Ok(())
}

/// Puts a zone's name and its ranges behind the text that waits.
fn put_zone<S: Sink>(
    waiting: &mut Vec<u8>,
    zone: &CompiledZone,
    ranges: &[SysInfo],
    sink: &mut S,
) -> Result<(), Stop>
    ensures ok { OnOk result
        (IsPut (S.state sink.old) (S.state sink.new) waiting.old.items waiting.new.items (zone_lines zone.now.name ranges.now)) }
    ensures stopped { IfErr result (λ stop. (later : List ℕ) →
        IsStopped stop (S.state sink.old) (S.state sink.new) (waiting.old.items ++ (zone_lines zone.now.name ranges.now ++ later))) }
{
    put_name(waiting, zone)?;
    put_ranges(waiting, ranges, sink)
}

/// Puts zones whose ranges are given behind the text that waits.
fn put_zones<S: Sink>(
    waiting: &mut Vec<u8>,
    zones: &[Shared<CompiledZone>],
    dump: &[Vec<SysInfo>],
    from: i64,
    to: i64,
    sink: &mut S,
) -> Result<(), Stop>
    requires counted { length zones.now ≡ length dump.now }
    requires are { AllZip (λ zone ranges. ranges.items ≡ ranges_between zone from to) zones.now dump.now }
    ensures ok { OnOk result
        (IsPut (S.state sink.old) (S.state sink.new) waiting.old.items waiting.new.items (compiled_texts from to zones.now)) }
    ensures stopped { IfErr result (λ stop. (later : List ℕ) →
        IsStopped stop (S.state sink.old) (S.state sink.new) (waiting.old.items ++ (compiled_texts from to zones.now ++ later))) }
{
    for place in 0..zones.len() {
        put_zone(waiting, zones[place].get(), dump[place].as_slice(), sink)?;
    }
    Ok(())
}

/// Puts some zones, which are expanded at once, behind the text that waits.
fn put_group<S: Sink>(
    rt: &(impl Threads + Sync),
    alloc: Global,
    waiting: &mut Vec<u8>,
    zones: &[Shared<CompiledZone>],
    from: i64,
    to: i64,
    sink: &mut S,
) -> Result<(), Stop>
    requires { IsStretch from to }
    ensures ok { OnOk result
        (IsPut (S.state sink.old) (S.state sink.new) waiting.old.items waiting.new.items (compiled_texts from to zones.now)) }
    ensures stopped { IfErr result (λ stop. (later : List ℕ) →
        IsStopped stop (S.state sink.old) (S.state sink.new) (waiting.old.items ++ (compiled_texts from to zones.now ++ later))) }
{
    let dump = dump_zones(rt, alloc, zones, from, to)?;
    put_zones(waiting, zones, dump.as_slice(), from, to, sink)
}

/// Writes the text of zones, one group after another, in pieces of at most 65,536 bytes.
pub fn write_zones<S: Sink>(
    rt: &(impl Threads + Sync),
    alloc: Global,
    zones: &[Shared<CompiledZone>],
    from: i64,
    to: i64,
    sink: &mut S,
) -> Result<(), Stop>
    requires { IsStretch from to }
    ensures ok { OnOk result (S.state sink.new ≡ with_bytes (S.state sink.old) (compiled_texts from to zones.now)) }
    ensures stopped { IfErr result (λ stop.
        IsStopped stop (S.state sink.old) (S.state sink.new) (compiled_texts from to zones.now)) }
{
    let mut waiting = room_for_a_piece(alloc)?;
    let mut rest = zones;
    while !rest.is_empty() {
        let (group, later) = rest.split_at(rest.len().min(GROUP));
        put_group(rt, alloc, &mut waiting, group, from, to, sink)?;
        rest = later;
    }
    write_text(waiting.as_slice(), sink)?;
    Ok(())
}

/// Makes one more zone ready.
fn push_compiled(
    alloc: Global,
    compiled: &mut Vec<Shared<CompiledZone>>,
    db: &Db,
    place: u32,
) -> Result<(), NoMemory>
    requires sound { IsTrue (is_sound db.now) }
    requires known { place < length db.now.zones }
    ensures { OnOk result ((zone : Zone) (from to : ℤ) → slice_get db.now.zones place ≡ Some zone →
        compiled_texts from to compiled.new.items ≡ compiled_texts from to compiled.old.items ++ zone_text db.now from to zone) }
{
    let zone = compile(alloc, db, place)?;
    compiled.push(Shared::from_arc(Arc::new(alloc, zone)?))?;
    Ok(())
}

/// So many zones of a sound database from a place on, ready for questions.
pub fn compiled_zones(
    alloc: Global,
    db: &Db,
    first: u32,
    count: u32,
) -> Result<Vec<Shared<CompiledZone>>, NoMemory>
    requires sound { IsTrue (is_sound db.now) }
    requires known { first + count ≤ length db.now.zones }
    ensures { IfOk result (λ compiled. (from to : ℤ) →
        compiled_texts from to compiled.items ≡ dump_text db.now from to (take count (drop first db.now.zones))) }
{
    let mut compiled = Vec::new(alloc);
    for more in 0..count {
        push_compiled(alloc, &mut compiled, db, first + more)?;
    }
    Ok(compiled)
}

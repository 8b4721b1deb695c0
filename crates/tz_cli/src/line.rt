//! The lines that commands print, each a value spelled by `tz_lookup` with a newline behind it.
ghost use Rattle.std.specs.Prelude.{◌≡◌, ◌≤◌, ◌<◌, ◌*◌, ◌^◌, ◌++◌, IfOk, OnOk};
ghost use Rattle.std.specs.Fmt.{decimal};
ghost use Rattle.tz_types.specs.declared.limit.TheConstants.{MOST_SETS, MOST_RULES};
ghost use Rattle.tz_cli.specs.Line.{move_line, day_line, rule_count, check_line, in_file, fault_line};

use std::alloc::Global;
use tz_lookup::{put_spaced, shown};
use tz_moves::Move;
use tz_text::put_number;
use tz_types::{Db, Fault, NoMemory};

/// Puts the line of a move at the end of a text.
pub fn put_move(out: &mut Vec<u8>, change: &Move) -> Result<(), NoMemory>
    ensures { OnOk result (out.new.items ≡ out.old.items ++ move_line change.now) }
{
    put_spaced(out, change.at)?;
    put_spaced(out, change.offset)?;
    put_spaced(out, change.save)?;
    out.extend_from_slice(shown(&change.abbrev))?;
    out.extend_from_slice(b"\n")?;
    Ok(())
}

/// Puts the line of a day at the end of a text.
pub fn put_day(out: &mut Vec<u8>, day: i64, seconds: i64) -> Result<(), NoMemory>
    ensures { OnOk result (out.new.items ≡ out.old.items ++ day_line day seconds) }
{
    put_spaced(out, day)?;
    put_number(out, seconds)?;
    out.extend_from_slice(b"\n")?;
    Ok(())
}

/// How many rules the database has, in all its sets.
fn rule_count(db: &Db) -> usize
    ensures count { result ≡ rule_count db.now }
    ensures bound { result ≤ MOST_SETS * MOST_RULES }
{
    let mut count = 0;
    for set in db.sets.as_slice() {
        count += set.get().rules.len();
    }
    count
}

/// Puts a count at the end of a line.
fn put_count(line: &mut Vec<u8>, count: usize) -> Result<(), NoMemory>
    requires { count < 2 ^ 63 }
    ensures { OnOk result (line.new.items ≡ line.old.items ++ decimal count) }
{
    put_number(line, count as i64)
}

/// The line of a database: its version, and how many rules, zones and links it has.
#[tactic(auto, unfolding(crate::specs::Line::check_line))]
pub fn check_line(alloc: Global, db: &Db) -> Result<Vec<u8>, NoMemory>
    ensures { IfOk result (λ line. line.items ≡ check_line db.now) }
{
    let mut line = b"ok ".to_vec(alloc)?;
    line.extend_from_slice(db.version.as_bytes())?;
    line.extend_from_slice(b" rules ")?;
    put_count(&mut line, rule_count(db))?;
    line.extend_from_slice(b" zones ")?;
    put_count(&mut line, db.zones.len())?;
    line.extend_from_slice(b" links ")?;
    put_count(&mut line, db.links.len())?;
    line.extend_from_slice(b"\n")?;
    Ok(line)
}

/// Puts ` in F` at the end of a line, where the fault is in a file of that number.
fn put_file(line: &mut Vec<u8>, file: u32) -> Result<(), NoMemory>
    ensures { OnOk result (line.new.items ≡ line.old.items ++ in_file file) }
{
    if file == 0 {
        return Ok(());
    }
    line.extend_from_slice(b" in ")?;
    put_number(line, i64::from(file))
}

/// The line of a fault, behind a word.
#[tactic(auto, unfolding(crate::specs::Line::fault_line))]
pub fn fault_line(alloc: Global, word: &[u8], fault: Fault) -> Result<Vec<u8>, NoMemory>
    ensures { IfOk result (λ line. line.items ≡ fault_line word.now fault) }
{
    let mut line = word.to_vec(alloc)?;
    line.extend_from_slice(b" ")?;
    put_number(&mut line, i64::from(fault.line))?;
    line.extend_from_slice(b" ")?;
    put_number(&mut line, i64::from(fault.cause))?;
    put_file(&mut line, fault.file)?;
    line.extend_from_slice(b"\n")?;
    Ok(line)
}

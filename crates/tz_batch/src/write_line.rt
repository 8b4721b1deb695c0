//! The lines of a journal's writes.
ghost use Rattle.std.specs.Prelude.{◌≡◌, ◌+◌, ◌++◌, OnOk};
ghost use Rattle.tz_lookup.specs.Found.{after_space};
ghost use Rattle.tz_batch.specs.OutcomeText.{change_text, write_line, write_lines};

use pin_book::{Change, Write};
use tz_lookup::{put_after_space, put_natural};
use tz_types::NoMemory;

/// Puts a push at the end of a text.
#[tactic(auto, unfolding(crate::specs::OutcomeText::change_text))]
fn put_push(out: &mut Vec<u8>, n: u32, src: u32, slot: u32) -> Result<(), NoMemory>
    ensures { OnOk result (out.new.items ≡ out.old.items ++ change_text (Change.Push n src slot)) }
{
    out.extend_from_slice(b"push")?;
    put_after_space(out, n)?;
    put_after_space(out, src)?;
    put_after_space(out, slot)
}

/// Puts an erasure at the end of a text.
#[tactic(auto, unfolding(crate::specs::OutcomeText::change_text))]
fn put_erase(out: &mut Vec<u8>, after: u32, gone: u32) -> Result<(), NoMemory>
    ensures { OnOk result (out.new.items ≡ out.old.items ++ change_text (Change.Erase after gone)) }
{
    out.extend_from_slice(b"erase")?;
    put_after_space(out, after)?;
    put_after_space(out, gone)
}

/// Puts what a write changes at the end of a text.
fn put_change(out: &mut Vec<u8>, change: Change) -> Result<(), NoMemory>
    ensures { OnOk result (out.new.items ≡ out.old.items ++ change_text change) }
{
    match change {
        Change::Push { n, src, slot } => put_push(out, n, src, slot),
        Change::Erase { after, gone } => put_erase(out, after, gone),
    }
}

/// Puts a space and the lane of a write, which is its reader's number plus 1, at the end of a text.
fn put_lane(out: &mut Vec<u8>, by: u32) -> Result<(), NoMemory>
    ensures { OnOk result (out.new.items ≡ out.old.items ++ after_space (by + 1)) }
{
    out.extend_from_slice(b" ")?;
    put_natural(out, u64::from(by) + 1)
}

/// Puts the line of the write at a position, counted from 1, at the end of a text.
#[tactic(auto, unfolding(crate::specs::OutcomeText::write_line))]
fn put_write(out: &mut Vec<u8>, w: u64, write: &Write) -> Result<(), NoMemory>
    ensures { OnOk result (out.new.items ≡ out.old.items ++ write_line w write.now) }
{
    put_natural(out, w)?;
    put_lane(out, write.by)?;
    put_after_space(out, write.seq)?;
    out.extend_from_slice(b" ")?;
    put_change(out, write.change)?;
    out.extend_from_slice(b"\n")?;
    Ok(())
}

/// Puts the lines of a journal's writes at the end of a text.
pub fn put_writes(out: &mut Vec<u8>, writes: &[Write]) -> Result<(), NoMemory>
    ensures { OnOk result (out.new.items ≡ out.old.items ++ write_lines 1 writes.now) }
{
    let mut w = 0;
    for write in writes {
        w += 1;
        put_write(out, w, write)?;
    }
    Ok(())
}

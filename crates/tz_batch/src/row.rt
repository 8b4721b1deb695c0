//! Rows of a listing.
ghost use Rattle.std.specs.Prelude.{◌≡◌, ◌++◌, OnOk};
ghost use Rattle.std.specs.List.{flat_map};
ghost use Rattle.tz_batch.specs.OutcomeText.{after_slash, row_text};

use pin_book::Listed;
use tz_lookup::{put_after_space, put_natural};
use tz_types::NoMemory;

/// Puts a slash and a number at the end of a text.
fn put_after_slash(out: &mut Vec<u8>, number: u32) -> Result<(), NoMemory>
    ensures { OnOk result (out.new.items ≡ out.old.items ++ after_slash number) }
{
    out.extend_from_slice(b"/")?;
    put_natural(out, u64::from(number))
}

/// Puts a row at the end of a text.
#[tactic(auto, unfolding(crate::specs::OutcomeText::row_text))]
fn put_row(out: &mut Vec<u8>, row: &Listed) -> Result<(), NoMemory>
    ensures { OnOk result (out.new.items ≡ out.old.items ++ row_text row.now) }
{
    put_after_space(out, row.n)?;
    put_after_slash(out, row.src)?;
    put_after_slash(out, row.slot)
}

/// Puts rows at the end of a text.
pub fn put_rows(out: &mut Vec<u8>, rows: &[Listed]) -> Result<(), NoMemory>
    ensures { OnOk result (out.new.items ≡ out.old.items ++ flat_map row_text rows.now) }
{
    for row in rows {
        put_row(out, row)?;
    }
    Ok(())
}

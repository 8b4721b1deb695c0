//! Ranges, as zdump would show them, in one line of numbers.
ghost use Rattle.std.specs.Prelude.{◌≡◌, ◌++◌, OnOk};
ghost use Rattle.tz_lookup.specs.Range.{shown, spaced, range_text};

use tz_text::put_number;
use tz_types::{Abbrev, NoMemory, SysInfo};

/// An abbreviation, and `""` where it has no bytes.
pub fn shown(abbreviation: &Abbrev) -> &[u8]
    ensures { result.now ≡ shown abbreviation.now }
{
    match abbreviation.as_bytes() {
        [] => b"\"\"",
        bytes => bytes,
    }
}

/// Puts a number and a space at the end of a text.
pub fn put_spaced(out: &mut Vec<u8>, number: i64) -> Result<(), NoMemory>
    ensures { OnOk result (out.new.items ≡ out.old.items ++ spaced number) }
{
    put_number(out, number)?;
    out.extend_from_slice(b" ")?;
    Ok(())
}

/// Puts a range, `BEGIN END OFFSET SAVE ABBREV`, at the end of a text: two instants in seconds from 1970-01-01 00:00:00, two
/// amounts of seconds, and the abbreviation, or `""` where that has no bytes.
#[tactic(auto, unfolding(crate::specs::Range::range_text))]
pub fn put_range(out: &mut Vec<u8>, range: &SysInfo) -> Result<(), NoMemory>
    ensures { OnOk result (out.new.items ≡ out.old.items ++ range_text range.now) }
{
    put_spaced(out, range.begin)?;
    put_spaced(out, range.end)?;
    put_spaced(out, range.offset)?;
    put_spaced(out, range.save)?;
    out.extend_from_slice(shown(&range.abbrev))?;
    Ok(())
}

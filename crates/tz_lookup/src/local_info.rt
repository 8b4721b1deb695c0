//! What there is to know of a local time.
ghost use Rattle.std.specs.Prelude.{◌≡◌, ◌++◌, OnOk, List, ℕ, codes};
ghost use Rattle.tz_lookup.specs.Range.{range_text};
ghost use Rattle.tz_lookup.specs.LocalInfo.{local_text};

use crate::range::put_range;
use tz_types::{LocalInfo, NoMemory, SysInfo};

/// Puts a word and two ranges at the end of a text.
fn put_two(
    out: &mut Vec<u8>,
    word: &[u8],
    first: &SysInfo,
    second: &SysInfo,
) -> Result<(), NoMemory>
    ensures { OnOk result (out.new.items ≡ out.old.items ++ word.now ++ range_text first.now ++ codes " " ++ range_text second.now) }
{
    out.extend_from_slice(word)?;
    put_range(out, first)?;
    out.extend_from_slice(b" ")?;
    put_range(out, second)
}

/// Puts a word and a range at the end of a text.
fn put_one(out: &mut Vec<u8>, word: &[u8], range: &SysInfo) -> Result<(), NoMemory>
    ensures { OnOk result (out.new.items ≡ out.old.items ++ word.now ++ range_text range.now) }
{
    out.extend_from_slice(word)?;
    put_range(out, range)
}

/// Puts what there is to know of a local time at the end of a text: `unique` and the one range that shows it, or
/// `nonexistent` or `ambiguous` and two ranges.
pub fn put_local_info(out: &mut Vec<u8>, info: &LocalInfo) -> Result<(), NoMemory>
    ensures { OnOk result (out.new.items ≡ out.old.items ++ local_text info.now) }
{
    match info {
        LocalInfo::Unique(range) => put_one(out, b"unique ", range),
        LocalInfo::Nonexistent { first, second } => put_two(out, b"nonexistent ", first, second),
        LocalInfo::Ambiguous { first, second } => put_two(out, b"ambiguous ", first, second),
    }
}

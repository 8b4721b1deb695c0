//! What there is to know of a UTC count.
ghost use Rattle.std.specs.Prelude.{◌≡◌, ◌++◌, [], codes, if◌then◌else◌, OnOk};
ghost use Rattle.tz_lookup.specs.LeapInfo.{leap_text};

use tz_text::put_number;
use tz_types::{LeapInfo, NoMemory};

/// The word for an added second, and that for another.
fn leap_word(is_leap: bool) -> &'static [u8]
    ensures { result.now ≡ (if is_leap then codes "leap " else codes "plain ") }
{
    if is_leap { b"leap " } else { b"plain " }
}

/// The word that stands behind where the table isn't known to hold.
fn expired_word(expired: bool) -> &'static [u8]
    ensures { result.now ≡ (if expired then codes " expired" else []) }
{
    if expired { b" expired" } else { b"" }
}

/// Puts what there is to know of a UTC count at the end of a text: `leap E` or `plain E`, and maybe ` expired`.
#[tactic(auto, unfolding(crate::specs::LeapInfo::leap_text))]
pub fn put_leap_info(out: &mut Vec<u8>, info: LeapInfo) -> Result<(), NoMemory>
    ensures { OnOk result (out.new.items ≡ out.old.items ++ leap_text info) }
{
    out.extend_from_slice(leap_word(info.is_leap))?;
    put_number(out, info.elapsed)?;
    out.extend_from_slice(expired_word(info.expired))?;
    Ok(())
}

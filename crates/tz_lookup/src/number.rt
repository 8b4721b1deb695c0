//! Numbers without a sign, in decimal digits.
ghost use Rattle.std.specs.Prelude.{◌≡◌, ◌++◌, OnOk};
ghost use Rattle.std.specs.Fmt.{decimal};
ghost use Rattle.tz_lookup.specs.Found.{after_space};

use itoa::Buffer;
use tz_types::NoMemory;

/// Puts the decimal digits of a number at the end of a text.
pub fn put_natural(out: &mut Vec<u8>, number: u64) -> Result<(), NoMemory>
    ensures { OnOk result (out.new.items ≡ out.old.items ++ decimal number) }
{
    let mut buffer = Buffer::new();
    out.extend_from_slice(buffer.format(number).as_bytes())?;
    Ok(())
}

/// Puts a space and a number at the end of a text.
pub fn put_after_space(out: &mut Vec<u8>, number: u32) -> Result<(), NoMemory>
    ensures { OnOk result (out.new.items ≡ out.old.items ++ after_space number) }
{
    out.extend_from_slice(b" ")?;
    put_natural(out, u64::from(number))
}

//! Lines, and the numbers in them.
ghost use Rattle.std.specs.Prelude.{◌≡◌, ◌++◌, codes, OnOk};
ghost use Rattle.std.specs.Fmt.{decimal};

use tz_text::put_number;
use tz_types::NoMemory;

/// Puts a line and its newline at the end of a text.
pub fn put_line(out: &mut Vec<u8>, line: &[u8]) -> Result<(), NoMemory>
    ensures { OnOk result (out.new.items ≡ out.old.items ++ (line.now ++ codes "\n")) }
{
    out.extend_from_slice(line)?;
    out.extend_from_slice(b"\n")?;
    Ok(())
}

/// Puts the decimal digits of a number at the end of a text.
pub fn put_natural(out: &mut Vec<u8>, number: u32) -> Result<(), NoMemory>
    ensures { OnOk result (out.new.items ≡ out.old.items ++ decimal number) }
{
    put_number(out, i64::from(number))
}

/// Puts a line that begins so and ends with a number at the end of a text.
pub fn put_numbered(out: &mut Vec<u8>, words: &[u8], number: u32) -> Result<(), NoMemory>
    ensures { OnOk result (out.new.items ≡ out.old.items ++ (words.now ++ decimal number ++ codes "\n")) }
{
    out.extend_from_slice(words)?;
    put_natural(out, number)?;
    out.extend_from_slice(b"\n")?;
    Ok(())
}

//! Generated texts: one rule set, and zones that follow it.
ghost use Rattle.std.specs.Prelude.{◌≡◌, ◌++◌, codes, map, IfOk, OnOk};
ghost use Rattle.std.specs.List.{range_with_len};
ghost use Rattle.tz_gen.specs.Generated.{zone_record, text_lines, bytes_of_lines};

use crate::line::{put_line, put_natural, put_numbered};
use std::alloc::Global;
use tz_text::put_number;
use tz_types::{NoMemory, Text};

/// Puts the line of the zone at a place at the end of a text.
#[tactic(auto, unfolding(crate::specs::Generated::zone_record))]
fn put_zone(out: &mut Vec<u8>, place: u32) -> Result<(), NoMemory>
    ensures { OnOk result (out.new.items ≡ out.old.items ++ (zone_record place ++ codes "\n")) }
{
    out.extend_from_slice(b"Zone Gen/")?;
    put_natural(out, place)?;
    out.extend_from_slice(b" ")?;
    put_number(out, i64::from(place % 25) - 12)?;
    put_line(out, b":00 G G%sT")
}

/// Puts the lines of so many zones at the end of a text.
fn put_zones(out: &mut Vec<u8>, n: u32) -> Result<(), NoMemory>
    ensures { OnOk result (out.new.items ≡ out.old.items ++ bytes_of_lines (map zone_record (range_with_len 0 n))) }
{
    for place in 0..n {
        put_zone(out, place)?;
    }
    Ok(())
}

/// The text of this number, with so many zones.
#[tactic(auto, unfolding(crate::specs::Generated::text_lines))]
pub fn generated_text(alloc: Global, n: u32, number: u32) -> Result<Text, NoMemory>
    ensures { IfOk result (λ text. text ≡ bytes_of_lines (text_lines n number)) }
{
    let mut out = Vec::new(alloc);
    put_numbered(&mut out, b"# version g", number)?;
    put_line(&mut out, b"Rule G 1970 max - Mar lastSun 1:00u 1:00 S")?;
    put_line(&mut out, b"Rule G 1970 max - Oct lastSun 1:00u 0 -")?;
    put_zones(&mut out, n)?;
    Ok(Text::from_vec(out))
}

//! How a range is called, after zic(8), "Zone lines", FORMAT. Offsets are in seconds.
ghost use Rattle.std.specs.Prelude.{◌≡◌, ◌+◌, ◌≤◌, ◌<◌, ◌++◌, length, take, IsTrue};
ghost use Rattle.std.specs.List.{list_all};
ghost use Rattle.jiff_core.specs.Calendar.{IsWithin};
ghost use Rattle.tz_types.specs.declared.limit.TheConstants.{LONGEST_OFFSET};
ghost use Rattle.tz_types.specs.Text.{is_printable};
ghost use Rattle.tz_types.specs.Format.{is_format};
ghost use Rattle.tz_specs.specs.Abbreviation.{offset_text, abbreviation};
ghost use Rattle.tz_rules.specs.OffsetText.{offset_with_seconds};

use crate::InForce;
use arrayvec::ArrayVec;
use tz_types::{Abbrev, Format};

/// How many bytes an abbreviation has at most.
const ABBREV_ROOM: usize = 32;

/// Three texts in a row.
fn joined(first: &[u8], middle: &[u8], last: &[u8]) -> Abbrev
    requires fits { length first.now + length middle.now + length last.now ≤ ABBREV_ROOM }
    requires first_visible { IsTrue (list_all is_printable first.now) }
    requires middle_visible { IsTrue (list_all is_printable middle.now) }
    requires last_visible { IsTrue (list_all is_printable last.now) }
    ensures { result ≡ first.now ++ middle.now ++ last.now }
{
    let mut bytes: ArrayVec<u8, ABBREV_ROOM> = ArrayVec::new();
    let _ = bytes.try_extend_from_slice(first);
    let _ = bytes.try_extend_from_slice(middle);
    let _ = bytes.try_extend_from_slice(last);
    match Abbrev::new(bytes.as_slice()) {
        Ok(text) => text,
        Err(_) => unreachable!(),
    }
}

/// A digit.
fn digit(n: u64) -> u8
    requires { n < 10 }
    ensures { result ≡ 0x30 + n }
{
    b'0' + n as u8
}

/// An offset with its sign, its hours, its minutes and its seconds.
fn offset_bytes(offset: i64) -> [u8; 7]
    requires { IsWithin LONGEST_OFFSET offset }
    ensures { result ≡ offset_with_seconds offset }
{
    let size = offset.unsigned_abs();
    let (hours, minutes, seconds) = (size / 3600, size / 60 % 60, size % 60);
    [
        if offset < 0 { b'-' } else { b'+' },
        digit(hours / 10),
        digit(hours % 10),
        digit(minutes / 10),
        digit(minutes % 10),
        digit(seconds / 10),
        digit(seconds % 10),
    ]
}

/// How much of it is written: the shortest that loses nothing.
fn offset_len(offset: i64) -> usize
    requires { IsWithin LONGEST_OFFSET offset }
    ensures bound { result ≤ 7 }
    ensures text { take result (offset_with_seconds offset) ≡ offset_text offset }
{
    let size = offset.unsigned_abs();
    if size % 3600 == 0 {
        3
    } else if size % 60 == 0 {
        5
    } else {
        7
    }
}

/// The abbreviation under what is in force, at an offset in seconds. It takes no memory.
#[tactic(auto, unfolding(tz_specs::specs::Abbreviation::abbreviation))]
pub fn abbreviation(format: &Format, in_force: &InForce<'_>, offset: i64) -> Abbrev
    requires format_in { IsTrue (is_format format.now) }
    requires offset_in { IsWithin LONGEST_OFFSET offset }
    ensures { result ≡ abbreviation format.now in_force.now offset }
{
    match format {
        Format::Text(text) => text.copied(),
        Format::Letters { before, after } => {
            joined(before.as_bytes(), in_force.letters(), after.as_bytes())
        }
        Format::Offset { before, after } => {
            let bytes = offset_bytes(offset);
            joined(
                before.as_bytes(),
                &bytes[..offset_len(offset)],
                after.as_bytes(),
            )
        }
        Format::Pair { standard, daylight } => {
            if in_force.is_daylight() {
                daylight.copied()
            } else {
                standard.copied()
            }
        }
    }
}

//! What lookups find, and how it is spelled.
ghost use Rattle.std.specs.Prelude.{◌≡◌, ◌++◌, OnOk};
ghost use Rattle.std.specs.Fmt.{signed_decimal};
ghost use Rattle.tz_lookup.specs.Found.{found_text, scan_text};

use crate::leap_info::put_leap_info;
use crate::local_info::put_local_info;
use crate::number::put_after_space;
use crate::range::put_range;
use tz_text::put_number;
use tz_types::{LeapInfo, LocalInfo, NoMemory, SysInfo};
use tz_windows::Scan;

/// What a lookup finds. Instants are in seconds from 1970-01-01 00:00:00.
#[derive(Debug, PartialEq, Drop)]
pub enum Found {
    /// The range of the zone that holds the instant.
    Info(SysInfo),
    /// What there is to know of the local time.
    Local(LocalInfo),
    /// The instant of the local time.
    Sys(i64),
    /// What there is to know of the local time, where it has an instant only by a choice.
    Undecided(LocalInfo),
    /// What the instants of a scan tell.
    Scan(Scan),
    /// The count of the other clock.
    Clock(i64),
    /// What there is to know of the UTC count.
    Leap(LeapInfo),
    /// No zone and no link has the name.
    NoZone,
    /// The instant, the local time or the count isn't in the range of the lookup.
    Range,
}

/// Puts a word at the end of a text.
fn put_word(out: &mut Vec<u8>, word: &[u8]) -> Result<(), NoMemory>
    ensures { OnOk result (out.new.items ≡ out.old.items ++ word.now) }
{
    out.extend_from_slice(word)?;
    Ok(())
}

/// Puts a word and a number at the end of a text.
fn put_word_and_number(out: &mut Vec<u8>, word: &[u8], number: i64) -> Result<(), NoMemory>
    ensures { OnOk result (out.new.items ≡ out.old.items ++ (word.now ++ signed_decimal number)) }
{
    out.extend_from_slice(word)?;
    put_number(out, number)
}

/// Puts what a scan tells at the end of a text.
#[tactic(auto, unfolding(crate::specs::Found::scan_text))]
fn put_scan(out: &mut Vec<u8>, scan: &Scan) -> Result<(), NoMemory>
    ensures { OnOk result (out.new.items ≡ out.old.items ++ scan_text scan.now) }
{
    out.extend_from_slice(b"scan")?;
    put_after_space(out, scan.inside)?;
    put_word_and_number(out, b" ", scan.offsets)?;
    put_after_space(out, scan.changes)
}

/// Puts what is found at the end of a text.
pub fn put_found(out: &mut Vec<u8>, found: &Found) -> Result<(), NoMemory>
    ensures { OnOk result (out.new.items ≡ out.old.items ++ found_text found.now) }
{
    match found {
        Found::Info(range) => put_range(out, range),
        Found::Local(info) | Found::Undecided(info) => put_local_info(out, info),
        Found::Sys(t) => put_word_and_number(out, b"sys ", *t),
        Found::Scan(scan) => put_scan(out, scan),
        Found::Clock(count) => put_number(out, *count),
        Found::Leap(info) => put_leap_info(out, *info),
        Found::NoZone => put_word(out, b"nozone"),
        Found::Range => put_word(out, b"range"),
    }
}

//! Leap texts to leap tables, after zic(8), "Leap lines".
ghost use Rattle.std.specs.Prelude.{◌≡◌, ℕ, ◌+◌, ◌≤◌, ◌∷◌, Ok, List, map, length, IfOk, IfErr, OnOk};
ghost use Rattle.std.specs.List.Sorted.{IsPermutation, IsSorted};
ghost use Rattle.tz_types.specs.declared.limit.TheConstants.{MOST_BYTES};
ghost use Rattle.tz_specs.specs.LeapText.{leap_fault, first_moment, leap_contents_after, leap_contents_of, ReadsLeaps};
ghost use Rattle.tz_lines.specs.LeapContents.{contents_meant, expiry_meant, entry_meant, leap_cmp, AreGiven, IsTableOf, MeansWholeLeapFault};
ghost use Rattle.tz_lines.specs.Refusal.{MeansLineFault, MeansLeapFault, MeansRefusal};

use crate::error::{LineError, ReadError};
use crate::leap_contents::{LeapContents, WrittenExpiry, WrittenLeap};
use crate::leap_faults::least_leap_fault;
use std::alloc::Global;
use tz_records::read_leap_line;
use tz_text::{Joined, next_line};
use tz_types::{Cause, Items, LeapEntry, Leaps, LineFault, NoMemory};

/// Reads one more line of a leap text.
fn take_line(
    contents: &mut LeapContents,
    joined: &mut Joined,
    line: &[u8],
    number: u32,
) -> Result<(), LineError>
    ensures ok { OnOk result ((lines : List (List ℕ)) →
        leap_contents_after (contents_meant contents.old) number (line.now ∷ lines)
        ≡ leap_contents_after (contents_meant contents.new) (number + 1) lines) }
    ensures err { IfErr result (λ e. (lines : List (List ℕ)) →
        MeansLineFault e (leap_contents_after (contents_meant contents.old) number (line.now ∷ lines))) }
{
    match read_leap_line(line, joined, number, contents.leaps.len()) {
        Ok(None) => Ok(()),
        Ok(Some(said)) => {
            contents.add(number, said)?;
            Ok(())
        }
        Err(cause) => Err(LineError::at(number, cause)),
    }
}

/// What all lines of a leap text give.
fn take_lines(alloc: Global, text: &[u8]) -> Result<LeapContents, LineError>
    requires { length text.now ≤ MOST_BYTES }
    ensures ok { IfOk result (λ contents. leap_contents_of text.now ≡ Ok (contents_meant contents)) }
    ensures err { IfErr result (λ e. MeansLineFault e (leap_contents_of text.now)) }
{
    let mut contents = LeapContents::new(alloc);
    let mut joined = Joined::new();
    let mut number = 1;
    let mut rest = text;
    while !rest.is_empty() {
        let (line, later) = next_line(rest);
        take_line(&mut contents, &mut joined, line, number)?;
        number += 1;
        rest = later;
    }
    Ok(contents)
}

/// The leap seconds in the order of their dates, and those of one date in the order of their lines.
fn in_order(leaps: Vec<WrittenLeap>) -> Result<Vec<WrittenLeap>, NoMemory>
    ensures same { IfOk result (λ ordered. IsPermutation leaps.items ordered.items) }
    ensures ordered { IfOk result (λ ordered. IsSorted leap_cmp ordered.items) }
{
    let mut ordered = leaps;
    ordered.sort()?;
    Ok(ordered)
}

/// The leap seconds without their lines.
fn entries(alloc: Global, leaps: &[WrittenLeap]) -> Result<Items<LeapEntry>, NoMemory>
    ensures { IfOk result (λ entries. entries ≡ map entry_meant leaps.now) }
{
    let mut entries = Vec::with_capacity(alloc, leaps.len())?;
    for leap in leaps {
        entries.push(LeapEntry {
            date: leap.date,
            added: leap.added,
        })?;
    }
    Ok(Items::from_vec(entries))
}

/// The moment of the first expiry.
fn first_moment(expiries: &[WrittenExpiry]) -> Option<i64>
    ensures { result ≡ first_moment (map expiry_meant expiries.now) }
{
    match expiries.first() {
        Some(expiry) => Some(expiry.moment),
        None => None,
    }
}

/// The table of what the lines of a text gave, or its least fault.
fn table(alloc: Global, contents: LeapContents) -> Result<Leaps, LineError>
    requires { AreGiven (contents_meant contents) }
    ensures ok { IfOk result (λ leaps. IsTableOf (contents_meant contents) leaps) }
    ensures err { IfErr result (λ e. MeansWholeLeapFault e (contents_meant contents)) }
{
    let LeapContents { leaps, expiries } = contents;
    let leaps = in_order(leaps)?;
    if let Some(fault) = least_leap_fault(leaps.as_slice(), expiries.as_slice()) {
        return Err(LineError::Fault(fault));
    }
    let entries = entries(alloc, leaps.as_slice())?;
    Ok(Leaps::new(alloc, entries, first_moment(expiries.as_slice()))?)
}

/// The leap table of a leap text, or its fault.
fn leaps_of(alloc: Global, text: &[u8]) -> Result<Leaps, LineError>
    requires { length text.now ≤ MOST_BYTES }
    ensures ok { IfOk result (λ leaps. ReadsLeaps text.now leaps) }
    ensures refused { IfErr result (λ e. MeansLeapFault e text.now) }
{
    let contents = take_lines(alloc, text)?;
    Ok(table(alloc, contents)?)
}

/// The leap table of a leap text of at most 4,194,304 bytes.
///
/// Each line is blank, or a record in fields with white space between: `Leap YEAR MONTH DAY 23:59:60 + S` adds a second at
/// the end of that day, `Leap YEAR MONTH DAY 23:59:59 - S` skips its last one, and `Expires YEAR MONTH DAY HH:MM:SS` tells
/// the moment from which the table isn't known to hold. `#` begins a comment. The keyword, the month and `S` may be cut
/// short, ASCII case aside. The records may stand in any order.
///
/// A text is refused at the first line that has one of the causes 1 to 18, with its least: 1 it is longer than 2,048
/// bytes with its newline, 2 it has a NUL byte, 3 it leaves a quote open, 4 it has another keyword, 5 another number of
/// fields, 6 no year from -9998 to 9998, 9 no month, 10 no day of that month, 11 another time, or one that doesn't go with
/// `+` or `-`, 16 neither of these, 17 no `S`, and 18 it is a line after the first 100,000 or a leap second after the first
/// 1,024. Where no line has one of these, it is refused at the least line with one of these, and the least there: 24 an
/// earlier leap second has the date, 25 an earlier line says when the table expires, 26 it expires no later than a leap
/// second.
pub fn read_leaps(alloc: Global, text: &[u8]) -> Result<Leaps, ReadError>
    requires { length text.now ≤ MOST_BYTES }
    ensures ok { IfOk result (λ leaps. ReadsLeaps text.now leaps) }
    ensures refused { IfErr result (λ e. MeansRefusal e text.now) }
{
    match leaps_of(alloc, text) {
        Ok(leaps) => Ok(leaps),
        Err(LineError::NoMemory) => Err(ReadError::NoMemory),
        Err(LineError::Fault(fault)) => Err(ReadError::Fault(fault.in_file(0))),
    }
}

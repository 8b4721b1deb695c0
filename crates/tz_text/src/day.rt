//! Days of a month: a number, `last` and a weekday, or a weekday with `>=` or `<=` (zic(8), "Rule lines", ON).
ghost use Rattle.std.specs.Prelude.{◌≡◌, pos, IfSome, option_map};
ghost use Rattle.std.specs.Int.{IsInRange};
ghost use Rattle.tz_types.specs.declared.calendar.On.TheVariants.{Day, From, UpTo};
ghost use Rattle.tz_specs.specs.Parts.{parts_at};
ghost use Rattle.tz_specs.specs.Day.{weekday_of, day_number_of, last_weekday_of, bound_of, bounded_weekday_of, on_of};
ghost use Rattle.tz_text.specs.Bounds.{last_bound_of, bounded_of};

use crate::bytes::{begins_with, place};
use crate::digits::number;
use crate::table::named_among;
use tz_types::{On, Weekday};

const WEEKDAYS: [&[u8]; 7] = [
    b"Sunday",
    b"Monday",
    b"Tuesday",
    b"Wednesday",
    b"Thursday",
    b"Friday",
    b"Saturday",
];

/// The weekday that the word names.
#[tactic(auto, unfolding(tz_specs::specs::Word::named_entry))]
fn weekday(word: &[u8]) -> Option<Weekday>
    ensures { result ≡ weekday_of word.now }
{
    match named_among(word, &WEEKDAYS)? {
        0 => Some(Weekday::Sunday),
        1 => Some(Weekday::Monday),
        2 => Some(Weekday::Tuesday),
        3 => Some(Weekday::Wednesday),
        4 => Some(Weekday::Thursday),
        5 => Some(Weekday::Friday),
        6 => Some(Weekday::Saturday),
        _ => None,
    }
}

/// A day number of one or two digits, from 1 to 31.
fn day_number(word: &[u8]) -> Option<u8>
    ensures value { result ≡ day_number_of word.now }
    ensures bound { IfSome result (IsInRange 1 31) }
{
    let day = number(word, 1, 2)?;
    if day >= 1 && day <= 31 {
        Some(day as u8)
    } else {
        None
    }
}

/// A day number alone.
fn day(word: &[u8]) -> Option<On>
    ensures { result ≡ option_map Day (day_number_of word.now) }
{
    Some(On::Day(day_number(word)?))
}

/// `last` and a weekday.
fn last(word: &[u8]) -> Option<On>
    ensures { result ≡ last_weekday_of word.now }
{
    if !begins_with(word, b"last") {
        return None;
    }
    Some(On::Last(weekday(&word[4..])?))
}

/// The day number behind `=`.
fn bound(word: &[u8]) -> Option<u8>
    ensures value { result ≡ bound_of word.now }
    ensures bound { IfSome result (IsInRange 1 31) }
{
    match word {
        [b'=', digits @ ..] => day_number(digits),
        _ => None,
    }
}

/// The bound, behind which there is no other mark.
#[tactic(auto, using(crate::proofs::Bounds::bound_none))]
fn last_bound(word: &[u8], mark: u8) -> Option<u8>
    ensures value { result ≡ last_bound_of (parts_at mark word.now) }
    ensures bound { IfSome result (IsInRange 1 31) }
{
    match place(word, mark) {
        Some(_) => None,
        None => bound(word),
    }
}

/// A weekday and a day number, with the mark and `=` between them.
fn bounded_weekday(word: &[u8], mark: u8) -> Option<(Weekday, u8)>
    ensures { result ≡ bounded_of (parts_at mark word.now) }
{
    let at = place(word, mark)?;
    let day = last_bound(&word[at + 1..], mark)?;
    Some((weekday(&word[..at])?, day))
}

/// The first such weekday on or after a day.
#[tactic(auto, using(crate::proofs::Bounds::bounded_form))]
fn from(word: &[u8]) -> Option<On>
    ensures { result ≡ bounded_weekday_of From (parts_at 0x3e word.now) }
{
    let (weekday, day) = bounded_weekday(word, b'>')?;
    Some(On::From(weekday, day))
}

/// The last such weekday on or before a day.
#[tactic(auto, using(crate::proofs::Bounds::bounded_form))]
fn up_to(word: &[u8]) -> Option<On>
    ensures { result ≡ bounded_weekday_of UpTo (parts_at 0x3c word.now) }
{
    let (weekday, day) = bounded_weekday(word, b'<')?;
    Some(On::UpTo(weekday, day))
}

/// A day of a month: a day number from 1 to 31, `last` and a weekday, or a weekday, `>=` or `<=` and a day number.
/// Weekdays may be cut short, and stand in either case.
#[tactic(auto, unfolding(tz_specs::specs::Day::on_of))]
pub fn on(word: &[u8]) -> Option<On>
    ensures { result ≡ on_of word.now }
{
    day(word)
        .or_else(|| last(word))
        .or_else(|| from(word))
        .or_else(|| up_to(word))
}

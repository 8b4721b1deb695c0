//! The values of single fields.
ghost use Rattle.std.specs.Prelude.{◌≡◌, ◌==◌, ◌≤◌, false, IsTrue, IfSome, length};
ghost use Rattle.std.specs.List.{list_any, list_all};
ghost use Rattle.tz_types.specs.declared.limit.TheConstants.{LONGEST_LETTERS};
ghost use Rattle.tz_types.specs.Text.{is_printable};
ghost use Rattle.tz_types.specs.Year.{IsWrittenYear, IsRuleYear};
ghost use Rattle.tz_types.specs.Amount.{is_shift, IsShift, IsTimeOfDay};
ghost use Rattle.tz_types.specs.Calendar.{has_day, has_day_through};
ghost use Rattle.tz_specs.specs.Value.{is_exactly, is_dash, rule_year_of, last_year_named, years_of, month_named, rule_day_of, until_day_of, kind_of, time_of, stdoff_of, is_daylight, save_of, is_bad_name, is_long_name, starts_amount, letters_of};

use tz_text::{amount, named_among, on, year};
use tz_types::{
    AtKind, LAST_RULE_YEAR, LAST_WRITTEN_YEAR, LONGEST_NAME, LONGEST_SHIFT, Letters, Month, On,
    has_day, has_day_through,
};

const MONTHS: [&[u8]; 12] = [
    b"January",
    b"February",
    b"March",
    b"April",
    b"May",
    b"June",
    b"July",
    b"August",
    b"September",
    b"October",
    b"November",
    b"December",
];

const LAST_YEARS: [&[u8]; 3] = [b"maximum", b"minimum", b"only"];

/// Whether the field has exactly these bytes.
pub fn is_exactly(field: &[u8], bytes: &[u8]) -> bool
    ensures { result ≡ is_exactly field.now bytes.now }
{
    field == bytes
}

/// Whether the field is `-`.
pub fn is_dash(field: &[u8]) -> bool
    ensures { result ≡ is_dash field.now }
{
    is_exactly(field, b"-")
}

/// A year from -9998 to 9998.
pub fn rule_year(field: &[u8]) -> Option<i32>
    ensures value { result ≡ rule_year_of field.now }
    ensures bound { IfSome result IsRuleYear }
{
    let year = year(field)?;
    if year.unsigned_abs() <= LAST_RULE_YEAR {
        Some(year)
    } else {
        None
    }
}

/// The last year that a word names: the one after all others, or the first year.
#[tactic(auto, unfolding(tz_specs::specs::Word::named_entry))]
fn last_year(first: i32, word: &[u8]) -> Option<i32>
    requires { IsWrittenYear first }
    ensures value { result ≡ last_year_named first word.now }
    ensures bound { IfSome result IsWrittenYear }
{
    match named_among(word, &LAST_YEARS)? {
        0 => Some(LAST_WRITTEN_YEAR as i32),
        2 => Some(first),
        _ => None,
    }
}

/// FROM and TO: two years, where TO may be a word.
#[tactic(auto, unfolding(tz_specs::specs::Value::years_of))]
pub fn years(from: &[u8], to: &[u8]) -> Option<(i32, i32)>
    ensures value { result ≡ years_of from.now to.now }
    ensures first { IfSome result (λ years. IsWrittenYear years.0) }
    ensures last { IfSome result (λ years. IsWrittenYear years.1) }
{
    let first = year(from)?;
    let last = match year(to) {
        Some(last) => last,
        None => last_year(first, to)?,
    };
    Some((first, last))
}

/// The month that the word names.
#[tactic(auto, unfolding(tz_specs::specs::Value::month_named, tz_specs::specs::Word::named_entry))]
pub fn month(word: &[u8]) -> Option<Month>
    ensures { result ≡ month_named word.now }
{
    match named_among(word, &MONTHS)? {
        0 => Some(Month::January),
        1 => Some(Month::February),
        2 => Some(Month::March),
        3 => Some(Month::April),
        4 => Some(Month::May),
        5 => Some(Month::June),
        6 => Some(Month::July),
        7 => Some(Month::August),
        8 => Some(Month::September),
        9 => Some(Month::October),
        10 => Some(Month::November),
        11 => Some(Month::December),
        _ => None,
    }
}

/// The day of a rule, which the month has in each of the years.
#[tactic(auto, unfolding(tz_specs::specs::Value::rule_day_of))]
pub fn rule_day(first: i32, last: i32, month: Month, field: &[u8]) -> Option<On>
    ensures value { result ≡ rule_day_of (Some (first, last)) (Some month) field.now }
    ensures day { IfSome result (λ on. IsTrue (has_day_through first last month on)) }
{
    let on = on(field)?;
    if has_day_through(first, last, month, on) {
        Some(on)
    } else {
        None
    }
}

/// The day of an UNTIL, which the month has in that year.
#[tactic(auto, unfolding(tz_specs::specs::Value::until_day_of))]
pub fn until_day(year: i32, month: Month, field: &[u8]) -> Option<On>
    requires { IsRuleYear year }
    ensures value { result ≡ until_day_of (Some year) (Some month) field.now }
    ensures day { IfSome result (λ on. IsTrue (has_day year month on)) }
{
    let on = on(field)?;
    if has_day(year, month, on) {
        Some(on)
    } else {
        None
    }
}

/// Which clock a time is read from, by the letter behind it.
fn at_kind(suffix: u8) -> AtKind
    ensures { result ≡ kind_of suffix }
{
    match suffix {
        b's' => AtKind::Standard,
        b'u' | b'g' | b'z' => AtKind::Universal,
        _ => AtKind::Wall,
    }
}

/// A time of day, and the clock that it is read from.
pub fn time(field: &[u8]) -> Option<(i64, AtKind)>
    ensures value { result ≡ time_of field.now }
    ensures bound { IfSome result (λ time. IsTimeOfDay time.0) }
{
    let amount = amount(field, b"wsugz")?;
    Some((amount.seconds, at_kind(amount.suffix)))
}

/// Whether the seconds are at most a day, with either sign.
fn is_shift(seconds: i64) -> bool
    ensures { result ≡ is_shift seconds }
{
    seconds.unsigned_abs() <= u64::from(LONGEST_SHIFT)
}

/// A standard offset, in seconds.
pub fn standard_offset(field: &[u8]) -> Option<i64>
    ensures value { result ≡ stdoff_of field.now }
    ensures bound { IfSome result IsShift }
{
    let seconds = amount(field, b"")?.seconds;
    if is_shift(seconds) {
        Some(seconds)
    } else {
        None
    }
}

/// Whether a save makes daylight time.
fn is_daylight(seconds: i64, suffix: u8) -> bool
    ensures { result ≡ is_daylight (seconds, suffix) }
{
    if suffix == 0 {
        seconds != 0
    } else {
        suffix == b'd'
    }
}

/// A save, in seconds, and whether it makes daylight time.
pub fn save(field: &[u8]) -> Option<(i64, bool)>
    ensures value { result ≡ save_of field.now }
    ensures bound { IfSome result (λ save. IsShift save.0) }
{
    let amount = amount(field, b"sd")?;
    if is_shift(amount.seconds) {
        Some((amount.seconds, is_daylight(amount.seconds, amount.suffix)))
    } else {
        None
    }
}

/// Whether all bytes are visible.
pub fn are_visible(bytes: &[u8]) -> bool
    ensures { result ≡ list_all is_printable bytes.now }
{
    bytes.iter().all(|byte| *byte >= 0x21 && *byte <= 0x7e)
}

/// Whether a name has no bytes, or one that isn't visible.
pub fn is_bad_name(field: &[u8]) -> bool
    ensures { result ≡ is_bad_name field.now }
{
    field.is_empty() || !are_visible(field)
}

/// Whether a name has more than `LONGEST_NAME` bytes.
pub fn is_long_name(field: &[u8]) -> bool
    ensures { result ≡ is_long_name field.now }
{
    field.len() > LONGEST_NAME
}

/// Whether the field starts as an amount does, and so is no rule's name.
pub fn starts_amount(field: &[u8]) -> bool
    ensures { result ≡ starts_amount field.now }
{
    match field {
        [] => false,
        [first, ..] => (*first >= b'0' && *first <= b'9') || *first == b'-' || *first == b'+',
    }
}

/// The bytes of a rule's letters, of which `-` has none.
pub fn letter_bytes(field: &[u8]) -> &[u8]
    ensures { result.now ≡ letters_of field.now }
{
    if is_dash(field) { &[] } else { field }
}

/// The letters of at most `LONGEST_LETTERS` visible bytes.
pub fn letters(bytes: &[u8]) -> Letters
    requires visible { IsTrue (list_all is_printable bytes.now) }
    requires few { length bytes.now ≤ LONGEST_LETTERS }
    ensures { result ≡ bytes.now }
{
    let Ok(letters) = Letters::new(bytes) else {
        unreachable!()
    };
    letters
}

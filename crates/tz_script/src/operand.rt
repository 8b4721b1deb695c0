//! The operands of operations, each read from the next word of a line.
ghost use Rattle.std.specs.Prelude.{◌≡◌, IfSome, option_map};
ghost use Rattle.std.specs.Int.{IsInRange};
ghost use Rattle.jiff_core.specs.Calendar.{IsWithin};
ghost use Rattle.tz_text.specs.LocalTime.{local_time_of};
ghost use Rattle.tz_script.specs.declared.limit.TheConstants.{MOST_LANES};
ghost use Rattle.tz_script.specs.Size.{most_signed};
ghost use Rattle.tz_script.specs.Words.{script_words};
ghost use Rattle.tz_script.specs.Operand.{hold_name_of, pick_of, zone_name_of, signed_of, counted_of, choice_of, conversion_of, lane_count_of};
ghost use Rattle.tz_script.specs.FirstWord.{first};

use crate::hold_name::{HoldName, is_front};
use crate::limit::MOST_LANES;
use crate::operation::Pick;
use crate::words::{is_exactly, next_word};
use tz_lookup::Conversion;
use tz_text::{local_time, number, signed_number};
use tz_types::{Choose, Label};

/// The version that a word picks.
fn pick_of(word: &[u8]) -> Option<Pick>
    ensures { result ≡ pick_of word.now }
{
    if is_front(word) {
        return Some(Pick::Front);
    }
    match HoldName::new(word) {
        Some(name) => Some(Pick::Held(name)),
        None => None,
    }
}

/// The name of a zone.
fn zone_name_of(word: &[u8]) -> Option<Label>
    ensures { result ≡ zone_name_of word.now }
{
    Label::new(word).ok()
}

/// A number of at most 10 digits, from a number to another.
pub fn counted_of(word: &[u8], low: u32, high: u32) -> Option<u32>
    ensures value { result ≡ counted_of low high word.now }
    ensures bound { IfSome result (IsInRange low high) }
{
    let number = number(word, 1, 10)?;
    if number < u64::from(low) || number > u64::from(high) {
        return None;
    }
    Some(number as u32)
}

/// The choice that a word names; none for `strict`.
fn choice_of(word: &[u8]) -> Option<Option<Choose>>
    ensures { result ≡ choice_of word.now }
{
    if is_exactly(word, b"strict") {
        Some(None)
    } else if is_exactly(word, b"earliest") {
        Some(Some(Choose::Earliest))
    } else if is_exactly(word, b"latest") {
        Some(Some(Choose::Latest))
    } else {
        None
    }
}

/// The conversion that a word names.
fn conversion_of(word: &[u8]) -> Option<Conversion>
    ensures { result ≡ conversion_of word.now }
{
    if is_exactly(word, b"sys-utc") {
        Some(Conversion::SysToUtc)
    } else if is_exactly(word, b"utc-sys") {
        Some(Conversion::UtcToSys)
    } else if is_exactly(word, b"utc-info") {
        Some(Conversion::UtcInfo)
    } else if is_exactly(word, b"utc-tai") {
        Some(Conversion::UtcToTai)
    } else if is_exactly(word, b"tai-utc") {
        Some(Conversion::TaiToUtc)
    } else if is_exactly(word, b"utc-gps") {
        Some(Conversion::UtcToGps)
    } else if is_exactly(word, b"gps-utc") {
        Some(Conversion::GpsToUtc)
    } else {
        None
    }
}

/// How many lanes there are: at least 1 and not too many, without leading zeros.
pub fn lane_count_of(word: &[u8]) -> Option<u32>
    ensures value { result ≡ lane_count_of word.now }
    ensures bound { IfSome result (IsInRange 1 MOST_LANES) }
{
    match word {
        [b'0', ..] => None,
        _ => counted_of(word, 1, MOST_LANES),
    }
}

/// The version that the next word picks, and what follows it.
pub fn pick(text: &[u8]) -> Option<(Pick, &[u8])>
    ensures { option_map (λ cut. (cut.0, script_words cut.1.now)) result ≡ first pick_of (script_words text.now) }
{
    let (word, rest) = next_word(text)?;
    Some((pick_of(word)?, rest))
}

/// The name of a hold, and what follows it.
pub fn hold_name(text: &[u8]) -> Option<(HoldName, &[u8])>
    ensures { option_map (λ cut. (cut.0, script_words cut.1.now)) result ≡ first hold_name_of (script_words text.now) }
{
    let (word, rest) = next_word(text)?;
    Some((HoldName::new(word)?, rest))
}

/// The name of a zone, and what follows it.
pub fn zone_name(text: &[u8]) -> Option<(Label, &[u8])>
    ensures { option_map (λ cut. (cut.0, script_words cut.1.now)) result ≡ first zone_name_of (script_words text.now) }
{
    let (word, rest) = next_word(text)?;
    Some((zone_name_of(word)?, rest))
}

/// An instant or a count: an optional `-` and at most 15 digits; and what follows it.
pub fn signed(text: &[u8]) -> Option<(i64, &[u8])>
    ensures value { option_map (λ cut. (cut.0, script_words cut.1.now)) result ≡ first signed_of (script_words text.now) }
    ensures bound { IfSome result (λ cut. IsWithin most_signed cut.0) }
{
    let (word, rest) = next_word(text)?;
    Some((signed_number(word)?, rest))
}

/// A local time: a number, or a civil date and time of day; and what follows it.
pub fn local(text: &[u8]) -> Option<(i64, &[u8])>
    ensures { option_map (λ cut. (cut.0, script_words cut.1.now)) result ≡ first local_time_of (script_words text.now) }
{
    let (word, rest) = next_word(text)?;
    Some((local_time(word)?, rest))
}

/// A number of at most 10 digits, from a number to another, and what follows it.
pub fn counted(text: &[u8], low: u32, high: u32) -> Option<(u32, &[u8])>
    ensures value { option_map (λ cut. (cut.0, script_words cut.1.now)) result ≡ first (counted_of low high) (script_words text.now) }
    ensures bound { IfSome result (λ cut. IsInRange low high cut.0) }
{
    let (word, rest) = next_word(text)?;
    Some((counted_of(word, low, high)?, rest))
}

/// The choice that the next word names, none for `strict`, and what follows it.
pub fn choice(text: &[u8]) -> Option<(Option<Choose>, &[u8])>
    ensures { option_map (λ cut. (cut.0, script_words cut.1.now)) result ≡ first choice_of (script_words text.now) }
{
    let (word, rest) = next_word(text)?;
    Some((choice_of(word)?, rest))
}

/// The conversion that the next word names, and what follows it.
pub fn conversion(text: &[u8]) -> Option<(Conversion, &[u8])>
    ensures { option_map (λ cut. (cut.0, script_words cut.1.now)) result ≡ first conversion_of (script_words text.now) }
{
    let (word, rest) = next_word(text)?;
    Some((conversion_of(word)?, rest))
}

//! Amounts of time, in seconds (zic(8), "Rule lines", AT and SAVE).
ghost use Rattle.std.specs.Prelude.{◌≡◌, ◌<◌, ◌≤◌, ◌^◌, ◌*◌, length, pos, IfSome, Some, option_map};
ghost use Rattle.tz_types.specs.declared.limit.TheConstants.{LONGEST_TIME};
ghost use Rattle.tz_types.specs.Amount.{IsTimeOfDay};
ghost use Rattle.tz_specs.specs.Choice.{only_if};
ghost use Rattle.tz_specs.specs.Number.{number_of, are_digits};
ghost use Rattle.tz_specs.specs.Parts.{parts_at};
ghost use Rattle.tz_specs.specs.Amount.{rounded, part_up_to, seconds_of, size_of, suffix_split, unsigned_amount, amount_of};
ghost use Rattle.tz_text.specs.Sizes.{seconds_of_hours, seconds_of_minutes, rounded_seconds_of, last_seconds_of, after_hours_of};

use crate::Amount;
use crate::bytes::{is_one_of, lower_case, place};
use crate::digits::{decimal, digit, number};

/// The power of ten with so many zeros.
fn power_of_ten(digits: usize) -> u64
    requires { digits ≤ 12 }
    ensures { result ≡ 10 ^ digits }
{
    match digits {
        0 => 1,
        1 => 10,
        2 => 100,
        3 => 1_000,
        4 => 10_000,
        5 => 100_000,
        6 => 1_000_000,
        7 => 10_000_000,
        8 => 100_000_000,
        9 => 1_000_000_000,
        10 => 10_000_000_000,
        11 => 100_000_000_000,
        _ => 1_000_000_000_000,
    }
}

/// The seconds with a fraction of one more, rounded to the nearest, and to the even one of two that are as near.
fn with_fraction(whole: u64, fraction: &[u8]) -> Option<u64>
    requires { whole ≤ 60 }
    ensures value { result ≡ only_if (are_digits 1 12 fraction.now) (rounded (record { whole = whole; fraction = fraction.now })) }
    ensures bound { IfSome result (λ seconds. seconds ≤ 61) }
{
    if fraction.is_empty() || fraction.len() > 12 {
        return None;
    }
    let twice = 2 * decimal(fraction)?;
    let unit = power_of_ten(fraction.len());
    if twice < unit {
        Some(whole)
    } else if unit < twice {
        Some(whole + 1)
    } else {
        Some(whole + whole % 2)
    }
}

/// A number of at most two digits that is at most so much.
fn part_of_clock(word: &[u8], most: u64) -> Option<u64>
    ensures value { result ≡ part_up_to most word.now }
    ensures bound { IfSome result (λ part. part ≤ most) }
{
    let part = number(word, 1, 2)?;
    if part <= most { Some(part) } else { None }
}

/// The seconds of hours.
fn hours(word: &[u8]) -> Option<u64>
    ensures value { result ≡ seconds_of_hours word.now }
    ensures bound { IfSome result (λ seconds. seconds ≤ 3_596_400) }
{
    Some(3600 * number(word, 1, 3)?)
}

/// The seconds of minutes.
fn minutes(word: &[u8]) -> Option<u64>
    ensures value { result ≡ seconds_of_minutes word.now }
    ensures bound { IfSome result (λ seconds. seconds ≤ 3_540) }
{
    Some(60 * part_of_clock(word, 59)?)
}

/// Seconds, which may have a fraction, rounded.
fn seconds(word: &[u8]) -> Option<u64>
    ensures value { result ≡ rounded_seconds_of word.now }
    ensures bound { IfSome result (λ seconds. seconds ≤ 61) }
{
    let Some(point) = place(word, b'.') else {
        return part_of_clock(word, 60);
    };
    with_fraction(part_of_clock(&word[..point], 60)?, &word[point + 1..])
}

/// Seconds behind which nothing more stands.
#[tactic(auto, using(crate::proofs::Sizes::last_seconds_none))]
fn last_seconds(word: &[u8]) -> Option<u64>
    ensures value { result ≡ last_seconds_of (parts_at 0x3a word.now) }
    ensures bound { IfSome result (λ seconds. seconds ≤ 61) }
{
    match place(word, b':') {
        Some(_) => None,
        None => seconds(word),
    }
}

/// Minutes, or minutes and seconds.
fn after_hours(word: &[u8]) -> Option<u64>
    ensures value { result ≡ after_hours_of (parts_at 0x3a word.now) }
    ensures bound { IfSome result (λ seconds. seconds ≤ 3_601) }
{
    let Some(colon) = place(word, b':') else {
        return minutes(word);
    };
    Some(minutes(&word[..colon])? + last_seconds(&word[colon + 1..])?)
}

/// The hours that one digit or two write, as most amounts do; none where the word is another.
fn few_hours(word: &[u8]) -> Option<u64>
    ensures value { IfSome result (λ seconds. size_of word.now ≡ Some seconds) }
    ensures bound { IfSome result (λ seconds. seconds ≤ 356_400) }
{
    match word {
        [ones] => Some(3600 * u64::from(digit(*ones)?)),
        [tens, ones] => Some(3600 * u64::from(10 * digit(*tens)? + digit(*ones)?)),
        _ => None,
    }
}

/// Hours; hours and minutes; hours, minutes and seconds.
#[tactic(auto, using(crate::proofs::Sizes::size_is))]
fn size(word: &[u8]) -> Option<u64>
    ensures value { result ≡ size_of word.now }
    ensures bound { IfSome result (λ seconds. seconds ≤ LONGEST_TIME) }
{
    if let Some(seconds) = few_hours(word) {
        return Some(seconds);
    }
    let Some(colon) = place(word, b':') else {
        return hours(word);
    };
    Some(hours(&word[..colon])? + after_hours(&word[colon + 1..])?)
}

/// The bytes before the suffix, and the suffix in lower case; all bytes and 0 where there is none.
fn split_suffix<'a>(word: &'a [u8], letters: &[u8]) -> (&'a [u8], u8)
    ensures front { result.0.now ≡ (suffix_split letters.now word.now).0 }
    ensures suffix { result.1 ≡ (suffix_split letters.now word.now).1 }
{
    let [front @ .., last] = word else {
        return (word, 0);
    };
    let letter = lower_case(*last);
    if is_one_of(letter, letters) {
        return (front, letter);
    }
    (word, 0)
}

/// The amount without a sign, and its suffix.
fn unsigned(word: &[u8], letters: &[u8]) -> Option<(u64, u8)>
    ensures value { result ≡ unsigned_amount letters.now word.now }
    ensures bound { IfSome result (λ amount. amount.0 ≤ LONGEST_TIME) }
{
    let (front, suffix) = split_suffix(word, letters);
    Some((size(front)?, suffix))
}

/// An amount of time: hours, minutes and seconds between colons, rounded to the nearest second, a tie to the even one,
/// with an optional `-` before and one of the letters behind.
///
/// The letters are in lower case, and the suffix may be in either. A lone `-` is 0, and takes no suffix.
#[tactic(auto, unfolding(tz_specs::specs::Amount::amount_of))]
pub fn amount(word: &[u8], letters: &[u8]) -> Option<Amount>
    ensures value { option_map (λ a. (a.seconds, a.suffix)) result ≡ amount_of letters.now word.now }
    ensures bound { IfSome result (λ a. IsTimeOfDay a.seconds) }
{
    match word {
        [] => None,
        [b'-'] => Some(Amount {
            seconds: 0,
            suffix: 0,
        }),
        [b'-', rest @ ..] => {
            let (size, suffix) = unsigned(rest, letters)?;
            Some(Amount {
                seconds: -(size as i64),
                suffix,
            })
        }
        _ => {
            let (size, suffix) = unsigned(word, letters)?;
            Some(Amount {
                seconds: size as i64,
                suffix,
            })
        }
    }
}

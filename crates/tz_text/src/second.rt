//! Times of day as leap texts write them: `HH:MM:SS`, two digits each, in seconds from midnight. What they mean is defined
//! in `tz_specs`.
ghost use Rattle.std.specs.Prelude.{◌≡◌, ◌<◌, ◌≤◌, IfSome};
ghost use Rattle.tz_specs.specs.Parts.{parts_at};
ghost use Rattle.tz_specs.specs.LeapLine.{two_digits_of, second_of_day};
ghost use Rattle.tz_text.specs.SecondOfDay.{last_second_of, minutes_of};

use crate::bytes::place;
use crate::digits::number;

/// A number of two digits that is at most so much.
fn two_digits(word: &[u8], most: u64) -> Option<u64>
    ensures value { result ≡ two_digits_of most word.now }
    ensures bound { IfSome result (λ value. value ≤ most) }
{
    let value = number(word, 2, 2)?;
    if value <= most { Some(value) } else { None }
}

/// The seconds, behind which there is no other colon.
#[tactic(auto, using(crate::proofs::SecondOfDay::second_none))]
fn last_second(word: &[u8]) -> Option<u64>
    ensures value { result ≡ last_second_of (parts_at 0x3a word.now) }
    ensures bound { IfSome result (λ second. second ≤ 59) }
{
    match place(word, b':') {
        Some(_) => None,
        None => two_digits(word, 59),
    }
}

/// The seconds of `MM:SS`.
fn minutes(word: &[u8]) -> Option<u64>
    ensures value { result ≡ minutes_of (parts_at 0x3a word.now) }
    ensures bound { IfSome result (λ seconds. seconds ≤ 3_599) }
{
    let at = place(word, b':')?;
    let second = last_second(&word[at + 1..])?;
    Some(60 * two_digits(&word[..at], 59)? + second)
}

/// The seconds of `HH:MM:SS`, from midnight.
#[tactic(auto, using(crate::proofs::SecondOfDay::parts_of_day))]
pub fn second_of_day(word: &[u8]) -> Option<u64>
    ensures value { result ≡ second_of_day word.now }
    ensures bound { IfSome result (λ seconds. seconds < 86_400) }
{
    let at = place(word, b':')?;
    let later = minutes(&word[at + 1..])?;
    Some(3_600 * two_digits(&word[..at], 23)? + later)
}

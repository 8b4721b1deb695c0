//! The word `YYYY-MM-DDTHH:MM:SS`, after ISO 8601: a civil date and time of day, as a clock in a zone shows them.
ghost use Rattle.std.specs.Prelude.{◌≡◌, ◌≤◌, ◌+◌, [], ◌∷◌, length, IfSome, IsTrue, Some, None, if◌then◌else◌, ◌-◌};
ghost use Rattle.tz_specs.specs.Number.{is_digit, number_of};
ghost use Rattle.tz_specs.specs.CivilWord.{has_civil_marks, digits_at, civil_word};

use crate::digits::digit;
use tz_types::civil_seconds;

/// The number that two digits write.
#[tactic(auto, unfolding(tz_specs::specs::Number::number_of))]
fn two_digits(tens: u8, ones: u8) -> Option<u8>
    ensures value { result ≡ number_of 2 2 (tens ∷ ones ∷ []) }
    ensures bound { IfSome result (λ number. number ≤ 99) }
{
    Some(10 * digit(tens)? + digit(ones)?)
}

/// The number that four digits write, the first of which stands for thousands.
#[tactic(auto, unfolding(tz_specs::specs::Number::number_of))]
fn four_digits(thousands: u8, hundreds: u8, tens: u8, ones: u8) -> Option<u16>
    ensures value { result ≡ number_of 4 4 (thousands ∷ hundreds ∷ tens ∷ ones ∷ []) }
    ensures bound { IfSome result (λ number. number ≤ 9_999) }
{
    let high = two_digits(thousands, hundreds)?;
    let low = two_digits(tens, ones)?;
    Some(100 * u16::from(high) + u16::from(low))
}

/// The number that the two bytes from a place on write.
fn two_at(word: &[u8], place: usize) -> Option<u8>
    requires { place + 2 ≤ length word.now }
    ensures value { result ≡ digits_at place 2 word.now }
    ensures bound { IfSome result (λ number. number ≤ 99) }
{
    two_digits(word[place], word[place + 1])
}

/// The number that the first four bytes write.
fn first_four(word: &[u8]) -> Option<u16>
    requires { 4 ≤ length word.now }
    ensures value { result ≡ digits_at 0 4 word.now }
    ensures bound { IfSome result (λ number. number ≤ 9_999) }
{
    four_digits(word[0], word[1], word[2], word[3])
}

/// The word has the length of a civil word, and its marks between the numbers.
fn has_marks(word: &[u8]) -> bool
    ensures marks { result ≡ has_civil_marks word.now }
    ensures long { IsTrue result → length word.now ≡ 19 }
{
    word.len() == 19
        && word[4] == b'-'
        && word[7] == b'-'
        && word[10] == b'T'
        && word[13] == b':'
        && word[16] == b':'
}

/// The local second that the word names, from 1970-01-01 00:00:00 of the same clock. None comes exactly where it has another
/// form, where the calendar hasn't its date, or where a clock doesn't show its time.
#[tactic(auto, unfolding(tz_specs::specs::CivilWord::civil_word))]
pub fn civil_word(word: &[u8]) -> Option<i64>
    ensures { result ≡ civil_word word.now }
{
    if !has_marks(word) {
        return None;
    }
    let year = first_four(word)?;
    let month = two_at(word, 5)?;
    let day = two_at(word, 8)?;
    let hour = two_at(word, 11)?;
    let minute = two_at(word, 14)?;
    let second = two_at(word, 17)?;
    match civil_seconds(i32::from(year), month, day, hour, minute, second) {
        Ok(l) => Some(l),
        Err(_) => None,
    }
}

//! Numbers in decimal digits.
ghost use Rattle.std.specs.Prelude.{◌≡◌, ◌<◌, ◌≤◌, ◌^◌, ◌-◌, length, IfSome, Some, None, if◌then◌else◌};
ghost use Rattle.std.specs.List.{list_all};
ghost use Rattle.tz_types.specs.Year.{IsWrittenYear};
ghost use Rattle.jiff_core.specs.Calendar.{IsWithin};
ghost use Rattle.tz_specs.specs.Number.{is_digit, decimal_value, number_of, signed_number_of, year_of};

/// The number that one digit writes.
pub fn digit(byte: u8) -> Option<u8>
    ensures value { result ≡ (if is_digit byte then Some (byte - 0x30) else None) }
    ensures bound { IfSome result (λ number. number ≤ 9) }
{
    if byte >= b'0' && byte <= b'9' {
        Some(byte - b'0')
    } else {
        None
    }
}

/// What the digits stand for, where all bytes are digits.
pub fn decimal(word: &[u8]) -> Option<u64>
    requires { length word.now ≤ 15 }
    ensures value { result ≡ (if list_all is_digit word.now then Some (decimal_value word.now) else None) }
    ensures bound { IfSome result (λ value. value < 10 ^ length word.now) }
{
    let mut value = 0;
    for byte in word {
        if !(*byte >= b'0' && *byte <= b'9') {
            return None;
        }
        value = 10 * value + u64::from(*byte - b'0');
    }
    Some(value)
}

/// The number that `least` to `most` digits write.
#[tactic(auto, unfolding(tz_specs::specs::Number::number_of))]
pub fn number(word: &[u8], least: usize, most: usize) -> Option<u64>
    requires { most ≤ 15 }
    ensures value { result ≡ number_of least most word.now }
    ensures bound { IfSome result (λ value. value < 10 ^ most) }
{
    if word.len() < least || word.len() > most {
        return None;
    }
    decimal(word)
}

/// A year: an optional `-` and one to nine digits, and nothing else.
#[tactic(auto, unfolding(tz_specs::specs::Number::signed_number_of))]
pub fn year(word: &[u8]) -> Option<i32>
    ensures value { result ≡ year_of word.now }
    ensures bound { IfSome result IsWrittenYear }
{
    match word {
        [b'-', digits @ ..] => Some(-(number(digits, 1, 9)? as i32)),
        _ => Some(number(word, 1, 9)? as i32),
    }
}

/// A number of a command line: an optional `-` and one to fifteen digits, and nothing else.
#[tactic(auto, unfolding(tz_specs::specs::Number::signed_number_of))]
pub fn signed_number(word: &[u8]) -> Option<i64>
    ensures value { result ≡ signed_number_of 1 15 word.now }
    ensures bound { IfSome result (IsWithin 999_999_999_999_999) }
{
    match word {
        [b'-', digits @ ..] => Some(-(number(digits, 1, 15)? as i64)),
        _ => Some(number(word, 1, 15)? as i64),
    }
}

//! Local times as words name them: a number of seconds, or a civil date and time of day.
ghost use Rattle.std.specs.Prelude.{◌≡◌};
ghost use Rattle.tz_text.specs.LocalTime.{local_time_of};

use crate::civil_word::civil_word;
use crate::digits::signed_number;

/// The local time that a word names: a number of seconds from 1970-01-01 00:00:00 of the same clock, or a civil date and time
/// of day.
pub fn local_time(word: &[u8]) -> Option<i64>
    ensures { result ≡ local_time_of word.now }
{
    match signed_number(word) {
        Some(number) => Some(number),
        None => civil_word(word),
    }
}

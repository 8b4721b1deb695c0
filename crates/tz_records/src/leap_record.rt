//! What a line of a leap text says that isn't blank, and the kinds of such lines, after zic(8), "Leap lines". Moments are in
//! seconds from 1970-01-01 00:00:00.
ghost use Rattle.std.specs.Prelude.{◌≡◌, option_map};
ghost use Rattle.tz_specs.specs.LeapLine.{leap_kind_of, has_leap_count};
ghost use Rattle.tz_records.specs.LeapRecord.{kind_meant};

use tz_text::named;
use tz_types::LeapEntry;

const KEYWORDS: &[u8] = b"Leap Expires";

/// A leap second, or the moment from which the table isn't known to hold.
#[derive(Clone, Copy, Debug, PartialEq, Eq, Hash)]
pub enum LeapRecord {
    Second(LeapEntry),
    Expiry(i64),
}

/// Which of the two a line says.
#[derive(Clone, Copy)]
pub enum LeapKind {
    Second,
    Expiry,
}

impl LeapKind {
    /// The kind that a keyword names.
    pub fn named(word: &[u8]) -> Option<LeapKind>
        ensures { option_map kind_meant result ≡ leap_kind_of word.now }
    {
        match named(word, KEYWORDS)? {
            0 => Some(LeapKind::Second),
            1 => Some(LeapKind::Expiry),
            _ => None,
        }
    }

    /// Whether a record of this kind has so many fields.
    pub fn has_count(self, count: usize) -> bool
        ensures { result ≡ has_leap_count (kind_meant self) count }
    {
        match self {
            LeapKind::Second => count == 7,
            LeapKind::Expiry => count == 5,
        }
    }
}

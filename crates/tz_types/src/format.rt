//! Formats of abbreviations (zic(8), "Zone lines", FORMAT).
use crate::Abbrev;

/// How a line's abbreviation is written.
#[derive(Debug, PartialEq, Drop)]
pub enum Format {
    /// The abbreviation itself.
    Text(Abbrev),
    /// A text with the rule's letters in the place of `%s`.
    Letters { before: Abbrev, after: Abbrev },
    /// A text with the offset in the place of `%z`.
    Offset { before: Abbrev, after: Abbrev },
    /// One abbreviation for standard time and one for daylight time.
    Pair { standard: Abbrev, daylight: Abbrev },
}

//! The kinds of records, and how many fields each has.
ghost use Rattle.std.specs.Prelude.{◌≡◌, ℕ, ◌<◌, List, option_map};
ghost use Rattle.tz_text.specs.Kept.{kept_of};
ghost use Rattle.tz_specs.specs.Record.{kind_of_record, has_count};
ghost use Rattle.tz_records.specs.Kind.{kind_told, kind_named};

use tz_text::{Fields, named_among};

const KEYWORDS: [&[u8]; 3] = [b"Rule", b"Zone", b"Link"];

/// What a line that isn't blank is.
#[derive(Clone, Copy)]
pub enum Kind {
    Rule,
    Zone,
    Link,
    Continuation,
}

impl Kind {
    /// The kind that a keyword names.
    #[tactic(auto, unfolding(tz_specs::specs::Word::named_entry))]
    fn named(word: &[u8]) -> Option<Kind>
        ensures { option_map kind_told result ≡ kind_named word.now }
    {
        match named_among(word, &KEYWORDS)? {
            0 => Some(Kind::Rule),
            1 => Some(Kind::Zone),
            2 => Some(Kind::Link),
            _ => None,
        }
    }

    /// The kind of a record, which continues the zone before it where that waits for a line.
    #[tactic(auto, using(crate::proofs::KindLines::first_kept))]
    pub fn of_fields(fields: &Fields<'_>, waits: bool) -> Option<Kind>
        requires { 0 < fields.now.count }
        ensures { (all : List (List ℕ)) → kept_of all ≡ fields.now → option_map kind_told result ≡ kind_of_record waits all }
    {
        if waits {
            return Some(Kind::Continuation);
        }
        Kind::named(fields.get(0))
    }

    /// Whether a record of this kind has so many fields.
    pub fn has_count(self, count: usize) -> bool
        ensures { result ≡ has_count (kind_told self) count }
    {
        match self {
            Kind::Rule => count == 10,
            Kind::Zone => count >= 5 && count <= 9,
            Kind::Link => count == 3,
            Kind::Continuation => count >= 3 && count <= 7,
        }
    }
}

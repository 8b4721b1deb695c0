//! What versions are made from.
ghost use Rattle.std.specs.Prelude.{◌≡◌, ◌≤◌, ◌↔◌, length, IsSome, IfSome};
ghost use Rattle.tz_types.specs.declared.limit.TheConstants.{MOST_BYTES};
ghost use Rattle.tz_version.specs.declared.sources.TheConstants.{MOST_SOURCES};

use tz_types::{Items, MOST_BYTES, Source, Text};

/// The most sources that come together.
pub const MOST_SOURCES: usize = 64;

/// One to 64 sources, each of one release, and the leap text of all of them, of at most 4,194,304 bytes.
#[derive(Debug, PartialEq, Drop)]
pub struct Sources {
    pub texts: Items<Source>,
    pub leaps: Text,
    pub ghost some_text: { 1 ≤ length texts },
    pub ghost few_texts: { length texts ≤ MOST_SOURCES },
    pub ghost few_bytes: { length leaps ≤ MOST_BYTES },
}

impl Sources {
    ghost use Rattle.tz_version.specs.Sources.{FitsSources};
    ghost use Rattle.tz_version.specs.declared.sources.Sources.{Sources};

    /// These sources with their leap text. None comes exactly where there are no sources, more than 64, or more than 4,194,304
    /// bytes in the leap text.
    pub fn new(texts: Items<Source>, leaps: Text) -> Option<Self>
        ensures texts { IfSome result (λ (sources : Sources). sources.texts ≡ texts) }
        ensures leaps { IfSome result (λ (sources : Sources). sources.leaps ≡ leaps) }
        ensures exactly { IsSome result ↔ FitsSources texts leaps }
    {
        if texts.is_empty() || texts.len() > MOST_SOURCES || leaps.len() > MOST_BYTES {
            return None;
        }
        Some(Sources { texts, leaps })
    }
}

//! Small texts of visible ASCII: names, letters, abbreviations and versions.
ghost use Rattle.std.specs.Prelude.{◌≡◌, ◌≤◌, ◌↔◌, [], length, IsTrue, IsOk, IfOk};
ghost use Rattle.std.specs.List.{list_all};
ghost use Rattle.tz_types.specs.Text.{is_printable, IsText};

use crate::limit::{LONGEST_ABBREVIATION, LONGEST_LETTERS, LONGEST_NAME, LONGEST_VERSION};
use arrayvec::ArrayVec;
use std::error::Error;
use std::fmt;
use std::marker::Model;

/// The bytes are no such text: too few, too many, or one outside 0x21 to 0x7E.
#[derive(Clone, Copy, Debug, PartialEq, Eq, Hash)]
pub struct TextError;

impl fmt::Display for TextError {
    ghost use Rattle.std.specs.Prelude.{Some, codes};

    ghost output = { λ _. Some (codes "not a printable text of this length") };

    fn fmt<W: fmt::Write>(&self, f: &mut fmt::Formatter<W>) -> fmt::Result {
        f.write_str("not a printable text of this length")
    }
}

impl Error for TextError {}

/// A text of `LEAST` to `MOST` bytes, all from 0x21 to 0x7E, kept in place without an allocation.
#[derive(Debug, PartialEq, Eq, PartialOrd, Ord, Hash, Drop)]
pub struct PrintableText<const LEAST: usize, const MOST: usize> {
    bytes: ArrayVec<u8, MOST>,
}

/// The name of a zone, a link or a rule set.
pub type Label = PrintableText<1, LONGEST_NAME>;

/// The letters that a rule puts in place of `%s`.
pub type Letters = PrintableText<0, LONGEST_LETTERS>;

/// An abbreviation, or a part of a format.
pub type Abbrev = PrintableText<0, LONGEST_ABBREVIATION>;

/// The version that a text names in its first line.
pub type VersionText = PrintableText<1, LONGEST_VERSION>;

impl<const LEAST: usize, const MOST: usize> Model for PrintableText<LEAST, MOST> {
    ghost use Rattle.std.specs.Prelude.{List, ℕ};
    ghost use Rattle.tz_types.specs.Text.{IsText};

    ghost Value = { List ℕ };

    ghost view = { λ t. t.bytes.items };

    ghost invariant = { λ t. IsText LEAST MOST t.bytes.items };

    ghost inverse = { λ xs. record { bytes = record { items = xs } } };
}

impl<const LEAST: usize, const MOST: usize> PrintableText<LEAST, MOST> {
    /// The text of these bytes. `TextError` comes exactly where they are no such text.
    pub fn new(bytes: &[u8]) -> Result<Self, TextError>
        ensures accepted { IsOk result ↔ IsText LEAST MOST bytes.now }
        ensures value { IfOk result (λ t. t ≡ bytes.now) }
    {
        if bytes.len() < LEAST || !are_printable(bytes) {
            return Err(TextError);
        }
        let mut kept = ArrayVec::new();
        match kept.try_extend_from_slice(bytes) {
            Ok(()) => Ok(PrintableText { bytes: kept }),
            Err(_) => Err(TextError),
        }
    }

    /// The bytes.
    pub fn as_bytes(&self) -> &[u8]
        ensures bytes { result.now ≡ self.now }
        ensures text { IsText LEAST MOST result.now }
    {
        self.bytes.as_slice()
    }

    /// The same text again, without an allocation.
    pub fn copied(&self) -> Self
        ensures { result ≡ self.now }
    {
        let mut kept = ArrayVec::new();
        let _ = kept.try_extend_from_slice(self.bytes.as_slice());
        PrintableText { bytes: kept }
    }
}

impl<const MOST: usize> PrintableText<0, MOST> {
    /// The text without bytes.
    pub fn empty() -> Self
        ensures { result ≡ [] }
    {
        PrintableText {
            bytes: ArrayVec::new(),
        }
    }
}

fn are_printable(bytes: &[u8]) -> bool
    ensures { result ≡ list_all is_printable bytes.now }
{
    bytes.iter().all(|b| *b >= 0x21 && *b <= 0x7e)
}

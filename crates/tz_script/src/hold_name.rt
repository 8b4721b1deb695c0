//! The names of holds.
ghost use Rattle.std.specs.Prelude.{◌≡◌};
ghost use Rattle.std.specs.List.{list_all};
ghost use Rattle.tz_specs.specs.Choice.{only_if};
ghost use Rattle.tz_script.specs.HoldName.{is_letter_or_digit, is_front, is_hold_name};

use crate::limit::LONGEST_HOLD_NAME;
use crate::words::is_exactly;
use std::marker::Model;
use tz_types::PrintableText;

/// The name of a hold: 1 to 16 ASCII letters and digits, other than `front`.
#[derive(Debug, PartialEq, Eq, PartialOrd, Ord, Hash, Drop)]
pub struct HoldName {
    text: PrintableText<1, LONGEST_HOLD_NAME>,
}

impl Model for HoldName {
    ghost use Rattle.std.specs.Prelude.{List, ℕ, IsTrue};
    ghost use Rattle.tz_script.specs.HoldName.{is_hold_name};

    ghost Value = { List ℕ };

    ghost view = { λ name. name.text };

    ghost invariant = { λ name. IsTrue (is_hold_name name.text) };

    ghost inverse = { λ word. record { text = word } };
}

impl HoldName {
    /// The name that the word is. None comes exactly where it is no name of a hold.
    pub fn new(word: &[u8]) -> Option<Self>
        ensures { result ≡ only_if (is_hold_name word.now) word.now }
    {
        if !are_letters_or_digits(word) || is_front(word) {
            return None;
        }
        match PrintableText::new(word) {
            Ok(text) => Some(HoldName { text }),
            Err(_) => None,
        }
    }

    /// The bytes.
    pub fn as_bytes(&self) -> &[u8]
        ensures { result.now ≡ self.now }
    {
        self.text.as_bytes()
    }

    /// The same name again, without an allocation.
    pub fn copied(&self) -> Self
        ensures { result ≡ self.now }
    {
        HoldName {
            text: self.text.copied(),
        }
    }
}

/// Whether the word stands for the version at the front of the list.
pub fn is_front(word: &[u8]) -> bool
    ensures { result ≡ is_front word.now }
{
    is_exactly(word, b"front")
}

fn are_letters_or_digits(word: &[u8]) -> bool
    ensures { result ≡ list_all is_letter_or_digit word.now }
{
    word.iter().all(|byte| {
        (*byte >= b'A' && *byte <= b'Z')
            || (*byte >= b'a' && *byte <= b'z')
            || (*byte >= b'0' && *byte <= b'9')
    })
}

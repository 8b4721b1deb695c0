//! The words of `batch`.
ghost use Rattle.std.specs.Prelude.{◌≡◌, ◌≤◌, IsTrue, IsNone, IfSome};
ghost use Rattle.pin_book.specs.declared.limits.TheConstants.{FEWEST_SLOTS as fewest, MOST_SLOTS as most};
ghost use Rattle.tz_words.specs.BatchCommand.{slot_count_of, name_texts, are_texts};

use crate::text_word::TextWord;
use pin_book::{FEWEST_SLOTS, MOST_SLOTS};
use tz_script::LAST_SOURCE;
use tz_text::number;

/// A batch, with what its words name. Each word of a text is taken apart again when the text is read, so that matching
/// the words takes no memory.
#[derive(Clone, Copy)]
pub struct BatchLine<'w> {
    pub script: &'w str,
    pub slots: u32,
    pub leaps: &'w str,
    pub texts: &'w [String],
    pub ghost some_slots: { fewest ≤ slots },
    pub ghost few_slots: { slots ≤ most },
    pub ghost texts_fit: { IsTrue (are_texts texts.now) },
}

impl<'w> BatchLine<'w> {
    ghost use Rattle.tz_words.specs.BatchCommand.{BatchCommand, IsBatchCommand};
    ghost use Rattle.tz_words.specs.Command.{words_of, batch_meant};

    /// The batch that the words stand for. None comes exactly where they aren't `batch SCRIPT SLOTS LEAPS TEXT..`. It
    /// takes no memory.
    pub fn new(words: &'w [String]) -> Option<Self>
        ensures some { IfSome result (λ line. IsBatchCommand (words_of words.now) (batch_meant line)) }
        ensures none { IsNone result → (batch : BatchCommand) → ¬ (IsBatchCommand (words_of words.now) batch) }
    {
        match words {
            [keyword, script, number, leaps, texts @ ..] => {
                if keyword.as_str() != "batch" || !are_texts(texts) {
                    return None;
                }
                match slot_count(number.as_bytes()) {
                    Some(slots) => Some(BatchLine {
                        script: script.as_str(),
                        slots,
                        leaps: leaps.as_str(),
                        texts,
                    }),
                    None => None,
                }
            }
            _ => None,
        }
    }
}

/// How many slots a word asks for: one to fifteen digits, whose value is one that a list may have.
fn slot_count(word: &[u8]) -> Option<u32>
    ensures value { result ≡ slot_count_of word.now }
    ensures range { IfSome result (λ slots. (fewest ≤ slots) × (slots ≤ most)) }
{
    let count = number(word, 1, 15)?;
    if count < u64::from(FEWEST_SLOTS) || count > u64::from(MOST_SLOTS) {
        return None;
    }
    Some(count as u32)
}

/// Whether each word names a text.
fn name_texts(words: &[String]) -> bool
    ensures { result ≡ name_texts words.now }
{
    for word in words {
        if TextWord::new(word.as_str()).is_none() {
            return false;
        }
    }
    true
}

/// Whether these are one to 64 words, as many as a script has numbers for, each of which names a text.
fn are_texts(words: &[String]) -> bool
    ensures { result ≡ are_texts words.now }
{
    !words.is_empty() && words.len() <= LAST_SOURCE as usize + 1 && name_texts(words)
}

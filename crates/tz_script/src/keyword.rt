//! The words of the operations.
ghost use Rattle.std.specs.Prelude.{◌≡◌};
ghost use Rattle.tz_script.specs.Keyword.{keyword_of};

use crate::words::is_exactly;

/// An operation without its operands.
#[derive(Clone, Copy, Debug, PartialEq, Eq)]
pub enum Keyword {
    Look,
    Hold,
    Drop,
    Info,
    Local,
    Sys,
    Scan,
    Clock,
    Reload,
    Erase,
    List,
}

impl Keyword {
    /// The operation that the word names.
    pub fn from_word(word: &[u8]) -> Option<Self>
        ensures { result ≡ keyword_of word.now }
    {
        if is_exactly(word, b"look") {
            Some(Keyword::Look)
        } else if is_exactly(word, b"hold") {
            Some(Keyword::Hold)
        } else if is_exactly(word, b"drop") {
            Some(Keyword::Drop)
        } else if is_exactly(word, b"info") {
            Some(Keyword::Info)
        } else if is_exactly(word, b"local") {
            Some(Keyword::Local)
        } else if is_exactly(word, b"sys") {
            Some(Keyword::Sys)
        } else if is_exactly(word, b"scan") {
            Some(Keyword::Scan)
        } else if is_exactly(word, b"clock") {
            Some(Keyword::Clock)
        } else if is_exactly(word, b"reload") {
            Some(Keyword::Reload)
        } else if is_exactly(word, b"erase") {
            Some(Keyword::Erase)
        } else if is_exactly(word, b"list") {
            Some(Keyword::List)
        } else {
            None
        }
    }
}

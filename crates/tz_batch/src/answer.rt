//! Answers to operations.
ghost use Rattle.std.specs.Prelude.{◌≡◌, ◌++◌, codes, OnOk};
ghost use Rattle.std.specs.List.{flat_map};
ghost use Rattle.tz_batch.specs.OutcomeText.{version_text, of_several, refusal_text, row_text, answer_text, finding_word, finding_text};
ghost use Rattle.tz_lookup.specs.Found.{after_space};

use crate::listing::Listing;
use crate::row::put_rows;
use crate::word::put_word;
use tz_lookup::{Found, put_after_space, put_found, put_natural};
use tz_types::NoMemory;

/// What is answered to an operation. A version is told by its number `n` and its slot.
#[derive(Debug, PartialEq, Drop)]
pub enum Answer {
    /// The version at the front.
    Front { n: u32, slot: u32 },
    /// The version that a hold now holds.
    Held { n: u32, slot: u32 },
    /// The version that a hold has let go.
    Dropped { n: u32, slot: u32 },
    /// The version that a reload has put at the front.
    Pushed { n: u32, slot: u32 },
    /// The version at the front, which has the name of the one that was to be loaded already.
    Same { n: u32 },
    /// No slot was free for the version that was to be loaded.
    Full,
    /// Why the source or the leap text is refused: the file, which is 0 where there is one alone, the line, counted
    /// from 1, and the number of the cause.
    Refused { file: u32, line: u32, cause: u8 },
    /// The version behind which one was erased, and the number of that one.
    Erased { n: u32, slot: u32, gone: u32 },
    /// Nothing is listed behind this version.
    Nothing { n: u32, slot: u32 },
    /// This version isn't listed.
    NotListed { n: u32, slot: u32 },
    /// The versions that are listed.
    Listed(Listing),
    /// What was found in this version.
    On { n: u32, slot: u32, found: Found },
}

/// Puts a version's number and its slot at the end of a text.
fn put_version(out: &mut Vec<u8>, n: u32, slot: u32) -> Result<(), NoMemory>
    ensures { OnOk result (out.new.items ≡ out.old.items ++ version_text n slot) }
{
    put_natural(out, u64::from(n))?;
    put_after_space(out, slot)
}

/// Puts a word, then a version, at the end of a text.
fn put_word_first(out: &mut Vec<u8>, word: &[u8], n: u32, slot: u32) -> Result<(), NoMemory>
    ensures { OnOk result (out.new.items ≡ out.old.items ++ (word.now ++ version_text n slot)) }
{
    out.extend_from_slice(word)?;
    put_version(out, n, slot)
}

/// Puts a version, then a word, at the end of a text.
fn put_word_last(out: &mut Vec<u8>, n: u32, slot: u32, word: &[u8]) -> Result<(), NoMemory>
    ensures { OnOk result (out.new.items ≡ out.old.items ++ (version_text n slot ++ word.now)) }
{
    put_version(out, n, slot)?;
    out.extend_from_slice(word)?;
    Ok(())
}

/// Puts ` in F` at the end of a text, where the fault is in a file of that number.
fn put_file(out: &mut Vec<u8>, file: u32) -> Result<(), NoMemory>
    ensures { OnOk result (out.new.items ≡ out.old.items ++ of_several file) }
{
    if file == 0 {
        return Ok(());
    }
    out.extend_from_slice(b" in")?;
    put_after_space(out, file)
}

/// Puts a word and why something is refused at the end of a text.
#[tactic(auto, unfolding(crate::specs::OutcomeText::refusal_text))]
fn put_refusal(out: &mut Vec<u8>, file: u32, line: u32, cause: u8) -> Result<(), NoMemory>
    ensures { OnOk result (out.new.items ≡ out.old.items ++ refusal_text file line cause) }
{
    out.extend_from_slice(b"refused")?;
    put_after_space(out, line)?;
    put_after_space(out, u32::from(cause))?;
    put_file(out, file)
}

/// Puts a version, and the number of the one that was erased behind it, at the end of a text.
fn put_erased(out: &mut Vec<u8>, n: u32, slot: u32, gone: u32) -> Result<(), NoMemory>
    ensures { OnOk result (out.new.items ≡ out.old.items ++ (version_text n slot ++ codes " erased" ++ after_space gone)) }
{
    put_word_last(out, n, slot, b" erased")?;
    put_after_space(out, gone)
}

/// The word before what is found, where its spelling has none of its own.
fn finding_word(found: &Found) -> &'static [u8]
    ensures { result.now ≡ finding_word found.now }
{
    match found {
        Found::Info(_) => b"info ",
        Found::Clock(_) | Found::Leap(_) => b"clock ",
        _ => b"",
    }
}

/// Puts what was found, behind its word, at the end of a text.
fn put_finding(out: &mut Vec<u8>, found: &Found) -> Result<(), NoMemory>
    ensures { OnOk result (out.new.items ≡ out.old.items ++ finding_text found.now) }
{
    out.extend_from_slice(finding_word(found))?;
    put_found(out, found)
}

/// Puts a version, and what was found in it, at the end of a text.
fn put_on(out: &mut Vec<u8>, n: u32, slot: u32, found: &Found) -> Result<(), NoMemory>
    ensures { OnOk result (out.new.items ≡ out.old.items ++ (version_text n slot ++ codes " " ++ finding_text found.now)) }
{
    put_word_last(out, n, slot, b" ")?;
    put_finding(out, found)
}

/// Puts a word and the versions that are listed at the end of a text.
fn put_listing(out: &mut Vec<u8>, listing: &Listing) -> Result<(), NoMemory>
    ensures { OnOk result (out.new.items ≡ out.old.items ++ (codes "list" ++ flat_map row_text listing.now.rows)) }
{
    out.extend_from_slice(b"list")?;
    put_rows(out, listing.rows.as_slice())
}

/// Puts `same` and the front's number at the end of a text.
fn put_same(out: &mut Vec<u8>, n: u32) -> Result<(), NoMemory>
    ensures { OnOk result (out.new.items ≡ out.old.items ++ (codes "same" ++ after_space n)) }
{
    out.extend_from_slice(b"same")?;
    put_after_space(out, n)
}

/// Puts an answer at the end of a text.
pub fn put_answer(out: &mut Vec<u8>, answer: &Answer) -> Result<(), NoMemory>
    ensures { OnOk result (out.new.items ≡ out.old.items ++ answer_text answer.now) }
{
    match answer {
        Answer::Front { n, slot } => put_word_first(out, b"front ", *n, *slot),
        Answer::Held { n, slot } => put_word_first(out, b"held ", *n, *slot),
        Answer::Dropped { n, slot } => put_word_first(out, b"dropped ", *n, *slot),
        Answer::Pushed { n, slot } => put_word_first(out, b"pushed ", *n, *slot),
        Answer::Same { n } => put_same(out, *n),
        Answer::Full => put_word(out, b"full"),
        Answer::Refused { file, line, cause } => put_refusal(out, *file, *line, *cause),
        Answer::Erased { n, slot, gone } => put_erased(out, *n, *slot, *gone),
        Answer::Nothing { n, slot } => put_word_last(out, *n, *slot, b" nothing"),
        Answer::NotListed { n, slot } => put_word_last(out, *n, *slot, b" notlisted"),
        Answer::Listed(listing) => put_listing(out, listing),
        Answer::On { n, slot, found } => put_on(out, *n, *slot, found),
    }
}

//! Words cut short, and the entry of a table that one names (zic(8), "Input files").
ghost use Rattle.std.specs.Prelude.{◌≡◌, ℕ, false, List, [], ◌∷◌, map};
ghost use Rattle.tz_specs.specs.Word.{begins_entry, only_one, places_from, named_entry};
ghost use Rattle.tz_text.specs.Places.{only_with};

use crate::bytes::{begins_with, lower_case, place};

/// Whether the word is a nonempty prefix of the entry, ASCII case aside. Most entries of a table differ from a word in their
/// first letters, so these are looked at before anything else.
fn begins(word: &[u8], entry: &[u8]) -> bool
    ensures { result ≡ begins_entry word.now entry.now }
{
    match (word, entry) {
        ([first, ..], [letter, ..]) if lower_case(*first) == lower_case(*letter) => {
            begins_with(entry, word)
        }
        _ => false,
    }
}

/// Whether the entry may begin with this letter, ASCII case aside, which changes none of a letter's last five bits. Most entries
/// of a table don't, so this is asked before anything else.
fn may_begin(first: u8, entry: &[u8]) -> bool
    ensures { result ≡ false → (word : List ℕ) → begins_entry (first ∷ word) entry.now ≡ false }
{
    match entry {
        [letter, ..] => *letter % 32 == first % 32,
        [] => false,
    }
}

/// The place, from 0, of the one of these entries that the word names: it is a nonempty prefix of that entry and of no other,
/// ASCII case aside.
pub fn named_among(word: &[u8], entries: &[&[u8]]) -> Option<usize>
    ensures { result ≡ only_one (places_from 0 word.now (map (λ entry. entry.now) entries.now)) }
{
    let [first, ..] = word else {
        return None;
    };
    let mut found = None;
    let mut place = 0;
    let mut rest = entries;
    while let [entry, later @ ..] = rest {
        if may_begin(*first, entry) && begins_with(entry, word) {
            found = match found {
                None => Some(place),
                Some(_) => return None,
            };
        }
        place += 1;
        rest = later;
    }
    found
}

/// The place, from 0, of the one entry that the word names: it is a nonempty prefix of that entry and of no other,
/// ASCII case aside. A table has its entries with one space between neighbours.
#[tactic(auto, unfolding(tz_specs::specs::Word::named_entry))]
pub fn named(word: &[u8], table: &[u8]) -> Option<usize>
    ensures { result ≡ named_entry word.now table.now }
{
    let mut found = None;
    let mut entry = 0;
    let mut rest = table;
    while let Some(space) = place(rest, b' ') {
        if begins(word, &rest[..space]) {
            if found.is_some() {
                return None;
            }
            found = Some(entry);
        }
        entry += 1;
        rest = &rest[space + 1..];
    }
    if begins(word, rest) {
        return if found.is_some() { None } else { Some(entry) };
    }
    found
}

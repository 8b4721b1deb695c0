//! Bytes of words: letters in one case, and where one stands.
ghost use Rattle.std.specs.Prelude.{◌≡◌, ◌<◌, ◌≤◌, ◌==◌, length, nat_eq, position, IfSome, IsTrue};
ghost use Rattle.std.specs.List.{list_all, list_any, starts_with, zip};
ghost use Rattle.tz_specs.specs.Word.{lower, lowered};
ghost use Rattle.tz_specs.specs.Parts.{parts_at};
ghost use Rattle.tz_text.specs.Marks.{parts_round};

/// An ASCII letter in lower case, and any other byte as it is.
pub fn lower_case(byte: u8) -> u8
    ensures { result ≡ lower byte }
{
    if byte >= b'A' && byte <= b'Z' {
        byte + 0x20
    } else {
        byte
    }
}

/// The place of the first such byte. The parts of the word lie on both sides of it.
pub fn place(word: &[u8], mark: u8) -> Option<usize>
    ensures parts { parts_at mark word.now ≡ parts_round result mark word.now }
    ensures bound { IfSome result (λ at. at < length word.now) }
{
    first_place(word, mark)
}

/// The place of the first such byte.
fn first_place(word: &[u8], mark: u8) -> Option<usize>
    ensures value { result ≡ position (λ byte. byte == mark) word.now }
    ensures bound { IfSome result (λ at. at < length word.now) }
{
    word.iter().position(|byte| *byte == mark)
}

/// Whether the byte is one of them.
pub fn is_one_of(byte: u8, letters: &[u8]) -> bool
    ensures { result ≡ list_any (λ letter. byte == letter) letters.now }
{
    letters.iter().any(|letter| byte == *letter)
}

/// Whether the text begins with the prefix, ASCII case aside.
#[tactic(auto, using(crate::proofs::Prefixes::alike_prefix, crate::proofs::Prefixes::alike_short))]
pub fn begins_with(text: &[u8], prefix: &[u8]) -> bool
    ensures value { result ≡ starts_with nat_eq (lowered text.now) (lowered prefix.now) }
    ensures within { IsTrue result → length prefix.now ≤ length text.now }
{
    if text.len() < prefix.len() {
        return false;
    }
    are_alike(prefix, text)
}

/// Whether the two are alike, ASCII case aside, as far as the shorter goes.
fn are_alike(first: &[u8], second: &[u8]) -> bool
    ensures { result ≡ list_all (λ pair. lower pair.0 == lower pair.1) (zip first.now second.now) }
{
    first
        .iter()
        .zip(second)
        .all(|(a, b)| lower_case(*a) == lower_case(*b))
}

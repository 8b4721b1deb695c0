//! The words of a line.
ghost use Rattle.std.specs.Prelude.{◌≡◌, not, [], ◌∷◌, IsNone, IfSome};
ghost use Rattle.std.specs.List.{list_all, position};
ghost use Rattle.tz_specs.specs.Value.{is_exactly};
ghost use Rattle.tz_script.specs.Words.{is_space, is_hash, is_script_byte, before_comment, script_words, is_bad_line};

use crate::limit::LONGEST_LINE;

/// Whether the word has exactly these bytes.
pub fn is_exactly(word: &[u8], bytes: &[u8]) -> bool
    ensures { result ≡ is_exactly word.now bytes.now }
{
    word == bytes
}

/// Whether the byte separates words: a space, a tab or a carriage return.
fn is_space(byte: u8) -> bool
    ensures { result ≡ is_space byte }
{
    byte == b' ' || byte == b'\t' || byte == b'\r'
}

fn space_place(text: &[u8]) -> Option<usize>
    ensures { result ≡ position is_space text.now }
{
    text.iter().position(|byte| is_space(*byte))
}

fn word_place(text: &[u8]) -> Option<usize>
    ensures { result ≡ position (λ byte. not (is_space byte)) text.now }
{
    text.iter().position(|byte| !is_space(*byte))
}

fn comment_place(line: &[u8]) -> Option<usize>
    ensures { result ≡ position is_hash line.now }
{
    line.iter().position(|byte| *byte == b'#')
}

/// What stands before the comment.
pub fn before_comment(line: &[u8]) -> &[u8]
    ensures { result.now ≡ before_comment line.now }
{
    match comment_place(line) {
        Some(place) => &line[..place],
        None => line,
    }
}

/// The first word, and what follows it.
pub fn next_word(text: &[u8]) -> Option<(&[u8], &[u8])>
    ensures some { IfSome result (λ cut. script_words text.now ≡ cut.0.now ∷ script_words cut.1.now) }
    ensures none { IsNone result → script_words text.now ≡ [] }
{
    let begin = word_place(text)?;
    let rest = &text[begin..];
    match space_place(rest) {
        Some(end) => Some((&rest[..end], &rest[end + 1..])),
        None => Some((rest, &rest[rest.len()..])),
    }
}

fn are_plain(bytes: &[u8]) -> bool
    ensures { result ≡ list_all is_script_byte bytes.now }
{
    bytes
        .iter()
        .all(|byte| (*byte >= 0x21 && *byte <= 0x7e) || is_space(*byte))
}

/// Whether the line is longer than 512 bytes with its newline, or has a byte that may stand in a comment alone.
pub fn is_bad_line(line: &[u8]) -> bool
    ensures { result ≡ is_bad_line line.now }
{
    line.len() + 1 > LONGEST_LINE || !are_plain(before_comment(line))
}

//! Where runs of bytes of one kind end.
ghost use Rattle.std.specs.Prelude.{◌≡◌, ◌≢◌, ◌∷◌, ℕ, List, [], ◌++◌, ◌+◌, ◌<◌, ◌≤◌, length, drop, false, IsTrue, IfOk, OnErr, None, slice_index, slice_range};
ghost use Rattle.tz_specs.specs.Field.{is_white, is_plain, hash, quote, fields_from, Between, Inside, Quoted};
ghost use Rattle.tz_text.specs.Piece.{IsPiece, EndsField, BeginsPiece};

use super::OpenQuote;

/// A run of plain bytes, or a quoted piece without its quotes: the bytes from `start` to `end`.
#[derive(Clone, Copy)]
pub(super) struct Piece {
    pub start: usize,
    pub end: usize,
    /// Where the line goes on after the piece.
    pub after: usize,
    /// Whether the field ends there too.
    pub last: bool,
}

/// Space, tab, newline, vertical tab, form feed or carriage return.
fn is_white(byte: u8) -> bool
    ensures { result ≡ is_white byte }
{
    byte <= b' ' && (byte == b' ' || (byte >= 0x09 && byte <= 0x0d))
}

/// No white space, `#` or quote. Nearly all bytes of a line are greater than these, so this is asked first.
fn is_plain(byte: u8) -> bool
    ensures { result ≡ is_plain byte }
{
    byte > b'#' || (byte != b'#' && byte != b'"' && !is_white(byte))
}

/// The first byte from `from` on that is no white space, or the end.
#[tactic(auto, using(crate::proofs::Steps::white_at))]
pub(super) fn skip_white(line: &[u8], from: usize) -> usize
    requires { from ≤ length line.now }
    ensures onwards { from ≤ result }
    ensures within { result ≤ length line.now }
    ensures same { fields_from Between [] (drop from line.now) ≡ fields_from Between [] (drop result line.now) }
    ensures stop { result < length line.now → is_white (slice_index line.now result) ≡ false }
{
    let mut index = from;
    while index < line.len() && is_white(line[index]) {
        index += 1;
    }
    index
}

/// Whether no field goes on at `index`.
#[tactic(auto, using(crate::proofs::Steps::ending_at_end, crate::proofs::Steps::ending_at_white, crate::proofs::Steps::ending_at_hash))]
pub(super) fn ends_field(line: &[u8], index: usize) -> bool
    ensures ends { IsTrue result → EndsField line.now index }
    ensures goes_on { result ≡ false → BeginsPiece line.now index }
{
    index >= line.len() || line[index] == b'#' || is_white(line[index])
}

/// The piece that begins at `index`. `OpenQuote` comes exactly where it is a quoted piece that isn't closed.
pub(super) fn piece_at(line: &[u8], index: usize) -> Result<Piece, OpenQuote>
    requires { BeginsPiece line.now index }
    ensures ok { IfOk result (λ piece. IsPiece line.now index piece) }
    ensures err { OnErr result ((field : List ℕ) → fields_from Inside field (drop index line.now) ≡ None) }
{
    if line[index] == b'"' {
        let end = quote_end(line, index + 1)?;
        Ok(Piece {
            start: index + 1,
            end,
            after: end + 1,
            last: ends_field(line, end + 1),
        })
    } else {
        let end = plain_end(line, index);
        Ok(Piece {
            start: index,
            end,
            after: end,
            last: ends_run(line, end),
        })
    }
}

/// Where the run of plain bytes ends that begins at `from`.
#[tactic(auto, using(crate::proofs::Steps::plain_more, crate::proofs::Steps::plain_first))]
fn plain_end(line: &[u8], from: usize) -> usize
    requires begins { BeginsPiece line.now from }
    requires plain { slice_index line.now from ≢ quote }
    ensures onwards { from < result }
    ensures within { result ≤ length line.now }
    ensures goes_on { (field : List ℕ) → fields_from Inside field (drop from line.now) ≡ fields_from Inside (field ++ slice_range line.now from result) (drop result line.now) }
    ensures stop { result < length line.now → is_plain (slice_index line.now result) ≡ false }
{
    let mut end = from + 1;
    while end < line.len() && is_plain(line[end]) {
        end += 1;
    }
    end
}

/// Whether the field ends where a run of plain bytes does: only a quote goes on with it there.
#[tactic(auto, using(crate::proofs::Steps::ending_at_end, crate::proofs::Steps::ending_unquoted))]
fn ends_run(line: &[u8], end: usize) -> bool
    requires { end < length line.now → is_plain (slice_index line.now end) ≡ false }
    ensures { IsTrue result → EndsField line.now end }
{
    end >= line.len() || line[end] != b'"'
}

/// The quote that closes the piece which begins at `from`.
#[tactic(auto, using(crate::proofs::Steps::quoted_none, crate::proofs::Steps::quoted_at, crate::proofs::Steps::closing_at, crate::proofs::Steps::open_at))]
fn quote_end(line: &[u8], from: usize) -> Result<usize, OpenQuote>
    requires { from ≤ length line.now }
    ensures onwards { IfOk result (λ end. from ≤ end) }
    ensures within { IfOk result (λ end. end < length line.now) }
    ensures closed { IfOk result (λ end. (field : List ℕ) → fields_from Quoted field (drop from line.now) ≡ fields_from Inside (field ++ slice_range line.now from end) (drop (end + 1) line.now)) }
    ensures err { OnErr result ((field : List ℕ) → fields_from Quoted field (drop from line.now) ≡ None) }
{
    for end in from..line.len() {
        if line[end] == b'"' {
            return Ok(end);
        }
    }
    Err(OpenQuote)
}

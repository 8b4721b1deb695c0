//! A line cut into its fields, in one pass over the line.
//!
//! A field is a part of the line wherever its bytes stand there in one piece. Only a field that joins pieces,
//! as `a"b c"d`, is copied, into room that the caller gives and that serves for each line anew.
ghost use Rattle.std.specs.Prelude.{◌≡◌, ℕ, ◌+◌, ◌<◌, ◌≤◌, [], Some, None, ◌++◌, length, drop, IfOk, OnErr, slice_index_or, slice_range};
ghost use Rattle.tz_types.specs.declared.limit.TheConstants.{LONGEST_LINE};
ghost use Rattle.tz_specs.specs.Field.{fields_from, fields_of, Between, Inside};
ghost use Rattle.tz_text.specs.Piece.{BeginsPiece};
ghost use Rattle.tz_text.specs.Spans.{IsField, LiesIn, kept_in};
ghost use Rattle.tz_text.specs.declared.kept.TheConstants.{MOST_KEPT};
ghost use Rattle.tz_text.specs.Kept.{kept_of};
ghost use Rattle.std.specs.List.{All};
ghost use Rattle.std.specs.Option.{option_map};

mod scan;
mod spans;

use crate::kept::MOST_KEPT;
use arrayvec::ArrayVec;
use scan::{Piece, ends_field, piece_at, skip_white};
use spans::{Field, Span, Spans};
use std::error::Error;
use std::fmt;
use std::marker::Model;
use tz_types::LONGEST_LINE;

/// A quoted piece of the line isn't closed.
#[derive(Clone, Copy, Debug, PartialEq, Eq)]
pub struct OpenQuote;

impl fmt::Display for OpenQuote {
    ghost use Rattle.std.specs.Prelude.{Some, codes};

    ghost output = { λ _. Some (codes "a quoted piece of the line isn't closed") };

    fn fmt<W: fmt::Write>(&self, f: &mut fmt::Formatter<W>) -> fmt::Result {
        f.write_str("a quoted piece of the line isn't closed")
    }
}

impl Error for OpenQuote {}

/// Room for those fields of a line that join pieces.
#[derive(Drop)]
pub struct Joined {
    bytes: ArrayVec<u8, LONGEST_LINE>,
}

impl Joined {
    /// Room with nothing in it.
    pub fn new() -> Self {
        Joined {
            bytes: ArrayVec::new(),
        }
    }

    fn append(&mut self, piece: &[u8])
        requires { length self.old.bytes.items + length piece.now ≤ LONGEST_LINE }
        ensures { self.new.bytes.items ≡ self.old.bytes.items ++ piece.now }
    {
        let _ = self.bytes.try_extend_from_slice(piece);
    }
}

/// The fields of a line: how many there are, and the first `MOST_KEPT`.
#[derive(Drop)]
pub struct Fields<'a> {
    line: &'a [u8],
    joined: &'a [u8],
    spans: Spans,
}

impl<'a> Model for Fields<'a> {
    ghost use Rattle.std.specs.List.{All};
    ghost use Rattle.tz_text.specs.Kept.{Kept};

    ghost Value = { Kept };

    ghost use Rattle.tz_text.specs.Spans.{kept_in, LiesIn};

    ghost view = { λ fields. kept_in fields.line.now fields.joined.now fields.spans };

    ghost invariant = { λ fields. All (LiesIn fields.line.now fields.joined.now) fields.spans.first };
}

impl<'a> Fields<'a> {
    /// Cuts a line, which stands here without its newline.
    ///
    /// `joined` keeps the bytes of fields that join pieces; what it had is gone.
    /// `OpenQuote` comes exactly where a quoted piece isn't closed.
    pub fn cut(line: &'a [u8], joined: &'a mut Joined) -> Result<Self, OpenQuote>
        requires { length line.now ≤ LONGEST_LINE }
        ensures ok { IfOk result (λ fields. option_map kept_of (fields_of line.now) ≡ Some fields) }
        ensures err { OnErr result (fields_of line.now ≡ None) }

        // Up to so many fields are all there.
        ensures whole { IfOk result (λ fields. fields.count ≤ MOST_KEPT → fields_of line.now ≡ Some fields.first) }
        ensures counted { IfOk result (λ fields. fields.count ≤ MOST_KEPT → length fields.first ≡ fields.count) }
    {
        let spans = spans_of(line, joined)?;
        Ok(Fields {
            line,
            joined: joined.bytes.as_slice(),
            spans,
        })
    }

    /// How many fields the line has, also where that is more than `MOST_KEPT`.
    pub fn count(&self) -> usize
        ensures { result ≡ self.now.count }
    {
        self.spans.count
    }

    /// The bytes of the field `index`, counted from 0.
    pub fn get(&self, index: usize) -> &'a [u8]
        requires kept { index < MOST_KEPT }
        requires there { index < self.now.count }
        ensures { result.now ≡ slice_index_or self.now.first index [] }
    {
        match self.spans.first[index] {
            Span::Line { start, end } => &self.line[start as usize..end as usize],
            Span::Joined { start, end } => &self.joined[start as usize..end as usize],
        }
    }
}

/// The places of the line's fields.
fn spans_of(line: &[u8], joined: &mut Joined) -> Result<Spans, OpenQuote>
    requires { length line.now ≤ LONGEST_LINE }
    ensures lie { IfOk result (λ spans. All (LiesIn line.now joined.new.bytes.items) spans.first) }
    ensures ok { IfOk result (λ spans. option_map kept_of (fields_of line.now) ≡ Some (kept_in line.now joined.new.bytes.items spans)) }
    ensures err { OnErr result (fields_of line.now ≡ None) }
{
    joined.bytes.clear();
    let mut spans = Spans::new();
    let mut index = skip_white(line, 0);
    while index < line.len() && line[index] != b'#' {
        let field = field_at(line, index, joined)?;
        spans.keep(field.span);
        index = skip_white(line, field.after);
    }
    Ok(spans)
}

/// The field that begins at `index`. `OpenQuote` comes exactly where a quoted piece of it isn't closed.
fn field_at(line: &[u8], index: usize, joined: &mut Joined) -> Result<Field, OpenQuote>
    requires short { length line.now ≤ LONGEST_LINE }
    requires begins { BeginsPiece line.now index }
    requires room { length joined.old.bytes.items ≤ index }
    ensures ok { IfOk result (IsField line.now joined.old.bytes.items joined.new.bytes.items (index + 1) (fields_from Between [] (drop index line.now))) }
    ensures err { OnErr result (fields_from Between [] (drop index line.now) ≡ None) }
{
    let piece = piece_at(line, index)?;
    if piece.last {
        return Ok(Field {
            span: Span::Line {
                start: piece.start as u16,
                end: piece.end as u16,
            },
            after: piece.after,
        });
    }
    join(line, piece, joined)
}

/// The field that begins with the piece `first`, its pieces joined behind what `joined` has.
fn join(line: &[u8], first: Piece, joined: &mut Joined) -> Result<Field, OpenQuote>
    requires short { length line.now ≤ LONGEST_LINE }
    requires order { first.start ≤ first.end }
    requires closed { first.end ≤ first.after }
    requires within { first.after ≤ length line.now }
    requires room { length joined.old.bytes.items ≤ first.start }
    ensures ok { IfOk result (IsField line.now joined.old.bytes.items joined.new.bytes.items first.after (fields_from Inside (slice_range line.now first.start first.end) (drop first.after line.now))) }
    ensures err { OnErr result (fields_from Inside (slice_range line.now first.start first.end) (drop first.after line.now) ≡ None) }
{
    let start = joined.bytes.len();
    joined.append(&line[first.start..first.end]);
    let mut after = first.after;
    while !ends_field(line, after) {
        let piece = piece_at(line, after)?;
        joined.append(&line[piece.start..piece.end]);
        after = piece.after;
    }
    Ok(Field {
        span: Span::Joined {
            start: start as u16,
            end: joined.bytes.len() as u16,
        },
        after,
    })
}

#[cfg(test)]
mod tests {
    use super::*;
    use std::process::Abort;
    use std::test::Fail;

    fn gives(rt: &impl Abort, joined: &mut Joined, line: &str, wanted: &[&str]) {
        assert!(rt; line.len() <= LONGEST_LINE);
        match Fields::cut(line.as_bytes(), joined) {
            Ok(fields) => {
                assert_eq!(rt; fields.count(), wanted.len(), "{line:?}");
                for (index, field) in wanted.iter().enumerate() {
                    if index < MOST_KEPT && index < fields.count() {
                        assert_eq!(rt; fields.get(index), field.as_bytes(), "{line:?}");
                    }
                }
            }
            Err(OpenQuote) => assert!(rt; false, "{line:?}"),
        }
    }

    fn is_open(rt: &impl Abort, joined: &mut Joined, line: &str) {
        assert!(rt; line.len() <= LONGEST_LINE);
        assert!(rt; Fields::cut(line.as_bytes(), joined).is_err(), "{line:?}");
    }

    #[test]
    fn cuts_lines(rt: HostRuntime) {
        let joined = &mut Joined::new();
        let rule = [
            "Rule", "US", "1967", "2006", "-", "Oct", "lastSun", "2:00", "0", "S",
        ];
        gives(
            &rt,
            joined,
            "Rule US 1967 2006 - Oct lastSun 2:00 0 S",
            &rule,
        );
        gives(
            &rt,
            joined,
            "Zone \"A#B\" 0 - X # \"",
            &["Zone", "A#B", "0", "-", "X"],
        );
        gives(&rt, joined, "", &[]);
        gives(&rt, joined, " \t ", &[]);
        gives(&rt, joined, "# a comment", &[]);
        gives(&rt, joined, "\"\"", &[""]);
        gives(&rt, joined, "a#b", &["a"]);
        gives(&rt, joined, "a\"b c\"d", &["ab cd"]);
        gives(&rt, joined, "\"a\"\"b\" c\"\" x", &["ab", "c", "x"]);
        gives(&rt, joined, "a\tb\rc\x0bd\x0ce", &["a", "b", "c", "d", "e"]);
        let eleven = ["1", "2", "3", "4", "5", "6", "7", "8", "9", "10", "11"];
        gives(&rt, joined, "1 2 3 4 5 6 7 8 9 10 11", &eleven);
    }

    #[test]
    fn tells_of_an_open_quote(rt: HostRuntime) -> Result<(), Fail> {
        let told = format!(in rt.alloc(); "{OpenQuote}")?;
        assert_eq!(rt; told.as_str(), "a quoted piece of the line isn't closed");
        Ok(())
    }

    #[test]
    fn refuses_open_quotes(rt: HostRuntime) {
        let joined = &mut Joined::new();
        is_open(&rt, joined, "Zone \"A 0 - X");
        is_open(&rt, joined, "a\"");
        is_open(&rt, joined, "a\"b\"\"");
    }
}

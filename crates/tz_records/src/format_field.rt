//! The format of a zone's line.
ghost use Rattle.std.specs.Prelude.{◌≡◌, ◌==◌, ◌≤◌, ◌<◌, ◌+◌, [], ◌∷◌, length, position, option_map, IsTrue, IfSome, MatchOption};
ghost use Rattle.std.specs.List.{list_any, list_all};
ghost use Rattle.tz_types.specs.declared.limit.TheConstants.{LONGEST_FORMAT, LONGEST_ABBREVIATION};
ghost use Rattle.tz_types.specs.Text.{is_printable};
ghost use Rattle.tz_types.specs.Format.{is_format};
ghost use Rattle.tz_specs.specs.Parts.{parts_at};
ghost use Rattle.tz_specs.specs.Value.{plain_format_of, marked_format_of, format_of};
ghost use Rattle.tz_records.specs.FormatField.{format_told, is_visible_format};

use crate::values::is_bad_name;
use tz_types::{Abbrev, Format};

/// A format by the parts of its field, which may be longer than a format is.
#[derive(Clone, Copy, Debug)]
pub enum FormatField<'a> {
    Text(&'a [u8]),
    Letters {
        before: &'a [u8],
        after: &'a [u8],
    },
    Offset {
        before: &'a [u8],
        after: &'a [u8],
    },
    Pair {
        standard: &'a [u8],
        daylight: &'a [u8],
    },
}

/// The place of the first such byte.
fn place(bytes: &[u8], mark: u8) -> Option<usize>
    ensures value { result ≡ position (λ byte. byte == mark) bytes.now }
    ensures bound { IfSome result (λ at. at < length bytes.now) }
{
    bytes.iter().position(|byte| *byte == mark)
}

/// What stands before the first such byte and behind it, where there is one.
fn halves(bytes: &[u8], mark: u8) -> Option<(&[u8], &[u8])>
    ensures { MatchOption result (parts_at mark bytes.now ≡ bytes.now ∷ [])
        (λ halves. parts_at mark bytes.now ≡ halves.0.now ∷ parts_at mark halves.1.now) }
{
    match place(bytes, mark) {
        Some(at) => Some((&bytes[..at], &bytes[at + 1..])),
        None => None,
    }
}

/// A pair of abbreviations, neither of them empty.
fn pair<'a>(standard: &'a [u8], daylight: &'a [u8]) -> Option<FormatField<'a>>
    ensures { option_map format_told result ≡ plain_format_of (standard.now ∷ daylight.now ∷ []) }
{
    if standard.is_empty() || daylight.is_empty() {
        return None;
    }
    Some(FormatField::Pair { standard, daylight })
}

/// A format without `%`.
#[tactic(auto, using(crate::proofs::Formats::three_parts))]
fn plain_format(text: &[u8]) -> Option<FormatField<'_>>
    ensures { option_map format_told result ≡ plain_format_of (parts_at 0x2f text.now) }
{
    let Some((standard, daylight)) = halves(text, b'/') else {
        return Some(FormatField::Text(text));
    };
    match halves(daylight, b'/') {
        Some(_) => None,
        None => pair(standard, daylight),
    }
}

/// Whether the bytes have a `/`.
fn has_slash(bytes: &[u8]) -> bool
    ensures { result ≡ list_any (λ byte. byte == 0x2f) bytes.now }
{
    bytes.iter().any(|byte| *byte == b'/')
}

/// A format with the bytes on both sides of its `%`.
fn marked_format<'a>(before: &'a [u8], behind: &'a [u8]) -> Option<FormatField<'a>>
    ensures { option_map format_told result ≡ marked_format_of before.now behind.now }
{
    let [letter, after @ ..] = behind else {
        return None;
    };
    if has_slash(before) || has_slash(after) {
        return None;
    }
    match *letter {
        b's' => Some(FormatField::Letters { before, after }),
        b'z' => Some(FormatField::Offset { before, after }),
        _ => None,
    }
}

/// The parts of a format of any length.
#[tactic(auto, using(crate::proofs::Formats::two_marks), unfolding(tz_specs::specs::Value::format_of))]
fn parts(field: &[u8]) -> Option<FormatField<'_>>
    ensures { option_map format_told result ≡ format_of field.now }
{
    if is_bad_name(field) {
        return None;
    }
    let Some((before, behind)) = halves(field, b'%') else {
        return plain_format(field);
    };
    match halves(behind, b'%') {
        Some(_) => None,
        None => marked_format(before, behind),
    }
}

/// A format of any length.
#[tactic(auto, using(crate::proofs::Formats::visible_format, crate::proofs::Formats::short_format))]
pub fn format_field(field: &[u8]) -> Option<FormatField<'_>>
    ensures value { option_map format_told result ≡ format_of field.now }
    ensures visible { IfSome result (λ format. IsTrue (is_visible_format (format_told format))) }
    ensures form { length field.now ≤ LONGEST_FORMAT → IfSome result (λ format. IsTrue (is_format (format_told format))) }
{
    parts(field)
}

/// The abbreviation, or the part of a format.
fn abbreviation(bytes: &[u8]) -> Abbrev
    requires visible { IsTrue (list_all is_printable bytes.now) }
    requires few { length bytes.now ≤ LONGEST_ABBREVIATION }
    ensures { result ≡ bytes.now }
{
    let Ok(abbrev) = Abbrev::new(bytes) else {
        unreachable!()
    };
    abbrev
}

impl FormatField<'_> {
    /// The format itself.
    pub fn format(self) -> Format
        requires visible { IsTrue (is_visible_format (format_told self)) }
        requires form { IsTrue (is_format (format_told self)) }
        ensures { result ≡ format_told self.entry }
    {
        match self {
            FormatField::Text(text) => Format::Text(abbreviation(text)),
            FormatField::Letters { before, after } => Format::Letters {
                before: abbreviation(before),
                after: abbreviation(after),
            },
            FormatField::Offset { before, after } => Format::Offset {
                before: abbreviation(before),
                after: abbreviation(after),
            },
            FormatField::Pair { standard, daylight } => Format::Pair {
                standard: abbreviation(standard),
                daylight: abbreviation(daylight),
            },
        }
    }
}

//! The version that the first line of a text names.
ghost use Rattle.std.specs.Prelude.{◌≡◌, codes};
ghost use Rattle.tz_specs.specs.Field.{is_white};
ghost use Rattle.tz_specs.specs.Reads.{without_white_end, version_of_line, version_of_text, version_of};

use tz_text::next_line;
use tz_types::{Source, VersionText};

/// Space, tab, newline, vertical tab, form feed or carriage return. `u8::is_ascii_whitespace` leaves out the vertical tab.
fn is_white(byte: u8) -> bool
    ensures { result ≡ is_white byte }
{
    byte == b' ' || (b'\t'..=b'\r').contains(&byte)
}

/// The bytes without the white space at their end.
fn without_white_end(bytes: &[u8]) -> &[u8]
    ensures { result.now ≡ without_white_end bytes.now }
{
    let mut end = bytes.len();
    while end > 0 && is_white(bytes[end - 1]) {
        end -= 1;
    }
    &bytes[..end]
}

/// The version that stands for none.
fn unknown() -> VersionText
    ensures { result ≡ codes "unknown" }
{
    match VersionText::new(b"unknown") {
        Ok(version) => version,
        Err(_) => unreachable!(),
    }
}

/// The version that a line names, and `unknown` where it names none.
fn version_of_line(line: &[u8]) -> VersionText
    ensures { result ≡ version_of_line line.now }
{
    let Some(rest) = line.strip_prefix(b"# version ") else {
        return unknown();
    };
    match VersionText::new(without_white_end(rest)) {
        Ok(version) => version,
        Err(_) => unknown(),
    }
}

/// The version that the first line of a text names, and `unknown` where it names none.
fn version_of_text(text: &[u8]) -> VersionText
    ensures { result ≡ version_of_text text.now }
{
    if text.is_empty() {
        return unknown();
    }
    let (line, _) = next_line(text);
    version_of_line(line)
}

/// The version of a source: the one given with it, or else what the first line of its first file names.
pub fn version(source: &Source) -> VersionText
    ensures { result ≡ version_of source.now }
{
    match (&source.version, source.files.as_slice().first()) {
        (Some(version), _) => version.copied(),
        (None, Some(file)) => version_of_text(file.as_slice()),
        (None, None) => unknown(),
    }
}

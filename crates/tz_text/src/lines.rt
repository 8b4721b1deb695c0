//! Lines, cut off a text at its newlines.
ghost use Rattle.std.specs.Prelude.{◌≡◌, ℕ, ◌==◌, ◌<◌, ◌∷◌, Bool, false, length};
ghost use Rattle.std.specs.List.{list_any};
ghost use Rattle.tz_specs.specs.Line.{lines_of};

use memchr::memchr;

/// The first line of a text, without its newline, and what follows it.
pub fn next_line(text: &[u8]) -> (&[u8], &[u8])
    requires { 0 < length text.now }
    ensures lines { lines_of text.now ≡ result.0.now ∷ lines_of result.1.now }
    ensures shorter { length result.1.now < length text.now }

    // What no byte of the text passes, no byte of the two does.
    ensures without { (test : ℕ → Bool) → list_any test text.now ≡ false → (list_any test result.0.now ≡ false) × (list_any test result.1.now ≡ false) }
{
    match memchr(b'\n', text) {
        Some(end) => (&text[..end], &text[end + 1..]),
        None => (text, &text[text.len()..]),
    }
}

/// Whether a text may have a NUL byte, by one search for all of its lines.
pub fn may_have_nul(text: &[u8]) -> bool
    ensures { result ≡ false → list_any (λ byte. byte == 0) text.now ≡ false }
{
    match memchr(0, text) {
        Some(_) => true,
        None => false,
    }
}

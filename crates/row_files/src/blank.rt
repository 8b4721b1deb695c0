//! Texts without a word.
ghost use Rattle.std.specs.Prelude.{◌≡◌, IfOk, vec_len};

use std::alloc::{AllocError, Global};

/// Blank lines of 512 bytes each with its newline, as long as a line of a script may be, cut off after `length` bytes.
pub fn blank_lines(alloc: Global, length: usize) -> Result<Vec<u8>, AllocError>
    ensures { IfOk result (λ text. vec_len text ≡ length) }
{
    let mut text = vec![in alloc; b' '; length]?;
    for end in text.iter_mut().skip(511).step_by(512) {
        *end = b'\n';
    }
    Ok(text)
}

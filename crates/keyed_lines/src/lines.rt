//! The lines of a text.
ghost use Rattle.std.specs.Prelude.{◌≡◌, IfOk};
ghost use Rattle.keyed_lines.specs.Lines.{joined};

use std::alloc::{AllocError, Global};

/// The lines of a text, each with its end. The last one may have none.
///
/// # Errors
///
/// Returns `AllocError` if a request for memory was refused.
pub fn lines_of(alloc: Global, text: &[u8]) -> Result<Vec<&[u8]>, AllocError>
    ensures { IfOk result (λ lines. joined lines.items ≡ text.now) }
{
    let mut lines = Vec::new(alloc);
    let mut begin = 0;
    for place in 0..text.len() {
        if text[place] == b'\n' {
            lines.push(&text[begin..place + 1])?;
            begin = place + 1;
        }
    }
    if begin < text.len() {
        lines.push(&text[begin..])?;
    }
    Ok(lines)
}

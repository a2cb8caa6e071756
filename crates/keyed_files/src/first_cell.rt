//! The first cell of a text, whose first bytes say what the text is to whoever reads it.
ghost use Rattle.std.specs.Prelude.{◌≡◌, ◌≤◌, ◌++◌, ◌∷◌, [], IfOk, IfSome, length};
ghost use Rattle.std.specs.List.{position};
ghost use Rattle.keyed_faults.specs.Encodings.{is_marked};
ghost use Rattle.keyed_files.specs.Writing.{end_of_cell, ends_cell, quoted, quoted_first};

use keyed_faults::Encoding;
use keyed_requests::Delimiter;
use std::alloc::{AllocError, Global};

/// A byte order mark, which a text may begin with and which is no part of its first cell.
pub const MARK: &[u8] = b"\xef\xbb\xbf";

/// A text of CSV that reads as its rows: where it begins with a byte order mark, or as what is no text, its first cell is put in quotes.
/// Such a cell is one that was written as it is, so that no quote stands in it.
///
/// # Errors
///
/// Returns `AllocError` if a request for memory was refused.
pub fn quote_first(
    alloc: Global,
    text: Vec<u8>,
    delimiter: Delimiter,
) -> Result<Vec<u8>, AllocError>
    ensures { IfOk result (λ given. given.items ≡ quoted_first delimiter.byte text.items) }
{
    if is_marked(&text) {
        quoted(alloc, &text, delimiter.byte())
    } else {
        Ok(text)
    }
}

// Whether a text begins with a byte order mark, or as what is no text.
fn is_marked(text: &[u8]) -> bool
    ensures { result ≡ is_marked text.now }
{
    text.starts_with(MARK) || Encoding::of(text).is_some()
}

// A text with its first cell, in which no quote stands, in quotes.
fn quoted(alloc: Global, text: &[u8], delimiter: u8) -> Result<Vec<u8>, AllocError>
    ensures { IfOk result (λ given. given.items ≡ quoted delimiter text.now) }
{
    let (cell, behind) = text.split_at(end_of_cell(text, delimiter));
    let mut quoted = Vec::new(alloc);
    quoted.push(b'"')?;
    quoted.extend_from_slice(cell)?;
    quoted.push(b'"')?;
    quoted.extend_from_slice(behind)?;
    Ok(quoted)
}

// Where the first cell of a text ends in which no quote stands.
fn end_of_cell(text: &[u8], delimiter: u8) -> usize
    ensures value { result ≡ end_of_cell delimiter text.now }
    ensures bound { result ≤ length text.now }
{
    match place_of_end(text, delimiter) {
        Some(end) => end,
        None => text.len(),
    }
}

// Where a byte stands first that ends such a cell.
fn place_of_end(text: &[u8], delimiter: u8) -> Option<usize>
    ensures value { result ≡ position (ends_cell delimiter) text.now }
    ensures bound { IfSome result (λ end. end ≤ length text.now) }
{
    text.iter().position(|byte| ends_cell(*byte, delimiter))
}

// Whether a byte ends a cell in which no quote stands.
fn ends_cell(byte: u8, delimiter: u8) -> bool
    ensures { result ≡ ends_cell delimiter byte }
{
    byte == delimiter || byte == b'\r' || byte == b'\n'
}

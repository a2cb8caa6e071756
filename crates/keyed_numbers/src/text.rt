//! Cells that are the same as texts: byte by byte, without white space around them, or in any case.
ghost use Rattle.std.specs.Prelude.{◌≡◌};
ghost use Rattle.keyed_numbers.specs.Cells.{same_folded, same_text, seen, trimmed, without_lead, without_trail};

use caseless::default_caseless_match_str;

/// What is compared of a cell: all of it, or what stands between white space of ASCII around it.
pub fn seen(trims: bool, cell: &[u8]) -> &[u8]
    ensures { result.now ≡ seen trims cell.now }
{
    if trims { trimmed(cell) } else { cell }
}

/// A cell without white space of ASCII around it.
pub fn trimmed(cell: &[u8]) -> &[u8]
    ensures { result.now ≡ trimmed cell.now }
{
    without_trail(without_lead(cell))
}

fn without_lead(cell: &[u8]) -> &[u8]
    ensures { result.now ≡ without_lead cell.now }
{
    cell.trim_ascii_start()
}

fn without_trail(cell: &[u8]) -> &[u8]
    ensures { result.now ≡ without_trail cell.now }
{
    cell.trim_ascii_end()
}

/// Whether two cells are the same byte by byte or, where case is not compared, once it is folded.
pub fn is_same_text(folds_case: bool, cell: &[u8], other: &[u8]) -> bool
    ensures { result ≡ same_text folds_case cell.now other.now }
{
    if folds_case {
        cell == other || is_same_folded(cell, other)
    } else {
        cell == other
    }
}

// Whether two cells are texts of UTF-8 that are the same once case is folded.
fn is_same_folded(cell: &[u8], other: &[u8]) -> bool
    ensures { result ≡ same_folded cell.now other.now }
{
    match str::from_utf8(cell) {
        Ok(text) => match str::from_utf8(other) {
            Ok(next) => default_caseless_match_str(text, next),
            Err(_) => false,
        },
        Err(_) => false,
    }
}

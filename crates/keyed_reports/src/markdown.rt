//! What changed between two tables, as Markdown for a person, as in a pull request.
//!
//! Cells are shown as in a table on a terminal, so that no control character and no end of a line is in them, and what Markdown reads as a
//! mark has a backslash before it.
ghost use Rattle.std.specs.Prelude.{◌≡◌, ◌++◌, OnOk, flat_map};
ghost use Rattle.keyed_reports.specs.Escapes.{is_markdown_mark, markdown_byte};

use crate::changed_rows::{RowChange, word_of};
use crate::report::Report;
use either_or_both::EitherOrBoth;
use keyed_columns::Columns;
use keyed_faults::{ShownCell, ShownName};
use keyed_numbers::{Alike, is_same_cell};
use keyed_rows::{Cells, Iter};
use std::alloc::{AllocError, Global};

/// What became of the columns as a list, the rows as a table, and the counts.
///
/// # Errors
///
/// Returns `AllocError` if a request for memory was refused.
pub fn markdown(alloc: Global, report: &Report<'_>) -> Result<Vec<u8>, AllocError> {
    let mut text = Vec::new(alloc);
    let said = format!(in alloc; "{}", report.column_changes)?;
    put_lines(&mut text, &said)?;
    if !report.rows.is_empty() {
        put_heading(alloc, &mut text, report.columns)?;
        for row in report.rows {
            put_row(alloc, &mut text, report.alikes, row)?;
        }
        text.push(b'\n')?;
    }
    if report.more > 0 {
        let more = format!(in alloc; "and {} more\n\n", report.more)?;
        text.extend_from_slice(more.as_bytes())?;
    }
    let counts = format!(in alloc; "{}\n", report.counts)?;
    text.extend_from_slice(counts.as_bytes())?;
    Ok(text)
}

/// Puts each line of a text as an item of a list, and an empty line after them, if there are any.
///
/// # Errors
///
/// Returns `AllocError` if a request for memory was refused.
pub fn put_lines(text: &mut Vec<u8>, said: &str) -> Result<(), AllocError> {
    for line in said.lines() {
        text.extend_from_slice(b"- ")?;
        put_escaped(text, line.as_bytes())?;
        text.push(b'\n')?;
    }
    if !said.is_empty() {
        text.push(b'\n')?;
    }
    Ok(())
}

/// Puts the names of the columns after an empty cell, and the line below them.
///
/// # Errors
///
/// Returns `AllocError` if a request for memory was refused.
pub fn put_heading(alloc: Global, text: &mut Vec<u8>, columns: &Columns) -> Result<(), AllocError> {
    text.extend_from_slice(b"| |")?;
    put_cells(alloc, text, columns.key.iter())?;
    put_cells(alloc, text, columns.rest.iter())?;
    text.extend_from_slice(b"\n|---|")?;
    for _ in &columns.key {
        text.extend_from_slice(b"---|")?;
    }
    for _ in &columns.rest {
        text.extend_from_slice(b"---|")?;
    }
    text.push(b'\n')?;
    Ok(())
}

// Puts the line of a row.
fn put_row(
    alloc: Global,
    text: &mut Vec<u8>,
    alikes: &[Alike<'_>],
    row: &RowChange<'_>,
) -> Result<(), AllocError> {
    let (key, change) = *row;
    put_word(text, word_of(change))?;
    put_cells(alloc, text, key.iter())?;
    match change {
        EitherOrBoth::Left(cells) | EitherOrBoth::Right(cells) => {
            put_cells(alloc, text, cells.iter())?
        }
        EitherOrBoth::Both(old, new) => put_both(alloc, text, alikes, old, new)?,
    }
    text.push(b'\n')?;
    Ok(())
}

/// Puts the beginning of a line: its first cell, of this word.
///
/// # Errors
///
/// Returns `AllocError` if a request for memory was refused.
pub fn put_word(text: &mut Vec<u8>, word: &str) -> Result<(), AllocError> {
    text.extend_from_slice(b"| ")?;
    put_escaped(text, word.as_bytes())?;
    text.extend_from_slice(b" |")?;
    Ok(())
}

/// Puts each cell with the mark that ends it.
///
/// # Errors
///
/// Returns `AllocError` if a request for memory was refused.
pub fn put_cells(alloc: Global, text: &mut Vec<u8>, cells: Iter<'_>) -> Result<(), AllocError> {
    for cell in cells {
        put_cell(alloc, text, cell)?;
    }
    Ok(())
}

fn put_cell(alloc: Global, text: &mut Vec<u8>, cell: &[u8]) -> Result<(), AllocError> {
    let shown = format!(in alloc; "{}", ShownCell(cell))?;
    text.push(b' ')?;
    put_escaped(text, shown.as_bytes())?;
    text.extend_from_slice(b" |")?;
    Ok(())
}

// Puts each cell of both versions of a row: once where they agree, and else the old one struck through and the new one in bold.
fn put_both(
    alloc: Global,
    text: &mut Vec<u8>,
    alikes: &[Alike<'_>],
    old: &Cells,
    new: &Cells,
) -> Result<(), AllocError> {
    for (alike, (cell, next)) in alikes.iter().zip(old.iter().zip(new.iter())) {
        if is_same_cell(*alike, cell, next) {
            put_cell(alloc, text, next)?;
        } else {
            let (before, after) = shown_pair(alloc, cell, next)?;
            text.extend_from_slice(b" ~~")?;
            put_escaped(text, before.as_bytes())?;
            text.extend_from_slice(b"~~ **")?;
            put_escaped(text, after.as_bytes())?;
            text.extend_from_slice(b"** |")?;
        }
    }
    Ok(())
}

// Two cells that differ as a person reads them, of which an empty one is `""`.
fn shown_pair(alloc: Global, old: &[u8], new: &[u8]) -> Result<(String, String), AllocError> {
    let old = format!(in alloc; "{}", ShownName(old))?;
    let new = format!(in alloc; "{}", ShownName(new))?;
    Ok((old, new))
}

// Puts bytes so that none of them is a mark.
fn put_escaped(text: &mut Vec<u8>, bytes: &[u8]) -> Result<(), AllocError>
    ensures { OnOk result (text.new.items ≡ text.old.items ++ flat_map markdown_byte bytes.now) }
{
    for byte in bytes {
        put_byte(text, *byte)?;
    }
    Ok(())
}

// Puts a byte, a mark with a backslash before it.
fn put_byte(text: &mut Vec<u8>, byte: u8) -> Result<(), AllocError>
    ensures { OnOk result (text.new.items ≡ text.old.items ++ markdown_byte byte) }
{
    if is_mark(byte) {
        text.push(b'\\')?;
    }
    text.push(byte)?;
    Ok(())
}

// The bytes that Markdown may read as a mark or a part of one.
const MARKS: &[u8] = b"\\`*_~|<>&[]()#!@:";

// Whether a byte is one of them.
fn is_mark(byte: u8) -> bool
    ensures { result ≡ is_markdown_mark byte }
{
    MARKS.contains(&byte)
}

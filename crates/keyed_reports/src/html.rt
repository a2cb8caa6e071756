//! What changed between two tables, as a page of HTML that needs nothing from elsewhere.
//!
//! Cells are shown as in a table on a terminal, and what HTML reads as a mark is escaped: no cell is more than text.
ghost use Rattle.std.specs.Prelude.{◌≡◌, ◌++◌, OnOk, flat_map};
ghost use Rattle.keyed_reports.specs.Escapes.{html_byte};

use crate::changed_rows::{RowChange, word_of};
use crate::report::Report;
use crate::shown_columns::{columns_of, left_out};
use either_or_both::EitherOrBoth;
use keyed_columns::Columns;
use keyed_faults::{ShownCell, ShownName};
use keyed_numbers::{Alike, is_same_cell};
use keyed_rows::{Cells, Iter};
use std::alloc::{AllocError, Global};

// What stands before the changes. The colours are those of the reader's page, light or dark, and what changed has marks beside colours.
const HEAD: &[u8] = b"<!DOCTYPE html>\n<html lang=\"en\">\n<head>\n<meta charset=\"utf-8\">\n\
    <meta name=\"color-scheme\" content=\"light dark\">\n<title>Changes</title>\n<style>\n\
    body { font: 1rem/1.4 system-ui, sans-serif; margin: 1.5rem; }\n\
    table { border-collapse: collapse; }\n\
    th, td { border: 1px solid #8888; padding: .2rem .5rem; text-align: left; white-space: pre-wrap; }\n\
    thead th { position: sticky; top: 0; background: Canvas; }\n\
    .added { background: #00a00022; } .removed { background: #e0000022; }\n\
    del { background: #e0000044; } ins { background: #00a00044; text-decoration: none; font-weight: bold; }\n\
    </style>\n</head>\n<body>\n";

/// What became of the columns, the rows with both versions side by side, how many columns are not shown, if any are not, and the counts.
///
/// # Errors
///
/// Returns `AllocError` if a request for memory was refused.
pub fn html(alloc: Global, report: &Report<'_>) -> Result<Vec<u8>, AllocError> {
    let mut text = begin_page(alloc)?;
    let said = format!(in alloc; "{}", report.column_changes)?;
    put_lines(&mut text, &said)?;
    let shown = columns_of(alloc, report)?;
    if !report.rows.is_empty() {
        put_heading(alloc, &mut text, report.columns, &shown)?;
        for row in report.rows {
            put_row(alloc, &mut text, report.alikes, &shown, row)?;
        }
        text.extend_from_slice(b"</tbody>\n</table>\n")?;
    }
    if report.more > 0 {
        let more = format!(in alloc; "<p>and {} more</p>\n", report.more)?;
        text.extend_from_slice(more.as_bytes())?;
    }
    put_lines(&mut text, &left_out(alloc, report, &shown)?)?;
    let counts = format!(in alloc; "<p>{}</p>\n", report.counts)?;
    text.extend_from_slice(counts.as_bytes())?;
    end_page(&mut text)?;
    Ok(text)
}

/// What stands before the text of a page.
///
/// # Errors
///
/// Returns `AllocError` if a request for memory was refused.
pub fn begin_page(alloc: Global) -> Result<Vec<u8>, AllocError> {
    Vec::from_slice(alloc, HEAD)
}

/// Puts what stands after the text of a page.
///
/// # Errors
///
/// Returns `AllocError` if a request for memory was refused.
pub fn end_page(text: &mut Vec<u8>) -> Result<(), AllocError> {
    text.extend_from_slice(b"</body>\n</html>\n")?;
    Ok(())
}

/// Puts each line of a text as a paragraph.
///
/// # Errors
///
/// Returns `AllocError` if a request for memory was refused.
pub fn put_lines(text: &mut Vec<u8>, said: &str) -> Result<(), AllocError> {
    for line in said.lines() {
        put_element(text, "p", line)?;
        text.push(b'\n')?;
    }
    Ok(())
}

// Puts the names of the columns: those of the key once, and those of the others that are shown below each version.
fn put_heading(
    alloc: Global,
    text: &mut Vec<u8>,
    columns: &Columns,
    shown: &[bool],
) -> Result<(), AllocError> {
    text.extend_from_slice(b"<table>\n<thead>\n<tr><th></th>")?;
    put_elements(alloc, text, "th", columns.key.iter())?;
    let count = shown.iter().filter(|is_shown| **is_shown).count();
    if count > 0 {
        let sides = format!(in alloc;
            "<th colspan=\"{count}\">old</th><th colspan=\"{count}\">new</th>"
        )?;
        text.extend_from_slice(sides.as_bytes())?;
    }
    text.extend_from_slice(b"</tr>\n<tr><th></th>")?;
    for _ in &columns.key {
        text.extend_from_slice(b"<th></th>")?;
    }
    put_picked(alloc, text, "th", shown, &columns.rest)?;
    put_picked(alloc, text, "th", shown, &columns.rest)?;
    text.extend_from_slice(b"</tr>\n</thead>\n<tbody>\n")?;
    Ok(())
}

// Puts the line of a row, of the columns that are shown.
fn put_row(
    alloc: Global,
    text: &mut Vec<u8>,
    alikes: &[Alike<'_>],
    shown: &[bool],
    row: &RowChange<'_>,
) -> Result<(), AllocError> {
    let (key, change) = *row;
    let word = word_of(change);
    let begin = format!(in alloc; "<tr class=\"{word}\"><th>{word}</th>")?;
    text.extend_from_slice(begin.as_bytes())?;
    put_elements(alloc, text, "th", key.iter())?;
    match change {
        EitherOrBoth::Left(old) => {
            put_picked(alloc, text, "td", shown, old)?;
            put_none(text, shown)?;
        }
        EitherOrBoth::Right(new) => {
            put_none(text, shown)?;
            put_picked(alloc, text, "td", shown, new)?;
        }
        EitherOrBoth::Both(old, new) => {
            put_marked(alloc, text, alikes, shown, "del", (old, new))?;
            put_marked(alloc, text, alikes, shown, "ins", (new, old))?;
        }
    }
    text.extend_from_slice(b"</tr>\n")?;
    Ok(())
}

/// Puts each cell as an element of this name.
///
/// # Errors
///
/// Returns `AllocError` if a request for memory was refused.
pub fn put_elements(
    alloc: Global,
    text: &mut Vec<u8>,
    element: &str,
    cells: Iter<'_>,
) -> Result<(), AllocError> {
    for cell in cells {
        let shown = format!(in alloc; "{}", ShownCell(cell))?;
        put_element(text, element, &shown)?;
    }
    Ok(())
}

// Puts each cell of a column that is shown as an element of this name.
fn put_picked(
    alloc: Global,
    text: &mut Vec<u8>,
    element: &str,
    shown: &[bool],
    cells: &Cells,
) -> Result<(), AllocError> {
    for (cell, is_shown) in cells.iter().zip(shown.iter()) {
        if *is_shown {
            let said = format!(in alloc; "{}", ShownCell(cell))?;
            put_element(text, element, &said)?;
        }
    }
    Ok(())
}

// Puts an empty cell for each column that is shown.
fn put_none(text: &mut Vec<u8>, shown: &[bool]) -> Result<(), AllocError> {
    for is_shown in shown {
        if *is_shown {
            text.extend_from_slice(b"<td></td>")?;
        }
    }
    Ok(())
}

// Puts the cells that are shown of one version of a row, those that the other has otherwise within a mark, which is an element too.
fn put_marked(
    alloc: Global,
    text: &mut Vec<u8>,
    alikes: &[Alike<'_>],
    shown: &[bool],
    mark: &str,
    rows: (&Cells, &Cells),
) -> Result<(), AllocError> {
    let (cells, others) = rows;
    let cells = cells.iter().zip(others.iter());
    for ((cell, other), (alike, is_shown)) in cells.zip(alikes.iter().zip(shown.iter())) {
        if !*is_shown {
            continue;
        }
        if is_same_cell(*alike, cell, other) {
            let said = format!(in alloc; "{}", ShownCell(cell))?;
            put_element(text, "td", &said)?;
        } else {
            let said = format!(in alloc; "{}", ShownName(cell))?;
            text.extend_from_slice(b"<td>")?;
            put_element(text, mark, &said)?;
            text.extend_from_slice(b"</td>")?;
        }
    }
    Ok(())
}

/// Puts a text as an element of this name.
///
/// # Errors
///
/// Returns `AllocError` if a request for memory was refused.
pub fn put_element(text: &mut Vec<u8>, name: &str, content: &str) -> Result<(), AllocError> {
    text.push(b'<')?;
    text.extend_from_slice(name.as_bytes())?;
    text.push(b'>')?;
    put_escaped(text, content.as_bytes())?;
    text.extend_from_slice(b"</")?;
    text.extend_from_slice(name.as_bytes())?;
    text.push(b'>')?;
    Ok(())
}

// Puts bytes so that none of them is a mark.
fn put_escaped(text: &mut Vec<u8>, bytes: &[u8]) -> Result<(), AllocError>
    ensures { OnOk result (text.new.items ≡ text.old.items ++ flat_map html_byte bytes.now) }
{
    for byte in bytes {
        put_byte(text, *byte)?;
    }
    Ok(())
}

// Puts a byte, or what stands for it where it is a mark.
fn put_byte(text: &mut Vec<u8>, byte: u8) -> Result<(), AllocError>
    ensures { OnOk result (text.new.items ≡ text.old.items ++ html_byte byte) }
{
    match byte {
        b'&' => text.extend_from_slice(b"&amp;")?,
        b'<' => text.extend_from_slice(b"&lt;")?,
        b'>' => text.extend_from_slice(b"&gt;")?,
        b'"' => text.extend_from_slice(b"&quot;")?,
        b'\'' => text.extend_from_slice(b"&#39;")?,
        _ => text.push(byte)?,
    }
    Ok(())
}

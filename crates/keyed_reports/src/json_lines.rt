//! What changed between two tables, as JSON.
//!
//! Texts in JSON are UTF-8. A byte of a cell or a name that is no UTF-8 stands as the character U+10FF00 plus that byte, and so do the four
//! bytes of such a character itself: whoever turns each of these characters into its byte has the cell as it is in the file. Objects are
//! written by the writer of `json`, on which `serde_json` stands, since an object of that has its names sorted, and columns have an order.

use crate::changed_rows::{RowChange, word_of};
use crate::report::Report;
use either_or_both::EitherOrBoth;
use json::Writer;
use keyed_columns::{Columns, LoneColumns};
use keyed_numbers::{Alike, is_same_cell};
use keyed_rows::{Cells, Iter};
use std::alloc::{AllocError, Global};
use std::fmt;

/// The rows under these columns, an object each, on a line each: what became of the row, its key, the names of the columns in which it
/// changed, if it did, and its other cells in the old table and in the new one, as far as it is there. With no row there is no line. The
/// cells of each column are compared so.
///
/// # Errors
///
/// Returns `AllocError` if a request for memory was refused.
pub fn json_rows(
    alloc: Global,
    columns: &Columns,
    alikes: &[Alike<'_>],
    rows: &[RowChange<'_>],
) -> Result<Vec<u8>, AllocError> {
    let mut text = Vec::new(alloc);
    for row in rows {
        let object = row_object(alloc, columns, alikes, row)?;
        text.extend_from_slice(&object)?;
        text.push(b'\n')?;
    }
    Ok(text)
}

// The object of a row.
fn row_object(
    alloc: Global,
    columns: &Columns,
    alikes: &[Alike<'_>],
    row: &RowChange<'_>,
) -> Result<Vec<u8>, AllocError> {
    let (key, change) = *row;
    let mut writer = Writer::new(Vec::new(alloc));
    writer.begin_object()?;
    writer.key("change")?;
    writer.string(word_of(change))?;
    writer.key("key")?;
    put_cells(alloc, &mut writer, &columns.key, key.iter())?;
    match change {
        EitherOrBoth::Left(old) => put_side(alloc, &mut writer, "old", columns, old)?,
        EitherOrBoth::Right(new) => put_side(alloc, &mut writer, "new", columns, new)?,
        EitherOrBoth::Both(old, new) => {
            put_changed(alloc, &mut writer, &columns.rest, alikes, old, new)?;
            put_side(alloc, &mut writer, "old", columns, old)?;
            put_side(alloc, &mut writer, "new", columns, new)?;
        }
    }
    writer.end_object()?;
    Ok(writer.into_inner())
}

// Puts the names of the columns in which a row changed.
fn put_changed(
    alloc: Global,
    writer: &mut Writer,
    names: &Cells,
    alikes: &[Alike<'_>],
    old: &Cells,
    new: &Cells,
) -> Result<(), AllocError> {
    writer.key("changed")?;
    writer.begin_array()?;
    let cells = old.iter().zip(new.iter());
    for ((name, alike), (cell, next)) in names.iter().zip(alikes.iter()).zip(cells) {
        if !is_same_cell(*alike, cell, next) {
            put_text(alloc, writer, name)?;
        }
    }
    writer.end_array()
}

// Puts the cells of one version of a row under a name.
fn put_side(
    alloc: Global,
    writer: &mut Writer,
    side: &str,
    columns: &Columns,
    cells: &Cells,
) -> Result<(), AllocError> {
    writer.key(side)?;
    put_cells(alloc, writer, &columns.rest, cells.iter())
}

/// Puts cells as an object, by the names of their columns.
///
/// # Errors
///
/// Returns `AllocError` if a request for memory was refused.
pub fn put_cells(
    alloc: Global,
    writer: &mut Writer,
    names: &Cells,
    cells: Iter<'_>,
) -> Result<(), AllocError> {
    writer.begin_object()?;
    for (name, cell) in names.iter().zip(cells) {
        put_name(alloc, writer, name)?;
        put_text(alloc, writer, cell)?;
    }
    writer.end_object()
}

/// The names of the columns that one of the tables alone has, as one object on a line. Where there are none there is no line.
///
/// # Errors
///
/// Returns `AllocError` if a request for memory was refused.
pub fn json_columns(alloc: Global, lone: &LoneColumns) -> Result<Vec<u8>, AllocError> {
    if lone.is_empty() {
        return Ok(Vec::new(alloc));
    }
    let mut writer = Writer::new(Vec::new(alloc));
    writer.begin_object()?;
    put_lone(alloc, &mut writer, lone)?;
    writer.end_object()?;
    let mut text = writer.into_inner();
    text.push(b'\n')?;
    Ok(text)
}

// Puts the names of columns that came and of those that went, under one name.
fn put_lone(alloc: Global, writer: &mut Writer, lone: &LoneColumns) -> Result<(), AllocError> {
    writer.key("columns")?;
    writer.begin_object()?;
    put_names(alloc, writer, "added", &lone.added)?;
    put_names(alloc, writer, "removed", &lone.removed)?;
    writer.end_object()
}

/// The counts of rows, and the names of the columns that one of the tables alone has, as one object on a line.
///
/// # Errors
///
/// Returns `AllocError` if a request for memory was refused.
pub fn json_counts(alloc: Global, report: &Report<'_>) -> Result<Vec<u8>, AllocError> {
    let mut writer = Writer::new(Vec::new(alloc));
    writer.begin_object()?;
    put_count(&mut writer, "added", report.counts.added)?;
    put_count(&mut writer, "removed", report.counts.removed)?;
    put_count(&mut writer, "changed", report.counts.changed)?;
    put_count(&mut writer, "same", report.counts.same)?;
    let lone = report.column_changes.lone(alloc)?;
    put_lone(alloc, &mut writer, &lone)?;
    writer.end_object()?;
    let mut text = writer.into_inner();
    text.push(b'\n')?;
    Ok(text)
}

/// Puts a number under a name.
///
/// # Errors
///
/// Returns `AllocError` if a request for memory was refused.
pub fn put_count(writer: &mut Writer, name: &str, count: usize) -> Result<(), AllocError> {
    writer.key(name)?;
    writer.u64(count as u64)
}

/// Puts bytes as a text.
///
/// # Errors
///
/// Returns `AllocError` if a request for memory was refused.
pub fn put_text(alloc: Global, writer: &mut Writer, bytes: &[u8]) -> Result<(), AllocError> {
    match as_text(bytes) {
        Some(text) => writer.string(text),
        None => writer.string(&format!(in alloc; "{}", JsonText(bytes))?),
    }
}

// Puts the name of a member.
fn put_name(alloc: Global, writer: &mut Writer, bytes: &[u8]) -> Result<(), AllocError> {
    match as_text(bytes) {
        Some(name) => writer.key(name),
        None => writer.key(&format!(in alloc; "{}", JsonText(bytes))?),
    }
}

// The first byte of each character from U+100000 on, among them those that stand for bytes.
const HIGHEST: u8 = 0xf4;

// Bytes that stand in JSON as they are, with no copy: UTF-8 in which no character stands for a byte.
fn as_text(bytes: &[u8]) -> Option<&str> {
    if bytes.contains(&HIGHEST) {
        return None;
    }
    match str::from_utf8(bytes) {
        Ok(text) => Some(text),
        Err(_) => None,
    }
}

// Puts names of columns as an array under a name.
fn put_names(
    alloc: Global,
    writer: &mut Writer,
    under: &str,
    names: &Cells,
) -> Result<(), AllocError> {
    writer.key(under)?;
    writer.begin_array()?;
    for name in names {
        put_text(alloc, writer, name)?;
    }
    writer.end_array()
}

// Bytes as characters: those of UTF-8 as they are, and each other byte as one of its own.
#[derive(Clone, Copy)]
struct JsonText<'a>(&'a [u8]);

// The character that stands for the byte 0. Those for the others follow.
const BYTES: u32 = 0x10ff00;

impl fmt::Display for JsonText<'_> {
    fn fmt<W: fmt::Write>(&self, f: &mut fmt::Formatter<W>) -> fmt::Result {
        for chunk in self.0.utf8_chunks() {
            for c in chunk.valid().chars() {
                show_char(f, c)?;
            }
            for byte in chunk.invalid() {
                show_byte(f, *byte)?;
            }
        }
        Ok(())
    }
}

// A character, or the bytes of one that stands for a byte.
fn show_char<W: fmt::Write>(f: &mut fmt::Formatter<W>, c: char) -> fmt::Result {
    if (c as u32) < BYTES {
        return f.write_char(c);
    }
    for byte in c.encode_utf8(&mut [0; 4]).as_bytes() {
        show_byte(f, *byte)?;
    }
    Ok(())
}

// The character that stands for a byte.
fn show_byte<W: fmt::Write>(f: &mut fmt::Formatter<W>, byte: u8) -> fmt::Result {
    f.write_char(char::from_u32(BYTES + byte as u32).unwrap_or('\u{fffd}'))
}

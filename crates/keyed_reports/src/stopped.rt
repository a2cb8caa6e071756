//! Rows for which a command has no table, each with its versions, told to a person or to a program.

use crate::html::{begin_page, end_page, put_element, put_elements, put_lines as put_paragraphs};
use crate::json_lines::put_cells as put_members;
use crate::markdown::{put_cells as put_columns, put_heading, put_lines as put_items, put_word};
use json::Writer;
use keyed_columns::Columns;
use keyed_layout::{Grid, heading, line_up, put_version};
use keyed_requests::Look;
use keyed_rows::{Cells, Group, Key};
use std::alloc::{AllocError, Global};

/// The rows that one version of a table has under a key.
#[derive(Clone, Copy)]
pub struct Version<'a> {
    /// Why they are told, in one word, as JSON says it.
    pub why: &'a str,
    /// The word for this version.
    pub word: &'a str,
    pub key: &'a Key,
    /// None where it has no row there.
    pub rows: Option<&'a Group>,
}

/// Rows for which a command has no table.
#[derive(Drop)]
pub struct Stopped<'r> {
    /// What is said before the rows, a line each. JSON has no place for it.
    pub said: &'r str,
    pub columns: &'r Columns,
    pub versions: &'r [Version<'r>],
}

/// The rows as text of this form, with no colour: of JSON an object a row, on a line each, else the names of the columns and then a line a
/// row. Where a version has no row, its line says so.
///
/// # Errors
///
/// Returns `AllocError` if a request for memory was refused.
pub fn write_stopped(
    alloc: Global,
    look: Look,
    stopped: &Stopped<'_>,
) -> Result<Vec<u8>, AllocError> {
    match look {
        Look::Table { .. } => Ok(table(alloc, stopped)?.into_bytes()),
        Look::Json => json_lines(alloc, stopped),
        Look::Markdown => markdown_table(alloc, stopped),
        Look::Html => html_page(alloc, stopped),
    }
}

fn table(alloc: Global, stopped: &Stopped<'_>) -> Result<String, AllocError> {
    let mut grid: Grid = Vec::new(alloc);
    grid.push(heading(alloc, stopped.columns)?)?;
    for version in stopped.versions {
        put_version(alloc, &mut grid, version.word, version.key, version.rows)?;
    }
    let mut text = String::from_str(alloc, stopped.said)?;
    text.push_str(&line_up(alloc, &grid)?)?;
    Ok(text)
}

fn json_lines(alloc: Global, stopped: &Stopped<'_>) -> Result<Vec<u8>, AllocError> {
    let mut text = Vec::new(alloc);
    for version in stopped.versions {
        match version.rows {
            Some(rows) => {
                for cells in rows.rows() {
                    put_json_line(alloc, &mut text, stopped.columns, version, Some(cells))?;
                }
            }
            None => put_json_line(alloc, &mut text, stopped.columns, version, None)?,
        }
    }
    Ok(text)
}

// Puts the object of a row of a version: why it is told, which version it is of, its key, and its other cells, or null where it is none.
fn put_json_line(
    alloc: Global,
    text: &mut Vec<u8>,
    columns: &Columns,
    version: &Version<'_>,
    cells: Option<&Cells>,
) -> Result<(), AllocError> {
    let mut writer = Writer::new(Vec::new(alloc));
    writer.begin_object()?;
    writer.key("why")?;
    writer.string(version.why)?;
    writer.key("version")?;
    writer.string(version.word)?;
    writer.key("key")?;
    put_members(alloc, &mut writer, &columns.key, version.key.iter())?;
    writer.key("row")?;
    match cells {
        Some(cells) => put_members(alloc, &mut writer, &columns.rest, cells.iter())?,
        None => writer.null()?,
    }
    writer.end_object()?;
    text.extend_from_slice(&writer.into_inner())?;
    text.push(b'\n')?;
    Ok(())
}

fn markdown_table(alloc: Global, stopped: &Stopped<'_>) -> Result<Vec<u8>, AllocError> {
    let mut text = Vec::new(alloc);
    put_items(&mut text, stopped.said)?;
    put_heading(alloc, &mut text, stopped.columns)?;
    for Version {
        word,
        key,
        rows,
        ..
    } in stopped.versions {
        match rows {
            Some(rows) => {
                for cells in rows.rows() {
                    put_word(&mut text, word)?;
                    put_columns(alloc, &mut text, key.iter())?;
                    put_columns(alloc, &mut text, cells.iter())?;
                    text.push(b'\n')?;
                }
            }
            None => {
                put_word(&mut text, &format!(in alloc; "{word}, no row")?)?;
                put_columns(alloc, &mut text, key.iter())?;
                text.push(b'\n')?;
            }
        }
    }
    Ok(text)
}

fn html_page(alloc: Global, stopped: &Stopped<'_>) -> Result<Vec<u8>, AllocError> {
    let mut text = begin_page(alloc)?;
    put_paragraphs(&mut text, stopped.said)?;
    text.extend_from_slice(b"<table>\n<thead>\n<tr><th></th>")?;
    put_elements(alloc, &mut text, "th", stopped.columns.key.iter())?;
    put_elements(alloc, &mut text, "th", stopped.columns.rest.iter())?;
    text.extend_from_slice(b"</tr>\n</thead>\n<tbody>\n")?;
    for Version {
        word,
        key,
        rows,
        ..
    } in stopped.versions {
        match rows {
            Some(rows) => {
                for cells in rows.rows() {
                    put_html_row(alloc, &mut text, word, key, Some(cells))?;
                }
            }
            None => {
                let said = format!(in alloc; "{word}, no row")?;
                put_html_row(alloc, &mut text, &said, key, None)?;
            }
        }
    }
    text.extend_from_slice(b"</tbody>\n</table>\n")?;
    end_page(&mut text)?;
    Ok(text)
}

// Puts the line of a row of a version.
fn put_html_row(
    alloc: Global,
    text: &mut Vec<u8>,
    word: &str,
    key: &Key,
    cells: Option<&Cells>,
) -> Result<(), AllocError> {
    text.extend_from_slice(b"<tr>")?;
    put_element(text, "th", word)?;
    put_elements(alloc, text, "th", key.iter())?;
    if let Some(cells) = cells {
        put_elements(alloc, text, "td", cells.iter())?;
    }
    text.extend_from_slice(b"</tr>\n")?;
    Ok(())
}

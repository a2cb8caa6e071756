//! Rows of a join or of a look-up, as JSON. Bytes that are no UTF-8 stand there as in changes.

use crate::json_lines::put_cells;
use json::Writer;
use keyed_columns::{Columns, JoinColumns};
use keyed_rows::{Cells, Key};
use std::alloc::{AllocError, Global};

/// The cells of a row beside its key, in each table that has it.
#[derive(Clone, Copy)]
pub struct JsonSides<'a> {
    pub left: Option<&'a Cells>,
    pub right: Option<&'a Cells>,
}

/// Puts a row as an object on a line: its key, by the names of the left table, and its other cells as `left` and as `right`, as far as it
/// has that side.
///
/// # Errors
///
/// Returns `AllocError` if a request for memory was refused.
pub fn put_json_row(
    alloc: Global,
    text: &mut Vec<u8>,
    columns: &JoinColumns,
    key: &Key,
    sides: JsonSides<'_>,
) -> Result<(), AllocError> {
    let mut writer = Writer::new(Vec::new(alloc));
    writer.begin_object()?;
    writer.key("key")?;
    put_cells(alloc, &mut writer, &columns.left.key, key.iter())?;
    put_side(alloc, &mut writer, "left", &columns.left, sides.left)?;
    put_side(alloc, &mut writer, "right", &columns.right, sides.right)?;
    writer.end_object()?;
    text.extend_from_slice(&writer.into_inner())?;
    text.push(b'\n')?;
    Ok(())
}

// Puts the cells of a side under its name, if the row has that side.
fn put_side(
    alloc: Global,
    writer: &mut Writer,
    name: &str,
    columns: &Columns,
    cells: Option<&Cells>,
) -> Result<(), AllocError> {
    match cells {
        Some(cells) => {
            writer.key(name)?;
            put_cells(alloc, writer, &columns.rest, cells.iter())
        }
        None => Ok(()),
    }
}

//! In how many rows each column changed, and its commonest changes, as a table on a terminal and as JSON.
//!
//! Cells are shown as where rows are told, so that no control character reaches a terminal.

use crate::column_counts::{ColumnCount, CountedChange};
use crate::json_lines::{json_counts, put_count, put_text};
use crate::report::Report;
use json::Writer;
use keyed_faults::ShownName;
use keyed_layout::{Grid, Line, line_up};
use std::alloc::{AllocError, Global};
use std::fmt::Write;

/// What became of the columns, a line for each change that is told of a column, below the names of what stands there, and the counts of rows.
///
/// # Errors
///
/// Returns `AllocError` if a request for memory was refused.
pub fn summary_table(
    alloc: Global,
    report: &Report<'_>,
    counts: &[ColumnCount<'_>],
) -> Result<String, AllocError> {
    let mut text = format!(in alloc; "{}", report.column_changes)?;
    let mut grid: Grid = Vec::new(alloc);
    if !counts.is_empty() {
        grid.push(heading(alloc)?)?;
    }
    for count in counts {
        put_column(alloc, &mut grid, count)?;
    }
    text.push_str(&line_up(alloc, &grid)?)?;
    writeln!(text, "{}", report.counts)?;
    Ok(text)
}

// What stands above the lines.
fn heading(alloc: Global) -> Result<Line, AllocError> {
    let column = String::from_str(alloc, "column")?;
    let rows = String::from_str(alloc, "rows")?;
    let times = String::from_str(alloc, "times")?;
    let change = String::from_str(alloc, "change")?;
    line_of(alloc, column, rows, times, change)
}

// Puts the lines of a column, of which the first one has its name, and how many rows changed there.
fn put_column(alloc: Global, grid: &mut Grid, count: &ColumnCount<'_>) -> Result<(), AllocError> {
    let mut name = format!(in alloc; "{}", ShownName(count.name))?;
    let mut rows = format!(in alloc; "{}", count.rows)?;
    for counted in &count.commonest {
        let (old, new) = counted.change;
        let times = format!(in alloc; "{}", counted.rows)?;
        let change = format!(in alloc; "{} -> {}", ShownName(old), ShownName(new))?;
        grid.push(line_of(alloc, name, rows, times, change)?)?;
        name = String::new(alloc);
        rows = String::new(alloc);
    }
    Ok(())
}

// A line of these texts, with no colour.
fn line_of(
    alloc: Global,
    name: String,
    rows: String,
    times: String,
    change: String,
) -> Result<Line, AllocError> {
    let mut cells = Vec::new(alloc);
    cells.push(name)?;
    cells.push(rows)?;
    cells.push(times)?;
    cells.push(change)?;
    Ok(Line {
        colour: None,
        cells,
    })
}

/// An object for each column that changed, on a line each, and one of the counts of rows and the columns that one of the tables alone has.
///
/// # Errors
///
/// Returns `AllocError` if a request for memory was refused.
pub fn summary_json(
    alloc: Global,
    report: &Report<'_>,
    counts: &[ColumnCount<'_>],
) -> Result<Vec<u8>, AllocError> {
    let mut text = Vec::new(alloc);
    for count in counts {
        let object = column_object(alloc, count)?;
        text.extend_from_slice(&object)?;
        text.push(b'\n')?;
    }
    text.extend_from_slice(&json_counts(alloc, report)?)?;
    Ok(text)
}

// The object of a column.
fn column_object(alloc: Global, count: &ColumnCount<'_>) -> Result<Vec<u8>, AllocError> {
    let mut writer = Writer::new(Vec::new(alloc));
    writer.begin_object()?;
    writer.key("column")?;
    put_text(alloc, &mut writer, count.name)?;
    put_count(&mut writer, "rows", count.rows)?;
    writer.key("changes")?;
    writer.begin_array()?;
    for counted in &count.commonest {
        put_change(alloc, &mut writer, counted)?;
    }
    writer.end_array()?;
    writer.end_object()?;
    Ok(writer.into_inner())
}

// Puts the object of a change: the cell as it was and as it is, and how many rows have it.
fn put_change(
    alloc: Global,
    writer: &mut Writer,
    counted: &CountedChange<'_>,
) -> Result<(), AllocError> {
    let (old, new) = counted.change;
    writer.begin_object()?;
    writer.key("old")?;
    put_text(alloc, writer, old)?;
    writer.key("new")?;
    put_text(alloc, writer, new)?;
    put_count(writer, "rows", counted.rows)?;
    writer.end_object()
}

//! Text as a person reads it in a terminal: cells lined up in columns.
ghost use Rattle.std.specs.Prelude.{◌≡◌, ◌++◌, ◌∷◌, [], IfOk, OnOk, codes, string_bytes};
ghost use Rattle.std.specs.Prelude.{None, Some, replicate};
ghost use Rattle.keyed_layout.specs.Lines.{AppendsBoth, AppendsShown, AreBothShown, AreLinedUp};
ghost use Rattle.keyed_layout.specs.Lines.{AreNamedBoth, AreSpaced, IsLineOf, IsNamed, IsSpaced};
ghost use Rattle.keyed_layout.specs.Lines.{IsTextOf, Puts, begin_of, end_of, picked_cells};
ghost use Rattle.keyed_layout.specs.Lines.{picked_pairs, texts_of};

use keyed_columns::Columns;
use keyed_faults::{ShownCell, shown_cell};
use keyed_numbers::{Alike, is_same_cell};
use keyed_rows::{Cells, Group, Iter, Key};
use std::alloc::{AllocError, Global};
use unicode_width::UnicodeWidthStr;

/// A colour of a terminal.
#[derive(Clone, Copy)]
pub enum Colour {
    Red,
    Green,
    Yellow,
}

// What makes a terminal show what follows in a colour, if there is one.
fn begin(colour: Option<Colour>) -> &'static str
    ensures { result.now ≡ begin_of colour }
{
    match colour {
        Some(Colour::Red) => "\x1b[31m",
        Some(Colour::Green) => "\x1b[32m",
        Some(Colour::Yellow) => "\x1b[33m",
        None => "",
    }
}

// What ends a colour, if there is one.
fn end(colour: Option<Colour>) -> &'static str
    ensures { result.now ≡ end_of colour }
{
    match colour {
        Some(_) => "\x1b[0m",
        None => "",
    }
}

/// A line of cells, and its colour, if it has one.
#[derive(Drop)]
pub struct Line {
    pub colour: Option<Colour>,
    pub cells: Vec<String>,
}

impl Line {
    /// How many spaces stand between columns.
    pub const GAP: usize = 2;
}

/// Lines of cells.
pub type Grid = Vec<Line>;

/// Puts cells after those of a line.
///
/// # Errors
///
/// Returns `AllocError` if a request for memory was refused.
pub fn put_shown(alloc: Global, line: &mut Line, cells: &Cells) -> Result<(), AllocError>
    ensures { OnOk result (AppendsShown cells.now line.old line.new) }
{
    put_cells_of(alloc, line, cells.iter())
}

fn put_cells_of(alloc: Global, line: &mut Line, cells: Iter<'_>) -> Result<(), AllocError>
    ensures { OnOk result (AppendsShown cells.entry line.old line.new) }
{
    for cell in cells {
        put_cell(alloc, line, cell)?;
    }
    Ok(())
}

// Puts a cell after those of a line.
fn put_cell(alloc: Global, line: &mut Line, cell: &[u8]) -> Result<(), AllocError>
    ensures { OnOk result (AppendsShown (cell.now ∷ []) line.old line.new) }
{
    let text = shown_cell(alloc, cell)?;
    line.cells.push(text)?;
    Ok(())
}

/// Puts those cells after those of a line that are picked, of which each has its flag.
///
/// # Errors
///
/// Returns `AllocError` if a request for memory was refused.
pub fn put_picked(
    alloc: Global,
    line: &mut Line,
    picked: &[bool],
    cells: &Cells,
) -> Result<(), AllocError>
    ensures { OnOk result (AppendsShown (picked_cells picked.now cells.now) line.old line.new) }
{
    for (cell, is_picked) in cells.iter().zip(picked.iter()) {
        if *is_picked {
            put_cell(alloc, line, cell)?;
        }
    }
    Ok(())
}

/// The names of the columns, after an empty cell.
///
/// # Errors
///
/// Returns `AllocError` if a request for memory was refused.
pub fn heading(alloc: Global, columns: &Columns) -> Result<Line, AllocError>
    ensures { IfOk result (IsLineOf [] (columns.now.key ++ columns.now.rest)) }
{
    let mut line = line_of_word(alloc, "")?;
    put_shown(alloc, &mut line, &columns.key)?;
    put_shown(alloc, &mut line, &columns.rest)?;
    Ok(line)
}

/// The names of the key's columns and of those others that are picked, after an empty cell.
///
/// # Errors
///
/// Returns `AllocError` if a request for memory was refused.
pub fn heading_of_picked(
    alloc: Global,
    columns: &Columns,
    picked: &[bool],
) -> Result<Line, AllocError>
    ensures { IfOk result (IsLineOf [] (columns.now.key ++ picked_cells picked.now columns.now.rest)) }
{
    let mut line = line_of_word(alloc, "")?;
    put_shown(alloc, &mut line, &columns.key)?;
    put_picked(alloc, &mut line, picked, &columns.rest)?;
    Ok(line)
}

/// A line with no colour that begins with a word and the cells of a key.
///
/// # Errors
///
/// Returns `AllocError` if a request for memory was refused.
pub fn line_under(alloc: Global, word: &str, key: &Key) -> Result<Line, AllocError>
    ensures { IfOk result (IsLineOf word.now key.now) }
{
    let mut line = line_of_word(alloc, word)?;
    put_cells_of(alloc, &mut line, key.iter())?;
    Ok(line)
}

// A line with no colour of one word.
fn line_of_word(alloc: Global, word: &str) -> Result<Line, AllocError>
    ensures { IfOk result (IsLineOf word.now []) }
{
    let text = String::from_str(alloc, word)?;
    let mut cells = Vec::new(alloc);
    cells.push(text)?;
    Ok(Line {
        colour: None,
        cells,
    })
}

/// Puts the picked cells of both versions of a row after those of a line, each pair as one cell. Two that are the same as the cells of
/// their column are compared are one, and the new one is put.
///
/// # Errors
///
/// Returns `AllocError` if a request for memory was refused.
pub fn put_both(
    alloc: Global,
    line: &mut Line,
    alikes: &[Alike<'_>],
    picked: &[bool],
    old: &Cells,
    new: &Cells,
) -> Result<(), AllocError>
    ensures { OnOk result
        (AppendsBoth (picked_pairs alikes.now picked.now old.now new.now) line.old line.new) }
{
    let cells = old.iter().zip(new.iter());
    for ((cell, next), (alike, is_picked)) in cells.zip(alikes.iter().zip(picked.iter())) {
        if *is_picked {
            put_pair(alloc, line, *alike, cell, next)?;
        }
    }
    Ok(())
}

// Puts two cells as one after those of a line.
fn put_pair(
    alloc: Global,
    line: &mut Line,
    alike: Alike<'_>,
    old: &[u8],
    new: &[u8],
) -> Result<(), AllocError>
    ensures { OnOk result
        (AppendsBoth ((alike.entry, (old.now, new.now)) ∷ []) line.old line.new) }
{
    let text = both_shown(alloc, alike, old, new)?;
    line.cells.push(text)?;
    Ok(())
}

// Two cells as one: the new one where they are the same.
fn both_shown(alloc: Global, alike: Alike<'_>, old: &[u8], new: &[u8]) -> Result<String, AllocError>
    ensures { IfOk result
        (λ text. AreBothShown (alike.entry, (old.now, new.now)) (string_bytes text)) }
{
    if is_same_cell(alike, old, new) {
        let text = shown_cell(alloc, new)?;
        Ok(text)
    } else {
        let text = both_named(alloc, old, new)?;
        Ok(text)
    }
}

// Two cells that differ, of which an empty one is `""`.
fn both_named(alloc: Global, old: &[u8], new: &[u8]) -> Result<String, AllocError>
    ensures { IfOk result (λ text. AreNamedBoth old.now new.now (string_bytes text)) }
{
    let mut text = named(alloc, old)?;
    let after = named(alloc, new)?;
    text.push_str(" -> ")?;
    text.push_str(&after)?;
    Ok(text)
}

// A cell among other text.
fn named(alloc: Global, cell: &[u8]) -> Result<String, AllocError>
    ensures { IfOk result (λ text. IsNamed cell.now (string_bytes text)) }
{
    match cell {
        [] => String::from_str(alloc, "\"\""),
        _ => shown_cell(alloc, cell),
    }
}

/// Puts a version of the rows under a key, a line each.
///
/// # Errors
///
/// Returns `AllocError` if a request for memory was refused.
pub fn put_version(
    alloc: Global,
    grid: &mut Grid,
    name: &str,
    key: &Key,
    rows: Option<&Group>,
) -> Result<(), AllocError> {
    match rows {
        Some(rows) => {
            for cells in rows.rows() {
                let mut line = line_under(alloc, name, key)?;
                put_shown(alloc, &mut line, cells)?;
                grid.push(line)?;
            }
            Ok(())
        }
        None => put_no_row(alloc, grid, name, key),
    }
}

fn put_no_row(alloc: Global, grid: &mut Grid, name: &str, key: &Key) -> Result<(), AllocError> {
    let mut line = line_under(alloc, name, key)?;
    line.cells
        .push(String::from_str(alloc, ShownCell::NO_ROW)?)?;
    grid.push(line)?;
    Ok(())
}

/// The lines with their cells lined up, two spaces between columns, and no space at the end of a line.
///
/// # Errors
///
/// Returns `AllocError` if a request for memory was refused.
pub fn line_up(alloc: Global, grid: &[Line]) -> Result<String, AllocError>
    ensures { IfOk result (λ text. AreLinedUp grid.now (string_bytes text)) }
{
    let widths = widths_of(alloc, grid)?;
    let mut text = String::new(alloc);
    for line in grid {
        put_line(&mut text, line, &widths)?;
    }
    Ok(text)
}

/// How many columns of a terminal the widest cell of each column takes.
///
/// # Errors
///
/// Returns `AllocError` if a request for memory was refused.
pub fn widths_of(alloc: Global, grid: &[Line]) -> Result<Vec<usize>, AllocError> {
    let mut widths: Vec<usize> = Vec::new(alloc);
    for line in grid {
        widen(&mut widths, &line.cells)?;
    }
    Ok(widths)
}

// Makes columns as wide as the cells of a line.
fn widen(widths: &mut Vec<usize>, line: &[String]) -> Result<(), AllocError> {
    for (place, cell) in line.iter().enumerate() {
        let width = cell.as_str().width();
        match widths.get_mut(place) {
            Some(widest) => *widest = width.max(*widest),
            None => widths.push(width)?,
        }
    }
    Ok(())
}

// Puts a line whose columns have these widths.
fn put_line(text: &mut String, line: &Line, widths: &[usize]) -> Result<(), AllocError>
    ensures { OnOk result (Puts (IsTextOf line.now) (string_bytes text.old) (string_bytes text.new)) }
{
    text.push_str(begin(line.colour))?;
    put_cells(text, line, widths)?;
    text.push_str(end(line.colour))?;
    text.push('\n')?;
    Ok(())
}

// Puts the cells of a line. The gap before a cell is put with it, so that none stands after the last one.
fn put_cells(text: &mut String, line: &Line, widths: &[usize]) -> Result<(), AllocError>
    ensures { OnOk result
        (Puts (AreSpaced (texts_of line.now)) (string_bytes text.old) (string_bytes text.new)) }
{
    let mut widths = widths.iter();
    let mut gap: usize = 0;
    for cell in &line.cells {
        put_after(text, gap, cell)?;
        gap = gap_behind(gap, cell, widths.next());
    }
    Ok(())
}

// Puts so many spaces and a cell, or nothing where the cell is empty.
fn put_after(text: &mut String, gap: usize, cell: &str) -> Result<(), AllocError>
    ensures { OnOk result (Puts (IsSpaced cell.now) (string_bytes text.old) (string_bytes text.new)) }
{
    if !cell.is_empty() {
        put_spaces(text, gap)?;
        text.push_str(cell)?;
    }
    Ok(())
}

// Puts so many spaces.
fn put_spaces(text: &mut String, count: usize) -> Result<(), AllocError>
    ensures { OnOk result (string_bytes text.new ≡ string_bytes text.old ++ replicate count 32) }
{
    for _ in 0..count {
        text.push(' ')?;
    }
    Ok(())
}

// How many spaces stand before the next cell, where so many stood before this one in a column of this width.
fn gap_behind(gap: usize, cell: &str, widest: Option<&usize>) -> usize {
    let before = if cell.is_empty() { gap } else { 0 };
    let width = cell.width();
    let widest = match widest {
        Some(widest) => *widest,
        None => width,
    };
    let behind = widest.saturating_sub(width).saturating_add(Line::GAP);
    before.saturating_add(behind)
}

//! What changed between two tables, as a table on a terminal.
ghost use Rattle.std.specs.Prelude.{◌≡◌, ◌++◌, ◌∷◌, [], ℕ, IfOk, List, None, OnOk, length, map, string_bytes};
ghost use Rattle.either_or_both.specs.Prelude.{map_places};
ghost use Rattle.keyed_layout.specs.Lines.{AreLinedUp, texts_of};
ghost use Rattle.keyed_layout.specs.declared.lined_up.Line.{Line};
ghost use Rattle.keyed_reports.specs.RowChanges.{row_behind};
ghost use Rattle.keyed_reports.specs.SaidAfter.{more_text, text_after};
ghost use Rattle.keyed_reports.specs.TableLines.{AreCells, AreLinesOf, HasTextOfRows, IsLineOfRow, IsTable};
ghost use Rattle.keyed_reports.specs.TableLines.{IsTextOfRows};

use crate::blocks::{blocks, lead_of};
use crate::changed_rows::{RowChange, word_of};
use crate::report::Report;
use crate::shown_columns::{columns_of, left_out};
use either_or_both::EitherOrBoth;
use eob_joins::Change;
use keyed_layout::{
    Colour, Grid, Line, heading_of_picked, line_under, line_up, put_both, put_picked, widths_of,
};
use keyed_numbers::Alike;
use keyed_requests::Colours;
use keyed_rows::Cells;
use std::alloc::{AllocError, Global};

/// What became of the columns, the rows, each in the colour of its change where there are colours, how many columns are not shown, if any
/// are not, and the counts. Where the width of a line is bounded, the rows stand in blocks of columns, each with the key, and an empty line
/// between two.
///
/// # Errors
///
/// Returns `AllocError` if a request for memory was refused.
pub fn table(alloc: Global, colours: Colours, report: &Report<'_>) -> Result<String, AllocError>
    ensures { IfOk result (λ text. report.now.view.width ≡ None → IsTable report.now.view
        report.now.alikes.now report.now.columns.now report.now.more report.now.counts
        (map row_behind report.now.rows.now) (string_bytes text)) }
{
    let before = format!(in alloc; "{}", report.column_changes)?;
    let shown = columns_of(alloc, report)?;
    let rows = render_rows(alloc, colours, report, &shown)?;
    let after = said_after(alloc, report, &shown)?;
    let text = joined(before, &rows, &after)?;
    Ok(text)
}

// How many rows and how many columns are not shown, if any are not, and the counts.
fn said_after(alloc: Global, report: &Report<'_>, shown: &[bool]) -> Result<String, AllocError>
    ensures { IfOk result (λ text. string_bytes text
        ≡ text_after (length report.now.rows.now) report.now.more shown.now report.now.counts) }
{
    let more = said_of_more(alloc, report.more)?;
    let hidden = left_out(alloc, report, shown)?;
    let counts = format!(in alloc; "{}\n", report.counts)?;
    let text = joined(more, &hidden, &counts)?;
    Ok(text)
}

// How many more rows there are, where there are any.
fn said_of_more(alloc: Global, more: usize) -> Result<String, AllocError>
    ensures { IfOk result (λ text. string_bytes text ≡ more_text more) }
{
    if more == 0 {
        Ok(String::new(alloc))
    } else {
        format!(in alloc; "and {more} more\n")
    }
}

// Three texts as one.
fn joined(first: String, next: &str, last: &str) -> Result<String, AllocError>
    ensures { IfOk result
        (λ text. string_bytes text ≡ string_bytes first ++ (next.now ++ last.now)) }
{
    let mut text = first;
    text.push_str(next)?;
    text.push_str(last)?;
    Ok(text)
}

// The rows, under the names of the columns that are shown, in blocks of these where the width is bounded. Empty where there is none.
fn render_rows(
    alloc: Global,
    colours: Colours,
    report: &Report<'_>,
    shown: &[bool],
) -> Result<String, AllocError>
    ensures { IfOk result (λ text. report.now.view.width ≡ None → IsTextOfRows report.now.alikes.now
        shown.now report.now.columns.now (map row_behind report.now.rows.now) (string_bytes text)) }
{
    if report.rows.is_empty() {
        return Ok(String::new(alloc));
    }
    match report.view.width {
        None => {
            let text = whole_rows(alloc, colours, report, shown)?;
            Ok(text)
        }
        Some(most) => render_blocks(alloc, colours, report, shown, most),
    }
}

// The rows under the names of the columns that are shown, lined up.
fn whole_rows(
    alloc: Global,
    colours: Colours,
    report: &Report<'_>,
    shown: &[bool],
) -> Result<String, AllocError>
    ensures { IfOk result (λ text. (grid : List Line) × AreLinesOf report.now.alikes.now shown.now
        report.now.columns.now (map row_behind report.now.rows.now) grid × AreLinedUp grid (string_bytes text)) }
{
    let grid = grid_of(alloc, colours, report, shown)?;
    let text = line_up(alloc, &grid)?;
    Ok(text)
}

// The same in blocks of columns whose lines take so many columns of a terminal at most.
fn render_blocks(
    alloc: Global,
    colours: Colours,
    report: &Report<'_>,
    shown: &[bool],
    most: usize,
) -> Result<String, AllocError> {
    let grid = grid_of(alloc, colours, report, shown)?;
    let blocks = blocks_of(alloc, report, shown, &grid, most)?;
    if blocks.len() == 1 {
        return line_up(alloc, &grid);
    }
    drop(grid);
    let mut text = String::new(alloc);
    for (place, block) in blocks.iter().enumerate() {
        if place > 0 {
            text.push('\n')?;
        }
        text.push_str(&whole_rows(alloc, colours, report, block)?)?;
    }
    Ok(text)
}

// The columns that are shown in blocks whose lines take so many columns of a terminal at most.
fn blocks_of(
    alloc: Global,
    report: &Report<'_>,
    shown: &[bool],
    grid: &[Line],
    most: usize,
) -> Result<Vec<Vec<bool>>, AllocError> {
    let widths = widths_of(alloc, grid)?;
    let first = report.columns.key.len().saturating_add(1);
    let lead = lead_of(&widths, first);
    blocks(alloc, shown, widths.get(first..).unwrap_or(&[]), lead, most)
}

// The rows, under the names of the columns, each of the key and of those that are shown.
fn grid_of(
    alloc: Global,
    colours: Colours,
    report: &Report<'_>,
    shown: &[bool],
) -> Result<Grid, AllocError>
    ensures { IfOk result (λ grid. AreLinesOf report.now.alikes.now shown.now report.now.columns.now
        (map row_behind report.now.rows.now) grid.items) }
{
    let heading = heading_of_picked(alloc, report.columns, shown)?;
    let mut grid = grid_under(alloc, heading)?;
    for row in report.rows {
        let line = line_of(alloc, colours, report.alikes, shown, row)?;
        grid.push(line)?;
    }
    Ok(grid)
}

// A grid of one line.
fn grid_under(alloc: Global, heading: Line) -> Result<Grid, AllocError>
    ensures { IfOk result (λ grid. grid.items ≡ heading ∷ []) }
{
    let mut grid = Vec::new(alloc);
    grid.push(heading)?;
    Ok(grid)
}

// The line of a row that changed, of the columns that are shown.
fn line_of(
    alloc: Global,
    colours: Colours,
    alikes: &[Alike<'_>],
    shown: &[bool],
    row: &RowChange<'_>,
) -> Result<Line, AllocError>
    ensures { IfOk result (IsLineOfRow alikes.now shown.now (row_behind row.now)) }
{
    let (key, change) = *row;
    let mut line = line_under(alloc, word_of(change), key)?;
    put_row(alloc, &mut line, alikes, shown, change)?;
    Ok(coloured(line, colours, change))
}

// Puts the cells of a row that changed, of the columns that are shown, after those of a line.
fn put_row(
    alloc: Global,
    line: &mut Line,
    alikes: &[Alike<'_>],
    shown: &[bool],
    change: Change<&Cells>,
) -> Result<(), AllocError>
    ensures { OnOk result ((cells : List (List ℕ)) × AreCells alikes.now shown.now
        (map_places (λ cells. cells.now) (λ cells. cells.now) change.entry) cells
        × (texts_of line.new ≡ texts_of line.old ++ cells)) }
{
    match change {
        EitherOrBoth::Left(cells) => put_picked(alloc, line, shown, cells),
        EitherOrBoth::Both(old, new) => {
            put_both(alloc, line, alikes, shown, old, new)?;
            Ok(())
        }
        EitherOrBoth::Right(cells) => put_picked(alloc, line, shown, cells),
    }
}

// A line in the colour of its change, where there are colours.
fn coloured(line: Line, colours: Colours, change: Change<&Cells>) -> Line
    ensures { texts_of result ≡ texts_of line }
{
    let colour = match colours {
        Colours::On => Some(colour_of(change)),
        Colours::Off => None,
    };
    Line { colour, ..line }
}

fn colour_of(change: Change<&Cells>) -> Colour {
    match change {
        EitherOrBoth::Left(_) => Colour::Red,
        EitherOrBoth::Both(..) => Colour::Yellow,
        EitherOrBoth::Right(_) => Colour::Green,
    }
}

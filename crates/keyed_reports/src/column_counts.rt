//! In how many of the rows that changed each column did, and which changes of its cells are the commonest.
ghost use Rattle.std.specs.Prelude.{◌≡◌, ◌<◌, IfOk, IfSome, filter, length, option_map, unwrap_or};
ghost use Rattle.either_or_both.specs.Prelude.{left_place, right_place};
ghost use Rattle.keyed_reports.specs.ColumnCounts.{change_at, change_of, is_changed_at};

use crate::changed_rows::RowChange;
use either_or_both::EitherOrBoth;
use eob_joins::Change;
use indexmap::IndexMap;
use keyed_numbers::{Alike, is_same_cell};
use keyed_rows::Cells;
use std::alloc::{AllocError, Global};

/// A cell as it was, and as it is.
pub type CellChange<'a> = (&'a [u8], &'a [u8]);

/// A change of cells, and how many rows have it.
#[derive(Clone, Copy)]
pub struct CountedChange<'a> {
    pub change: CellChange<'a>,
    pub rows: usize,
}

/// A column that changed.
#[derive(Drop)]
pub struct ColumnCount<'a> {
    pub name: &'a [u8],
    /// In how many rows.
    pub rows: usize,
    /// Its commonest changes, three at most, the commonest first. Of two that are as common, that one comes first whose old cell is less as
    /// bytes, or else its new one.
    pub commonest: Vec<CountedChange<'a>>,
}

// How many changes of a column are told.
const TOLD: usize = 3;

/// The columns beside the key that changed in some row, in their order. Rows that came or went changed in no column. The cells
/// of each column are compared so.
///
/// # Errors
///
/// Returns `AllocError` if a request for memory was refused.
pub fn column_counts<'a>(
    alloc: Global,
    names: &'a Cells,
    alikes: &[Alike<'_>],
    rows: &[RowChange<'a>],
) -> Result<Vec<ColumnCount<'a>>, AllocError> {
    let mut counts = Vec::new(alloc);
    for (place, (name, alike)) in names.iter().zip(alikes.iter()).enumerate() {
        if let Some(count) = column_count(alloc, name, place, *alike, rows)? {
            counts.push(count)?;
        }
    }
    Ok(counts)
}

// The column at a place, if it changed.
fn column_count<'a>(
    alloc: Global,
    name: &'a [u8],
    place: usize,
    alike: Alike<'_>,
    rows: &[RowChange<'a>],
) -> Result<Option<ColumnCount<'a>>, AllocError>
    ensures rows { IfOk result (λ column. unwrap_or (option_map (λ found. found.rows) column) 0
        ≡ length (filter (λ row. is_changed_at alike.entry place
        (option_map (λ cells. cells.now) (left_place row.1))
        (option_map (λ cells. cells.now) (right_place row.1))) rows.now)) }
    ensures some { IfOk result (λ column. IfSome column (λ found. 0 < found.rows)) }
{
    let count = count_changed_at(place, alike, rows);
    if count == 0 {
        return Ok(None);
    }
    let changes = changes_at(alloc, place, alike, rows)?;
    Ok(Some(ColumnCount {
        name,
        rows: count,
        commonest: commonest(alloc, &changes)?,
    }))
}

// In how many rows the column at a place changed.
fn count_changed_at(place: usize, alike: Alike<'_>, rows: &[RowChange<'_>]) -> usize
    ensures { result ≡ length (filter (λ row. is_changed_at alike.entry place
        (option_map (λ cells. cells.now) (left_place row.1))
        (option_map (λ cells. cells.now) (right_place row.1))) rows.now) }
{
    rows.iter()
        .filter(|row| is_changed_at(place, alike, row.1))
        .count()
}

// Whether a row changed at a place.
fn is_changed_at(place: usize, alike: Alike<'_>, change: Change<&Cells>) -> bool
    ensures { result ≡ is_changed_at alike.entry place
        (option_map (λ cells. cells.now) (left_place change.entry))
        (option_map (λ cells. cells.now) (right_place change.entry)) }
{
    change_at(place, alike, change).is_some()
}

// The cells at a place of the rows that changed there.
fn changes_at<'a>(
    alloc: Global,
    place: usize,
    alike: Alike<'_>,
    rows: &[RowChange<'a>],
) -> Result<Vec<CellChange<'a>>, AllocError> {
    let mut changes = Vec::new(alloc);
    for row in rows {
        if let Some(change) = change_at(place, alike, row.1) {
            changes.push(change)?;
        }
    }
    Ok(changes)
}

// What became of the cell of a row at a place, if the row changed there.
fn change_at<'a>(
    place: usize,
    alike: Alike<'_>,
    change: Change<&'a Cells>,
) -> Option<CellChange<'a>>
    ensures { option_map (λ cells. (cells.0.now, cells.1.now)) result ≡ change_at alike.entry place
        (option_map (λ cells. cells.now) (left_place change.entry))
        (option_map (λ cells. cells.now) (right_place change.entry)) }
{
    match change {
        EitherOrBoth::Left(_) => None,
        EitherOrBoth::Both(old, new) => change_of(alike, old.get(place), new.get(place)),
        EitherOrBoth::Right(_) => None,
    }
}

// Two cells, if they differ.
fn change_of<'a>(
    alike: Alike<'_>,
    cell: Option<&'a [u8]>,
    next: Option<&'a [u8]>,
) -> Option<CellChange<'a>>
    ensures { option_map (λ cells. (cells.0.now, cells.1.now)) result ≡ change_of alike.entry
        (option_map (λ cell. cell.now) cell.entry) (option_map (λ cell. cell.now) next.entry) }
{
    let cell = cell?;
    let next = next?;
    if is_same_cell(alike, cell, next) {
        None
    } else {
        Some((cell, next))
    }
}

// The commonest changes of a column.
fn commonest<'a>(
    alloc: Global,
    changes: &[CellChange<'a>],
) -> Result<Vec<CountedChange<'a>>, AllocError> {
    let mut first: Vec<CountedChange<'a>> = Vec::new(alloc);
    for (change, rows) in &counts_of(alloc, changes)? {
        put_in_place(
            &mut first,
            CountedChange {
                change: *change,
                rows: *rows,
            },
        )?;
    }
    Ok(first)
}

// How often each change is there.
fn counts_of<'a>(
    alloc: Global,
    changes: &[CellChange<'a>],
) -> Result<IndexMap<CellChange<'a>, usize>, AllocError> {
    let mut counts: IndexMap<CellChange<'a>, usize> = IndexMap::new(alloc);
    for change in changes {
        match counts.get_mut(change) {
            Some(count) => *count = count.saturating_add(1),
            None => {
                counts.insert(*change, 1)?;
            }
        }
    }
    Ok(counts)
}

// Puts a change before those that come after it, of which as many stay as are told.
fn put_in_place<'a>(
    first: &mut Vec<CountedChange<'a>>,
    counted: CountedChange<'a>,
) -> Result<(), AllocError> {
    let place = first.iter().position(|other| is_before(counted, *other));
    first.insert(place.unwrap_or(first.len()), counted)?;
    first.truncate(TOLD);
    Ok(())
}

// Whether a change is told before another.
fn is_before(counted: CountedChange<'_>, other: CountedChange<'_>) -> bool {
    counted.rows > other.rows || (counted.rows == other.rows && counted.change < other.change)
}

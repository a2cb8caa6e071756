//! Changes of some columns alone, with the cells in the others that a table has there.
ghost use Rattle.std.specs.Prelude.{◌≡◌, ◌++◌, ◌∷◌, [], IfOk, OnOk, option_map, unwrap_or};
ghost use Rattle.eob_both.specs.Places.{left_place};
ghost use Rattle.eob_joins.specs.Tables.{kept};
ghost use Rattle.keyed_tables.specs.Completed.{completed, completed_at, completed_cell};
ghost use Rattle.keyed_tables.specs.Completed.{completed_cells, completed_change, completed_rows};

use crate::table::Rows;
use eob_joins::Change;
use eob_lists::EitherOrBoth;
use eob_lists::join::outer_join;
use keyed_rows::{Cells, Group, Key};
use std::alloc::{AllocError, Global};

/// A table, and changes to be made to it.
#[derive(Drop)]
pub struct ToChange {
    pub old: Rows<Key, Group>,
    pub changes: Rows<Key, Change<Group>>,
}

// The same as lists.
#[derive(Drop)]
struct Lists {
    old: Vec<(Key, Group)>,
    changes: Vec<(Key, Change<Group>)>,
}

/// The changes to a table, of which some columns are missing: where one row stands in the table under the key of a change, and one goes or
/// comes by it, each of these has the cells of that row in the columns that are missing. The table is given back as it is.
///
/// # Errors
///
/// Returns `AllocError` if a request for memory was refused.
pub fn completed(
    alloc: Global,
    missing: &[bool],
    old: Rows<Key, Group>,
    changes: Rows<Key, Change<Group>>,
) -> Result<ToChange, AllocError>
    ensures old { IfOk result (λ made. made.old.pairs.items ≡ old.pairs.items) }
    ensures changes { IfOk result (λ made.
        made.changes.pairs.items ≡ completed missing.now old.pairs.items changes.pairs.items) }
{
    let joined = outer_join(alloc, old.pairs, changes.pairs)?;
    let lists = complete_rows(alloc, missing, joined)?;
    let old = Rows { pairs: lists.old };
    let changes = Rows {
        pairs: lists.changes,
    };
    Ok(ToChange { old, changes })
}

// What a join has of the table, and the changes completed.
fn complete_rows(
    alloc: Global,
    missing: &[bool],
    joined: Vec<(Key, EitherOrBoth<Group, Change<Group>>)>,
) -> Result<Lists, AllocError>
    ensures old { IfOk result (λ lists. lists.old.items ≡ kept left_place joined.items) }
    ensures changes { IfOk result
        (λ lists. lists.changes.items ≡ kept (completed_at missing.now) joined.items) }
{
    let mut old = Vec::new(alloc);
    let mut changes = Vec::new(alloc);
    for row in joined {
        put_row(alloc, missing, row, &mut old, &mut changes)?;
    }
    Ok(Lists { old, changes })
}

// Puts what a row of a join has of the table after its other rows, and the change there after the other changes.
fn put_row(
    alloc: Global,
    missing: &[bool],
    row: (Key, EitherOrBoth<Group, Change<Group>>),
    old: &mut Vec<(Key, Group)>,
    changes: &mut Vec<(Key, Change<Group>)>,
) -> Result<(), AllocError>
    ensures old { OnOk result (old.new.items ≡ old.old.items ++ kept left_place (row ∷ [])) }
    ensures changes { OnOk result
        (changes.new.items ≡ changes.old.items ++ kept (completed_at missing.now) (row ∷ [])) }
{
    let (key, place) = row;
    match place {
        EitherOrBoth::Left(rows) => {
            old.push((key, rows))?;
            Ok(())
        }
        EitherOrBoth::Both(rows, change) => {
            let again = key.clone()?;
            let change = completed_change(alloc, missing, &rows, change)?;
            old.push((again, rows))?;
            changes.push((key, change))?;
            Ok(())
        }
        EitherOrBoth::Right(change) => {
            changes.push((key, change))?;
            Ok(())
        }
    }
}

// A change of these rows, of which what goes and what comes is completed.
fn completed_change(
    alloc: Global,
    missing: &[bool],
    rows: &Group,
    change: Change<Group>,
) -> Result<Change<Group>, AllocError>
    ensures { IfOk result (λ made. made ≡ completed_change missing.now rows.now change) }
{
    match change {
        EitherOrBoth::Left(gone) => {
            let gone = completed_rows(alloc, missing, rows, gone)?;
            Ok(EitherOrBoth::Left(gone))
        }
        EitherOrBoth::Both(gone, come) => {
            let gone = completed_rows(alloc, missing, rows, gone)?;
            let come = completed_rows(alloc, missing, rows, come)?;
            Ok(EitherOrBoth::Both(gone, come))
        }
        EitherOrBoth::Right(come) => {
            let come = completed_rows(alloc, missing, rows, come)?;
            Ok(EitherOrBoth::Right(come))
        }
    }
}

// The rows that are given, completed where one row stands there and one is given.
fn completed_rows(
    alloc: Global,
    missing: &[bool],
    rows: &Group,
    given: Group,
) -> Result<Group, AllocError>
    ensures { IfOk result (λ group. group ≡ completed_rows missing.now rows.now given) }
{
    match completed_row(alloc, missing, rows.rows(), given.rows())? {
        Some(cells) => Ok(Group::new(cells)),
        None => Ok(given),
    }
}

// The cells of a row of each, where there is one of each.
fn completed_row(
    alloc: Global,
    missing: &[bool],
    rows: &[Cells],
    given: &[Cells],
) -> Result<Option<Cells>, AllocError>
    ensures { IfOk result (λ made. completed_rows missing.now rows.now given.now
        ≡ unwrap_or (option_map (λ cells. cells ∷ []) made) given.now) }
{
    if let [row] = rows {
        if let [one] = given {
            let cells = completed_cells(alloc, missing, row, one)?;
            return Ok(Some(cells));
        }
    }
    Ok(None)
}

// The cells of a row that is given, and where its column is missing those of another row.
fn completed_cells(
    alloc: Global,
    missing: &[bool],
    row: &Cells,
    given: &Cells,
) -> Result<Cells, AllocError>
    ensures { IfOk result (λ cells. cells ≡ completed_cells missing.now row.now given.now) }
{
    let mut cells = Cells::new(alloc);
    for (is_missing, (cell, one)) in missing.iter().zip(row.iter().zip(given.iter())) {
        cells.push(completed_cell(*is_missing, cell, one))?;
    }
    Ok(cells)
}

// The cell that is given, or the other one where its column is missing.
fn completed_cell<'c>(is_missing: bool, cell: &'c [u8], given: &'c [u8]) -> &'c [u8]
    ensures { result.now ≡ completed_cell is_missing cell.now given.now }
{
    if is_missing { cell } else { given }
}

//! Columns that are ignored where changes are written as CSV, and the changes in which another one differs.
ghost use Rattle.std.specs.Prelude.{◌≡◌, ◌||◌, IfErr, IfOk, OnOk, map, true, zip};
ghost use Rattle.std.specs.List.{list_all};
ghost use Rattle.keyed_faults.specs.Outside.{IsApart};
ghost use Rattle.keyed_columns.specs.ColumnNames.{has_name};
ghost use Rattle.keyed_columns.specs.KeyText.{AreNamesIn};
ghost use Rattle.keyed_jobs.specs.Beside.{AreCompared, changed_beside, is_compared, is_same_change};
ghost use Rattle.keyed_jobs.specs.Beside.{same_beside, same_cells, same_rows_beside};

use either_or_both::EitherOrBoth;
use eob_joins::Change;
use keyed_columns::{Columns, key_names};
use keyed_faults::Reason;
use keyed_rows::{Cells, Group, Key};
use std::alloc::{AllocError, Global};

/// Which of the columns beside the key are compared, where a text names those that are ignored as a record of CSV: each that is not
/// ignored, and each that one table alone has, whose cells come or go with it.
///
/// # Errors
///
/// Returns the errors of `key_names`, `NeitherHas` if a name that is given is that of no column, and `NoMemory` if a request for memory was
/// refused.
pub fn compared_columns(
    alloc: Global,
    text: &str,
    columns: &Columns,
    before: &Cells,
    after: &Cells,
) -> Result<Vec<bool>, Reason>
    ensures compared { IfOk result
        (λ compared. AreCompared text.now columns.now before.now after.now compared.items) }
    ensures why { IfErr result IsApart }
{
    let ignored = key_names(alloc, text)?;
    check_known(alloc, columns, &ignored.first)?;
    let compared = columns_beside(alloc, &ignored.first, before, after, &columns.rest)?;
    Ok(compared)
}

// Tells of the first of these names that is that of no column.
fn check_known(alloc: Global, columns: &Columns, names: &Cells) -> Result<(), Reason>
    ensures known { OnOk result
        (list_all (λ name. has_name columns.now.key name || has_name columns.now.rest name) names.now
        ≡ true) }
    ensures why { IfErr result IsApart }
{
    for name in names {
        if !has_column(columns, name) {
            return Err(Reason::NeitherHas(Vec::from_slice(alloc, name)?));
        }
    }
    Ok(())
}

// Whether a name is that of a column.
fn has_column(columns: &Columns, name: &[u8]) -> bool
    ensures { result ≡ (has_name columns.now.key name.now || has_name columns.now.rest name.now) }
{
    has_name(&columns.key, name) || has_name(&columns.rest, name)
}

// Which of these columns are compared.
fn columns_beside(
    alloc: Global,
    ignored: &Cells,
    before: &Cells,
    after: &Cells,
    names: &Cells,
) -> Result<Vec<bool>, AllocError>
    ensures { IfOk result
        (λ compared. compared.items ≡ map (is_compared ignored.now before.now after.now) names.now) }
{
    let mut compared = Vec::new(alloc);
    for name in names {
        compared.push(is_compared(ignored, before, after, name))?;
    }
    Ok(compared)
}

// Whether a column is compared.
fn is_compared(ignored: &Cells, before: &Cells, after: &Cells, name: &[u8]) -> bool
    ensures { result ≡ is_compared ignored.now before.now after.now name.now }
{
    !has_name(ignored, name) || !(has_name(before, name) && has_name(after, name))
}

/// Whether a name is one of others.
pub fn has_name(names: &Cells, name: &[u8]) -> bool
    ensures { result ≡ has_name names.now name.now }
{
    names.iter().any(|other| name == other)
}

/// The changes by which a row comes or goes, or is another one in a column that is compared.
///
/// # Errors
///
/// Returns `AllocError` if a request for memory was refused.
pub fn changed_beside(
    alloc: Global,
    compared: &[bool],
    changes: Vec<(Key, Change<Group>)>,
) -> Result<Vec<(Key, Change<Group>)>, AllocError>
    ensures { IfOk result (λ changed. changed.items ≡ changed_beside compared.now changes.items) }
{
    let mut changed = Vec::new(alloc);
    for (key, change) in changes {
        if !is_same_change(compared, &change) {
            changed.push((key, change))?;
        }
    }
    Ok(changed)
}

// Whether a key has the same rows before and after.
fn is_same_change(compared: &[bool], change: &Change<Group>) -> bool
    ensures { result ≡ is_same_change compared.now change.now }
{
    match change {
        EitherOrBoth::Left(_) => false,
        EitherOrBoth::Both(old, new) => are_same_rows(compared, old.rows(), new.rows()),
        EitherOrBoth::Right(_) => false,
    }
}

// Whether two groups have the same rows, one after another.
fn are_same_rows(compared: &[bool], rows: &[Cells], others: &[Cells]) -> bool
    ensures { result ≡ same_rows_beside compared.now rows.now others.now }
{
    rows.len() == others.len() && has_same_rows(compared, rows, others)
}

// Whether each row is the same as the one beside it.
fn has_same_rows(compared: &[bool], rows: &[Cells], others: &[Cells]) -> bool
    ensures { result
        ≡ list_all (λ pair. same_beside compared.now pair.0 pair.1) (zip rows.now others.now) }
{
    rows.iter()
        .zip(others.iter())
        .all(|(row, other)| is_same_row(compared, row, other))
}

// Whether two rows have as many cells, and the same ones in the columns that are compared.
fn is_same_row(compared: &[bool], row: &Cells, other: &Cells) -> bool
    ensures { result ≡ same_beside compared.now row.now other.now }
{
    row.len() == other.len() && has_same_cells(compared, row, other)
}

// Whether each cell of a column that is compared is the same as the one beside it.
fn has_same_cells(compared: &[bool], row: &Cells, other: &Cells) -> bool
    ensures { result ≡ same_cells compared.now row.now other.now }
{
    compared
        .iter()
        .zip(row.iter().zip(other.iter()))
        .all(|(compared, (cell, next))| !compared || cell == next)
}

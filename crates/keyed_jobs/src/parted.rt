//! Changes of which some do not fit a table, parted: what the table comes to with those that fit, and the others.
ghost use Rattle.std.specs.Prelude.{◌≡◌, ◌++◌, IfOk, None, OnOk, Some, option_map};
ghost use Rattle.std.specs.Option.{option_to_list};
ghost use Rattle.either_or_both.specs.Prelude.{right_place};
ghost use Rattle.eob_joins.specs.Tables.{IsKeptOfJoin, kept};
ghost use Rattle.keyed_jobs.specs.Answers.{key_cmp};
ghost use Rattle.keyed_jobs.specs.Rejected.{applied_where_fits, fits_there, rejected_at};

use crate::job::{Changes, Table};
use either_or_both::EitherOrBoth;
use either_or_both::join::outer_join;
use eob_joins::Change;
use keyed_rows::{Group, Key};
use std::alloc::{AllocError, Global};

/// What a table comes to with the changes made to it that fit, and the changes that do not.
#[derive(Drop)]
pub struct Parted {
    pub rows: Vec<(Key, Group)>,
    pub rejected: Vec<(Key, Change<Group>)>,
}

// The same of what stands under one key.
#[derive(Drop)]
struct PartedRow {
    row: Option<(Key, Group)>,
    rejected: Option<(Key, Change<Group>)>,
}

/// Parts changes by whether they fit a table, and makes those that do.
///
/// # Errors
///
/// Returns `AllocError` if a request for memory was refused.
pub fn part_changes(alloc: Global, old: Table, changes: Changes) -> Result<Parted, AllocError>
    ensures rows { IfOk result (λ parted. IsKeptOfJoin key_cmp applied_where_fits
        old.pairs.items changes.pairs.items parted.rows.items) }
    ensures rejected { IfOk result (λ parted. IsKeptOfJoin key_cmp rejected_at
        old.pairs.items changes.pairs.items parted.rejected.items) }
{
    let joined = outer_join(alloc, old.pairs, changes.pairs)?;
    let parted = part_rows(alloc, joined)?;
    Ok(parted)
}

// The same of the join of both.
fn part_rows(
    alloc: Global,
    joined: Vec<(Key, EitherOrBoth<Group, Change<Group>>)>,
) -> Result<Parted, AllocError>
    ensures rows { IfOk result (λ parted. parted.rows.items ≡ kept applied_where_fits joined.items) }
    ensures rejected { IfOk result
        (λ parted. parted.rejected.items ≡ kept rejected_at joined.items) }
{
    let mut rows = Vec::new(alloc);
    let mut rejected = Vec::new(alloc);
    for row in joined {
        let parted = part_row(row)?;
        put_some(&mut rows, parted.row)?;
        put_some(&mut rejected, parted.rejected)?;
    }
    Ok(Parted { rows, rejected })
}

// Puts an item after the others, if there is one.
fn put_some<T: Drop>(items: &mut Vec<T>, item: Option<T>) -> Result<(), AllocError>
    ensures { OnOk result (items.new.items ≡ items.old.items ++ option_to_list item) }
{
    match item {
        Some(item) => {
            items.push(item)?;
            Ok(())
        }
        None => Ok(()),
    }
}

// What a table has under a key and the change there, parted.
fn part_row(row: (Key, EitherOrBoth<Group, Change<Group>>)) -> Result<PartedRow, AllocError>
    ensures row { IfOk result (λ parted. parted.row
        ≡ option_map (λ rows. (row.0, rows)) (applied_where_fits row.1)) }
    ensures rejected { IfOk result (λ parted. parted.rejected
        ≡ option_map (λ change. (row.0, change)) (rejected_at row.1)) }
{
    let (key, place) = row;
    match place {
        EitherOrBoth::Left(rows) => Ok(unchanged(key, rows)),
        EitherOrBoth::Both(rows, change) => {
            if fits(Some(&rows), &change) {
                Ok(changed(key, change))
            } else {
                Ok(kept_rows(key, rows, change)?)
            }
        }
        EitherOrBoth::Right(change) => {
            if fits(None, &change) {
                Ok(changed(key, change))
            } else {
                Ok(left_out(key, change))
            }
        }
    }
}

// Rows that no change is of.
fn unchanged(key: Key, rows: Group) -> PartedRow
    ensures row { result.row ≡ Some (key, rows) }
    ensures rejected { result.rejected ≡ None }
{
    PartedRow {
        row: Some((key, rows)),
        rejected: None,
    }
}

// What a change gives that fits.
fn changed(key: Key, change: Change<Group>) -> PartedRow
    ensures row { result.row ≡ option_map (λ rows. (key, rows)) (right_place change) }
    ensures rejected { result.rejected ≡ None }
{
    let row = match change.right() {
        Some(rows) => Some((key, rows)),
        None => None,
    };
    PartedRow {
        row,
        rejected: None,
    }
}

// Rows that are kept, since their change does not fit.
fn kept_rows(key: Key, rows: Group, change: Change<Group>) -> Result<PartedRow, AllocError>
    ensures row { IfOk result (λ parted. parted.row ≡ Some (key, rows)) }
    ensures rejected { IfOk result (λ parted. parted.rejected ≡ Some (key, change)) }
{
    let again = key.clone()?;
    Ok(PartedRow {
        row: Some((again, rows)),
        rejected: Some((key, change)),
    })
}

// A change of rows that are not there.
fn left_out(key: Key, change: Change<Group>) -> PartedRow
    ensures row { result.row ≡ None }
    ensures rejected { result.rejected ≡ Some (key, change) }
{
    PartedRow {
        row: None,
        rejected: Some((key, change)),
    }
}

// Whether a change is from what the table has there.
fn fits(has: Option<&Group>, change: &Change<Group>) -> bool
    ensures { result ≡ fits_there (option_map (λ rows. rows.now) has.entry) change.now }
{
    change.as_ref().left() == has
}

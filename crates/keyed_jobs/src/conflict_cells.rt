//! Rows in conflict that are merged cell by cell, told so that their versions differ in the cells in conflict alone.
ghost use Rattle.std.specs.Prelude.{◌≡◌, IfOk, Some, map, option_map, zip};
ghost use Rattle.std.specs.Option.{option_and_then};
ghost use Rattle.eob_both.specs.Places.{item_left, item_right, left_place, right_place};
ghost use Rattle.keyed_tables.specs.RowsByCell.{one_row};
ghost use Rattle.keyed_jobs.specs.ConflictCells.{told_by, told_cell, told_versions};
ghost use Rattle.keyed_jobs.specs.ConflictCells.{with_merged_cells};

use crate::by_number::{are_same_length, base_in, ours_in, row_of, settled_cell, theirs_in};
use either_or_both::EitherOrBoth;
use eob_joins::Versions;
use keyed_numbers::Alike;
use keyed_requests::Unit;
use keyed_rows::{Cells, Group, Key};
use std::alloc::{AllocError, Global};

/// How rows in conflict are told: what is merged as one, and how the cells of each column beside the key are compared.
#[derive(Clone, Copy, Debug)]
pub struct Telling<'a> {
    pub unit: Unit,
    pub alikes: &'a [Alike<'a>],
}

/// A version of a row.
#[derive(Clone, Copy, Debug)]
pub enum Version {
    Base,
    Ours,
    Theirs,
}

/// Rows in conflict as they are told. Where rows are merged by cell, each version has the cells that are in no conflict as they are merged,
/// so that whoever takes one version loses no change of the other.
///
/// # Errors
///
/// Returns `AllocError` if a request for memory was refused.
pub fn told_conflicts(
    alloc: Global,
    how: Telling<'_>,
    rows: Vec<(Key, Versions<Group>)>,
) -> Result<Vec<(Key, Versions<Group>)>, AllocError>
    ensures { IfOk result (λ told. told.items
        ≡ map (λ row. (row.0, told_by how.entry.unit how.entry.alikes.now row.1)) rows.items) }
{
    let mut told = Vec::new(alloc);
    for (key, versions) in rows {
        let versions = told_conflict(alloc, how, versions)?;
        told.push((key, versions))?;
    }
    Ok(told)
}

/// The same of one row.
///
/// # Errors
///
/// Returns `AllocError` if a request for memory was refused.
pub fn told_conflict(
    alloc: Global,
    how: Telling<'_>,
    versions: Versions<Group>,
) -> Result<Versions<Group>, AllocError>
    ensures { IfOk result (λ told. told ≡ told_by how.entry.unit how.entry.alikes.now versions) }
{
    match how.unit {
        Unit::Row => Ok(versions),
        Unit::Cell => with_merged_cells(alloc, how.alikes, versions),
    }
}

// The versions of a row, each with the merged cells but for those in conflict, where each version is one row of the same columns.
fn with_merged_cells(
    alloc: Global,
    alikes: &[Alike<'_>],
    versions: Versions<Group>,
) -> Result<Versions<Group>, AllocError>
    ensures { IfOk result (λ told. told ≡ with_merged_cells alikes.now versions) }
{
    match versions_told(alloc, alikes, &versions)? {
        Some(told) => Ok(told),
        None => Ok(versions),
    }
}

// These versions, if they are so.
fn versions_told(
    alloc: Global,
    alikes: &[Alike<'_>],
    versions: &Versions<Group>,
) -> Result<Option<Versions<Group>>, AllocError>
    ensures { IfOk result (λ told. told ≡ told_versions alikes.now
        (option_and_then one_row (left_place versions.now))
        (option_and_then one_row (item_left (right_place versions.now)))
        (option_and_then one_row (item_right (right_place versions.now)))) }
{
    let base = row_of(base_in(versions));
    let ours = row_of(ours_in(versions));
    let theirs = row_of(theirs_in(versions));
    rows_told(alloc, alikes, base, ours, theirs)
}

// The versions of a row that is in each.
fn rows_told(
    alloc: Global,
    alikes: &[Alike<'_>],
    base: Option<&Cells>,
    ours: Option<&Cells>,
    theirs: Option<&Cells>,
) -> Result<Option<Versions<Group>>, AllocError>
    ensures { IfOk result (λ told. told ≡ told_versions alikes.now
        (option_map (λ row. row.now) base.entry) (option_map (λ row. row.now) ours.entry)
        (option_map (λ row. row.now) theirs.entry)) }
{
    match base {
        Some(base) => match ours {
            Some(ours) => match theirs {
                Some(theirs) => three_told(alloc, alikes, base, ours, theirs),
                None => Ok(None),
            },
            None => Ok(None),
        },
        None => Ok(None),
    }
}

// The same of rows that are there.
fn three_told(
    alloc: Global,
    alikes: &[Alike<'_>],
    base: &Cells,
    ours: &Cells,
    theirs: &Cells,
) -> Result<Option<Versions<Group>>, AllocError>
    ensures { IfOk result (λ told. told
        ≡ told_versions alikes.now (Some base.now) (Some ours.now) (Some theirs.now)) }
{
    if !are_same_length(base, ours, theirs) || alikes.len() != base.len() {
        return Ok(None);
    }
    let old = told_row(alloc, alikes, Version::Base, base, ours, theirs)?;
    let our = told_row(alloc, alikes, Version::Ours, base, ours, theirs)?;
    let their = told_row(alloc, alikes, Version::Theirs, base, ours, theirs)?;
    let sides = EitherOrBoth::Both(Group::new(our), Group::new(their));
    Ok(Some(EitherOrBoth::Both(Group::new(old), sides)))
}

// One version of a row.
fn told_row(
    alloc: Global,
    alikes: &[Alike<'_>],
    version: Version,
    base: &Cells,
    ours: &Cells,
    theirs: &Cells,
) -> Result<Cells, AllocError>
    ensures { IfOk result (λ row. row
        ≡ map (told_cell version) (zip alikes.now (zip base.now (zip ours.now theirs.now)))) }
{
    let mut row = Cells::new(alloc);
    let cells = base.iter().zip(ours.iter().zip(theirs.iter()));
    for (alike, (old, (our, their))) in alikes.iter().zip(cells) {
        row.push(told_cell(*alike, version, old, our, their))?;
    }
    Ok(row)
}

// The cell of one version of a row: the merged one, or where it is in conflict its own.
fn told_cell<'a>(
    alike: Alike<'_>,
    version: Version,
    base: &'a [u8],
    ours: &'a [u8],
    theirs: &'a [u8],
) -> &'a [u8]
    ensures { result.now ≡ told_cell version (alike.entry, (base.now, (ours.now, theirs.now))) }
{
    match settled_cell(alike, base, ours, theirs) {
        Some(cell) => cell,
        None => match version {
            Version::Base => base,
            Version::Ours => ours,
            Version::Theirs => theirs,
        },
    }
}

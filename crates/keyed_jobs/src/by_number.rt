//! Rows whose cells are not compared as they stand: which of them changed, and which of those in conflict are settled.
ghost use Rattle.std.specs.Prelude.{◌≡◌, ◌||◌, ◌&&◌, ◌==◌, IfOk, Some, length, option_map, zip};
ghost use Rattle.std.specs.List.{list_all};
ghost use Rattle.std.specs.Option.{option_and_then};
ghost use Rattle.eob_both.specs.Places.{item_left, item_right, left_place, right_place};
ghost use Rattle.eob_joins.specs.Cells.{same_length};
ghost use Rattle.eob_joins.specs.declared.marked.Marked.TheVariants.{Settled, Unresolved};
ghost use Rattle.keyed_numbers.specs.Decimals.{same_cell};
ghost use Rattle.keyed_tables.specs.RowsByCell.{one_row, only_row};
ghost use Rattle.keyed_jobs.specs.ByNumber.{changed_by_number, is_same_change, mark_of, same_place};
ghost use Rattle.keyed_jobs.specs.ByNumber.{same_row, same_rows, settled_by, settled_by_number};
ghost use Rattle.keyed_jobs.specs.ByNumber.{settled_cell, settled_cells, settled_mark, settled_row};

use either_or_both::EitherOrBoth;
use eob_joins::{Change, Marked, Versions};
use keyed_numbers::{Alike, is_same_cell};
use keyed_requests::Unit;
use keyed_rows::{Cells, Group, Key};
use std::alloc::{AllocError, Global};

/// The changes by which a cell is another one, as the cells of its column are compared, or a row comes or goes.
///
/// # Errors
///
/// Returns `AllocError` if a request for memory was refused.
pub fn changed_by_number(
    alloc: Global,
    alikes: &[Alike<'_>],
    changes: Vec<(Key, Change<Group>)>,
) -> Result<Vec<(Key, Change<Group>)>, AllocError>
    ensures { IfOk result (λ changed. changed.items ≡ changed_by_number alikes.now changes.items) }
{
    let mut changed = Vec::new(alloc);
    for (key, change) in changes {
        if !is_same_change(alikes, &change) {
            changed.push((key, change))?;
        }
    }
    Ok(changed)
}

// Whether a key has the same rows before and after.
fn is_same_change(alikes: &[Alike<'_>], change: &Change<Group>) -> bool
    ensures { result ≡ is_same_change alikes.now change.now }
{
    match change {
        EitherOrBoth::Left(_) => false,
        EitherOrBoth::Both(old, new) => are_same_rows(alikes, old.rows(), new.rows()),
        EitherOrBoth::Right(_) => false,
    }
}

// Whether two places have the same rows, or neither has any.
fn is_same_place(alikes: &[Alike<'_>], group: Option<&Group>, other: Option<&Group>) -> bool
    ensures { result ≡ same_place alikes.now
        (option_map (λ rows. rows.now) group.entry) (option_map (λ rows. rows.now) other.entry) }
{
    match group {
        Some(group) => match other {
            Some(other) => are_same_rows(alikes, group.rows(), other.rows()),
            None => false,
        },
        None => other.is_none(),
    }
}

// Whether two groups have the same rows, one after another.
fn are_same_rows(alikes: &[Alike<'_>], rows: &[Cells], others: &[Cells]) -> bool
    ensures { result ≡ same_rows alikes.now rows.now others.now }
{
    rows.len() == others.len() && has_same_rows(alikes, rows, others)
}

// Whether each row is the same as the one beside it.
fn has_same_rows(alikes: &[Alike<'_>], rows: &[Cells], others: &[Cells]) -> bool
    ensures { result
        ≡ list_all (λ pair. same_row alikes.now pair.0 pair.1) (zip rows.now others.now) }
{
    rows.iter()
        .zip(others.iter())
        .all(|(row, other)| is_same_row(alikes, row, other))
}

// Whether two rows have as many cells as there are columns, and the same ones.
fn is_same_row(alikes: &[Alike<'_>], row: &Cells, other: &Cells) -> bool
    ensures { result ≡ same_row alikes.now row.now other.now }
{
    row.len() == other.len() && alikes.len() == row.len() && has_same_cells(alikes, row, other)
}

// Whether each cell is the same as the one beside it, as its column is compared.
fn has_same_cells(alikes: &[Alike<'_>], row: &Cells, other: &Cells) -> bool
    ensures { result
        ≡ list_all (λ column. same_cell column.0 column.1.0 column.1.1)
        (zip alikes.now (zip row.now other.now)) }
{
    alikes
        .iter()
        .zip(row.iter().zip(other.iter()))
        .all(|(alike, (cell, next))| is_same_cell(*alike, cell, next))
}

/// The merged rows, with those in conflict in their places, of which those are settled that are in conflict only because cells that count
/// as the same are written in other ways: what is ours stays where both sides have the same, and what one side alone changed is as that
/// side has it. A key with several rows is settled as a whole, or not.
///
/// # Errors
///
/// Returns `AllocError` if a request for memory was refused.
pub fn settled_by_number(
    alloc: Global,
    alikes: &[Alike<'_>],
    unit: Unit,
    rows: Vec<(Key, Marked<Group>)>,
) -> Result<Vec<(Key, Marked<Group>)>, AllocError>
    ensures { IfOk result (λ merged. merged.items ≡ settled_by_number alikes.now unit rows.items) }
{
    let mut merged = Vec::new(alloc);
    for (key, mark) in rows {
        match settled_mark(alloc, alikes, unit, mark)? {
            Some(row) => merged.push((key, row))?,
            None => {}
        }
    }
    Ok(merged)
}

// What stands of a key, if anything does.
fn settled_mark(
    alloc: Global,
    alikes: &[Alike<'_>],
    unit: Unit,
    mark: Marked<Group>,
) -> Result<Option<Marked<Group>>, AllocError>
    ensures { IfOk result (λ settled. settled ≡ settled_mark alikes.now unit mark) }
{
    match mark {
        Marked::Settled(group) => Ok(Some(Marked::Settled(group))),
        Marked::Unresolved(versions) => settle(alloc, alikes, unit, versions),
    }
}

// What becomes of a key in conflict: what one side has, or else by cell where that is how tables are merged.
fn settle(
    alloc: Global,
    alikes: &[Alike<'_>],
    unit: Unit,
    versions: Versions<Group>,
) -> Result<Option<Marked<Group>>, AllocError>
    ensures { IfOk result (λ mark. mark ≡ settled_mark alikes.now unit (Unresolved versions)) }
{
    if ours_stays(alikes, &versions) {
        Ok(settled_as(ours_of(versions)))
    } else if theirs_comes(alikes, &versions) {
        Ok(settled_as(theirs_of(versions)))
    } else {
        settle_by(alloc, alikes, unit, versions)
    }
}

// Whether theirs has the same rows as ours or as the base.
fn ours_stays(alikes: &[Alike<'_>], versions: &Versions<Group>) -> bool
    ensures { result ≡ (same_place alikes.now
        (item_left (right_place versions.now)) (item_right (right_place versions.now))
        || same_place alikes.now (left_place versions.now) (item_right (right_place versions.now))) }
{
    is_same_place(alikes, ours_in(versions), theirs_in(versions))
        || is_same_place(alikes, base_in(versions), theirs_in(versions))
}

// Whether ours has the same rows as the base.
fn theirs_comes(alikes: &[Alike<'_>], versions: &Versions<Group>) -> bool
    ensures { result ≡ same_place alikes.now
        (left_place versions.now) (item_left (right_place versions.now)) }
{
    is_same_place(alikes, base_in(versions), ours_in(versions))
}

// The rows of each version.
pub(crate) fn base_in(versions: &Versions<Group>) -> Option<&Group>
    ensures { option_map (λ rows. rows.now) result ≡ left_place versions.now }
{
    match versions {
        EitherOrBoth::Left(base) => Some(base),
        EitherOrBoth::Both(base, _) => Some(base),
        EitherOrBoth::Right(_) => None,
    }
}

pub(crate) fn ours_in(versions: &Versions<Group>) -> Option<&Group>
    ensures { option_map (λ rows. rows.now) result ≡ item_left (right_place versions.now) }
{
    match versions {
        EitherOrBoth::Left(_) => None,
        EitherOrBoth::Both(_, sides) => left_in(sides),
        EitherOrBoth::Right(sides) => left_in(sides),
    }
}

pub(crate) fn theirs_in(versions: &Versions<Group>) -> Option<&Group>
    ensures { option_map (λ rows. rows.now) result ≡ item_right (right_place versions.now) }
{
    match versions {
        EitherOrBoth::Left(_) => None,
        EitherOrBoth::Both(_, sides) => right_in(sides),
        EitherOrBoth::Right(sides) => right_in(sides),
    }
}

fn left_in(sides: &EitherOrBoth<Group, Group>) -> Option<&Group>
    ensures { option_map (λ rows. rows.now) result ≡ left_place sides.now }
{
    match sides {
        EitherOrBoth::Left(left) => Some(left),
        EitherOrBoth::Both(left, _) => Some(left),
        EitherOrBoth::Right(_) => None,
    }
}

fn right_in(sides: &EitherOrBoth<Group, Group>) -> Option<&Group>
    ensures { option_map (λ rows. rows.now) result ≡ right_place sides.now }
{
    match sides {
        EitherOrBoth::Left(_) => None,
        EitherOrBoth::Both(_, right) => Some(right),
        EitherOrBoth::Right(right) => Some(right),
    }
}

// The rows of each side, of which the others are dropped.
pub(crate) fn ours_of(versions: Versions<Group>) -> Option<Group>
    ensures { result ≡ item_left (right_place versions) }
{
    match versions.right() {
        Some(sides) => sides.left(),
        None => None,
    }
}

pub(crate) fn theirs_of(versions: Versions<Group>) -> Option<Group>
    ensures { result ≡ item_right (right_place versions) }
{
    match versions.right() {
        Some(sides) => sides.right(),
        None => None,
    }
}

// A key that is settled as one of the sides has it.
fn settled_as(rows: Option<Group>) -> Option<Marked<Group>>
    ensures { result ≡ option_map Settled rows }
{
    match rows {
        Some(rows) => Some(Marked::Settled(rows)),
        None => None,
    }
}

// What becomes of a key that no side settles.
fn settle_by(
    alloc: Global,
    alikes: &[Alike<'_>],
    unit: Unit,
    versions: Versions<Group>,
) -> Result<Option<Marked<Group>>, AllocError>
    ensures { IfOk result (λ mark. mark ≡ mark_of versions (settled_by alikes.now unit
        (left_place versions) (item_left (right_place versions)) (item_right (right_place versions)))) }
{
    match unit {
        Unit::Row => Ok(Some(Marked::Unresolved(versions))),
        Unit::Cell => match settled_versions(alloc, alikes, &versions)? {
            Some(row) => Ok(Some(Marked::Settled(Group::new(row)))),
            None => Ok(Some(Marked::Unresolved(versions))),
        },
    }
}

// The row of three versions that have one row each, merged cell by cell.
fn settled_versions(
    alloc: Global,
    alikes: &[Alike<'_>],
    versions: &Versions<Group>,
) -> Result<Option<Cells>, AllocError>
    ensures { IfOk result (λ row. row ≡ settled_row alikes.now
        (option_and_then one_row (left_place versions.now))
        (option_and_then one_row (item_left (right_place versions.now)))
        (option_and_then one_row (item_right (right_place versions.now)))) }
{
    let base = row_of(base_in(versions));
    let ours = row_of(ours_in(versions));
    let theirs = row_of(theirs_in(versions));
    settled_row(alloc, alikes, base, ours, theirs)
}

// The row of a group of one.
pub(crate) fn row_of(group: Option<&Group>) -> Option<&Cells>
    ensures { option_map (λ row. row.now) result
        ≡ option_and_then one_row (option_map (λ rows. rows.now) group.entry) }
{
    match group {
        Some(group) => one_row(group.rows()),
        None => None,
    }
}

fn one_row(rows: &[Cells]) -> Option<&Cells>
    ensures { option_map (λ row. row.now) result ≡ one_row rows.now }
{
    match rows.split_first() {
        Some((row, rest)) => only_row(row, rest),
        None => None,
    }
}

// A row with no others after it.
fn only_row<'a>(row: &'a Cells, rest: &[Cells]) -> Option<&'a Cells>
    ensures { option_map (λ row. row.now) result ≡ only_row row.now rest.now }
{
    if rest.is_empty() { Some(row) } else { None }
}

// A row that is in each version, merged cell by cell.
fn settled_row(
    alloc: Global,
    alikes: &[Alike<'_>],
    base: Option<&Cells>,
    ours: Option<&Cells>,
    theirs: Option<&Cells>,
) -> Result<Option<Cells>, AllocError>
    ensures { IfOk result (λ row. row ≡ settled_row alikes.now (option_map (λ row. row.now) base.entry)
        (option_map (λ row. row.now) ours.entry) (option_map (λ row. row.now) theirs.entry)) }
{
    match base {
        Some(base) => match ours {
            Some(ours) => match theirs {
                Some(theirs) => settled_of_three(alloc, alikes, base, ours, theirs),
                None => Ok(None),
            },
            None => Ok(None),
        },
        None => Ok(None),
    }
}

// The same of rows that are there.
fn settled_of_three(
    alloc: Global,
    alikes: &[Alike<'_>],
    base: &Cells,
    ours: &Cells,
    theirs: &Cells,
) -> Result<Option<Cells>, AllocError>
    ensures { IfOk result (λ row. row
        ≡ settled_row alikes.now (Some base.now) (Some ours.now) (Some theirs.now)) }
{
    if are_same_length(base, ours, theirs) && alikes.len() == base.len() {
        settled_cells(alloc, alikes, base, ours, theirs)
    } else {
        Ok(None)
    }
}

// Whether three rows have one length.
pub(crate) fn are_same_length(base: &Cells, ours: &Cells, theirs: &Cells) -> bool
    ensures { result ≡ same_length base.now ours.now theirs.now }
{
    ours.len() == base.len() && theirs.len() == base.len()
}

// The cells of three rows, if each of them is settled.
fn settled_cells(
    alloc: Global,
    alikes: &[Alike<'_>],
    base: &Cells,
    ours: &Cells,
    theirs: &Cells,
) -> Result<Option<Cells>, AllocError>
    ensures { IfOk result (λ row. row
        ≡ settled_cells (zip alikes.now (zip base.now (zip ours.now theirs.now)))) }
{
    let mut merged = Cells::new(alloc);
    let cells = base.iter().zip(ours.iter().zip(theirs.iter()));
    for (alike, (old, (our, their))) in alikes.iter().zip(cells) {
        match settled_cell(*alike, old, our, their) {
            Some(cell) => merged.push(cell)?,
            None => return Ok(None),
        }
    }
    Ok(Some(merged))
}

// The cell of three versions, unless both sides changed it, and not alike.
pub(crate) fn settled_cell<'a>(
    alike: Alike<'_>,
    base: &[u8],
    ours: &'a [u8],
    theirs: &'a [u8],
) -> Option<&'a [u8]>
    ensures { option_map (λ cell. cell.now) result
        ≡ settled_cell alike.entry base.now ours.now theirs.now }
{
    if base == ours {
        Some(theirs)
    } else if is_same_cell(alike, ours, theirs) || is_same_cell(alike, base, theirs) {
        Some(ours)
    } else if is_same_cell(alike, base, ours) {
        Some(theirs)
    } else {
        None
    }
}

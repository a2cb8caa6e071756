//! The rule by which a key that has one row in each of three versions of a table is merged cell by cell.
ghost use Rattle.std.specs.Prelude.{◌≡◌, IfOk, Some, map, option_map, zip};
ghost use Rattle.eob_both.specs.Places.{item_left, item_right, left_place, right_place};
ghost use Rattle.eob_joins.specs.Cells.{cell_clashes, cells_clash, same_length};
ghost use Rattle.eob_joins.specs.Settled.{Settles};
ghost use Rattle.keyed_tables.specs.RowsByCell.{GivesRow, IsMergedRow, IsSettledRow, can_by_row, cell_eq};
ghost use Rattle.keyed_tables.specs.RowsByCell.{cell_of, one_row, only_row};

use eob_joins::{Settle, Versions};
use eob_lists::EitherOrBoth;
use keyed_rows::{Cells, Group};
use std::alloc::{AllocError, Global};

/// The rule that settles three groups of one row each whose cells can be merged, each as a row of its own. It leaves all other groups in
/// conflict.
#[derive(Drop)]
pub struct RowByCell {
    alloc: Global,
}

impl RowByCell {
    // The rule, whose merged rows are in this memory.
    pub(crate) fn new(alloc: Global) -> Self {
        RowByCell { alloc }
    }
}

impl Settle<Group> for RowByCell {
    ghost can = { λ rule. can_by_row };

    ghost gives = { λ rule. GivesRow };

    fn settle(&self, row: Versions<Group>) -> Result<Result<Group, Versions<Group>>, AllocError>
        ensures { IfOk result (Settles can_by_row GivesRow row) }
    {
        match merged_versions(self.alloc, &row)? {
            Some(merged) => Ok(Ok(Group::new(merged))),
            None => Ok(Err(row)),
        }
    }
}

// The merged row of three versions of a row.
fn merged_versions(alloc: Global, versions: &Versions<Group>) -> Result<Option<Cells>, AllocError>
    ensures { IfOk result (IsSettledRow (left_place versions.now) (item_left (right_place versions.now))
        (item_right (right_place versions.now))) }
{
    match versions {
        EitherOrBoth::Left(_) => Ok(None),
        EitherOrBoth::Both(_, EitherOrBoth::Left(_)) => Ok(None),
        EitherOrBoth::Both(base, EitherOrBoth::Both(ours, theirs)) => {
            match merged_row(alloc, row_of(base), row_of(ours), row_of(theirs))? {
                Some(row) => Ok(Some(row)),
                None => Ok(None),
            }
        }
        EitherOrBoth::Both(_, EitherOrBoth::Right(_)) => Ok(None),
        EitherOrBoth::Right(_) => Ok(None),
    }
}

// The row of a group of one.
fn row_of(group: &Group) -> Option<&Cells>
    ensures { option_map (λ row. row.now) result ≡ one_row group.now }
{
    match group.rows().split_first() {
        Some((row, rest)) => only(row, rest),
        None => None,
    }
}

// A row with no others after it.
fn only<'a>(row: &'a Cells, rest: &[Cells]) -> Option<&'a Cells>
    ensures { option_map (λ row. row.now) result ≡ only_row row.now rest.now }
{
    if rest.is_empty() { Some(row) } else { None }
}

// The merged row of three rows that are there.
fn merged_row(
    alloc: Global,
    base: Option<&Cells>,
    ours: Option<&Cells>,
    theirs: Option<&Cells>,
) -> Result<Option<Cells>, AllocError>
    ensures { IfOk result (IsMergedRow (option_map (λ row. row.now) base.entry)
        (option_map (λ row. row.now) ours.entry) (option_map (λ row. row.now) theirs.entry)) }
{
    match base {
        Some(base) => match ours {
            Some(ours) => match theirs {
                Some(theirs) => merge_rows(alloc, base, ours, theirs),
                None => Ok(None),
            },
            None => Ok(None),
        },
        None => Ok(None),
    }
}

// Three rows merged, if they have one length and no cell of them is in conflict.
fn merge_rows(
    alloc: Global,
    base: &Cells,
    ours: &Cells,
    theirs: &Cells,
) -> Result<Option<Cells>, AllocError>
    ensures { IfOk result (IsMergedRow (Some base.now) (Some ours.now) (Some theirs.now)) }
{
    if are_same_length(base, ours, theirs) && !has_conflict(base, ours, theirs) {
        Ok(Some(merged_cells(alloc, base, ours, theirs)?))
    } else {
        Ok(None)
    }
}

// Whether three rows have one length.
fn are_same_length(base: &Cells, ours: &Cells, theirs: &Cells) -> bool
    ensures { result ≡ same_length base.now ours.now theirs.now }
{
    ours.len() == base.len() && theirs.len() == base.len()
}

// Whether both sides changed a cell, and not alike.
fn has_conflict(base: &Cells, ours: &Cells, theirs: &Cells) -> bool
    ensures { result ≡ cells_clash cell_eq base.now ours.now theirs.now }
{
    base.iter().zip(ours.iter().zip(theirs.iter())).any(|(
        base,
        (ours, theirs),
    )| is_cell_in_conflict(base, ours, theirs))
}

// Whether both sides changed a cell, and not alike.
fn is_cell_in_conflict(base: &[u8], ours: &[u8], theirs: &[u8]) -> bool
    ensures { result ≡ cell_clashes cell_eq base.now ours.now theirs.now }
{
    base != ours && base != theirs && ours != theirs
}

// The cells of three rows, merged.
fn merged_cells(
    alloc: Global,
    base: &Cells,
    ours: &Cells,
    theirs: &Cells,
) -> Result<Cells, AllocError>
    ensures { IfOk result (λ row. row ≡ map cell_of (zip base.now (zip ours.now theirs.now))) }
{
    let mut row = Cells::new(alloc);
    for (old, (our, their)) in base.iter().zip(ours.iter().zip(theirs.iter())) {
        row.push(merged_cell(old, our, their))?;
    }
    Ok(row)
}

// Theirs of a cell where ours is the base, and ours elsewhere.
fn merged_cell<'a>(base: &[u8], ours: &'a [u8], theirs: &'a [u8]) -> &'a [u8]
    ensures { result.now ≡ cell_of (base.now, (ours.now, theirs.now)) }
{
    if base == ours { theirs } else { ours }
}

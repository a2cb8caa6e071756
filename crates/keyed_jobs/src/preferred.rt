//! Rows in conflict that are settled by a side of a merge: they stand as it has them.
ghost use Rattle.std.specs.Prelude.{◌≡◌, IfOk};
ghost use Rattle.keyed_jobs.specs.Preferred.{row_by_side, rows_by_side, version_of};

use crate::by_number::{ours_of, theirs_of};
use crate::conflict_cells::{Telling, told_conflict};
use eob_joins::{Marked, Versions};
use keyed_requests::Side;
use keyed_rows::{Group, Key};
use std::alloc::{AllocError, Global};

/// The rows of the merged table, those in conflict as this side has them: where rows are merged by cell, with its cells where these are in
/// conflict, and else with the merged ones. A row that the side does not have goes.
///
/// # Errors
///
/// Returns `AllocError` if a request for memory was refused.
pub fn rows_by_side(
    alloc: Global,
    how: Telling<'_>,
    side: Side,
    rows: Vec<(Key, Marked<Group>)>,
) -> Result<Vec<(Key, Group)>, AllocError>
    ensures { IfOk result (λ settled. settled.items
        ≡ rows_by_side how.entry.unit how.entry.alikes.now side rows.items) }
{
    let mut settled = Vec::new(alloc);
    for (key, row) in rows {
        match row_by_side(alloc, how, side, row)? {
            Some(group) => settled.push((key, group))?,
            None => {}
        }
    }
    Ok(settled)
}

// What stands of a key, if anything does.
fn row_by_side(
    alloc: Global,
    how: Telling<'_>,
    side: Side,
    row: Marked<Group>,
) -> Result<Option<Group>, AllocError>
    ensures { IfOk result (λ settled. settled ≡ row_by_side how.entry.unit how.entry.alikes.now side row) }
{
    match row {
        Marked::Settled(group) => Ok(Some(group)),
        Marked::Unresolved(versions) => {
            let told = told_conflict(alloc, how, versions)?;
            Ok(version_of(side, told))
        }
    }
}

// The rows of a side, of which the others are dropped.
fn version_of(side: Side, versions: Versions<Group>) -> Option<Group>
    ensures { result ≡ version_of side versions }
{
    match side {
        Side::Ours => ours_of(versions),
        Side::Theirs => theirs_of(versions),
    }
}

//! Changes as they are made to a table: in a direction, and where they are of some columns alone with its cells in the others.
ghost use Rattle.std.specs.Prelude.{◌≡◌, ◌++◌, IfOk, map, option_map};
ghost use Rattle.keyed_jobs.specs.MadeChanges.{is_missing, made_with, missing_by};
ghost use Rattle.keyed_jobs.specs.Turned.{changes_in};

use crate::compared::has_name;
use crate::job::{Changes, Table};
use crate::turned::changes_in;
use keyed_columns::name_each;
use keyed_requests::Direction;
use keyed_rows::Cells;
use keyed_tables::{ToChange, completed};
use std::alloc::{AllocError, Global};

/// Which of these columns beside the key the header of changes does not name, or `None` where it names each column of the table that they
/// are made to.
///
/// # Errors
///
/// Returns `AllocError` if a request for memory was refused.
pub fn missing_columns(
    alloc: Global,
    old: &Cells,
    changes: &Cells,
    rest: &Cells,
) -> Result<Option<Vec<bool>>, AllocError>
    ensures { IfOk result (λ missing.
        option_map (λ are. are.items) missing ≡ missing_by old.now changes.now rest.now) }
{
    let each = name_each(alloc, old, changes)?;
    if each {
        Ok(None)
    } else {
        let missing = are_missing(alloc, changes, rest)?;
        Ok(Some(missing))
    }
}

// Whether the header of changes does not name a column, of each.
fn are_missing(alloc: Global, changes: &Cells, names: &Cells) -> Result<Vec<bool>, AllocError>
    ensures { IfOk result (λ missing. missing.items ≡ map (is_missing changes.now) names.now) }
{
    let mut missing = Vec::new(alloc);
    for name in names {
        missing.push(!has_name(changes, name))?;
    }
    Ok(missing)
}

/// A table, and the changes as they are made to it in a direction, where they are missing these columns.
///
/// # Errors
///
/// Returns `AllocError` if a request for memory was refused.
pub fn made_changes(
    alloc: Global,
    missing: Option<Vec<bool>>,
    direction: Direction,
    old: Table,
    changes: Changes,
) -> Result<ToChange, AllocError>
    ensures old { IfOk result (λ made. made.old.pairs.items ≡ old.pairs.items) }
    ensures changes { IfOk result (λ made. made.changes.pairs.items ≡ made_with
        (option_map (λ are. are.items) missing) old.pairs.items (changes_in direction changes.pairs.items)) }
{
    let changes = changes_in(alloc, direction, changes)?;
    let made = with_missing(alloc, missing, old, changes)?;
    Ok(made)
}

// The changes with the cells of the table in the columns that are missing.
fn with_missing(
    alloc: Global,
    missing: Option<Vec<bool>>,
    old: Table,
    changes: Changes,
) -> Result<ToChange, AllocError>
    ensures old { IfOk result (λ made. made.old.pairs.items ≡ old.pairs.items) }
    ensures changes { IfOk result (λ made. made.changes.pairs.items
        ≡ made_with (option_map (λ are. are.items) missing) old.pairs.items changes.pairs.items) }
{
    match missing {
        None => Ok(ToChange { old, changes }),
        Some(missing) => {
            let made = completed(alloc, &missing, old, changes)?;
            Ok(made)
        }
    }
}

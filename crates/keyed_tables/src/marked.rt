//! Three versions of a table merged, in which rows in conflict keep their places.
ghost use Rattle.std.specs.Prelude.{IfOk};
ghost use Rattle.eob_joins.specs.Marked.{GivesNothing, IsMarkedMerge, can_nothing};
ghost use Rattle.keyed_tables.specs.RowsByCell.{GivesRow, can_by_row};

use crate::by_cell::RowByCell;
use crate::table::Rows;
use eob_joins::{Marked, NoRule, mark_versions};
use keyed_rows::{Group, Key};
use std::alloc::{AllocError, Global};

/// The merged table as [`parted_merge_of`](crate::parted_merge_of) has it, with each row in conflict in its place.
///
/// # Errors
///
/// Returns `AllocError` if a request for memory was refused.
pub fn marked_merge_of<K: Ord + Drop, V: Eq + Drop>(
    alloc: Global,
    base: Rows<K, V>,
    ours: Rows<K, V>,
    theirs: Rows<K, V>,
) -> Result<Vec<(K, Marked<V>)>, AllocError>
    ensures { IfOk result (λ rows. IsMarkedMerge K.cmp V.eq can_nothing GivesNothing
        base.pairs.items ours.pairs.items theirs.pairs.items rows.items) }
{
    mark_versions(alloc, base.pairs, ours.pairs, theirs.pairs, &NoRule)
}

/// The merged table as [`parted_merge_by_cell_of`](crate::parted_merge_by_cell_of) has it, with each row in conflict in its place.
///
/// # Errors
///
/// Returns `AllocError` if a request for memory was refused.
pub fn marked_merge_by_cell_of(
    alloc: Global,
    base: Rows<Key, Group>,
    ours: Rows<Key, Group>,
    theirs: Rows<Key, Group>,
) -> Result<Vec<(Key, Marked<Group>)>, AllocError>
    ensures { IfOk result (λ rows. IsMarkedMerge ⟦<Key as Ord>⟧.cmp ⟦<Group as PartialEq>⟧.eq
        can_by_row GivesRow
        base.pairs.items ours.pairs.items theirs.pairs.items rows.items) }
{
    let rule = RowByCell::new(alloc);
    mark_versions(alloc, base.pairs, ours.pairs, theirs.pairs, &rule)
}

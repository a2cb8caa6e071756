//! Three versions of a table merged, with the rows in conflict apart from those that are merged.
ghost use Rattle.std.specs.Prelude.{IfOk};
ghost use Rattle.eob_joins.specs.Marked.{IsPartedMerge, merged_of};
ghost use Rattle.eob_joins.specs.Settled.{IsMergeWith};
ghost use Rattle.eob_joins.specs.Versions.{IsMergeByKey};
ghost use Rattle.keyed_tables.specs.RowsByCell.{GivesRow, can_by_row};

use crate::by_cell::RowByCell;
use crate::table::Rows;
use eob_joins::{NoRule, Parted, Settle, mark_versions, part_marked};
use keyed_rows::{Group, Key};
use std::alloc::{AllocError, Global};

/// The merged rows, which have whatever one side alone changed as that side has it; and the rows that both sides changed, to rows that are
/// not the same.
///
/// # Errors
///
/// Returns `AllocError` if a request for memory was refused.
pub fn parted_merge_of<K: Ord + Drop, V: Eq + Drop>(
    alloc: Global,
    base: Rows<K, V>,
    ours: Rows<K, V>,
    theirs: Rows<K, V>,
) -> Result<Parted<K, V>, AllocError>
    ensures { IfOk result (λ parted. IsMergeByKey K.cmp V.eq
        base.pairs.items ours.pairs.items theirs.pairs.items (merged_of parted)) }
{
    let parted = parted_merge(alloc, base, ours, theirs, &NoRule)?;
    Ok(parted)
}

/// The same, in which a key that has one row in each version is merged cell by cell: each cell is that of a row of its own. Of such keys those
/// are in conflict of which both sides changed one cell, and not alike.
///
/// # Errors
///
/// Returns `AllocError` if a request for memory was refused.
pub fn parted_merge_by_cell_of(
    alloc: Global,
    base: Rows<Key, Group>,
    ours: Rows<Key, Group>,
    theirs: Rows<Key, Group>,
) -> Result<Parted<Key, Group>, AllocError>
    ensures { IfOk result (λ parted. IsMergeWith ⟦<Key as Ord>⟧.cmp ⟦<Group as PartialEq>⟧.eq
        can_by_row GivesRow
        base.pairs.items ours.pairs.items theirs.pairs.items (merged_of parted)) }
{
    let rule = RowByCell::new(alloc);
    let parted = parted_merge(alloc, base, ours, theirs, &rule)?;
    Ok(parted)
}

// The merged rows, and those that the rule does not settle.
fn parted_merge<K: Ord + Drop, V: Eq + Drop, S: Settle<V>>(
    alloc: Global,
    base: Rows<K, V>,
    ours: Rows<K, V>,
    theirs: Rows<K, V>,
    rule: &S,
) -> Result<Parted<K, V>, AllocError>
    ensures rows { IfOk result (λ parted. IsPartedMerge K.cmp V.eq (S.can rule.now) (S.gives rule.now)
        base.pairs.items ours.pairs.items theirs.pairs.items (merged_of parted)) }
    ensures values { IfOk result (λ parted. IsMergeWith K.cmp V.eq (S.can rule.now) (S.gives rule.now)
        base.pairs.items ours.pairs.items theirs.pairs.items (merged_of parted)) }
{
    let rows = mark_versions(alloc, base.pairs, ours.pairs, theirs.pairs, rule)?;
    let parted = part_marked(alloc, rows)?;
    Ok(parted)
}

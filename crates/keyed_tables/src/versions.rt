//! What changed between two versions of a table, and changes made again.
ghost use Rattle.std.specs.Prelude.{IfOk};
ghost use Rattle.eob_lists.specs.Join.{IsJoin};
ghost use Rattle.eob_joins.specs.Changes.{applied, changed};
ghost use Rattle.eob_joins.specs.Tables.{IsKeptOfJoin};

use crate::table::Rows;
use eob_joins::{Change, apply, diff};
use eob_lists::join::outer_join;
use std::alloc::{AllocError, Global};

/// The rows of the join of both tables that changed.
///
/// # Errors
///
/// Returns `AllocError` if a request for memory was refused.
pub fn changes_of<K: Ord + Drop, V: Eq + Drop>(
    alloc: Global,
    old: Rows<K, V>,
    new: Rows<K, V>,
) -> Result<Vec<(K, Change<V>)>, AllocError>
    ensures { IfOk result
        (λ rows. IsKeptOfJoin K.cmp (changed V.eq) old.pairs.items new.pairs.items rows.items) }
{
    diff(alloc, old.pairs, new.pairs)
}

/// The changes by which the rows of one table go and those of another come: a key of both changes its row.
///
/// # Errors
///
/// Returns `AllocError` if a request for memory was refused.
pub fn paired<K: Ord + Drop, V: Drop>(
    alloc: Global,
    gone: Rows<K, V>,
    come: Rows<K, V>,
) -> Result<Rows<K, Change<V>>, AllocError>
    ensures { IfOk result (λ changes. IsJoin K.cmp gone.pairs.items come.pairs.items changes.pairs.items) }
{
    let pairs = outer_join(alloc, gone.pairs, come.pairs)?;
    Ok(Rows { pairs })
}

/// The table with the changes made to it.
///
/// # Errors
///
/// Returns `AllocError` if a request for memory was refused.
pub fn patched<K: Ord + Drop, V: Drop>(
    alloc: Global,
    old: Rows<K, V>,
    changes: Rows<K, Change<V>>,
) -> Result<Vec<(K, V)>, AllocError>
    ensures { IfOk result
        (λ rows. IsKeptOfJoin K.cmp applied old.pairs.items changes.pairs.items rows.items) }
{
    apply(alloc, old.pairs, changes.pairs)
}

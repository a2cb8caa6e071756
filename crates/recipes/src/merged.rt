//! Two versions of a table, changed apart from each other, made one again: of ordered maps, where the caller has nothing to show, and of
//! sorted lists.
ghost use Rattle.std.specs.Prelude.{◌≡◌};
ghost use Rattle.either_or_both.specs.Prelude.{IfOk, Rising};
ghost use Rattle.eob_joins.specs.Versions.{IsMergeByKey};

use eob_joins::{Merged, merge_version_maps, merge_versions};
use std::alloc::{AllocError, Global};
use std::collections::BTreeMap;

/// The table with what either side changed in it, or the rows that both changed and to values that are not equal.
pub fn merged<K: Ord + Drop, V: Eq + Drop>(
    alloc: Global,
    base: BTreeMap<K, V>,
    ours: BTreeMap<K, V>,
    theirs: BTreeMap<K, V>,
) -> Result<Merged<K, V>, AllocError>
    ensures { IfOk result
        (λ merge. IsMergeByKey K.cmp V.eq base.entries ours.entries theirs.entries merge) }
{
    let merge = merge_version_maps(alloc, base, ours, theirs)?;
    Ok(merge)
}

/// The same of lists whose keys strictly increase.
pub fn merged_lists<K: Ord + Drop, V: Eq + Drop>(
    alloc: Global,
    base: Vec<(K, V)>,
    ours: Vec<(K, V)>,
    theirs: Vec<(K, V)>,
) -> Result<Merged<K, V>, AllocError>
    requires base { Rising K.cmp base.items }
    requires ours { Rising K.cmp ours.items }
    requires theirs { Rising K.cmp theirs.items }
    ensures { IfOk result (λ merge. IsMergeByKey K.cmp V.eq base.items ours.items theirs.items merge) }
{
    let merge = merge_versions(alloc, base, ours, theirs)?;
    Ok(merge)
}

//! Two versions of an ordered map merged over their base: the merged map, or what is in conflict.
ghost use Rattle.std.specs.Prelude.{IfOk};
ghost use Rattle.eob_joins.specs.Versions.{IsMergeByKey};
ghost use Rattle.eob_maps.specs.Merges.{IsMapMerge};

use crate::entries::{into_map, into_rows};
use eob_joins::{Merged, Versions, merge_versions};
use std::alloc::{AllocError, Allocator, Global};
use std::collections::BTreeMap;

/// What [`merge_maps`] returns.
#[derive(Debug, PartialEq, Eq, Drop)]
pub enum MergedMap<K: Ord, V, M: Allocator = Global> {
    /// No key is in conflict: the merged map.
    Whole(BTreeMap<K, V, M>),
    /// The keys that are in conflict, at least one, each with its values in the three versions.
    Conflicts(BTreeMap<K, Versions<V>, M>),
}

/// Returns two versions of a map merged over their base. Where no key is in conflict, the merged map: whatever one side alone changed is
/// in it as that side has it, what both changed alike as both have it, and every other value as it was. Else the keys that both sides
/// changed, and not alike, with their values in the three versions, and no others. Takes memory for the join of the three.
///
/// # Errors
///
/// `AllocError` where a request for memory was refused: then the three versions are dropped.
///
/// # Examples
///
/// ```
/// let base = BTreeMap::from_array(alloc, [(1, 'a'), (2, 'b')])?;
/// let ours = BTreeMap::from_array(alloc, [(1, 'c'), (2, 'b')])?;
/// let theirs = BTreeMap::from_array(alloc, [(1, 'a')])?;
/// let whole = BTreeMap::from_array(alloc, [(1, 'c')])?;
/// assert_eq!(rt; merge_maps(alloc, base, ours, theirs)?, MergedMap::Whole(whole));
/// ```
pub fn merge_maps<K: Ord + Drop, V: Eq + Drop, M: Allocator + Copy>(
    alloc: M,
    base: BTreeMap<K, V, M>,
    ours: BTreeMap<K, V, M>,
    theirs: BTreeMap<K, V, M>,
) -> Result<MergedMap<K, V, M>, AllocError>
    ensures { IfOk result (IsMapMerge K.cmp V.eq base ours theirs) }
{
    let base = into_rows(alloc, base)?;
    let ours = into_rows(alloc, ours)?;
    let theirs = into_rows(alloc, theirs)?;
    match merge_versions(alloc, base, ours, theirs)? {
        Merged::Whole(rows) => {
            let map = into_map(alloc, rows)?;
            Ok(MergedMap::Whole(map))
        }
        Merged::Conflicts(rows) => {
            let map = into_map(alloc, rows)?;
            Ok(MergedMap::Conflicts(map))
        }
    }
}

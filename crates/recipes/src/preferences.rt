//! Preferences changed on two devices since they last met, as three ordered maps: merged into one map, where no preference was changed on
//! both and not alike. Else the preferences in conflict, each with its three values.
ghost use Rattle.either_or_both.specs.Prelude.{IfOk};
ghost use Rattle.eob_maps.specs.Merges.{IsMapMerge};

use eob_maps::{MergedMap, merge_maps};
use std::alloc::{AllocError, Global};
use std::collections::BTreeMap;

/// The merged preferences, or those in conflict.
pub fn merged_preferences<K: Ord + Drop, V: Eq + Drop>(
    alloc: Global,
    before: BTreeMap<K, V>,
    laptop: BTreeMap<K, V>,
    phone: BTreeMap<K, V>,
) -> Result<MergedMap<K, V>, AllocError>
    ensures { IfOk result (IsMapMerge K.cmp V.eq before laptop phone) }
{
    merge_maps(alloc, before, laptop, phone)
}

//! What changed between two versions of an ordered map, and the new version made again of the old one and the changes.
ghost use Rattle.std.specs.Prelude.{◌≡◌, IfOk, Option};
ghost use Rattle.std.specs.BTreeMap.{get};
ghost use Rattle.std.specs.Option.{option_and_then};
ghost use Rattle.eob_lists.specs.Places.{from_places};
ghost use Rattle.eob_joins.specs.Changes.{ChangedAlikeLaw, ChangedValueLaw, applied, changed};

use crate::entries::{into_map, into_rows};
use eob_joins::{Change, apply, diff, law_changed_alike, law_changed_value};
use std::alloc::{AllocError, Allocator};
use std::collections::BTreeMap;

/// Returns the changes from the old version of a map to the new one: under each key whose value is not the same in both, its value in
/// either version. Takes one comparison of keys for each key of either version at most, and an insert for each change.
///
/// # Errors
///
/// `AllocError` where a request for memory was refused: then both versions are dropped.
///
/// # Examples
///
/// ```
/// let old = BTreeMap::from_array(alloc, [(1, 'a'), (2, 'b'), (3, 'c')])?;
/// let new = BTreeMap::from_array(alloc, [(1, 'a'), (3, 'd')])?;
/// let changes = diff_maps(alloc, old, new)?;
/// assert_eq!(rt; (changes.get(&1), changes.get(&2)), (None, Some(&Left('b'))));
/// assert_eq!(rt; changes.get(&3), Some(&Both('c', 'd')));
/// ```
pub fn diff_maps<K: Ord + Drop, V: Eq + Drop, M: Allocator + Copy>(
    alloc: M,
    old: BTreeMap<K, V, M>,
    new: BTreeMap<K, V, M>,
) -> Result<BTreeMap<K, Change<V>, M>, AllocError>
    ensures { IfOk result (λ changes. (k : _) → get K.cmp changes k
        ≡ option_and_then (changed V.eq) (from_places (get K.cmp old k) (get K.cmp new k))) }
{
    let old = into_rows(alloc, old)?;
    let new = into_rows(alloc, new)?;
    let rows = diff(alloc, old, new)?;
    let map = into_map(alloc, rows)?;
    Ok(map)
}

/// Returns a map with changes made to it: under the key of a change its new value, or nothing where the value went, and under every
/// other key what it was. What a change says of the old value is not looked at. Takes memory for the join of both.
///
/// # Errors
///
/// `AllocError` where a request for memory was refused: then the map and the changes are dropped.
///
/// # Examples
///
/// ```
/// let old = BTreeMap::from_array(alloc, [(1, 'a'), (2, 'b')])?;
/// let changes = BTreeMap::from_array(alloc, [(2, Left('b')), (3, Right('c'))])?;
/// let new = apply_map(alloc, old, changes)?;
/// assert_eq!(rt; (new.get(&1), new.get(&2), new.get(&3)), (Some(&'a'), None, Some(&'c')));
/// ```
pub fn apply_map<K: Ord + Drop, V: Drop, M: Allocator + Copy>(
    alloc: M,
    old: BTreeMap<K, V, M>,
    changes: BTreeMap<K, Change<V>, M>,
) -> Result<BTreeMap<K, V, M>, AllocError>
    ensures { IfOk result (λ new. (k : _) → get K.cmp new k
        ≡ option_and_then applied (from_places (get K.cmp old k) (get K.cmp changes k))) }
{
    let old = into_rows(alloc, old)?;
    let changes = into_rows(alloc, changes)?;
    let rows = apply(alloc, old, changes)?;
    let map = into_map(alloc, rows)?;
    Ok(map)
}

/// The changes from one version of a map to another, made to the first, give what the second has under each key: the same value where
/// values that count as equal are equal, and of any others, such as texts, a value that counts as equal.
///
/// Call it before [`diff_maps`], to know by look-ups the map that [`apply_map`] gives.
///
/// # Examples
///
/// ```
/// law_applied_maps::<char>();
/// let old = BTreeMap::from_array(alloc, [(1, 'a')])?;
/// let copy = BTreeMap::from_array(alloc, [(1, 'a')])?;
/// let new = BTreeMap::from_array(alloc, [(1, 'b')])?;
/// let changes = diff_maps(alloc, old, new)?;
/// let made = apply_map(alloc, copy, changes)?;
/// assert_eq!(rt; made.get(&1), Some(&'b'));
/// ```
pub fn law_applied_maps<V: Eq>()
    ensures same { ChangedValueLaw V.eq }
    ensures alike { ChangedAlikeLaw V.eq }
{
    law_changed_value::<V>();
    law_changed_alike::<V>();
}

//! Tables as maps, whose keys are each there once: the full outer join of two maps, and a map laid over another, as the layers of a
//! program's settings. The caller has nothing to prove.
//!
//! What these calls give is an `IndexMap`, which iterates in the order of insertion: the keys of the left map in their order, then
//! those that it lacks in the order of the right map.
ghost use Rattle.std.specs.Prelude.{◌≡◌, IfOk, List, OnOk, Some};
ghost use Rattle.std.specs.HashMap.{IsEmpty};
ghost use Rattle.std.specs.Iterator.{IsFinite};
ghost use Rattle.std.specs.Iterator.Runs.{WholeRun};
ghost use Rattle.std.specs.List.{IsDistinct};
ghost use Rattle.std.specs.Map.{keys_of};
ghost use Rattle.indexmap.specs.IndexMap.{insert_all, insert_entry};
ghost use Rattle.eob_lists.specs.Places.{left_place, right_place};
ghost use Rattle.eob_joins.specs.MapJoin.{AddsRight, AddsRights, IsMapJoin, IsMapOverlay, MapPartsLaw};
ghost use Rattle.eob_joins.specs.MapJoin.{lefts_of};

use eob_lists::EitherOrBoth;
use indexmap::IndexMap;
use std::alloc::{AllocError, Allocator};
use std::collections::HashMap;
use std::hash::{BuildHasher, Hash};

/// Returns the full outer join of two maps in the order of insertion: the keys of the left map in their order, then those that it lacks
/// in the order of the right map, each with the left map's value as left place and the right map's as right place. Takes one look-up by
/// hash for each entry of the left map, and at most two for each of the right map.
///
/// # Errors
///
/// `AllocError` where a request for memory was refused: then both maps are dropped.
///
/// # Examples
///
/// ```
/// let mut left = IndexMap::new(alloc);
/// left.insert(3, 'c')?;
/// left.insert(1, 'a')?;
/// let mut right = IndexMap::new(alloc);
/// right.insert(2, 'y')?;
/// right.insert(1, 'x')?;
/// let rows = outer_join_index_maps(alloc, left, right)?;
/// let text = format!(in alloc; "{rows:?}")?;
/// assert_eq!(rt; text.as_str(), "{3: Left('c'), 1: Both('a', 'x'), 2: Right('y')}");
/// ```
pub fn outer_join_index_maps<
    K: Eq + Hash + Drop,
    A: Drop,
    B: Drop,
    S: BuildHasher + Default + Drop,
    T: BuildHasher + Drop,
    M: Allocator + Copy,
>(
    alloc: M,
    left: IndexMap<K, A, S, M>,
    right: IndexMap<K, B, T, M>,
) -> Result<IndexMap<K, EitherOrBoth<A, B>, S, M>, AllocError>
    ensures { IfOk result (λ rows. IsMapJoin K.eq left.entries right.entries rows.entries) }
{
    let mut rows = with_room(alloc, left.len())?;
    put_entries(&mut rows, left.into_iter(), right.into_iter())?;
    Ok(rows)
}

/// Returns the full outer join of two hashed maps: the keys of the left map, in the order in which it iterates, then those that it
/// lacks, in the order in which the right map iterates, each with the left map's value as left place and the right map's as right
/// place. Takes one look-up by hash for each entry of the left map, and at most two for each of the right map.
///
/// # Errors
///
/// `AllocError` where a request for memory was refused: then both maps are dropped.
///
/// # Examples
///
/// ```
/// let mut left = HashMap::new(alloc);
/// left.insert(1, 'a')?;
/// let mut right = HashMap::new(alloc);
/// right.insert(1, 'x')?;
/// let rows = outer_join_hash_maps(alloc, left, right)?;
/// assert_eq!(rt; rows.get(&1), Some(&Both('a', 'x')));
/// ```
pub fn outer_join_hash_maps<
    K: Eq + Hash + Drop,
    A: Drop,
    B: Drop,
    S: BuildHasher + Default + Drop,
    T: BuildHasher + Drop,
    M: Allocator + Copy,
>(
    alloc: M,
    left: HashMap<K, A, S, M>,
    right: HashMap<K, B, T, M>,
) -> Result<IndexMap<K, EitherOrBoth<A, B>, S, M>, AllocError>
    ensures { IfOk result (λ rows. IsMapJoin K.eq left.entries right.entries rows.entries) }
{
    let mut rows = with_room(alloc, left.len())?;
    put_entries(&mut rows, left.into_iter(), right.into_iter())?;
    Ok(rows)
}

/// Returns a map laid over another, such as the user's settings over the site's: under each key the value of `over`, and where it has none
/// that of `base`. The keys of `base` stand first, in their order, then those that it lacks in the order of `over`, as in
/// [`outer_join_index_maps`]. Layers of any number are laid one over the other by as many calls.
///
/// # Errors
///
/// `AllocError` where a request for memory was refused: then both maps are dropped.
///
/// # Examples
///
/// ```
/// let mut site = IndexMap::new(alloc);
/// site.insert("port", 80)?;
/// site.insert("depth", 3)?;
/// let mut user = IndexMap::new(alloc);
/// user.insert("width", 72)?;
/// user.insert("port", 8080)?;
/// let settings = overlay_index_maps(alloc, site, user)?;
/// let text = format!(in alloc; "{settings:?}")?;
/// assert_eq!(rt; text.as_str(), "{\"port\": 8080, \"depth\": 3, \"width\": 72}");
/// ```
pub fn overlay_index_maps<
    K: Eq + Hash + Drop,
    V: Drop,
    S: BuildHasher + Default + Drop,
    T: BuildHasher + Drop,
    M: Allocator + Copy,
>(
    alloc: M,
    base: IndexMap<K, V, S, M>,
    over: IndexMap<K, V, T, M>,
) -> Result<IndexMap<K, V, S, M>, AllocError>
    ensures { IfOk result (λ rows. IsMapOverlay K.eq base.entries over.entries rows.entries) }
{
    // The rows are at least as many as the longer map has.
    let mut rows = with_room(alloc, base.len().max(over.len()))?;
    put_layers(&mut rows, base, over)?;
    Ok(rows)
}

/// Where the keys of two maps are partitioned into numbered parts by any function that gives equal keys one number, the join of two parts
/// of a number has under each key of that number what the join of the whole maps has, and no other key. So maps may be joined part by
/// part, such as on many machines, each with the keys of one hash. Call it before the parts are joined.
///
/// # Examples
///
/// ```
/// law_map_join_parts::<u32, char, char>();
/// let odd = IndexMap::from_array(alloc, [(1, 'a')])?;
/// let odd_right = IndexMap::from_array(alloc, [(1, 'x'), (3, 'y')])?;
/// let rows = outer_join_index_maps(alloc, odd, odd_right)?;
/// assert_eq!(rt; rows.get(&3), Some(&Right('y')));
/// ```
pub fn law_map_join_parts<K: Eq, A, B>()
    ensures { MapPartsLaw K.eq A B }
{}

// A map with no entry yet, and with room for so many.
fn with_room<K: Eq + Hash + Drop, V: Drop, S: BuildHasher + Default + Drop, M: Allocator + Copy>(
    alloc: M,
    room: usize,
) -> Result<IndexMap<K, V, S, M>, AllocError>
    ensures { IfOk result (λ map. IsEmpty map) }
{
    IndexMap::with_capacity_and_hasher(alloc, room, S::default())
}

// The rows of both maps, of each of which all entries are given.
fn put_entries<
    K: Eq + Hash + Drop,
    A: Drop,
    B: Drop,
    S: BuildHasher,
    L: Iterator<Item = (K, A)>,
    R: Iterator<Item = (K, B)>,
    M: Allocator + Copy,
>(rows: &mut IndexMap<K, EitherOrBoth<A, B>, S, M>, left: L, right: R) -> Result<(), AllocError>
    requires left_can { L.can_next left }
    requires left_finite { IsFinite (L.remaining left) }
    requires right_can { R.can_next right }
    requires right_finite { IsFinite (R.remaining right) }
    requires empty { IsEmpty rows.old }
    ensures { OnOk result (WholeRun L.next_gives left (λ p. WholeRun R.next_gives right (λ q.
        IsDistinct K.eq (keys_of p.items) → IsDistinct K.eq (keys_of q.items)
        → IsMapJoin K.eq p.items q.items rows.new.entries))) }
{
    put_lefts(rows, left)?;
    put_rights(rows, right)
}

// The rows of the left map.
fn put_lefts<
    K: Eq + Hash + Drop,
    A: Drop,
    B: Drop,
    S: BuildHasher,
    L: Iterator<Item = (K, A)>,
    M: Allocator + Copy,
>(rows: &mut IndexMap<K, EitherOrBoth<A, B>, S, M>, left: L) -> Result<(), AllocError>
    requires can { L.can_next left }
    requires finite { IsFinite (L.remaining left) }
    ensures { OnOk result (WholeRun L.next_gives left (λ p.
        rows.new.entries ≡ insert_all K.eq rows.old.entries (lefts_of p.items))) }
{
    for (key, a) in left {
        put_left(rows, key, a)?;
    }
    Ok(())
}

// The rows of the right map, after those of the left map.
fn put_rights<
    K: Eq + Hash + Drop,
    A: Drop,
    B: Drop,
    S: BuildHasher,
    R: Iterator<Item = (K, B)>,
    M: Allocator + Copy,
>(rows: &mut IndexMap<K, EitherOrBoth<A, B>, S, M>, right: R) -> Result<(), AllocError>
    requires can { R.can_next right }
    requires finite { IsFinite (R.remaining right) }
    ensures { OnOk result (WholeRun R.next_gives right (λ q.
        AddsRights K.eq A q.items rows.old.entries rows.new.entries)) }
{
    for (key, b) in right {
        put_right(rows, key, b)?;
    }
    Ok(())
}

// The entries of both maps.
fn put_layers<
    K: Eq + Hash + Drop,
    V: Drop,
    S: BuildHasher + Drop,
    T: BuildHasher + Drop,
    M: Allocator,
>(
    rows: &mut IndexMap<K, V, S, M>,
    base: IndexMap<K, V, S, M>,
    over: IndexMap<K, V, T, M>,
) -> Result<(), AllocError>
    ensures { OnOk result (rows.new.entries
        ≡ insert_all K.eq (insert_all K.eq rows.old.entries base.entries) over.entries) }
{
    put_layer(rows, base)?;
    put_layer(rows, over)
}

// The entries of a map, which take the place of those with their keys.
fn put_layer<K: Eq + Hash + Drop, V: Drop, S: BuildHasher, T: BuildHasher + Drop, M: Allocator>(
    rows: &mut IndexMap<K, V, S, M>,
    mut layer: IndexMap<K, V, T, M>,
) -> Result<(), AllocError>
    ensures { OnOk result (rows.new.entries ≡ insert_all K.eq rows.old.entries layer.entries) }
{
    rows.append(&mut layer)
}

// A row of the left map.
fn put_left<K: Eq + Hash + Drop, A: Drop, B: Drop, S: BuildHasher, M: Allocator + Copy>(
    rows: &mut IndexMap<K, EitherOrBoth<A, B>, S, M>,
    key: K,
    a: A,
) -> Result<(), AllocError>
    ensures { OnOk result (rows.new.entries ≡ insert_entry K.eq rows.old.entries key (EitherOrBoth.Left a)) }
{
    rows.insert(key, EitherOrBoth::Left(a))?;
    Ok(())
}

// An entry of the right map, after those in ys: in the row of its key, and where there is none in a row of its own.
fn put_right<K: Eq + Hash + Drop, A: Drop, B: Drop, S: BuildHasher, M: Allocator + Copy>(
    rows: &mut IndexMap<K, EitherOrBoth<A, B>, S, M>,
    key: K,
    b: B,
) -> Result<(), AllocError>
    ensures { OnOk result ((p : List (K × A)) → AddsRight K.eq p key b rows.old.entries rows.new.entries) }
{
    match rows.get_mut(&key) {
        Some(row) => {
            set_right(row, b);
            Ok(())
        }
        None => {
            rows.insert(key, EitherOrBoth::Right(b))?;
            Ok(())
        }
    }
}

// The value as right place, and the left place as it is.
fn set_right<A: Drop, B: Drop>(row: &mut EitherOrBoth<A, B>, b: B)
    ensures left { left_place row.new ≡ left_place row.old }
    ensures right { right_place row.new ≡ Some b }
{
    row.insert_right(b);
}

//! Pairs of containers that were collected: what a look-up, an iterator or a count of one returns, by the list that was collected, and what a
//! pair that is collected again keeps.
ghost use Rattle.std.specs.Prelude.{◌≡◌, IfOk, ◌↔◌, ℕ, Some, None, IfSome, IsTrue, nat_eq, false};
ghost use Rattle.std.specs.Prelude.{slice_get, []};
ghost use Rattle.either_or_both.specs.Places.{map_places};
ghost use Rattle.either_or_both.specs.Sides.{collected, lefts, rights};
ghost use Rattle.std.specs.BTreeMap.{is_at};
ghost use Rattle.std.specs.List.Sorted.{IsStrictlySortedBy};
ghost use Rattle.std.specs.Map.{keys_of, lookup};
ghost use Rattle.std.specs.Ordering.{nat_cmp, eq_by_cmp};
ghost use Rattle.std.specs.Set.{distinct_count, is_member};
ghost use Rattle.either_or_both.specs.Contents.{first_items, first_list, last_value, IsLastValue};
ghost use Rattle.either_or_both.specs.Contents.{StandByFirstPlaces};
ghost use Rattle.either_or_both.specs.Either as either;

use either_or_both::laws::{
    law_first_items, law_last_value, law_last_value_by_order, recollect_hash_map,
    recollect_index_set,
};
use either_or_both::{Either, EitherOrBoth};
use indexmap::{IndexMap, IndexSet};
use std::alloc::{AllocError, Global};
use std::collections::{BTreeMap, BTreeSet, HashMap, HashSet, VecDeque};
use std::hash::Hash;

/// A list of values collected into vectors: the left values and the right ones, each in order.
pub fn collect_list<L: Drop, R: Drop>(
    alloc: Global,
    xs: Vec<EitherOrBoth<L, R>>,
) -> Result<EitherOrBoth<Vec<L>, Vec<R>>, AllocError>
    ensures { IfOk result (λ v. map_places (λ l. l.items) (λ r. r.items) v ≡ collected xs.items) }
{
    xs.into_iter().collect(alloc)
}

/// A queue has the values as they came.
pub fn left_queue<T: Drop>(
    alloc: Global,
    values: Vec<EitherOrBoth<T, u8>>,
) -> Result<VecDeque<T>, AllocError>
    ensures { IfOk result (λ q. q.items ≡ lefts values.items) }
{
    let pair: EitherOrBoth<VecDeque<T>, VecDeque<u8>> = values.into_iter().collect(alloc)?;
    match pair.left() {
        Some(queue) => Ok(queue),
        None => Ok(VecDeque::new(alloc)),
    }
}

/// In a hashed map `get` returns the value at the key's last place.
pub fn get_from_hash_map<K: Hash + Eq + Drop, V: Copy + Drop, W: Drop>(
    alloc: Global,
    entries: Vec<EitherOrBoth<(K, V), (K, W)>>,
    key: &K,
) -> Result<Option<V>, AllocError>
    ensures { IfOk result (λ r. r ≡ last_value K.eq (lefts entries.items) key.now) }
{
    let pair: EitherOrBoth<HashMap<K, V>, HashMap<K, W>> = entries.into_iter().collect(alloc)?;
    match pair.left() {
        Some(map) => Ok(map.get(key).copied()),
        None => Ok(None),
    }
}

/// That is the last value that was given for the key, and None for a key that was never given.
pub fn last_given<K: Hash + Eq + Drop, V: Copy + Drop, W: Drop>(
    alloc: Global,
    entries: Vec<EitherOrBoth<(K, V), (K, W)>>,
    key: &K,
) -> Result<Option<V>, AllocError>
    ensures some { IfOk result (λ r. (v : V) → (r ≡ Some v)
        ↔ IsLastValue K.eq (lefts entries.items) key.now v) }
    ensures none { IfOk result (λ r. (r ≡ None)
        ↔ (is_member K.eq (keys_of (lefts entries.items)) key.now ≡ false)) }
{
    law_last_value::<K, V>();
    get_from_hash_map(alloc, entries, key)
}

/// So it is in a map in the order of its keys.
pub fn get_from_btree_map(
    alloc: Global,
    entries: Vec<EitherOrBoth<(u8, char), (u8, bool)>>,
    key: u8,
) -> Result<Option<char>, AllocError>
    ensures some { IfOk result (λ r. (v : ℕ) → (r ≡ Some v)
        ↔ IsLastValue (eq_by_cmp nat_cmp) (lefts entries.items) key v) }
    ensures none { IfOk result (λ r. (r ≡ None)
        ↔ (is_member (eq_by_cmp nat_cmp) (keys_of (lefts entries.items)) key ≡ false)) }
{
    law_last_value_by_order::<u8, char>();
    let pair: EitherOrBoth<BTreeMap<u8, char>, BTreeMap<u8, bool>> = entries
        .into_iter()
        .collect(alloc)?;
    match pair.left() {
        Some(map) => Ok(map.get(&key).copied()),
        None => Ok(None),
    }
}

/// The iterator of a map gives strictly increasing keys, and each key has its last value.
pub fn rising_entries(
    alloc: Global,
    entries: Vec<EitherOrBoth<(u8, char), (u8, bool)>>,
) -> Result<Vec<(u8, char)>, AllocError>
    ensures rising { IfOk result (λ es. IsStrictlySortedBy nat_cmp (keys_of es.items)) }
    ensures last { IfOk result (λ es. (k : ℕ) → lookup (is_at (nat_cmp k)) es.items
        ≡ last_value (eq_by_cmp nat_cmp) (lefts entries.items) k) }
{
    let pair: EitherOrBoth<BTreeMap<u8, char>, BTreeMap<u8, bool>> = entries
        .into_iter()
        .collect(alloc)?;
    match pair.left() {
        Some(map) => map.into_iter().collect(alloc),
        None => Ok(Vec::new(alloc)),
    }
}

/// The length of a map is the number of distinct keys.
pub fn number_of_keys(
    alloc: Global,
    entries: Vec<EitherOrBoth<(u8, char), (u8, bool)>>,
) -> Result<usize, AllocError>
    ensures { IfOk result (λ n. n ≡ distinct_count nat_eq (keys_of (lefts entries.items))) }
{
    let pair: EitherOrBoth<HashMap<u8, char>, HashMap<u8, bool>> = entries
        .into_iter()
        .collect(alloc)?;
    match pair.left() {
        Some(map) => Ok(map.len()),
        None => Ok(0),
    }
}

/// The entry at an index of a map in the order of insertion: the distinct keys in the order of their first places, each with its last
/// value.
pub fn entry_at(
    alloc: Global,
    entries: Vec<EitherOrBoth<(u8, char), (u8, bool)>>,
    index: usize,
) -> Result<Option<(u8, char)>, AllocError>
    ensures entry { IfOk result (λ r. r ≡ slice_get (first_list nat_eq (lefts entries.items)) index) }
    ensures last { IfOk result (λ r. IfSome r (λ e. last_value nat_eq (lefts entries.items) e.0 ≡ Some e.1)) }
{
    let pair: EitherOrBoth<IndexMap<u8, char>, IndexMap<u8, bool>> = entries
        .into_iter()
        .collect(alloc)?;
    match pair.left() {
        Some(map) => match map.get_index(index) {
            Some((key, value)) => Ok(Some((*key, *value))),
            None => Ok(None),
        },
        None => Ok(None),
    }
}

/// A hashed set contains exactly the values that came.
pub fn hash_set_contains<T: Hash + Eq + Drop>(
    alloc: Global,
    values: Vec<EitherOrBoth<u8, T>>,
    value: &T,
) -> Result<bool, AllocError>
    ensures { IfOk result (λ r. r ≡ is_member T.eq (rights values.items) value.now) }
{
    let pair: EitherOrBoth<HashSet<u8>, HashSet<T>> = values.into_iter().collect(alloc)?;
    match pair.right() {
        Some(set) => Ok(set.contains(value)),
        None => Ok(false),
    }
}

/// So does a set in the order of its values.
pub fn btree_set_contains(
    alloc: Global,
    values: Vec<EitherOrBoth<u8, char>>,
    value: u8,
) -> Result<bool, AllocError>
    ensures { IfOk result (λ r. r ≡ is_member (eq_by_cmp nat_cmp) (lefts values.items) value) }
{
    let pair: EitherOrBoth<BTreeSet<u8>, BTreeSet<char>> = values.into_iter().collect(alloc)?;
    match pair.left() {
        Some(set) => Ok(set.contains(&value)),
        None => Ok(false),
    }
}

/// The values of a set in the order of insertion, iterated over: of two of them the one that came first stands first, and they are the values
/// that came.
pub fn values_in_order(
    alloc: Global,
    values: Vec<EitherOrBoth<u8, char>>,
) -> Result<Vec<u8>, AllocError>
    ensures order { IfOk result (λ ks. StandByFirstPlaces nat_eq (lefts values.items) ks.items) }
    ensures same { IfOk result (λ ks. (k : ℕ) → is_member nat_eq ks.items k
        ≡ is_member nat_eq (lefts values.items) k) }
{
    law_first_items::<u8>();
    let pair: EitherOrBoth<IndexSet<u8>, IndexSet<char>> = values.into_iter().collect(alloc)?;
    match pair.left() {
        Some(set) => set.into_iter().collect(alloc),
        None => Ok(Vec::new(alloc)),
    }
}

/// The left side alone stands where it alone has values.
pub fn left_alone_stands(alloc: Global, values: Vec<Either<u8, char>>) -> Result<bool, AllocError>
    ensures { IfOk result (λ r. IsTrue r
        ↔ ((either.lefts values.items ≡ [] → ⊥) × (either.rights values.items ≡ []))) }
{
    let pair: EitherOrBoth<HashSet<u8>, HashSet<char>> = values.into_iter().collect(alloc)?;
    Ok(pair.is_left())
}

/// A pair that was collected and is collected again has the same `get` as before.
pub fn get_after_recollecting(
    alloc: Global,
    entries: Vec<EitherOrBoth<(u8, char), (u8, bool)>>,
    key: u8,
) -> Result<Option<char>, AllocError>
    ensures { IfOk result (λ r. r ≡ last_value nat_eq (lefts entries.items) key) }
{
    let pair: EitherOrBoth<HashMap<u8, char>, HashMap<u8, bool>> = entries
        .into_iter()
        .collect(alloc)?;
    match recollect_hash_map(alloc, pair)?.left() {
        Some(map) => Ok(map.get(&key).copied()),
        None => Ok(None),
    }
}

/// It keeps the order of insertion and the distinct values.
pub fn order_after_recollecting(
    alloc: Global,
    values: Vec<EitherOrBoth<u8, char>>,
) -> Result<Vec<u8>, AllocError>
    ensures { IfOk result (λ ks. ks.items ≡ first_items nat_eq (lefts values.items)) }
{
    let pair: EitherOrBoth<IndexSet<u8>, IndexSet<char>> = values.into_iter().collect(alloc)?;
    match recollect_index_set(alloc, pair)?.left() {
        Some(set) => set.into_iter().collect(alloc),
        None => Ok(Vec::new(alloc)),
    }
}

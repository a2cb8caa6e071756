//! Pairs of containers, iterated at once and collected again into the same shape.
//!
//! Whatever the pair, the result is the collected pair of its two sides: a side that is absent counts as empty, and a side that is
//! empty is dropped if the other one is not. So a pair that was collected comes back with equal contents and the same variant.
ghost use Rattle.std.specs.Prelude.{◌≡◌, List, [], IfOk};
ghost use Rattle.std.specs.Iterator.{IsFinite};
ghost use Rattle.eob_both.specs.Collector.{Collects, contents_at};
ghost use Rattle.eob_both.specs.Contents.{AreSameMembers, AreSameRisingMembers, IsSameMap, IsSameRisingMap};
ghost use Rattle.eob_both.specs.Places.{left_place, right_place, map_places};
ghost use Rattle.eob_both.specs.Sides.{lefts, rights, pair_of};
ghost use Rattle.either_or_both.specs.Walked.{GivesList};

use crate::EitherOrBoth;
use indexmap::{IndexMap, IndexSet};
use std::alloc::{AllocError, Allocator};
use std::collections::{BTreeMap, BTreeSet, HashMap, HashSet, VecDeque};
use std::hash::{BuildHasher, Hash};

/// A container whose iterator gives what it holds: the eight shapes that [`recollect_walked`] serves.
pub trait Walked: IntoIterator {
    // The contents of a container, as a list.
    ghost contents: { Self → List Self.Item };

    // Holds of the contents of every container, and of no contents.
    ghost is_held: { List Self.Item → Type 0 };

    ghost walks: { (c : Self) (it : Self.IntoIter) → Self.into_iter_gives c it
        → Self.IntoIter.can_next it × IsFinite (Self.IntoIter.remaining it)
        × is_held (contents c) × GivesList Self.IntoIter.next_gives it (contents c) };

    ghost holds_none: { is_held [] };
}

impl<T: Drop, A: Allocator> Walked for Vec<T, A> {
    ghost use Rattle.std.specs.Prelude.{⊤};
    ghost use Rattle.std.specs.Vec.Iter.{into_iter_items, into_iter_steps};
    ghost use Rattle.either_or_both.specs.Walked.{gives_list};

    ghost contents = { λ c. c.items };

    ghost is_held = { λ _. ⊤ };

    ghost walks = { λ c it h. let rest = h.0 in let runs = h.3 in
        (tt, tt, tt, gives_list into_iter_steps into_iter_items it c.items rest runs) };

    ghost holds_none = { tt };
}

impl<T: Drop, A: Allocator> Walked for VecDeque<T, A> {
    ghost use Rattle.std.specs.Prelude.{⊤};
    ghost use Rattle.std.specs.Vec.Iter.{into_iter_items, into_iter_steps};
    ghost use Rattle.either_or_both.specs.Walked.{gives_list};

    ghost contents = { λ c. c.items };

    ghost is_held = { λ _. ⊤ };

    ghost walks = { λ c it h. let rest = h.1 in let runs = h.2 in
        (tt, tt, tt, gives_list into_iter_steps into_iter_items it c.items rest runs) };

    ghost holds_none = { tt };
}

impl<K: Hash + Eq + Drop, V: Drop, S: BuildHasher + Drop, A: Allocator> Walked
    for HashMap<K, V, S, A> {
    ghost use Rattle.std.specs.List.{IsDistinct};
    ghost use Rattle.std.specs.Map.{keys_of};
    ghost use Rattle.std.specs.Map.Iter.{TakesFirst};
    ghost use Rattle.either_or_both.specs.Walked.{gives_list, no_key_twice};

    ghost contents = { λ c. c.entries };

    ghost is_held = { λ es. IsDistinct K.eq (keys_of es) };

    ghost walks = { λ c it h. let rest = h.0 in let runs = h.2 in let distinct = h.4 in
        (tt, tt, distinct, gives_list (TakesFirst (λ x. x)) (λ s. s) it c.entries rest runs) };

    ghost holds_none = { no_key_twice K.eq };
}

impl<K: Hash + Eq + Drop, S: BuildHasher + Drop, A: Allocator> Walked for HashSet<K, S, A> {
    ghost use Rattle.std.specs.List.{IsDistinct};
    ghost use Rattle.std.specs.Map.Iter.{TakesFirst};
    ghost use Rattle.either_or_both.specs.Walked.{gives_list, no_key_twice};

    ghost contents = { λ c. c.keys };

    ghost is_held = { IsDistinct K.eq };

    ghost walks = { λ c it h. let rest = h.0 in let runs = h.2 in let distinct = h.3 in
        (tt, tt, distinct, gives_list (TakesFirst (λ x. x)) (λ s. s) it c.keys rest runs) };

    ghost holds_none = { no_key_twice K.eq };
}

impl<K: Hash + Eq + Drop, V: Drop, S: BuildHasher + Drop, A: Allocator> Walked
    for IndexMap<K, V, S, A> {
    ghost use Rattle.std.specs.List.{IsDistinct};
    ghost use Rattle.std.specs.Map.{keys_of};
    ghost use Rattle.std.specs.Map.Iter.{TakesFirst};
    ghost use Rattle.either_or_both.specs.Walked.{gives_list, no_key_twice};

    ghost contents = { λ c. c.entries };

    ghost is_held = { λ es. IsDistinct K.eq (keys_of es) };

    ghost walks = { λ c it h. let rest = h.0 in let runs = h.2 in let distinct = h.4 in
        (tt, tt, distinct, gives_list (TakesFirst (λ x. x)) (λ s. s) it c.entries rest runs) };

    ghost holds_none = { no_key_twice K.eq };
}

impl<K: Hash + Eq + Drop, S: BuildHasher + Drop, A: Allocator> Walked for IndexSet<K, S, A> {
    ghost use Rattle.std.specs.List.{IsDistinct};
    ghost use Rattle.std.specs.Map.Iter.{TakesFirst};
    ghost use Rattle.either_or_both.specs.Walked.{gives_list, no_key_twice};

    ghost contents = { λ c. c.keys };

    ghost is_held = { IsDistinct K.eq };

    ghost walks = { λ c it h. let rest = h.0 in let runs = h.2 in let distinct = h.3 in
        (tt, tt, distinct, gives_list (TakesFirst (λ x. x)) (λ s. s) it c.keys rest runs) };

    ghost holds_none = { no_key_twice K.eq };
}

impl<K: Ord + Drop, V: Drop, A: Allocator> Walked for BTreeMap<K, V, A> {
    ghost use Rattle.std.specs.List.Sorted.{IsStrictlySortedBy};
    ghost use Rattle.std.specs.Map.{keys_of};
    ghost use Rattle.std.specs.Map.Iter.{TakesFirst};
    ghost use Rattle.either_or_both.specs.Walked.{gives_list, none_rise};

    ghost contents = { λ c. c.entries };

    ghost is_held = { λ es. IsStrictlySortedBy K.cmp (keys_of es) };

    ghost walks = { λ c it h. let rest = h.0 in let runs = h.2 in let sorted = h.5 in
        (tt, tt, sorted, gives_list (TakesFirst (λ x. x)) (λ s. s) it c.entries rest runs) };

    ghost holds_none = { none_rise K.cmp };
}

impl<K: Ord + Drop, A: Allocator> Walked for BTreeSet<K, A> {
    ghost use Rattle.std.specs.List.Sorted.{IsStrictlySortedBy};
    ghost use Rattle.std.specs.Map.Iter.{TakesFirst};
    ghost use Rattle.either_or_both.specs.Walked.{gives_list, none_rise};

    ghost contents = { λ c. c.keys };

    ghost is_held = { IsStrictlySortedBy K.cmp };

    ghost walks = { λ c it h. let rest = h.0 in let runs = h.2 in let sorted = h.4 in
        (tt, tt, sorted, gives_list (TakesFirst (λ x. x)) (λ s. s) it c.keys rest runs) };

    ghost holds_none = { none_rise K.cmp };
}

/// Iterates over the two containers of a pair at once, and collects what comes into a pair of the same shape, with memory of any
/// allocator. Each of [`recollect_vec`] and its kin does this for one shape, with nothing to prove.
///
/// The containers of the pair are taken apart while the new ones grow, one push or insert for each item of either side.
///
/// # Errors
///
/// Returns `AllocError` if a request for memory was refused. The pair is then dropped.
///
/// # Examples
///
/// ```
/// let pair = EitherOrBoth::Both(vec![in alloc; 1]?, Vec::<char>::new(alloc));
/// assert_eq!(rt; recollect_walked(alloc, pair)?, EitherOrBoth::Left(vec![in alloc; 1]?));
/// ```
pub fn recollect_walked<C: Walked, D: Walked, A: Allocator>(
    alloc: A,
    pair: EitherOrBoth<C, D>,
) -> Result<EitherOrBoth<C, D>, AllocError>
where
    EitherOrBoth<C, D>: FromIterator<EitherOrBoth<C::Item, D::Item>, Alloc = A>,
    requires any { (xs : List (EitherOrBoth C.Item D.Item))
        → ⟦<EitherOrBoth<C, D> as FromIterator<EitherOrBoth<C::Item, D::Item>>>⟧.can_from_iter xs }
    requires whole { (v : EitherOrBoth C D)
        → ⟦<EitherOrBoth<C, D> as FromIterator<EitherOrBoth<C::Item, D::Item>>>⟧.is_complete v }
    ensures { IfOk result (λ v. (xs : List (EitherOrBoth C.Item D.Item))
        × (lefts xs ≡ contents_at C.contents (left_place pair))
        × (rights xs ≡ contents_at D.contents (right_place pair))
        × C.is_held (contents_at C.contents (left_place pair))
        × D.is_held (contents_at D.contents (right_place pair))
        × ⟦<EitherOrBoth<C, D> as FromIterator<EitherOrBoth<C::Item, D::Item>>>⟧.from_iter_gives xs v) }
{
    pair.into_iter_swap().collect(alloc)
}

/// Iterates over a pair of vectors at once, and collects what comes into a pair of vectors, in order: the same two vectors, where an
/// absent one counts as empty, and an empty one is dropped unless both are empty. Pushes each value once.
///
/// # Errors
///
/// Returns `AllocError` if a request for memory was refused. The pair is then dropped.
///
/// # Examples
///
/// ```
/// let pair = recollect_vec(alloc, EitherOrBoth::Both(vec![in alloc; 1]?, Vec::<char>::new(alloc)))?;
/// assert_eq!(rt; pair, EitherOrBoth::Left(vec![in alloc; 1]?));
/// ```
pub fn recollect_vec<L: Drop, R: Drop, A: Allocator + Copy>(
    alloc: A,
    pair: EitherOrBoth<Vec<L, A>, Vec<R, A>>,
) -> Result<EitherOrBoth<Vec<L, A>, Vec<R, A>>, AllocError>
    ensures { IfOk result (λ v. map_places (λ l. l.items) (λ r. r.items) v
        ≡ pair_of (contents_at (λ l. l.items) (left_place pair))
        (contents_at (λ r. r.items) (right_place pair))) }
{
    recollect_walked(alloc, pair)
}

/// Iterates over a pair of hashed maps at once, and collects what comes into a pair of hashed maps: each key of a map keeps its value.
/// An absent map counts as empty, and an empty one is dropped unless both are empty. Inserts each entry once.
///
/// # Errors
///
/// Returns `AllocError` if a request for memory was refused. The pair is then dropped.
///
/// # Examples
///
/// ```
/// let mut map = HashMap::new(alloc);
/// map.insert(1, 'a')?;
/// let none = HashMap::<u8, bool>::new(alloc);
/// let pair = recollect_hash_map(alloc, EitherOrBoth::Both(map, none))?;
/// assert!(rt; pair.is_left());
/// ```
pub fn recollect_hash_map<
    K1: Hash + Eq + Drop,
    V1: Drop,
    S1: BuildHasher + Default + Drop,
    K2: Hash + Eq + Drop,
    V2: Drop,
    S2: BuildHasher + Default + Drop,
    A: Allocator + Copy,
>(
    alloc: A,
    pair: EitherOrBoth<HashMap<K1, V1, S1, A>, HashMap<K2, V2, S2, A>>,
) -> Result<EitherOrBoth<HashMap<K1, V1, S1, A>, HashMap<K2, V2, S2, A>>, AllocError>
    ensures { IfOk result (λ v. Collects (λ l. l.entries) (λ r. r.entries)
        (IsSameMap K1.eq) (IsSameMap K2.eq)
        (contents_at (λ l. l.entries) (left_place pair))
        (contents_at (λ r. r.entries) (right_place pair)) v) }
{
    recollect_walked(alloc, pair)
}

/// Iterates over a pair of hashed sets at once, and collects what comes into a pair of hashed sets with the same values. An absent set
/// counts as empty, and an empty one is dropped unless both are empty. Inserts each value once.
///
/// # Errors
///
/// Returns `AllocError` if a request for memory was refused. The pair is then dropped.
///
/// # Examples
///
/// ```
/// let mut set = HashSet::new(alloc);
/// set.insert(1)?;
/// let none = HashSet::<u8>::new(alloc);
/// let pair = recollect_hash_set(alloc, EitherOrBoth::Both(none, set))?;
/// assert!(rt; pair.is_right());
/// ```
pub fn recollect_hash_set<
    K1: Hash + Eq + Drop,
    S1: BuildHasher + Default + Drop,
    K2: Hash + Eq + Drop,
    S2: BuildHasher + Default + Drop,
    A: Allocator + Copy,
>(
    alloc: A,
    pair: EitherOrBoth<HashSet<K1, S1, A>, HashSet<K2, S2, A>>,
) -> Result<EitherOrBoth<HashSet<K1, S1, A>, HashSet<K2, S2, A>>, AllocError>
    ensures { IfOk result (λ v. Collects (λ l. l.keys) (λ r. r.keys)
        (AreSameMembers K1.eq) (AreSameMembers K2.eq)
        (contents_at (λ l. l.keys) (left_place pair))
        (contents_at (λ r. r.keys) (right_place pair)) v) }
{
    recollect_walked(alloc, pair)
}

/// Iterates over a pair of maps in the order of insertion at once, and collects what comes into a pair of such maps, with the same
/// entries in the same order. An absent map counts as empty, and an empty one is dropped unless both are empty. Inserts each entry
/// once.
///
/// # Errors
///
/// Returns `AllocError` if a request for memory was refused. The pair is then dropped.
///
/// # Examples
///
/// ```
/// let mut map = IndexMap::new(alloc);
/// map.insert(1, 'a')?;
/// let none = IndexMap::<u8, bool>::new(alloc);
/// let pair = recollect_index_map(alloc, EitherOrBoth::Both(map, none))?;
/// assert!(rt; pair.is_left());
/// ```
pub fn recollect_index_map<
    K1: Hash + Eq + Drop,
    V1: Drop,
    S1: BuildHasher + Default + Drop,
    K2: Hash + Eq + Drop,
    V2: Drop,
    S2: BuildHasher + Default + Drop,
    A: Allocator + Copy,
>(
    alloc: A,
    pair: EitherOrBoth<IndexMap<K1, V1, S1, A>, IndexMap<K2, V2, S2, A>>,
) -> Result<EitherOrBoth<IndexMap<K1, V1, S1, A>, IndexMap<K2, V2, S2, A>>, AllocError>
    ensures { IfOk result (λ v. map_places (λ l. l.entries) (λ r. r.entries) v
        ≡ pair_of (contents_at (λ l. l.entries) (left_place pair))
        (contents_at (λ r. r.entries) (right_place pair))) }
{
    recollect_walked(alloc, pair)
}

/// Iterates over a pair of sets in the order of insertion at once, and collects what comes into a pair of such sets, with the same
/// values in the same order. An absent set counts as empty, and an empty one is dropped unless both are empty. Inserts each value
/// once.
///
/// # Errors
///
/// Returns `AllocError` if a request for memory was refused. The pair is then dropped.
///
/// # Examples
///
/// ```
/// let mut set = IndexSet::new(alloc);
/// set.insert(1)?;
/// let none = IndexSet::<u8>::new(alloc);
/// let pair = recollect_index_set(alloc, EitherOrBoth::Both(none, set))?;
/// assert!(rt; pair.is_right());
/// ```
pub fn recollect_index_set<
    K1: Hash + Eq + Drop,
    S1: BuildHasher + Default + Drop,
    K2: Hash + Eq + Drop,
    S2: BuildHasher + Default + Drop,
    A: Allocator + Copy,
>(
    alloc: A,
    pair: EitherOrBoth<IndexSet<K1, S1, A>, IndexSet<K2, S2, A>>,
) -> Result<EitherOrBoth<IndexSet<K1, S1, A>, IndexSet<K2, S2, A>>, AllocError>
    ensures { IfOk result (λ v. map_places (λ l. l.keys) (λ r. r.keys) v
        ≡ pair_of (contents_at (λ l. l.keys) (left_place pair))
        (contents_at (λ r. r.keys) (right_place pair))) }
{
    recollect_walked(alloc, pair)
}

/// Iterates over a pair of queues at once, and collects what comes into a pair of queues, in order: the same two queues, where an
/// absent one counts as empty, and an empty one is dropped unless both are empty. Pushes each value once.
///
/// # Errors
///
/// Returns `AllocError` if a request for memory was refused. The pair is then dropped.
///
/// # Examples
///
/// ```
/// let list = VecDeque::from_vec(vec![in alloc; 1, 2]?);
/// let none = VecDeque::<u8>::new(alloc);
/// let pair = recollect_vec_deque(alloc, EitherOrBoth::Both(list, none))?;
/// assert!(rt; pair.is_left());
/// ```
pub fn recollect_vec_deque<L: Drop, R: Drop, A: Allocator + Copy>(
    alloc: A,
    pair: EitherOrBoth<VecDeque<L, A>, VecDeque<R, A>>,
) -> Result<EitherOrBoth<VecDeque<L, A>, VecDeque<R, A>>, AllocError>
    ensures { IfOk result (λ v. map_places (λ l. l.items) (λ r. r.items) v
        ≡ pair_of (contents_at (λ l. l.items) (left_place pair))
        (contents_at (λ r. r.items) (right_place pair))) }
{
    recollect_walked(alloc, pair)
}

/// Iterates over a pair of maps in the order of their keys at once, and collects what comes into a pair of such maps: each key of a
/// map keeps its value. An absent map counts as empty, and an empty one is dropped unless both are empty. Inserts each entry once.
///
/// # Errors
///
/// Returns `AllocError` if a request for memory was refused. The pair is then dropped.
///
/// # Examples
///
/// ```
/// let mut map = BTreeMap::new(alloc);
/// map.insert(1, 'a')?;
/// let none = BTreeMap::<u8, bool>::new(alloc);
/// let pair = recollect_btree_map(alloc, EitherOrBoth::Both(map, none))?;
/// assert!(rt; pair.is_left());
/// ```
pub fn recollect_btree_map<K1: Ord + Drop, V1: Drop, K2: Ord + Drop, V2: Drop, A: Allocator + Copy>(
    alloc: A,
    pair: EitherOrBoth<BTreeMap<K1, V1, A>, BTreeMap<K2, V2, A>>,
) -> Result<EitherOrBoth<BTreeMap<K1, V1, A>, BTreeMap<K2, V2, A>>, AllocError>
    ensures { IfOk result (λ v. Collects (λ l. l.entries) (λ r. r.entries)
        (IsSameRisingMap K1.cmp) (IsSameRisingMap K2.cmp)
        (contents_at (λ l. l.entries) (left_place pair))
        (contents_at (λ r. r.entries) (right_place pair)) v) }
{
    recollect_walked(alloc, pair)
}

/// Iterates over a pair of sets in the order of their values at once, and collects what comes into a pair of such sets with the same
/// values. An absent set counts as empty, and an empty one is dropped unless both are empty. Inserts each value once.
///
/// # Errors
///
/// Returns `AllocError` if a request for memory was refused. The pair is then dropped.
///
/// # Examples
///
/// ```
/// let mut set = BTreeSet::new(alloc);
/// set.insert(1)?;
/// let none = BTreeSet::<u8>::new(alloc);
/// let pair = recollect_btree_set(alloc, EitherOrBoth::Both(none, set))?;
/// assert!(rt; pair.is_right());
/// ```
pub fn recollect_btree_set<K1: Ord + Drop, K2: Ord + Drop, A: Allocator + Copy>(
    alloc: A,
    pair: EitherOrBoth<BTreeSet<K1, A>, BTreeSet<K2, A>>,
) -> Result<EitherOrBoth<BTreeSet<K1, A>, BTreeSet<K2, A>>, AllocError>
    ensures { IfOk result (λ v. Collects (λ l. l.keys) (λ r. r.keys)
        (AreSameRisingMembers K1.cmp) (AreSameRisingMembers K2.cmp)
        (contents_at (λ l. l.keys) (left_place pair))
        (contents_at (λ r. r.keys) (right_place pair)) v) }
{
    recollect_walked(alloc, pair)
}

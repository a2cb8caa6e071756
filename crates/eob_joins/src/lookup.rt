//! A list joined with a map that stays as it is: each item of the list in its order, with what the map has under its key, as orders with
//! their customers. Keys of the list may repeat, and nothing is to be proved of them.
ghost use Rattle.std.specs.Prelude.{◌≡◌, IfOk, Option, map, option_copied};
ghost use Rattle.std.specs.BTreeMap.{get};
ghost use Rattle.std.specs.HashMap.{get_by};
ghost use Rattle.eob_joins.specs.Lookup.{LooksUpRuns, lookup_steps, shown_lookup, with_found};

use crate::kept::push_all;
use indexmap::IndexMap;
use std::alloc::{AllocError, Allocator};
use std::collections::{BTreeMap, HashMap};
use std::hash::{BuildHasher, Hash};

/// A map in which a value is looked up by its key: an ordered one, a hashed one, or one in the order of insertion.
pub trait Lookup<K> {
    /// The map's values.
    type Value;

    ghost finds: { Self → K → Option Self.Value };

    /// Returns the value under a key, or `None` if there is none.
    fn look_up(&self, key: &K) -> Option<&Self::Value>
        ensures { option_copied result ≡ Self.finds self.now key.now };
}

impl<K: Ord, V, N: Allocator> Lookup<K> for BTreeMap<K, V, N> {
    type Value = V;

    ghost finds = { get K.cmp };

    #[inline(always)]
    fn look_up(&self, key: &K) -> Option<&V> {
        self.get(key)
    }
}

impl<K: Eq + Hash, V, S: BuildHasher, N: Allocator> Lookup<K> for HashMap<K, V, S, N> {
    type Value = V;

    ghost finds = { λ map k. get_by (K.eq k) map };

    #[inline(always)]
    fn look_up(&self, key: &K) -> Option<&V> {
        self.get(key)
    }
}

impl<K: Eq + Hash, V, S: BuildHasher, N: Allocator> Lookup<K> for IndexMap<K, V, S, N> {
    type Value = V;

    ghost finds = { λ map k. get_by (K.eq k) map };

    #[inline(always)]
    fn look_up(&self, key: &K) -> Option<&V> {
        self.get(key)
    }
}

/// A row of a look-up join: an item of the list, and what the map has under its key.
pub type LookupRow<'a, K, A, B> = (K, A, Option<&'a B>);

/// An iterator over pairs, each with what a map has under its key. Made by [`lookup_join_lazily`].
#[must_use = "iterators are lazy and do nothing unless consumed"]
#[derive(Drop)]
pub struct LookupJoin<'a, I, R> {
    lefts: I,
    right: &'a R,
}

/// Returns each item of a list in its order, with what a map has under its key: the join of a list whose keys may repeat, such as orders,
/// with a map that has each key once, such as customers. The map is an ordered one, a hashed one or one in the order of insertion, and
/// stays as it is. Takes one look-up for each item. [`lookup_join_lazily`] gives the same rows one by one, with no memory.
///
/// # Errors
///
/// `AllocError` where a request for memory was refused: then the list is dropped.
///
/// # Examples
///
/// ```
/// let orders = vec![in alloc; (7, "lamp"), (2, "desk"), (7, "bulb")]?;
/// let mut customers = BTreeMap::new(alloc);
/// customers.insert(7, "Ada")?;
/// let rows = vec![in alloc; (7, "lamp", Some(&"Ada")), (2, "desk", None), (7, "bulb", Some(&"Ada"))]?;
/// assert_eq!(rt; lookup_join(alloc, orders, &customers)?, rows);
/// ```
pub fn lookup_join<'a, K: Drop, A: Drop, R: Lookup<K>, M: Allocator>(
    alloc: M,
    left: Vec<(K, A), M>,
    right: &'a R,
) -> Result<Vec<LookupRow<'a, K, A, R::Value>, M>, AllocError>
    ensures { IfOk result (λ rows. map shown_lookup rows.items
        ≡ map (with_found (R.finds right.now)) left.items) }
{
    let rows = push_all(alloc, lookup_join_lazily(left, right))?;
    Ok(rows)
}

/// Returns an iterator over the pairs of a source, each with what a map has under its key, as [`lookup_join`] gives them at once. Takes
/// no memory, and one look-up for each pair.
///
/// # Examples
///
/// ```
/// let mut customers = BTreeMap::new(alloc);
/// customers.insert(7, "Ada")?;
/// let mut rows = lookup_join_lazily([(7, "lamp"), (2, "desk")], &customers);
/// assert_eq!(rt; rows.next(), Some((7, "lamp", Some(&"Ada"))));
/// assert_eq!(rt; rows.next(), Some((2, "desk", None)));
/// assert_eq!(rt; rows.next(), None);
/// ```
pub fn lookup_join_lazily<'a, K, A, U: IntoIterator<Item = (K, A)>, R: Lookup<K>>(
    left: U,
    right: &'a R,
) -> LookupJoin<'a, U::IntoIter, R>
    requires { (it : U.IntoIter) → U.into_iter_gives left it → U.IntoIter.can_next it }
    ensures can { U.IntoIter.can_next result.lefts }
    ensures runs { LooksUpRuns R.finds U.into_iter_gives U.IntoIter.remaining U.IntoIter.next_gives
        left right.now result }
{
    LookupJoin {
        lefts: left.into_iter(),
        right,
    }
}

impl<'a, K, A, I: Iterator<Item = (K, A)>, R: Lookup<K>> Iterator for LookupJoin<'a, I, R>
where
    R::Value: 'a,
{
    type Item = LookupRow<'a, K, A, R::Value>;

    ghost can_next = { λ s. I.can_next s.lefts };

    ghost next_gives = { lookup_steps R.finds I.next_gives };

    ghost remaining = { λ s. I.remaining s.lefts };

    #[inline(always)]
    fn next(&mut self) -> Option<LookupRow<'a, K, A, R::Value>> {
        let (key, value) = self.lefts.next()?;
        let found = self.right.look_up(&key);
        Some((key, value, found))
    }

    fn size_hint(&self) -> (usize, Option<usize>) {
        self.lefts.size_hint()
    }
}

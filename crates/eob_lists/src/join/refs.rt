//! The full outer join by reference, of two slices and of other sources of references: nothing is moved or cloned.
ghost use Rattle.std.specs.Prelude.{◌≡◌, IfSome, Some, length, ⊤};
ghost use Rattle.std.specs.Iterator.{IsFinite, UpTo, YieldsFirstBy, YieldsLastBy, item_count};
ghost use Rattle.std.specs.Iterator.Runs.{EachRunFrom};
ghost use Rattle.std.specs.Iterator.SizeHint.{IsWithinCount};
ghost use Rattle.std.specs.Map.Iter.{TakesFirst, deref_pair};
ghost use Rattle.eob_lists.specs.Join.{Rising};
ghost use Rattle.eob_lists.specs.OuterJoin.{JoinEnds, JoinsShownRuns, ShowsJoin, join_can, join_remaining};
ghost use Rattle.eob_lists.specs.OuterJoin.{join_steps, pairs_left};

use super::{OuterJoin, law_sorted_rises, outer_join_lazily};
use std::collections::{BTreeMap, btree_map};
use std::iter::FusedIterator;
use std::slice;

/// An iterator over references to the keys and the values of a slice of pairs. Made by [`outer_join_slices`].
#[must_use = "iterators are lazy and do nothing unless consumed"]
#[derive(Debug, Drop)]
pub struct PairRefs<'a, K, V> {
    rest: slice::Iter<'a, (K, V)>,
}

impl<'a, K, V> PairRefs<'a, K, V> {
    fn new(list: &'a [(K, V)]) -> Self
        ensures { pairs_left result ≡ list.now }
    {
        PairRefs { rest: list.iter() }
    }
}

impl<'a, K, V> Iterator for PairRefs<'a, K, V> {
    type Item = (&'a K, &'a V);

    ghost next_gives = { YieldsFirstBy deref_pair pairs_left };

    ghost remaining = { item_count pairs_left };

    #[inline(always)]
    fn next(&mut self) -> Option<(&'a K, &'a V)> {
        match self.rest.next() {
            Some(pair) => Some((&pair.0, &pair.1)),
            None => None,
        }
    }

    fn size_hint(&self) -> (usize, Option<usize>)
        ensures lower { IsWithinCount result.0 (item_count pairs_left self.now) }
        ensures upper { IfSome result.1 (UpTo (item_count pairs_left self.now)) }
        ensures exact { result ≡ (length (pairs_left self.now), Some (length (pairs_left self.now))) }
    {
        let left = self.rest.len();
        (left, Some(left))
    }
}

impl<'a, K, V> DoubleEndedIterator for PairRefs<'a, K, V> {
    ghost next_back_gives = { YieldsLastBy deref_pair pairs_left };

    #[inline(always)]
    fn next_back(&mut self) -> Option<(&'a K, &'a V)> {
        match self.rest.next_back() {
            Some(pair) => Some((&pair.0, &pair.1)),
            None => None,
        }
    }
}

impl<'a, K, V> ExactSizeIterator for PairRefs<'a, K, V> {
    fn len(&self) -> usize {
        self.rest.len()
    }
}

impl<'a, K, V> FusedIterator for PairRefs<'a, K, V> {}

/// Returns an iterator over the full outer join of two sources of references to keys and values whose keys strictly increase, such as
/// the iterators over two maps that stay as they are. It is [`outer_join_lazily`] under a contract that speaks of what the references
/// show.
///
/// # Examples
///
/// ```
/// let left = [(1, 'a')];
/// let mut rows = outer_join_refs(left.iter().map(|pair| (&pair.0, &pair.1)), [(&2, &'x')]);
/// assert_eq!(rt; rows.next(), Some((&1, Left(&'a'))));
/// assert_eq!(rt; rows.next(), Some((&2, Right(&'x'))));
/// ```
pub fn outer_join_refs<'a, K: Ord, A, B, U, V>(
    left: U,
    right: V,
) -> OuterJoin<U::IntoIter, V::IntoIter>
where
    U: IntoIterator<Item = (&'a K, &'a A)>,
    V: IntoIterator<Item = (&'a K, &'a B)>,
    requires left { (it : U.IntoIter) → U.into_iter_gives left it → U.IntoIter.can_next it }
    requires right { (it : V.IntoIter) → V.into_iter_gives right it → V.IntoIter.can_next it }
    ensures can { join_can U.IntoIter.can_next V.IntoIter.can_next result }
    ensures ends { JoinEnds (U.into_iter_gives left) (V.into_iter_gives right)
        U.IntoIter.remaining V.IntoIter.remaining result }
    ensures runs { JoinsShownRuns K.cmp (U.into_iter_gives left) (V.into_iter_gives right)
        U.IntoIter.next_gives V.IntoIter.next_gives result }
{
    outer_join_lazily(left, right)
}

/// Returns an iterator over the full outer join of two slices of pairs, as references to their keys and values.
///
/// The caller must prove that the keys of both strictly increase; see [`is_rising`](super::is_rising). The contract speaks of each run,
/// so that a caller of `next`, `find`, `take` or a loop that stops early learns what its rows show.
///
/// # Examples
///
/// ```
/// let left = [(1, 'a'), (3, 'b')];
/// let right = [(3, 'y')];
/// // The checker does not read from a table that its keys strictly increase, so a test tells it.
/// assert!(rt; is_rising(&left));
/// assert!(rt; is_rising(&right));
/// let mut rows = outer_join_slices(&left, &right);
/// assert_eq!(rt; rows.next(), Some((&1, Left(&'a'))));
/// assert_eq!(rt; rows.next(), Some((&3, Both(&'b', &'y'))));
/// assert_eq!(rt; rows.next(), None);
/// ```
pub fn outer_join_slices<'a, K: Ord, A, B>(
    left: &'a [(K, A)],
    right: &'a [(K, B)],
) -> OuterJoin<PairRefs<'a, K, A>, PairRefs<'a, K, B>>
    requires left { Rising K.cmp left.now }
    requires right { Rising K.cmp right.now }
    ensures can { join_can (λ _. ⊤) (λ _. ⊤) result }
    ensures finite { IsFinite (join_remaining (item_count pairs_left) (item_count pairs_left) result) }
    ensures runs { EachRunFrom
        (join_steps (λ j k. K.cmp j.now k.now)
        (YieldsFirstBy deref_pair pairs_left) (YieldsFirstBy deref_pair pairs_left))
        result (λ p. ShowsJoin K.cmp left.now right.now p) }
{
    outer_join_refs(PairRefs::new(left), PairRefs::new(right))
}

/// Returns an iterator over the full outer join of two ordered maps that stay as they are, as references to their keys and values. The
/// keys of an ordered map strictly increase, so there is nothing to prove.
///
/// # Examples
///
/// ```
/// let mut left = BTreeMap::new(alloc);
/// left.insert(1, 'a')?;
/// let right = BTreeMap::<i32, char>::new(alloc);
/// let mut rows = outer_join_maps(&left, &right);
/// assert_eq!(rt; rows.next(), Some((&1, Left(&'a'))));
/// ```
pub fn outer_join_maps<'a, K: Ord, A, B>(
    left: &'a BTreeMap<K, A>,
    right: &'a BTreeMap<K, B>,
) -> OuterJoin<btree_map::Iter<'a, K, A>, btree_map::Iter<'a, K, B>>
    ensures can { join_can (λ _. ⊤) (λ _. ⊤) result }
    ensures finite { IsFinite (join_remaining (item_count (λ xs. xs)) (item_count (λ ys. ys)) result) }
    ensures runs { EachRunFrom
        (join_steps (λ j k. K.cmp j.now k.now) (TakesFirst deref_pair) (TakesFirst deref_pair))
        result (λ p. ShowsJoin K.cmp left.now.entries right.now.entries p) }
{
    law_sorted_rises::<K, A>();
    law_sorted_rises::<K, B>();
    outer_join_refs(left.iter(), right.iter())
}

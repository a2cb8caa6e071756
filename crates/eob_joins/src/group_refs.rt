//! A slice whose keys are ordered as slices of one key each, and the full outer join of two such slices: by reference, with no memory.
ghost use Rattle.std.specs.Prelude.{◌≡◌, ◌≤◌, IfSome, length, ⊤};
ghost use Rattle.std.specs.Iterator.{IsFinite, UpTo, YieldsFirstBy, item_count};
ghost use Rattle.std.specs.Iterator.Runs.{EachRunFrom};
ghost use Rattle.std.specs.Iterator.SizeHint.{IsWithinCount};
ghost use Rattle.std.specs.List.{prefix_len};
ghost use Rattle.std.specs.Map.Iter.{deref_pair};
ghost use Rattle.std.specs.Ordering.{is_eq};
ghost use Rattle.eob_lists.specs.OuterJoin.{ShowsJoin, join_can, join_remaining, join_steps};
ghost use Rattle.eob_joins.specs.Groups.{Ordered};
ghost use Rattle.eob_joins.specs.KeySlices.{AreKeySlices, ShowsKeySlices, slices_left, slices_of};

use eob_lists::join::{OuterJoin, outer_join_lazily};
use std::iter::FusedIterator;

/// An iterator over the keys of a slice of pairs, each key once with the slice of its pairs. Made by [`groups_of`].
#[must_use = "iterators are lazy and do nothing unless consumed"]
#[derive(Debug, Drop)]
pub struct GroupRefs<'a, K, V> {
    rest: &'a [(K, V)],
}

impl<'a, K: Ord, V> Iterator for GroupRefs<'a, K, V> {
    type Item = (&'a K, &'a [(K, V)]);

    ghost next_gives = { YieldsFirstBy deref_pair (slices_left K.cmp) };

    ghost remaining = { item_count (slices_left K.cmp) };

    fn next(&mut self) -> Option<(&'a K, &'a [(K, V)])> {
        match self.rest.split_first() {
            Some((first, others)) => {
                let (_, rest) = others.split_at(run_length(&first.0, others));
                let (group, _) = self.rest.split_at(self.rest.len() - rest.len());
                self.rest = rest;
                Some((&first.0, group))
            }
            None => None,
        }
    }

    // One group at least where a pair is left, and no more groups than pairs.
    fn size_hint(&self) -> (usize, Option<usize>)
        ensures lower { IsWithinCount result.0 (item_count (slices_left K.cmp) self.now) }
        ensures upper { IfSome result.1 (UpTo (item_count (slices_left K.cmp) self.now)) }
    {
        (self.rest.len().min(1), Some(self.rest.len()))
    }
}

impl<'a, K: Ord, V> FusedIterator for GroupRefs<'a, K, V> {}

/// Returns an iterator over the groups of a slice whose keys are ordered: each key once, in order, with the slice of its
/// pairs. Takes no memory. The caller must prove that the keys are ordered, which [`is_ordered`](crate::is_ordered) tests.
///
/// # Examples
///
/// ```
/// let list = [(1, 'a'), (1, 'b'), (3, 'c')];
/// assert!(rt; is_ordered(&list));
/// let mut groups = groups_of(&list);
/// assert!(rt; groups.next() == Some((&1, &list[..2])));
/// assert!(rt; groups.next() == Some((&3, &list[2..])));
/// assert!(rt; groups.next().is_none());
/// ```
pub fn groups_of<K: Ord, V>(list: &[(K, V)]) -> GroupRefs<'_, K, V>
    requires { Ordered K.cmp list.now }
    ensures rest { slices_left K.cmp result ≡ slices_of K.cmp list.now }
    ensures slices { AreKeySlices K.cmp list.now (slices_of K.cmp list.now) }
    ensures runs { EachRunFrom (YieldsFirstBy deref_pair (slices_left K.cmp)) result
        (λ p. ShowsKeySlices K.cmp list.now p) }
{
    GroupRefs { rest: list }
}

/// Returns an iterator over the full outer join of two slices whose keys are ordered and may repeat: each key of either
/// slice once, in order, with its pairs in the left slice as left place and those in the right slice as right place. Takes no
/// memory. The caller must prove that the keys are ordered, which [`is_ordered`](crate::is_ordered) tests.
///
/// # Examples
///
/// ```
/// let left = [(1, 'a'), (1, 'b'), (3, 'c')];
/// let right = [(1, 'x'), (2, 'y')];
/// assert!(rt; is_ordered(&left) && is_ordered(&right));
/// let mut rows = group_join_slices(&left, &right);
/// assert!(rt; rows.next() == Some((&1, Both(&left[..2], &right[..1]))));
/// assert!(rt; rows.next() == Some((&2, Right(&right[1..]))));
/// assert!(rt; rows.next() == Some((&3, Left(&left[2..]))));
/// assert!(rt; rows.next().is_none());
/// ```
pub fn group_join_slices<'a, K: Ord, A, B>(
    left: &'a [(K, A)],
    right: &'a [(K, B)],
) -> OuterJoin<GroupRefs<'a, K, A>, GroupRefs<'a, K, B>>
    requires left { Ordered K.cmp left.now }
    requires right { Ordered K.cmp right.now }
    ensures left { AreKeySlices K.cmp left.now (slices_of K.cmp left.now) }
    ensures right { AreKeySlices K.cmp right.now (slices_of K.cmp right.now) }
    ensures can { join_can (λ _. ⊤) (λ _. ⊤) result }
    ensures finite { IsFinite
        (join_remaining (item_count (slices_left K.cmp)) (item_count (slices_left K.cmp)) result) }
    ensures runs { EachRunFrom
        (join_steps (λ j k. K.cmp j.now k.now)
        (YieldsFirstBy deref_pair (slices_left K.cmp)) (YieldsFirstBy deref_pair (slices_left K.cmp)))
        result (λ p. ShowsJoin K.cmp (slices_of K.cmp left.now) (slices_of K.cmp right.now) p) }
{
    outer_join_lazily(groups_of(left), groups_of(right))
}

// How many pairs at the front have the key.
fn run_length<K: Ord, V>(key: &K, list: &[(K, V)]) -> usize
    ensures count { result ≡ prefix_len (λ x. is_eq (K.cmp key.now x.0)) list.now }
    ensures bound { result ≤ length list.now }
{
    list.iter()
        .take_while(|pair| key.cmp(&pair.0).is_eq())
        .count()
}

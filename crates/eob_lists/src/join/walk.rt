//! The full outer join of two iterators, item by item.
ghost use Rattle.std.specs.Prelude.{◌≡◌, ◌+◌, ◌-◌, ◌^◌, min, max, IfSome, Some};
ghost use Rattle.std.specs.Iterator.{UpTo};
ghost use Rattle.std.specs.Iterator.SizeHint.{IsWithinCount};
ghost use Rattle.eob_lists.specs.OuterJoin.{IsBoundSum, JoinEnds, JoinsRuns, held_remaining, join_can};
ghost use Rattle.eob_lists.specs.OuterJoin.{join_remaining, join_steps};

use crate::EitherOrBoth;
use std::cmp::Ordering;
use std::iter::FusedIterator;
use std::mem;

/// An iterator over the full outer join of two iterators of pairs whose keys strictly increase.
///
/// It holds the next pair of each side. A side that has returned `None` is not polled again. Made by
/// [`outer_join_lazily`](super::outer_join_lazily).
pub type OuterJoin<I, J> = JoinedPairs<I, J, <I as Iterator>::Item, <J as Iterator>::Item>;

/// What [`OuterJoin`] stands for: two iterators, and the next pair of each.
#[must_use = "iterators are lazy and do nothing unless consumed"]
#[derive(Debug, Drop)]
pub struct JoinedPairs<I, J, X, Y> {
    lefts: I,
    rights: J,
    left: Option<X>,
    right: Option<Y>,
}

/// Returns an iterator over the full outer join of two sources of pairs whose keys strictly increase: each key of either source once,
/// in order, with the left source's value as left place and the right source's as right place. Takes no memory, and one comparison for
/// each row.
///
/// Both sources are polled for their first pair at once, and each for another where its pair is returned. Of sources whose keys do not
/// strictly increase the rows are unspecified; see [`is_rising`](super::is_rising).
///
/// # Examples
///
/// ```
/// let mut rows = outer_join_lazily([(1, 'a'), (3, 'b')], [(3, 'y')]);
/// assert_eq!(rt; rows.next(), Some((1, Left('a'))));
/// assert_eq!(rt; rows.next(), Some((3, Both('b', 'y'))));
/// assert_eq!(rt; rows.next(), None);
/// ```
pub fn outer_join_lazily<K, A, B, U, V>(
    left: U,
    right: V,
) -> JoinedPairs<U::IntoIter, V::IntoIter, (K, A), (K, B)>
where
    K: Ord + Drop,
    A: Drop,
    B: Drop,
    U: IntoIterator<Item = (K, A)>,
    V: IntoIterator<Item = (K, B)>,
    requires left { (it : U.IntoIter) → U.into_iter_gives left it → U.IntoIter.can_next it }
    requires right { (it : V.IntoIter) → V.into_iter_gives right it → V.IntoIter.can_next it }
    ensures can { join_can U.IntoIter.can_next V.IntoIter.can_next result }
    ensures ends { JoinEnds (U.into_iter_gives left) (V.into_iter_gives right)
        U.IntoIter.remaining V.IntoIter.remaining result }
    ensures runs { JoinsRuns K.cmp (U.into_iter_gives left) (V.into_iter_gives right)
        U.IntoIter.next_gives V.IntoIter.next_gives result }
{
    let mut lefts = left.into_iter();
    let mut rights = right.into_iter();
    let left = lefts.next();
    let right = rights.next();
    JoinedPairs {
        lefts,
        rights,
        left,
        right,
    }
}

impl<K, A, B, I, J> Iterator for JoinedPairs<I, J, (K, A), (K, B)>
where
    K: Ord + Drop,
    A: Drop,
    B: Drop,
    I: Iterator<Item = (K, A)>,
    J: Iterator<Item = (K, B)>,
{
    type Item = (K, EitherOrBoth<A, B>);

    ghost can_next = { join_can I.can_next J.can_next };

    ghost next_gives = { join_steps K.cmp I.next_gives J.next_gives };

    ghost remaining = { join_remaining I.remaining J.remaining };

    #[inline(always)]
    fn next(&mut self) -> Option<Self::Item> {
        let order = match (&self.left, &self.right) {
            (Some(l), Some(r)) => l.0.cmp(&r.0),
            (Some(_), None) => Ordering::Less,
            (None, Some(_)) => Ordering::Greater,
            (None, None) => return None,
        };
        match order {
            Ordering::Less => {
                let (key, a) = mem::replace(&mut self.left, self.lefts.next())?;
                Some((key, EitherOrBoth::Left(a)))
            }
            Ordering::Equal => {
                let (key, a) = mem::replace(&mut self.left, self.lefts.next())?;
                let (_other, b) = mem::replace(&mut self.right, self.rights.next())?;
                Some((key, EitherOrBoth::Both(a, b)))
            }
            Ordering::Greater => {
                let (key, b) = mem::replace(&mut self.right, self.rights.next())?;
                Some((key, EitherOrBoth::Right(b)))
            }
        }
    }

    // At least what the longer side has at least, and at most what both sides have at most.
    fn size_hint(&self) -> (usize, Option<usize>) {
        join_hint(
            side_hint(&self.left, &self.lefts),
            side_hint(&self.right, &self.rights),
        )
    }
}

impl<K, A, B, I, J> FusedIterator for JoinedPairs<I, J, (K, A), (K, B)>
where
    K: Ord + Drop,
    A: Drop,
    B: Drop,
    I: Iterator<Item = (K, A)>,
    J: Iterator<Item = (K, B)>,
{}

// The hint of a side: one that has ended is not polled.
fn side_hint<I: Iterator>(held: &Option<I::Item>, rest: &I) -> (usize, Option<usize>)
    ensures lower { IsWithinCount result.0 (held_remaining held.now (I.remaining rest.now)) }
    ensures upper { IfSome result.1 (UpTo (held_remaining held.now (I.remaining rest.now))) }
{
    match held {
        Some(_) => hint_with_held(rest.size_hint()),
        None => (0, Some(0)),
    }
}

// The hint of a side that holds an item, from that of its iterator.
fn hint_with_held(rest: (usize, Option<usize>)) -> (usize, Option<usize>)
    ensures lower { result.0 ≡ min (rest.0 + 1) (2 ^ 64 - 1) }
    ensures upper { IsBoundSum rest.1 (Some 1) result.1 }
{
    let upper = match rest.1 {
        Some(upper) => upper.checked_add(1),
        None => None,
    };
    (rest.0.saturating_add(1), upper)
}

// The hint of a join, from those of its sides.
fn join_hint(left: (usize, Option<usize>), right: (usize, Option<usize>)) -> (usize, Option<usize>)
    ensures lower { result.0 ≡ max left.0 right.0 }
    ensures upper { IsBoundSum left.1 right.1 result.1 }
{
    let upper = match (left.1, right.1) {
        (Some(left), Some(right)) => left.checked_add(right),
        _ => None,
    };
    (left.0.max(right.0), upper)
}

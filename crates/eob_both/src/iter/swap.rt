//! The iterator over both sides at once, until both have ended.
//!
//! It holds two optional sides. Its back end works on the same list as its front end: the exact lengths that are left decide at
//! each call which side gives the last item, so the longer side gives its tail alone before the two are taken together.
ghost use Rattle.std.specs.Prelude.{◌≡◌, IfSome};
ghost use Rattle.std.specs.Iterator.{UpTo};
ghost use Rattle.std.specs.Iterator.SizeHint.{IsWithinCount};
ghost use Rattle.eob_both.specs.Places.{from_places};
ghost use Rattle.eob_both.specs.Swap.{swap_left, swap_right, swap_can, swap_remaining, swap_steps};
ghost use Rattle.eob_both.specs.Swap.{swap_steps_back};

use super::side::{hint_of, len_of, max_hint, next_back_of, next_of};
use crate::EitherOrBoth;
use std::cmp::Ordering;
use std::iter::FusedIterator;

/// An iterator over two iterators side by side, until both have ended: the item at each index holds in its left place the left
/// iterator's item at that index, and in its right place the right one's. Past the end of one of them its place is absent.
///
/// An inner iterator that has returned `None` is dropped and not polled again. See
/// [`into_iter_swap`](crate::EitherOrBoth::into_iter_swap).
///
/// # Examples
///
/// ```
/// let mut rows = EitherOrBoth::Both([1, 2], ['a']).into_iter_swap();
/// assert_eq!(rt; rows.next_back(), Some(EitherOrBoth::Left(2)));
/// assert_eq!(rt; rows.next_back(), Some(EitherOrBoth::Both(1, 'a')));
/// ```
#[must_use = "iterators are lazy and do nothing unless consumed"]
#[derive(Debug, Clone, PartialEq, Eq, Drop)]
pub struct SwapIterEitherOrBoth<L, R> {
    left: Option<L>,
    right: Option<R>,
}

impl<L, R> SwapIterEitherOrBoth<L, R> {
    pub(crate) fn new(left: Option<L>, right: Option<R>) -> Self
        ensures left { swap_left result ≡ left }
        ensures right { swap_right result ≡ right }
    {
        SwapIterEitherOrBoth { left, right }
    }
}

impl<L: Iterator, R: Iterator> Iterator for SwapIterEitherOrBoth<L, R> {
    type Item = EitherOrBoth<L::Item, R::Item>;

    ghost can_next = { swap_can L.can_next R.can_next };

    ghost next_gives = { swap_steps L.next_gives R.next_gives };

    ghost remaining = { swap_remaining L.remaining R.remaining };

    /// Returns the next items of both sides, or the one of the side that has one left.
    ///
    /// # Examples
    ///
    /// ```
    /// let mut rows = EitherOrBoth::Both([1, 2], ['a']).into_iter_swap();
    /// assert_eq!(rt; rows.next(), Some(EitherOrBoth::Both(1, 'a')));
    /// assert_eq!(rt; rows.next(), Some(EitherOrBoth::Left(2)));
    /// ```
    // Each case returns its own value, which is twice as fast as two options that are put together.
    #[inline(always)]
    fn next(&mut self) -> Option<Self::Item> {
        match next_of(&mut self.left) {
            Some(l) => match next_of(&mut self.right) {
                Some(r) => Some(EitherOrBoth::Both(l, r)),
                None => Some(EitherOrBoth::Left(l)),
            },
            None => match next_of(&mut self.right) {
                Some(r) => Some(EitherOrBoth::Right(r)),
                None => None,
            },
        }
    }

    /// Returns the greater lower bound of the two sides, and the greater upper one if both sides have one.
    ///
    /// # Examples
    ///
    /// ```
    /// assert_eq!(rt; EitherOrBoth::Both([1, 2], ['a']).into_iter_swap().size_hint(), (2, Some(2)));
    /// ```
    fn size_hint(&self) -> (usize, Option<usize>)
        ensures lower { IsWithinCount result.0 (swap_remaining L.remaining R.remaining self.now) }
        ensures upper { IfSome result.1 (UpTo (swap_remaining L.remaining R.remaining self.now)) }
        ensures ended { swap_left self.now ≡ None → swap_right self.now ≡ None → result ≡ (0, Some 0) }
    {
        max_hint(hint_of(&self.left), hint_of(&self.right))
    }
}

impl<L, R> DoubleEndedIterator for SwapIterEitherOrBoth<L, R>
where
    L: DoubleEndedIterator + ExactSizeIterator,
    R: DoubleEndedIterator + ExactSizeIterator,
{
    ghost can_next_back = { swap_can L.can_next_back R.can_next_back };

    ghost next_back_gives = { swap_steps_back L.next_back_gives R.next_back_gives L.remaining R.remaining };

    /// Returns the last item of the list that [`next`](Iterator::next) goes through: the last one of the longer side alone, or of both
    /// sides where they have equally many left.
    ///
    /// Each call takes the length of both sides, so that it costs two calls of `len` more than a call of `next`.
    ///
    /// # Examples
    ///
    /// ```
    /// let mut rows = EitherOrBoth::Both([1, 2], ['a']).into_iter_swap();
    /// assert_eq!(rt; rows.next_back(), Some(EitherOrBoth::Left(2)));
    /// assert_eq!(rt; rows.next_back(), Some(EitherOrBoth::Both(1, 'a')));
    /// ```
    #[inline(always)]
    fn next_back(&mut self) -> Option<Self::Item> {
        let order = match (&self.left, &self.right) {
            (Some(left), Some(right)) => left.len().cmp(&right.len()),
            (Some(_), None) => Ordering::Greater,
            (None, Some(_)) => Ordering::Less,
            (None, None) => return None,
        };
        match order {
            Ordering::Less => match next_back_of(&mut self.right) {
                Some(r) => Some(EitherOrBoth::Right(r)),
                None => None,
            },
            Ordering::Greater => match next_back_of(&mut self.left) {
                Some(l) => Some(EitherOrBoth::Left(l)),
                None => None,
            },
            Ordering::Equal => {
                let left = next_back_of(&mut self.left);
                let right = next_back_of(&mut self.right);
                both_or_one(left, right)
            }
        }
    }
}

// The value with these two places, if there is one.
#[inline(always)]
fn both_or_one<L, R>(left: Option<L>, right: Option<R>) -> Option<EitherOrBoth<L, R>>
    ensures { result ≡ from_places left right }
{
    match (left, right) {
        (Some(left), Some(right)) => Some(EitherOrBoth::Both(left, right)),
        (Some(left), None) => Some(EitherOrBoth::Left(left)),
        (None, Some(right)) => Some(EitherOrBoth::Right(right)),
        (None, None) => None,
    }
}

impl<L: ExactSizeIterator, R: ExactSizeIterator> ExactSizeIterator for SwapIterEitherOrBoth<L, R> {
    /// Returns the number of items of the longer side.
    ///
    /// # Examples
    ///
    /// ```
    /// assert_eq!(rt; EitherOrBoth::Both([1, 2], ['a']).into_iter_swap().len(), 2);
    /// ```
    #[inline(always)]
    fn len(&self) -> usize {
        len_of(&self.left).max(len_of(&self.right))
    }
}

// The bound on both sides is the original crate's. The walk is fused over any sides: it gives up one that has ended.
impl<L: FusedIterator, R: FusedIterator> FusedIterator for SwapIterEitherOrBoth<L, R> {}

//! The iterator over the left side, and then over the right one.
//!
//! It holds two optional sides of one type. `next` polls the left one first, and `next_back` the right one. Where that one has ended the
//! other takes its place, so that a loop polls one place alone.
ghost use Rattle.std.specs.Prelude.{◌≡◌, None, IfSome, IsSomeAnd};
ghost use Rattle.std.specs.Iterator.{UpTo};
ghost use Rattle.std.specs.Iterator.SizeHint.{IsWithinCount};
ghost use Rattle.eob_both.specs.Chain.{chain_left, chain_right, chain_can, chain_remaining, chain_steps};
ghost use Rattle.eob_both.specs.Chain.{chain_steps_back};

use super::side::{hint_of, next_back_of, next_of, sum_hint};
use std::iter::FusedIterator;

/// An iterator over the items of one iterator, and then over those of another: of the left side and of the right one, of which one
/// may be absent. From the back it takes the right side's items first.
///
/// An inner iterator that has returned `None` is dropped and not polled again. See
/// [`into_iter_chain`](crate::EitherOrBoth::into_iter_chain).
///
/// # Examples
///
/// ```
/// let items = EitherOrBoth::Both([1, 2], [3, 4]).into_iter_chain();
/// assert!(rt; items.eq([1, 2, 3, 4]));
/// ```
#[must_use = "iterators are lazy and do nothing unless consumed"]
#[derive(Debug, Clone, PartialEq, Eq, Drop)]
pub struct ChainedIterEitherOrBoth<T> {
    left: Option<T>,
    right: Option<T>,
}

impl<T> ChainedIterEitherOrBoth<T> {
    pub(crate) fn new(left: Option<T>, right: Option<T>) -> Self
        ensures left { chain_left result ≡ left }
        ensures right { chain_right result ≡ right }
    {
        ChainedIterEitherOrBoth { left, right }
    }
}

impl<T: Default> Default for ChainedIterEitherOrBoth<T> {
    ghost is_default = { λ s. IsSomeAnd (chain_left s) T.is_default × (chain_right s ≡ None) };

    /// Returns a chain of the default of the inner iterator, as its left side, and no right side.
    ///
    /// # Examples
    ///
    /// ```
    /// let mut items = ChainedIterEitherOrBoth::<std::slice::Iter<u8>>::default();
    /// assert_eq!(rt; items.next(), None);
    /// ```
    fn default() -> Self {
        ChainedIterEitherOrBoth::new(Some(T::default()), None)
    }
}

impl<T: Iterator> Iterator for ChainedIterEitherOrBoth<T> {
    type Item = T::Item;

    ghost can_next = { chain_can T.can_next };

    ghost next_gives = { chain_steps T.next_gives };

    ghost remaining = { chain_remaining T.remaining };

    /// Returns the next item of the left side, or of the right one once the left one has none left.
    ///
    /// # Examples
    ///
    /// ```
    /// let mut items = EitherOrBoth::Both([1], [2]).into_iter_chain();
    /// assert_eq!(rt; (items.next(), items.next(), items.next()), (Some(1), Some(2), None));
    /// ```
    #[inline(always)]
    fn next(&mut self) -> Option<Self::Item> {
        match next_of(&mut self.left) {
            Some(item) => Some(item),
            None => {
                self.left = self.right.take();
                next_of(&mut self.left)
            }
        }
    }

    /// Returns the sums of the two sides' bounds: the lower one at most `usize::MAX`, the upper one if both sides have one and
    /// their sum fits.
    ///
    /// # Examples
    ///
    /// ```
    /// assert_eq!(rt; EitherOrBoth::Both([1, 2], [3, 4]).into_iter_chain().size_hint(), (4, Some(4)));
    /// ```
    fn size_hint(&self) -> (usize, Option<usize>)
        ensures lower { IsWithinCount result.0 (chain_remaining T.remaining self.now) }
        ensures upper { IfSome result.1 (UpTo (chain_remaining T.remaining self.now)) }
        ensures ended { chain_left self.now ≡ None → chain_right self.now ≡ None → result ≡ (0, Some 0) }
    {
        sum_hint(hint_of(&self.left), hint_of(&self.right))
    }
}

impl<T: DoubleEndedIterator> DoubleEndedIterator for ChainedIterEitherOrBoth<T> {
    ghost can_next_back = { chain_can T.can_next_back };

    ghost next_back_gives = { chain_steps_back T.next_back_gives };

    /// Returns the last item of the right side, or of the left one once the right one has none left.
    ///
    /// # Examples
    ///
    /// ```
    /// let mut items = EitherOrBoth::Both([1], [2]).into_iter_chain();
    /// assert_eq!(rt; (items.next_back(), items.next_back(), items.next_back()), (Some(2), Some(1), None));
    /// ```
    #[inline(always)]
    fn next_back(&mut self) -> Option<Self::Item> {
        match next_back_of(&mut self.right) {
            Some(item) => Some(item),
            None => {
                self.right = self.left.take();
                next_back_of(&mut self.right)
            }
        }
    }
}

// The bound is the original crate's. The chain is fused over any sides: it gives up one that has ended.
impl<T: FusedIterator> FusedIterator for ChainedIterEitherOrBoth<T> {}

//! The iterator over the items of the held side, each in the held variant.
ghost use Rattle.std.specs.Prelude.{◌≡◌};
ghost use Rattle.either_or_both.specs.EitherSwap.{swap_side, held_swap_can, held_swap_remaining};
ghost use Rattle.either_or_both.specs.EitherSwap.{held_swap_steps};

use crate::Either;
use crate::Either::{Left, Right};
use std::iter::FusedIterator;

/// An iterator over the items of the iterator that an [`Either`] of two iterators holds, each in the variant that holds it.
///
/// # Examples
///
/// ```
/// let mut items = Either::<[u8; 1], [char; 1]>::Right(['a']).into_iter_swap();
/// assert_eq!(rt; items.next(), Some(Either::Right('a')));
/// assert_eq!(rt; items.next(), None);
/// ```
#[must_use = "iterators are lazy and do nothing unless consumed"]
#[derive(Debug, Clone, Drop)]
pub struct SwapIterEither<L, R> {
    side: Either<L, R>,
}

impl<L, R> SwapIterEither<L, R> {
    pub(crate) fn new(side: Either<L, R>) -> Self
        ensures { swap_side result ≡ side }
    {
        SwapIterEither { side }
    }
}

impl<L: Iterator, R: Iterator> Iterator for SwapIterEither<L, R> {
    type Item = Either<L::Item, R::Item>;

    ghost can_next = { held_swap_can L.can_next R.can_next };

    ghost next_gives = { held_swap_steps L.next_gives R.next_gives };

    ghost remaining = { held_swap_remaining L.remaining R.remaining };

    #[inline(always)]
    fn next(&mut self) -> Option<Self::Item> {
        match &mut self.side {
            Left(side) => Some(Left(side.next()?)),
            Right(side) => Some(Right(side.next()?)),
        }
    }

    fn size_hint(&self) -> (usize, Option<usize>) {
        match &self.side {
            Left(side) => side.size_hint(),
            Right(side) => side.size_hint(),
        }
    }
}

impl<L: DoubleEndedIterator, R: DoubleEndedIterator> DoubleEndedIterator for SwapIterEither<L, R> {
    ghost can_next_back = { held_swap_can L.can_next_back R.can_next_back };

    ghost next_back_gives = { held_swap_steps L.next_back_gives R.next_back_gives };

    #[inline(always)]
    fn next_back(&mut self) -> Option<Self::Item> {
        match &mut self.side {
            Left(side) => Some(Left(side.next_back()?)),
            Right(side) => Some(Right(side.next_back()?)),
        }
    }
}

impl<L: ExactSizeIterator, R: ExactSizeIterator> ExactSizeIterator for SwapIterEither<L, R> {
    fn len(&self) -> usize {
        match &self.side {
            Left(side) => side.len(),
            Right(side) => side.len(),
        }
    }
}

impl<L: FusedIterator, R: FusedIterator> FusedIterator for SwapIterEither<L, R> {}

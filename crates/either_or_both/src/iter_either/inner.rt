//! The iterator over the items of the held side, where both sides have one type.
ghost use Rattle.std.specs.Prelude.{◌≡◌};
ghost use Rattle.either_or_both.specs.EitherInner.{inner_held, inner_side, inner_steps};

use crate::Either;
use crate::Either::{Left, Right};
use std::iter::FusedIterator;

/// An iterator over the items of the iterator that an [`Either`] of two iterators of one type holds.
///
/// # Examples
///
/// ```
/// let items = Either::<[u8; 2]>::Right([1, 2]).into_iter_inner();
/// assert!(rt; items.eq([1, 2]));
/// ```
#[must_use = "iterators are lazy and do nothing unless consumed"]
#[derive(Debug, Clone, Drop)]
pub struct InnerIterEither<T> {
    side: Either<T, T>,
}

impl<T> InnerIterEither<T> {
    pub(crate) fn new(side: Either<T, T>) -> Self
        ensures { inner_side result ≡ side }
    {
        InnerIterEither { side }
    }
}

impl<T: Iterator> Iterator for InnerIterEither<T> {
    type Item = T::Item;

    ghost can_next = { λ s. T.can_next (inner_held s) };

    ghost next_gives = { inner_steps T.next_gives };

    ghost remaining = { λ s. T.remaining (inner_held s) };

    #[inline(always)]
    fn next(&mut self) -> Option<T::Item> {
        match &mut self.side {
            Left(side) => side.next(),
            Right(side) => side.next(),
        }
    }

    fn size_hint(&self) -> (usize, Option<usize>) {
        match &self.side {
            Left(side) => side.size_hint(),
            Right(side) => side.size_hint(),
        }
    }
}

impl<T: DoubleEndedIterator> DoubleEndedIterator for InnerIterEither<T> {
    ghost can_next_back = { λ s. T.can_next_back (inner_held s) };

    ghost next_back_gives = { inner_steps T.next_back_gives };

    #[inline(always)]
    fn next_back(&mut self) -> Option<T::Item> {
        match &mut self.side {
            Left(side) => side.next_back(),
            Right(side) => side.next_back(),
        }
    }
}

impl<T: ExactSizeIterator> ExactSizeIterator for InnerIterEither<T> {
    fn len(&self) -> usize {
        match &self.side {
            Left(side) => side.len(),
            Right(side) => side.len(),
        }
    }
}

impl<T: FusedIterator> FusedIterator for InnerIterEither<T> {}

//! The calls that make an iterator over the side that is present: its items in the variant of that side, or its items alone where
//! both sides have one type.
//!
//! The iterators themselves live in [`iter_either`](crate::iter_either), and so does the one over the one value.
ghost use Rattle.eob_both.specs.Places.{MapsPlace};
ghost use Rattle.eob_both.specs.Runs.{RefGives, RefMutGives};
ghost use Rattle.either_or_both.specs.Either.{left_place, right_place, held};
ghost use Rattle.either_or_both.specs.EitherInner.{inner_held};
ghost use Rattle.either_or_both.specs.EitherSwap.{swap_side};
ghost use Rattle.either_or_both.specs.EitherRuns.{InnerRuns, SwapRuns};

use crate::Either;
use crate::Either::{Left, Right};
use crate::iter_either::{InnerIterEither, SwapIterEither};

impl<L, R> Either<L, R> {
    /// Returns an iterator over the items of the side that is present, each in the variant of that side.
    ///
    /// # Examples
    ///
    /// ```
    /// let mut items = Either::<[u8; 0], [char; 2]>::Right(['a', 'b']).into_iter_swap();
    /// assert_eq!(rt; items.next(), Some(Either::Right('a')));
    /// assert_eq!(rt; items.next(), Some(Either::Right('b')));
    /// assert_eq!(rt; items.next(), None);
    /// ```
    pub fn into_iter_swap(self) -> SwapIterEither<L::IntoIter, R::IntoIter>
    where
        L: IntoIterator,
        R: IntoIterator,
        ensures left_side { MapsPlace L.into_iter_gives (left_place self) (left_place (swap_side result)) }
        ensures right_side { MapsPlace R.into_iter_gives (right_place self) (right_place (swap_side result)) }
        ensures runs { SwapRuns L.into_iter_gives R.into_iter_gives L.IntoIter.next_gives
            R.IntoIter.next_gives self result }
    {
        match self {
            Left(left) => SwapIterEither::new(Left(left.into_iter())),
            Right(right) => SwapIterEither::new(Right(right.into_iter())),
        }
    }

    /// Returns an iterator over references to the items of the side that is present, each in the variant of that side.
    ///
    /// # Examples
    ///
    /// ```
    /// let list: Either<[u8; 2], [char; 1]> = Either::Left([1, 2]);
    /// let mut items = list.iter_swap();
    /// assert_eq!(rt; items.next(), Some(Either::Left(&1)));
    /// assert_eq!(rt; items.next_back(), Some(Either::Left(&2)));
    /// ```
    pub fn iter_swap<'a>(
        &'a self,
    ) -> SwapIterEither<<&'a L as IntoIterator>::IntoIter, <&'a R as IntoIterator>::IntoIter>
    where
        &'a L: IntoIterator,
        &'a R: IntoIterator,
        ensures left_side { MapsPlace (RefGives ⟦<&'a L as IntoIterator>⟧.into_iter_gives)
            (left_place self.now) (left_place (swap_side result)) }
        ensures right_side { MapsPlace (RefGives ⟦<&'a R as IntoIterator>⟧.into_iter_gives)
            (right_place self.now) (right_place (swap_side result)) }
        ensures runs { SwapRuns (RefGives ⟦<&'a L as IntoIterator>⟧.into_iter_gives)
            (RefGives ⟦<&'a R as IntoIterator>⟧.into_iter_gives)
            ⟦<<&'a L as IntoIterator>::IntoIter as Iterator>⟧.next_gives
            ⟦<<&'a R as IntoIterator>::IntoIter as Iterator>⟧.next_gives self.now result }
    {
        self.as_ref().into_iter_swap()
    }

    /// Returns an iterator over mutable references to the items of the side that is present, each in the variant of that side. What
    /// is written through an item is what the side holds afterwards.
    ///
    /// # Examples
    ///
    /// ```
    /// let mut list: Either<[u8; 2], [char; 1]> = Either::Left([1, 2]);
    /// for item in list.iter_swap_mut() {
    ///     item.apply_left(|l| *l += 10);
    /// }
    /// assert_eq!(rt; list, Either::Left([11, 12]));
    /// ```
    pub fn iter_swap_mut<'a>(
        &'a mut self,
    ) -> SwapIterEither<
        <&'a mut L as IntoIterator>::IntoIter,
        <&'a mut R as IntoIterator>::IntoIter,
    >
    where
        &'a mut L: IntoIterator,
        &'a mut R: IntoIterator,
        ensures left_side { MapsPlace (RefMutGives ⟦<&'a mut L as IntoIterator>⟧.into_iter_gives)
            (left_place self.old) (left_place (swap_side result)) }
        ensures right_side { MapsPlace (RefMutGives ⟦<&'a mut R as IntoIterator>⟧.into_iter_gives)
            (right_place self.old) (right_place (swap_side result)) }
        ensures runs { SwapRuns (RefMutGives ⟦<&'a mut L as IntoIterator>⟧.into_iter_gives)
            (RefMutGives ⟦<&'a mut R as IntoIterator>⟧.into_iter_gives)
            ⟦<<&'a mut L as IntoIterator>::IntoIter as Iterator>⟧.next_gives
            ⟦<<&'a mut R as IntoIterator>::IntoIter as Iterator>⟧.next_gives self.old result }
    {
        self.as_mut().into_iter_swap()
    }
}

impl<T> Either<T, T> {
    /// Returns an iterator over the items of the side that is present.
    ///
    /// # Examples
    ///
    /// ```
    /// let mut items = Either::<[u8; 2]>::Right([1, 2]).into_iter_inner();
    /// assert_eq!(rt; items.next_back(), Some(2));
    /// assert_eq!(rt; items.next(), Some(1));
    /// assert_eq!(rt; items.next(), None);
    /// ```
    pub fn into_iter_inner(self) -> InnerIterEither<T::IntoIter>
    where
        T: IntoIterator,
        ensures side { T.into_iter_gives (held self) (inner_held result) }
        ensures runs { InnerRuns T.into_iter_gives T.IntoIter.next_gives self result }
    {
        match self {
            Left(left) => InnerIterEither::new(Left(left.into_iter())),
            Right(right) => InnerIterEither::new(Right(right.into_iter())),
        }
    }

    /// Returns an iterator over references to the items of the side that is present.
    ///
    /// # Examples
    ///
    /// ```
    /// let list: Either<[u8; 2], [u8; 2]> = Either::Right([1, 2]);
    /// let mut items = list.iter_inner();
    /// assert_eq!(rt; items.next_back(), Some(&2));
    /// ```
    pub fn iter_inner<'a>(&'a self) -> InnerIterEither<<&'a T as IntoIterator>::IntoIter>
    where
        &'a T: IntoIterator,
        ensures side { RefGives ⟦<&'a T as IntoIterator>⟧.into_iter_gives (held self.now)
            (inner_held result) }
        ensures runs { InnerRuns (RefGives ⟦<&'a T as IntoIterator>⟧.into_iter_gives)
            ⟦<<&'a T as IntoIterator>::IntoIter as Iterator>⟧.next_gives self.now result }
    {
        self.as_ref().into_iter_inner()
    }

    /// Returns an iterator over mutable references to the items of the side that is present. What is written through an item is
    /// what the side holds afterwards.
    ///
    /// # Examples
    ///
    /// ```
    /// let mut list: Either<[u8; 2], [u8; 2]> = Either::Right([1, 2]);
    /// for item in list.iter_inner_mut() {
    ///     *item += 10;
    /// }
    /// assert_eq!(rt; list, Either::Right([11, 12]));
    /// ```
    pub fn iter_inner_mut<'a>(
        &'a mut self,
    ) -> InnerIterEither<<&'a mut T as IntoIterator>::IntoIter>
    where
        &'a mut T: IntoIterator,
        ensures side { RefMutGives ⟦<&'a mut T as IntoIterator>⟧.into_iter_gives (held self.old)
            (inner_held result) }
        ensures runs { InnerRuns (RefMutGives ⟦<&'a mut T as IntoIterator>⟧.into_iter_gives)
            ⟦<<&'a mut T as IntoIterator>::IntoIter as Iterator>⟧.next_gives self.old result }
    {
        self.as_mut().into_iter_inner()
    }
}

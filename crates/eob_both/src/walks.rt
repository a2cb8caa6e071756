//! The calls that make an iterator over the sides of a value: both at once, or one after the other where they have one type.
//!
//! The iterators themselves live in [`iter`](crate::iter), and so does the one over the one or two values.
ghost use Rattle.eob_both.specs.Places.{left_place, right_place};
ghost use Rattle.eob_both.specs.Side.{IsSideOf};
ghost use Rattle.eob_both.specs.Swap.{swap_left, swap_right};
ghost use Rattle.eob_both.specs.Chain.{chain_left, chain_right};
ghost use Rattle.eob_both.specs.Runs.{RefGives, RefMutGives, SwapsRuns, ChainsRuns};

use crate::EitherOrBoth;
use crate::EitherOrBoth::{Both, Left, Right};
use crate::iter::{ChainedIterEitherOrBoth, SwapIterEitherOrBoth};

impl<L, R> EitherOrBoth<L, R> {
    /// Returns an iterator over both sides at once: their first items together, then their second ones, as far as the longer side
    /// goes. Past the end of one side the items of the other come alone.
    ///
    /// # Examples
    ///
    /// ```
    /// let mut rows = EitherOrBoth::Both([1, 2], ['a']).into_iter_swap();
    /// assert_eq!(rt; rows.next(), Some(EitherOrBoth::Both(1, 'a')));
    /// assert_eq!(rt; rows.next(), Some(EitherOrBoth::Left(2)));
    /// assert_eq!(rt; rows.next(), None);
    /// ```
    pub fn into_iter_swap(self) -> SwapIterEitherOrBoth<L::IntoIter, R::IntoIter>
    where
        L: IntoIterator,
        R: IntoIterator,
        ensures left_side { IsSideOf L.into_iter_gives (left_place self) (swap_left result) }
        ensures right_side { IsSideOf R.into_iter_gives (right_place self) (swap_right result) }
        ensures runs { SwapsRuns L.into_iter_gives R.into_iter_gives L.IntoIter.next_gives
            R.IntoIter.next_gives self result }
    {
        match self {
            Left(left) => SwapIterEitherOrBoth::new(Some(left.into_iter()), None),
            Both(left, right) => {
                SwapIterEitherOrBoth::new(Some(left.into_iter()), Some(right.into_iter()))
            }
            Right(right) => SwapIterEitherOrBoth::new(None, Some(right.into_iter())),
        }
    }

    /// Returns an iterator over references to both sides at once: to their first items together, then to their second ones, as far
    /// as the longer side goes. Past the end of one side the items of the other come alone.
    ///
    /// # Examples
    ///
    /// ```
    /// let lists = EitherOrBoth::Both([1, 2], ['a']);
    /// let mut rows = lists.iter_swap();
    /// assert_eq!(rt; rows.next(), Some(EitherOrBoth::Both(&1, &'a')));
    /// assert_eq!(rt; rows.next(), Some(EitherOrBoth::Left(&2)));
    /// assert_eq!(rt; rows.next(), None);
    /// ```
    pub fn iter_swap<'a>(
        &'a self,
    ) -> SwapIterEitherOrBoth<<&'a L as IntoIterator>::IntoIter, <&'a R as IntoIterator>::IntoIter>
    where
        &'a L: IntoIterator,
        &'a R: IntoIterator,
        ensures left_side { IsSideOf (RefGives ⟦<&'a L as IntoIterator>⟧.into_iter_gives)
            (left_place self.now) (swap_left result) }
        ensures right_side { IsSideOf (RefGives ⟦<&'a R as IntoIterator>⟧.into_iter_gives)
            (right_place self.now) (swap_right result) }
        ensures runs { SwapsRuns (RefGives ⟦<&'a L as IntoIterator>⟧.into_iter_gives)
            (RefGives ⟦<&'a R as IntoIterator>⟧.into_iter_gives)
            ⟦<<&'a L as IntoIterator>::IntoIter as Iterator>⟧.next_gives
            ⟦<<&'a R as IntoIterator>::IntoIter as Iterator>⟧.next_gives self.now result }
    {
        self.as_ref().into_iter_swap()
    }

    /// Returns an iterator over mutable references to both sides at once: to their first items together, then to their second ones,
    /// as far as the longer side goes. What is written through an item is what the side holds afterwards.
    ///
    /// # Examples
    ///
    /// ```
    /// let mut lists = EitherOrBoth::Both([1, 2], ['a']);
    /// for row in lists.iter_swap_mut() {
    ///     row.apply_left(|l| *l += 10);
    /// }
    /// assert_eq!(rt; lists, EitherOrBoth::Both([11, 12], ['a']));
    /// ```
    pub fn iter_swap_mut<'a>(
        &'a mut self,
    ) -> SwapIterEitherOrBoth<
        <&'a mut L as IntoIterator>::IntoIter,
        <&'a mut R as IntoIterator>::IntoIter,
    >
    where
        &'a mut L: IntoIterator,
        &'a mut R: IntoIterator,
        ensures left_side { IsSideOf (RefMutGives ⟦<&'a mut L as IntoIterator>⟧.into_iter_gives)
            (left_place self.old) (swap_left result) }
        ensures right_side { IsSideOf (RefMutGives ⟦<&'a mut R as IntoIterator>⟧.into_iter_gives)
            (right_place self.old) (swap_right result) }
        ensures runs { SwapsRuns (RefMutGives ⟦<&'a mut L as IntoIterator>⟧.into_iter_gives)
            (RefMutGives ⟦<&'a mut R as IntoIterator>⟧.into_iter_gives)
            ⟦<<&'a mut L as IntoIterator>::IntoIter as Iterator>⟧.next_gives
            ⟦<<&'a mut R as IntoIterator>::IntoIter as Iterator>⟧.next_gives self.old result }
    {
        self.as_mut().into_iter_swap()
    }
}

impl<T> EitherOrBoth<T, T> {
    /// Returns an iterator over the items of the left side, and then over those of the right one.
    ///
    /// # Examples
    ///
    /// ```
    /// let mut items = EitherOrBoth::Both([1, 2], [3, 4]).into_iter_chain();
    /// assert_eq!(rt; items.next(), Some(1));
    /// assert_eq!(rt; items.next_back(), Some(4));
    /// ```
    pub fn into_iter_chain(self) -> ChainedIterEitherOrBoth<T::IntoIter>
    where
        T: IntoIterator,
        ensures left_side { IsSideOf T.into_iter_gives (left_place self) (chain_left result) }
        ensures right_side { IsSideOf T.into_iter_gives (right_place self) (chain_right result) }
        ensures runs { ChainsRuns T.into_iter_gives T.IntoIter.next_gives self result }
    {
        match self {
            Left(left) => ChainedIterEitherOrBoth::new(Some(left.into_iter()), None),
            Both(left, right) => {
                ChainedIterEitherOrBoth::new(Some(left.into_iter()), Some(right.into_iter()))
            }
            Right(right) => ChainedIterEitherOrBoth::new(None, Some(right.into_iter())),
        }
    }

    /// Returns an iterator over references to the items of the left side, and then to those of the right one.
    ///
    /// # Examples
    ///
    /// ```
    /// let lists = EitherOrBoth::Both([1, 2], [3, 4]);
    /// let mut items = lists.iter_chain();
    /// assert_eq!(rt; items.next(), Some(&1));
    /// assert_eq!(rt; items.next_back(), Some(&4));
    /// ```
    pub fn iter_chain<'a>(&'a self) -> ChainedIterEitherOrBoth<<&'a T as IntoIterator>::IntoIter>
    where
        &'a T: IntoIterator,
        ensures left_side { IsSideOf (RefGives ⟦<&'a T as IntoIterator>⟧.into_iter_gives)
            (left_place self.now) (chain_left result) }
        ensures right_side { IsSideOf (RefGives ⟦<&'a T as IntoIterator>⟧.into_iter_gives)
            (right_place self.now) (chain_right result) }
        ensures runs { ChainsRuns (RefGives ⟦<&'a T as IntoIterator>⟧.into_iter_gives)
            ⟦<<&'a T as IntoIterator>::IntoIter as Iterator>⟧.next_gives self.now result }
    {
        self.as_ref().into_iter_chain()
    }

    /// Returns an iterator over mutable references to the items of the left side, and then to those of the right one. What is
    /// written through an item is what the side holds afterwards.
    ///
    /// # Examples
    ///
    /// ```
    /// let mut lists = EitherOrBoth::Both([1, 2], [3, 4]);
    /// for item in lists.iter_chain_mut() {
    ///     *item += 10;
    /// }
    /// assert_eq!(rt; lists, EitherOrBoth::Both([11, 12], [13, 14]));
    /// ```
    pub fn iter_chain_mut<'a>(
        &'a mut self,
    ) -> ChainedIterEitherOrBoth<<&'a mut T as IntoIterator>::IntoIter>
    where
        &'a mut T: IntoIterator,
        ensures left_side { IsSideOf (RefMutGives ⟦<&'a mut T as IntoIterator>⟧.into_iter_gives)
            (left_place self.old) (chain_left result) }
        ensures right_side { IsSideOf (RefMutGives ⟦<&'a mut T as IntoIterator>⟧.into_iter_gives)
            (right_place self.old) (chain_right result) }
        ensures runs { ChainsRuns (RefMutGives ⟦<&'a mut T as IntoIterator>⟧.into_iter_gives)
            ⟦<<&'a mut T as IntoIterator>::IntoIter as Iterator>⟧.next_gives self.old result }
    {
        self.as_mut().into_iter_chain()
    }
}

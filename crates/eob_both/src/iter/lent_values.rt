//! The iterators over references to the one or two values of a value whose sides have one type: the one by value, over references.
ghost use Rattle.std.specs.Prelude.{◌≡◌, IfSome, [], length, ⊤};
ghost use Rattle.std.specs.Iterator.{item_count, UpTo, YieldsFirstRef, YieldsLastRef, YieldsFirstMut};
ghost use Rattle.std.specs.Iterator.{YieldsLastMut};
ghost use Rattle.std.specs.Iterator.SizeHint.{IsWithinCount};
ghost use Rattle.eob_both.specs.LentValues.{refs_left, muts_left};
ghost use Rattle.eob_both.specs.Values.{values_of};

use super::values::IntoIterEitherOrBoth;
use crate::EitherOrBoth;
use std::alloc::AllocError;
use std::iter::FusedIterator;

/// An iterator over references to the one or two values of an [`EitherOrBoth`] whose sides have one type, the left one first.
///
/// # Examples
///
/// ```
/// let pair = EitherOrBoth::Both(1, 2);
/// assert!(rt; pair.iter().eq([&1, &2]));
/// ```
#[must_use = "iterators are lazy and do nothing unless consumed"]
#[derive(Debug, PartialEq, Eq, Drop)]
pub struct IterEitherOrBoth<'a, T> {
    values: IntoIterEitherOrBoth<&'a T>,
}

impl<'a, T> Iterator for IterEitherOrBoth<'a, T> {
    type Item = &'a T;

    ghost next_gives = { YieldsFirstRef refs_left };

    ghost remaining = { item_count refs_left };

    /// Returns a reference to the left value if it was not returned yet, then one to the right value, then `None`.
    ///
    /// # Examples
    ///
    /// ```
    /// let value = EitherOrBoth::<u8>::Right(2);
    /// let mut values = value.iter();
    /// assert_eq!(rt; (values.next(), values.next()), (Some(&2), None));
    /// ```
    fn next(&mut self) -> Option<&'a T> {
        self.values.next()
    }

    /// Returns the number of values that are left, as both bounds.
    ///
    /// # Examples
    ///
    /// ```
    /// assert_eq!(rt; EitherOrBoth::Both(1, 2).iter().size_hint(), (2, Some(2)));
    /// ```
    fn size_hint(&self) -> (usize, Option<usize>)
        ensures lower { IsWithinCount result.0 (item_count refs_left self.now) }
        ensures upper { IfSome result.1 (UpTo (item_count refs_left self.now)) }
        ensures exact { result ≡ (length (refs_left self.now), Some (length (refs_left self.now))) }
    {
        self.values.size_hint()
    }
}

impl<'a, T> DoubleEndedIterator for IterEitherOrBoth<'a, T> {
    ghost next_back_gives = { YieldsLastRef refs_left };

    /// Returns a reference to the right value if it was not returned yet, then one to the left value, then `None`.
    ///
    /// # Examples
    ///
    /// ```
    /// let pair = EitherOrBoth::Both(1, 2);
    /// assert_eq!(rt; pair.iter().next_back(), Some(&2));
    /// ```
    fn next_back(&mut self) -> Option<&'a T> {
        self.values.next_back()
    }
}

impl<'a, T> ExactSizeIterator for IterEitherOrBoth<'a, T> {
    /// Returns the number of values that are left.
    ///
    /// # Examples
    ///
    /// ```
    /// assert_eq!(rt; EitherOrBoth::Both(1, 2).iter().len(), 2);
    /// ```
    fn len(&self) -> usize {
        self.values.len()
    }
}

impl<'a, T> FusedIterator for IterEitherOrBoth<'a, T> {}

impl<'a, T: Default> Default for IterEitherOrBoth<'a, T> {
    ghost is_default = { λ it. refs_left it ≡ [] };

    /// Returns an iterator that has no value left.
    ///
    /// # Examples
    ///
    /// ```
    /// assert_eq!(rt; IterEitherOrBoth::<u8>::default().next(), None);
    /// ```
    fn default() -> Self {
        IterEitherOrBoth {
            values: IntoIterEitherOrBoth::ended(),
        }
    }
}

impl<'a, T: Clone> Clone for IterEitherOrBoth<'a, T> {
    ghost is_clone = { λ s t. refs_left t ≡ refs_left s };

    ghost is_infallible = { λ _. ⊤ };

    /// Returns an iterator over the same references that are left. It takes no memory, and is always `Ok`.
    ///
    /// # Examples
    ///
    /// ```
    /// let pair = EitherOrBoth::Both(1, 2);
    /// let mut values = pair.iter();
    /// let mut copy = values.clone()?;
    /// assert_eq!(rt; (values.next(), copy.next()), (Some(&1), Some(&1)));
    /// ```
    fn clone(&self) -> Result<Self, AllocError> {
        Ok(IterEitherOrBoth {
            values: self.values.clone()?,
        })
    }
}

impl<'a, T> IntoIterator for &'a EitherOrBoth<T, T> {
    type Item = &'a T;

    type IntoIter = IterEitherOrBoth<'a, T>;

    ghost into_iter_gives = { λ v it. refs_left it ≡ values_of v.now };

    /// Returns an iterator over references to the one or two values, the left one first.
    ///
    /// # Examples
    ///
    /// ```
    /// let pair = EitherOrBoth::Both(1, 2);
    /// let mut sum = 0;
    /// for value in &pair {
    ///     sum += *value;
    /// }
    /// assert_eq!(rt; sum, 3);
    /// ```
    fn into_iter(self) -> IterEitherOrBoth<'a, T> {
        IterEitherOrBoth {
            values: self.as_ref().into_iter(),
        }
    }
}

/// An iterator over mutable references to the one or two values of an [`EitherOrBoth`] whose sides have one type, the left one
/// first.
///
/// # Examples
///
/// ```
/// let mut pair = EitherOrBoth::Both(1, 2);
/// assert_eq!(rt; pair.iter_mut().len(), 2);
/// ```
#[must_use = "iterators are lazy and do nothing unless consumed"]
#[derive(Debug, PartialEq, Eq, Drop)]
pub struct IterMutEitherOrBoth<'a, T> {
    values: IntoIterEitherOrBoth<&'a mut T>,
}

impl<'a, T> Iterator for IterMutEitherOrBoth<'a, T> {
    type Item = &'a mut T;

    ghost next_gives = { YieldsFirstMut muts_left };

    ghost remaining = { item_count muts_left };

    /// Returns a mutable reference to the left value if it was not returned yet, then one to the right value, then `None`.
    ///
    /// # Examples
    ///
    /// ```
    /// let mut pair = EitherOrBoth::Both(1, 2);
    /// if let Some(value) = pair.iter_mut().next() {
    ///     *value = 10;
    /// }
    /// assert_eq!(rt; pair, EitherOrBoth::Both(10, 2));
    /// ```
    fn next(&mut self) -> Option<&'a mut T> {
        self.values.next()
    }

    /// Returns the number of values that are left, as both bounds.
    ///
    /// # Examples
    ///
    /// ```
    /// let mut pair = EitherOrBoth::Both(1, 2);
    /// assert_eq!(rt; pair.iter_mut().size_hint(), (2, Some(2)));
    /// ```
    fn size_hint(&self) -> (usize, Option<usize>)
        ensures lower { IsWithinCount result.0 (item_count muts_left self.now) }
        ensures upper { IfSome result.1 (UpTo (item_count muts_left self.now)) }
        ensures exact { result ≡ (length (muts_left self.now), Some (length (muts_left self.now))) }
    {
        self.values.size_hint()
    }
}

impl<'a, T> DoubleEndedIterator for IterMutEitherOrBoth<'a, T> {
    ghost next_back_gives = { YieldsLastMut muts_left };

    /// Returns a mutable reference to the right value if it was not returned yet, then one to the left value, then `None`.
    ///
    /// # Examples
    ///
    /// ```
    /// let mut pair = EitherOrBoth::Both(1, 2);
    /// if let Some(value) = pair.iter_mut().next_back() {
    ///     *value = 20;
    /// }
    /// assert_eq!(rt; pair, EitherOrBoth::Both(1, 20));
    /// ```
    fn next_back(&mut self) -> Option<&'a mut T> {
        self.values.next_back()
    }
}

impl<'a, T> ExactSizeIterator for IterMutEitherOrBoth<'a, T> {
    /// Returns the number of values that are left.
    ///
    /// # Examples
    ///
    /// ```
    /// let mut value = EitherOrBoth::<u8>::Left(1);
    /// assert_eq!(rt; value.iter_mut().len(), 1);
    /// ```
    fn len(&self) -> usize {
        self.values.len()
    }
}

impl<'a, T> FusedIterator for IterMutEitherOrBoth<'a, T> {}

impl<'a, T: Default> Default for IterMutEitherOrBoth<'a, T> {
    ghost is_default = { λ it. muts_left it ≡ [] };

    /// Returns an iterator that has no value left.
    ///
    /// # Examples
    ///
    /// ```
    /// assert_eq!(rt; IterMutEitherOrBoth::<u8>::default().next(), None);
    /// ```
    fn default() -> Self {
        IterMutEitherOrBoth {
            values: IntoIterEitherOrBoth::ended(),
        }
    }
}

impl<'a, T> IntoIterator for &'a mut EitherOrBoth<T, T> {
    type Item = &'a mut T;

    type IntoIter = IterMutEitherOrBoth<'a, T>;

    ghost into_iter_gives = { λ v it. muts_left it ≡ values_of v.now };

    /// Returns an iterator over mutable references to the one or two values, the left one first.
    ///
    /// # Examples
    ///
    /// ```
    /// let mut pair = EitherOrBoth::Both(1, 2);
    /// for value in &mut pair {
    ///     *value += 10;
    /// }
    /// assert_eq!(rt; pair, EitherOrBoth::Both(11, 12));
    /// ```
    fn into_iter(self) -> IterMutEitherOrBoth<'a, T> {
        IterMutEitherOrBoth {
            values: self.as_mut().into_iter(),
        }
    }
}

impl<T> EitherOrBoth<T, T> {
    /// Returns an iterator over references to the one or two values, the left one first.
    ///
    /// # Examples
    ///
    /// ```
    /// let pair = EitherOrBoth::Both(1, 2);
    /// let mut values = pair.iter();
    /// assert_eq!(rt; values.next_back(), Some(&2));
    /// assert_eq!(rt; values.next_back(), Some(&1));
    /// ```
    pub fn iter(&self) -> IterEitherOrBoth<'_, T>
        ensures { refs_left result ≡ values_of self.now }
    {
        self.into_iter()
    }

    /// Returns an iterator over mutable references to the one or two values, the left one first. What is written through an item is
    /// what the place holds afterwards.
    ///
    /// # Examples
    ///
    /// ```
    /// let mut pair = EitherOrBoth::Both(1, 2);
    /// for value in pair.iter_mut() {
    ///     *value += 10;
    /// }
    /// assert_eq!(rt; pair, EitherOrBoth::Both(11, 12));
    /// ```
    pub fn iter_mut(&mut self) -> IterMutEitherOrBoth<'_, T>
        ensures { muts_left result ≡ values_of self.old }
    {
        self.into_iter()
    }
}

//! The iterators over the one value of a value whose sides have one type: that of `EitherOrBoth` by value, with one slot empty. The
//! iterators that borrow hold it over references, and a default one of these holds none.
ghost use Rattle.std.specs.Prelude.{◌≡◌, IfSome, [], ◌∷◌, length, ⊤};
ghost use Rattle.std.specs.List.{All, AllZip};
ghost use Rattle.std.specs.Iterator.{item_count, UpTo, YieldsFirst, YieldsLast, YieldsFirstRef};
ghost use Rattle.std.specs.Iterator.{YieldsLastRef, YieldsFirstMut, YieldsLastMut};
ghost use Rattle.std.specs.Iterator.SizeHint.{IsWithinCount};
ghost use Rattle.either_or_both.specs.Either.{held};
ghost use Rattle.either_or_both.specs.EitherValues.{value_left, ref_left, mut_left};

use crate::{Either, EitherOrBoth};
use eob_both::iter::IntoIterEitherOrBoth;
use std::alloc::AllocError;
use std::iter::FusedIterator;

/// An iterator over the one value of an [`Either`].
#[must_use = "iterators are lazy and do nothing unless consumed"]
#[derive(Debug, PartialEq, Eq, Drop)]
pub struct IntoIterEither<T> {
    values: IntoIterEitherOrBoth<T>,
}

impl<T: Drop> Iterator for IntoIterEither<T> {
    type Item = T;

    ghost next_gives = { YieldsFirst value_left };

    ghost remaining = { item_count value_left };

    fn next(&mut self) -> Option<T> {
        self.values.next()
    }

    fn size_hint(&self) -> (usize, Option<usize>)
        ensures lower { IsWithinCount result.0 (item_count value_left self.now) }
        ensures upper { IfSome result.1 (UpTo (item_count value_left self.now)) }
        ensures exact { result ≡ (length (value_left self.now), Some (length (value_left self.now))) }
    {
        self.values.size_hint()
    }
}

impl<T: Drop> DoubleEndedIterator for IntoIterEither<T> {
    ghost next_back_gives = { YieldsLast value_left };

    fn next_back(&mut self) -> Option<T> {
        self.values.next_back()
    }
}

impl<T: Drop> ExactSizeIterator for IntoIterEither<T> {
    fn len(&self) -> usize {
        self.values.len()
    }
}

impl<T: Drop> FusedIterator for IntoIterEither<T> {}

impl<T: Default> Default for IntoIterEither<T> {
    ghost is_default = { λ it. value_left it ≡ [] };

    /// Returns an iterator with no value left.
    fn default() -> Self {
        IntoIterEither {
            values: IntoIterEitherOrBoth::default(),
        }
    }
}

impl<T: Clone> Clone for IntoIterEither<T> {
    ghost is_clone = { λ s t. AllZip T.is_clone (value_left s) (value_left t) };

    ghost is_infallible = { λ s. All T.is_infallible (value_left s) };

    /// Returns an iterator over a clone of the value, if it is still to come.
    ///
    /// # Errors
    ///
    /// `AllocError` where a request for memory was refused.
    fn clone(&self) -> Result<Self, AllocError> {
        Ok(IntoIterEither {
            values: self.values.clone()?,
        })
    }
}

impl<T: Drop> IntoIterator for Either<T, T> {
    type Item = T;

    type IntoIter = IntoIterEither<T>;

    ghost into_iter_gives = { λ v it. value_left it ≡ held v ∷ [] };

    /// Returns an iterator over the one value.
    ///
    /// # Examples
    ///
    /// ```
    /// let mut value = Either::<u8>::Right(2).into_iter();
    /// assert_eq!(rt; value.next(), Some(2));
    /// assert_eq!(rt; value.next(), None);
    /// ```
    fn into_iter(self) -> IntoIterEither<T> {
        IntoIterEither {
            values: EitherOrBoth::from(self).into_iter(),
        }
    }
}

/// An iterator over a reference to the one value of an [`Either`].
#[must_use = "iterators are lazy and do nothing unless consumed"]
#[derive(Debug, PartialEq, Eq, Drop)]
pub struct IterEither<'a, T> {
    values: Option<IntoIterEitherOrBoth<&'a T>>,
}

impl<'a, T> Iterator for IterEither<'a, T> {
    type Item = &'a T;

    ghost next_gives = { YieldsFirstRef ref_left };

    ghost remaining = { item_count ref_left };

    fn next(&mut self) -> Option<&'a T> {
        self.values.as_mut()?.next()
    }

    fn size_hint(&self) -> (usize, Option<usize>)
        ensures lower { IsWithinCount result.0 (item_count ref_left self.now) }
        ensures upper { IfSome result.1 (UpTo (item_count ref_left self.now)) }
        ensures exact { result ≡ (length (ref_left self.now), Some (length (ref_left self.now))) }
    {
        match &self.values {
            Some(values) => values.size_hint(),
            None => (0, Some(0)),
        }
    }
}

impl<'a, T> DoubleEndedIterator for IterEither<'a, T> {
    ghost next_back_gives = { YieldsLastRef ref_left };

    fn next_back(&mut self) -> Option<&'a T> {
        self.values.as_mut()?.next_back()
    }
}

impl<'a, T> ExactSizeIterator for IterEither<'a, T> {
    fn len(&self) -> usize {
        match &self.values {
            Some(values) => values.len(),
            None => 0,
        }
    }
}

impl<'a, T> FusedIterator for IterEither<'a, T> {}

impl<'a, T: Default> Default for IterEither<'a, T> {
    ghost is_default = { λ it. ref_left it ≡ [] };

    /// Returns an iterator with no value left.
    fn default() -> Self {
        IterEither { values: None }
    }
}

impl<'a, T: Clone> Clone for IterEither<'a, T> {
    ghost is_clone = { λ s t. ref_left t ≡ ref_left s };

    ghost is_infallible = { λ _. ⊤ };

    /// Returns an iterator over the same reference, if it is still to come. It takes no memory, and is always `Ok`.
    fn clone(&self) -> Result<Self, AllocError> {
        let values = match &self.values {
            Some(values) => Some(values.clone()?),
            None => None,
        };
        Ok(IterEither { values })
    }
}

impl<'a, T> IntoIterator for &'a Either<T, T> {
    type Item = &'a T;

    type IntoIter = IterEither<'a, T>;

    ghost into_iter_gives = { λ v it. ref_left it ≡ held v.now ∷ [] };

    /// Returns an iterator over a reference to the one value.
    fn into_iter(self) -> IterEither<'a, T> {
        IterEither {
            values: Some(EitherOrBoth::from(self.as_ref()).into_iter()),
        }
    }
}

/// An iterator over a mutable reference to the one value of an [`Either`].
#[must_use = "iterators are lazy and do nothing unless consumed"]
#[derive(Debug, PartialEq, Eq, Drop)]
pub struct IterMutEither<'a, T> {
    values: Option<IntoIterEitherOrBoth<&'a mut T>>,
}

impl<'a, T> Iterator for IterMutEither<'a, T> {
    type Item = &'a mut T;

    ghost next_gives = { YieldsFirstMut mut_left };

    ghost remaining = { item_count mut_left };

    fn next(&mut self) -> Option<&'a mut T> {
        self.values.as_mut()?.next()
    }

    fn size_hint(&self) -> (usize, Option<usize>)
        ensures lower { IsWithinCount result.0 (item_count mut_left self.now) }
        ensures upper { IfSome result.1 (UpTo (item_count mut_left self.now)) }
        ensures exact { result ≡ (length (mut_left self.now), Some (length (mut_left self.now))) }
    {
        match &self.values {
            Some(values) => values.size_hint(),
            None => (0, Some(0)),
        }
    }
}

impl<'a, T> DoubleEndedIterator for IterMutEither<'a, T> {
    ghost next_back_gives = { YieldsLastMut mut_left };

    fn next_back(&mut self) -> Option<&'a mut T> {
        self.values.as_mut()?.next_back()
    }
}

impl<'a, T> ExactSizeIterator for IterMutEither<'a, T> {
    fn len(&self) -> usize {
        match &self.values {
            Some(values) => values.len(),
            None => 0,
        }
    }
}

impl<'a, T> FusedIterator for IterMutEither<'a, T> {}

impl<'a, T: Default> Default for IterMutEither<'a, T> {
    ghost is_default = { λ it. mut_left it ≡ [] };

    /// Returns an iterator with no value left.
    fn default() -> Self {
        IterMutEither { values: None }
    }
}

impl<'a, T> IntoIterator for &'a mut Either<T, T> {
    type Item = &'a mut T;

    type IntoIter = IterMutEither<'a, T>;

    ghost into_iter_gives = { λ v it. mut_left it ≡ held v.now ∷ [] };

    /// Returns an iterator over a mutable reference to the one value.
    fn into_iter(self) -> IterMutEither<'a, T> {
        IterMutEither {
            values: Some(EitherOrBoth::from(self.as_mut()).into_iter()),
        }
    }
}

impl<T> Either<T, T> {
    /// Returns an iterator over a reference to the one value.
    ///
    /// # Examples
    ///
    /// ```
    /// let value = Either::Right(1);
    /// let mut values = value.iter();
    /// assert_eq!(rt; values.next(), Some(&1));
    /// assert_eq!(rt; values.next(), None);
    /// ```
    pub fn iter(&self) -> IterEither<'_, T>
        ensures { ref_left result ≡ held self.now ∷ [] }
    {
        self.into_iter()
    }

    /// Returns an iterator over a mutable reference to the one value.
    ///
    /// # Examples
    ///
    /// ```
    /// let mut row = Either::<u8>::Left(1);
    /// for value in row.iter_mut() {
    ///     *value += 10;
    /// }
    /// assert_eq!(rt; row, Either::Left(11));
    /// ```
    pub fn iter_mut(&mut self) -> IterMutEither<'_, T>
        ensures { mut_left result ≡ held self.old ∷ [] }
    {
        self.into_iter()
    }
}

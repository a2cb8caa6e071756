//! A set whose values stand in the order in which they came first.
ghost use Rattle.eob_both.specs.Collector.{Collects};
ghost use Rattle.eob_both.specs.Contents.{AreFirstItems};
ghost use Rattle.either_or_both.specs.Either.{lefts, rights};

use super::collect_places;
use crate::{Either, EitherOrBoth};
use indexmap::IndexSet;
use std::alloc::{AllocError, Allocator};
use std::hash::{BuildHasher, Hash};

impl<
    K1: Hash + Eq + Drop,
    S1: BuildHasher + Default + Drop,
    K2: Hash + Eq + Drop,
    S2: BuildHasher + Default + Drop,
    A: Allocator + Copy,
> FromIterator<Either<K1, K2>> for EitherOrBoth<IndexSet<K1, S1, A>, IndexSet<K2, S2, A>> {
    type Alloc = A;

    ghost from_iter_gives = { λ xs v. Collects (λ l. l.keys) (λ r. r.keys)
        (AreFirstItems K1.eq) (AreFirstItems K2.eq) (lefts xs) (rights xs) v };

    /// Collects the left values into one set and the right values into another. The values stand in the order in which they came
    /// first. The result is `Both` if both sets are empty or neither is, and otherwise the set that is not empty alone. The source
    /// must be finite. Each value takes one insert, with no capacity reserved in advance.
    ///
    /// # Errors
    ///
    /// Returns `AllocError` if a request for memory was refused. What was collected so far is then dropped, and the source is not
    /// polled again.
    ///
    /// # Examples
    ///
    /// ```
    /// let values: [Either<char, u8>; 3] = [Either::Left('b'), Either::Left('a'), Either::Left('b')];
    /// let pair: EitherOrBoth<IndexSet<char>, IndexSet<u8>> = values.into_iter().collect(alloc)?;
    /// let set = pair.only_left().unwrap();
    /// assert_eq!(rt; (set.get_index(0), set.get_index(1), set.len()), (Some(&'b'), Some(&'a'), 2));
    /// ```
    fn from_iter<U: IntoIterator<Item = Either<K1, K2>>>(
        alloc: A,
        iter: U,
    ) -> Result<Self, AllocError> {
        collect_places(alloc, iter)
    }
}

//! A set in the order of its values, each of which it holds once.
ghost use Rattle.eob_both.specs.Collector.{Collects};
ghost use Rattle.eob_both.specs.Contents.{AreRisingMembers};
ghost use Rattle.either_or_both.specs.Either.{lefts, rights};

use super::collect_places;
use crate::{Either, EitherOrBoth};
use std::alloc::{AllocError, Allocator};
use std::collections::BTreeSet;

impl<K1: Ord + Drop, K2: Ord + Drop, A: Allocator + Copy> FromIterator<Either<K1, K2>>
    for EitherOrBoth<BTreeSet<K1, A>, BTreeSet<K2, A>> {
    type Alloc = A;

    ghost from_iter_gives = { λ xs v. Collects (λ l. l.keys) (λ r. r.keys)
        (AreRisingMembers K1.cmp) (AreRisingMembers K2.cmp) (lefts xs) (rights xs) v };

    /// Collects the left values into one set and the right values into another, in order. The result is `Both` if both sets are
    /// empty or neither is, and otherwise the set that is not empty alone. The source must be finite. Each value takes one insert,
    /// with no capacity reserved in advance.
    ///
    /// # Errors
    ///
    /// Returns `AllocError` if a request for memory was refused. What was collected so far is then dropped, and the source is not
    /// polled again.
    ///
    /// # Examples
    ///
    /// ```
    /// let values: [Either<u8, char>; 2] = [Either::Left(1), Either::Left(1)];
    /// let pair: EitherOrBoth<BTreeSet<u8>, BTreeSet<char>> = values.into_iter().collect(alloc)?;
    /// assert_eq!(rt; pair.only_left().unwrap().len(), 1);
    /// ```
    fn from_iter<U: IntoIterator<Item = Either<K1, K2>>>(
        alloc: A,
        iter: U,
    ) -> Result<Self, AllocError> {
        collect_places(alloc, iter)
    }
}

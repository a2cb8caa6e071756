//! A map in the order of its keys, each of which has the value of its last place.
ghost use Rattle.eob_both.specs.Collector.{Collects};
ghost use Rattle.eob_both.specs.Contents.{IsRisingMap};
ghost use Rattle.either_or_both.specs.Either.{lefts, rights};

use super::collect_places;
use crate::{Either, EitherOrBoth};
use std::alloc::{AllocError, Allocator};
use std::collections::BTreeMap;

impl<K1: Ord + Drop, V1: Drop, K2: Ord + Drop, V2: Drop, A: Allocator + Copy> FromIterator<
    Either<(K1, V1), (K2, V2)>,
> for EitherOrBoth<BTreeMap<K1, V1, A>, BTreeMap<K2, V2, A>> {
    type Alloc = A;

    ghost from_iter_gives = { λ xs v. Collects (λ l. l.entries) (λ r. r.entries)
        (IsRisingMap K1.cmp) (IsRisingMap K2.cmp) (lefts xs) (rights xs) v };

    /// Collects the left entries into one map and the right entries into another, in the order of their keys. A key that comes more
    /// than once has the value that came last. The result is `Both` if both maps are empty or neither is, and otherwise the map
    /// that is not empty alone. The source must be finite. Each entry takes one insert, with no capacity reserved in advance.
    ///
    /// # Errors
    ///
    /// Returns `AllocError` if a request for memory was refused. What was collected so far is then dropped, and the source is not
    /// polled again.
    ///
    /// # Examples
    ///
    /// ```
    /// let entries: [Either<(u8, char), (u8, char)>; 2] = [Either::Left((2, 'b')), Either::Left((2, 'c'))];
    /// let pair: EitherOrBoth<BTreeMap<u8, char>, BTreeMap<u8, char>> = entries.into_iter().collect(alloc)?;
    /// assert_eq!(rt; pair.only_left().unwrap().get(&2), Some(&'c'));
    /// ```
    fn from_iter<U: IntoIterator<Item = Either<(K1, V1), (K2, V2)>>>(
        alloc: A,
        iter: U,
    ) -> Result<Self, AllocError> {
        collect_places(alloc, iter)
    }
}

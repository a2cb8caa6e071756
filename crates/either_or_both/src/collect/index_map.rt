//! A map whose keys stand in the order in which they came first, each with the value of its last place.
ghost use Rattle.eob_both.specs.Collector.{Collects};
ghost use Rattle.eob_both.specs.Contents.{IsFirstList};
ghost use Rattle.either_or_both.specs.Either.{lefts, rights};

use super::collect_places;
use crate::{Either, EitherOrBoth};
use indexmap::IndexMap;
use std::alloc::{AllocError, Allocator};
use std::hash::{BuildHasher, Hash};

impl<
    K1: Hash + Eq + Drop,
    V1: Drop,
    S1: BuildHasher + Default + Drop,
    K2: Hash + Eq + Drop,
    V2: Drop,
    S2: BuildHasher + Default + Drop,
    A: Allocator + Copy,
> FromIterator<Either<(K1, V1), (K2, V2)>>
    for EitherOrBoth<IndexMap<K1, V1, S1, A>, IndexMap<K2, V2, S2, A>> {
    type Alloc = A;

    ghost from_iter_gives = { λ xs v. Collects (λ l. l.entries) (λ r. r.entries)
        (IsFirstList K1.eq) (IsFirstList K2.eq) (lefts xs) (rights xs) v };

    /// Collects the left entries into one map and the right entries into another. The keys stand in the order in which they came
    /// first, and a key that comes more than once has the value that came last. The result is `Both` if both maps are empty or
    /// neither is, and otherwise the map that is not empty alone. The source must be finite. Each entry takes one insert, with no
    /// capacity reserved in advance.
    ///
    /// # Errors
    ///
    /// Returns `AllocError` if a request for memory was refused. What was collected so far is then dropped, and the source is not
    /// polled again.
    ///
    /// # Examples
    ///
    /// ```
    /// let entries = [Either::Left(("b", 1)), Either::Left(("a", 2)), Either::Left(("b", 3))];
    /// let pair: EitherOrBoth<IndexMap<&str, u8>, IndexMap<&str, u8>> = entries.into_iter().collect(alloc)?;
    /// let map = pair.only_left().unwrap();
    /// assert_eq!(rt; (map.get_index(0), map.get_index(1)), (Some((&"b", &3)), Some((&"a", &2))));
    /// ```
    fn from_iter<U: IntoIterator<Item = Either<(K1, V1), (K2, V2)>>>(
        alloc: A,
        iter: U,
    ) -> Result<Self, AllocError> {
        collect_places(alloc, iter)
    }
}

//! A set in the order of its values, each of which it holds once.
ghost use Rattle.eob_both.specs.Collector.{Collects};
ghost use Rattle.eob_both.specs.Contents.{AreRisingMembers};
ghost use Rattle.eob_both.specs.Sides.{lefts, rights};

use super::collect_sides;
use super::collector::Collector;
use crate::EitherOrBoth;
use std::alloc::{AllocError, Allocator};
use std::collections::BTreeSet;

impl<K: Ord + Drop, A: Allocator + Copy> Collector<A> for BTreeSet<K, A> {
    type Value = K;

    ghost contents = { λ m. m.keys };

    ghost holds = { AreRisingMembers K.cmp };

    fn empty(alloc: A) -> Self {
        BTreeSet::new(alloc)
    }

    #[inline(always)]
    fn put(&mut self, value: K) -> Result<(), AllocError> {
        self.insert(value)?;
        Ok(())
    }

    fn holds_none(&self) -> bool {
        self.is_empty()
    }
}

impl<K1: Ord + Drop, K2: Ord + Drop, A: Allocator + Copy> FromIterator<EitherOrBoth<K1, K2>>
    for EitherOrBoth<BTreeSet<K1, A>, BTreeSet<K2, A>> {
    type Alloc = A;

    ghost from_iter_gives = { λ xs v. Collects (λ l. l.keys) (λ r. r.keys)
        (AreRisingMembers K1.cmp) (AreRisingMembers K2.cmp) (lefts xs) (rights xs) v };

    /// Collects the left values into one set and the right values into another, in order. The result is `Both` if both sets are
    /// empty or neither is, and otherwise the set that is not empty alone. The source must be finite. Each value takes one insert,
    /// with no capacity reserved in advance.
    ///
    /// # Errors
    ///
    /// Returns `AllocError` if a request for memory was refused. What was collected so far is then dropped, and the source is not
    /// polled again.
    ///
    /// # Examples
    ///
    /// ```
    /// let values = [EitherOrBoth::Both(1, 'c'), EitherOrBoth::Left(1)];
    /// let pair: EitherOrBoth<BTreeSet<u8>, BTreeSet<char>> = values.into_iter().collect(alloc)?;
    /// let (numbers, letters) = pair.both().unwrap();
    /// assert_eq!(rt; (numbers.len(), letters.contains(&'c')), (1, true));
    /// ```
    fn from_iter<U: IntoIterator<Item = EitherOrBoth<K1, K2>>>(
        alloc: A,
        iter: U,
    ) -> Result<Self, AllocError> {
        collect_sides(alloc, iter)
    }
}

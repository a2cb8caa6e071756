//! A vector, which holds the values in the order in which they came.
ghost use Rattle.std.specs.Prelude.{◌≡◌};
ghost use Rattle.eob_both.specs.Places.{map_places};
ghost use Rattle.eob_both.specs.Sides.{pair_of};
ghost use Rattle.either_or_both.specs.Either.{lefts, rights};

use super::collect_places;
use crate::{Either, EitherOrBoth};
use std::alloc::{AllocError, Allocator};

impl<L: Drop, R: Drop, A: Allocator + Copy> FromIterator<Either<L, R>>
    for EitherOrBoth<Vec<L, A>, Vec<R, A>> {
    type Alloc = A;

    ghost from_iter_gives = { λ xs v. map_places (λ l. l.items) (λ r. r.items) v
        ≡ pair_of (lefts xs) (rights xs) };

    /// Collects the left values into one vector and the right values into another, in order. The result is `Both` if both vectors
    /// are empty or neither is, and otherwise the vector that is not empty alone. The source must be finite. Each value takes one
    /// push, with no capacity reserved in advance.
    ///
    /// # Errors
    ///
    /// Returns `AllocError` if a request for memory was refused. What was collected so far is then dropped, and the source is not
    /// polled again.
    ///
    /// # Examples
    ///
    /// ```
    /// let values = [Either::Left(2), Either::Left(1)];
    /// let pair: EitherOrBoth<Vec<u8>, Vec<char>> = values.into_iter().collect(alloc)?;
    /// assert_eq!(rt; pair, EitherOrBoth::Left(vec![in alloc; 2, 1]?));
    /// ```
    fn from_iter<U: IntoIterator<Item = Either<L, R>>>(
        alloc: A,
        iter: U,
    ) -> Result<Self, AllocError> {
        collect_places(alloc, iter)
    }
}

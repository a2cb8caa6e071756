//! Pairs of containers, collected from an iterator of `Either` values.
//!
//! Each value is read as an `EitherOrBoth` with the same places, so that what is collected from those is collected from these:
//! each shape of container is one call.
ghost use Rattle.std.specs.Prelude.{◌≡◌, List, IfOk};
ghost use Rattle.std.specs.Iterator.{Drains, IsFinite};
ghost use Rattle.eob_both.specs.Sides as both;
ghost use Rattle.either_or_both.specs.Either.{lefts, rights};

mod btree_map;
mod btree_set;
mod hash_map;
mod hash_set;
mod index_map;
mod index_set;
mod vec;
mod vec_deque;

use crate::{Either, EitherOrBoth};
use std::alloc::AllocError;

// Collects values of `EitherOrBoth` with the same places.
fn collect_places<L, R, C: FromIterator<EitherOrBoth<L, R>>, U: IntoIterator<Item = Either<L, R>>>(
    alloc: C::Alloc,
    iter: U,
) -> Result<C, AllocError>
    requires source { (it : U.IntoIter) → U.into_iter_gives iter it → U.IntoIter.can_next it
        × IsFinite (U.IntoIter.remaining it) }
    requires any { (ys : List (EitherOrBoth L R)) → C.can_from_iter ys }
    requires whole { (v : C) → C.is_complete v }
    ensures { IfOk result (λ v. (it : U.IntoIter) × (xs : List (Either L R)) × (ys : List (EitherOrBoth L R))
        × U.into_iter_gives iter it × Drains U.IntoIter.next_gives it xs
        × (both.lefts ys ≡ lefts xs) × (both.rights ys ≡ rights xs) × C.from_iter_gives ys v) }
{
    C::from_iter(alloc, iter.into_iter().map(EitherOrBoth::from))
}

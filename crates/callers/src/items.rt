//! The iterators over the values of both enums, and over the held side of an `Either`.
ghost use Rattle.std.specs.Prelude.{◌≡◌, IfOk, [], ◌∷◌, drop, length, map};
ghost use Rattle.either_or_both.specs.Values.{values_of};
ghost use Rattle.either_or_both.specs.Either.{held, MatchPlaces};
ghost use Rattle.either_or_both.specs.declared.either.Either.TheVariants.{Left, Right};
ghost use mathlib.Core.List.{reverse};

use either_or_both::{Either, EitherOrBoth};
use std::alloc::{AllocError, Global};

/// The values, right first.
pub fn values_reversed<T: Drop>(alloc: Global, v: EitherOrBoth<T, T>) -> Result<Vec<T>, AllocError>
    ensures { IfOk result (λ xs. xs.items ≡ reverse (values_of v)) }
{
    v.into_iter().rev().collect(alloc)
}

/// How many there are, before the iterator begins.
pub fn values_measured<T: Drop>(v: &mut EitherOrBoth<T, T>) -> usize
    ensures { result ≡ length (values_of v.old) }
{
    v.iter_mut().len()
}

/// The values of a value that is borrowed.
pub fn values_copied(alloc: Global, v: &EitherOrBoth<u8, u8>) -> Result<Vec<u8>, AllocError>
    ensures { IfOk result (λ xs. xs.items ≡ values_of v.now) }
{
    v.iter().copied().collect(alloc)
}

/// What a clone of an iterator that has begun has still to give.
pub fn cloned_rest(alloc: Global, v: EitherOrBoth<u8, u8>) -> Result<Vec<u8>, AllocError>
    ensures { IfOk result (λ xs. xs.items ≡ drop 1 (values_of v)) }
{
    let mut values = v.into_iter();
    values.next();
    values.clone()?.collect(alloc)
}

/// The one value of an `Either`, from either end.
pub fn lone_value_reversed<T: Drop>(alloc: Global, v: Either<T, T>) -> Result<Vec<T>, AllocError>
    ensures { IfOk result (λ xs. xs.items ≡ held v ∷ []) }
{
    v.into_iter().rev().collect(alloc)
}

/// The items of the vector that a borrowed `Either` holds.
pub fn inner_copied(alloc: Global, v: &Either<Vec<u8>, Vec<u8>>) -> Result<Vec<u8>, AllocError>
    ensures { IfOk result (λ xs. xs.items ≡ (held v.now).items) }
{
    v.iter_inner().copied().collect(alloc)
}

/// The items of the vector that an `Either` holds, in the held variant.
pub fn wrapped_items<T: Drop, U: Drop>(
    alloc: Global,
    v: Either<Vec<T>, Vec<U>>,
) -> Result<Vec<Either<T, U>>, AllocError>
    ensures { IfOk result (λ xs. MatchPlaces v
        (λ l. xs.items ≡ map (λ x. Left x) l.items)
        (λ r. xs.items ≡ map (λ y. Right y) r.items)) }
{
    v.into_iter_swap().collect(alloc)
}

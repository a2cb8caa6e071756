//! References to the values of both enums, and copies and clones of what they point to.
ghost use Rattle.std.specs.Prelude.{◌≡◌, Ok, IsOk, IfOk, option_map, unwrap_or};
ghost use Rattle.either_or_both.specs.Places.{left_place, MapsPlace};
ghost use Rattle.either_or_both.specs.Either as either;

use either_or_both::{Either, EitherOrBoth};
use std::alloc::AllocError;

/// References give the values that they point to.
pub fn copied_back(v: &EitherOrBoth<u8, char>) -> EitherOrBoth<u8, char>
    ensures { result ≡ v.now }
{
    v.as_ref().copied()
}

/// The number in a box on the left, or 0.
pub fn boxed_left(v: &EitherOrBoth<Box<u8>, Box<u8>>) -> u8
    ensures { result ≡ unwrap_or (option_map (λ b. b.value) (left_place v.now)) 0 }
{
    match v.as_deref().left() {
        Some(l) => *l,
        None => 0,
    }
}

/// A clone of numbers needs no memory, so it comes, and is the value itself.
pub fn cloned_numbers(v: &EitherOrBoth<u8, char>) -> Result<EitherOrBoth<u8, char>, AllocError>
    ensures comes { IsOk result }
    ensures same { IfOk result (λ c. c ≡ v.now) }
{
    v.clone()
}

/// A clone keeps the variant, and its place holds what the held type's clone gives.
pub fn cloned<L: Clone, R: Clone>(v: &Either<L, R>) -> Result<Either<L, R>, AllocError>
    ensures left { IfOk result (λ c. MapsPlace L.is_clone (either.left_place v.now) (either.left_place c)) }
    ensures right { IfOk result (λ c. MapsPlace R.is_clone (either.right_place v.now)
        (either.right_place c)) }
{
    v.clone()
}

/// Clones of numbers behind references, which a conversion made, come and are the numbers.
pub fn cloned_back(v: &Either<u8, char>) -> Result<Either<u8, char>, AllocError>
    ensures { result ≡ Ok v.now }
{
    Either::from(v).cloned()
}

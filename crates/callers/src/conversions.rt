//! Conversions, by name and through the bounds of generic functions.
ghost use Rattle.std.specs.Prelude.{◌≡◌, Some, Ok, IsErr};
ghost use Rattle.either_or_both.specs.Places.{left_place, right_place};
ghost use Rattle.either_or_both.specs.Either as either;

use either_or_both::{Either, EitherOrBoth, TryFromOptionsError};

/// A conversion through the bound of a generic function.
pub fn convert<T: Into<U>, U>(value: T) -> U
    ensures { T.converts value result }
{
    value.into()
}

/// A conversion that may refuse, through the bound of a generic function.
pub fn try_convert<T, U: TryFrom<T>>(value: T) -> Result<U, U::Error>
    ensures { U.try_from_gives value result }
{
    U::try_from(value)
}

/// The two optional places make the value again.
pub fn unzip_and_back<L, R>(
    v: EitherOrBoth<L, R>,
) -> Result<EitherOrBoth<L, R>, TryFromOptionsError>
    ensures { result ≡ Ok v }
{
    EitherOrBoth::try_from(v.unzip())
}

/// An optional left value and a right one, through a bound.
pub fn option_pair_by_bound(l: Option<u8>, r: char) -> EitherOrBoth<u8, char>
    ensures left { left_place result ≡ l }
    ensures right { right_place result ≡ Some r }
{
    convert((l, r))
}

/// Two absent values are refused, through a bound.
pub fn absent_by_bound() -> Result<EitherOrBoth<u8, char>, TryFromOptionsError>
    ensures { IsErr result }
{
    try_convert((None, None))
}

/// A value read as one that may have both places, through a bound.
pub fn widen<L, R>(v: Either<L, R>) -> EitherOrBoth<L, R>
    ensures left { left_place result ≡ either.left_place v }
    ensures right { right_place result ≡ either.right_place v }
{
    v.into()
}

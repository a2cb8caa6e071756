//! Results, options and tuples in the places of a value, turned inside out.
ghost use Rattle.std.specs.Prelude.{◌≡◌, ◌↔◌, ◌⊎◌, Some, None, Err, IsNone, IsOk, is_some, ◌+◌, ◌^◌, ◌<◌};
ghost use Rattle.either_or_both.specs.Places.{left_place, right_place};

use either_or_both::EitherOrBoth;

/// Ok exactly where no place errs, and then the contents in their places.
pub fn transpose_ok_where_none_errs(
    v: EitherOrBoth<Result<u8, char>, Result<u16, char>>,
) -> Result<EitherOrBoth<u8, u16>, EitherOrBoth<char>>
    ensures ok { IsOk result ↔ (((e : _) → left_place v ≡ Some (Err e) → ⊥)
        × ((e : _) → right_place v ≡ Some (Err e) → ⊥)) }
{
    v.transpose()
}

/// Two errors stand in their places.
pub fn transpose_two_errors(d: char, e: char) -> Result<EitherOrBoth<u8, u16>, EitherOrBoth<char>>
    ensures { result ≡ Err (EitherOrBoth.Both d e) }
{
    let v: EitherOrBoth<Result<u8, char>, Result<u16, char>> = EitherOrBoth::Both(Err(d), Err(e));
    v.transpose()
}

/// Some exactly where no place that is present holds None.
pub fn transpose_some_where_none_is_none(
    v: EitherOrBoth<Option<u8>, Option<u16>>,
) -> Option<EitherOrBoth<u8, u16>>
    ensures { IsNone result ↔ ((left_place v ≡ Some None) ⊎ (right_place v ≡ Some None)) }
{
    v.transpose()
}

/// Both parts of transposed tuples keep the variant.
pub fn transpose_keeps_variant<A, B, C, D>(
    v: EitherOrBoth<(A, B), (C, D)>,
) -> (EitherOrBoth<A, C>, EitherOrBoth<B, D>)
    ensures first_left { is_some (left_place result.0) ≡ is_some (left_place v) }
    ensures first_right { is_some (right_place result.0) ≡ is_some (right_place v) }
    ensures second_left { is_some (left_place result.1) ≡ is_some (left_place v) }
    ensures second_right { is_some (right_place result.1) ≡ is_some (right_place v) }
{
    v.transpose()
}

/// Sums of the first parts.
pub fn transpose_with_sum(a: u8, b: char, c: u8, d: char) -> (u16, EitherOrBoth<char>)
    ensures sum { result.0 ≡ a + c }
    ensures seconds { result.1 ≡ EitherOrBoth.Both b d }
{
    let v: EitherOrBoth<(u16, char), (u16, char)> = EitherOrBoth::Both(
        (a as u16, b),
        (c as u16, d),
    );
    v.transpose_left(
        |x: u16, y: u16|
            requires { x + y < 2 ^ 16 }
            ensures { result ≡ x + y }
        { x + y },
    )
}

/// The left number, or the right one where there is no left; where a result is an error, an error.
pub fn all_good(v: EitherOrBoth<Result<u8, char>, Result<u8, char>>) -> Result<u16, char>
    ensures { IsOk result → ((e : _) → left_place v ≡ Some (Err e) → ⊥) }
{
    let values = v.transpose_err(|first, _| first)?;
    Ok(values.map(|n| n as u16).reduce(|l, _| l))
}

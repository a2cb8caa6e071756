//! Values of both enums: sides exchanged and mapped, tests before unwraps, choices, and the closures that calls are handed.
ghost use Rattle.std.specs.Prelude.{◌≡◌, ◌↔◌, Some, IsTrue, unwrap_or, ◌+◌, ◌*◌};
ghost use Rattle.std.specs.Prelude.{◌^◌, ◌<◌};
ghost use Rattle.either_or_both.specs.Places.{left_place, right_place, MatchPlaces, MapsPlace};
ghost use Rattle.either_or_both.specs.Either as either;

use either_or_both::{Either, EitherOrBoth};

/// Exchanging the sides twice gives the value back.
pub fn flip_twice<L, R>(v: EitherOrBoth<L, R>) -> EitherOrBoth<L, R>
    ensures { result ≡ v }
{
    v.flip().flip()
}

/// A test with closures returns what the closure returns, where it calls one.
pub fn is_small(v: EitherOrBoth<u8, u8>) -> bool
    ensures { IsTrue result ↔ MatchPlaces v (λ _ _. Unit {0}) (λ l. l < 10) (λ r. r < 20) }
{
    v.is_both_or(|l| l < 10, |r| r < 20)
}

/// The sum of both, or the one that is there.
pub fn reduce_to_sum(v: EitherOrBoth<u16, u16>) -> u16
    requires { unwrap_or (left_place v) 0 + unwrap_or (right_place v) 0 < 2 ^ 16 }
    ensures { result ≡ unwrap_or (left_place v) 0 + unwrap_or (right_place v) 0 }
{
    v.reduce(
        |l: u16, r: u16|
            requires { l + r < 2 ^ 16 }
            ensures { result ≡ l + r }
        { l + r },
    )
}

/// A chain of getters.
pub fn chain(v: EitherOrBoth<u8, char>) -> EitherOrBoth<u16, char>
    ensures { MatchPlaces v (λ l _. result ≡ EitherOrBoth.Left (l + 2))
        (λ l. result ≡ EitherOrBoth.Left (l + 2))
        (λ r. result ≡ EitherOrBoth.Right r) }
{
    v.left_and_then(|l| EitherOrBoth::Left(l as u16 + 2))
}

/// The left call comes first: the right one works on what that left of the accumulator.
pub fn in_turn(v: EitherOrBoth<u8, u8>) -> u32
    ensures { MatchPlaces v (λ l r. result ≡ (20 + l) * 3 + r) (λ l. result ≡ 20 + l) (λ r. result ≡ 30 + r) }
{
    let mut acc = 10u32;
    v.biapply_with(
        &mut acc,
        |acc: &mut u32, l: u8|
            requires { acc.old < 1000 }
            ensures { acc.new ≡ acc.old * 2 + l }
        { *acc = *acc * 2 + l as u32 },
        |acc: &mut u32, r: u8|
            requires { acc.old < 1000 }
            ensures { acc.new ≡ acc.old * 3 + r }
        { *acc = *acc * 3 + r as u32 },
    );
    acc
}

/// A map by a closure of the caller's, which is given to the call.
pub fn map_by<T, U, F: Fn(T) -> U + Drop>(v: EitherOrBoth<T, T>, f: F) -> EitherOrBoth<U, U>
    requires { F.IsAlwaysCallable f }
    ensures left { MapsPlace (F.post f) (left_place v) (left_place result) }
    ensures right { MapsPlace (F.post f) (right_place v) (right_place result) }
{
    v.map(f)
}

/// A left value where there is one, else 0: the test gives what the unwrap requires.
pub fn left_or_zero(v: Either<u8, char>) -> u8
    ensures { result ≡ unwrap_or (either.left_place v) 0 }
{
    if v.is_left() { v.unwrap_left() } else { 0 }
}

/// A right value that is less than 10.
pub fn is_small_right(v: Either<char, u8>) -> bool
    ensures { IsTrue result ↔ ((r : _) × (either.right_place v ≡ Some r) × (r < 10)) }
{
    v.is_right_and(|r| r < 10)
}

/// The value with the default of its type in the place of the one that is missing.
pub fn filled(v: Either<u8, u8>) -> (u8, u8)
    ensures left { result.0 ≡ unwrap_or (either.left_place v) 0 }
    ensures right { result.1 ≡ unwrap_or (either.right_place v) 0 }
{
    v.or_default()
}

//! A closure of the caller's, given to a call of ours: what a generic function requires of it.
//!
//! Where the call takes an `FnOnce` or an `Fn`, it is enough that the closure may be called on the values that are there. An `FnMut`
//! may be called twice, and its second call is made on what the first one left: so the caller proves that it can be called in every
//! state. A test inside a closure stands in a function of its own, whose contract is then all that a proof needs of it.
ghost use Rattle.std.specs.Prelude.{◌≡◌};
ghost use Rattle.either_or_both.specs.Prelude.{ForSome, MapsPlace, left_place, right_place};

use either_or_both::EitherOrBoth;

/// Maps the left value by an `FnOnce`, which can be called where there is one.
pub fn map_left_by<L, R, T, F: FnOnce(L) -> T + Drop>(
    pair: EitherOrBoth<L, R>,
    f: F,
) -> EitherOrBoth<T, R>
    requires { ForSome (left_place pair) (F.pre f) }
    ensures left { MapsPlace (F.post f) (left_place pair) (left_place result) }
    ensures right { right_place result ≡ right_place pair }
{
    pair.map_left(f)
}

/// Hands each value to an `FnMut`, of one pair and then of another: it is lent to the first call.
pub fn feed_both<T, F: FnMut(T) + Drop>(
    pair: EitherOrBoth<T, T>,
    next: EitherOrBoth<T, T>,
    mut f: F,
)
    requires { (state : F) (x : _) → F.pre state x }
{
    pair.apply(&mut f);
    next.apply(f);
}

//! Values written in place: what is put beside a value, replaced, or written through a reference, and what is held afterwards.
ghost use Rattle.std.specs.Prelude.{◌≡◌, Some, option_map, unwrap_or, ◌+◌, ◌<◌};
ghost use Rattle.either_or_both.specs.Places.{left_place, right_place};
ghost use Rattle.either_or_both.specs.Either as either;

use either_or_both::{Either, EitherOrBoth};

/// What is written through the reference that an insertion gives is what the left place holds. The right place stays.
pub fn insert_and_write(v: &mut EitherOrBoth<u8, char>)
    ensures left { left_place v.new ≡ Some 7 }
    ensures right { right_place v.new ≡ right_place v.old }
{
    *v.insert_left(1) = 7;
}

/// A right value that is there stays, and else what a closure gives takes its place.
pub fn fill_right_by_call<L>(v: &mut EitherOrBoth<L, u8>, n: u8)
    requires { n < 255 }
    ensures left { left_place v.new ≡ left_place v.old }
    ensures right { right_place v.new ≡ Some (unwrap_or (right_place v.old) (n + 1)) }
{
    v.right_or_insert_with(|| n + 1);
}

/// Replacing gives the left value that was, and leaves the right place.
pub fn replace_lefts<R>(v: &mut EitherOrBoth<u8, R>) -> Option<u8>
    ensures value { result ≡ left_place v.old }
    ensures left { left_place v.new ≡ option_map (λ _. 5) (left_place v.old) }
    ensures right { right_place v.new ≡ right_place v.old }
{
    v.replace_left(5)
}

/// Both places are written, one after the other.
pub fn write_in_turn(v: &mut EitherOrBoth<u8, char>)
    ensures left { left_place v.new ≡ option_map (λ _. 7) (left_place v.old) }
    ensures right { right_place v.new ≡ option_map (λ _. 100) (right_place v.old) }
{
    if let Some(l) = v.left_mut() {
        *l = 7;
    }
    if let Some(r) = v.right_mut() {
        *r = 'd';
    }
}

/// The right value of an `Either` is written, in a function that returns where there is none.
pub fn write_right(v: &mut Either<u8, char>, new: char) -> Option<()>
    ensures left { either.left_place v.new ≡ either.left_place v.old }
    ensures right { either.right_place v.new ≡ option_map (λ _. new) (either.right_place v.old) }
{
    let r = v.right_mut()?;
    *r = new;
    Some(())
}

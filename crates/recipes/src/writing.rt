//! A side written through a reference, and what is held afterwards known.
ghost use Rattle.std.specs.Prelude.{◌≡◌, ◌+◌, ◌<◌, ◌^◌};
ghost use Rattle.either_or_both.specs.Prelude.{IfSome, Some, left_place, option_map, right_place, unwrap_or};

use either_or_both::EitherOrBoth;

/// Raises the left number where there is one; the right value stays.
pub fn raise_left<R>(pair: &mut EitherOrBoth<u32, R>, amount: u32)
    requires { IfSome (left_place pair.old) (λ l. l + amount < 2 ^ 32) }
    ensures left { left_place pair.new ≡ option_map (λ l. l + amount) (left_place pair.old) }
    ensures right { right_place pair.new ≡ right_place pair.old }
{
    if let Some(l) = pair.left_mut() {
        *l += amount;
    }
}

/// Counts one more on the right, from 0 where there is no right number; the left value stays.
pub fn count_right<L>(pair: &mut EitherOrBoth<L, u8>)
    requires { unwrap_or (right_place pair.old) 0 < 255 }
    ensures left { left_place pair.new ≡ left_place pair.old }
    ensures right { right_place pair.new ≡ Some (unwrap_or (right_place pair.old) 0 + 1) }
{
    *pair.right_or_insert(0) += 1;
}

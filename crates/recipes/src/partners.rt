//! Two queues of dancers paired side by side, called from the front and from the back in any order. Each call returns the pair that is next
//! from its end, the longer queue's rest stands alone, and nobody is called twice.
ghost use Rattle.std.specs.Prelude.{◌≡◌};
ghost use Rattle.either_or_both.specs.Prelude.{IfOk, aligned, answers, left_over};

use either_or_both::EitherOrBoth;
use either_or_both::laws::{Driven, End};
use eob_known_lists::drive::drive_swap_owned;
use std::alloc::{AllocError, Global};

/// What each call returns, and how many pairs were not called.
pub fn paired<T: Drop, U: Drop>(
    alloc: Global,
    first: Vec<T>,
    second: Vec<U>,
    calls: &[End],
) -> Result<Driven<EitherOrBoth<T, U>>, AllocError>
    ensures called { IfOk result (λ d. d.answers.items ≡ answers (aligned first.items second.items) calls.now) }
    ensures left { IfOk result (λ d. d.rest ≡ left_over (aligned first.items second.items) calls.now) }
{
    drive_swap_owned(alloc, EitherOrBoth::Both(first, second), calls)
}

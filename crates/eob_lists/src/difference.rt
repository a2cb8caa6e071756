//! Where two iterators differ first.
ghost use Rattle.std.specs.Prelude.{◌≡◌, ◌-◌, ◌^◌};
ghost use Rattle.std.specs.Iterator.{UpTo};
ghost use Rattle.eob_lists.specs.Difference.{FindsFirstDifference, agrees};

use crate::EitherOrBoth;

/// Returns the first index at which the items of two iterators differ, or one of them has ended, with what either has there; `None` where
/// both give equal items and end together. Both iterators are polled in turn, the left one first, and neither of them past the
/// difference. Takes no memory.
///
/// The caller must prove that both iterators give fewer than 2^64 items, so that the index fits.
///
/// # Examples
///
/// ```
/// let (old, new) = (["a", "b", "c"], ["a", "x"]);
/// let found = first_difference(old.into_iter(), new.into_iter());
/// assert_eq!(rt; found, Some((1, EitherOrBoth::Both("b", "x"))));
/// assert_eq!(rt; first_difference(1..4, 1..3), Some((2, EitherOrBoth::Left(3))));
/// assert_eq!(rt; first_difference(1..4, 1..4), None);
/// ```
pub fn first_difference<T: Eq + Drop, I, J>(
    left: I,
    right: J,
) -> Option<(usize, EitherOrBoth<T, T>)>
where
    I: Iterator<Item = T> + Drop,
    J: Iterator<Item = T> + Drop,
    requires left { I.can_next left }
    requires right { J.can_next right }
    requires left_ends { UpTo (I.remaining left) (2 ^ 64 - 1) }
    requires right_ends { UpTo (J.remaining right) (2 ^ 64 - 1) }
    ensures { FindsFirstDifference T.eq I.next_gives J.next_gives left right result }
{
    EitherOrBoth::Both(left, right)
        .into_iter_swap()
        .enumerate()
        .find(|item| !is_same(&item.1))
}

// Whether both items are there and equal.
fn is_same<T: Eq>(items: &EitherOrBoth<T, T>) -> bool
    ensures { result ≡ agrees T.eq items.now }
{
    items.as_ref().is_both_and(|left, right| left == right)
}

//! The first difference of two iterators whose lists are known, by the places of these lists.
ghost use Rattle.std.specs.Prelude.{◌-◌, ◌^◌, slice_get};
ghost use Rattle.std.specs.Iterator.{UpTo};
ghost use Rattle.eob_lists.specs.Difference.{IsFirstDifference};

use crate::listed::OwnIter;
use eob_lists::EitherOrBoth;
use eob_lists::difference::first_difference;

/// [`first_difference`] of two iterators whose lists are known, and known by the places of these lists: the first index at which they
/// differ, or one of them has ended, with what either has there. At each place before it stand equal items; where it is `None`, at each
/// place of either list.
///
/// The caller must prove that both iterators give fewer than 2^64 items, so that the index fits.
///
/// # Examples
///
/// ```
/// let (old, new) = ([1, 2, 3], [1, 5]);
/// let found = first_difference_owned(old.into_iter(), new.into_iter());
/// assert_eq!(rt; found, Some((1, EitherOrBoth::Both(2, 5))));
/// ```
pub fn first_difference_owned<T: Eq + Drop, I, J>(
    left: I,
    right: J,
) -> Option<(usize, EitherOrBoth<T, T>)>
where
    I: OwnIter<Item = T> + Drop,
    J: OwnIter<Item = T> + Drop,
    requires left { I.can_next left }
    requires right { J.can_next right }
    requires left_ends { UpTo (I.remaining left) (2 ^ 64 - 1) }
    requires right_ends { UpTo (J.remaining right) (2 ^ 64 - 1) }
    ensures { IsFirstDifference T.eq (slice_get (I.listed left)) (slice_get (J.listed right)) result }
{
    first_difference(left, right)
}

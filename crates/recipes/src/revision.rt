//! The first line at which two versions of a text differ, with what either version has there. Where there is none, the versions are equal
//! line by line, and one that ended first differs where it ended.
ghost use Rattle.std.specs.Prelude.{◌^◌, ◌<◌};
ghost use Rattle.either_or_both.specs.Prelude.{IsFirstDifference, length, slice_get, string_eq};

use either_or_both::EitherOrBoth;
use eob_known_lists::difference::first_difference_owned;

/// The place of the first line that is not the same, counted from 0, and the line in either version.
pub fn first_changed_line(
    old: Vec<String>,
    new: Vec<String>,
) -> Option<(usize, EitherOrBoth<String, String>)>
    requires old { length old.items < 2 ^ 64 }
    requires new { length new.items < 2 ^ 64 }
    ensures { IsFirstDifference string_eq (slice_get old.items) (slice_get new.items) result }
{
    first_difference_owned(old.into_iter(), new.into_iter())
}

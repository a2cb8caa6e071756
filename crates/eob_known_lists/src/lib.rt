//! Iterators whose list is known beforehand, and their two ends called in a given order with no premise to show.
//!
//! The caller of [`eob_lists::laws::drive_swap`] must prove that the two sides have lists still to come, whatever order their ends
//! are called in. For vectors, arrays, slices, queues, ranges, options, the iterators of `EitherOrBoth` and what is reversed, that is
//! shown here once and for all: [`Listing`](listing::Listing) says it of values, [`ListedIter`](listed::ListedIter) of iterators.
//! A function that is generic in these traits has nothing to show, and its callers neither.
#![tactic(auto)]

pub mod difference;
pub mod drive;
pub mod listed;
pub mod listing;

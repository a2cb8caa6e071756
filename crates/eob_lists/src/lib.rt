//! Lists of [`EitherOrBoth`] values and of keyed pairs: a list brought into its normal form ([`regroup`]), an iterator polled from both
//! ends ([`drive`]), where two iterators differ first ([`difference`]), and the full outer join by key of two lists ([`join`]), with the
//! [`laws`] of these.
//!
//! The value and its iterators live in the crate `eob_both` below, and are passed on. `either_or_both` passes both crates on whole beside
//! its `Either`: name that crate alone, or this one where no `Either` is wanted and the first check should take less time.
#![tactic(auto)]

pub mod difference;
pub mod drive;
pub mod join;
pub mod laws;
pub mod regroup;

pub use eob_both::{EitherOrBoth, TryFromOptionsError, iter};

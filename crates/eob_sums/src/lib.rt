//! Counts and sums: of a list, of the values that a list has under each key, of either side of a join, and laws of how many rows a join
//! has and of which value.
//!
//! A sum is `None` exactly where it does not fit, so a call has nothing to prove of its numbers. Keys may repeat and stand in any order.
//! Joins of maps are in `eob_maps`, joins of lists in `eob_joins`.
//!
//! In examples `rt` is the handle that a test or `main` is given, by which `assert!` ends the run, and `alloc` is `rt.alloc()`, the
//! allocator that each call which takes memory is handed first. `Left`, `Both` and `Right` stand for those of `EitherOrBoth`.
#![tactic(auto)]

mod by_key;
mod laws;
mod sums;

pub use by_key::{Total, counts_by_key, total_join, totals_by_key};
pub use laws::{
    law_kept_overlaid, law_kept_rows, law_left_join_rows, law_numbers, law_row_counts,
    law_row_counts_of_join,
};
pub use sums::checked_sum;

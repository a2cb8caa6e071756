//! Joins for who holds ordered maps: two maps joined, laid one over the other or compared, changes made to a map, and three versions of
//! a map merged. Each call takes maps and returns a map, and says by `get` what stands under each key. The caller has nothing to prove.
//!
//! [`into_rows`] and [`into_map`] lead from a map to the list of its entries and back, for each call of `eob_joins` and `eob_lists`, which
//! take lists. Counts and sums by key are in `eob_sums`, maps that are hashed or in the order of insertion in `eob_joins`.
//!
//! In examples `rt` is the handle that a test or `main` is given, by which `assert!` ends the run, and `alloc` is `rt.alloc()`, the
//! allocator that each call which takes memory is handed first. `Left`, `Both` and `Right` stand for those of `EitherOrBoth`.
#![tactic(auto)]

mod changes;
mod entries;
mod joins;
mod merges;

pub use changes::{apply_map, diff_maps, law_applied_maps};
pub use entries::{into_map, into_rows};
pub use joins::{full_join_maps, inner_join_maps, left_join_maps, overlay_maps};
pub use merges::{MergedMap, merge_maps};

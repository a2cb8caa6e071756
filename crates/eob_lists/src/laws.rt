//! What holds of all lists, keys, values, pairs and iterators. The functions named `law_*` have an empty body, and their contracts
//! say it: a caller calls one so that its own proof knows it, and the call costs nothing when the program runs. Those of
//! `EitherOrBoth` alone are passed on from `eob_both`.
//!
//! What the laws speak of is passed on here too: the calls of [`regroup`](crate::regroup) and of [`drive`](crate::drive).

mod aligned;
mod drive;
mod normal;

pub use crate::drive::{Driven, End, drive_chain, drive_items, drive_swap, drive_walk};
pub use crate::regroup::{is_normal, regroup};
pub use aligned::{
    law_aligned, law_aligned_flip, law_aligned_self, law_aligned_three, law_one_sided,
};
pub use drive::law_whole_walk;
pub use eob_both::laws::{
    law_aligned_by_index, law_aligned_map, law_aligned_refs, law_chain_next, law_chain_next_back,
    law_chain_to_come, law_first_items, law_first_list, law_last_value, law_last_value_by_order,
    law_range, law_swap_next, law_swap_next_back, law_swap_to_come,
};
pub use normal::{law_equal_pairs, law_twice, law_unchanged};

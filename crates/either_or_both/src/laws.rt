//! What holds of all lists, keys, values, pairs and iterators. The functions named `law_*` have an empty body, and their contracts
//! say it: a caller calls one so that its own proof knows it, and the call costs nothing when the program runs. Here are the laws of
//! `Either`; all the others are passed on from `eob_lists`.
//!
//! What the laws speak of is passed on here too: the calls of [`regroup`](crate::regroup), of [`drive`](crate::drive) and of
//! [`recollect`](crate::recollect).

mod results;
mod split;
mod walks;

pub use crate::recollect::{
    Walked, recollect_btree_map, recollect_btree_set, recollect_hash_map, recollect_hash_set,
    recollect_index_map, recollect_index_set, recollect_vec, recollect_vec_deque, recollect_walked,
};
pub use eob_lists::laws::{
    Driven, End, drive_chain, drive_items, drive_swap, drive_walk, is_normal, law_aligned,
    law_aligned_by_index, law_aligned_flip, law_aligned_map, law_aligned_refs, law_aligned_self,
    law_aligned_three, law_chain_next, law_chain_next_back, law_chain_to_come, law_equal_pairs,
    law_first_items, law_first_list, law_last_value, law_last_value_by_order, law_one_sided,
    law_range, law_swap_next, law_swap_next_back, law_swap_to_come, law_twice, law_unchanged,
    law_whole_walk, regroup,
};
pub use results::law_results;
pub use split::{law_collected_pair, law_result_counts, law_split_counts};
pub use walks::{
    law_held_swap_len, law_held_swap_next, law_held_swap_next_back, law_held_swap_to_come,
    law_inner_len, law_inner_next, law_inner_next_back, law_inner_to_come,
};

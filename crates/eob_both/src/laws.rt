//! What holds of all lists and of all iterators of this crate. Each law is a public function that does nothing, and whose contract
//! says it: a caller calls it so that its own proof knows it. A call costs nothing when the program runs.

mod contents;
mod walks;

pub use contents::{law_first_items, law_first_list, law_last_value, law_last_value_by_order};
pub use walks::{
    law_aligned_by_index, law_aligned_map, law_aligned_refs, law_chain_next, law_chain_next_back,
    law_chain_to_come, law_range, law_swap_next, law_swap_next_back, law_swap_to_come,
};

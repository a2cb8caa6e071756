//! Keys parted by boundaries: which part a key is in, and what the rows of a part are. Tables that are cut at the same boundaries are joined
//! part by part, by `law_cut_joins` of `eob_joins`.
//!
//! `Boundaries` are keys in order; there is one part more than there are boundaries. The part of a key is how many boundaries are not above
//! it. `Sample` chooses keys from which boundaries are taken. How tables are read, partitioned and written stands above this
//! crate, in `keyed_cut`.
#![tactic(auto)]

mod boundaries;
mod laws;
mod sample;

pub use boundaries::Boundaries;
pub use laws::{law_part_order, law_partitioned_in_turn, law_parts_below};
pub use sample::Sample;

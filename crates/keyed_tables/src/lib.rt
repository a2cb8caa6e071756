//! Tables in memory, as rows by key: gathered from the rows of a file, compared, changed, merged, and put into an order.
//!
//! That the keys of a table strictly increase is kept in its type, so that each join of `eob_joins` may be called on it. How a table is
//! read and written stands above this crate.
#![tactic(auto)]

mod by_cell;
mod complete;
mod gather;
mod marked;
mod order;
mod overlay;
mod parted;
mod placed;
mod table;
mod versions;

pub use complete::{ToChange, completed};
pub use gather::{grouped_rows, unique_rows};
pub use marked::{marked_merge_by_cell_of, marked_merge_of};
pub use order::Order;
pub use overlay::{filled_over, laid_over};
pub use parted::{parted_merge_by_cell_of, parted_merge_of};
pub use placed::law_placed;
pub use table::Rows;
pub use versions::{changes_of, paired, patched};

//! The rows of CSV files: read one by one or part by part, under the columns that are wanted, and written as a table, as changes, or as the
//! rows of a join or a look-up.
//!
//! What columns are is said in `keyed_columns`. Tables by key stand above this crate, in `keyed_jobs`.
#![tactic(auto)]

mod ahead;
mod buffer;
mod by_line;
mod checked;
mod first_cell;
mod found_rows;
mod joined_rows;
mod opened;
mod parts;
mod sign;
mod source;
mod spelled_table;
mod table_spelling;
mod written;

pub use first_cell::quote_first;
pub use joined_rows::Sides;
pub use opened::{Opened, Stream, Two};
pub use parts::Parts;
pub use sign::{Sign, SignedRow};
pub use source::{Places, Source};
pub use spelled_table::write_spelled_table;
pub use table_spelling::{FoundBy, TableSpelling};
pub use written::{Written, begin_table, write_table};

//! A row of a table, as the crates of the program for tables hand it on.
//!
//! [`Cells`] are a row or a part of one, in one block of memory. [`Key`] are the cells of a row's key, which are compared fast.
//! [`Group`] are the rows that have the same key. [`ReadRow`] is a row as it is read, with its line. How files are read and written
//! stands above this crate, in `keyed_files`, and what is done with tables in `keyed_tables`.
#![tactic(auto)]

mod block;
mod cells;
mod group;
mod iter;
mod key;
mod row;

pub use cells::Cells;
pub use group::{Group, Release};
pub use iter::Iter;
pub use key::Key;
pub use row::{ReadRow, RepeatedKey, UniqueError};

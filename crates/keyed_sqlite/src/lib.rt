//! A table of an SQLite file as a text of CSV: the bytes of the file are in memory, and nothing is written.
//!
//! The files of a runtime are opened so in `databases`. The pages of a file are in `pages`, the rows of a tree of them in `scan`, what its
//! schema lists in `schema`, the columns of a table in `columns`, and the text in `text`. Pages, trees, records and statements are read by
//! the crates of the kit.
#![tactic(auto)]

mod affinity;
mod columns;
mod databases;
mod defaults;
mod opened;
mod pages;
mod problem;
mod scan;
mod schema;
mod text;

pub use databases::{Databases, Reading};
pub use opened::Opened;
pub use pages::{BEGINNING, is_database};
pub use problem::Problem;
pub use text::table_text;

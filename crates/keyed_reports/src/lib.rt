//! What changed between two tables, and rows for which a command has no table, told to a person or to a program.
//!
//! `row_changes` finds the rows of changes by key, `Report` holds what there is to say of them, and `write_report` says it in one of the
//! forms of `Look`: each has a module of its own. `write_stopped` does so with rows in conflict, changes that do not fit, and cells that
//! would be lost. Which rows these are is found elsewhere, in `keyed_tables` and `keyed_commands`.
#![tactic(auto)]

mod blocks;
mod changed_rows;
mod column_counts;
mod counts;
mod html;
mod joined_json;
mod json_lines;
mod laws;
mod markdown;
mod report;
mod shown_columns;
mod stopped;
mod summary;
mod table;

pub use changed_rows::{RowChange, row_changes};
pub use counts::{Counts, count, count_rows};
pub use joined_json::{JsonSides, put_json_row};
pub use json_lines::{json_columns, json_rows};
pub use laws::{law_html_is_text, law_lone_count, law_one_row_each, law_pairs, law_told_differs};
pub use report::{Report, write_report};
pub use stopped::{Stopped, Version, write_stopped};

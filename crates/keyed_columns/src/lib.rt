//! The columns of tables: the names that a header has, those that are the key, the columns of what is made of tables, and where the cell
//! of each stands in a row.
//!
//! Rows are read and written under these columns by `keyed_files`, which stands above this crate.
#![tactic(auto)]

mod column_changes;
mod columns;
mod content;
mod fate;
mod header;
mod joined_names;
mod key_record;
mod laws;
mod names;
mod new_columns;
mod placed;
mod spelled;
mod tolerances;

pub use column_changes::{ColumnChanges, LoneColumns};
pub use columns::{
    Columns, JoinColumns, Place, columns_of, join_columns, key_of, names_among, picked_columns,
};
pub use content::Content;
pub use fate::Fate;
pub use header::{Header, Spelling};
pub use joined_names::{join_header, lookup_header};
pub use key_record::{KeyNames, key_names};
pub use laws::{
    law_keeps_names, law_names_once, law_places_cells, law_puts_back, law_writes_names,
};
pub use new_columns::{changed_columns, marked_columns, marked_names, merged_columns, name_each};
pub use placed::PlacedCells;
pub use tolerances::Tolerances;

//! What the commands on tables share: how a job reads its tables, in which order rows come out, what two tables are compared by, changes as
//! they are made, rejected and written, rows in conflict as they are told and marked, and the style in which a table is written.
//!
//! The commands stand above this crate, in `keyed_commands`; the core, over tables in memory, is `keyed_tables`.
#![tactic(auto)]

mod answer;
mod by_number;
mod changes;
mod changes_made;
mod come_out;
mod compared;
mod conflict_cells;
mod job;
mod marks;
mod parted;
mod preferred;
mod rejected;
mod row_order;
mod styles;
mod turned;
mod written;

pub use answer::{Answer, Outcome, stopped};
pub use by_number::{changed_by_number, settled_by_number};
pub use changes::{begin_changes, write_changes};
pub use changes_made::{made_changes, missing_columns};
pub use compared::{changed_beside, compared_columns};
pub use conflict_cells::{Telling, told_conflicts};
pub use job::{Changes, Job, Table, read_rows};
pub use marks::{answer_with_marks, has_conflict};
pub use parted::{Parted, part_changes};
pub use preferred::rows_by_side;
pub use rejected::{ChangesForm, changes_text};
pub use row_order::{Grouped, RowOrder};
pub use styles::{Watched, spelling_of, style_under, unwatched, watch};
pub use turned::pairs_in;
pub use written::put_on_output;

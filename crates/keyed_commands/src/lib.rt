//! Tables as CSV files, or on any reader and writer: compared, changed, merged and joined by key.
//!
//! `write_command` answers a command of the files that it names, `diff`, `apply`, `merge`, `join` and `overlay` one of any readers
//! (`Stream`), and `diff_sorted`, `join_sorted` and `lookup` write while they read. Each command has the file of its name, with its way
//! from the streams to the answer. What they share stands in `keyed_jobs`; the core, over tables in memory, is `keyed_tables`.
#![tactic(auto)]

mod commands;
mod conflicts;
mod draft;
mod files;
mod finished;
mod line_diff;
mod lost_cells;
mod made_table;
mod output;
mod sorted;

pub use commands::apply::apply;
pub use commands::diff::diff;
pub use commands::git::{
    version_name, write_git_diff, write_git_merge, write_git_setup, write_git_unmerged,
    write_git_unopened,
};
pub use commands::join::join;
pub use commands::lookup::lookup;
pub use commands::merge::merge;
pub use commands::overlay::overlay;
pub use commands::partly::{Partly, apply_partly};
pub use commands::row_diff::diff_rows;
pub use files::{answer_request, stream_request, write_command, write_request, write_whole};
pub use finished::{Finished, SideCounts, StreamCounts};
pub use keyed_faults::{Encoding, Fault, Reason, Shown, ShownCell, ShownName, at};
pub use keyed_files::Stream;
pub use keyed_jobs::{Answer, Outcome};
pub use keyed_reports::Counts;
pub use keyed_requests::{
    Applying, Asked, Colours, ColumnsShown, Command, Comment, Comparing, Conflicts, Delimiter,
    Direction, Finding, Form, Format, GitDiff, GitMerge, GitSetup, Heading, JoinNames, Joining,
    Kind, Layer, Layout, Lengths, Look, Lookup as LookupRequest, LookupKind, Merging, Misfits,
    NamedFile, Overlay as OverlayRequest, Picked, Quotes, Reading, Request, RowComparing,
    RowFormat, RowsShown, Sameness, Settings, Side, SortedChanges, SortedRequest, Unit, View,
    Wanted, Writing,
};
pub use keyed_text::{CellQuotes, LineEnd, Style};
pub use output::write_into_file;
pub use sorted::{diff_sorted, join_sorted};

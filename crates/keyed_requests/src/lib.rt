//! What is wanted of tables: each command with its files and options, how tables are read, and how what is made of them is written.
//!
//! `keyed_arguments` makes a request of the words of a command line, and `keyed_commands` does what it wants.
#![tactic(auto)]

mod asked;
mod lookups;
mod merging;
mod overlays;
mod request;
mod sameness;
mod writing;

pub use asked::{Asked, GitDiff, GitMerge, GitSetup};
pub use lookups::{Finding, Lookup, LookupKind};
pub use merging::{Conflicts, Merging, Side, Unit};
pub use overlays::{Layer, NamedFile, Overlay};
pub use request::{
    Applying, Colours, ColumnsShown, Command, Comment, Comparing, Delimiter, Direction, Form,
    Format, JoinNames, Joining, Kind, Layout, Lengths, Look, Misfits, Picked, Quotes, Reading,
    Request, RowComparing, RowFormat, RowsShown, Settings, SortedChanges, SortedRequest, View,
    Wanted,
};
pub use sameness::Sameness;
pub use writing::{Heading, Writing};

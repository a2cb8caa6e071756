//! What a command comes to that is run to its end.
ghost use Rattle.std.specs.Prelude.{◌≡◌, ◌+◌, ◌-◌, ◌^◌, min};

use keyed_reports::Counts;
use std::fmt;

/// What a command comes to: the status that the program ends with, and the counts that are to be said beside an answer which is written while
/// its tables are read. An answer that is written whole says what there is to say itself.
#[derive(Clone, Copy, Debug, PartialEq, Eq)]
pub struct Finished {
    pub status: u8,
    pub counts: Option<StreamCounts>,
}

impl Finished {
    /// A command with this status, and no counts to be said.
    pub fn of(status: u8) -> Self
        ensures { result.status ≡ status }
    {
        Finished {
            status,
            counts: None,
        }
    }
}

/// Counts of tables that are read in the order of their keys. Prints as numbers, each with its word, or with what the help calls the table.
#[derive(Clone, Copy, Debug, PartialEq, Eq)]
pub enum StreamCounts {
    /// How many rows changed.
    Changes(Counts),
    /// How many rows the tables of a join have.
    Rows(SideCounts),
}

/// How many rows two tables have.
#[derive(Clone, Copy, Debug, PartialEq, Eq)]
pub struct SideCounts {
    pub left: usize,
    pub right: usize,
}

impl SideCounts {
    /// The counts of these rows and of others, each the greatest number there is where it would be more.
    pub fn plus(self, others: SideCounts) -> SideCounts
        ensures left { result.left ≡ min (self.left + others.left) (2 ^ 64 - 1) }
        ensures right { result.right ≡ min (self.right + others.right) (2 ^ 64 - 1) }
    {
        SideCounts {
            left: self.left.saturating_add(others.left),
            right: self.right.saturating_add(others.right),
        }
    }
}

impl fmt::Display for StreamCounts {
    fn fmt<W: fmt::Write>(&self, f: &mut fmt::Formatter<W>) -> fmt::Result {
        match self {
            StreamCounts::Changes(counts) => write!(f, "{counts}"),
            StreamCounts::Rows(rows) => {
                write!(f, "rows: {} in LEFT, {} in RIGHT", rows.left, rows.right)
            },
        }
    }
}

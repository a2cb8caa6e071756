//! How two versions of a table are merged, and what is written where rows are in conflict.

use crate::sameness::Sameness;

/// What is merged as one: where both sides changed it, and not alike, it is in conflict.
#[derive(Clone, Copy, Debug)]
pub enum Unit {
    /// All that stands under a key.
    Row,
    /// A cell, of a key that has one row in each version; of any other key, all that stands under it.
    Cell,
}

/// A side of a merge.
#[derive(Clone, Copy, Debug)]
pub enum Side {
    Ours,
    Theirs,
}

/// What is written where rows are in conflict.
#[derive(Clone, Copy, Debug)]
pub enum Conflicts {
    /// These rows, each with its versions, as a person reads them.
    Report,
    /// The merged table, with the versions of each of these rows between marks, as git writes them.
    Marks,
    /// The merged table, with the version that this side has of each of these rows; of a row that is merged by cell, with its version of the
    /// cells in conflict. A row that this side does not have goes.
    Prefer(Side),
}

/// How two versions of a table are merged over their base.
#[derive(Clone, Copy, Debug)]
pub struct Merging<'a> {
    pub unit: Unit,
    pub conflicts: Conflicts,
    /// How cells are compared, where it is not as they stand.
    pub sameness: Option<Sameness<'a>>,
}

impl Merging<'static> {
    /// Row by row, with a report of conflicts.
    pub const PLAIN: Merging<'static> = Merging {
        unit: Unit::Row,
        conflicts: Conflicts::Report,
        sameness: None,
    };

    /// Cell by cell, with marks, as git has texts merged.
    pub const AS_GIT: Merging<'static> = Merging {
        unit: Unit::Cell,
        conflicts: Conflicts::Marks,
        sameness: None,
    };
}

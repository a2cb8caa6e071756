//! The names of the files that a cut writes.
ghost use Rattle.std.specs.Prelude.{map};
ghost use Rattle.keyed_cut.specs.Listing.{AreStems};

use crate::request::CutTables;
use std::alloc::{AllocError, Global};

// The file that says where the tables were cut. Where it stands, the parts are whole.
const LISTING: &str = "cut.csv";

// The names that the parts of a table begin with.
static TWO: [&str; 2] = ["left", "right"];

static THREE: [&str; 3] = ["base", "ours", "theirs"];

/// What the names of the parts begin with, table by table.
pub fn stems_of(tables: CutTables<'_>) -> &'static [&'static str]
    ensures { AreStems (map (λ stem. stem.now) result.now) }
{
    match tables {
        CutTables::Two { .. } => &TWO,
        CutTables::Three { .. } => &THREE,
    }
}

/// The name of a part of a table.
///
/// # Errors
///
/// Returns `AllocError` if a request for memory was refused.
pub fn part_name(alloc: Global, into: &str, stem: &str, part: usize) -> Result<String, AllocError> {
    format!(in alloc; "{into}/{stem}.{part:03}.csv")
}

/// The name of the file that says where tables were cut.
///
/// # Errors
///
/// Returns `AllocError` if a request for memory was refused.
pub fn listing_name(alloc: Global, into: &str) -> Result<String, AllocError> {
    format!(in alloc; "{into}/{LISTING}")
}

/// The name that this file has while it is written.
///
/// # Errors
///
/// Returns `AllocError` if a request for memory was refused.
pub fn draft_name(alloc: Global, into: &str) -> Result<String, AllocError> {
    format!(in alloc; "{into}/{LISTING}.new")
}

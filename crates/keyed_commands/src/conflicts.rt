//! Rows that both sides of a merge changed, as a report for a person or a program.

use crate::lost_cells::{put_lost, said_of_lost};
use eob_joins::Versions;
use keyed_columns::Columns;
use keyed_jobs::Job;
use keyed_reports::{Stopped, Version, write_stopped};
use keyed_rows::{Group, Key};
use std::alloc::AllocError;

/// The rows in conflict, each with its three versions, and after them those of the merged rows that have a cell which is not empty in a
/// column that goes.
///
/// # Errors
///
/// Returns `AllocError` if a request for memory was refused.
pub fn render_conflicts(
    job: &Job<'_, Columns>,
    unresolved: &[(Key, Versions<Group>)],
    settled: &[(Key, Group)],
) -> Result<Vec<u8>, AllocError> {
    let said = said_of_lost(job, settled)?;
    let mut versions = Vec::new(job.alloc);
    for (key, row) in unresolved {
        put_versions(&mut versions, key, row)?;
    }
    put_lost(&mut versions, job.columns, "merged", settled)?;
    let stopped = Stopped {
        said: &said,
        columns: job.columns,
        versions: &versions,
    };
    write_stopped(job.alloc, job.look, &stopped)
}

// Puts the three versions of a row after others.
fn put_versions<'a>(
    versions: &mut Vec<Version<'a>>,
    key: &'a Key,
    row: &'a Versions<Group>,
) -> Result<(), AllocError> {
    let (base, sides) = row.as_ref().unzip();
    let (ours, theirs) = match sides {
        Some(sides) => sides.as_ref().unzip(),
        None => (None, None),
    };
    versions.push(in_conflict("base", key, base))?;
    versions.push(in_conflict("ours", key, ours))?;
    versions.push(in_conflict("theirs", key, theirs))?;
    Ok(())
}

// A version of a row in conflict.
fn in_conflict<'a>(word: &'a str, key: &'a Key, rows: Option<&'a Group>) -> Version<'a> {
    Version {
        why: "conflict",
        word,
        key,
        rows,
    }
}

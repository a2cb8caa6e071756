//! Cells that would be lost with columns that go: whether there are any, and a report of their rows for a person or a program.
ghost use Rattle.std.specs.Prelude.{◌≡◌};
ghost use Rattle.std.specs.List.{list_any};
ghost use Rattle.keyed_columns.specs.Lost.{count_written, loses_cells};
ghost use Rattle.keyed_jobs.specs.Lost.{loses};

use keyed_columns::Columns;
use keyed_faults::ShownName;
use keyed_jobs::Job;
use keyed_reports::{Stopped, Version, write_stopped};
use keyed_rows::{Group, Key};
use std::alloc::AllocError;
use std::fmt::Write;

/// Whether a column goes, and one of the rows has a cell there that is not empty.
pub fn lose_cells(columns: &Columns, rows: &[(Key, Group)]) -> bool
    ensures { result ≡ loses columns.now rows.now }
{
    if columns.count_written() < columns.rest.len() {
        any_loses(columns, rows)
    } else {
        false
    }
}

// Whether one of the rows has a cell that is not empty in a column that goes.
fn any_loses(columns: &Columns, rows: &[(Key, Group)]) -> bool
    ensures { result ≡ list_any (λ row. loses_cells (count_written columns.now) row.1) rows.now }
{
    rows.iter().any(|row| columns.lose_cells(&row.1))
}

/// The rows that have a cell which is not empty in a column that goes, after a word, and before them a line for each such column.
///
/// # Errors
///
/// Returns `AllocError` if a request for memory was refused.
pub fn render_lost(
    job: &Job<'_, Columns>,
    word: &str,
    rows: &[(Key, Group)],
) -> Result<Vec<u8>, AllocError> {
    let said = said_of_lost(job, rows)?;
    let mut versions: Vec<Version<'_>> = Vec::new(job.alloc);
    put_lost(&mut versions, job.columns, word, rows)?;
    let stopped = Stopped {
        said: &said,
        columns: job.columns,
        versions: &versions,
    };
    write_stopped(job.alloc, job.look, &stopped)
}

/// A line for each column that goes in which one of the rows has a cell that is not empty.
///
/// # Errors
///
/// Returns `AllocError` if a request for memory was refused.
pub fn said_of_lost(job: &Job<'_, Columns>, rows: &[(Key, Group)]) -> Result<String, AllocError> {
    let mut said = String::new(job.alloc);
    let written = job.columns.count_written();
    for (place, name) in job.columns.rest.iter().enumerate().skip(written) {
        if rows.iter().any(|row| has_cell_at(&row.1, place)) {
            writeln!(
                said,
                "column {} goes, and has cells in these rows",
                ShownName(name)
            )?;
        }
    }
    Ok(said)
}

/// Puts those of the rows that have a cell which is not empty in a column that goes, with this word, after others.
///
/// # Errors
///
/// Returns `AllocError` if a request for memory was refused.
pub fn put_lost<'a>(
    versions: &mut Vec<Version<'a>>,
    columns: &Columns,
    word: &'a str,
    rows: &'a [(Key, Group)],
) -> Result<(), AllocError> {
    for (key, group) in rows {
        if columns.lose_cells(group) {
            versions.push(Version {
                why: "lost",
                word,
                key,
                rows: Some(group),
            })?;
        }
    }
    Ok(())
}

// Whether a row of a group has a cell at this place that is not empty.
fn has_cell_at(rows: &Group, place: usize) -> bool {
    rows.rows()
        .iter()
        .any(|row| row.get(place).is_some_and(|cell| !cell.is_empty()))
}

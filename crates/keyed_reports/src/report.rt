//! What there is to say of two tables, and the form in which it is said.
ghost use Rattle.std.specs.Prelude.{◌≡◌, IfOk, length, map};
ghost use Rattle.keyed_reports.specs.RowChanges.{row_behind};
ghost use Rattle.keyed_reports.specs.SaidAfter.{counts_of};
ghost use Rattle.keyed_reports.specs.Shown.{count_more, shown_rows};
ghost use Rattle.keyed_reports.specs.TableLines.{IsTable, TellsTable};

use crate::changed_rows::RowChange;
use crate::column_counts::column_counts;
use crate::counts::{Counts, count};
use crate::html::html;
use crate::json_lines::{json_columns, json_rows};
use crate::markdown::markdown;
use crate::summary::{summary_json, summary_table};
use crate::table::table;
use keyed_columns::{ColumnChanges, Columns};
use keyed_numbers::Alike;
use keyed_requests::{Look, RowsShown, View};
use std::alloc::{AllocError, Global};

/// What there is to say of two tables that were compared.
#[derive(Drop)]
pub struct Report<'r> {
    /// The columns that were compared.
    pub columns: &'r Columns,
    /// What became of columns.
    pub column_changes: ColumnChanges<'r>,
    /// Which columns and rows are shown, and how wide a table may be.
    pub view: View<'r>,
    /// All rows that changed.
    pub all: &'r [RowChange<'r>],
    /// Those that are shown.
    pub rows: &'r [RowChange<'r>],
    /// How many more rows changed, where that is to be said.
    pub more: usize,
    /// The counts of all rows.
    pub counts: Counts,
    /// How the cells of each column beside the key are compared.
    pub alikes: &'r [Alike<'r>],
}

impl<'r> Report<'r> {
    /// What there is to say of these changed rows, of which this part is shown. The old table had this many rows. The cells of each
    /// column beside the key are compared so.
    pub fn new(
        columns: &'r Columns,
        column_changes: ColumnChanges<'r>,
        view: View<'r>,
        alikes: &'r [Alike<'r>],
        old_rows: usize,
        rows: &'r [RowChange<'r>],
    ) -> Self
        ensures columns { result.columns.now ≡ columns.now }
        ensures alikes { result.alikes.now ≡ alikes.now }
        ensures all { result.all.now ≡ rows.now }
        ensures view { result.view ≡ view.entry }
        ensures rows { result.rows.now ≡ shown_rows view.entry.rows rows.now }
        ensures more { result.more ≡ count_more view.entry.rows (length rows.now) }
        ensures counts { result.counts ≡ counts_of old_rows (map row_behind rows.now) }
    {
        Report {
            columns,
            column_changes,
            view,
            all: rows,
            rows: shown_rows(view.rows, rows),
            more: count_more(view.rows, rows.len()),
            counts: count(old_rows, rows),
            alikes,
        }
    }
}

// Those of the rows that are shown.
fn shown_rows<'r, 'a>(which: RowsShown, rows: &'r [RowChange<'a>]) -> &'r [RowChange<'a>]
    ensures { result.now ≡ shown_rows which rows.now }
{
    match which {
        RowsShown::All => rows,
        RowsShown::First(most) => rows.get(..most).unwrap_or(rows),
        RowsShown::Nothing => rows.get(..0).unwrap_or(rows),
    }
}

// How many rows are not shown, where that is to be said.
fn count_more(which: RowsShown, all: usize) -> usize
    ensures { result ≡ count_more which all }
{
    match which {
        RowsShown::First(most) => all.saturating_sub(most),
        RowsShown::All | RowsShown::Nothing => 0,
    }
}

/// The report as text of this form: what became of the columns, the rows, and the counts; of JSON an object of columns that came or went, if
/// there are any, and then the rows. Where no row is to be shown, a table and JSON have the columns that changed in their place, and JSON
/// the counts last.
///
/// # Errors
///
/// Returns `AllocError` if a request for memory was refused.
pub fn write_report(alloc: Global, look: Look, report: &Report<'_>) -> Result<Vec<u8>, AllocError>
    ensures { IfOk result (λ text. TellsTable look report.now.view → IsTable report.now.view
        report.now.alikes.now report.now.columns.now report.now.more report.now.counts
        (map row_behind report.now.rows.now) text.items) }
{
    match report.view.rows {
        RowsShown::Nothing => write_summary(alloc, look, report),
        RowsShown::All | RowsShown::First(_) => write_rows(alloc, look, report),
    }
}

// The report with its rows.
fn write_rows(alloc: Global, look: Look, report: &Report<'_>) -> Result<Vec<u8>, AllocError>
    ensures { IfOk result (λ text. TellsTable look report.now.view → IsTable report.now.view
        report.now.alikes.now report.now.columns.now report.now.more report.now.counts
        (map row_behind report.now.rows.now) text.items) }
{
    match look {
        Look::Table { colours } => {
            let text = table(alloc, colours, report)?;
            Ok(text.into_bytes())
        }
        Look::Markdown => markdown(alloc, report),
        Look::Html => html(alloc, report),
        Look::Json => {
            let mut text = json_columns(alloc, &report.column_changes.lone(alloc)?)?;
            let rows = json_rows(alloc, report.columns, report.alikes, report.rows)?;
            text.extend_from_slice(&rows)?;
            Ok(text)
        }
    }
}

// The report with the columns that changed in the place of the rows.
fn write_summary(alloc: Global, look: Look, report: &Report<'_>) -> Result<Vec<u8>, AllocError> {
    match look {
        Look::Markdown => markdown(alloc, report),
        Look::Html => html(alloc, report),
        Look::Table { .. } => {
            let counts = column_counts(alloc, &report.columns.rest, report.alikes, report.all)?;
            Ok(summary_table(alloc, report, &counts)?.into_bytes())
        }
        Look::Json => {
            let counts = column_counts(alloc, &report.columns.rest, report.alikes, report.all)?;
            summary_json(alloc, report, &counts)
        }
    }
}

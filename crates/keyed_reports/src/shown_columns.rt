//! Which columns a report shows beside those of the key: of rows that all changed those in which one of them did.
ghost use Rattle.std.specs.Prelude.{◌≡◌, IfOk, length, map, option_map, replicate, string_bytes};
ghost use Rattle.keyed_reports.specs.SaidAfter.{count_hidden, hidden_text, left_out_text};
ghost use Rattle.either_or_both.specs.Prelude.{left_place, right_place};
ghost use Rattle.keyed_reports.specs.ShownColumns.{columns_changed, columns_shown, either_changed};

use crate::changed_rows::RowChange;
use crate::report::Report;
use either_or_both::EitherOrBoth;
use eob_joins::Change;
use keyed_numbers::{Alike, is_same_cell};
use keyed_requests::ColumnsShown;
use keyed_rows::Cells;
use std::alloc::{AllocError, Global};

/// Whether each of the columns beside the key is shown, in their order.
///
/// # Errors
///
/// Returns `AllocError` if a request for memory was refused.
pub fn columns_of(alloc: Global, report: &Report<'_>) -> Result<Vec<bool>, AllocError>
    ensures { IfOk result (λ shown. shown.items ≡ columns_shown report.now.view.shown report.now.alikes.now
        (length report.now.columns.now.rest)
        (map (λ row. (
          option_map (λ cells. cells.now) (left_place row.1),
          option_map (λ cells. cells.now) (right_place row.1),
        )) report.now.rows.now)) }
{
    let count = report.columns.rest.len();
    columns_shown(alloc, report.view.shown, count, report.alikes, report.rows)
}

// Whether each of so many columns is shown of these rows: each of them where all are wanted or a row came or went, and else those in
// which a row changed.
fn columns_shown(
    alloc: Global,
    which: ColumnsShown,
    count: usize,
    alikes: &[Alike<'_>],
    rows: &[RowChange<'_>],
) -> Result<Vec<bool>, AllocError>
    ensures { IfOk result (λ shown. shown.items ≡ columns_shown which alikes.now count
        (map (λ row. (
          option_map (λ cells. cells.now) (left_place row.1),
          option_map (λ cells. cells.now) (right_place row.1),
        )) rows.now)) }
{
    match which {
        ColumnsShown::All => flags(alloc, true, count),
        ColumnsShown::Changed => {
            let mut shown = flags(alloc, false, count)?;
            for row in rows {
                shown = columns_changed(alloc, &shown, alikes, row.1)?;
            }
            Ok(shown)
        }
    }
}

// So many flags that are the same.
fn flags(alloc: Global, flag: bool, count: usize) -> Result<Vec<bool>, AllocError>
    ensures { IfOk result (λ flags. flags.items ≡ replicate count flag) }
{
    let mut flags = Vec::new(alloc);
    flags.resize(count, flag)?;
    Ok(flags)
}

// The columns that were shown of the rows before this one, and those that are of it: of a row that came or went each one.
fn columns_changed(
    alloc: Global,
    shown: &[bool],
    alikes: &[Alike<'_>],
    change: Change<&Cells>,
) -> Result<Vec<bool>, AllocError>
    ensures { IfOk result (λ columns. columns.items ≡ columns_changed alikes.now shown.now
        (option_map (λ cells. cells.now) (left_place change.entry))
        (option_map (λ cells. cells.now) (right_place change.entry))) }
{
    match change {
        EitherOrBoth::Left(_) => flags(alloc, true, shown.len()),
        EitherOrBoth::Right(_) => flags(alloc, true, shown.len()),
        EitherOrBoth::Both(old, new) => either_changed(alloc, shown, alikes, old, new),
    }
}

// The columns that were shown, and those in which two versions of a row differ.
fn either_changed(
    alloc: Global,
    shown: &[bool],
    alikes: &[Alike<'_>],
    old: &Cells,
    new: &Cells,
) -> Result<Vec<bool>, AllocError>
    ensures { IfOk result (λ columns. columns.items
        ≡ either_changed alikes.now shown.now old.now new.now) }
{
    shown
        .iter()
        .zip(alikes.iter().zip(old.iter().zip(new.iter())))
        .map(|(is_shown, (alike, (cell, next)))| *is_shown || !is_same_cell(*alike, cell, next))
        .collect(alloc)
}

/// The line that says how many columns are not shown, or nothing where all are, or no row is.
///
/// # Errors
///
/// Returns `AllocError` if a request for memory was refused.
pub fn left_out(alloc: Global, report: &Report<'_>, shown: &[bool]) -> Result<String, AllocError>
    ensures { IfOk result
        (λ text. string_bytes text ≡ left_out_text (length report.now.rows.now) shown.now) }
{
    let count = count_hidden(shown);
    if report.rows.is_empty() || count == 0 {
        return Ok(String::new(alloc));
    }
    hidden_text(alloc, count)
}

// How many columns are not shown.
fn count_hidden(shown: &[bool]) -> usize
    ensures { result ≡ count_hidden shown.now }
{
    shown.iter().filter(|is_shown| !**is_shown).count()
}

// What is said of so many columns.
fn hidden_text(alloc: Global, count: usize) -> Result<String, AllocError>
    ensures { IfOk result (λ text. string_bytes text ≡ hidden_text count) }
{
    let columns = if count == 1 {
        "column is"
    } else {
        "columns are"
    };
    format!(in alloc; "{count} {columns} the same here, and not shown without --all-columns\n")
}

//! Joins of two tables, in the form that is wanted: as CSV, or as JSON, of which a row has no side that is absent.
ghost use Rattle.std.specs.Prelude.{◌≡◌, IfOk, is_none};
ghost use Rattle.keyed_requests.specs.declared.request.RowFormat.TheVariants.{Csv};
ghost use Rattle.keyed_tables.specs.Arranged.{noted};
ghost use Rattle.keyed_commands.specs.JoinAnswers.{IsJoinText};

use crate::commands::join::{JoinForm, JoinedRow, join_as_csv};
use either_or_both::EitherOrBoth;
use either_or_both::join::outer_join;
use keyed_columns::JoinColumns;
use keyed_jobs::{Job, Table};
use keyed_reports::{JsonSides, put_json_row};
use keyed_requests::{Kind, RowFormat};
use keyed_rows::{Cells, Group, Key};
use std::alloc::AllocError;

/// The join of two tables, in its form.
///
/// # Errors
///
/// Returns the errors of `join_as_csv`.
pub fn write_join(
    job: &Job<'_, JoinColumns>,
    form: &JoinForm,
    left: Table,
    right: Table,
) -> Result<Vec<u8>, AllocError>
    ensures { IfOk result (λ bytes. form.now.format ≡ Csv → IsJoinText job.now.form job.now.columns.now
        form.now.header (noted job.now.order) (is_none job.now.row_order.files) form.now.kind
        left.pairs.items right.pairs.items bytes.items) }
{
    match form.format {
        RowFormat::Csv => join_as_csv(job, form, left, right),
        RowFormat::Json => join_as_json(job, form.kind, left, right),
    }
}

// The join of two tables as JSON, a line for each row of one side with each of the other.
fn join_as_json(
    job: &Job<'_, JoinColumns>,
    kind: Kind,
    left: Table,
    right: Table,
) -> Result<Vec<u8>, AllocError> {
    let rows = outer_join(job.alloc, left.pairs, right.pairs)?;
    let rows = job.order.arrange(rows)?;
    let mut text = Vec::new(job.alloc);
    for (key, row) in rows {
        if has_rows(kind, &row) {
            let row = row.in_order(job.alloc, &job.row_order, &key)?;
            put_rows(job, kind, &mut text, &key, &row)?;
        }
    }
    Ok(text)
}

// Whether a join of this kind has the rows of a key.
fn has_rows<L, R>(kind: Kind, row: &EitherOrBoth<L, R>) -> bool {
    match kind {
        Kind::Outer => true,
        Kind::Inner | Kind::Semi => row.is_both(),
        Kind::Left => row.has_left(),
        Kind::Right => row.has_right(),
        Kind::Anti => row.is_left(),
    }
}

// Puts the rows of a key.
fn put_rows(
    job: &Job<'_, JoinColumns>,
    kind: Kind,
    text: &mut Vec<u8>,
    key: &Key,
    row: &EitherOrBoth<Group, Group>,
) -> Result<(), AllocError> {
    match row {
        EitherOrBoth::Left(left) => put_lefts(job, text, key, left.rows()),
        EitherOrBoth::Right(right) => put_rights(job, text, key, None, right.rows()),
        EitherOrBoth::Both(left, right) => match kind {
            Kind::Semi => put_lefts(job, text, key, left.rows()),
            _ => {
                for cells in left.rows() {
                    put_rights(job, text, key, Some(cells), right.rows())?;
                }
                Ok(())
            }
        },
    }
}

// Puts rows of the left table alone.
fn put_lefts(
    job: &Job<'_, JoinColumns>,
    text: &mut Vec<u8>,
    key: &Key,
    rows: &[Cells],
) -> Result<(), AllocError> {
    for cells in rows {
        let sides = JsonSides {
            left: Some(cells),
            right: None,
        };
        put_json_row(job.alloc, text, job.columns, key, sides)?;
    }
    Ok(())
}

// Puts rows of the right table, each after the row of the left one, if there is one.
fn put_rights(
    job: &Job<'_, JoinColumns>,
    text: &mut Vec<u8>,
    key: &Key,
    left: Option<&Cells>,
    rows: &[Cells],
) -> Result<(), AllocError> {
    for cells in rows {
        let sides = JsonSides {
            left,
            right: Some(cells),
        };
        put_json_row(job.alloc, text, job.columns, key, sides)?;
    }
    Ok(())
}

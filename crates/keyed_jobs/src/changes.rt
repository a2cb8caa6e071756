//! Changes written as CSV, whole, in memory.
ghost use Rattle.std.specs.Prelude.{◌≡◌, ◌++◌, IfOk, OnOk, option_map};
ghost use Rattle.either_or_both.specs.Prelude.{left_place, right_place};
ghost use Rattle.keyed_files.specs.Writing.{PutsRows, Wrote, text_of};
ghost use Rattle.keyed_jobs.specs.ChangeRows.{change_rows, changes_heading, changes_rows, version_rows};

use crate::job::Job;
use either_or_both::EitherOrBoth;
use eob_joins::Change;
use keyed_columns::Columns;
use keyed_files::{Sign, Written};
use keyed_requests::Form;
use keyed_rows::{Cells, Group, Key};
use std::alloc::{AllocError, Global};

/// Changes, as `apply` reads them: a row that goes begins with `-`, one that comes with `+`. The header has the names
/// of the columns as they are marked. Each change is dropped once it is written.
///
/// # Errors
///
/// Returns `AllocError` if a request for memory was refused.
pub fn write_changes(
    job: &Job<'_, Columns>,
    marked: &Cells,
    changes: Vec<(Key, Change<Group>)>,
) -> Result<Vec<u8>, AllocError>
    ensures { IfOk result (λ text. text.items ≡ text_of job.now.form
        (changes_heading job.now.form marked.now
        ++ changes_rows job.now.columns.now.order.items changes.items)) }
{
    let mut written = begin_changes(job.alloc, job.form, marked)?;
    put_changes(&mut written, job.columns, changes)?;
    let text = written.finish()?;
    Ok(text)
}

/// Changes in the making with their header, where answers have a heading: the name of the column of signs, and the names of the columns as
/// they are marked.
///
/// # Errors
///
/// Returns `AllocError` if a request for memory was refused.
pub fn begin_changes(alloc: Global, form: Form, marked: &Cells) -> Result<Written, AllocError>
    ensures { IfOk result (λ written. Wrote form (changes_heading form marked.now) written) }
{
    let mut written = Written::new(alloc, form);
    let has_heading = form.writes_heading();
    if has_heading {
        written.put_change_heading(marked)?;
        Ok(written)
    } else {
        Ok(written)
    }
}

// Puts changes, by key. Each is dropped once it is written.
fn put_changes(
    written: &mut Written,
    columns: &Columns,
    changes: Vec<(Key, Change<Group>)>,
) -> Result<(), AllocError>
    ensures { OnOk result
        (PutsRows written.old written.new (changes_rows columns.now.order.items changes.items)) }
{
    for row in changes {
        put_change(written, columns, &row.0, &row.1)?;
    }
    Ok(())
}

// Puts the rows under a key that go, and then those that come.
fn put_change(
    written: &mut Written,
    columns: &Columns,
    key: &Key,
    change: &Change<Group>,
) -> Result<(), AllocError>
    ensures { OnOk result
        (PutsRows written.old written.new (change_rows columns.now.order.items key.now change.now)) }
{
    put_version(written, Sign::Minus, columns, key, old_rows(change))?;
    put_version(written, Sign::Plus, columns, key, new_rows(change))?;
    Ok(())
}

// The rows that go, if there are any.
fn old_rows(change: &Change<Group>) -> Option<&Group>
    ensures { option_map (λ rows. rows.now) result ≡ left_place change.now }
{
    match change {
        EitherOrBoth::Left(old) => Some(old),
        EitherOrBoth::Both(old, _new) => Some(old),
        EitherOrBoth::Right(_new) => None,
    }
}

// The rows that come, if there are any.
fn new_rows(change: &Change<Group>) -> Option<&Group>
    ensures { option_map (λ rows. rows.now) result ≡ right_place change.now }
{
    match change {
        EitherOrBoth::Left(_old) => None,
        EitherOrBoth::Both(_old, new) => Some(new),
        EitherOrBoth::Right(new) => Some(new),
    }
}

// Puts the rows of a version under a key, if it has any.
fn put_version(
    written: &mut Written,
    sign: Sign,
    columns: &Columns,
    key: &Key,
    rows: Option<&Group>,
) -> Result<(), AllocError>
    ensures { OnOk result (PutsRows written.old written.new
        (version_rows sign columns.now.order.items key.now (option_map (λ rows. rows.now) rows.entry))) }
{
    match rows {
        Some(rows) => written.put_rows(Some(sign), columns, key, rows),
        None => Ok(()),
    }
}

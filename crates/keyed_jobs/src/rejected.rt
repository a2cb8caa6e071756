//! Changes that are not made, as a text of changes: under all columns, each with the mark that it has in the header of the changes.
ghost use Rattle.std.specs.Prelude.{◌≡◌, IfOk, is_none, map};
ghost use Rattle.keyed_columns.specs.ColumnNames.{has_name};
ghost use Rattle.keyed_columns.specs.Placed.{names_placed};
ghost use Rattle.keyed_tables.specs.Arranged.{noted};
ghost use Rattle.keyed_jobs.specs.Rejected.{AreAll, IsChangesText, fate_in, marked_in};

use crate::changes::write_changes;
use crate::job::Job;
use eob_joins::Change;
use keyed_columns::{Columns, Fate, PlacedCells};
use keyed_requests::Form;
use keyed_rows::{Cells, Group, Key};
use std::alloc::{AllocError, Global};

/// How changes are written: their form, and the names of the columns that go and of those that come.
#[derive(Drop)]
pub struct ChangesForm {
    pub form: Form,
    pub going: Cells,
    pub coming: Cells,
}

/// Changes under the columns of the table that they make, as `apply` reads them: in the order in which rows come out, with all columns,
/// also those that the table loses.
///
/// # Errors
///
/// Returns the errors of `write_changes`.
pub fn changes_text(
    job: &Job<'_, Columns>,
    how: &ChangesForm,
    changes: Vec<(Key, Change<Group>)>,
) -> Result<Vec<u8>, AllocError>
    ensures { IfOk result (λ text. IsChangesText how.now job.now.columns.now (noted job.now.order)
        (is_none job.now.row_order.files) changes.items text.items) }
{
    let shown = job.arrange(changes)?;
    let columns = all_columns(job.alloc, job.columns)?;
    let marked = marked_names(job.alloc, how, &columns)?;
    let text = write_changes(&job.to_write(how.form, &columns), &marked, shown)?;
    Ok(text)
}

// All columns as those that are written.
fn all_columns(alloc: Global, columns: &Columns) -> Result<Columns, AllocError>
    ensures { IfOk result (AreAll columns.now) }
{
    let written = names_in_order(alloc, columns)?;
    let key = columns.key.clone()?;
    let all = Columns::new(alloc, key, &[&written, &columns.key, &columns.rest])?;
    Ok(all)
}

// The names of columns that are written, each with the mark of what becomes of it.
fn marked_names(alloc: Global, how: &ChangesForm, columns: &Columns) -> Result<Cells, AllocError>
    ensures { IfOk result (λ marked. marked
        ≡ map (marked_in how.now.going how.now.coming) (names_placed columns.now)) }
{
    let names = names_in_order(alloc, columns)?;
    let marked = marked_in(alloc, how, &names)?;
    Ok(marked)
}

// The names of columns in the order in which they are written.
fn names_in_order(alloc: Global, columns: &Columns) -> Result<Cells, AllocError>
    ensures { IfOk result (λ names. names ≡ names_placed columns.now) }
{
    let key = Key::copied(&columns.key)?;
    let mut cells = PlacedCells::new(&key, &columns.rest);
    let mut names = Cells::new(alloc);
    for place in &columns.order {
        names.push(cells.take(*place))?;
    }
    Ok(names)
}

// These names, each with the mark of what becomes of it.
fn marked_in(alloc: Global, how: &ChangesForm, names: &Cells) -> Result<Cells, AllocError>
    ensures { IfOk result (λ marked. marked
        ≡ map (marked_in how.now.going how.now.coming) names.now) }
{
    let mut marked = Cells::new(alloc);
    for name in names {
        let name_marked = fate_in(how, name).marked(alloc, name)?;
        marked.push(&name_marked)?;
    }
    Ok(marked)
}

// What becomes of a column.
fn fate_in(how: &ChangesForm, name: &[u8]) -> Fate
    ensures { result ≡ fate_in how.now.going how.now.coming name.now }
{
    if has_name(&how.going, name) {
        Fate::Goes
    } else if has_name(&how.coming, name) {
        Fate::Comes
    } else {
        Fate::Stays
    }
}

// Whether a name is one of others.
fn has_name(names: &Cells, name: &[u8]) -> bool
    ensures { result ≡ has_name names.now name.now }
{
    names.iter().any(|other| name == other)
}

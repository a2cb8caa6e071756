//! A merged table in which rows in conflict stand between marks, as git writes them.
ghost use Rattle.std.specs.Prelude.{◌≡◌, IfOk, None, is_none, option_map};
ghost use Rattle.keyed_files.specs.Rows.{heading};
ghost use Rattle.keyed_files.specs.Writing.{text_of};
ghost use Rattle.keyed_tables.specs.Arranged.{noted};
ghost use Rattle.keyed_jobs.specs.ComeOut.{AlikeMarked};
ghost use Rattle.keyed_jobs.specs.MarkedText.{AnswersMarkedFile, HasText, KeepsText, PutsText};
ghost use Rattle.keyed_jobs.specs.MarkedText.{group_text, has_conflict, is_in_conflict, line_text};
ghost use Rattle.keyed_jobs.specs.MarkedText.{marked_file, marked_rows_text, marked_text, version_text};
ghost use Rattle.keyed_jobs.specs.MarkedText.{versions_text};

use crate::answer::{Answer, Outcome};
use crate::by_number::{base_in, ours_in, theirs_in};
use crate::conflict_cells::{Telling, told_conflict};
use crate::job::Job;
use crate::row_order::{Grouped, RowOrder};
use eob_joins::{Marked, Versions};
use keyed_columns::Columns;
use keyed_files::{Written, begin_table, quote_first};
use keyed_rows::{Group, Key};
use std::alloc::{AllocError, Global};

impl Grouped for Marked<Group> {
    ghost alike = { AlikeMarked };

    fn in_order(self, alloc: Global, order: &RowOrder, key: &Key) -> Result<Self, AllocError> {
        match self {
            Marked::Settled(group) => Ok(Marked::Settled(group.in_order(alloc, order, key)?)),
            Marked::Unresolved(versions) => {
                Ok(Marked::Unresolved(versions.in_order(alloc, order, key)?))
            }
        }
    }
}

/// Whether one of the rows is in conflict.
pub fn has_conflict(rows: &[(Key, Marked<Group>)]) -> bool
    ensures { result ≡ has_conflict rows.now }
{
    rows.iter().any(|row| is_in_conflict(&row.1))
}

fn is_in_conflict(row: &Marked<Group>) -> bool
    ensures { result ≡ is_in_conflict row.now }
{
    match row {
        Marked::Settled(_) => false,
        Marked::Unresolved(_) => true,
    }
}

/// The merged table with the versions of each row in conflict between marks, and status 1: not all is merged.
///
/// # Errors
///
/// Returns `AllocError` if a request for memory was refused.
pub fn answer_with_marks(
    job: &Job<'_, Columns>,
    how: Telling<'_>,
    rows: Vec<(Key, Marked<Group>)>,
) -> Result<Answer, AllocError>
    ensures { IfOk result (AnswersMarkedFile job.now.form job.now.columns.now (noted job.now.order)
        (is_none job.now.row_order.files) how.entry.unit how.entry.alikes.now rows.items) }
{
    let shown = job.arrange(rows)?;
    let bytes = write_marked(job, how, shown)?;
    Ok(Answer {
        bytes,
        status: 1,
        outcome: Outcome::Made,
    })
}

// The table as CSV, with the versions of each row in conflict between marks. Where rows are merged by cell, these differ in the cells in
// conflict alone.
fn write_marked(
    job: &Job<'_, Columns>,
    how: Telling<'_>,
    rows: Vec<(Key, Marked<Group>)>,
) -> Result<Vec<u8>, AllocError>
    ensures { IfOk result (λ file. file.items ≡ marked_file job.now.form job.now.columns.now
        how.entry.unit how.entry.alikes.now rows.items) }
{
    let text = Text::begun(job)?;
    let text = text.with_all(job, how, rows)?;
    let text = text.flushed(job)?;
    let given = quote_first(job.alloc, text.bytes, job.form.delimiter)?;
    let file = job.form.writing.style.finish(job.alloc, given)?;
    Ok(file)
}

// A text in the making: bytes that stay as they are, and rows after them.
#[derive(Drop)]
struct Text {
    bytes: Vec<u8>,
    written: Written,
}

impl Text {
    // The heading of a table, if it has one.
    fn begun(job: &Job<'_, Columns>) -> Result<Self, AllocError>
        ensures { IfOk result (HasText job.now.form
            (text_of job.now.form (heading job.now.form None job.now.columns.now))) }
    {
        let written = begin_table(job.alloc, job.form, None, job.columns)?;
        Ok(Text {
            bytes: Vec::new(job.alloc),
            written,
        })
    }

    // The text with all rows after it. Each is dropped once it is written.
    fn with_all(
        self,
        job: &Job<'_, Columns>,
        how: Telling<'_>,
        rows: Vec<(Key, Marked<Group>)>,
    ) -> Result<Self, AllocError>
        ensures { IfOk result (λ text. PutsText job.now.form self text
            (marked_rows_text job.now.form job.now.columns.now.order.items
            how.entry.unit how.entry.alikes.now rows.items)) }
    {
        let mut text = self;
        for (key, row) in rows {
            text = text.with_marked(job, how, &key, row)?;
        }
        Ok(text)
    }

    // The text with a row after it, or with its versions between marks.
    fn with_marked(
        self,
        job: &Job<'_, Columns>,
        how: Telling<'_>,
        key: &Key,
        row: Marked<Group>,
    ) -> Result<Self, AllocError>
        ensures { IfOk result (λ text. PutsText job.now.form self text
            (marked_text job.now.form job.now.columns.now.order.items
            how.entry.unit how.entry.alikes.now key.now row)) }
    {
        match row {
            Marked::Settled(group) => self.with_rows(job, key, &group),
            Marked::Unresolved(versions) => {
                let told = told_conflict(job.alloc, how, versions)?;
                self.with_versions(job, key, &told)
            }
        }
    }

    // The text with the rows under a key after it.
    fn with_rows(self, job: &Job<'_, Columns>, key: &Key, rows: &Group) -> Result<Self, AllocError>
        ensures { IfOk result (λ text. PutsText job.now.form self text
            (group_text job.now.form job.now.columns.now.order.items key.now rows.now)) }
    {
        let Text { bytes, mut written } = self;
        written.put_rows(None, job.columns, key, rows)?;
        Ok(Text { bytes, written })
    }

    // The text with all its rows among the bytes that stay as they are.
    fn flushed(self, job: &Job<'_, Columns>) -> Result<Self, AllocError>
        ensures { IfOk result (KeepsText job.now.form self) }
    {
        let Text { mut bytes, written } = self;
        let rows = written.finish()?;
        bytes.extend_from_slice(&rows)?;
        Ok(Text {
            bytes,
            written: Written::new(job.alloc, job.form),
        })
    }

    // The text with a line after it that is no row, and so has no quotes in any style.
    fn with_line(self, job: &Job<'_, Columns>, line: &str) -> Result<Self, AllocError>
        ensures { IfOk result (λ text. PutsText job.now.form self text (line_text job.now.form line.now)) }
    {
        let Text { mut bytes, written } = self.flushed(job)?;
        bytes.extend_from_slice(line.as_bytes())?;
        bytes.extend_from_slice(job.form.writing.style.line_end.bytes())?;
        Ok(Text { bytes, written })
    }

    // The text with the versions of a row in conflict after it, each after a mark.
    fn with_versions(
        self,
        job: &Job<'_, Columns>,
        key: &Key,
        versions: &Versions<Group>,
    ) -> Result<Self, AllocError>
        ensures { IfOk result (λ text. PutsText job.now.form self text
            (versions_text job.now.form job.now.columns.now.order.items key.now versions.now)) }
    {
        let text = self.with_line(job, "<<<<<<< ours")?;
        let text = text.with_version(job, key, ours_in(versions))?;
        let text = text.with_line(job, "||||||| base")?;
        let text = text.with_version(job, key, base_in(versions))?;
        let text = text.with_line(job, "=======")?;
        let text = text.with_version(job, key, theirs_in(versions))?;
        text.with_line(job, ">>>>>>> theirs")
    }

    // The text with the rows of one version after it, if it has any.
    fn with_version(
        self,
        job: &Job<'_, Columns>,
        key: &Key,
        rows: Option<&Group>,
    ) -> Result<Self, AllocError>
        ensures { IfOk result (λ text. PutsText job.now.form self text
            (version_text job.now.form job.now.columns.now.order.items key.now
            (option_map (λ rows. rows.now) rows.entry))) }
    {
        match rows {
            Some(rows) => self.with_rows(job, key, rows),
            None => Ok(self),
        }
    }
}

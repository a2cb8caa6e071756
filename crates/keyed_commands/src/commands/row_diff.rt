//! The answer to `diff` of tables that have no key: which rows went and which came. Rows are compared as wholes, in their order.
ghost use Rattle.std.specs.Prelude.{◌≡◌, ◌++◌, ◌∷◌, ◌⊎◌, [], IfErr, IfOk, OnOk, map, true};
ghost use Rattle.std.specs.List.{list_all};
ghost use Rattle.keyed_faults.specs.Outside.{IsApart};
ghost use Rattle.keyed_columns.specs.ColumnNames.{AreColumns};
ghost use Rattle.keyed_files.specs.Opening.{first_header, next_header};
ghost use Rattle.keyed_files.specs.Rows.{shown_sign};
ghost use Rattle.keyed_files.specs.Writing.{PutsRows, text_of};
ghost use Rattle.keyed_jobs.specs.Answers.{status_of};
ghost use Rattle.keyed_jobs.specs.ChangeRows.{changes_heading};
ghost use Rattle.keyed_jobs.specs.Unread.{ExplainsUnread};
ghost use Rattle.keyed_commands.specs.RowDiff.{AnswersRows, DiffsRowSources, DiffsRowStreams};
ghost use Rattle.keyed_commands.specs.RowDiff.{ReadsCells};
ghost use Rattle.keyed_commands.specs.Unanswered.{ExplainsRowDiff, ExplainsRowsOf, IsApartOf, files_of};
ghost use Rattle.keyed_commands.specs.RowDiff.{have_same_columns, is_kept, signed_row, signed_rows};
ghost use Rattle.keyed_requests.specs.declared.request.Format.TheVariants.{Csv};

use either_or_both::EitherOrBoth;
use keyed_columns::{ColumnChanges, Columns, Content, Tolerances};
use keyed_faults::{Fault, Reason, at};
use keyed_files::{Opened, Sign, Stream, Two, Written};
use keyed_jobs::{Answer, Outcome, begin_changes, read_rows};
use keyed_lines::{Part, compare_parts};
use keyed_reports::{Report, RowChange, write_report};
use keyed_requests::{ColumnsShown, Form, Format, Look, Picked, RowComparing, View};
use keyed_rows::{Cells, Key, ReadRow};
use keyed_tables::Order;
use std::alloc::{AllocError, Global};
use std::io;
use std::io::{ErrorKind, Read};

// What the steps share: how what is answered is written, the columns, and their names as changes have them.
#[derive(Clone, Copy)]
struct RowJob<'c> {
    alloc: Global,
    form: Form,
    how: RowComparing,
    columns: &'c Columns,
    marked: &'c Cells,
}

/// The answer to `diff` of two tables that have no key: each row that went and each that came, in their order. The status is 0 where all
/// rows stay, and else 1.
///
/// # Errors
///
/// Returns the fault of a table that can't be opened or read; of the second one `Io` with an error of invalid data if it has other columns
/// than the first, or the same in another order; also want of memory, as the fault of one of them.
pub fn diff_rows<'a, R: Read + Drop>(
    alloc: Global,
    form: Form,
    how: RowComparing,
    old: Stream<'a, R>,
    new: Stream<'a, R>,
) -> Result<Answer, Fault<'a>>
    ensures answer { IfOk result (DiffsRowStreams R.remaining form how.format old.entry new.entry) }
    ensures why { IfErr result (ExplainsRowDiff R.remaining form old.entry new.entry) }
{
    let mut versions = Two::new(alloc, form, Content::Rows, old, new)?;
    check_columns(&versions)?;
    let columns = columns_of_rows(alloc, &versions)?;
    let marked = versions.marked_names(alloc)?;
    let job = RowJob {
        alloc,
        form,
        how,
        columns: &columns,
        marked: &marked,
    };
    let answer = diff_row_files(job, &mut versions)?;
    Ok(answer)
}

// Tells that both tables have the same columns in the same order. A file with no row says nothing of columns.
fn check_columns<'a, R>(versions: &Two<'a, R>) -> Result<(), Fault<'a>>
    ensures columns { OnOk result
        (have_same_columns (first_header versions.now) (next_header versions.now) ≡ true) }
    ensures why { IfErr result (IsApartOf (files_of versions.now)) }
{
    let (old, new) = (versions.first.header(), versions.next.header());
    if have_same_columns(old, new) {
        Ok(())
    } else {
        Err(Fault {
            file: versions.next.file,
            reason: other_columns(),
        })
    }
}

fn have_same_columns(old: &Cells, new: &Cells) -> bool
    ensures { result ≡ have_same_columns old.now new.now }
{
    old.is_empty() || new.is_empty() || old == new
}

// Why the rows of a table can't be compared as wholes.
fn other_columns() -> Reason
    ensures { IsApart result }
{
    Reason::Io(io::Error::new(
        ErrorKind::InvalidData,
        "other columns than the first table, or in another order: compare by --key",
    ))
}

// The columns of both tables, none of which is a key.
fn columns_of_rows<'a, R>(alloc: Global, versions: &Two<'a, R>) -> Result<Columns, Fault<'a>>
    ensures columns { IfOk result (λ columns.
        AreColumns [] (next_header versions.now ∷ first_header versions.now ∷ []) columns) }
    ensures why { IfErr result (IsApartOf (files_of versions.now)) }
{
    let headers = [versions.next.header(), versions.first.header()];
    let columns = at(
        versions.first.file,
        Columns::new(alloc, Cells::new(alloc), &headers),
    )?;
    Ok(columns)
}

// The rows of both files compared, and the answer.
fn diff_row_files<'a, R: Read + Drop>(
    job: RowJob<'_>,
    versions: &mut Two<'a, R>,
) -> Result<Answer, Fault<'a>>
    ensures answer { IfOk result (DiffsRowSources R.remaining job.entry versions.old) }
    ensures why { IfErr result (λ fault. IsApartOf (files_of versions.old) fault
        ⊎ ExplainsRowsOf R.remaining job.entry.columns.now versions.old fault) }
{
    let before = read_cells(job, &mut versions.first)?;
    let after = read_cells(job, &mut versions.next)?;
    let answer = answer_rows(job, before, after);
    at(versions.next.file, answer)
}

// The rows of a table, in its order.
fn read_cells<'a, R: Read + Drop>(
    job: RowJob<'_>,
    table: &mut Opened<'a, R>,
) -> Result<Vec<Cells>, Fault<'a>>
    ensures cells { IfOk result (λ rows.
        ReadsCells R.remaining job.entry.columns.now table.old.source.value rows.items) }
    ensures named { table.new.file ≡ table.old.file }
    ensures file { IfErr result (λ fault. fault.file ≡ table.old.file) }
    ensures why { IfErr result (λ fault.
        ExplainsUnread R.remaining job.entry.columns.now table.old.source.value fault.reason) }
{
    let mut rows = Vec::new(job.alloc);
    let mut order = Order::by_key();
    at(
        table.file,
        read_rows(table, job.columns, &mut order, &mut rows),
    )?;
    let cells = at(table.file, cells_of(job.alloc, rows))?;
    Ok(cells)
}

// The cells of rows that have no key.
fn cells_of(alloc: Global, rows: Vec<ReadRow>) -> Result<Vec<Cells>, AllocError>
    ensures { IfOk result (λ cells. cells.items ≡ map (λ row. row.cells) rows.items) }
{
    let mut cells = Vec::new(alloc);
    for row in rows {
        cells.push(row.cells)?;
    }
    Ok(cells)
}

// What is answered of the rows of two tables.
fn answer_rows(job: RowJob<'_>, before: Vec<Cells>, after: Vec<Cells>) -> Result<Answer, Reason>
    ensures answer { IfOk result (AnswersRows job.entry.form job.entry.how.format job.entry.marked.now
        before.items after.items) }
    ensures why { IfErr result IsApart }
{
    let parts = compare_parts(job.alloc, before, after)?;
    let status = status_of(&parts);
    let bytes = write_parts(job, &parts)?;
    Ok(Answer {
        bytes,
        status,
        outcome: Outcome::Made,
    })
}

// The status: 0 where all rows stay, and else 1.
fn status_of(parts: &[Part<Cells>]) -> u8
    ensures { result ≡ status_of (list_all is_kept parts.now) }
{
    if are_kept(parts) { 0 } else { 1 }
}

// Whether all rows stay.
fn are_kept(parts: &[Part<Cells>]) -> bool
    ensures { result ≡ list_all is_kept parts.now }
{
    for part in parts {
        if !is_kept(part) {
            return false;
        }
    }
    true
}

fn is_kept(part: &Part<Cells>) -> bool
    ensures { result ≡ is_kept part.now }
{
    match part {
        Part::Kept(_, _) => true,
        Part::Removed(_) => false,
        Part::Added(_) => false,
    }
}

// The rows that went and came, in the form that is asked for.
fn write_parts(job: RowJob<'_>, parts: &[Part<Cells>]) -> Result<Vec<u8>, Reason>
    ensures text { IfOk result (λ text. job.entry.how.format ≡ Csv → text.items ≡ text_of job.entry.form
        (changes_heading job.entry.form job.entry.marked.now ++ signed_rows parts.now)) }
    ensures why { IfErr result IsApart }
{
    match job.how.format {
        Format::Csv => Ok(write_signed(job, parts)?),
        Format::Report(look) => report_parts(job, look, parts),
    }
}

// These rows as CSV.
fn write_signed(job: RowJob<'_>, parts: &[Part<Cells>]) -> Result<Vec<u8>, AllocError>
    ensures { IfOk result (λ text. text.items ≡ text_of job.entry.form
        (changes_heading job.entry.form job.entry.marked.now ++ signed_rows parts.now)) }
{
    let mut written = begin_changes(job.alloc, job.form, job.marked)?;
    put_parts(&mut written, parts)?;
    let text = written.finish()?;
    Ok(text)
}

// Puts the rows that went and came.
fn put_parts(written: &mut Written, parts: &[Part<Cells>]) -> Result<(), AllocError>
    ensures { OnOk result (PutsRows written.old written.new (signed_rows parts.now)) }
{
    for part in parts {
        put_part(written, part)?;
    }
    Ok(())
}

// Puts a row after its sign, if it went or came.
fn put_part(written: &mut Written, part: &Part<Cells>) -> Result<(), AllocError>
    ensures { OnOk result (PutsRows written.old written.new (signed_row part.now)) }
{
    match part {
        Part::Kept(_, _) => Ok(()),
        Part::Removed(row) => put_signed(written, Sign::Minus, row),
        Part::Added(row) => put_signed(written, Sign::Plus, row),
    }
}

// Puts a row after a sign.
fn put_signed(written: &mut Written, sign: Sign, row: &Cells) -> Result<(), AllocError>
    ensures { OnOk result (PutsRows written.old written.new ((shown_sign sign ∷ row.now) ∷ [])) }
{
    written.put_cell(sign.cell())?;
    written.put(row)?;
    written.end_row()?;
    Ok(())
}

// These rows as a report, of rows that have no key.
fn report_parts(job: RowJob<'_>, look: Look, parts: &[Part<Cells>]) -> Result<Vec<u8>, Reason>
    ensures { IfErr result IsApart }
{
    let key = Key::new(Cells::new(job.alloc));
    let rows = row_changes(job.alloc, &key, parts)?;
    report_rows(job, look, count_old(parts), &rows)
}

// The same, where the old table has so many rows.
fn report_rows<'r>(
    job: RowJob<'r>,
    look: Look,
    old_rows: usize,
    rows: &[RowChange<'r>],
) -> Result<Vec<u8>, Reason>
    ensures { IfErr result IsApart }
{
    let tolerances = Tolerances::new(job.alloc, None)?;
    let alikes = tolerances.alikes(job.alloc, job.columns)?;
    let names = &job.columns.rest;
    let report = Report::new(
        job.columns,
        ColumnChanges::new(names, names),
        view_of(job.how),
        &alikes,
        old_rows,
        rows,
    );
    Ok(write_report(job.alloc, look, &report)?)
}

// What such a report shows: each column, since a row that came or went is shown whole.
fn view_of<'r>(how: RowComparing) -> View<'r> {
    View {
        columns: Picked::All,
        shown: ColumnsShown::All,
        rows: how.rows,
        width: how.width,
    }
}

// The rows that went and came, under a key.
fn row_changes<'r>(
    alloc: Global,
    key: &'r Key,
    parts: &'r [Part<Cells>],
) -> Result<Vec<RowChange<'r>>, AllocError> {
    let mut rows = Vec::new(alloc);
    for part in parts {
        match part {
            Part::Kept(_, _) => {}
            Part::Removed(row) => rows.push((key, EitherOrBoth::Left(row)))?,
            Part::Added(row) => rows.push((key, EitherOrBoth::Right(row)))?,
        }
    }
    Ok(rows)
}

// How many rows the old table has.
fn count_old(parts: &[Part<Cells>]) -> usize {
    parts
        .iter()
        .filter(|part| !matches!(part, Part::Added(_)))
        .count()
}

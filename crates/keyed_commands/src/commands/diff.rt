//! The answer to `diff`, of streams: what changed between two tables.
//!
//! Like each command it has three steps: the headers are read, then the rows under their columns, and then the tables are answered.
ghost use Rattle.std.specs.Prelude.{◌≡◌, ◌↔◌, ◌==◌, ◌&&◌, IfErr, IfOk, None, is_none, length, not};
ghost use Rattle.keyed_faults.specs.Outside.{IsApart};
ghost use Rattle.keyed_reports.specs.TableLines.{TellsTable};
ghost use Rattle.keyed_requests.specs.declared.request.Format.TheVariants as format;
ghost use Rattle.keyed_columns.specs.ChangedColumns.{marked_columns};
ghost use Rattle.keyed_columns.specs.Keys.{AreChangeColumns, ArePickedColumns};
ghost use Rattle.keyed_columns.specs.declared.columns.Columns.{Columns};
ghost use Rattle.keyed_files.specs.Opening.{first_header, headers_of, next_header};
ghost use Rattle.keyed_tables.specs.Arranged.{noted};
ghost use Rattle.keyed_jobs.specs.Answers.{ChangesComeOut, IsDiffStatus, IsDiffText, columns_differ};
ghost use Rattle.keyed_jobs.specs.Answers.{status_of};
ghost use Rattle.keyed_jobs.specs.Beside.{AnswersBeside, DiffsBesideSources};
ghost use Rattle.keyed_jobs.specs.TablesRead.{DiffsSources};
ghost use Rattle.keyed_jobs.specs.declared.answer.Outcome.TheVariants.{Made};
ghost use Rattle.keyed_commands.specs.DiffOnly.{AreChangeColumnsBy, DiffsOnlySources, DiffsSourcesBy};
ghost use Rattle.keyed_commands.specs.DiffOnly.{DiffsStreamsBy};
ghost use Rattle.keyed_commands.specs.Reported.{AreComparedColumns, IsReport, ReportsSources, ReportsStreams};
ghost use Rattle.keyed_commands.specs.Reported.{TellsChanges};
ghost use Rattle.keyed_commands.specs.Unanswered.{ExplainsDiff, ExplainsVersions, IsApartOf, files_of};

use eob_joins::Change;
use keyed_columns::{
    ColumnChanges, Columns, Content, Tolerances, marked_columns, names_among, picked_columns,
};
use keyed_faults::{Fault, Reason, at};
use keyed_files::{Stream, Two};
use keyed_jobs::{
    Answer, Job, Outcome, Table, changed_beside, changed_by_number, compared_columns, write_changes,
};
use keyed_numbers::Alike;
use keyed_reports::{Report, count_rows, row_changes, write_report};
use keyed_requests::{Comparing, Format, Look, Picked, Settings};
use keyed_rows::{Cells, Group, Key};
use keyed_tables::changes_of;
use std::alloc::{AllocError, Global};
use std::io::Read;

/// The answer to `diff`.
///
/// # Errors
///
/// Returns the fault of a table that can't be opened or read, that lacks a column of the key, or in which a key stands twice where keys may
/// not repeat; of a column that is picked and is in neither table; also want of memory, as the fault of one of them.
pub fn diff<'a, R: Read + Drop>(
    alloc: Global,
    settings: Settings<'a>,
    how: Comparing<'_>,
    old: Stream<'a, R>,
    new: Stream<'a, R>,
) -> Result<Answer, Fault<'a>>
    ensures csv { IfOk result (λ answer. how.entry.format ≡ format.Csv →
        DiffsStreamsBy R.remaining how.entry.view.columns settings.entry old.entry new.entry answer) }
    ensures report { IfOk result (λ answer. IsReport how.entry.format → how.entry.sameness ≡ None →
        ReportsStreams R.remaining how.entry settings.entry old.entry new.entry answer) }
    ensures why { IfErr result (ExplainsDiff R.remaining settings.entry how.entry old.entry new.entry) }
{
    let mut versions = Two::new(alloc, settings.form, Content::Rows, old, new)?;
    versions.first.rename(alloc, settings)?;
    let columns = columns_of_diff(alloc, settings, how, &versions)?;
    diff_files(Job::new(alloc, settings, &columns), how, &mut versions)
}

// The columns of `diff`: as CSV those of the new table and then those that it lacks, and for a report those that are compared.
fn columns_of_diff<'a, R>(
    alloc: Global,
    settings: Settings<'_>,
    how: Comparing<'_>,
    versions: &Two<'a, R>,
) -> Result<Columns, Fault<'a>>
    ensures csv { IfOk result (λ columns. how.entry.format ≡ format.Csv
        → AreChangeColumnsBy how.entry.view.columns settings.entry.key (first_header versions.now)
        (next_header versions.now) columns) }
    ensures report { IfOk result (λ columns. IsReport how.entry.format →
        AreComparedColumns how.entry.view.columns settings.entry.key (headers_of versions.now) columns) }
    ensures why { IfErr result (IsApartOf (files_of versions.now)) }
{
    match how.format {
        Format::Csv => columns_changed(alloc, settings.key, how.view.columns, versions),
        Format::Report(_) => columns_compared(alloc, settings, how, versions),
    }
}

// The columns of changes: those of the new table and then those that it lacks; or of these the key and those that are picked alone.
fn columns_changed<'a, R>(
    alloc: Global,
    key: Option<&str>,
    picked: Picked<'_>,
    versions: &Two<'a, R>,
) -> Result<Columns, Fault<'a>>
    ensures columns { IfOk result (AreChangeColumnsBy picked.entry key.entry
        (first_header versions.now) (next_header versions.now)) }
    ensures why { IfErr result (IsApartOf (files_of versions.now)) }
{
    match picked {
        Picked::All => versions.change_columns(alloc, key),
        Picked::AllBut(_) => versions.change_columns(alloc, key),
        Picked::Only(_) => columns_only(alloc, key, picked, versions),
    }
}

// Those of the columns of changes that are picked.
fn columns_only<'a, R>(
    alloc: Global,
    key: Option<&str>,
    picked: Picked<'_>,
    versions: &Two<'a, R>,
) -> Result<Columns, Fault<'a>>
    ensures columns { IfOk result (λ columns. (all : Columns)
        × AreChangeColumns key.entry (first_header versions.now) (next_header versions.now) all
        × ArePickedColumns picked.entry all columns) }
    ensures why { IfErr result (IsApartOf (files_of versions.now)) }
{
    let all = versions.change_columns(alloc, key)?;
    let picked = picked_columns(alloc, picked, all);
    at(versions.next.file, picked)
}

// The columns of both tables that are picked.
fn columns_compared<'a, R>(
    alloc: Global,
    settings: Settings<'_>,
    how: Comparing<'_>,
    versions: &Two<'a, R>,
) -> Result<Columns, Fault<'a>>
    ensures columns { IfOk result
        (AreComparedColumns how.entry.view.columns settings.entry.key (headers_of versions.now)) }
    ensures why { IfErr result (IsApartOf (files_of versions.now)) }
{
    let all = versions.columns(alloc, settings.key)?;
    let tolerances = at(versions.next.file, Tolerances::new(alloc, how.sameness))?;
    at(versions.next.file, tolerances.check_known(alloc, &all))?;
    let picked = picked_columns(alloc, how.view.columns, all);
    at(versions.next.file, picked)
}

fn diff_files<'a, R: Read + Drop>(
    job: Job<'_, Columns>,
    how: Comparing<'_>,
    versions: &mut Two<'a, R>,
) -> Result<Answer, Fault<'a>>
    ensures csv { IfOk result (λ answer. how.entry.format ≡ format.Csv →
        DiffsSourcesBy R.remaining how.entry.view.columns job.entry versions.old answer) }
    ensures report { IfOk result (λ answer. IsReport how.entry.format → how.entry.sameness ≡ None →
        ReportsSources R.remaining job.entry how.entry versions.old answer) }
    ensures why { IfErr result
        (ExplainsVersions R.remaining job.entry.groups job.entry.columns.now versions.old) }
{
    match how.format {
        Format::Csv => diff_files_picked(job, how.view.columns, versions),
        Format::Report(look) => diff_files_as_report(job, look, how, versions),
    }
}

// The changes between the rows of two files as CSV: of a row that differs in columns alone that are ignored, or not picked, there is none.
fn diff_files_picked<'a, R: Read + Drop>(
    job: Job<'_, Columns>,
    picked: Picked<'_>,
    versions: &mut Two<'a, R>,
) -> Result<Answer, Fault<'a>>
    ensures answer { IfOk result (DiffsSourcesBy R.remaining picked.entry job.entry versions.old) }
    ensures why { IfErr result
        (ExplainsVersions R.remaining job.entry.groups job.entry.columns.now versions.old) }
{
    match picked {
        Picked::All => diff_files_as_csv(job, versions),
        Picked::Only(_) => diff_files_only(job, versions),
        Picked::AllBut(ignored) => diff_files_beside(job, ignored, versions),
    }
}

// The same of the key and some columns alone.
fn diff_files_only<'a, R: Read + Drop>(
    mut job: Job<'_, Columns>,
    versions: &mut Two<'a, R>,
) -> Result<Answer, Fault<'a>>
    ensures answer { IfOk result (DiffsOnlySources R.remaining job.entry versions.old) }
    ensures why { IfErr result
        (ExplainsVersions R.remaining job.entry.groups job.entry.columns.now versions.old) }
{
    let tables = job.read_both(versions)?;
    let marked = names_marked(job.alloc, job.columns, versions)?;
    let earlier = names_among(job.alloc, versions.first.header(), job.columns);
    let earlier = at(versions.first.file, earlier)?;
    let later = names_among(job.alloc, versions.next.header(), job.columns);
    let later = at(versions.next.file, later)?;
    let columns = ColumnChanges::new(&earlier, &later);
    let (old, new) = tables;
    let answer = diff_as_csv(&job, columns, &marked, old, new);
    at(versions.next.file, answer)
}

// The names of these columns, each with the mark of what became of it.
fn names_marked<'a, R>(
    alloc: Global,
    columns: &Columns,
    versions: &Two<'a, R>,
) -> Result<Cells, Fault<'a>>
    ensures marked { IfOk result (λ marked. marked
        ≡ marked_columns columns.now (first_header versions.now) (next_header versions.now)) }
    ensures why { IfErr result (IsApartOf (files_of versions.now)) }
{
    let marked = marked_columns(
        alloc,
        columns,
        versions.first.header(),
        versions.next.header(),
    );
    at(versions.next.file, marked)
}

// The same where columns are ignored.
fn diff_files_beside<'a, R: Read + Drop>(
    mut job: Job<'_, Columns>,
    ignored: &str,
    versions: &mut Two<'a, R>,
) -> Result<Answer, Fault<'a>>
    ensures answer { IfOk result (DiffsBesideSources R.remaining job.entry ignored.now versions.old) }
    ensures why { IfErr result
        (ExplainsVersions R.remaining job.entry.groups job.entry.columns.now versions.old) }
{
    let (before, after) = (versions.first.header(), versions.next.header());
    let compared = compared_columns(job.alloc, ignored, job.columns, before, after);
    let compared = at(versions.next.file, compared)?;
    let tables = job.read_both(versions)?;
    let marked = versions.marked_names(job.alloc)?;
    let (old, new) = tables;
    let answer = diff_beside(
        &job,
        versions.column_changes(),
        &marked,
        &compared,
        old,
        new,
    );
    at(versions.next.file, answer)
}

// The answer to `diff` as CSV where these columns are compared.
fn diff_beside(
    job: &Job<'_, Columns>,
    columns: ColumnChanges<'_>,
    marked: &Cells,
    compared: &[bool],
    old: Table,
    new: Table,
) -> Result<Answer, AllocError>
    ensures { IfOk result (AnswersBeside job.now.form job.now.columns.now (noted job.now.order)
        (is_none job.now.row_order.files) compared.now marked.now (columns_differ columns.entry)
        old.pairs.items new.pairs.items) }
{
    let all = changes_shown(job, old, new)?;
    let changes = changed_beside(job.alloc, compared, all)?;
    let status = diff_status(job.alloc, columns, &changes)?;
    let bytes = write_changes(job, marked, changes)?;
    Ok(Answer {
        bytes,
        status,
        outcome: Outcome::Made,
    })
}

// The changes between the rows of two files as CSV.
fn diff_files_as_csv<'a, R: Read + Drop>(
    mut job: Job<'_, Columns>,
    versions: &mut Two<'a, R>,
) -> Result<Answer, Fault<'a>>
    ensures answer { IfOk result (DiffsSources R.remaining job.entry versions.old) }
    ensures why { IfErr result
        (ExplainsVersions R.remaining job.entry.groups job.entry.columns.now versions.old) }
{
    let tables = job.read_both(versions)?;
    let marked = versions.marked_names(job.alloc)?;
    let (old, new) = tables;
    let answer = diff_as_csv(&job, versions.column_changes(), &marked, old, new);
    at(versions.next.file, answer)
}

// The answer to `diff` as CSV: the changes, after the names of the columns as they are marked. Its status is 0 exactly where both
// tables are the same and no column comes or goes.
fn diff_as_csv(
    job: &Job<'_, Columns>,
    columns: ColumnChanges<'_>,
    marked: &Cells,
    old: Table,
    new: Table,
) -> Result<Answer, AllocError>
    ensures text { IfOk result (λ answer. IsDiffText job.now.form job.now.columns.now (noted job.now.order)
        (is_none job.now.row_order.files) marked.now old.pairs.items new.pairs.items answer.bytes.items) }
    ensures status { IfOk result (λ answer.
        IsDiffStatus columns.entry old.pairs.items new.pairs.items answer.status) }
    ensures outcome { IfOk result (λ answer. answer.outcome ≡ Made) }
{
    let changes = changes_shown(job, old, new)?;
    let status = diff_status(job.alloc, columns, &changes)?;
    let bytes = write_changes(job, marked, changes)?;
    Ok(Answer {
        bytes,
        status,
        outcome: Outcome::Made,
    })
}

// The changes between the rows of two files as a person or another program reads them, of the columns that are compared.
fn diff_files_as_report<'a, R: Read + Drop>(
    mut job: Job<'_, Columns>,
    look: Look,
    how: Comparing<'_>,
    versions: &mut Two<'a, R>,
) -> Result<Answer, Fault<'a>>
    ensures answer { IfOk result (λ answer. how.entry.sameness ≡ None → how.entry.format ≡ format.Report look
        → ReportsSources R.remaining job.entry how.entry versions.old answer) }
    ensures why { IfErr result
        (ExplainsVersions R.remaining job.entry.groups job.entry.columns.now versions.old) }
{
    let tables = job.read_both(versions)?;
    let before = names_among(job.alloc, versions.first.header(), job.columns);
    let before = at(versions.first.file, before)?;
    let after = names_among(job.alloc, versions.next.header(), job.columns);
    let after = at(versions.next.file, after)?;
    let columns = ColumnChanges::new(&before, &after);
    let (old, new) = tables;
    let answer = diff_as_report(&job, look, how, columns, old, new);
    at(versions.next.file, answer)
}

fn diff_as_report<'a>(
    job: &Job<'a, Columns>,
    look: Look,
    how: Comparing<'a>,
    column_changes: ColumnChanges<'a>,
    old: Table,
    new: Table,
) -> Result<Answer, Reason>
    ensures status { IfOk result (λ answer. how.entry.sameness ≡ None →
        IsDiffStatus column_changes.entry old.pairs.items new.pairs.items answer.status) }
    ensures table { IfOk result (λ answer. how.entry.sameness ≡ None → TellsTable look how.entry.view →
        TellsChanges how.entry.view job.now.groups job.now.columns.now (noted job.now.order)
        (is_none job.now.row_order.files) old.pairs.items new.pairs.items answer.bytes.items) }
    ensures why { IfErr result IsApart }
{
    let tolerances = Tolerances::new(job.alloc, how.sameness)?;
    let alikes = tolerances.alikes(job.alloc, job.columns)?;
    let old_rows = count_rows(&old.pairs);
    let changes = compared(job, how, &alikes, old, new)?;
    let status = diff_status(job.alloc, column_changes, &changes)?;
    let rows = row_changes(job.alloc, job.groups, &changes)?;
    let report = Report::new(
        job.columns,
        column_changes,
        how.view,
        &alikes,
        old_rows,
        &rows,
    );
    let bytes = write_report(job.alloc, look, &report)?;
    Ok(Answer {
        bytes,
        status,
        outcome: Outcome::Made,
    })
}

// The changes between two tables. Where cells are not compared as they stand, rows whose cells are the same as their columns are compared
// did not change.
fn compared(
    job: &Job<'_, Columns>,
    how: Comparing<'_>,
    alikes: &[Alike<'_>],
    old: Table,
    new: Table,
) -> Result<Vec<(Key, Change<Group>)>, AllocError>
    ensures changes { IfOk result (λ shown. how.entry.sameness ≡ None → ChangesComeOut (noted job.now.order)
        (is_none job.now.row_order.files) old.pairs.items new.pairs.items shown.items) }
    ensures none { IfOk result (λ shown. how.entry.sameness ≡ None →
        (length shown.items ≡ 0) ↔ (old.pairs.items ≡ new.pairs.items)) }
{
    let changes = changes_shown(job, old, new)?;
    match how.sameness {
        Some(_) => changed_by_number(job.alloc, alikes, changes),
        None => Ok(changes),
    }
}

// The changes between two tables, as they come out: none exactly where the tables are the same.
fn changes_shown(
    job: &Job<'_, Columns>,
    old: Table,
    new: Table,
) -> Result<Vec<(Key, Change<Group>)>, AllocError>
    ensures changes { IfOk result (λ shown. ChangesComeOut (noted job.now.order)
        (is_none job.now.row_order.files) old.pairs.items new.pairs.items shown.items) }
    ensures none { IfOk result (λ shown. (length shown.items ≡ 0) ↔ (old.pairs.items ≡ new.pairs.items)) }
{
    let changes = changes_of(job.alloc, old, new)?;
    let shown = job.arrange(changes)?;
    Ok(shown)
}

// The status of `diff`: 0 where there is no change and no column comes or goes, and else 1.
fn diff_status(
    alloc: Global,
    columns: ColumnChanges<'_>,
    changes: &[(Key, Change<Group>)],
) -> Result<u8, AllocError>
    ensures { IfOk result (λ status. status
        ≡ status_of ((length changes.now == 0) && not (columns_differ columns.entry))) }
{
    let is_same = changes.is_empty() && !columns.has_lone(alloc)?;
    Ok(if is_same { 0 } else { 1 })
}

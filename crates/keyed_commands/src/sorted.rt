//! Tables whose keys strictly increase, compared and joined as they are read: part by part, so that memory does not grow with the tables.
//!
//! Where all rows of both tables up to a key are read, their join is the first part of the whole join (`law_cut_join` of `eob_joins`).
ghost use Rattle.std.specs.Prelude.{◌≡◌, ◌==◌, ◌↔◌, ◌⊎◌, IfErr, IfOk, IfSome, IsNone, List, false, is_none, length};
ghost use Rattle.std.specs.Prelude.{if◌then◌else◌, option_map, true};
ghost use Rattle.keyed_faults.specs.Outside.{IsApart};
ghost use Rattle.keyed_requests.specs.declared.request.RowFormat.TheVariants.{Csv};
ghost use Rattle.keyed_requests.specs.declared.request.SortedChanges.TheVariants as told;
ghost use Rattle.keyed_columns.specs.Keys.{AreChangeColumns};
ghost use Rattle.keyed_files.specs.Opening.{first_header, headers_of, next_header};
ghost use Rattle.keyed_files.specs.Parts.{TakesUpTo, key_cmp};
ghost use Rattle.keyed_rows.specs.declared.row.ReadRow.{ReadRow};
ghost use Rattle.keyed_tables.specs.Arranged.{noted};
ghost use Rattle.keyed_jobs.specs.Answers.{status_of};
ghost use Rattle.keyed_jobs.specs.TablesRead.{Gathers};
ghost use Rattle.keyed_jobs.specs.Written.{PutsBeginning};
ghost use Rattle.keyed_commands.specs.JoinAnswers.{IsJoinText};
ghost use Rattle.keyed_commands.specs.Keys.{IsAtMost};
ghost use Rattle.keyed_commands.specs.PartAnswers.{IsByKey, SaysChanges, SaysChangesIn, SaysOf};
ghost use Rattle.keyed_commands.specs.PartAnswers.{left_columns, on_later, right_columns, status_both};
ghost use Rattle.keyed_commands.specs.Reported.{AreComparedColumns};
ghost use Rattle.keyed_commands.specs.SortedBegun.{DiffsStreamsBegun, JoinsStreamsBegun, DiffsFirst};
ghost use Rattle.keyed_commands.specs.SortedParts.{BeginsLater, IsFresh, IsLesser, ReadsNext, TakesPart};
ghost use Rattle.keyed_commands.specs.SortedParts.{SaysFirst, SaysNext, SaysTaken};
ghost use Rattle.keyed_commands.specs.SortedParts.{WritesAll, WritesLater, WritesPart, WritesTables};
ghost use Rattle.keyed_commands.specs.SortedParts.{bound_of};
ghost use Rattle.keyed_commands.specs.SortedTexts.{DiffsInParts, DiffsStreamsInParts, JoinsStreamsInParts};
ghost use Rattle.keyed_commands.specs.Unanswered.{IsApartOf, files_of};
ghost use Rattle.keyed_commands.specs.UnansweredSorted.{ExplainsDiffSorted, ExplainsJoinSorted};
ghost use Rattle.keyed_commands.specs.UnansweredSorted.{ExplainsParts, ExplainsRest, ExplainsRisingTables};
ghost use Rattle.keyed_commands.specs.UnansweredSorted.{ExplainsRisingVersions, ExplainsTaking};
ghost use Rattle.keyed_commands.specs.UnansweredSorted.{ExplainsTakingNext, ExplainsWriting, IsOfOne};
ghost use Rattle.keyed_commands.specs.UnansweredSorted.{files_in};

use crate::commands::join::JoinForm;
use crate::commands::join_json::write_join;
use crate::finished::{Finished, SideCounts, StreamCounts};
use eob_joins::Change;
use keyed_columns::{
    ColumnChanges, Columns, Content, JoinColumns, LoneColumns, Tolerances, names_among,
    picked_columns,
};
use keyed_faults::{Fault, Reason, at};
use keyed_files::{Parts, Stream, Two};
use keyed_jobs::{Job, Table, changed_by_number, put_on_output, write_changes};
use keyed_reports::{Counts, count, count_rows, json_columns, json_rows, row_changes};
use keyed_requests::{Heading, Joining, Layout, Picked, Sameness, SortedChanges};
use keyed_rows::{Cells, Group, Key, Release};
use keyed_tables::{changes_of, unique_rows};
use std::alloc::{AllocError, Global};
use std::io::{Read, Write};

// What is written of the parts of two tables.
#[derive(Drop)]
enum Work<'c> {
    Changes(Job<'c, Columns>, ChangesForm<'c>),
    Join(Job<'c, JoinColumns>, JoinForm),
}

// How changes are written.
#[derive(Drop)]
enum ChangesForm<'c> {
    // As CSV, with the names of the columns as they are marked.
    Csv(Cells),
    // As JSON, with cells compared so, or as they stand.
    Json(Option<Sameness<'c>>),
}

// What there is to say of a part.
#[derive(Drop)]
struct PartAnswer {
    bytes: Vec<u8>,
    status: u8,
    counts: StreamCounts,
}

impl Work<'_> {
    // The columns of the left table and of the right one.
    fn columns(&self) -> (&Columns, &Columns)
        ensures left { result.0.now ≡ left_columns self.now }
        ensures right { result.1.now ≡ right_columns self.now }
    {
        match self {
            Work::Changes(job, _) => (job.columns, job.columns),
            Work::Join(job, _) => (&job.columns.left, &job.columns.right),
        }
    }

    // The counts of no row.
    fn no_counts(&self) -> StreamCounts {
        match self {
            Work::Changes(..) => StreamCounts::Changes(Counts::NONE),
            Work::Join(..) => StreamCounts::Rows(SideCounts { left: 0, right: 0 }),
        }
    }

    // What there is to say of a part, where rows come out in the order of their keys.
    fn answer(&self, part: Part) -> Result<PartAnswer, Reason>
        ensures says { IfOk result (λ answer. IsByKey self.now → SaysOf self.now
            part.left.pairs.items part.right.pairs.items answer.bytes.items answer.status) }
        ensures why { IfErr result IsApart }
    {
        match self {
            Work::Changes(job, form) => {
                let answer = changes_of_part(job, form, part)?;
                Ok(answer)
            }
            Work::Join(job, form) => {
                let answer = join_of_part(job, form, part)?;
                Ok(answer)
            }
        }
    }

    // One heading stands before all parts.
    fn leave_header(&mut self)
        ensures { self.new ≡ on_later self.old }
    {
        match self {
            Work::Changes(job, _) => job.form.writing.heading = Heading::Omitted,
            Work::Join(job, _) => job.form.writing.heading = Heading::Omitted,
        }
    }
}

// The changes of a part. Each key has one row.
fn changes_of_part(
    job: &Job<'_, Columns>,
    form: &ChangesForm<'_>,
    part: Part,
) -> Result<PartAnswer, Reason>
    ensures says { IfOk result (λ answer. SaysChangesIn job.now.form job.now.columns.now form.now
        part.left.pairs.items part.right.pairs.items answer.bytes.items answer.status) }
    ensures why { IfErr result IsApart }
{
    match form {
        ChangesForm::Csv(marked) => {
            let answer = csv_of_part(job, marked, part)?;
            Ok(answer)
        }
        ChangesForm::Json(sameness) => json_of_part(job, *sameness, part),
    }
}

// The same as CSV, with the names of the columns as they are marked.
fn csv_of_part(job: &Job<'_, Columns>, marked: &Cells, part: Part) -> Result<PartAnswer, AllocError>
    ensures { IfOk result (λ answer. SaysChanges job.now.form job.now.columns.now marked.now
        part.left.pairs.items part.right.pairs.items answer.bytes.items answer.status) }
{
    let old_rows = count_rows(&part.left.pairs);
    let changes = changes_of(job.alloc, part.left, part.right)?;
    let counts = StreamCounts::Changes(count(old_rows, &changes));
    let status = changes_status(&changes);
    let bytes = write_changes(job, marked, changes)?;
    Ok(PartAnswer {
        bytes,
        status,
        counts,
    })
}

// The same as JSON, with cells compared so, or as they stand.
fn json_of_part(
    job: &Job<'_, Columns>,
    sameness: Option<Sameness<'_>>,
    part: Part,
) -> Result<PartAnswer, Reason>
    ensures why { IfErr result IsApart }
{
    let tolerances = Tolerances::new(job.alloc, sameness)?;
    let alikes = tolerances.alikes(job.alloc, job.columns)?;
    let old_rows = count_rows(&part.left.pairs);
    let changes = changes_of(job.alloc, part.left, part.right)?;
    let changes = match sameness {
        Some(_) => changed_by_number(job.alloc, &alikes, changes)?,
        None => changes,
    };
    let rows = row_changes(job.alloc, false, &changes)?;
    Ok(PartAnswer {
        bytes: json_rows(job.alloc, job.columns, &alikes, &rows)?,
        status: changes_status(&changes),
        counts: StreamCounts::Changes(count(old_rows, &changes)),
    })
}

// The status of changes: 0 where there are none, and else 1.
fn changes_status(changes: &[(Key, Change<Group>)]) -> u8
    ensures { result ≡ status_of (length changes.now == 0) }
{
    if changes.is_empty() { 0 } else { 1 }
}

// The join of a part.
fn join_of_part(
    job: &Job<'_, JoinColumns>,
    form: &JoinForm,
    part: Part,
) -> Result<PartAnswer, AllocError>
    ensures text { IfOk result (λ answer. form.now.format ≡ Csv → IsJoinText job.now.form job.now.columns.now
        form.now.header (noted job.now.order) (is_none job.now.row_order.files) form.now.kind
        part.left.pairs.items part.right.pairs.items answer.bytes.items) }
    ensures status { IfOk result (λ answer. answer.status ≡ 0) }
{
    let counts = StreamCounts::Rows(SideCounts {
        left: count_rows(&part.left.pairs),
        right: count_rows(&part.right.pairs),
    });
    let bytes = write_join(job, form, part.left, part.right)?;
    Ok(PartAnswer {
        bytes,
        status: 0,
        counts,
    })
}

// The counts of two parts.
fn sum_of(counts: StreamCounts, others: StreamCounts) -> StreamCounts {
    match counts {
        StreamCounts::Changes(counts) => match others {
            StreamCounts::Changes(others) => StreamCounts::Changes(counts.plus(others)),
            StreamCounts::Rows(_) => others,
        },
        StreamCounts::Rows(counts) => match others {
            StreamCounts::Rows(others) => StreamCounts::Rows(counts.plus(others)),
            StreamCounts::Changes(_) => others,
        },
    }
}

/// Writes the changes between two tables while they are read, and returns the status, and how many rows changed.
///
/// # Errors
///
/// Returns the fault of a table that can't be opened or read, that lacks a column of the key, or in which a key is not greater than the one
/// before it, of a column that is picked and is in neither table, and that of the output; also want of memory. Whole rows may be written by
/// then.
pub fn diff_sorted<'a, R: Read + Drop, W: Write>(
    alloc: Global,
    layout: Layout<'a>,
    how: SortedChanges<'_>,
    old: Stream<'a, R>,
    new: Stream<'a, R>,
    output: &mut W,
) -> Result<Finished, Fault<'a>>
    ensures whole { IfOk result (λ finished. how.entry ≡ told.Csv →
        DiffsStreamsInParts R.remaining layout.entry old.entry new.entry
        (W.contents output.old) (W.contents output.new) finished.status) }
    ensures begun { IfErr result (λ fault. how.entry ≡ told.Csv →
        DiffsStreamsBegun R.remaining layout.entry old.entry new.entry fault.file.now
        (W.contents output.old) (W.contents output.new)) }
    ensures why { IfErr result (ExplainsDiffSorted R.remaining layout.entry how.entry old.entry new.entry) }
{
    let mut versions = Two::new(alloc, layout.form, Content::Rows, old, new)?;
    versions.first.rename_key(alloc, layout.key)?;
    match how {
        SortedChanges::Csv => diff_as_csv(alloc, layout, versions, output),
        SortedChanges::Json { columns, sameness } => {
            let columns = columns_compared(alloc, layout, columns, sameness, &versions)?;
            diff_as_json(alloc, layout, &columns, sameness, versions, output)
        }
    }
}

// The same as CSV, of the columns of both tables.
fn diff_as_csv<'a, R: Read + Drop, W: Write>(
    alloc: Global,
    layout: Layout<'a>,
    versions: Two<'a, R>,
    output: &mut W,
) -> Result<Finished, Fault<'a>>
    ensures whole { IfOk result (λ finished. DiffsInParts R.remaining layout.entry versions.entry
        (W.contents output.old) (W.contents output.new) finished.status) }
    ensures begun { IfErr result (λ fault. PutsBeginning (DiffsFirst R.remaining layout.entry versions.entry)
        fault.file.now (W.contents output.old) (W.contents output.new)) }
    ensures why { IfErr result (ExplainsRisingVersions R.remaining (AreChangeColumns layout.entry.key
        (first_header versions.entry) (next_header versions.entry)) versions.entry) }
{
    let marked = versions.marked_names(alloc)?;
    let columns = versions.change_columns(alloc, layout.key)?;
    let differ = at(
        versions.next.file,
        versions.column_changes().has_lone(alloc),
    )?;
    let form = ChangesForm::Csv(marked);
    let mut work = Work::Changes(Job::sorted(alloc, layout, &columns), form);
    let finished = write_tables(alloc, &mut work, versions, output)?;
    Ok(Finished {
        status: status_with(finished.status, differ),
        counts: finished.counts,
    })
}

// The status of changes where columns come or go, or do not.
fn status_with(status: u8, differ: bool) -> u8
    ensures { result ≡ (if differ then 1 else status) }
{
    if differ { 1 } else { status }
}

// The same as JSON, of these columns, whose cells are compared so, or as they stand.
fn diff_as_json<'a, R: Read + Drop, W: Write>(
    alloc: Global,
    layout: Layout<'a>,
    columns: &Columns,
    sameness: Option<Sameness<'_>>,
    versions: Two<'a, R>,
    output: &mut W,
) -> Result<Finished, Fault<'a>>
    ensures why { IfErr result (ExplainsRisingTables R.remaining columns.now columns.now versions.entry) }
{
    let lone = at(versions.next.file, lone_among(alloc, &versions, columns))?;
    let told = at(versions.next.file, json_columns(alloc, &lone))?;
    at("the standard output", output.write_all(&told))?;
    let form = ChangesForm::Json(sameness);
    let mut work = Work::Changes(Job::sorted(alloc, layout, columns), form);
    let finished = write_tables(alloc, &mut work, versions, output)?;
    Ok(Finished {
        status: status_with(finished.status, !lone.is_empty()),
        counts: finished.counts,
    })
}

// The columns of both tables that are picked.
fn columns_compared<'a, R>(
    alloc: Global,
    layout: Layout<'_>,
    picked: Picked<'_>,
    sameness: Option<Sameness<'_>>,
    versions: &Two<'a, R>,
) -> Result<Columns, Fault<'a>>
    ensures columns { IfOk result
        (AreComparedColumns picked.entry layout.entry.key (headers_of versions.now)) }
    ensures why { IfErr result (IsApartOf (files_of versions.now)) }
{
    let columns = versions.columns(alloc, layout.key)?;
    let tolerances = at(versions.next.file, Tolerances::new(alloc, sameness))?;
    at(versions.next.file, tolerances.check_known(alloc, &columns))?;
    at(versions.next.file, picked_columns(alloc, picked, columns))
}

// Those of these columns that one table alone has.
fn lone_among<R>(
    alloc: Global,
    versions: &Two<'_, R>,
    columns: &Columns,
) -> Result<LoneColumns, AllocError> {
    let before = names_among(alloc, versions.first.header(), columns)?;
    let after = names_among(alloc, versions.next.header(), columns)?;
    ColumnChanges::new(&before, &after).lone(alloc)
}

/// Writes a join of two tables while they are read, and returns the status, and how many rows each has.
///
/// # Errors
///
/// Returns the fault of a table that can't be opened or read, that lacks a column of the key, or in which a key is not greater than the one
/// before it, and that of the output; also want of memory. Whole rows may be written by then.
pub fn join_sorted<'a, R: Read + Drop, W: Write>(
    alloc: Global,
    layout: Layout<'a>,
    how: Joining<'a>,
    left: Stream<'a, R>,
    right: Stream<'a, R>,
    output: &mut W,
) -> Result<Finished, Fault<'a>>
    ensures whole { IfOk result (λ finished. how.entry.format ≡ Csv →
        JoinsStreamsInParts R.remaining layout.entry how.entry left.entry right.entry
        (W.contents output.old) (W.contents output.new) finished.status) }
    ensures begun { IfErr result (λ fault. how.entry.format ≡ Csv →
        JoinsStreamsBegun R.remaining layout.entry how.entry left.entry right.entry fault.file.now
        (W.contents output.old) (W.contents output.new)) }
    ensures why { IfErr result (ExplainsJoinSorted R.remaining layout.entry left.entry right.entry) }
{
    let sides = Two::new(alloc, layout.form, Content::Rows, left, right)?;
    let columns = sides.join_columns(alloc, layout.key)?;
    let made = JoinForm::new(alloc, layout.form, how, &columns);
    let form = at(sides.next.file, made)?;
    let mut work = Work::Join(Job::sorted(alloc, layout, &columns), form);
    let finished = write_tables(alloc, &mut work, sides, output)?;
    Ok(finished)
}

// Two tables that are read part by part.
#[derive(Drop)]
struct TwoParts<'a, R> {
    left: Parts<'a, R>,
    right: Parts<'a, R>,
}

// The rows of both tables up to a key, and whether they are the last.
#[derive(Drop)]
struct Part {
    left: Table,
    right: Table,
    is_last: bool,
}

// What became of the parts that are written: the status, the counts of their rows, and whether they are all.
#[derive(Clone, Copy)]
struct PartWritten {
    status: u8,
    counts: StreamCounts,
    is_last: bool,
}

impl PartWritten {
    // What became of these parts and of the one after them.
    fn and(self, next: PartWritten) -> Self
        ensures status { result.status ≡ status_both self.status next.status }
        ensures last { result.is_last ≡ next.is_last }
    {
        PartWritten {
            status: if self.status == 0 {
                next.status
            } else {
                self.status
            },
            counts: sum_of(self.counts, next.counts),
            is_last: next.is_last,
        }
    }
}

// Writes what there is to say of two tables while they are read, and returns what it comes to.
fn write_tables<'a, R: Read + Drop, W: Write>(
    alloc: Global,
    work: &mut Work<'_>,
    tables: Two<'a, R>,
    output: &mut W,
) -> Result<Finished, Fault<'a>>
    ensures whole { IfOk result (λ finished. IsByKey work.old → WritesTables R.remaining work.old tables.entry
        (W.contents output.old) (W.contents output.new) finished.status) }
    ensures begun { IfErr result (λ fault. IsByKey work.old
        → PutsBeginning (SaysFirst R.remaining work.old tables.entry) fault.file.now (W.contents output.old)
        (W.contents output.new)) }
    ensures why { IfErr result (λ fault. IsByKey work.old → ExplainsRisingTables R.remaining
        (left_columns work.old) (right_columns work.old) tables.entry fault) }
{
    let (left_columns, right_columns) = work.columns();
    let left = Parts::new(alloc, tables.first, left_columns)?;
    let right = Parts::new(alloc, tables.next, right_columns)?;
    let finished = write_parts(alloc, work, &mut TwoParts { left, right }, output)?;
    Ok(finished)
}

// Writes what there is to say of two tables of which no row is taken yet.
fn write_parts<'a, R: Read + Drop, W: Write>(
    alloc: Global,
    work: &mut Work<'_>,
    tables: &mut TwoParts<'a, R>,
    output: &mut W,
) -> Result<Finished, Fault<'a>>
    ensures whole { IfOk result (λ finished. IsByKey work.old → IsFresh tables.old.left
        → IsFresh tables.old.right → WritesAll R.remaining work.old tables.old
        (W.contents output.old) (W.contents output.new) finished.status) }
    ensures begun { IfErr result (λ fault. IsByKey work.old → IsFresh tables.old.left
        → IsFresh tables.old.right → PutsBeginning (SaysTaken R.remaining work.old tables.old) fault.file.now
        (W.contents output.old) (W.contents output.new)) }
    ensures why { IfErr result (λ fault. IsByKey work.old → IsFresh tables.old.left
        → IsFresh tables.old.right → ExplainsParts R.remaining tables.old fault) }
{
    let first = write_part(alloc, work, tables, output)?;
    work.leave_header();
    let whole = write_later(alloc, work, tables, first, output)?;
    at("the standard output", output.flush())?;
    Ok(Finished {
        status: whole.status,
        counts: Some(whole.counts),
    })
}

// Writes what there is to say of the parts after the first one. No input has more parts than a number counts.
fn write_later<'a, R: Read + Drop, W: Write>(
    alloc: Global,
    work: &Work<'_>,
    tables: &mut TwoParts<'a, R>,
    first: PartWritten,
    output: &mut W,
) -> Result<PartWritten, Fault<'a>>
    ensures last { IfOk result (λ whole. whole.is_last ≡ true) }
    ensures rest { IfOk result (WritesLater R.remaining work.now tables.old tables.new
        (W.contents output.old) (W.contents output.new) first) }
    ensures begun { IfErr result (λ fault. BeginsLater R.remaining work.now tables.old
        (W.contents output.old) (W.contents output.new) first fault.file.now) }
    ensures why { IfErr result
        (ExplainsRest R.remaining work.now tables.old (W.contents output.old) first) }
{
    let mut whole = first;
    for _ in 0..u64::MAX {
        let is_last = whole.is_last;
        if is_last {
            return Ok(whole);
        }
        let next = write_part(alloc, work, tables, output)?;
        whole = whole.and(next);
    }
    Err(Fault {
        file: tables.right.file,
        reason: Reason::NoMemory,
    })
}

// Writes what there is to say of the next part.
fn write_part<'a, R: Read + Drop, W: Write>(
    alloc: Global,
    work: &Work<'_>,
    tables: &mut TwoParts<'a, R>,
    output: &mut W,
) -> Result<PartWritten, Fault<'a>>
    ensures whole { IfOk result (λ written. IsByKey work.now → WritesPart R.remaining work.now
        tables.old tables.new (W.contents output.old) (W.contents output.new) written) }
    ensures begun { IfErr result (λ fault. IsByKey work.now
        → PutsBeginning (SaysNext R.remaining work.now tables.old) fault.file.now (W.contents output.old) (W.contents output.new)) }
    ensures why { IfErr result (λ fault. ExplainsWriting (files_in tables.old)
        (IsOfOne (ExplainsTakingNext R.remaining) tables.old fault) fault) }
{
    let part = next_part(alloc, tables)?;
    let is_last = part.is_last;
    let answer = at(tables.right.file, work.answer(part))?;
    put_on_output(output, &answer.bytes)?;
    Ok(PartWritten {
        status: answer.status,
        counts: answer.counts,
        is_last,
    })
}

// Reads both tables on, and takes the rows of both as far as all are read.
fn next_part<'a, R: Read + Drop>(
    alloc: Global,
    tables: &mut TwoParts<'a, R>,
) -> Result<Part, Fault<'a>>
    ensures reads { IfOk result (ReadsNext R.remaining tables.old tables.new) }
    ensures why { IfErr result (IsOfOne (ExplainsTakingNext R.remaining) tables.old) }
{
    tables.left.fill()?;
    tables.right.fill()?;
    let bound = at(tables.left.file, next_bound(&tables.left, &tables.right))?;
    let part = take_part(alloc, tables, &bound)?;
    Ok(part)
}

// The key up to which all rows of both tables are read, or None where all are.
fn next_bound<'a, R: Read + Drop>(
    left: &Parts<'a, R>,
    right: &Parts<'a, R>,
) -> Result<Option<Key>, AllocError>
    ensures { IfOk result (IsLesser key_cmp (bound_of left.now) (bound_of right.now)) }
{
    let bound = clone_key(lesser(left.bound(), right.bound()))?;
    Ok(bound)
}

// Takes the rows that wait up to a key, or all of them.
fn take_part<'a, R: Read + Drop>(
    alloc: Global,
    tables: &mut TwoParts<'a, R>,
    bound: &Option<Key>,
) -> Result<Part, Fault<'a>>
    ensures takes { IfOk result (TakesPart bound.now tables.old tables.new) }
    ensures why { IfErr result (IsOfOne ExplainsTaking tables.old) }
{
    let left = rows_up_to(alloc, &mut tables.left, bound)?;
    let right = rows_up_to(alloc, &mut tables.right, bound)?;
    Ok(Part {
        left,
        right,
        is_last: bound.is_none(),
    })
}

// The rows of a table that wait up to a key, or all of them, by key.
fn rows_up_to<'a, R: Read + Drop>(
    alloc: Global,
    parts: &mut Parts<'a, R>,
    bound: &Option<Key>,
) -> Result<Table, Fault<'a>>
    ensures takes { IfOk result (λ table. (rows : List ReadRow)
        × TakesUpTo bound.now parts.old parts.new rows × Gathers false rows table.pairs.items) }
    ensures file { IfErr result (λ fault. fault.file ≡ parts.old.file) }
    ensures why { IfErr result (λ fault. ExplainsTaking parts.old fault.reason) }
{
    let rows = parts.take_up_to(alloc, bound)?;
    let table = at(parts.file, unique_rows(alloc, rows, Release::AtDrop))?;
    Ok(table)
}

// The lesser key of those that are there.
fn lesser<'k, K: Ord>(left: Option<&'k K>, right: Option<&'k K>) -> Option<&'k K>
    ensures is_one { (result ≡ left.entry) ⊎ (result ≡ right.entry) }
    ensures none { IsNone result ↔ (IsNone left.entry × IsNone right.entry) }
    ensures least { IfSome result (λ key.
        IsAtMost K.cmp key.now (option_map (λ k. k.now) left.entry)
        × IsAtMost K.cmp key.now (option_map (λ k. k.now) right.entry)) }
{
    match left {
        Some(key) => match right {
            Some(other) => Some(if other < key { other } else { key }),
            None => Some(key),
        },
        None => right,
    }
}

// The same key, once more.
fn clone_key(key: Option<&Key>) -> Result<Option<Key>, AllocError>
    ensures { IfOk result (λ copy. copy ≡ option_map (λ key. key.now) key.entry) }
{
    match key {
        Some(key) => Ok(Some(key.clone()?)),
        None => Ok(None),
    }
}

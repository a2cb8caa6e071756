//! The answer to `merge`, of streams: two versions of a table merged over their base, or a report of the rows in conflict.
ghost use Rattle.std.specs.Prelude.{◌≡◌, ◌∷◌, ◌⊎◌, [], IfErr, IfOk, None, OnOk, is_none};
ghost use Rattle.eob_joins.specs.Marked.{merged_of};
ghost use Rattle.keyed_faults.specs.Outside.{IsApart};
ghost use Rattle.keyed_columns.specs.Keys.{AreMergedColumnsBy};
ghost use Rattle.keyed_columns.specs.Spelled.{IsSpelledAs};
ghost use Rattle.keyed_columns.specs.declared.content.Content.TheVariants.{Rows};
ghost use Rattle.keyed_files.specs.Opening.{first_header, next_header};
ghost use Rattle.keyed_tables.specs.Arranged.{noted};
ghost use Rattle.keyed_jobs.specs.NotedStyles.{watched_left};
ghost use Rattle.keyed_jobs.specs.MarkedText.{AnswersMarks, IsMarkedBy, all_as_they_stand};
ghost use Rattle.keyed_jobs.specs.MarkedText.{has_all_columns};
ghost use Rattle.keyed_jobs.specs.Preferred.{rows_by_side};
ghost use Rattle.keyed_jobs.specs.FileOrder.{NotesBoth, placed_with};
ghost use Rattle.keyed_jobs.specs.TablesRead.{IsUnordered, ReadsTable};
ghost use Rattle.keyed_jobs.specs.Answers.{AnswersMerge, AnswersMerged, AnswersMergedByCell, HasConflict};
ghost use Rattle.keyed_jobs.specs.Answers.{AnswersTable, HasNoConflict, HasNoneUnresolved};
ghost use Rattle.keyed_jobs.specs.Answers.{HasUnresolved, Stops};
ghost use Rattle.keyed_commands.specs.MergedTexts.{AnswersAs, AnswersBy, MergesSources, MergesStreams};
ghost use Rattle.keyed_commands.specs.Unanswered.{ExplainsMerge, ExplainsThree, IsApartOf, files_of_three};

use crate::conflicts::render_conflicts;
use crate::lost_cells::lose_cells;
use crate::made_table::answer_of_rows;
use eob_joins::{Marked, Parted, part_marked};
use keyed_columns::{Columns, Content, Tolerances, columns_of, merged_columns};
use keyed_faults::{Fault, Reason, at};
use keyed_files::{Opened, Stream, Two};
use keyed_jobs::{
    Answer, Job, Table, Telling, Watched, answer_with_marks, has_conflict, rows_by_side,
    settled_by_number, spelling_of, stopped, style_under, told_conflicts, unwatched, watch,
};
use keyed_reports::Report;
use keyed_requests::{Conflicts, Merging, Settings, Side, Unit};
use keyed_rows::{Group, Key};
use keyed_tables::{
    marked_merge_by_cell_of, marked_merge_of, parted_merge_by_cell_of, parted_merge_of,
};
use keyed_text::Style;
use std::alloc::{AllocError, Global};
use std::io::Read;

/// The answer to `merge`, with its rows written as ours are.
///
/// # Errors
///
/// Returns the fault of a table that can't be opened or read, that lacks a column of the key, or in which a key stands twice where keys may
/// not repeat; also want of memory, as the fault of one of them.
pub fn merge<'a, R: Read + Drop>(
    alloc: Global,
    settings: Settings<'a>,
    how: Merging<'_>,
    base: Stream<'a, R>,
    ours: Stream<'a, R>,
    theirs: Stream<'a, R>,
) -> Result<Answer, Fault<'a>>
    ensures answer { IfOk result (λ answer. how.entry.sameness ≡ None →
        MergesStreams R.remaining how.entry.conflicts how.entry.unit settings.entry
        base.entry ours.entry theirs.entry answer) }
    ensures why { IfErr result (ExplainsMerge R.remaining (watched_left R.remaining) settings.entry
        base.entry ours.entry theirs.entry) }
{
    let base = unwatched(alloc, base);
    let mut base = Opened::new(alloc, settings.form, Content::Rows, base)?;
    let watched = watch(alloc, settings.form, ours)?;
    let (ours, first_style) = watched;
    let theirs = unwatched(alloc, theirs);
    let mut sides = Two::new(alloc, settings.form, Content::Rows, ours, theirs)?;
    base.rename(alloc, settings)?;
    let columns = columns_of_merge(alloc, settings, &base, &sides)?;
    at(base.file, check_known(alloc, how, &columns))?;
    let job = Job::new(alloc, settings, &columns);
    merge_files(job, first_style, how, &mut base, &mut sides)
}

// Tells of a column with a tolerance of its own that is none of these.
fn check_known(alloc: Global, how: Merging<'_>, columns: &Columns) -> Result<(), Reason>
    ensures { IfErr result IsApart }
{
    Tolerances::new(alloc, how.sameness)?.check_known(alloc, columns)
}

// The columns of the three tables, with a heading that spells them as ours does.
fn columns_of_merge<'a, R>(
    alloc: Global,
    settings: Settings<'a>,
    base: &Opened<'a, R>,
    sides: &Two<'a, R>,
) -> Result<Columns, Fault<'a>>
    ensures columns { IfOk result (AreMergedColumnsBy settings.entry.key base.now.source.value.header.names
        (first_header sides.now) (next_header sides.now)) }
    ensures spelled { IfOk result (IsSpelledAs sides.now.first.source.value.header.spelling.names
        sides.now.first.source.value.header.spelling.spelled) }
    ensures why { IfErr result (IsApartOf (base.now.file ∷ [])) }
{
    let (base_names, ours, theirs) = (base.header(), sides.first.header(), sides.next.header());
    let all = at(
        base.file,
        columns_of(alloc, settings.key, &[base_names, ours, theirs]),
    )?;
    let merged = merged_columns(alloc, all.key, base_names, ours, theirs);
    let columns = at(base.file, merged)?;
    at(
        base.file,
        columns.spell_as(alloc, sides.first.source.spelling()),
    )
}

fn merge_files<'a, R: Read + Drop>(
    mut job: Job<'_, Columns>,
    first_style: Style,
    how: Merging<'_>,
    base: &mut Opened<'a, Watched<R>>,
    sides: &mut Two<'a, Watched<R>>,
) -> Result<Answer, Fault<'a>>
    ensures answer { IfOk result (λ answer. how.entry.sameness ≡ None →
        MergesSources (watched_left R.remaining) how.entry.conflicts how.entry.unit job.entry first_style
        base.old sides.old answer) }
    ensures why { IfErr result (λ fault. IsApartOf (files_of_three base.old sides.old) fault
        ⊎ ExplainsThree (watched_left R.remaining) job.entry.groups job.entry.columns.now
        base.old sides.old fault) }
{
    let versions = read_versions(&mut job, base, sides)?;
    let has_end = sides.first.source.get_ref().has_end();
    let style = style_under(job.form.writing.heading, first_style, has_end);
    let spelling = spelling_of(&job, &sides.first)?;
    let job = job.in_style(style, spelling);
    at(sides.next.file, merge_tables(&job, how, versions))
}

// The rows of three versions of a table.
#[derive(Drop)]
struct ThreeVersions {
    base: Table,
    ours: Table,
    theirs: Table,
}

// Reads three versions. The base is not written: rows come out in the order of ours, and those that theirs adds after the rows that they
// follow there.
fn read_versions<'a, R: Read + Drop>(
    job: &mut Job<'_, Columns>,
    base: &mut Opened<'a, R>,
    sides: &mut Two<'a, R>,
) -> Result<ThreeVersions, Fault<'a>>
    ensures base { IfOk result (λ read. ReadsTable R.remaining job.old.groups job.old.columns.now
        base.old.source.value read.base.pairs.items) }
    ensures ours { IfOk result (λ read. ReadsTable R.remaining job.old.groups job.old.columns.now
        sides.old.first.source.value read.ours.pairs.items) }
    ensures theirs { IfOk result (λ read. ReadsTable R.remaining job.old.groups job.old.columns.now
        sides.old.next.source.value read.theirs.pairs.items) }
    ensures notes { OnOk result (NotesBoth R.remaining Rows job.old.columns.now job.old.columns.now
        sides.old.first.source.value sides.old.next.source.value placed_with
        (noted job.old.order) (noted job.new.order)) }
    ensures same { job.new ≡ record job.old { order = job.new.order; row_order = job.new.row_order } }
    ensures unordered { OnOk result (IsUnordered job.old → IsUnordered job.new) }
    ensures first_header { sides.new.first.source.value.header ≡ sides.old.first.source.value.header }
    ensures first_named { sides.new.first.file ≡ sides.old.first.file }
    ensures next_named { sides.new.next.file ≡ sides.old.next.file }
    ensures why { IfErr result
        (ExplainsThree R.remaining job.old.groups job.old.columns.now base.old sides.old) }
{
    let (ours, theirs) = job.read_merged(sides)?;
    let base = job.unordered().read_table(job.columns, base)?;
    Ok(ThreeVersions { base, ours, theirs })
}

fn merge_tables(
    job: &Job<'_, Columns>,
    how: Merging<'_>,
    versions: ThreeVersions,
) -> Result<Answer, Reason>
    ensures answer { IfOk result (λ answer. how.entry.sameness ≡ None →
        AnswersAs job.now.form job.now.columns.now (noted job.now.order) (is_none job.now.row_order.files)
        versions.base.pairs.items versions.ours.pairs.items versions.theirs.pairs.items
        (all_as_they_stand job.now.columns.now) answer how.entry.unit how.entry.conflicts) }
    ensures why { IfErr result IsApart }
{
    let tolerances = Tolerances::new(job.alloc, how.sameness)?;
    let alikes = tolerances.alikes(job.alloc, job.columns)?;
    let telling = Telling {
        unit: how.unit,
        alikes: &alikes,
    };
    match how.sameness {
        Some(_) => Ok(merge_by_number(job, telling, how.conflicts, versions)?),
        None => Ok(merge_as_written(job, telling, how.conflicts, versions)?),
    }
}

// The same where cells are compared as they stand.
fn merge_as_written(
    job: &Job<'_, Columns>,
    how: Telling<'_>,
    conflicts: Conflicts,
    versions: ThreeVersions,
) -> Result<Answer, AllocError>
    ensures { IfOk result (λ answer. AnswersAs job.now.form job.now.columns.now
        (noted job.now.order) (is_none job.now.row_order.files)
        versions.base.pairs.items versions.ours.pairs.items versions.theirs.pairs.items
        how.entry.alikes.now answer how.entry.unit conflicts) }
{
    match conflicts {
        Conflicts::Report => merge_reported(job, how, versions),
        Conflicts::Marks => {
            let rows = marked_rows(job.alloc, how.unit, versions)?;
            let answer = mark_conflicts(job, how, rows)?;
            Ok(answer)
        }
        Conflicts::Prefer(side) => {
            let rows = marked_rows(job.alloc, how.unit, versions)?;
            let answer = merge_by_side(job, how, side, rows)?;
            Ok(answer)
        }
    }
}

// The same where cells are not compared as they stand, which settles rows in conflict.
fn merge_by_number(
    job: &Job<'_, Columns>,
    how: Telling<'_>,
    conflicts: Conflicts,
    versions: ThreeVersions,
) -> Result<Answer, AllocError> {
    let rows = marked_rows(job.alloc, how.unit, versions)?;
    let rows = settled_by_number(job.alloc, how.alikes, how.unit, rows)?;
    match conflicts {
        Conflicts::Marks => mark_conflicts(job, how, rows),
        Conflicts::Prefer(side) => merge_by_side(job, how, side, rows),
        Conflicts::Report => answer_of_merge(job, how, part_marked(job.alloc, rows)?),
    }
}

// The merged table, with rows in conflict between marks. Where there are some and a column goes, which may be what they differ by, these
// rows are reported.
fn mark_conflicts(
    job: &Job<'_, Columns>,
    how: Telling<'_>,
    rows: Vec<(Key, Marked<Group>)>,
) -> Result<Answer, AllocError>
    ensures { IfOk result (AnswersMarks job.now.form job.now.columns.now (noted job.now.order)
        (is_none job.now.row_order.files) how.entry.unit how.entry.alikes.now rows.items) }
{
    if has_conflict(&rows) {
        if has_all_columns(job.columns) {
            answer_with_marks(job, how, rows)
        } else {
            let parted = part_marked(job.alloc, rows)?;
            report_conflicts(job, how, parted)
        }
    } else {
        let parted = part_marked(job.alloc, rows)?;
        let answer = answer_of_rows(job, "merged", parted.settled)?;
        Ok(answer)
    }
}

// Whether no column goes.
fn has_all_columns(columns: &Columns) -> bool
    ensures { result ≡ has_all_columns columns.now }
{
    columns.count_written() == columns.rest.len()
}

// The merged table, with rows in conflict as this side has them.
fn merge_by_side(
    job: &Job<'_, Columns>,
    how: Telling<'_>,
    side: Side,
    rows: Vec<(Key, Marked<Group>)>,
) -> Result<Answer, AllocError>
    ensures { IfOk result (AnswersTable job.now.form job.now.columns.now (noted job.now.order)
        (is_none job.now.row_order.files)
        (rows_by_side how.entry.unit how.entry.alikes.now side rows.items)) }
{
    let settled = rows_by_side(job.alloc, how, side, rows)?;
    let answer = answer_of_rows(job, "merged", settled)?;
    Ok(answer)
}

// The merged table, or a report of the rows in conflict.
fn merge_reported(
    job: &Job<'_, Columns>,
    how: Telling<'_>,
    versions: ThreeVersions,
) -> Result<Answer, AllocError>
    ensures { IfOk result (λ answer. AnswersBy job.now.form job.now.columns.now
        (noted job.now.order) (is_none job.now.row_order.files)
        versions.base.pairs.items versions.ours.pairs.items versions.theirs.pairs.items
        answer how.entry.unit) }
{
    let ThreeVersions { base, ours, theirs } = versions;
    match how.unit {
        Unit::Row => merge_by_row(job, how, base, ours, theirs),
        Unit::Cell => merge_by_cell(job, how, base, ours, theirs),
    }
}

// The rows of three versions merged, with rows in conflict in their places.
fn marked_rows(
    alloc: Global,
    unit: Unit,
    versions: ThreeVersions,
) -> Result<Vec<(Key, Marked<Group>)>, AllocError>
    ensures { IfOk result (λ rows. IsMarkedBy unit versions.base.pairs.items
        versions.ours.pairs.items versions.theirs.pairs.items rows.items) }
{
    let ThreeVersions { base, ours, theirs } = versions;
    match unit {
        Unit::Row => marked_merge_of(alloc, base, ours, theirs),
        Unit::Cell => marked_merge_by_cell_of(alloc, base, ours, theirs),
    }
}

// The answer to `merge` that takes each row whole: the merged table, or a report of the rows in conflict.
fn merge_by_row(
    job: &Job<'_, Columns>,
    how: Telling<'_>,
    base: Table,
    ours: Table,
    theirs: Table,
) -> Result<Answer, AllocError>
    ensures whole { IfOk result (λ answer. HasNoConflict base.pairs.items ours.pairs.items theirs.pairs.items
        → AnswersMerged job.now.form job.now.columns.now (noted job.now.order)
        (is_none job.now.row_order.files) base.pairs.items ours.pairs.items theirs.pairs.items answer) }
    ensures conflict { IfOk result (λ answer.
        HasConflict base.pairs.items ours.pairs.items theirs.pairs.items → Stops answer) }
{
    let parted = parted_merge_of(job.alloc, base, ours, theirs)?;
    let answer = answer_of_merge(job, how, parted)?;
    Ok(answer)
}

// The answer to `merge` that merges a row of each version cell by cell: the merged table, or a report of the rows in conflict.
fn merge_by_cell(
    job: &Job<'_, Columns>,
    how: Telling<'_>,
    base: Table,
    ours: Table,
    theirs: Table,
) -> Result<Answer, AllocError>
    ensures whole { IfOk result (λ answer.
        HasNoneUnresolved base.pairs.items ours.pairs.items theirs.pairs.items
        → AnswersMergedByCell job.now.form job.now.columns.now (noted job.now.order)
        (is_none job.now.row_order.files) base.pairs.items ours.pairs.items theirs.pairs.items answer) }
    ensures conflict { IfOk result (λ answer.
        HasUnresolved base.pairs.items ours.pairs.items theirs.pairs.items → Stops answer) }
{
    let parted = parted_merge_by_cell_of(job.alloc, base, ours, theirs)?;
    let answer = answer_of_merge(job, how, parted)?;
    Ok(answer)
}

// The merged table, or a report of the rows in conflict.
fn answer_of_merge(
    job: &Job<'_, Columns>,
    how: Telling<'_>,
    parted: Parted<Key, Group>,
) -> Result<Answer, AllocError>
    ensures { IfOk result (AnswersMerge job.now.form job.now.columns.now (noted job.now.order)
        (is_none job.now.row_order.files) (merged_of parted)) }
{
    if parted.is_whole() {
        let answer = answer_of_rows(job, "merged", parted.settled)?;
        Ok(answer)
    } else {
        let answer = report_conflicts(job, how, parted)?;
        Ok(answer)
    }
}

// Rows in conflict as a report, and with them the merged rows that have cells in columns that go.
fn report_conflicts(
    job: &Job<'_, Columns>,
    how: Telling<'_>,
    parted: Parted<Key, Group>,
) -> Result<Answer, AllocError>
    ensures { IfOk result Stops }
{
    let Parted {
        settled,
        unresolved,
    } = parted;
    let unresolved = job.arrange(told_conflicts(job.alloc, how, unresolved)?)?;
    let settled = if lose_cells(job.columns, &settled) {
        job.arrange(settled)?
    } else {
        Vec::new(job.alloc)
    };
    let text = render_conflicts(job, &unresolved, &settled)?;
    Ok(stopped(text))
}

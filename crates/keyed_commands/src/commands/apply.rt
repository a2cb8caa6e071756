//! The answer to `apply`, of streams: a table with changes made to it, or a report of those that do not fit.
ghost use Rattle.std.specs.Prelude.{◌≡◌, ◌↔◌, IfErr, IfOk, IsTrue, MatchBool, is_none, option_map};
ghost use Rattle.either_or_both.specs.Prelude.{left_place, right_place};
ghost use Rattle.keyed_tables.specs.Arranged.{noted};
ghost use Rattle.keyed_jobs.specs.NotedStyles.{watched_left};
ghost use Rattle.keyed_jobs.specs.Answers.{AllFit, AnswersPatched, Stops, fits_place, key_cmp, rows_eq};
ghost use Rattle.keyed_jobs.specs.MadeChanges.{made_with};
ghost use Rattle.keyed_jobs.specs.Turned.{changes_in};
ghost use Rattle.keyed_commands.specs.AppliedTexts.{AnswersApplied, AppliesSources, AppliesStreams};
ghost use Rattle.keyed_commands.specs.Unanswered.{ExplainsApply, ExplainsChange};

use crate::made_table::answer_of_rows;
use either_or_both::EitherOrBoth;
use either_or_both::join::{outer_join, outer_join_slices};
use eob_joins::Change;
use keyed_columns::{Columns, Content};
use keyed_faults::{Fault, at};
use keyed_files::{Stream, Two};
use keyed_jobs::{
    Answer, Changes, Job, Table, Watched, made_changes, missing_columns, spelling_of, stopped,
    style_under, unwatched, watch,
};
use keyed_reports::{Stopped, Version, write_stopped};
use keyed_requests::{Direction, Settings};
use keyed_rows::{Group, Key};
use keyed_tables::patched;
use keyed_text::Style;
use std::alloc::{AllocError, Global};
use std::io::Read;

/// The answer to `apply`, with its rows written as the table is: backward, the changes are taken back, each turned about, and the columns go
/// that they brought.
///
/// # Errors
///
/// Returns the fault of a table that can't be opened or read, that lacks a column of the key, or in which a key stands twice where keys may
/// not repeat; of changes in which a row begins with no sign; also want of memory, as the fault of one of them.
pub fn apply<'a, R: Read + Drop>(
    alloc: Global,
    settings: Settings<'a>,
    direction: Direction,
    old: Stream<'a, R>,
    changes: Stream<'a, R>,
) -> Result<Answer, Fault<'a>>
    ensures answer { IfOk result
        (AppliesStreams R.remaining settings.entry direction old.entry changes.entry) }
    ensures why { IfErr result (ExplainsApply R.remaining (watched_left R.remaining) settings.entry direction
        old.entry changes.entry) }
{
    let watched = watch(alloc, settings.form, old)?;
    let (old, first_style) = watched;
    let changes = unwatched(alloc, changes);
    let mut inputs = Two::new(alloc, settings.form, Content::Changes, old, changes)?;
    inputs.first.rename(alloc, settings)?;
    inputs.next.turn(direction);
    let columns = inputs.changed_columns(alloc, settings.key)?;
    apply_files(
        Job::new(alloc, settings, &columns),
        first_style,
        direction,
        &mut inputs,
    )
}

fn apply_files<'a, R: Read + Drop>(
    mut job: Job<'_, Columns>,
    first_style: Style,
    direction: Direction,
    inputs: &mut Two<'a, Watched<R>>,
) -> Result<Answer, Fault<'a>>
    ensures answer { IfOk result
        (AppliesSources (watched_left R.remaining) job.entry first_style direction inputs.old) }
    ensures why { IfErr result (ExplainsChange (watched_left R.remaining) job.entry.groups
        job.entry.columns.now inputs.old) }
{
    let (before, after) = (inputs.first.header(), inputs.next.header());
    let missing = missing_columns(job.alloc, before, after, &job.columns.rest);
    let missing = at(inputs.next.file, missing)?;
    let tables = job.read_to_change(inputs)?;
    let (old, changes) = tables;
    let has_end = inputs.first.source.get_ref().has_end();
    let style = style_under(job.form.writing.heading, first_style, has_end);
    let spelling = spelling_of(&job, &inputs.first)?;
    let job = job.in_style(style, spelling);
    at(
        inputs.next.file,
        apply_in(&job, missing, direction, old, changes),
    )
}

// The answer to `apply` in a direction, of changes that are missing these columns.
fn apply_in(
    job: &Job<'_, Columns>,
    missing: Option<Vec<bool>>,
    direction: Direction,
    old: Table,
    changes: Changes,
) -> Result<Answer, AllocError>
    ensures { IfOk result (AnswersApplied job.now.form job.now.columns.now (noted job.now.order)
        (is_none job.now.row_order.files) old.pairs.items (made_with
        (option_map (λ are. are.items) missing) old.pairs.items (changes_in direction changes.pairs.items))) }
{
    let made = made_changes(job.alloc, missing, direction, old, changes)?;
    let answer = apply_tables(job, made.old, made.changes)?;
    Ok(answer)
}

// The answer to `apply`: the table with the changes made to it, where each of them fits, and else a report of those that do not.
fn apply_tables(job: &Job<'_, Columns>, old: Table, changes: Changes) -> Result<Answer, AllocError>
    ensures fits { IfOk result (λ answer. AllFit key_cmp old.pairs.items changes.pairs.items
        → AnswersPatched job.now.form job.now.columns.now (noted job.now.order)
        (is_none job.now.row_order.files) old.pairs.items changes.pairs.items answer) }
    ensures misfits { IfOk result (λ answer.
        (AllFit key_cmp old.pairs.items changes.pairs.items → ⊥) → Stops answer) }
{
    let fit = all_fit(&old, &changes);
    let answer = apply_if(job, fit, old, changes)?;
    Ok(answer)
}

// The table with the changes made to it if they fit, and else a report.
fn apply_if(
    job: &Job<'_, Columns>,
    fit: bool,
    old: Table,
    changes: Changes,
) -> Result<Answer, AllocError>
    ensures { IfOk result (λ answer. MatchBool fit
        (AnswersPatched job.now.form job.now.columns.now (noted job.now.order)
        (is_none job.now.row_order.files) old.pairs.items changes.pairs.items answer) (Stops answer)) }
{
    if fit {
        let answer = apply_fitting(job, old, changes)?;
        Ok(answer)
    } else {
        let answer = report_misfits(job, old, changes)?;
        Ok(answer)
    }
}

// The table with changes made to it that fit.
fn apply_fitting(job: &Job<'_, Columns>, old: Table, changes: Changes) -> Result<Answer, AllocError>
    ensures { IfOk result (AnswersPatched job.now.form job.now.columns.now (noted job.now.order)
        (is_none job.now.row_order.files) old.pairs.items changes.pairs.items) }
{
    let rows = patched(job.alloc, old, changes)?;
    let answer = answer_of_rows(job, "table", rows)?;
    Ok(answer)
}

// Changes that do not fit, as a report.
fn report_misfits(
    job: &Job<'_, Columns>,
    old: Table,
    changes: Changes,
) -> Result<Answer, AllocError>
    ensures { IfOk result Stops }
{
    let text = render_misfits(job, (old, changes))?;
    Ok(stopped(text))
}

// Whether each change fits: the rows that it is from are those that the table has under its key.
fn all_fit(old: &Table, changes: &Changes) -> bool
    ensures { IsTrue result ↔ AllFit key_cmp old.now.pairs.items changes.now.pairs.items }
{
    outer_join_slices(&old.pairs, &changes.pairs).all(fits)
}

// Whether a change fits what the table has there, if there is one.
fn fits(row: (&Key, EitherOrBoth<&Group, &Change<Group>>)) -> bool
    ensures { result ≡ fits_place rows_eq (option_map (λ group. group.now) (left_place row.entry.1))
        (option_map (λ change. change.now) (right_place row.entry.1)) }
{
    let (has, change) = row.1.unzip();
    match change {
        Some(change) => change.as_ref().left() == has,
        None => true,
    }
}

// The changes whose old row is not what the table has, in the order in which rows come out.
fn render_misfits(job: &Job<'_, Columns>, tables: (Table, Changes)) -> Result<Vec<u8>, AllocError> {
    let (old, changes) = tables;
    let rows = outer_join(job.alloc, old.pairs, changes.pairs)?;
    let rows = job.arrange(rows)?;
    let mut versions = Vec::new(job.alloc);
    for (key, row) in &rows {
        put_misfit(&mut versions, key, row)?;
    }
    let stopped = Stopped {
        said: "",
        columns: job.columns,
        versions: &versions,
    };
    write_stopped(job.alloc, job.look, &stopped)
}

// Puts what the table has under a key beside what a change wants there, unless they are the same or there is no change.
fn put_misfit<'a>(
    versions: &mut Vec<Version<'a>>,
    key: &'a Key,
    row: &'a EitherOrBoth<Group, Change<Group>>,
) -> Result<(), AllocError> {
    let (has, change) = row.as_ref().unzip();
    if let Some(change) = change {
        let wants = change.as_ref().left();
        if has != wants {
            versions.push(no_fit("table", key, has))?;
            versions.push(no_fit("expected", key, wants))?;
        }
    }
    Ok(())
}

// A version of a row that a change does not fit.
fn no_fit<'a>(word: &'a str, key: &'a Key, rows: Option<&'a Group>) -> Version<'a> {
    Version {
        why: "misfit",
        word,
        key,
        rows,
    }
}

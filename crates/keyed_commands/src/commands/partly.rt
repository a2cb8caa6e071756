//! The answer to `apply`, of streams, where changes need not fit: the table with those made to it that do, and the others as changes.
ghost use Rattle.std.specs.Prelude.{◌≡◌, ◌∷◌, ◌==◌, [], IfErr, IfOk, OnOk, is_none, length, option_map};
ghost use Rattle.keyed_tables.specs.Arranged.{noted};
ghost use Rattle.keyed_files.specs.Gone.{IsTurned};
ghost use Rattle.keyed_files.specs.Opening.{form_of};
ghost use Rattle.keyed_jobs.specs.NotedStyles.{watched_left};
ghost use Rattle.keyed_jobs.specs.MadeChanges.{made_with};
ghost use Rattle.keyed_jobs.specs.Rejected.{other_way, plain};
ghost use Rattle.keyed_jobs.specs.Turned.{changes_in};
ghost use Rattle.keyed_commands.specs.AppliedTexts.{PartlySources, PartlyStreams};
ghost use Rattle.keyed_commands.specs.PartlyAnswers.{AnswersPartly, beside};
ghost use Rattle.keyed_commands.specs.Unanswered.{ExplainsApply, ExplainsChange, IsApartOf};

use crate::made_table::answer_of_rows;
use eob_joins::Change;
use keyed_columns::{Columns, Content};
use keyed_faults::{Fault, at};
use keyed_files::{Opened, Stream, Two};
use keyed_jobs::{
    Answer, Changes, ChangesForm, Job, Table, Watched, changes_text, made_changes, missing_columns,
    pairs_in, part_changes, spelling_of, style_under, unwatched, watch,
};
use keyed_requests::{Direction, Form, Settings, Writing};
use keyed_rows::{Cells, Group, Key};
use keyed_text::Style;
use std::alloc::{AllocError, Global};
use std::io::Read;

/// A table to which the changes are made that fit, with status 1 where some do not, and a text of those.
#[derive(Drop)]
pub struct Partly {
    pub answer: Answer,
    pub rejected: Vec<u8>,
}

/// The answer to `apply`, as [`apply`](crate::apply) gives it, of those changes that fit, and a text of the others: changes as they were
/// given, also where they are taken back, under their header, with the byte between cells that the changes have. The text has its header
/// where there is no such change, and where the answer has none.
///
/// # Errors
///
/// Returns the errors of [`apply`](crate::apply).
pub fn apply_partly<'a, R: Read + Drop>(
    alloc: Global,
    settings: Settings<'a>,
    direction: Direction,
    old: Stream<'a, R>,
    changes: Stream<'a, R>,
) -> Result<Partly, Fault<'a>>
    ensures partly { IfOk result
        (PartlyStreams R.remaining settings.entry direction old.entry changes.entry) }
    ensures why { IfErr result (ExplainsApply R.remaining (watched_left R.remaining) settings.entry direction
        old.entry changes.entry) }
{
    let form = changes_form(settings.form, &changes);
    let watched = watch(alloc, settings.form, old)?;
    let (old, first_style) = watched;
    let changes = unwatched(alloc, changes);
    let mut inputs = Two::new(alloc, settings.form, Content::Changes, old, changes)?;
    inputs.first.rename(alloc, settings)?;
    let how = how_marked(form, direction, &mut inputs.next)?;
    let columns = inputs.changed_columns(alloc, settings.key)?;
    partly_files(
        Job::new(alloc, settings, &columns),
        first_style,
        &how,
        direction,
        &mut inputs,
    )
}

// The form of changes that are read so, with their header and in no style of a table.
fn changes_form<R>(form: Form, changes: &Stream<'_, R>) -> Form
    ensures { result ≡ plain (form_of form changes.now) }
{
    Form {
        delimiter: changes.delimiter.unwrap_or(form.delimiter),
        writing: Writing::PLAIN,
        ..form
    }
}

// How changes are written again that have such a header, which is turned in a direction.
fn how_marked<'a, R>(
    form: Form,
    direction: Direction,
    changes: &mut Opened<'a, R>,
) -> Result<ChangesForm, Fault<'a>>
    ensures form { IfOk result (λ how. how.form ≡ form) }
    ensures going { IfOk result (λ how. how.going ≡ changes.old.source.value.header.gone) }
    ensures coming { IfOk result (λ how. how.coming ≡ changes.old.source.value.header.came) }
    ensures same { OnOk result (IsTurned direction changes.old.source.value changes.new.source.value) }
    ensures named { changes.new.file ≡ changes.old.file }
    ensures why { IfErr result (IsApartOf (changes.old.file ∷ [])) }
{
    let going = copied_gone(changes)?;
    changes.turn(Direction::Backward);
    let coming = copied_gone(changes)?;
    changes.turn(other_way(direction));
    Ok(ChangesForm {
        form,
        going,
        coming,
    })
}

// The names of the columns that go.
fn copied_gone<'a, R>(changes: &Opened<'a, R>) -> Result<Cells, Fault<'a>>
    ensures gone { IfOk result (λ gone. gone ≡ changes.now.source.value.header.gone) }
    ensures why { IfErr result (IsApartOf (changes.now.file ∷ [])) }
{
    let gone: Result<_, _> = changes.source.gone().clone();
    at(changes.file, gone)
}

// The other direction.
fn other_way(direction: Direction) -> Direction
    ensures { result ≡ other_way direction }
{
    match direction {
        Direction::Forward => Direction::Backward,
        Direction::Backward => Direction::Forward,
    }
}

fn partly_files<'a, R: Read + Drop>(
    mut job: Job<'_, Columns>,
    first_style: Style,
    how: &ChangesForm,
    direction: Direction,
    inputs: &mut Two<'a, Watched<R>>,
) -> Result<Partly, Fault<'a>>
    ensures partly { IfOk result
        (PartlySources (watched_left R.remaining) job.entry first_style
        how.now direction inputs.old) }
    ensures why { IfErr result (ExplainsChange (watched_left R.remaining) job.entry.groups
        job.entry.columns.now inputs.old) }
{
    let (before, after) = (inputs.first.header(), inputs.next.header());
    let missing = missing_columns(job.alloc, before, after, &job.columns.rest);
    let missing = at(inputs.next.file, missing)?;
    let tables = job.read_to_change(inputs)?;
    let (old, changes) = tables;
    let has_end = inputs.first.source.get_ref().has_end();
    let style = style_under(job.form.writing.heading, first_style, has_end);
    let spelling = spelling_of(&job, &inputs.first)?;
    let job = job.in_style(style, spelling);
    at(
        inputs.next.file,
        partly_in(&job, how, missing, direction, old, changes),
    )
}

// The answer in a direction, of changes that are missing these columns: those that are taken back are parted turned about, and written as
// they were given.
fn partly_in(
    job: &Job<'_, Columns>,
    how: &ChangesForm,
    missing: Option<Vec<bool>>,
    direction: Direction,
    old: Table,
    changes: Changes,
) -> Result<Partly, AllocError>
    ensures { IfOk result (λ partly. AnswersPartly direction how.now partly job.now.form
        job.now.columns.now (noted job.now.order) (is_none job.now.row_order.files)
        old.pairs.items (made_with (option_map (λ are. are.items) missing) old.pairs.items
        (changes_in direction changes.pairs.items))) }
{
    let made = made_changes(job.alloc, missing, direction, old, changes)?;
    let parted = part_changes(job.alloc, made.old, made.changes)?;
    let whole = are_none(&parted.rejected);
    let given = pairs_in(job.alloc, direction, parted.rejected)?;
    let table = answer_of_rows(job, "table", parted.rows)?;
    let rejected = changes_text(job, how, given)?;
    let answer = beside(whole, table);
    Ok(Partly { answer, rejected })
}

// Whether no change is rejected.
fn are_none(rejected: &[(Key, Change<Group>)]) -> bool
    ensures { result ≡ (length rejected.now == 0) }
{
    rejected.is_empty()
}

// The answer where all changes are made, or where some are not.
fn beside(whole: bool, answer: Answer) -> Answer
    ensures { result ≡ beside whole answer }
{
    if whole {
        answer
    } else {
        Answer {
            status: 1,
            ..answer
        }
    }
}

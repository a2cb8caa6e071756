//! A table that a command made, as its answer: the text of the rows, unless a cell would be lost.
ghost use Rattle.std.specs.Prelude.{◌≡◌, IfOk, is_none};
ghost use Rattle.keyed_tables.specs.Arranged.{noted};
ghost use Rattle.keyed_jobs.specs.Answers.{AnswersTable, IsTableFile, Stops};
ghost use Rattle.keyed_jobs.specs.declared.answer.Outcome.TheVariants.{Made};

use crate::lost_cells::{lose_cells, render_lost};
use keyed_columns::Columns;
use keyed_files::write_spelled_table;
use keyed_jobs::{Answer, Job, Outcome, stopped};
use keyed_rows::{Group, Key};
use std::alloc::AllocError;

/// The rows as CSV, with status 0; or those that have cells in columns that go, with this word, and status 1.
///
/// # Errors
///
/// Returns the errors of `write_spelled_table`.
pub fn answer_of_rows(
    job: &Job<'_, Columns>,
    word: &str,
    rows: Vec<(Key, Group)>,
) -> Result<Answer, AllocError>
    ensures { IfOk result (AnswersTable job.now.form job.now.columns.now (noted job.now.order)
        (is_none job.now.row_order.files) rows.items) }
{
    if lose_cells(job.columns, &rows) {
        let answer = report_lost(job, word, rows)?;
        Ok(answer)
    } else {
        let answer = table_as_csv(job, rows)?;
        Ok(answer)
    }
}

// The rows that have cells in columns that go.
fn report_lost(
    job: &Job<'_, Columns>,
    word: &str,
    rows: Vec<(Key, Group)>,
) -> Result<Answer, AllocError>
    ensures { IfOk result Stops }
{
    let rows = job.arrange(rows)?;
    let text = render_lost(job, word, &rows)?;
    Ok(stopped(text))
}

/// The rows as CSV, with status 0.
///
/// # Errors
///
/// Returns the errors of `write_spelled_table`.
pub fn table_as_csv(job: &Job<'_, Columns>, rows: Vec<(Key, Group)>) -> Result<Answer, AllocError>
    ensures text { IfOk result (λ answer. IsTableFile job.now.form job.now.columns.now (noted job.now.order)
        (is_none job.now.row_order.files) rows.items answer.bytes.items) }
    ensures status { IfOk result (λ answer. answer.status ≡ 0) }
    ensures outcome { IfOk result (λ answer. answer.outcome ≡ Made) }
{
    let rows = job.arrange(rows)?;
    let bytes = write_spelled_table(job.alloc, job.form, job.columns, rows, &job.spelling)?;
    Ok(Answer {
        bytes,
        status: 0,
        outcome: Outcome::Made,
    })
}

//! Joins of two tables, written as CSV: an absent side has empty cells.
ghost use Rattle.std.specs.Prelude.{◌≡◌, ◌⊎◌, [], IfErr, IfOk, OnOk, false, is_none, option_map, true};
ghost use Rattle.keyed_requests.specs.declared.request.RowFormat.TheVariants.{Csv};
ghost use Rattle.keyed_columns.specs.JoinedNames.{ExplainsNames, joined_names, side_column};
ghost use Rattle.keyed_columns.specs.Names.{repeats};
ghost use Rattle.keyed_files.specs.JoinedRows.{left_of, right_of};
ghost use Rattle.keyed_files.specs.Writing.{Wrote};
ghost use Rattle.keyed_tables.specs.Arranged.{noted};
ghost use Rattle.keyed_jobs.specs.Answers.{IsTableText};
ghost use Rattle.keyed_jobs.specs.ComeOut.{AlikePlaces, AlikeRows};
ghost use Rattle.keyed_jobs.specs.Unread.{ExplainsTables};
ghost use Rattle.keyed_commands.specs.JoinAnswers.{AlikeBoth, AlikeLeft, AlikeRight, IsJoinText};
ghost use Rattle.keyed_commands.specs.JoinAnswers.{IsTextOfJoin, JoinsSources, JoinsStreams, PutsJoin};
ghost use Rattle.keyed_commands.specs.JoinAnswers.{PutsSides, RowSides, header_of_join, heading_of_join};
ghost use Rattle.keyed_commands.specs.JoinAnswers.{inner_sides, left_sides, outer_sides, right_sides};
ghost use Rattle.keyed_commands.specs.JoinAnswers.{side_name};
ghost use Rattle.keyed_commands.specs.Unanswered.{ExplainsJoin, IsApartOf, files_of};

use crate::commands::join_json::write_join;
use either_or_both::EitherOrBoth;
use either_or_both::join::outer_join;
use eob_joins::{anti_join, inner_join, left_join, right_join, semi_join};
use keyed_columns::{Content, JoinColumns, join_header};
use keyed_faults::{Fault, Reason, at};
use keyed_files::{Sides, Stream, Two, Written, quote_first, write_table};
use keyed_jobs::{Answer, Job, Outcome, RowOrder, Table};
use keyed_requests::{Form, Joining, Kind, RowFormat, Settings};
use keyed_rows::{Cells, Group, Key};
use std::alloc::{AllocError, Global};
use std::io::Read;

/// The answer to `join`.
///
/// # Errors
///
/// Returns the fault of a table that can't be opened or read, that lacks a column of the key, or in which a key stands twice where keys may
/// not repeat, and of a join that would have two columns of a name; also want of memory, as the fault of one of them.
pub fn join<'a, R: Read + Drop>(
    alloc: Global,
    settings: Settings<'a>,
    how: Joining<'a>,
    left: Stream<'a, R>,
    right: Stream<'a, R>,
) -> Result<Answer, Fault<'a>>
    ensures answer { IfOk result (λ answer. how.entry.format ≡ Csv →
        JoinsStreams R.remaining settings.entry how.entry left.entry right.entry answer) }
    ensures why { IfErr result (ExplainsJoin R.remaining settings.entry left.entry right.entry) }
{
    let mut sides = Two::new(alloc, settings.form, Content::Rows, left, right)?;
    let columns = sides.join_columns(alloc, settings.key)?;
    let made = JoinForm::new(alloc, settings.form, how, &columns);
    let form = at(sides.next.file, made)?;
    let job = Job::new(alloc, settings, &columns);
    join_files(job, &form, &mut sides)
}

fn join_files<'a, R: Read + Drop>(
    mut job: Job<'_, JoinColumns>,
    form: &JoinForm,
    sides: &mut Two<'a, R>,
) -> Result<Answer, Fault<'a>>
    ensures answer { IfOk result (λ answer. form.now.format ≡ Csv →
        JoinsSources R.remaining job.entry form.now.kind form.now.header sides.old answer) }
    ensures why { IfErr result (λ fault. IsApartOf (files_of sides.old) fault
        ⊎ ExplainsTables R.remaining job.entry.groups job.entry.columns.now.left
        job.entry.columns.now.right sides.old fault) }
{
    let tables = job.read_sides(sides)?;
    let (left, right) = tables;
    let bytes = at(sides.next.file, write_join(&job, form, left, right))?;
    Ok(Answer {
        bytes,
        status: 0,
        outcome: Outcome::Made,
    })
}

/// A row of a join.
pub(crate) trait JoinedRow: Sized {
    // What a row has, and the same row with the rows of each side in another order.
    ghost shows: { Self → RowSides };

    ghost alike: { Self → Self → Type 0 };

    fn sides(&self) -> Sides<'_>
        ensures first { option_map (λ cell. cell.now) result.first ≡ (shows self.now).first }
        ensures left { left_of result ≡ (shows self.now).left }
        ensures right { right_of result ≡ (shows self.now).right };

    // The same with the rows of each side in the order of its file.
    fn in_order(self, alloc: Global, order: &RowOrder, key: &Key) -> Result<Self, AllocError>
        ensures alike { IfOk result (alike self) }
        ensures same { is_none order.now.files ≡ true → IfOk result (λ row. row ≡ self) };
}

fn left_in_order(
    alloc: Global,
    order: &RowOrder,
    key: &Key,
    left: Group,
) -> Result<Group, AllocError>
    ensures alike { IfOk result (AlikeRows left) }
    ensures same { is_none order.now.files ≡ true → IfOk result (λ rows. rows ≡ left) }
{
    order.arrange(alloc, 0..1, key, left)
}

fn right_in_order(
    alloc: Global,
    order: &RowOrder,
    key: &Key,
    right: Group,
) -> Result<Group, AllocError>
    ensures alike { IfOk result (AlikeRows right) }
    ensures same { is_none order.now.files ≡ true → IfOk result (λ rows. rows ≡ right) }
{
    order.arrange(alloc, 1..2, key, right)
}

impl JoinedRow for EitherOrBoth<Group, Group> {
    ghost shows = { outer_sides };

    ghost alike = { AlikePlaces AlikeRows AlikeRows };

    fn sides(&self) -> Sides<'_> {
        let (left, right) = self.as_ref().unzip();
        Sides {
            first: Some(side_of(self)),
            left,
            right,
        }
    }

    fn in_order(self, alloc: Global, order: &RowOrder, key: &Key) -> Result<Self, AllocError> {
        match self {
            EitherOrBoth::Left(left) => {
                Ok(EitherOrBoth::Left(left_in_order(alloc, order, key, left)?))
            }
            EitherOrBoth::Right(right) => {
                Ok(EitherOrBoth::Right(right_in_order(alloc, order, key, right)?))
            }
            EitherOrBoth::Both(left, right) => {
                let left = left_in_order(alloc, order, key, left)?;
                let right = right_in_order(alloc, order, key, right)?;
                Ok(EitherOrBoth::Both(left, right))
            }
        }
    }
}

// Which of the tables have a row.
fn side_of(row: &EitherOrBoth<Group, Group>) -> &'static [u8]
    ensures { result.now ≡ side_name row.now }
{
    match row {
        EitherOrBoth::Left(_) => b"left",
        EitherOrBoth::Both(..) => b"both",
        EitherOrBoth::Right(_) => b"right",
    }
}

impl JoinedRow for (Group, Group) {
    ghost shows = { inner_sides };

    ghost alike = { AlikeBoth };

    fn sides(&self) -> Sides<'_> {
        Sides {
            first: None,
            left: Some(&self.0),
            right: Some(&self.1),
        }
    }

    fn in_order(self, alloc: Global, order: &RowOrder, key: &Key) -> Result<Self, AllocError> {
        let left = left_in_order(alloc, order, key, self.0)?;
        Ok((left, right_in_order(alloc, order, key, self.1)?))
    }
}

impl JoinedRow for (Group, Option<Group>) {
    ghost shows = { left_sides };

    ghost alike = { AlikeLeft };

    fn sides(&self) -> Sides<'_> {
        Sides {
            first: None,
            left: Some(&self.0),
            right: self.1.as_ref(),
        }
    }

    fn in_order(self, alloc: Global, order: &RowOrder, key: &Key) -> Result<Self, AllocError> {
        let left = left_in_order(alloc, order, key, self.0)?;
        match self.1 {
            Some(right) => Ok((left, Some(right_in_order(alloc, order, key, right)?))),
            None => Ok((left, None)),
        }
    }
}

impl JoinedRow for (Option<Group>, Group) {
    ghost shows = { right_sides };

    ghost alike = { AlikeRight };

    fn sides(&self) -> Sides<'_> {
        Sides {
            first: None,
            left: self.0.as_ref(),
            right: Some(&self.1),
        }
    }

    fn in_order(self, alloc: Global, order: &RowOrder, key: &Key) -> Result<Self, AllocError> {
        let right = right_in_order(alloc, order, key, self.1)?;
        match self.0 {
            Some(left) => Ok((Some(left_in_order(alloc, order, key, left)?), right)),
            None => Ok((None, right)),
        }
    }
}

/// Which rows a join has, how they are written, and the names of the columns of CSV.
#[derive(Drop)]
pub struct JoinForm {
    pub kind: Kind,
    pub format: RowFormat,
    pub header: Cells,
}

impl JoinForm {
    /// The form of a join under these columns. Of CSV with no header, and of JSON, no name is asked for.
    ///
    /// # Errors
    ///
    /// Returns `JoinedTwice` if two columns would have the same name, and `NoMemory` if a request for memory was refused.
    pub fn new(
        alloc: Global,
        form: Form,
        how: Joining<'_>,
        columns: &JoinColumns,
    ) -> Result<Self, Reason>
        ensures kind { IfOk result (λ made. made.kind ≡ how.entry.kind) }
        ensures format { IfOk result (λ made. made.format ≡ how.entry.format) }
        ensures header { IfOk result (λ made. made.header ≡ header_of_join form how.entry columns.now) }
        ensures once { IfOk result (λ made. repeats [] made.header ≡ false) }
        ensures twice { IfErr result (ExplainsNames (side_column how.entry.kind how.entry.names)
            (joined_names how.entry.kind how.entry.names columns.now)) }
    {
        let header = match how.format {
            RowFormat::Csv if form.has_header => join_header(alloc, how, columns)?,
            RowFormat::Csv | RowFormat::Json => Cells::new(alloc),
        };
        Ok(JoinForm {
            kind: how.kind,
            format: how.format,
            header,
        })
    }
}

/// The join of two tables as CSV.
///
/// # Errors
///
/// Returns `AllocError` if a request for memory was refused.
pub fn join_as_csv(
    job: &Job<'_, JoinColumns>,
    how: &JoinForm,
    left: Table,
    right: Table,
) -> Result<Vec<u8>, AllocError>
    ensures { IfOk result (λ text. IsJoinText job.now.form job.now.columns.now how.now.header
        (noted job.now.order) (is_none job.now.row_order.files) how.now.kind
        left.pairs.items right.pairs.items text.items) }
{
    let alloc = job.alloc;
    let header = &how.header;
    match how.kind {
        Kind::Outer => write_joined(job, header, outer_join(alloc, left.pairs, right.pairs)?),
        Kind::Inner => write_joined(job, header, inner_join(alloc, left.pairs, right.pairs)?),
        Kind::Left => write_joined(job, header, left_join(alloc, left.pairs, right.pairs)?),
        Kind::Right => write_joined(job, header, right_join(alloc, left.pairs, right.pairs)?),
        Kind::Semi => write_left(job, semi_join(alloc, left.pairs, right.pairs)?),
        Kind::Anti => write_left(job, anti_join(alloc, left.pairs, right.pairs)?),
    }
}

// The rows of a join of two sides, as they come out.
fn write_joined<T: JoinedRow + Drop>(
    job: &Job<'_, JoinColumns>,
    header: &Cells,
    rows: Vec<(Key, T)>,
) -> Result<Vec<u8>, AllocError>
    ensures { IfOk result (λ text. IsTextOfJoin job.now.form job.now.columns.now header.now
        (noted job.now.order) (is_none job.now.row_order.files) T.shows T.alike rows.items text.items) }
{
    let rows = job.order.arrange(rows)?;
    let mut written = begin_join(job, header)?;
    put_rows(job, &mut written, rows)?;
    let text = written.finish()?;
    let given = quote_first(job.alloc, text, job.form.delimiter)?;
    Ok(given)
}

// Puts the rows of a join, by key. Each is dropped once it is written.
fn put_rows<T: JoinedRow + Drop>(
    job: &Job<'_, JoinColumns>,
    written: &mut Written,
    rows: Vec<(Key, T)>,
) -> Result<(), AllocError>
    ensures { OnOk result (PutsJoin job.now.columns.now T.shows (is_none job.now.row_order.files) T.alike
        written.old written.new rows.items) }
{
    for row in rows {
        put_row(job, written, row)?;
    }
    Ok(())
}

// Puts the rows under a key, those of each side in the order of its file.
fn put_row<T: JoinedRow + Drop>(
    job: &Job<'_, JoinColumns>,
    written: &mut Written,
    row: (Key, T),
) -> Result<(), AllocError>
    ensures { OnOk result (PutsSides job.now.columns.now T.shows (is_none job.now.row_order.files) T.alike
        written.old written.new row) }
{
    let (key, sides) = row;
    let sides = sides.in_order(job.alloc, &job.row_order, &key)?;
    written.put_joined(job.columns, &key, sides.sides())?;
    Ok(())
}

// Rows of the left table, as they come out.
fn write_left(job: &Job<'_, JoinColumns>, rows: Vec<(Key, Group)>) -> Result<Vec<u8>, AllocError>
    ensures { IfOk result (λ text. IsTableText job.now.form job.now.columns.now.left (noted job.now.order)
        (is_none job.now.row_order.files) rows.items text.items) }
{
    let rows = job.arrange(rows)?;
    write_table(job.alloc, job.form, &job.columns.left, rows)
}

// The header, where answers have a heading.
fn begin_join(job: &Job<'_, JoinColumns>, header: &Cells) -> Result<Written, AllocError>
    ensures { IfOk result (λ written. Wrote job.now.form (heading_of_join job.now.form header.now) written) }
{
    let mut written = Written::new(job.alloc, job.form);
    let has_heading = job.form.writes_heading();
    if has_heading {
        written.put_join_heading(header)?;
        Ok(written)
    } else {
        Ok(written)
    }
}

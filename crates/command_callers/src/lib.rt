//! Callers of the commands: what a program knows of the answers to `diff`, `apply`, `merge`, `join`, `overlay` and `lookup` of texts that it
//! knows when it is written; and callers of the reader and the writer of rows (`texts`), of the rows that a report shows (`reports`), of
//! keys that are refused (`keys`), of files that can't be opened (`unopened`), and of the laws of columns and of cells that are shown
//! (`columns`). What `diff`, `apply`, `merge` and `join` answer in each case stands in `specs/Cases.antt`.
#![tactic(auto)]

ghost use Rattle.std.specs.Prelude.{◌≡◌, IfOk, codes};
ghost use Rattle.command_callers.specs.Cases.{AnswersToApply, AnswersToDiff, AnswersToMerge, joined_text};

// A file of this name and this text, with the delimiter of the settings.
macro_rules! file {
    ($name:literal, $text:literal) => {
        Stream {
            file: $name,
            delimiter: None,
            reader: Ok($text.as_slice()),
        }
    };
}

// The answer to `diff` of these two texts.
macro_rules! compare {
    ($alloc:expr; $how:expr, $old:literal, $new:literal) => {
        diff($alloc, PLAIN, $how, file!("old.csv", $old), file!("new.csv", $new))
    };
}

// The answer to `apply` of this text and these changes.
macro_rules! change {
    ($alloc:expr; $direction:ident, $table:literal, $changes:literal) => {{
        let (table, changes) = (file!("table.csv", $table), file!("changes.csv", $changes));
        apply($alloc, PLAIN, Direction::$direction, table, changes)
    }};
}

// The answer to `merge` of these three texts.
macro_rules! combine {
    ($alloc:expr; $how:expr, $base:literal, $ours:literal, $theirs:literal) => {{
        let (base, ours) = (file!("base.csv", $base), file!("ours.csv", $ours));
        merge($alloc, PLAIN, $how, base, ours, file!("theirs.csv", $theirs))
    }};
}

pub mod columns;
pub mod keys;
pub mod laws;
pub mod layers;
pub mod lookups;
pub mod reports;
pub mod some_columns;
pub mod sorted;
pub mod texts;
pub mod unopened;

use keyed_commands::{
    Answer, Comparing, Conflicts, Delimiter, Direction, Fault, Form, Format, JoinNames, Joining,
    Kind, Layout, Look, Merging, Reading, RowFormat, Settings, Stream, Unit, View, Writing, apply,
    diff, join, merge,
};
use std::alloc::Global;

// Tables with commas and a header.
const FORM: Form = Form {
    delimiter: Delimiter::COMMA,
    has_header: true,
    reading: Reading::STRICT,
    writing: Writing::PLAIN,
};

// The key is the first column and stands once, and rows come out in the order of their keys.
const PLAIN: Settings<'static> = Settings {
    form: FORM,
    key: None,
    renames: None,
    keeps_order: false,
    groups: false,
    look: Look::PLAIN,
};

// The same of commands that write while they read.
const LAYOUT: Layout<'static> = Layout {
    form: FORM,
    key: None,
};

// The same as at first, where rows come out in the order of the files.
const IN_ORDER: Settings<'static> = Settings {
    keeps_order: true,
    ..PLAIN
};

// The same of tables with no header, whose columns have numbers for names.
const BARE: Settings<'static> = Settings {
    form: Form {
        has_header: false,
        ..FORM
    },
    ..PLAIN
};

const CHANGES: Comparing<'static> = Comparing {
    format: Format::Csv,
    view: View::WHOLE,
    sameness: None,
};

const REPORT: Comparing<'static> = Comparing {
    format: Format::Report(Look::Json),
    ..CHANGES
};

const TABLE: Comparing<'static> = Comparing {
    format: Format::Report(Look::PLAIN),
    ..CHANGES
};

const BY_CELL: Merging<'static> = Merging {
    unit: Unit::Cell,
    ..Merging::PLAIN
};

const WITH_MARKS: Merging<'static> = Merging {
    conflicts: Conflicts::Marks,
    ..Merging::PLAIN
};

const OUTER: Joining<'static> = Joining {
    kind: Kind::Outer,
    names: JoinNames::PLAIN,
    format: RowFormat::Csv,
};

/// Two tables that are compared, and how.
#[derive(Clone, Copy)]
pub enum Compared {
    /// A row has other cells: the row that goes, and the one that comes, with status 1.
    ChangedRow,
    /// Both are the same: a header alone, with status 0.
    SameTable,
    /// The old one has semicolons, and the new one, which says the same, has commas: no change.
    Semicolons,
    /// They have no header, and the key is the first column: the row that goes, and the one that comes.
    NoHeader,
    /// The new one has another column, and its rows in no order: the header marks the column, and the row that is in both is no change.
    NewColumn,
    /// A report of a row that has other cells, with status 1.
    ReportedRow,
    /// A report of two tables that are the same, with status 0.
    ReportedSame,
    /// A table for a person: a line for the row that changed, with both cells, for the one that was removed, and for the one that was added,
    /// in this order, under the names of the columns, and the counts after them.
    ToldRows,
}

/// A table, and changes that are made to it.
#[derive(Clone, Copy)]
pub enum Changed {
    /// The changes take a row away which the table has not: a report, with status 1.
    Misfit,
    /// They are of a row that has other cells by now: a report, with status 1.
    Stale,
    /// The row that comes stands in the place of the one that goes.
    Forward,
    /// The same changes, taken back: the row that went, in the place of the one that came. It begins with a byte order mark, and has quotes
    /// around each cell and CR LF after each row, as the table that is given.
    Backward,
    /// A list of keys, with one taken away and one added.
    Keys,
    /// The header of the changes says that a column goes, in which no row that is left has a cell: a table without it.
    DroppedColumn,
    /// The same where a row that is left has a cell in it: a report, with status 1.
    LostCell,
}

/// Two versions of a table that are merged over their base, and how.
#[derive(Clone, Copy)]
pub enum Merged {
    /// One of them changed a row, and the other added one: both. The table begins with a byte order mark, and has quotes around each cell
    /// and CR LF after each row, as ours.
    Rows,
    /// Both changed the same row, and not alike: a report, with status 1.
    RowConflict,
    /// The same with marks: the versions of the row stand between them, and after them the row that theirs alone added.
    MarkedRow,
    /// Cell by cell: each of them changed another cell of a row.
    Cells,
    /// Cell by cell, both changed the same cell, and not alike: a report, with status 1.
    CellConflict,
    /// The same with marks, of a row of which theirs alone changed the other cell: each version between the marks has that other cell as
    /// theirs has it.
    MarkedCell,
}

/// Returns the answer to `diff` of two tables.
///
/// # Errors
///
/// Returns the errors of `diff`.
pub fn compared_tables(alloc: Global, tables: Compared) -> Result<Answer, Fault<'static>>
    ensures { IfOk result (AnswersToDiff tables) }
{
    match tables {
        Compared::ChangedRow => compare!(alloc; CHANGES, b"id,a\n1,x\n", b"id,a\n1,y\n"),
        Compared::SameTable => compare!(alloc; CHANGES, b"id,a\n1,x\n", b"id,a\n1,x\n"),
        Compared::Semicolons => {
            let old = Stream {
                file: "old.csv",
                delimiter: Some(Delimiter::SEMICOLON),
                reader: Ok(b"id;a\n1;x\n".as_slice()),
            };
            diff(alloc, PLAIN, CHANGES, old, file!("new.csv", b"id,a\n1,x\n"))
        }
        Compared::NoHeader => {
            let (old, new) = (file!("old.csv", b"1,x\n"), file!("new.csv", b"1,y\n"));
            diff(alloc, BARE, CHANGES, old, new)
        }
        Compared::NewColumn => compare!(alloc; CHANGES, b"id,a\n1,x\n", b"id,b,a\n2,z,y\n1,,x\n"),
        Compared::ReportedRow => compare!(alloc; REPORT, b"id,a\n1,x\n", b"id,a\n1,y\n"),
        Compared::ReportedSame => compare!(alloc; REPORT, b"id,a\n1,x\n", b"id,a\n1,x\n"),
        Compared::ToldRows => compare!(alloc; TABLE, b"id,a\n1,x\n2,y\n", b"id,a\n3,w\n1,z\n"),
    }
}

/// Returns the answer to `apply` of a table and changes.
///
/// # Errors
///
/// Returns the errors of `apply`.
pub fn changed_table(alloc: Global, table: Changed) -> Result<Answer, Fault<'static>>
    ensures { IfOk result (AnswersToApply table) }
{
    match table {
        Changed::Misfit => change!(alloc; Forward, b"id,a\n1,x\n", b"change,id,a\n-,2,y\n"),
        Changed::Stale => change!(alloc; Forward, b"id,a\n1,x\n", b"change,id,a\n-,1,z\n+,1,y\n"),
        Changed::Forward => change!(alloc; Forward, b"id,a\n1,x\n", b"change,id,a\n-,1,x\n+,1,y\n"),
        Changed::Backward =>
            change!(alloc; Backward, b"\xef\xbb\xbf\"id\",\"a\"\r\n\"1\",\"y\"\r\n",
            b"change,id,a\n-,1,x\n+,1,y\n"),
        Changed::Keys => change!(alloc; Forward, b"id\n1\n2\n", b"change,id\n-,2\n+,3\n"),
        Changed::DroppedColumn =>
            change!(alloc; Forward, b"id,a\n1,x\n2,\n", b"change,id,-a\n-,1,x\n"),
        Changed::LostCell => change!(alloc; Forward, b"id,a\n1,x\n2,y\n", b"change,id,-a\n-,1,x\n"),
    }
}

/// Returns the answer to `merge` of three versions of a table.
///
/// # Errors
///
/// Returns the errors of `merge`.
pub fn merged_versions(alloc: Global, versions: Merged) -> Result<Answer, Fault<'static>>
    ensures { IfOk result (AnswersToMerge versions) }
{
    match versions {
        Merged::Rows => combine!(alloc; Merging::PLAIN, b"id,a\n1,x\n",
            b"\xef\xbb\xbf\"id\",\"a\"\r\n\"1\",\"y\"\r\n", b"id,a\n1,x\n2,z\n"),
        Merged::RowConflict =>
            combine!(alloc; Merging::PLAIN, b"id,a\n1,x\n", b"id,a\n1,y\n", b"id,a\n1,z\n"),
        Merged::MarkedRow =>
            combine!(alloc; WITH_MARKS, b"id,a\n1,x\n", b"id,a\n1,y\n", b"id,a\n1,z\n2,y\n"),
        Merged::Cells =>
            combine!(alloc; BY_CELL, b"id,a,b\n1,x,y\n", b"id,a,b\n1,z,y\n", b"id,a,b\n1,x,w\n"),
        Merged::CellConflict =>
            combine!(alloc; BY_CELL, b"id,a\n1,x\n", b"id,a\n1,y\n", b"id,a\n1,z\n"),
        Merged::MarkedCell =>
            combine!(alloc; Merging::AS_GIT, b"id,a,b\n1,x,y\n", b"id,a,b\n1,z,y\n", b"id,a,b\n1,v,w\n"),
    }
}

/// Returns a join of two tables with one key in common, each of which has another one too: the rows of both, each after the name of the side
/// that has it, for `Outer`; those whose keys both have, for `Inner`; each row of one table, for `Left` and `Right`; and the rows of the left
/// one alone, of keys that the right one has, for `Semi`, or lacks, for `Anti`.
///
/// # Errors
///
/// Returns the errors of `join`.
pub fn joined_tables(alloc: Global, kind: Kind) -> Result<Answer, Fault<'static>>
    ensures status { IfOk result (λ answer. answer.status ≡ 0) }
    ensures bytes { IfOk result (λ answer. answer.bytes.items ≡ joined_text kind) }
{
    let left = file!("left.csv", b"id,a\n1,x\n2,y\n");
    let right = file!("right.csv", b"id,b\n2,z\n3,w\n");
    join(alloc, PLAIN, Joining { kind, ..OUTER }, left, right)
}

/// Returns the outer join of two tables with a column of the same name, which the name of its side keeps apart.
///
/// # Errors
///
/// Returns the errors of `join`.
pub fn shared_column(alloc: Global) -> Result<Answer, Fault<'static>>
    ensures status { IfOk result (λ answer. answer.status ≡ 0) }
    ensures bytes { IfOk result (λ answer. answer.bytes.items
        ≡ codes "side,id,left.a,right.a\nboth,1,x,y\n") }
{
    let left = file!("left.csv", b"id,a\n1,x\n");
    let right = file!("right.csv", b"id,a\n1,y\n");
    join(alloc, PLAIN, OUTER, left, right)
}

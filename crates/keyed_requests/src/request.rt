//! What a command wants of which tables, and how they are read and written.
ghost use Rattle.std.specs.Prelude.{◌≡◌, ◌↔◌, IfSome, IsSome};
ghost use Rattle.keyed_text.specs.Texts.{PartsCells};
ghost use Rattle.keyed_requests.specs.Delimiters.{PartsCells-prop};
ghost use Rattle.keyed_requests.specs.declared.request.Misfits.TheVariants.{Reported};

use crate::lookups::Lookup;
use crate::merging::Merging;
use crate::overlays::Overlay;
use crate::sameness::Sameness;
use crate::writing::Writing;
use keyed_faults::{Fault, Reason};

/// A byte that may stand between cells: an ASCII character that neither ends rows nor quotes cells.
#[derive(Clone, Copy, Debug)]
pub struct Delimiter {
    byte: u8,
    ghost parts: { PartsCells byte } by { PartsCells-prop byte },
}

impl Delimiter {
    /// A comma.
    pub const COMMA: Delimiter = Delimiter { byte: b',' };

    /// A semicolon.
    pub const SEMICOLON: Delimiter = Delimiter { byte: b';' };

    /// A tabulator.
    pub const TAB: Delimiter = Delimiter { byte: b'\t' };

    /// The byte as a delimiter, if it may be one.
    pub fn new(byte: u8) -> Option<Self>
        ensures parts { IsSome result ↔ PartsCells byte }
        ensures value { IfSome result (λ delimiter. delimiter.byte ≡ byte) }
    {
        match byte {
            b'"' | b'\r' | b'\n' | 128..=255 => None,
            _ => Some(Delimiter { byte }),
        }
    }

    /// The byte.
    pub fn byte(self) -> u8
        ensures { result ≡ self.byte }
    {
        self.byte
    }
}

/// A byte that may begin lines which are passed over: an ASCII character that neither ends rows nor quotes cells.
#[derive(Clone, Copy, Debug)]
pub struct Comment {
    byte: u8,
    ghost parts: { PartsCells byte } by { PartsCells-prop byte },
}

impl Comment {
    /// The byte as one that begins such lines, if it may.
    pub fn new(byte: u8) -> Option<Self>
        ensures begins { IsSome result ↔ PartsCells byte }
        ensures value { IfSome result (λ comment. comment.byte ≡ byte) }
    {
        match byte {
            b'\r' | b'\n' | b'"' | 128..=255 => None,
            _ => Some(Comment { byte }),
        }
    }

    /// The byte.
    pub fn byte(self) -> u8
        ensures { result ≡ self.byte }
    {
        self.byte
    }
}

/// What is expected of the quotes of a table.
#[derive(Clone, Copy, Debug)]
pub enum Quotes {
    /// Each quote that opens a cell is closed, and the cell ends right after the closing one.
    Strict,
    /// Nothing: a quote that opens a cell and closes it on the same line quotes it, and each other one is a byte like any other.
    Lenient,
}

/// How many cells a row has.
#[derive(Clone, Copy, Debug)]
pub enum Lengths {
    /// As many as the first one.
    Equal,
    /// As many, or fewer, which leaves its last cells empty; or more of which all further ones are empty.
    Ragged,
}

/// How tables are read beside what they have in common with those that are written.
#[derive(Clone, Copy, Debug)]
pub struct Reading {
    /// The byte between the cells of the second table, where it is not that of the first.
    pub next: Option<Delimiter>,
    /// The byte between the cells of the third table, where it is not that of the first.
    pub last: Option<Delimiter>,
    pub quotes: Quotes,
    pub lengths: Lengths,
    /// The byte that begins lines which are passed over, if there is one.
    pub comment: Option<Comment>,
    /// How many lines at the top of each file are passed over.
    pub skipped: u64,
}

impl Reading {
    /// All tables alike, each of its lines read, with quotes in order and rows of one length.
    pub const STRICT: Reading = Reading {
        next: None,
        last: None,
        quotes: Quotes::Strict,
        lengths: Lengths::Equal,
        comment: None,
        skipped: 0,
    };
}

/// How tables are read and an answer is written: the byte between cells, of the answer and of the first table, whether the first row is a
/// header (where it is not, columns are named by number), and what there is to say of either alone.
#[derive(Clone, Copy, Debug)]
pub struct Form {
    pub delimiter: Delimiter,
    pub has_header: bool,
    pub reading: Reading,
    pub writing: Writing,
}

/// How the tables of a command are laid out: their form, and the names of the columns that are the key, as one record of CSV with commas,
/// or None for the first column.
#[derive(Clone, Copy, Debug)]
pub struct Layout<'a> {
    pub form: Form,
    pub key: Option<&'a str>,
}

/// What a command may set that reads whole tables: their layout, whether rows come out in the order of the files and not in that of their
/// keys, whether rows with the same key are a group, and how rows are told for which there is no table, as rows in conflict. The names of
/// columns of the first table that are other ones in the others are given as those of a key are.
#[derive(Clone, Copy, Debug)]
pub struct Settings<'a> {
    pub form: Form,
    pub key: Option<&'a str>,
    pub renames: Option<&'a str>,
    pub keeps_order: bool,
    pub groups: bool,
    pub look: Look,
}

impl<'a> Settings<'a> {
    /// The layout of the tables.
    pub fn layout(self) -> Layout<'a> {
        Layout {
            form: self.form,
            key: self.key,
        }
    }
}

/// Which rows a join has, of which tables.
#[derive(Clone, Copy, Debug)]
pub enum Kind {
    Outer,
    Inner,
    Left,
    Right,
    Semi,
    Anti,
}

/// What the header of a join has beside the names of columns.
#[derive(Clone, Copy, Debug)]
pub struct JoinNames<'a> {
    /// What stands before a name of the left table that the right one has too.
    pub left: &'a str,
    /// What stands before a name of the right table that the left one has too.
    pub right: &'a str,
    /// The name of the first column of an outer join.
    pub side: &'a str,
}

impl JoinNames<'static> {
    /// `left.`, `right.` and `side`.
    pub const PLAIN: JoinNames<'static> = JoinNames {
        left: "left.",
        right: "right.",
        side: "side",
    };
}

/// How the rows of a join are written.
#[derive(Clone, Copy, Debug)]
pub enum RowFormat {
    /// As CSV.
    Csv,
    /// As JSON, a line a row.
    Json,
}

/// How two tables are joined: which rows there are, what the header of CSV has, and how rows are written.
#[derive(Clone, Copy, Debug)]
pub struct Joining<'a> {
    pub kind: Kind,
    pub names: JoinNames<'a>,
    pub format: RowFormat,
}

impl Joining<'static> {
    /// A join of this kind as CSV, with plain names.
    pub fn of(kind: Kind) -> Self {
        Joining {
            kind,
            names: JoinNames::PLAIN,
            format: RowFormat::Csv,
        }
    }
}

/// Whether what a person reads in a terminal has colours.
#[derive(Clone, Copy, Debug)]
pub enum Colours {
    On,
    Off,
}

/// How rows are told to a person or to a program.
#[derive(Clone, Copy, Debug)]
pub enum Look {
    /// As a table on a terminal, each row in the colour of its change where there are colours.
    Table { colours: Colours },
    /// As JSON, a line a row.
    Json,
    /// As a table of Markdown.
    Markdown,
    /// As a page of HTML that needs nothing from elsewhere.
    Html,
}

impl Look {
    /// A table on a terminal with no colour.
    pub const PLAIN: Look = Look::Table {
        colours: Colours::Off,
    };
}

/// How `diff` writes what changed.
#[derive(Clone, Copy, Debug)]
pub enum Format {
    /// As CSV that `Request::Apply` takes.
    Csv,
    /// As a report.
    Report(Look),
}

/// Which columns are compared and shown, beside those of the key, by names that are given as one record of CSV.
#[derive(Clone, Copy, Debug)]
pub enum Picked<'a> {
    All,
    Only(&'a str),
    AllBut(&'a str),
}

/// Which of the rows that changed a report shows.
#[derive(Clone, Copy, Debug)]
pub enum RowsShown {
    All,
    /// So many at most, the first ones.
    First(usize),
    Nothing,
}

/// Which of the columns that are compared a table on a terminal and a page of HTML show, beside those of the key.
#[derive(Clone, Copy, Debug)]
pub enum ColumnsShown {
    /// Those in which a row that is shown changed; or all, where one is shown that came or went, so that nothing of it is left out.
    Changed,
    All,
}

/// What of the changes a report shows. Its counts are of all rows.
#[derive(Clone, Copy, Debug)]
pub struct View<'a> {
    pub columns: Picked<'a>,
    pub shown: ColumnsShown,
    pub rows: RowsShown,
    /// How many columns of a terminal the lines of a table may take, where they are cut into blocks of columns that do not take more.
    pub width: Option<usize>,
}

impl View<'static> {
    /// All that changed, of all columns and all rows, on lines of any length.
    pub const WHOLE: View<'static> = View {
        columns: Picked::All,
        shown: ColumnsShown::Changed,
        rows: RowsShown::All,
        width: None,
    };
}

/// How two tables are compared: how what changed is written, and what of it. Changes as CSV are whole, whatever a report would show, but that
/// there is none of a row that differs in columns alone that are ignored (`Picked::AllBut`).
#[derive(Clone, Copy, Debug)]
pub struct Comparing<'a> {
    pub format: Format,
    pub view: View<'a>,
    /// How cells are compared, where it is not as they stand. Changes as CSV are of cells as they stand.
    pub sameness: Option<Sameness<'a>>,
}

impl Comparing<'static> {
    /// All that changed, in this form.
    pub fn whole(format: Format) -> Self {
        Comparing {
            format,
            view: View::WHOLE,
            sameness: None,
        }
    }
}

/// How the rows of two tables are compared as wholes, in their order: how those that went and came are written, and which of them.
#[derive(Clone, Copy, Debug)]
pub struct RowComparing {
    pub format: Format,
    pub rows: RowsShown,
    /// How many columns of a terminal the lines of a table may take.
    pub width: Option<usize>,
}

impl RowComparing {
    /// All rows that went and came, in this form.
    pub fn whole(format: Format) -> Self {
        RowComparing {
            format,
            rows: RowsShown::All,
            width: None,
        }
    }
}

/// Which way changes are made.
#[derive(Clone, Copy, Debug)]
pub enum Direction {
    /// From the old table to the new one.
    Forward,
    /// From the new table back to the old one: what came goes, and what went comes.
    Backward,
}

/// What becomes of changes that do not fit the table to which they are to be made.
#[derive(Clone, Copy, Debug)]
pub enum Misfits<'a> {
    /// Where there is one, no change is made, and those that do not fit are reported.
    Reported,
    /// The others are made, and those that do not fit go into the file of this name, as changes that `Request::Apply` takes.
    Rejected(&'a str),
}

/// How changes are made to a table: which way, and what becomes of those that do not fit.
#[derive(Clone, Copy, Debug)]
pub struct Applying<'a> {
    pub direction: Direction,
    pub misfits: Misfits<'a>,
}

impl Applying<'static> {
    /// In this direction, all of the changes or none.
    pub fn whole(direction: Direction) -> Self
        ensures direction { result.direction ≡ direction }
        ensures misfits { result.misfits ≡ Reported }
    {
        Applying {
            direction,
            misfits: Misfits::Reported,
        }
    }
}

/// What is wanted of whole tables, in files by name, of which `-` is the standard input.
#[derive(Clone, Copy, Debug)]
pub enum Request<'a> {
    /// What changed.
    Diff {
        old: &'a str,
        new: &'a str,
        how: Comparing<'a>,
    },
    /// Which rows went and which came, of tables that have no key: their rows are compared as wholes, in their order.
    DiffRows {
        old: &'a str,
        new: &'a str,
        how: RowComparing,
    },
    /// A table with changes made to it, or taken back.
    Apply {
        old: &'a str,
        changes: &'a str,
        how: Applying<'a>,
    },
    /// Two versions of a table merged over their base.
    Merge {
        base: &'a str,
        ours: &'a str,
        theirs: &'a str,
        how: Merging<'a>,
    },
    /// Two tables joined by key.
    Join {
        left: &'a str,
        right: &'a str,
        how: Joining<'a>,
    },
}

/// How changes are written while the tables are read.
#[derive(Clone, Copy, Debug)]
pub enum SortedChanges<'a> {
    /// As CSV that `Request::Apply` takes.
    Csv,
    /// As JSON, a line a row, of these columns, whose cells are compared so, or as they stand.
    Json {
        columns: Picked<'a>,
        sameness: Option<Sameness<'a>>,
    },
}

/// What is wanted of two tables whose keys are strictly increasing, in files by name, of which `-` is the standard input. What it
/// gives is written while they are read.
#[derive(Clone, Copy, Debug)]
pub enum SortedRequest<'a> {
    /// What changed.
    Diff {
        old: &'a str,
        new: &'a str,
        how: SortedChanges<'a>,
    },
    /// Two tables joined by key.
    Join {
        left: &'a str,
        right: &'a str,
        how: Joining<'a>,
    },
}

/// How much of an answer is wanted.
#[derive(Clone, Copy, Debug)]
pub enum Wanted {
    /// All of it.
    Answer,
    /// The status alone: nothing is written.
    Status,
}

/// What a command line wants.
#[derive(Debug, Drop)]
pub enum Command<'a> {
    /// An answer that is written once all of it is known.
    Whole {
        settings: Settings<'a>,
        request: Request<'a>,
        wanted: Wanted,
    },
    /// An answer that is written while its tables are read.
    Sorted {
        layout: Layout<'a>,
        request: SortedRequest<'a>,
        wanted: Wanted,
    },
    /// Rows looked up in another table, which are written while they are read.
    Lookup {
        layout: Layout<'a>,
        request: Lookup<'a>,
    },
    /// Tables that are laid one over the other.
    Overlay {
        settings: Settings<'a>,
        request: Overlay<'a>,
    },
}

impl Request<'_> {
    /// Tells that no more than one of the files is the standard input.
    ///
    /// # Errors
    ///
    /// Returns `TwiceStdin` if the standard input is named twice.
    pub fn check_stdin<'a>(self) -> Result<(), Fault<'a>> {
        match self {
            Request::Diff { old, new, .. } => check_files(&[old, new]),
            Request::DiffRows { old, new, .. } => check_files(&[old, new]),
            Request::Apply { old, changes, .. } => check_files(&[old, changes]),
            Request::Merge {
                base,
                ours,
                theirs,
                ..
            } => check_files(&[base, ours, theirs]),
            Request::Join { left, right, .. } => check_files(&[left, right]),
        }
    }
}

impl SortedRequest<'_> {
    /// Tells that no more than one of the files is the standard input.
    ///
    /// # Errors
    ///
    /// Returns `TwiceStdin` if both are.
    pub fn check_stdin<'a>(self) -> Result<(), Fault<'a>> {
        match self {
            SortedRequest::Diff { old, new, .. } => check_files(&[old, new]),
            SortedRequest::Join { left, right, .. } => check_files(&[left, right]),
        }
    }
}

// Tells that no more than one of the files is the standard input.
pub(crate) fn check_files<'a>(files: &[&str]) -> Result<(), Fault<'a>> {
    if files.iter().filter(|file| **file == "-").count() > 1 {
        Err(Fault {
            file: "-",
            reason: Reason::TwiceStdin,
        })
    } else {
        Ok(())
    }
}

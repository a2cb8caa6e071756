//! What can be wrong with an input, and the line that says so.
ghost use Rattle.std.specs.Prelude.{◌≡◌, Err, IfErr, IfOk, Ok};
ghost use Rattle.keyed_faults.specs.Outside.{IsApart, IsOutside};
ghost use Rattle.keyed_faults.specs.Outside.{reason_of};
ghost use Rattle.keyed_faults.specs.declared.fault.Reason.TheVariants.{Io, NoMemory};

use crate::encoding::Encoding;
use crate::shown::{Shown, ShownInList, ShownName};
use keyed_rows::{Cells, Key, RepeatedKey, UniqueError};
use keyed_text::QuoteFault;
use std::alloc::{AllocError, AllocFailed};
use std::{fmt, io};

/// What is wrong with an input or the output, and the name of its file. Prints as `FILE: REASON`, on one line, with no control character:
/// the name of the file is escaped, and names of columns and keys stand in quotes where a terminal would not show them as they are.
#[derive(Drop)]
pub struct Fault<'a> {
    pub file: &'a str,
    pub reason: Reason,
}

/// What is wrong.
#[derive(Drop)]
pub enum Reason {
    /// A request for memory was refused.
    NoMemory,
    /// A file can't be opened, or a stream can't be read or written.
    Io(io::Error),
    /// A file is no text, or none of one byte after the other.
    NoText(Encoding),
    /// The quotes of the row on this line are not in order.
    Quotes {
        line: u64,
        fault: QuoteFault,
    },
    /// The header lacks this column, which is one of the key or to have another name. It has those others.
    NoColumn {
        line: u64,
        name: Vec<u8>,
        header: Cells,
    },
    /// The header has this column of the key more than once.
    RepeatedColumn {
        line: u64,
        name: Vec<u8>,
    },
    /// The names of the columns that are the key are not one record of CSV.
    KeyNoRecord,
    /// Among the names of the columns that are the key one stands twice.
    RepeatedName(Vec<u8>),
    /// A column that is to be compared or not is in neither table.
    NeitherHas(Vec<u8>),
    /// For a column of the key more than two names are given.
    ManyNames(Vec<u8>),
    /// For a tolerance of numbers something else is given.
    NoTolerance {
        given: Vec<u8>,
        wrong: &'static str,
    },
    /// A column of the key is to have a tolerance.
    ToleranceOfKey(Vec<u8>),
    /// In the header on this line, a column is to have this name, which another column has.
    NamedTwice {
        line: u64,
        name: Vec<u8>,
    },
    /// A join would have two columns of this name, which this option tells apart.
    JoinedTwice {
        name: Vec<u8>,
        option: &'static str,
    },
    /// A row has more or fewer cells than the first one.
    CellCount {
        line: u64,
        expected: u64,
        found: u64,
    },
    /// In a table of changes, the row on this line begins with no sign.
    NoSign(u64),
    /// In a table that is read as strictly increasing, the key on this line is not greater than the one before it.
    NotRising(u64),
    /// More than one of the files is the standard input.
    TwiceStdin,
    /// Two rows have the same key, and keys may not repeat.
    RepeatedKey(RepeatedKey),
    /// Two rows of the table in which rows are looked up have the same key.
    RepeatedRight(RepeatedKey),
}

impl From<AllocError> for Reason {
    ghost from_gives = { λ _ reason. reason ≡ NoMemory };

    fn from(_refused: AllocError) -> Self {
        Reason::NoMemory
    }
}

impl<T: Drop> From<AllocFailed<T>> for Reason {
    ghost from_gives = { λ _ reason. reason ≡ NoMemory };

    fn from(_refused: AllocFailed<T>) -> Self {
        Reason::NoMemory
    }
}

impl From<UniqueError> for Reason {
    ghost from_gives = { λ error reason. reason ≡ reason_of error };

    fn from(error: UniqueError) -> Self {
        match error {
            UniqueError::NoMemory => Reason::NoMemory,
            UniqueError::RepeatedKey(repeated) => Reason::RepeatedKey(repeated),
        }
    }
}

impl From<io::Error> for Reason {
    ghost from_gives = { λ error reason. reason ≡ Io error };

    fn from(error: io::Error) -> Self {
        Reason::Io(error)
    }
}

impl From<csv::Error> for Reason {
    fn from(error: csv::Error) -> Self {
        match error.into_kind() {
            csv::ErrorKind::Io(error) => Reason::Io(error),
            csv::ErrorKind::UnequalLengths {
                pos,
                expected_len,
                len,
            } => Reason::CellCount {
                line: match pos {
                    Some(pos) => pos.line(),
                    None => 0
                },
                expected: expected_len,
                found: len,
            },
            _ => Reason::NoMemory,
        }
    }
}

impl Reason {
    /// Why a row is not read, by the error of the reader of CSV: an error of the file, or else want of memory. A row of any length is read.
    pub fn of_reading(error: csv::Error) -> Self
        ensures outside { IsOutside result }
        ensures apart { IsApart result }
    {
        match error.into_kind() {
            csv::ErrorKind::Io(error) => Reason::Io(error),
            _ => Reason::NoMemory,
        }
    }
}

impl Fault<'_> {
    /// Whether it is that a reader of the output has left, of which programs say nothing.
    pub fn is_closed_pipe(&self) -> bool {
        match &self.reason {
            Reason::Io(error) => error.kind() == io::ErrorKind::BrokenPipe,
            _ => false,
        }
    }
}

/// The outcome, with the file that it is of.
///
/// # Errors
///
/// Returns the error of the outcome, as a fault of the file.
pub fn at<'a, T: Drop, E: Drop>(file: &'a str, outcome: Result<T, E>) -> Result<T, Fault<'a>>
where
    Reason: From<E>,
    ensures value { IfOk result (λ value. outcome ≡ Ok value) }
    ensures file { IfErr result (λ fault. fault.file ≡ file.entry) }
    ensures why { IfErr result (λ fault.
        (error : E) × (outcome ≡ Err error) × ⟦<Reason as From<E>>⟧.from_gives error fault.reason) }
{
    match outcome {
        Ok(value) => Ok(value),
        Err(error) => Err(Fault {
            file,
            reason: Reason::from(error),
        }),
    }
}

impl fmt::Display for Fault<'_> {
    fn fmt<W: fmt::Write>(&self, f: &mut fmt::Formatter<W>) -> fmt::Result {
        let file = Shown(self.file.as_bytes());
        match &self.reason {
            Reason::TwiceStdin => write!(f, "{}", self.reason),
            Reason::NoText(encoding) => write!(f, "{file}: {}", ToText(*encoding, file)),
            reason => write!(f, "{file}: {reason}"),
        }
    }
}

// What a file is that is no text, and the command that makes one of it.
#[derive(Clone, Copy)]
struct ToText<'a>(Encoding, Shown<'a>);

impl fmt::Display for ToText<'_> {
    fn fmt<W: fmt::Write>(&self, f: &mut fmt::Formatter<W>) -> fmt::Result {
        let ToText(encoding, file) = *self;
        let (name, remedy) = (encoding.name(), encoding.remedy());
        let rest = encoding.rest_of_remedy();
        write!(
            f,
            "looks like {name}: try {remedy} {file}{rest} | keyed .. -"
        )
    }
}

// What is wrong with quotes.
#[derive(Clone, Copy)]
struct ShownQuotes(QuoteFault);

impl fmt::Display for ShownQuotes {
    fn fmt<W: fmt::Write>(&self, f: &mut fmt::Formatter<W>) -> fmt::Result {
        f.write_str(match self.0 {
            QuoteFault::NeverClosed => "a quote is opened and never closed",
            QuoteFault::TextBehindQuote => "text stands behind a closing quote",
        })
    }
}

// The cells of a key, with commas between them.
#[derive(Clone, Copy)]
struct ShownKey<'a>(&'a Key);

impl fmt::Display for ShownKey<'_> {
    fn fmt<W: fmt::Write>(&self, f: &mut fmt::Formatter<W>) -> fmt::Result {
        for (place, cell) in self.0.iter().enumerate() {
            if place > 0 {
                f.write_char(',')?;
            }
            write!(f, "{}", ShownInList(cell))?;
        }
        Ok(())
    }
}

// A number of things, with the word for one of them.
#[derive(Clone, Copy)]
struct Count(u64, &'static str);

impl fmt::Display for Count {
    fn fmt<W: fmt::Write>(&self, f: &mut fmt::Formatter<W>) -> fmt::Result {
        let end = if self.0 == 1 { "" } else { "s" };
        write!(f, "{} {}{end}", self.0, self.1)
    }
}

// How many columns are named where one lacks.
const SHOWN_NAMES: usize = 10;

// The names of columns: all, or the first ten.
#[derive(Clone, Copy)]
struct ShownHeader<'a>(&'a Cells);

impl fmt::Display for ShownHeader<'_> {
    fn fmt<W: fmt::Write>(&self, f: &mut fmt::Formatter<W>) -> fmt::Result {
        f.write_str(match self.0.len() {
            1 => "there is ",
            0..=SHOWN_NAMES => "there are ",
            _ => "the first ten are ",
        })?;
        for (place, name) in self.0.iter().take(SHOWN_NAMES).enumerate() {
            if place > 0 {
                f.write_str(", ")?;
            }
            write!(f, "{}", ShownInList(name))?;
        }
        match other_delimiter(self.0) {
            Some(byte) => write!(f, ", one column; try -d {byte}"),
            None => Ok(()),
        }
    }
}

// What is given as the delimiter of a header that has one column, in whose name a byte stands that is often one.
fn other_delimiter(header: &Cells) -> Option<&'static str> {
    if header.len() > 1 {
        return None;
    }
    let name = header.get(0)?;
    if name.contains(&b';') {
        Some("\";\"")
    } else if name.contains(&b'\t') {
        Some("tab")
    } else if name.contains(&b'|') {
        Some("\"|\"")
    } else {
        None
    }
}

impl fmt::Display for Reason {
    fn fmt<W: fmt::Write>(&self, f: &mut fmt::Formatter<W>) -> fmt::Result {
        match self {
            Reason::NoMemory => f.write_str("out of memory"),
            Reason::Io(error) => write!(f, "{error}"),
            Reason::NoText(encoding) => write!(f, "{}", ToText(*encoding, Shown(b"FILE"))),
            Reason::Quotes { line, fault } => write!(
                f,
                "line {line}: {} (--lenient takes it as it is)",
                ShownQuotes(*fault)
            ),
            Reason::NoColumn { line, name, header } => write!(
                f,
                "line {line}: no column {} (named by --key, --rename or the first file); {}",
                ShownInList(name),
                ShownHeader(header)
            ),
            Reason::RepeatedColumn { line, name } => write!(
                f,
                "line {line}: two columns {}, of which the key is to be one: give others by --key",
                ShownInList(name)
            ),
            Reason::KeyNoRecord => f.write_str("not one record of CSV"),
            Reason::RepeatedName(name) => write!(f, "the column {} twice", ShownInList(name)),
            Reason::NeitherHas(name) => {
                write!(f, "neither table has a column {}", ShownInList(name))
            }
            Reason::ManyNames(names) => write!(
                f,
                "more than two names of a column: {}",
                ShownInList(names)
            ),
            Reason::NoTolerance { given, wrong } => write!(f, "{}: {wrong}", ShownName(given)),
            Reason::ToleranceOfKey(name) => write!(
                f,
                "--tolerance: {} is a column of the key, whose cells are compared as they stand",
                ShownInList(name)
            ),
            Reason::NamedTwice { line, name } => write!(
                f,
                "line {line}: a column is to have the name {}, which another has",
                ShownInList(name)
            ),
            Reason::JoinedTwice { name, option } => write!(
                f,
                "the join has two columns {}: give another by {option}",
                ShownInList(name)
            ),
            Reason::NoSign(line) => write!(f, "line {line}: the first cell is neither - nor +"),
            Reason::NotRising(line) => {
                write!(
                    f,
                    "line {line}: the key is not greater than the one before it"
                )
            }
            Reason::TwiceStdin => f.write_str("- may name only one file"),
            Reason::CellCount {
                line,
                expected,
                found,
            } => {
                let verb = if *expected == 1 { "is" } else { "are" };
                let (cells, columns) = (Count(*found, "cell"), Count(*expected, "column"));
                write!(f, "line {line}: {cells}, and there {verb} {columns}")?;
                f.write_str(if found < expected {
                    " (--ragged takes a short row)"
                } else {
                    " (--comment and --skip pass lines over, --delimiter parts cells)"
                })
            }
            Reason::RepeatedKey(repeated) => {
                write!(
                    f,
                    "line {}: duplicate key {}, first on line {}: give more columns by --key, or --group",
                    repeated.second,
                    ShownKey(&repeated.key),
                    repeated.first
                )
            }
            Reason::RepeatedRight(repeated) => {
                write!(
                    f,
                    "line {}: duplicate key {}, first on line {}: give more columns by --key",
                    repeated.second,
                    ShownKey(&repeated.key),
                    repeated.first
                )
            }
        }
    }
}

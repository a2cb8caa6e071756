//! Why a table of an SQLite file can't be read.

use keyed_faults::ShownInList;
use sqlite_pages::Error;
use std::alloc::{AllocError, AllocFailed};
use std::fmt;

/// Why a table can't be read. Prints as what the file is or has, with no name of the file and no remedy.
#[derive(Drop)]
pub enum Problem {
    /// A request for memory was refused.
    NoMemory,
    /// The bytes are not those of a whole SQLite file.
    Damaged,
    /// Its texts are in UTF-16.
    Utf16,
    /// It has no table.
    NoTables,
    /// It has more than one table, which are these, and none is named.
    Unnamed(Vec<Vec<u8>>),
    /// It has no table of the name, but these.
    NoTable(Vec<Vec<u8>>),
    /// What has the name is a view.
    View,
    /// It is a virtual table, whose rows a program makes.
    Virtual,
    /// Its CREATE TABLE is one that is not read here.
    Definition,
    /// A row is older than a column of the table, and what it has there is not read here.
    Default,
}

impl From<AllocError> for Problem {
    fn from(_refused: AllocError) -> Self {
        Problem::NoMemory
    }
}

impl<T: Drop> From<AllocFailed<T>> for Problem {
    fn from(_refused: AllocFailed<T>) -> Self {
        Problem::NoMemory
    }
}

impl From<Error> for Problem {
    fn from(error: Error) -> Self {
        match error {
            Error::OutOfMemory => Problem::NoMemory,
            Error::Corrupt | Error::Io | Error::Full => Problem::Damaged,
        }
    }
}

// A text in memory takes all rows, unless a request for memory is refused.
impl From<csv::Error> for Problem {
    fn from(_refused: csv::Error) -> Self {
        Problem::NoMemory
    }
}

// How many tables are named where none is found.
const SHOWN_TABLES: usize = 10;

// The names of tables: all, or the first ten.
#[derive(Clone, Copy)]
struct ShownTables<'a>(&'a [Vec<u8>]);

impl fmt::Display for ShownTables<'_> {
    fn fmt<W: fmt::Write>(&self, f: &mut fmt::Formatter<W>) -> fmt::Result {
        f.write_str(match self.0.len() {
            0 => "there is none",
            1 => "there is ",
            2..=SHOWN_TABLES => "there are ",
            _ => "the first ten are ",
        })?;
        for (place, name) in self.0.iter().take(SHOWN_TABLES).enumerate() {
            if place > 0 {
                f.write_str(", ")?;
            }
            write!(f, "{}", ShownInList(name))?;
        }
        Ok(())
    }
}

impl fmt::Display for Problem {
    fn fmt<W: fmt::Write>(&self, f: &mut fmt::Formatter<W>) -> fmt::Result {
        match self {
            Problem::NoMemory => f.write_str("out of memory"),
            Problem::Damaged => f.write_str("no whole SQLite file"),
            Problem::Utf16 => f.write_str("an SQLite file whose texts are in UTF-16"),
            Problem::NoTables => f.write_str("an SQLite file with no table"),
            Problem::Unnamed(tables) => {
                write!(
                    f,
                    "an SQLite file with several tables; {}",
                    ShownTables(tables)
                )
            }
            Problem::NoTable(tables) => write!(f, "no such table; {}", ShownTables(tables)),
            Problem::View => f.write_str("a view of an SQLite file"),
            Problem::Virtual => f.write_str("a virtual table of an SQLite file"),
            Problem::Definition => {
                f.write_str("a table of an SQLite file whose definition is not read here")
            }
            Problem::Default => f.write_str(
                "a table of an SQLite file with a column that came later, whose default is not read here",
            ),
        }
    }
}

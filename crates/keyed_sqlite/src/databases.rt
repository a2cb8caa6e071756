//! Tables of SQLite files in the place of files of CSV: `FILE:TABLE`, or `FILE` where it has one table. The file is read as a whole into
//! memory, and never written; no file is made beside it. What is made of its bytes stands in `text`.

use crate::opened::Opened;
use crate::pages::{BEGINNING, is_database};
use crate::problem::Problem;
use crate::text::table_text;
use keyed_faults::Shown;
use std::alloc::{AllocError, Global};
use std::cell::RefCell;
use std::fs::OpenOptions;
use std::io::{ErrorKind, Read};
use std::rt::Files;
use std::{fmt, fs, io};

/// What becomes of SQLite files.
#[derive(Clone, Copy, Debug, PartialEq, Eq)]
pub enum Reading {
    /// Their tables are read, each as a whole.
    Tables,
    /// They are refused, since rows are wanted in the order of their keys.
    Sorted,
    /// They are opened as other files are.
    LeftAlone,
}

// A name as it was asked for, and why no table could be read under it.
#[derive(Drop)]
struct Refused {
    path: String,
    why: String,
}

/// How SQLite files are read, and those that were refused so far.
#[derive(Drop)]
pub struct Databases {
    alloc: Global,
    reading: Reading,
    refused: RefCell<Vec<Refused>>,
}

impl Databases {
    /// No file is refused yet.
    pub fn new(alloc: Global, reading: Reading) -> Self {
        Databases {
            alloc,
            reading,
            refused: RefCell::new(Vec::new(alloc)),
        }
    }

    /// Why a file of this name was refused as an SQLite file, if it was.
    ///
    /// # Errors
    ///
    /// Returns `AllocError` if a request for memory was refused.
    pub fn why(&self, path: &str) -> Result<Option<String>, AllocError> {
        let Ok(refused) = self.refused.try_borrow() else {
            return Ok(None);
        };
        match refused.iter().find(|refused| refused.path.as_str() == path) {
            Some(found) => Ok(Some(String::from_str(self.alloc, &found.why)?)),
            None => Ok(None),
        }
    }

    // Notes why a file is refused. The error says no more than that it is.
    fn refuse(&self, path: &str, why: Why<'_>) -> io::Error {
        match self.note(path, why) {
            Ok(()) => io::Error::from(ErrorKind::InvalidData),
            Err(error) => error,
        }
    }

    fn note(&self, path: &str, why: Why<'_>) -> io::Result<()> {
        let refused = Refused {
            path: String::from_str(self.alloc, path)?,
            why: format!(in self.alloc; "{why}")?,
        };
        self.refused.try_borrow_mut()?.push(refused)?;
        Ok(())
    }

    /// Opens a file: as a text of CSV, where it is a table of an SQLite file that is to be read.
    ///
    /// # Errors
    ///
    /// Returns the error of the system, and `InvalidData` where an SQLite file is refused, which is noted.
    pub fn open<R: Files>(
        &self,
        rt: &R,
        how: &OpenOptions,
        path: &str,
    ) -> io::Result<Opened<R::File>> {
        if self.reading == Reading::LeftAlone || how.asks_create_new() {
            return self.plain(rt.open_file(how, path)?);
        }
        if how.asks_write() || how.asks_append() {
            return self.open_written(rt, how, path);
        }
        match rt.open_file(how, path) {
            Ok(file) => self.begin(rt, path, file),
            Err(error) if error.kind() == ErrorKind::NotFound => match named_table(path) {
                Some(named) => self.open_table(rt, path, named, error),
                None => Err(error),
            },
            Err(error) => Err(error),
        }
    }

    // A file as it is.
    fn plain<F>(&self, file: F) -> io::Result<Opened<F>> {
        Ok(Opened::begun(Vec::new(self.alloc), file))
    }

    // Opens a file that is to be written, which may be no SQLite file.
    fn open_written<R: Files>(
        &self,
        rt: &R,
        how: &OpenOptions,
        path: &str,
    ) -> io::Result<Opened<R::File>> {
        if is_file(rt, path) {
            if let Ok(file) = fs::open(rt, path) {
                let mut file = file;
                if is_database(&self.beginning(&mut file)?) {
                    return Err(self.refuse(path, Why::Written));
                }
            }
        }
        self.plain(rt.open_file(how, path)?)
    }

    // Reads the first bytes of a file, which tell whether it is an SQLite file. Where that fails, so does the next read.
    fn beginning<F: Read>(&self, file: &mut F) -> Result<Vec<u8>, AllocError> {
        let mut given = Vec::new(self.alloc);
        let mut room = [0; BEGINNING];
        for _ in 0..BEGINNING {
            let most = BEGINNING.saturating_sub(given.len());
            match file.read(room.get_mut(..most).unwrap_or(&mut [])) {
                Ok(0) => break,
                Ok(count) => given.extend_from_slice(room.get(..count).unwrap_or(&[]))?,
                Err(error) if error.kind() == ErrorKind::Interrupted => {}
                Err(_) => break,
            }
        }
        Ok(given)
    }

    // Begins to read a file. What is no file on a disk may hold bytes back until others are read, and so is read as it is.
    fn begin<R: Files>(&self, rt: &R, path: &str, file: R::File) -> io::Result<Opened<R::File>> {
        if !is_file(rt, path) {
            return self.plain(file);
        }
        let mut file = file;
        let given = self.beginning(&mut file)?;
        if is_database(&given) {
            self.read_table(
                rt,
                path,
                Named {
                    file: path,
                    table: None,
                },
                given,
                file,
            )
        } else {
            Ok(Opened::begun(given, file))
        }
    }

    // Opens the table of a name in a file, or returns the error that the whole is no file.
    fn open_table<R: Files>(
        &self,
        rt: &R,
        path: &str,
        named: Named<'_>,
        error: io::Error,
    ) -> io::Result<Opened<R::File>> {
        if !is_file(rt, named.file) {
            return Err(error);
        }
        let mut file = fs::open(rt, named.file)?;
        let given = self.beginning(&mut file)?;
        if is_database(&given) {
            self.read_table(rt, path, named, given, file)
        } else {
            Err(error)
        }
    }

    // Reads the rest of a file, and makes a text of its table.
    fn read_table<R: Files>(
        &self,
        rt: &R,
        path: &str,
        named: Named<'_>,
        given: Vec<u8>,
        file: R::File,
    ) -> io::Result<Opened<R::File>> {
        if self.reading == Reading::Sorted {
            return Err(self.refuse(path, Why::Sorted));
        }
        self.check_beside(rt, path, named.file)?;
        let mut bytes = given;
        let mut file = file;
        file.read_to_end(&mut bytes)?;
        // Whoever began to change it meanwhile may have changed what was read.
        self.check_beside(rt, path, named.file)?;
        match table_text(self.alloc, &bytes, named.table) {
            Ok(text) => Ok(Opened::of_text(text)),
            Err(Problem::NoMemory) => Err(io::Error::from(ErrorKind::OutOfMemory)),
            Err(problem) => Err(self.refuse(path, Why::Unread(named, &problem))),
        }
    }

    // Refuses a file with changes that stand beside it.
    fn check_beside<R: Files>(&self, rt: &R, path: &str, file: &str) -> io::Result<()> {
        let log = format!(in self.alloc; "{file}-wal")?;
        if first_byte(rt, &log)?.is_some() {
            return Err(self.refuse(path, Why::Log(file)));
        }
        // A journal whose changes are all in the file may stay, with zeros at its start.
        let journal = format!(in self.alloc; "{file}-journal")?;
        match first_byte(rt, &journal)? {
            None | Some(0) => Ok(()),
            Some(_) => Err(self.refuse(path, Why::Journal(file))),
        }
    }
}

// A file, and the table that is meant of it, where one is named.
#[derive(Clone, Copy)]
struct Named<'a> {
    file: &'a str,
    table: Option<&'a str>,
}

// The file and the table that a name may mean: what stands before and after the last colon.
fn named_table(path: &str) -> Option<Named<'_>> {
    let (file, table) = path.rsplit_once(':')?;
    if file.is_empty() || table.is_empty() {
        return None;
    }
    Some(Named {
        file,
        table: Some(table),
    })
}

// Whether a name leads to a file on a disk.
fn is_file<R: Files>(rt: &R, path: &str) -> bool {
    match rt.metadata(path) {
        Ok(found) => found.is_file(),
        Err(_) => false,
    }
}

// The first byte of a file, if it is there and has one.
fn first_byte<R: Files>(rt: &R, path: &str) -> io::Result<Option<u8>> {
    let mut file = match fs::open(rt, path) {
        Ok(file) => file,
        Err(error) if error.kind() == ErrorKind::NotFound => return Ok(None),
        Err(error) => return Err(error),
    };
    let mut byte = [0];
    match file.read(&mut byte)? {
        0 => Ok(None),
        _ => Ok(Some(byte[0])),
    }
}

// Why an SQLite file is refused, and what to do.
#[derive(Clone, Copy)]
enum Why<'a> {
    Written,
    Sorted,
    Log(&'a str),
    Journal(&'a str),
    Unread(Named<'a>, &'a Problem),
}

impl fmt::Display for Why<'_> {
    fn fmt<W: fmt::Write>(&self, f: &mut fmt::Formatter<W>) -> fmt::Result {
        match *self {
            Why::Written => f.write_str(
                "an SQLite file, which is never written: name another output",
            ),
            Why::Sorted => {
                f.write_str(
                    "an SQLite file, whose rows come in the order of rowids: leave out --sorted",
                )
            }
            Why::Log(file) => {
                let file = Shown(file.as_bytes());
                write!(
                    f,
                    "changes of it stand in {file}-wal: close the program that has it open, or "
                )?;
                write!(f, "try sqlite3 {file} 'PRAGMA wal_checkpoint(TRUNCATE)'")
            }
            Why::Journal(file) => {
                let file = Shown(file.as_bytes());
                write!(
                    f,
                    "changes of it that are not whole stand in {file}-journal: close the program that writes it, or "
                )?;
                write!(f, "try sqlite3 {file} 'SELECT count(*) FROM sqlite_schema'")
            }
            Why::Unread(named, problem) => {
                write!(f, "{problem}")?;
                show_remedy(f, named, problem)
            }
        }
    }
}

// What to do where a table can't be read.
fn show_remedy<W: fmt::Write>(
    f: &mut fmt::Formatter<W>,
    named: Named<'_>,
    problem: &Problem,
) -> fmt::Result {
    let file = Shown(named.file.as_bytes());
    match problem {
        Problem::NoMemory | Problem::NoTables | Problem::NoTable(_) => Ok(()),
        Problem::Damaged => write!(f, ": try sqlite3 {file} 'PRAGMA integrity_check'"),
        Problem::Unnamed(_) => write!(f, ": name one, as in {file}:TABLE"),
        Problem::Utf16
        | Problem::View
        | Problem::Virtual
        | Problem::Definition
        | Problem::Default => {
            let table = plain_name(named.table);
            write!(
                f,
                ": try sqlite3 -header -csv {file} 'SELECT * FROM {table}' | keyed .. -"
            )
        }
    }
}

// The name of a table as it can stand in SQL that a shell is given, and else a word in its place.
fn plain_name(table: Option<&str>) -> &str {
    match table {
        Some(name) if name.bytes().all(is_plain) => name,
        _ => "TABLE",
    }
}

fn is_plain(byte: u8) -> bool {
    byte.is_ascii_alphanumeric() || byte == b'_'
}

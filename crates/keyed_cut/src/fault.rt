//! What can be wrong where tables are cut, and the line that says so.

use keyed_faults::{Fault, Reason, Shown};
use std::alloc::AllocError;
use std::{fmt, io};

/// What is wrong where tables are cut. Prints as `FILE: REASON`, on one line, with no control character.
#[derive(Drop)]
pub enum CutFault<'a> {
    /// With a table, or the file of an earlier cut.
    Input(Fault<'a>),
    /// With a table, or what is asked of it.
    Asked { file: &'a str, reason: CutReason },
    /// With a file that was being written.
    Written { file: String, reason: Reason },
    /// So many parts are too many files at once: the one that could not be made.
    ManyFiles { file: String, parts: usize },
    /// A request for memory was refused.
    NoMemory,
}

/// What is wrong with a table, or with what is asked of it.
#[derive(Clone, Copy)]
pub enum CutReason {
    /// The standard input can't be read twice.
    ReadTwice,
    /// The folder is there.
    IsThere,
    /// So many parts are too few or too many.
    PartCount(u64),
    /// The table has another number of rows when it is read again.
    Changed,
    /// The file is none that a cut has written.
    NoListing,
    /// An earlier cut had a key of so many columns, and this one has another.
    KeyLength { earlier: usize, found: usize },
}

impl<'a> From<Fault<'a>> for CutFault<'a> {
    fn from(fault: Fault<'a>) -> Self {
        CutFault::Input(fault)
    }
}

impl From<AllocError> for CutFault<'_> {
    fn from(_refused: AllocError) -> Self {
        CutFault::NoMemory
    }
}

// How many files the system lets a process have open is reached, or those of all processes.
const MANY_FILES: [i32; 2] = [24, 23];

/// The fault of a file that could not be made.
pub fn not_made<'a>(file: String, error: io::Error, parts: usize) -> CutFault<'a> {
    match error.raw_os_error() {
        Some(code) if MANY_FILES.contains(&code) => CutFault::ManyFiles { file, parts },
        _ => CutFault::Written {
            file,
            reason: Reason::Io(error),
        },
    }
}

impl fmt::Display for CutReason {
    fn fmt<W: fmt::Write>(&self, f: &mut fmt::Formatter<W>) -> fmt::Result {
        match self {
            CutReason::ReadTwice => f.write_str("cut reads each table twice: give a file"),
            CutReason::IsThere => f.write_str("it is there already: give a folder to be made"),
            CutReason::PartCount(count) => { write!(f, "{count} parts, and there may be 1 to 999") }
            CutReason::Changed => {
                f.write_str("it has other rows when it is read again: leave it until cut has ended")
            }
            CutReason::NoListing => f.write_str("not the cut.csv of an earlier cut"),
            CutReason::KeyLength { earlier, found } => {
                write!(
                    f,
                    "cut by a key of {earlier} columns, and there are {found}: give them by --key"
                )
            }
        }
    }
}

impl fmt::Display for CutFault<'_> {
    fn fmt<W: fmt::Write>(&self, f: &mut fmt::Formatter<W>) -> fmt::Result {
        match self {
            CutFault::Input(fault) => write!(f, "{fault}"),
            CutFault::Asked { file, reason } => write!(f, "{}: {reason}", Shown(file.as_bytes())),
            CutFault::Written { file, reason } => write!(f, "{}: {reason}", Shown(file.as_bytes())),
            CutFault::ManyFiles { file, parts } => write!(
                f,
                "{}: too many open files for {parts} parts: raise ulimit -n, or ask for fewer",
                Shown(file.as_bytes())
            ),
            CutFault::NoMemory => f.write_str("cut: out of memory"),
        }
    }
}

//! What is wrong with a line of a case file.

use std::alloc::{AllocError, AllocFailed};
use std::{fmt, io};

/// Why a line of a case file is not taken.
#[derive(Debug, Drop)]
pub enum Wrong {
    /// It means nothing, for this reason.
    Line(&'static str),
    /// What stands around it failed.
    Io(io::Error),
}

impl fmt::Display for Wrong {
    fn fmt<W: fmt::Write>(&self, f: &mut fmt::Formatter<W>) -> fmt::Result {
        match self {
            Wrong::Line(why) => write!(f, "{why}"),
            Wrong::Io(error) => write!(f, "{error}"),
        }
    }
}

impl From<io::Error> for Wrong {
    fn from(error: io::Error) -> Self {
        Wrong::Io(error)
    }
}

impl From<AllocError> for Wrong {
    fn from(error: AllocError) -> Self {
        Wrong::Io(io::Error::from(error))
    }
}

impl<T: Drop> From<AllocFailed<T>> for Wrong {
    fn from(failed: AllocFailed<T>) -> Self {
        Wrong::from(AllocError::from(failed))
    }
}

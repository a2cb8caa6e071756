//! A row as it is read, and a key that stands twice.
ghost use Rattle.std.specs.Prelude.{◌≡◌};
ghost use Rattle.keyed_rows.specs.declared.row.UniqueError.TheVariants.{NoMemory};

use crate::cells::Cells;
use crate::key::Key;
use std::alloc::{AllocError, AllocFailed};

/// A row as it is read: its key, the line that it begins on, and its other cells.
#[derive(Drop)]
pub struct ReadRow {
    pub key: Key,
    pub line: u64,
    pub cells: Cells,
}

/// A key that stands twice, with the lines of its first two rows.
#[derive(Debug, Drop)]
pub struct RepeatedKey {
    pub key: Key,
    pub first: u64,
    pub second: u64,
}

/// Why rows are no table in which each key stands once.
#[derive(Debug, Drop)]
pub enum UniqueError {
    /// A request for memory was refused.
    NoMemory,
    /// A key stands twice.
    RepeatedKey(RepeatedKey),
}

impl From<AllocError> for UniqueError {
    ghost from_gives = { λ e error. error ≡ NoMemory };

    fn from(_refused: AllocError) -> Self {
        UniqueError::NoMemory
    }
}

impl<T: Drop> From<AllocFailed<T>> for UniqueError {
    ghost from_gives = { λ e error. error ≡ NoMemory };

    fn from(_refused: AllocFailed<T>) -> Self {
        UniqueError::NoMemory
    }
}

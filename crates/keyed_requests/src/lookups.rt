//! What is wanted of a table whose rows are looked up in another.

use crate::request::{JoinNames, RowFormat, check_files};
use keyed_faults::Fault;

/// Which rows of the left table a look-up gives.
#[derive(Clone, Copy, Debug)]
pub enum LookupKind {
    /// All, with empty cells where the right table has no row.
    Left,
    /// Those whose key the right table has.
    Inner,
    /// Those whose key it lacks, with their cells alone.
    Anti,
}

/// How rows are looked up: which there are, what the header of CSV has, and how rows are written. The name of a first column is not
/// wanted.
#[derive(Clone, Copy, Debug)]
pub struct Finding<'a> {
    pub kind: LookupKind,
    pub names: JoinNames<'a>,
    pub format: RowFormat,
}

/// What is wanted of a table whose rows are looked up in another, in files by name, of which `-` is the standard input.
#[derive(Clone, Copy, Debug)]
pub struct Lookup<'a> {
    pub left: &'a str,
    pub right: &'a str,
    pub how: Finding<'a>,
}

impl Lookup<'_> {
    /// Tells that no more than one of the files is the standard input.
    ///
    /// # Errors
    ///
    /// Returns `TwiceStdin` if both are.
    pub fn check_stdin<'a>(self) -> Result<(), Fault<'a>> {
        check_files(&[self.left, self.right])
    }
}

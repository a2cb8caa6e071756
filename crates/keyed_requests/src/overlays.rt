//! What is wanted of tables that are laid one over the other.

use crate::request::{Delimiter, check_files};
use keyed_faults::{Fault, at};
use std::alloc::{AllocError, Global};

/// A file by its name, with the byte between its cells.
#[derive(Clone, Copy, Debug)]
pub struct NamedFile<'a> {
    pub file: &'a str,
    pub delimiter: Delimiter,
}

/// What of a table lies over the same of those below it.
#[derive(Clone, Copy, Debug)]
pub enum Layer {
    /// Each row.
    Rows,
    /// Each cell that is not empty.
    Cells,
}

/// What is wanted of tables that are laid one over the other, the last one on top, in files by name, of which `-` is the standard input.
#[derive(Debug, Drop)]
pub struct Overlay<'a> {
    pub files: Vec<NamedFile<'a>>,
    pub layer: Layer,
}

impl Overlay<'_> {
    /// Tells that no more than one of the files is the standard input.
    ///
    /// # Errors
    ///
    /// Returns `TwiceStdin` if the standard input is named twice, and `NoMemory` as a fault of it if a request for memory was refused.
    pub fn check_stdin<'a>(&self, alloc: Global) -> Result<(), Fault<'a>> {
        let names = at("-", self.names(alloc))?;
        check_files(&names)
    }

    // The names of the files.
    fn names(&self, alloc: Global) -> Result<Vec<&str>, AllocError> {
        let mut names = Vec::new(alloc);
        for file in &self.files {
            names.push(file.file)?;
        }
        Ok(names)
    }
}

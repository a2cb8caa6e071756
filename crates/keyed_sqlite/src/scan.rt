//! The rows of a table, one after the other, in the order of their rowids.

use crate::problem::Problem;
use sqlite_btree::{Batch, Scratch, table};
use sqlite_pages::Memory;
use std::alloc::Global;

/// How far the rows of a table are read.
#[derive(Drop)]
pub struct Scan {
    root: u32,
    scratch: Scratch,
    batch: Batch,
    // The least rowid that the next row may have, if there may be one.
    least: Option<i64>,
}

impl Scan {
    /// Begins before the first row of the table whose tree has this root.
    pub fn new(alloc: Global, root: u32) -> Self {
        Scan {
            root,
            scratch: Scratch::new(alloc),
            batch: Batch::new(alloc),
            least: Some(i64::MIN),
        }
    }

    /// The rowid of the row that was read last.
    pub fn rowid(&self) -> i64 {
        self.batch.rowid()
    }

    /// The record of the row that was read last.
    pub fn record(&self) -> &[u8] {
        self.batch.payload()
    }

    /// Reads the next row. Returns whether there is one.
    ///
    /// # Errors
    ///
    /// Returns `Damaged` if a page is not what the format asks or a rowid is not above the one before it, and `NoMemory` if a request for
    /// memory was refused.
    pub fn advance(&mut self, pages: &mut Memory) -> Result<bool, Problem> {
        let Some(least) = self.least else {
            return Ok(false);
        };
        if !self.batch.next(pages)? {
            table::fill(pages, &mut self.scratch, self.root, least, &mut self.batch)?;
            if !self.batch.next(pages)? {
                self.least = None;
                return Ok(false);
            }
        }
        let rowid = self.batch.rowid();
        if rowid < least {
            return Err(Problem::Damaged);
        }
        self.least = rowid.checked_add(1);
        Ok(true)
    }
}

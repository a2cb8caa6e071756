//! The rows of a table that are looked up in another, written as CSV.
ghost use Rattle.std.specs.Prelude.{[], ◌∷◌, OnOk, option_map};
ghost use Rattle.keyed_columns.specs.Placed.{placed};
ghost use Rattle.keyed_files.specs.FoundRows.{found_cells, found_row};
ghost use Rattle.keyed_files.specs.Writing.{PutsCells, PutsRows};

use crate::written::Written;
use keyed_columns::{Columns, JoinColumns};
use keyed_rows::{Cells, Key};
use std::alloc::AllocError;

impl Written {
    /// Puts a row of the left table, and after it the cells that were found, or as many empty ones.
    ///
    /// # Errors
    ///
    /// Returns `AllocError` if a request for memory was refused.
    pub fn put_found(
        &mut self,
        columns: &JoinColumns,
        key: &Key,
        rest: &Cells,
        found: Option<&Cells>,
    ) -> Result<(), AllocError>
        ensures { OnOk result (PutsRows self.old self.new
            (found_row columns.now key.now rest.now (option_map (λ cells. cells.now) found.entry) ∷ [])) }
    {
        self.put_placed(&columns.left.order, key, rest)?;
        self.put_found_cells(columns, found)?;
        self.end_row()?;
        Ok(())
    }

    // Puts the cells that were found, or as many empty ones.
    fn put_found_cells(
        &mut self,
        columns: &JoinColumns,
        found: Option<&Cells>,
    ) -> Result<(), AllocError>
        ensures { OnOk result (PutsCells self.old self.new
            (found_cells columns.now (option_map (λ cells. cells.now) found.entry))) }
    {
        match found {
            Some(cells) => self.put(cells),
            None => self.put_absent(&columns.right.rest),
        }
    }

    /// Puts a row of the left table that was not found.
    ///
    /// # Errors
    ///
    /// Returns the errors of `put_found`.
    pub fn put_lone(&mut self, columns: &Columns, key: &Key, rest: &Cells) -> Result<(), AllocError>
        ensures { OnOk result (PutsRows self.old self.new
            (placed columns.now.order.items key.now rest.now ∷ [])) }
    {
        self.put_placed(&columns.order, key, rest)?;
        self.end_row()?;
        Ok(())
    }
}

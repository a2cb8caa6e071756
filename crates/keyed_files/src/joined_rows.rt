//! The header and the rows of a join, written as CSV: an absent side has empty cells.
ghost use Rattle.std.specs.Prelude.{◌≡◌, ◌++◌, ◌∷◌, [], OnOk, map, option_and_then, option_map, slice_get};
ghost use Rattle.keyed_files.specs.JoinedRows.{join_heading, joined_row, joined_rows};
ghost use Rattle.keyed_files.specs.JoinedRows.{rows_beside, side_count, side_row};
ghost use Rattle.keyed_files.specs.Writing.{PutsCells, PutsRows};

use crate::written::Written;
use keyed_columns::JoinColumns;
use keyed_rows::{Cells, Group, Key};
use std::alloc::AllocError;

/// What a row of a join has: the rows of each side, and a cell that stands before its key, if there is one.
#[derive(Clone, Copy)]
pub struct Sides<'a> {
    pub first: Option<&'static [u8]>,
    pub left: Option<&'a Group>,
    pub right: Option<&'a Group>,
}

impl Written {
    /// Puts the header of a join. Files with no row make a join of no column, whose header is none.
    ///
    /// # Errors
    ///
    /// Returns `AllocError` if a request for memory was refused.
    pub fn put_join_heading(&mut self, header: &Cells) -> Result<(), AllocError>
        ensures { OnOk result (PutsRows self.old self.new (join_heading header.now)) }
    {
        if header.is_empty() {
            return Ok(());
        }
        self.put(header)?;
        self.end_row()?;
        Ok(())
    }

    /// Puts each row of the left side with each row of the right one. An absent side is one row of empty cells.
    ///
    /// # Errors
    ///
    /// Returns `AllocError` if a request for memory was refused.
    pub fn put_joined(
        &mut self,
        columns: &JoinColumns,
        key: &Key,
        sides: Sides<'_>,
    ) -> Result<(), AllocError>
        ensures { OnOk result (PutsRows self.old self.new (joined_rows columns.now key.now sides.entry)) }
    {
        for place in 0..count_of(sides.left) {
            self.put_beside(columns, key, sides, place)?;
        }
        Ok(())
    }

    // Puts a row of the left side with each row of the right one.
    fn put_beside(
        &mut self,
        columns: &JoinColumns,
        key: &Key,
        sides: Sides<'_>,
        left: usize,
    ) -> Result<(), AllocError>
        ensures { OnOk result (PutsRows self.old self.new
            (rows_beside columns.now key.now sides.entry left)) }
    {
        for right in 0..count_of(sides.right) {
            self.put_pair(columns, key, sides, left, right)?;
        }
        Ok(())
    }

    // Puts a row of the left side with one of the right side.
    fn put_pair(
        &mut self,
        columns: &JoinColumns,
        key: &Key,
        sides: Sides<'_>,
        left: usize,
        right: usize,
    ) -> Result<(), AllocError>
        ensures { OnOk result (PutsRows self.old self.new
            (joined_row columns.now key.now sides.entry left right ∷ [])) }
    {
        self.put_first(sides.first)?;
        self.put_key(key)?;
        self.put_side(sides.left, left, &columns.left.rest)?;
        self.put_side(sides.right, right, &columns.right.rest)?;
        self.end_row()?;
        Ok(())
    }

    // Puts the cells of a key.
    fn put_key(&mut self, key: &Key) -> Result<(), AllocError>
        ensures { OnOk result (PutsCells self.old self.new key.now) }
    {
        for cell in key.iter() {
            self.put_cell(cell)?;
        }
        Ok(())
    }

    // Puts a row of a side, or an empty cell for each name of its columns.
    fn put_side(
        &mut self,
        side: Option<&Group>,
        place: usize,
        names: &Cells,
    ) -> Result<(), AllocError>
        ensures { OnOk result (PutsCells self.old self.new
            (side_row (option_map (λ group. group.now) side.entry) place names.now)) }
    {
        match row_of(side, place) {
            Some(cells) => self.put(cells),
            None => self.put_absent(names),
        }
    }

    // Puts an empty cell for each of these names.
    pub(crate) fn put_absent(&mut self, names: &Cells) -> Result<(), AllocError>
        ensures { OnOk result (PutsCells self.old self.new (map (λ name. []) names.now)) }
    {
        for _name in names {
            self.put_cell(b"")?;
        }
        Ok(())
    }
}

// How many rows a side has: an absent one has one, of empty cells.
fn count_of(side: Option<&Group>) -> usize
    ensures { result ≡ side_count (option_map (λ group. group.now) side.entry) }
{
    match side {
        Some(group) => group.rows().len(),
        None => 1,
    }
}

// The row of a side at a place, if there is one.
fn row_of(side: Option<&Group>, place: usize) -> Option<&Cells>
    ensures { option_map (λ row. row.now) result
        ≡ option_and_then (λ group. slice_get group.now place) side.entry }
{
    match side {
        Some(group) => group.rows().get(place),
        None => None,
    }
}

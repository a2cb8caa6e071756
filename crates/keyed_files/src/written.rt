//! Rows written as CSV, in memory.
ghost use Rattle.std.specs.Prelude.{◌≡◌, ◌∷◌, ◌++◌, [], List, ℕ, IfOk, OnOk, option_map};
ghost use Rattle.keyed_columns.specs.Placed.{first_cells, placed};
ghost use Rattle.keyed_files.specs.Rows.{change_name, has_heading, heading, names_row, rows_under};
ghost use Rattle.keyed_files.specs.Rows.{shown_sign, table_rows};
ghost use Rattle.keyed_files.specs.Writing.{EndsRow, IsTextOf, PutsCells, PutsRows, Wrote, file_text};

use crate::checked::marks_of;
use crate::first_cell::quote_first;
use crate::sign::Sign;
use keyed_columns::{Columns, Place, PlacedCells};
use keyed_requests::Form;
use keyed_rows::{Cells, Group, Key};
use keyed_text::RowWriter;
use std::alloc::{AllocError, Global};

/// A table in the making.
#[derive(Drop)]
pub struct Written {
    rows: RowWriter<Vec<u8>>,
}

impl Written {
    /// No row yet.
    pub fn new(alloc: Global, form: Form) -> Self
        ensures { Wrote form [] result }
    {
        Written {
            rows: RowWriter::in_style(Vec::new(alloc), marks_of(form), form.writing.style),
        }
    }

    /// Puts cells into the row.
    ///
    /// # Errors
    ///
    /// Returns `AllocError` if a request for memory was refused.
    pub fn put(&mut self, cells: &Cells) -> Result<(), AllocError>
        ensures { OnOk result (PutsCells self.old self.new cells.now) }
    {
        for cell in cells {
            self.put_cell(cell)?;
        }
        Ok(())
    }

    /// Puts one cell into the row.
    ///
    /// # Errors
    ///
    /// Returns `AllocError` if a request for memory was refused.
    pub fn put_cell(&mut self, cell: &[u8]) -> Result<(), AllocError>
        ensures { OnOk result (PutsCells self.old self.new (cell.now ∷ [])) }
    {
        self.rows.put_cell(cell).map_err(refused)?;
        Ok(())
    }

    /// Ends the row.
    ///
    /// # Errors
    ///
    /// Returns `AllocError` if a request for memory was refused.
    pub fn end_row(&mut self) -> Result<(), AllocError>
        ensures { OnOk result (EndsRow self.old self.new) }
    {
        self.rows.end_row().map_err(refused)?;
        Ok(())
    }

    /// The bytes of all rows.
    ///
    /// # Errors
    ///
    /// Returns `AllocError` if a request for memory was refused.
    pub fn finish(self) -> Result<Vec<u8>, AllocError>
        ensures { IfOk result (λ text. IsTextOf self text.items) }
    {
        match self.rows.finish() {
            Ok(text) => Ok(text),
            Err(error) => Err(refused(error)),
        }
    }

    /// Puts the header of changes: the name of the column of signs, and the names of the columns as they are marked.
    ///
    /// # Errors
    ///
    /// Returns `AllocError` if a request for memory was refused.
    pub fn put_change_heading(&mut self, marked: &Cells) -> Result<(), AllocError>
        ensures { OnOk result (PutsRows self.old self.new ((change_name ∷ marked.now) ∷ [])) }
    {
        self.put_cell(b"change")?;
        self.put(marked)?;
        self.end_row()?;
        Ok(())
    }

    // Puts a cell that stands before those of a row, if there is one.
    pub(crate) fn put_first(&mut self, first: Option<&[u8]>) -> Result<(), AllocError>
        ensures { OnOk result (PutsCells self.old self.new
            (first_cells (option_map (λ cell. cell.now) first.entry))) }
    {
        match first {
            Some(cell) => self.put_cell(cell),
            None => Ok(()),
        }
    }

    // Puts the cells of a whole row in an order of columns.
    pub(crate) fn put_placed(
        &mut self,
        order: &[Place],
        key: &Key,
        rest: &Cells,
    ) -> Result<(), AllocError>
        ensures { OnOk result (PutsCells self.old self.new (placed order.now key.now rest.now)) }
    {
        let mut cells = PlacedCells::new(key, rest);
        for place in order {
            self.put_cell(cells.take(*place))?;
        }
        Ok(())
    }

    // Puts the cells of a whole row, after a first cell if there is one, in the order of the columns, and ends it.
    fn put_row(
        &mut self,
        first: Option<&[u8]>,
        order: &[Place],
        key: &Key,
        rest: &Cells,
    ) -> Result<(), AllocError>
        ensures { OnOk result (PutsRows self.old self.new
            ((first_cells (option_map (λ cell. cell.now) first.entry)
            ++ placed order.now key.now rest.now) ∷ [])) }
    {
        self.put_first(first)?;
        self.put_placed(order, key, rest)?;
        self.end_row()?;
        Ok(())
    }

    // Puts the names of columns, after a first cell if there is one, and ends the row.
    fn put_heading(&mut self, first: Option<&[u8]>, columns: &Columns) -> Result<(), AllocError>
        ensures { OnOk result (PutsRows self.old self.new
            (names_row (option_map (λ cell. cell.now) first.entry) columns.now ∷ [])) }
    {
        match &columns.spelled {
            Some(names) => self.put_names(first, names),
            None => {
                let key = Key::copied(&columns.key)?;
                self.put_row(first, &columns.order, &key, &columns.rest)
            }
        }
    }

    // Puts names, after a first cell if there is one, and ends the row.
    fn put_names(&mut self, first: Option<&[u8]>, names: &Cells) -> Result<(), AllocError>
        ensures { OnOk result (PutsRows self.old self.new
            ((first_cells (option_map (λ cell. cell.now) first.entry) ++ names.now) ∷ [])) }
    {
        self.put_first(first)?;
        self.put(names)?;
        self.end_row()?;
        Ok(())
    }

    /// Puts the rows under a key, each after a sign if there is one.
    ///
    /// # Errors
    ///
    /// Returns `AllocError` if a request for memory was refused.
    pub fn put_rows(
        &mut self,
        sign: Option<Sign>,
        columns: &Columns,
        key: &Key,
        rows: &Group,
    ) -> Result<(), AllocError>
        ensures { OnOk result (PutsRows self.old self.new
            (rows_under (option_map shown_sign sign) columns.now.order.items key.now rows.now)) }
    {
        let first = cell_of(sign);
        for rest in rows.rows() {
            self.put_row(first, &columns.order, key, rest)?;
        }
        Ok(())
    }
}

// What it means that rows can't be written: they go into memory, and all have as many cells.
fn refused(_error: csv::Error) -> AllocError {
    AllocError
}

// The cell that a sign is, if there is one.
fn cell_of(sign: Option<Sign>) -> Option<&'static [u8]>
    ensures { option_map (λ cell. cell.now) result ≡ option_map shown_sign sign }
{
    match sign {
        Some(sign) => Some(sign.cell()),
        None => None,
    }
}

/// A table in the making with its header, if it has one, after a first cell if there is one.
///
/// # Errors
///
/// Returns `AllocError` if a request for memory was refused.
pub fn begin_table(
    alloc: Global,
    form: Form,
    first: Option<&[u8]>,
    columns: &Columns,
) -> Result<Written, AllocError>
    ensures { IfOk result (λ written. Wrote form
        (heading form (option_map (λ cell. cell.now) first.entry) columns.now) written) }
{
    let mut written = Written::new(alloc, form);
    if has_heading(form, first, columns) {
        written.put_heading(first, columns)?;
        Ok(written)
    } else {
        Ok(written)
    }
}

/// Whether a table has a heading. Files with no row make a table of no column, whose heading is none.
pub(crate) fn has_heading(form: Form, first: Option<&[u8]>, columns: &Columns) -> bool
    ensures { result ≡ has_heading form (option_map (λ cell. cell.now) first.entry) columns.now }
{
    form.writes_heading() && (first.is_some() || !columns.order.is_empty())
}

/// A table as a file of CSV in the style of the form: its heading, if it has one, and its rows, by key. Each row is dropped once it is
/// written.
///
/// # Errors
///
/// Returns `AllocError` if a request for memory was refused.
pub fn write_table(
    alloc: Global,
    form: Form,
    columns: &Columns,
    rows: Vec<(Key, Group)>,
) -> Result<Vec<u8>, AllocError>
    ensures { IfOk result (λ text. text.items
        ≡ file_text form (heading form None columns.now ++ table_rows columns.now.order.items rows.items)) }
{
    let mut written = begin_table(alloc, form, None, columns)?;
    put_table(&mut written, columns, rows)?;
    let text = written.finish()?;
    let given = quote_first(alloc, text, form.delimiter)?;
    let file = form.writing.style.finish(alloc, given)?;
    Ok(file)
}

// Puts rows, by key. Each row is dropped once it is written.
fn put_table(
    written: &mut Written,
    columns: &Columns,
    rows: Vec<(Key, Group)>,
) -> Result<(), AllocError>
    ensures { OnOk result (PutsRows written.old written.new (table_rows columns.now.order.items rows.items)) }
{
    for row in rows {
        written.put_rows(None, columns, &row.0, &row.1)?;
    }
    Ok(())
}

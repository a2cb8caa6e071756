//! A table written so that its rows keep the spelling that they have in a text.
ghost use Rattle.std.specs.Prelude.{◌≡◌, ◌∷◌, ◌++◌, [], IfOk, None, OnOk, drop, if◌then◌else◌};
ghost use Rattle.keyed_text.specs.Spelling.{blank_lines, body_as, cell_as, cells_as, first_quoted, row_end};
ghost use Rattle.keyed_text.specs.Spelling.{shown_body};
ghost use Rattle.keyed_columns.specs.Placed.{placed};
ghost use Rattle.keyed_requests.specs.FormBytes.{comment_of, delimiter_of};
ghost use Rattle.keyed_files.specs.Rows.{heading, rows_under, table_rows};
ghost use Rattle.keyed_files.specs.SpelledFiles.{IsFileIn, IsSpelledEachIn, PutsSpelled};

use crate::checked::marks_of;
use crate::first_cell::quote_first;
use crate::table_spelling::TableSpelling;
use crate::written::{has_heading, write_table};
use keyed_columns::{Columns, Place, PlacedCells};
use keyed_requests::Form;
use keyed_rows::{Cells, Group, Iter, Key};
use keyed_text::{CellQuotes, LineEnd, Marks, RowSpelling, Style};
use std::alloc::{AllocError, Global};

// How a table is written: the spelling of the rows that have one of their own, and that of the others.
#[derive(Clone, Copy)]
struct Spelled<'s> {
    form: Form,
    columns: &'s Columns,
    table: &'s TableSpelling,
    plain: &'s RowSpelling,
}

// Room for the cells of a row, for their text, and for the cells by which the row is found.
#[derive(Drop)]
struct Room {
    row: Cells,
    body: Vec<u8>,
    found: Cells,
}

/// A table as a file of CSV: its heading, if it has one, and its rows, by key. Rows keep the spelling that they have in the text of a table
/// with the same heading; the others are in the style of the form. Each row is dropped once it is written.
///
/// # Errors
///
/// Returns `AllocError` if a request for memory was refused.
pub fn write_spelled_table(
    alloc: Global,
    form: Form,
    columns: &Columns,
    rows: Vec<(Key, Group)>,
    table: &TableSpelling,
) -> Result<Vec<u8>, AllocError>
    ensures { IfOk result (λ text. IsFileIn form
        (heading form None columns.now ++ table_rows columns.now.order.items rows.items) text.items) }
{
    if table.is_even() || columns.spelled.is_none() {
        let text = write_table(alloc, form, columns, rows)?;
        Ok(text)
    } else {
        let text = write_each(alloc, form, columns, rows, table)?;
        Ok(text)
    }
}

// A table as a file, row by row.
fn write_each(
    alloc: Global,
    form: Form,
    columns: &Columns,
    rows: Vec<(Key, Group)>,
    table: &TableSpelling,
) -> Result<Vec<u8>, AllocError>
    ensures { IfOk result (λ text. IsSpelledEachIn form
        (heading form None columns.now ++ table_rows columns.now.order.items rows.items) text.items) }
{
    let plain = plain_spelling(alloc, form.writing.style, columns.order.len())?;
    let spelled = Spelled {
        form,
        columns,
        table,
        plain: &plain,
    };
    let mut room = Room {
        row: Cells::new(alloc),
        body: Vec::new(alloc),
        found: Cells::new(alloc),
    };
    let mut text = Vec::new(alloc);
    spelled.put_heading(&mut text, &mut room)?;
    spelled.put_table(&mut text, &mut room, rows)?;
    put_after(&mut text, form.writing.style, table.after())?;
    let given = quote_first(alloc, text, form.delimiter)?;
    let file = form.writing.style.finish(alloc, given)?;
    Ok(file)
}

// The spelling of a row of so many cells in a style.
fn plain_spelling(alloc: Global, style: Style, count: usize) -> Result<RowSpelling, AllocError> {
    let mut quotes = Vec::new(alloc);
    for _ in 0..count {
        quotes.push(style.quotes == CellQuotes::Everywhere)?;
    }
    Ok(RowSpelling {
        before: Vec::new(alloc),
        quotes,
        line_end: style.line_end,
    })
}

impl Spelled<'_> {
    // Puts the heading, if there is one.
    fn put_heading(self, text: &mut Vec<u8>, room: &mut Room) -> Result<(), AllocError>
        ensures { OnOk result (PutsSpelled self.entry.form text.old.items text.new.items
            (heading self.entry.form None self.entry.columns.now)) }
    {
        if !has_heading(self.form, None, self.columns) {
            return Ok(());
        }
        let spelling = self.table.heading().unwrap_or(self.plain);
        match &self.columns.spelled {
            Some(names) => put_row(text, &mut room.body, self.form, spelling, names),
            None => {
                let key = Key::copied(&self.columns.key)?;
                place_row(&mut room.row, &self.columns.order, &key, &self.columns.rest)?;
                put_row(text, &mut room.body, self.form, spelling, &room.row)
            }
        }
    }

    // Puts rows, by key. Each row is dropped once it is written.
    fn put_table(
        self,
        text: &mut Vec<u8>,
        room: &mut Room,
        rows: Vec<(Key, Group)>,
    ) -> Result<(), AllocError>
        ensures { OnOk result (PutsSpelled self.entry.form text.old.items text.new.items
            (table_rows self.entry.columns.now.order.items rows.items)) }
    {
        for row in rows {
            self.put_group(text, room, &row.0, &row.1)?;
        }
        Ok(())
    }

    // Puts the rows under a key.
    fn put_group(
        self,
        text: &mut Vec<u8>,
        room: &mut Room,
        key: &Key,
        rows: &Group,
    ) -> Result<(), AllocError>
        ensures { OnOk result (PutsSpelled self.entry.form text.old.items text.new.items
            (rows_under None self.entry.columns.now.order.items key.now rows.now)) }
    {
        for rest in rows.rows() {
            self.put_one(text, room, key, rest)?;
        }
        Ok(())
    }

    // Puts the row under a key with these other cells.
    fn put_one(
        self,
        text: &mut Vec<u8>,
        room: &mut Room,
        key: &Key,
        rest: &Cells,
    ) -> Result<(), AllocError>
        ensures { OnOk result (PutsSpelled self.entry.form text.old.items text.new.items
            (placed self.entry.columns.now.order.items key.now rest.now ∷ [])) }
    {
        let spelling = self.table.of_row(key, rest, &mut room.found)?;
        place_row(&mut room.row, &self.columns.order, key, rest)?;
        put_row(
            text,
            &mut room.body,
            self.form,
            spelling.unwrap_or(self.plain),
            &room.row,
        )
    }
}

// Puts the cells of a row into the room for them, in an order of columns.
fn place_row(row: &mut Cells, order: &[Place], key: &Key, rest: &Cells) -> Result<(), AllocError>
    ensures { OnOk result (row.new ≡ placed order.now key.now rest.now) }
{
    row.clear();
    let mut cells = PlacedCells::new(key, rest);
    for place in order {
        row.push(cells.take(*place))?;
    }
    Ok(())
}

// Puts a row after a text, in a spelling. The room is for the text of its cells.
fn put_row(
    text: &mut Vec<u8>,
    body: &mut Vec<u8>,
    form: Form,
    spelling: &RowSpelling,
    row: &Cells,
) -> Result<(), AllocError>
    ensures { OnOk result (PutsSpelled form text.old.items text.new.items (row.now ∷ [])) }
{
    let style = form.writing.style;
    body.clear();
    put_cells(body, marks_of(form), &spelling.quotes, row)?;
    put_lines(text, &spelling.before)?;
    put_body(text, body)?;
    text.extend_from_slice(row_end(style, spelling).bytes())?;
    Ok(())
}

// Puts the text of the cells of a row, or two quotes, where that shows no byte.
fn put_body(text: &mut Vec<u8>, body: &[u8]) -> Result<(), AllocError>
    ensures { OnOk result (text.new.items ≡ text.old.items ++ shown_body body.now) }
{
    if body.is_empty() {
        text.extend_from_slice(b"\"\"")?;
        Ok(())
    } else {
        text.extend_from_slice(body)?;
        Ok(())
    }
}

// How a row ends: as the style has it, where the last row of the text has no end.
fn row_end(style: Style, spelling: &RowSpelling) -> LineEnd
    ensures { result ≡ row_end style spelling.now }
{
    if style.has_end {
        spelling.line_end
    } else {
        style.line_end
    }
}

// Puts the blank lines that stand after the last row, where this has an end.
fn put_after(text: &mut Vec<u8>, style: Style, after: &[LineEnd]) -> Result<(), AllocError>
    ensures { OnOk result (text.new.items
        ≡ text.old.items ++ (if style.has_end then blank_lines after.now else [])) }
{
    if style.has_end {
        put_lines(text, after)?;
        Ok(())
    } else {
        Ok(())
    }
}

// Puts blank lines.
fn put_lines(text: &mut Vec<u8>, ends: &[LineEnd]) -> Result<(), AllocError>
    ensures { OnOk result (text.new.items ≡ text.old.items ++ blank_lines ends.now) }
{
    for end in ends {
        text.extend_from_slice(end.bytes())?;
    }
    Ok(())
}

// Puts the text of the cells of a row.
fn put_cells(
    body: &mut Vec<u8>,
    marks: Marks,
    quotes: &[bool],
    row: &Cells,
) -> Result<(), AllocError>
    ensures { OnOk result (body.new.items
        ≡ body.old.items ++ body_as marks.delimiter marks.comment quotes.now row.now) }
{
    let mut cells = row.iter();
    match cells.next() {
        Some(first) => {
            marks.put_cell(body, is_first_quoted(quotes), first)?;
            put_more(body, marks, after_first(quotes), cells)
        }
        None => Ok(()),
    }
}

// Puts the text of cells that stand after another one.
fn put_more(
    body: &mut Vec<u8>,
    marks: Marks,
    quotes: &[bool],
    cells: Iter<'_>,
) -> Result<(), AllocError>
    ensures { OnOk result (body.new.items
        ≡ body.old.items ++ cells_as marks.delimiter marks.comment quotes.now cells.entry) }
{
    let mut quotes = quotes;
    for cell in cells {
        put_next(body, marks, is_first_quoted(quotes), cell)?;
        quotes = after_first(quotes);
    }
    Ok(())
}

// Puts the byte between cells, and the text of a cell.
fn put_next(body: &mut Vec<u8>, marks: Marks, quoted: bool, cell: &[u8]) -> Result<(), AllocError>
    ensures { OnOk result (body.new.items ≡ body.old.items
        ++ (marks.delimiter ∷ cell_as marks.delimiter marks.comment quoted cell.now)) }
{
    body.push(marks.delimiter)?;
    marks.put_cell(body, quoted, cell)?;
    Ok(())
}

fn is_first_quoted(quotes: &[bool]) -> bool
    ensures { result ≡ first_quoted quotes.now }
{
    match quotes {
        [first, ..] => *first,
        [] => false,
    }
}

fn after_first(quotes: &[bool]) -> &[bool]
    ensures { result.now ≡ drop 1 quotes.now }
{
    match quotes {
        [_, rest @ ..] => rest,
        [] => &[],
    }
}

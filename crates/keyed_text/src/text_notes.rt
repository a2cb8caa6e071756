//! How a text is spelled whose style is known, as it is noted of its bytes on their way to a reader: the rows that are spelled in another
//! way, and whether its last line has an end.
use crate::quotes::Marks;
use crate::spelled_cells::{SpelledCells, begins_blank};
use crate::style::{CellQuotes, LineEnd, MARK, Style};
use memchr::{memchr_iter, memchr2};
use std::alloc::{AllocError, Global};

/// What is noted of a text up to the byte that was read last: the text of each row that is not written in its style, and whether the last
/// line has an end.
#[derive(Drop)]
pub struct TextNotes {
    alloc: Global,
    marks: Marks,
    // How many lines are still to be passed over.
    skipped: u64,
    style: Style,
    // How far it was read.
    read: Read,
    // The line that is being read, as far as a part of the text had it.
    line: Vec<u8>,
    // The blank lines before the next row, and the lines of that row which were read, in which a cell goes on where it is open.
    row: Vec<u8>,
    is_open: bool,
    uneven: Vec<u8>,
    // Whether the first row is one of these.
    begins_uneven: bool,
}

// How far a text was read: nothing of it, or a line, or a whole row.
#[derive(Clone, Copy, PartialEq, Eq)]
enum Read {
    Nothing,
    Line,
    Row,
}

impl TextNotes {
    /// Returns the notes of a text in this style of which nothing is read yet, with these bytes between its cells, and so many lines before
    /// the first row.
    pub fn new(alloc: Global, marks: Marks, skipped: u64, style: Style) -> Self {
        TextNotes {
            alloc,
            marks,
            skipped,
            style,
            read: Read::Nothing,
            line: Vec::new(alloc),
            row: Vec::new(alloc),
            is_open: false,
            uneven: Vec::new(alloc),
            begins_uneven: false,
        }
    }

    /// Returns whether the last line has an end, as far as the text is read.
    pub fn has_end(&self) -> bool {
        self.style.has_end
    }

    /// Returns the bytes that part the text.
    pub fn marks(&self) -> Marks {
        self.marks
    }

    /// Returns the rows that are not written in the style, as they stand in the text, one after the other, each after the blank lines before
    /// it; and then the blank lines at the end of the text.
    pub fn uneven_rows(&self) -> &[u8] {
        &self.uneven
    }

    /// Returns whether the first row of the text is one of them.
    pub fn begins_uneven(&self) -> bool {
        self.begins_uneven
    }

    /// Takes the next bytes of the text.
    ///
    /// # Errors
    ///
    /// Returns `AllocError` if a request for memory was refused.
    pub fn take(&mut self, bytes: &[u8]) -> Result<(), AllocError> {
        let mut start = 0;
        for end in memchr_iter(b'\n', bytes) {
            let behind = end.saturating_add(1);
            self.take_end(bytes.get(start..behind).unwrap_or(&[]))?;
            start = behind;
        }
        self.line
            .extend_from_slice(bytes.get(start..).unwrap_or(&[]))?;
        Ok(())
    }

    /// Takes the end of the text: no byte comes after those that were taken.
    ///
    /// # Errors
    ///
    /// Returns `AllocError` if a request for memory was refused.
    pub fn end(&mut self) -> Result<(), AllocError> {
        if !self.line.is_empty() {
            self.style.has_end = self.line.last() == Some(&b'\r') || self.is_mark_alone();
            self.take_end(&[])?;
        }
        self.uneven.extend_from_slice(&self.row)?;
        self.row.clear();
        Ok(())
    }

    // Whether nothing but a byte order mark was read, which is no line.
    fn is_mark_alone(&self) -> bool {
        self.read == Read::Nothing && self.row.is_empty() && self.line.as_slice() == MARK
    }

    // Takes the bytes up to the end of a line, after those of the line that were taken.
    fn take_end(&mut self, end: &[u8]) -> Result<(), AllocError> {
        if self.line.is_empty() {
            return self.take_line(end);
        }
        self.line.extend_from_slice(end)?;
        let line = std::mem::replace(&mut self.line, Vec::new(self.alloc));
        self.take_line(&line)
    }

    // Takes a line with its end.
    fn take_line(&mut self, line: &[u8]) -> Result<(), AllocError> {
        let line = self.without_mark(line);
        if self.is_passed_over(line) {
            self.note_line();
            return Ok(());
        }
        if self.is_even_at_once(line) {
            return Ok(());
        }
        self.row.extend_from_slice(line)?;
        if memchr_iter(b'"', line).count() % 2 == 1 {
            self.is_open = !self.is_open;
        }
        if self.is_open {
            return Ok(());
        }
        self.note_line();
        if begins_blank(line) {
            Ok(())
        } else {
            self.end_row()
        }
    }

    // Notes that a line is read.
    fn note_line(&mut self) {
        if self.read == Read::Nothing {
            self.read = Read::Line;
        }
    }

    // A line without the byte order mark of the text.
    fn without_mark<'l>(&self, line: &'l [u8]) -> &'l [u8] {
        if self.read != Read::Nothing || !self.row.is_empty() {
            return line;
        }
        line.strip_prefix(MARK).unwrap_or(line)
    }

    // Whether a line is passed over.
    fn is_passed_over(&mut self, line: &[u8]) -> bool {
        if self.skipped > 0 {
            self.skipped = self.skipped.saturating_sub(1);
            return true;
        }
        let first = line.first();
        !self.is_open && first.is_some_and(|byte| self.marks.begins_comment(*byte))
    }

    // Whether a line is a row in the style of the text, as one sees of those with no quote, and with no CR but that of their end. Others are
    // looked at cell by cell.
    fn is_even_at_once(&self, line: &[u8]) -> bool {
        if self.read != Read::Row || !self.row.is_empty() || begins_blank(line) {
            return false;
        }
        let found = memchr2(b'"', b'\r', line);
        match self.style {
            Style {
                quotes: CellQuotes::WhereNeeded,
                line_end: LineEnd::Lf,
                ..
            } => found.is_none(),
            Style {
                quotes: CellQuotes::WhereNeeded,
                line_end: LineEnd::CrLf,
                ..
            } => found.is_some() && found == line.len().checked_sub(2) && line.ends_with(b"\r\n"),
            _ => false,
        }
    }

    // Keeps a row that is read, with the blank lines before it, unless it is written in the style of the text.
    fn end_row(&mut self) -> Result<(), AllocError> {
        let is_first = self.read != Read::Row;
        self.read = Read::Row;
        if !self.is_even() {
            self.begins_uneven = self.begins_uneven || is_first;
            self.uneven.extend_from_slice(&self.row)?;
        }
        self.row.clear();
        Ok(())
    }

    // Whether the row that is read is written in the style of the text.
    fn is_even(&self) -> bool {
        let everywhere = self.style.quotes == CellQuotes::Everywhere;
        let mut cells = SpelledCells::new(self.marks, &self.row);
        for _ in 0..u64::MAX {
            match cells.next_cell() {
                Some(cell)
                    if cell.is_quoted == (everywhere || self.marks.needs_quotes(cell.inner)) => {}
                Some(_) => return false,
                None => break,
            }
        }
        let end = cells.rest();
        !begins_blank(&self.row) && (end.is_empty() || end == self.style.line_end.bytes())
    }
}

//! The cells of a row as they are spelled in its text.
use crate::quotes::Marks;
use memchr::{memchr_iter, memchr3};

/// A cell as a text spells it.
#[derive(Clone, Copy, Debug)]
pub struct SpelledCell<'t> {
    pub is_quoted: bool,
    /// The bytes between its quotes, where each quote of the cell stands twice, or all bytes of a cell that has none around it.
    pub inner: &'t [u8],
}

/// The cells of the row at the beginning of a text whose quotes are in order.
#[derive(Clone, Copy, Debug)]
pub struct SpelledCells<'t> {
    marks: Marks,
    rest: &'t [u8],
    is_over: bool,
}

impl<'t> SpelledCells<'t> {
    /// Returns the cells of the first row of a text, after the blank lines that stand before it.
    ///
    /// ```
    /// let marks = Marks { delimiter: b',', comment: None };
    /// let mut cells = SpelledCells::new(marks, b"\n\"id\",price\r\n");
    /// assert!(rt; cells.next_cell().is_some_and(|cell| cell.is_quoted && cell.inner == b"id"));
    /// assert!(rt; cells.next_cell().is_some_and(|cell| !cell.is_quoted && cell.inner == b"price"));
    /// assert!(rt; cells.next_cell().is_none() && cells.rest() == b"\r\n");
    /// ```
    pub fn new(marks: Marks, text: &'t [u8]) -> Self {
        SpelledCells {
            marks,
            rest: after_blank_lines(text),
            is_over: false,
        }
    }

    /// Returns the next cell, if there is one. Each row has at least one, which may be empty.
    pub fn next_cell(&mut self) -> Option<SpelledCell<'t>> {
        if self.is_over {
            return None;
        }
        let (cell, rest) = match self.rest.split_first() {
            Some((b'"', inner)) => quoted_cell(inner),
            _ => bare_cell(self.marks, self.rest),
        };
        match rest.split_first() {
            Some((byte, more)) if *byte == self.marks.delimiter => self.rest = more,
            _ => {
                self.rest = rest;
                self.is_over = true;
            }
        }
        Some(cell)
    }

    /// Returns the bytes after the last cell that was returned: after all of them, the end of the row and what follows it.
    pub fn rest(&self) -> &'t [u8] {
        self.rest
    }
}

// A cell whose text begins after the quote that opens it, and what comes after the one that closes it.
fn quoted_cell(text: &[u8]) -> (SpelledCell<'_>, &[u8]) {
    let (inner, rest) = text.split_at(place_of_closing(text).min(text.len()));
    let cell = SpelledCell {
        is_quoted: true,
        inner,
    };
    (cell, rest.get(1..).unwrap_or(&[]))
}

// Where the quote stands that closes a cell: the first one that is none of two that stand for one.
fn place_of_closing(text: &[u8]) -> usize {
    let mut second = None;
    for place in memchr_iter(b'"', text) {
        let next = place.saturating_add(1);
        if second == Some(place) {
            continue;
        }
        if text.get(next) != Some(&b'"') {
            return place;
        }
        second = Some(next);
    }
    text.len()
}

// A cell with no quotes around it, and what comes after it.
fn bare_cell(marks: Marks, text: &[u8]) -> (SpelledCell<'_>, &[u8]) {
    let end = memchr3(marks.delimiter, b'\r', b'\n', text).unwrap_or(text.len());
    let (inner, rest) = text.split_at(end.min(text.len()));
    let cell = SpelledCell {
        is_quoted: false,
        inner,
    };
    (cell, rest)
}

// A text after the blank lines at its beginning.
fn after_blank_lines(text: &[u8]) -> &[u8] {
    let blank = text
        .iter()
        .take_while(|byte| **byte == b'\n' || **byte == b'\r')
        .count();
    text.get(blank..).unwrap_or(&[])
}

/// Whether a text begins with a blank line, which LF or CR LF ends.
pub fn begins_blank(text: &[u8]) -> bool {
    text.starts_with(b"\n") || text.starts_with(b"\r\n")
}

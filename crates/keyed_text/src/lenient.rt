//! A reader that passes a text on in which a quote that quotes no cell of its line is a byte like any other.
ghost use Rattle.std.specs.Prelude.{◌≡◌, ◌≤◌, None, length};

use std::alloc::{AllocError, Global};
use std::io;
use std::io::Read;

// How many bytes are read at once.
const ROOM: usize = 65_536;

// A byte order mark, which a text may begin with.
const MARK: &[u8] = b"\xef\xbb\xbf";

/// A reader that passes on what another one gives, line by line, with the quotes of each line in order.
///
/// A quote at the beginning of a cell quotes it where another one ends it on the same line: after that one the cell ends. Each other quote
/// is a byte like any other, so that a stray one spoils no row after it. A cell that begins with such a quote is passed on in quotes, with
/// each of its own quotes twice, and all other bytes are passed on as they are.
#[derive(Drop)]
pub struct Lenient<R> {
    reader: R,
    delimiter: u8,
    room: Vec<u8>,
    // The line that was read last, and what is passed on of it.
    line: Vec<u8>,
    given: Vec<u8>,
    // How many bytes of that are passed on.
    at: usize,
    // Whether a line was read.
    has_begun: bool,
}

impl<R> Lenient<R> {
    /// Returns a reader of the whole text that another one gives, with this byte between cells.
    ///
    /// # Errors
    ///
    /// Returns `AllocError` if a request for memory was refused.
    pub fn new(alloc: Global, reader: R, delimiter: u8) -> Result<Self, AllocError>
    where
        R: Drop,
    {
        Ok(Lenient {
            reader,
            delimiter,
            room: vec![in alloc; 0; ROOM]?,
            line: Vec::new(alloc),
            given: Vec::new(alloc),
            at: 0,
            has_begun: false,
        })
    }

    /// Returns the reader whose bytes are passed on.
    pub fn get_ref(&self) -> &R {
        &self.reader
    }
}

impl<R: Read> Lenient<R> {
    // Reads the next line, if there is one, and puts its quotes in order.
    fn fill(&mut self) -> io::Result<()> {
        self.line.clear();
        for _ in 0..u64::MAX {
            let count = self.reader.read(&mut self.room)?;
            let part = self.room.get(..count).unwrap_or(&[]);
            self.line.extend_from_slice(part)?;
            if part.is_empty() || part.last().is_some_and(ends_line) {
                break;
            }
        }
        self.given.clear();
        self.at = 0;
        let start = length_of_start(self.has_begun, &self.line);
        put_line(&mut self.given, &self.line, start, self.delimiter)?;
        self.has_begun = true;
        Ok(())
    }
}

impl<R: Read> Read for Lenient<R> {
    ghost remaining = { λ s. None };

    fn read(&mut self, buf: &mut [u8]) -> io::Result<usize> {
        if self.given.len() <= self.at {
            self.fill()?;
        }
        let count = copy_from(&self.given, self.at, buf);
        self.at = self.at.saturating_add(count);
        Ok(count)
    }
}

// Copies bytes from a place on, as many as there is room for, and returns how many these are.
fn copy_from(bytes: &[u8], at: usize, buf: &mut [u8]) -> usize
    ensures room { length buf.new ≡ length buf.old }
    ensures count { result ≤ length buf.old }
{
    let rest = bytes.get(at..).unwrap_or(&[]);
    let count = rest.len().min(buf.len());
    buf[..count].copy_from_slice(&rest[..count]);
    count
}

fn ends_line(byte: &u8) -> bool {
    *byte == b'\n' || *byte == b'\r'
}

// How many bytes stand before the first cell of a line: a byte order mark, or the LF of the CR LF that ended the line before.
fn length_of_start(has_begun: bool, line: &[u8]) -> usize {
    if !has_begun && line.starts_with(MARK) {
        MARK.len()
    } else if line.starts_with(b"\n") {
        1
    } else {
        0
    }
}

// Puts a line whose cells begin after so many bytes.
fn put_line(
    text: &mut Vec<u8>,
    line: &[u8],
    start: usize,
    delimiter: u8,
) -> Result<(), AllocError> {
    if !line.contains(&b'"') {
        text.extend_from_slice(line)?;
        return Ok(());
    }
    let end = match line.split_last() {
        Some((last, cells)) if ends_line(last) => cells.len(),
        _ => line.len(),
    };
    text.extend_from_slice(line.get(..start).unwrap_or(&[]))?;
    put_cells(text, line.get(start..end).unwrap_or(&[]), delimiter)?;
    text.extend_from_slice(line.get(end.max(start)..).unwrap_or(&[]))?;
    Ok(())
}

// Puts the cells of a line, and the bytes between them.
fn put_cells(text: &mut Vec<u8>, cells: &[u8], delimiter: u8) -> Result<(), AllocError> {
    let mut rest = cells;
    // There is at most one cell more than there are bytes.
    for _ in 0..=cells.len() {
        let length = put_cell(text, rest, delimiter)?;
        match rest.get(length..) {
            Some([between, behind @ ..]) => {
                text.push(*between)?;
                rest = behind;
            }
            _ => return Ok(()),
        }
    }
    Ok(())
}

// Puts the first of some cells, and returns how many bytes it has.
fn put_cell(text: &mut Vec<u8>, cells: &[u8], delimiter: u8) -> Result<usize, AllocError> {
    match quoted_length(cells, delimiter) {
        Some(length) => {
            text.extend_from_slice(cells.get(..length).unwrap_or(cells))?;
            Ok(length)
        }
        None => {
            let length = bare_length(cells, delimiter);
            put_bare(text, cells.get(..length).unwrap_or(cells))?;
            Ok(length)
        }
    }
}

// How many bytes the first of some cells has, where it is in quotes.
fn quoted_length(cells: &[u8], delimiter: u8) -> Option<usize> {
    if !cells.starts_with(b"\"") {
        return None;
    }
    let mut is_closed = false;
    for (place, byte) in cells.iter().enumerate().skip(1) {
        if *byte == b'"' {
            is_closed = !is_closed;
        } else if is_closed {
            return if *byte == delimiter {
                Some(place)
            } else {
                None
            };
        }
    }
    if is_closed { Some(cells.len()) } else { None }
}

// How many bytes the first of some cells has, where it is in no quotes.
fn bare_length(cells: &[u8], delimiter: u8) -> usize {
    cells
        .iter()
        .position(|byte| *byte == delimiter)
        .unwrap_or(cells.len())
}

// Puts a cell that is in no quotes, so that a reader of CSV has it as it stands.
fn put_bare(text: &mut Vec<u8>, cell: &[u8]) -> Result<(), AllocError> {
    if !cell.starts_with(b"\"") {
        text.extend_from_slice(cell)?;
        return Ok(());
    }
    text.push(b'"')?;
    for byte in cell {
        if *byte == b'"' {
            text.push(b'"')?;
        }
        text.push(*byte)?;
    }
    text.push(b'"')?;
    Ok(())
}

//! A file that is read line by line, so that the line of each row is known.

ghost use Rattle.std.specs.Prelude.{◌≡◌, ◌<◌, ◌≤◌, IfOk, IsSome, IsTrue, None, OnOk, length, min, take};
ghost use Rattle.std.specs.Io.KnownBytes.{Keeps};
ghost use Rattle.keyed_files.specs.Lines.{Begins, lines_left};

use crate::ahead::Ahead;
use crate::first_cell::MARK;
use keyed_faults::Encoding;
use keyed_requests::{Comment, Reading};
use memchr::memchr2;
use std::alloc::{AllocError, Global};
use std::cell::Cell;
use std::io;
use std::io::Read;

/// A reader of which each read gets no more than the rest of a line, which LF, CR or CR LF ends. Whoever reads a row from it has read no
/// byte of the next line, so that the reader can tell on which line the row began.
///
/// The bytes are those of the file, but for the lines at its top that are passed over, and for the end of a line that the comment byte
/// begins: that is LF, also where it is CR in the file or is missing at its end, since LF alone ends such a line for whoever reads rows.
#[derive(Drop)]
pub struct ByLine<R> {
    file: Ahead<R>,
    // How many lines at the top are passed over.
    skipped: u64,
    lines: Lines,
}

impl<R: Drop> ByLine<R> {
    /// A reader of what another gives, at the start of a row on line 1.
    ///
    /// # Errors
    ///
    /// Returns `AllocError` if a request for memory was refused.
    pub fn new(alloc: Global, inner: R, reading: Reading) -> Result<Self, AllocError>
        ensures { IfOk result (Begins inner reading) }
    {
        Ok(ByLine {
            file: Ahead::new(alloc, inner)?,
            skipped: reading.skipped,
            lines: Lines {
                line: 1,
                follows_cr: false,
                mark: 0,
                comment: reading.comment.map(Comment::byte),
                comment_line: 0,
                row: Cell::new(None),
            },
        })
    }
}

impl<R> ByLine<R> {
    /// The reader of the file.
    pub fn get_ref(&self) -> &R
        ensures { result.now ≡ self.now.file.inner }
    {
        self.file.get_ref()
    }

    /// Notes that a row is read next, before which blank lines may stand.
    pub fn begin_row(&self) {
        self.lines.row.set(None);
    }

    /// The line on which the row that was read last begins, or 0 where no byte of one was read.
    pub fn row_line(&self) -> u64 {
        self.lines.row.get().unwrap_or(0)
    }
}

impl<R: Read> ByLine<R> {
    /// Reads the first bytes of the file, passes over the lines at its top, and returns what the file is if its first bytes are those of no
    /// text, or of one that is no CSV.
    ///
    /// # Errors
    ///
    /// Returns the error of the reader.
    pub fn begin(&mut self) -> io::Result<Option<Encoding>>
        ensures { OnOk result (self.old.skipped ≡ 0
            → Keeps (lines_left R.remaining self.old) (lines_left R.remaining self.new)) }
    {
        self.file.read_first()?;
        let first = self.file.rest();
        let encoding = Encoding::of_file(first);
        if first.starts_with(MARK) {
            self.lines.mark = MARK.len();
        }
        if self.skipped > 0 {
            self.skip_lines()?;
        }
        Ok(encoding)
    }

    // Passes over the lines at the top.
    fn skip_lines(&mut self) -> io::Result<()> {
        for _ in 0..u64::MAX {
            if self.skipped < self.lines.line {
                break;
            }
            self.file.fill()?;
            let rest = self.file.rest();
            if rest.is_empty() {
                break;
            }
            let count = self.lines.count(rest);
            self.file.pass(count);
        }
        self.begin_row();
        Ok(())
    }
}

impl<R: Read> Read for ByLine<R> {
    ghost remaining = { lines_left R.remaining };

    fn read(&mut self, buf: &mut [u8]) -> io::Result<usize> {
        self.file.fill()?;
        let rest = self.file.rest();
        if rest.is_empty() {
            return Ok(self.lines.end(buf));
        }
        let line = self.lines.line;
        let count = give(&mut self.lines, rest, buf);
        if self.lines.is_comment(line) {
            end_comment(&mut buf[..count]);
        }
        self.file.pass(count);
        Ok(count)
    }
}

// Copies those bytes that a read gets to the front, and returns how many these are.
fn give(lines: &mut Lines, rest: &[u8], buf: &mut [u8]) -> usize
    ensures bound { result ≤ min (length rest.now) (length buf.new) }
    ensures some { 0 < length rest.now → 0 < length buf.old → 0 < result }
    ensures copied { take result buf.new ≡ take result rest.now }
    ensures comment { lines.new.comment ≡ lines.old.comment }
{
    let most = rest.len().min(buf.len());
    let count = lines.count(&rest[..most]);
    buf[..count].copy_from_slice(&rest[..count]);
    count
}

// Has a part of a line that is passed over end with LF where it ends with CR.
fn end_comment(part: &mut [u8]) {
    if let Some(last) = part.last_mut() {
        if *last == b'\r' {
            *last = b'\n';
        }
    }
}

// Where a reader stands.
#[derive(Drop)]
struct Lines {
    // The line of the next byte, unless that is the LF of a CR LF whose CR was the last byte.
    line: u64,
    follows_cr: bool,
    // How many bytes of a byte order mark come next.
    mark: usize,
    // The byte that begins lines which are passed over.
    comment: Option<u8>,
    // The last such line, or 0 where there was none.
    comment_line: u64,
    // The line of the first byte of the row that ends no line, if such a byte was given.
    row: Cell<Option<u64>>,
}

impl Lines {
    // How many of these bytes a read gets: those up to the first end of a line. They are counted as given.
    fn count(&mut self, bytes: &[u8]) -> usize
        ensures bound { result ≤ length bytes.now }
        ensures some { 0 < length bytes.now → 0 < result }
        ensures comment { self.new.comment ≡ self.old.comment }
    {
        let from = self.pass(bytes);
        let line = &bytes[from..];
        let end = memchr2(b'\n', b'\r', line);
        if end != Some(0) {
            self.note(line.first());
        }
        match end {
            Some(end) => {
                self.follows_cr = line.get(end) == Some(&b'\r');
                self.line = self.line.saturating_add(1);
                from + end + 1
            }
            None => {
                self.follows_cr = false;
                bytes.len()
            }
        }
    }

    // How many bytes a read gets after the last one: the end of a line that is passed over, if that has none.
    fn end(&mut self, buf: &mut [u8]) -> usize
        ensures bound { result ≤ length buf.new }
        ensures none { self.old.comment ≡ None → result ≡ 0 }
        ensures comment { self.new.comment ≡ self.old.comment }
    {
        if !self.is_comment(self.line) || buf.is_empty() {
            return 0;
        }
        buf[0] = b'\n';
        self.line = self.line.saturating_add(1);
        1
    }

    // How many of these bytes come before those of a line: a byte order mark, or the LF of a CR LF.
    fn pass(&mut self, bytes: &[u8]) -> usize
        ensures bound { result ≤ length bytes.now }
        ensures comment { self.new.comment ≡ self.old.comment }
    {
        if self.mark > 0 {
            let count = self.mark.min(bytes.len());
            self.mark -= count;
            return count;
        }
        match bytes.first() {
            Some(b'\n') if self.follows_cr => 1,
            _ => 0,
        }
    }

    // Whether a line is one that is passed over.
    fn is_comment(&self, line: u64) -> bool
        ensures { IsTrue result → IsSome self.now.comment }
    {
        self.comment.is_some() && self.comment_line == line
    }

    // Notes the line of a byte that ends none, as that of a row or as one that is passed over.
    fn note(&mut self, byte: Option<&u8>)
        ensures comment { self.new.comment ≡ self.old.comment }
        ensures line { self.new.line ≡ self.old.line }
    {
        if byte.is_none() || self.row.get().is_some() || self.is_comment(self.line) {
            return;
        }
        if self.comment == byte.copied() {
            self.comment_line = self.line;
        } else {
            self.row.set(Some(self.line));
        }
    }
}

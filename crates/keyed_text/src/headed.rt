//! A reader whose first bytes are read before the others, so that the style of its text is known from the beginning.
ghost use Rattle.std.specs.Prelude.{◌≡◌, ◌++◌, ◌+◌, ◌<◌, ◌≤◌, ◌⊎◌, [], ℕ, IfOk, IfSome, IsTrue, List, OnOk, drop};
ghost use Rattle.std.specs.Prelude.{false, length, take, true};
ghost use Rattle.std.specs.Io.KnownBytes.{Keeps};
ghost use Rattle.keyed_text.specs.TextStyles.{NotesMore, headed_left, style_of, style_with};

use crate::quotes::Marks;
use crate::style::Style;
use crate::style_notes::StyleNotes;
use std::alloc::Global;
use std::io;
use std::io::{ErrorKind, Read};

// How many bytes are read at once.
const ROOM: usize = 8_192;

/// A reader whose first bytes were read before the others.
#[derive(Drop)]
pub struct Headed<R> {
    reader: R,
    // The first bytes, of which so many are passed on.
    head: Vec<u8>,
    passed: usize,
    // Whether no byte comes after them.
    is_ended: bool,
}

impl<R> Headed<R> {
    /// Returns a reader of which no byte is read before.
    pub fn unread(alloc: Global, reader: R) -> Self
        ensures same { result.reader ≡ reader }
        ensures goes_on { result.is_ended ≡ false }
        ensures none { result.head.items ≡ [] }
        ensures passed { result.passed ≡ 0 }
    {
        Headed {
            reader,
            head: Vec::new(alloc),
            passed: 0,
            is_ended: false,
        }
    }
}

impl<R: Read + Drop> Headed<R> {
    /// Returns a reader of the whole text that another one gives, and the style of the text, with an end to each row. The bytes that tell it
    /// are read before: those of the first row, and of the lines above it.
    ///
    /// # Errors
    ///
    /// Returns the error of the reader, or that a request for memory was refused.
    ///
    /// ```
    /// let marks = Marks { delimiter: b',', comment: None };
    /// let (mut reader, style) = Headed::new(alloc, b"\"id\"\r\n1\r\n".as_slice(), marks, 0)?;
    /// assert!(rt; style.line_end == LineEnd::CrLf && style.quotes == CellQuotes::Everywhere);
    /// let mut text = Vec::new(alloc);
    /// reader.read_to_end(&mut text)?;
    /// assert!(rt; text.as_slice() == b"\"id\"\r\n1\r\n");
    /// ```
    pub fn new(alloc: Global, reader: R, marks: Marks, skipped: u64) -> io::Result<(Self, Style)>
        ensures left { IfOk result (λ read. Keeps (R.remaining reader) (headed_left R.remaining read.0)) }
        ensures style { skipped ≡ 0 → IfOk result (λ read. IfSome (headed_left R.remaining read.0)
            (λ text. read.1 ≡ style_of marks text true)) }
    {
        let mut headed = Headed::unread(alloc, reader);
        let mut notes = StyleNotes::new(marks, skipped);
        let mut room = vec![in alloc; 0; ROOM]?;
        for _ in 0..u64::MAX {
            headed.read_more(&mut notes, &mut room)?;
            if headed.tells(&notes) {
                let style = notes.style();
                return Ok((headed, style));
            }
        }
        // So many bytes are more than there is memory for.
        Err(io::Error::from(ErrorKind::OutOfMemory))
    }
}

impl<R> Headed<R> {
    // Whether the first bytes tell the style of the text.
    fn tells(&self, notes: &StyleNotes) -> bool
        ensures told { IsTrue result → (self.now.is_ended ≡ true)
            ⊎ ((rest : List ℕ) → style_with notes.now rest ≡ style_with notes.now []) }
        ensures goes_on { result ≡ false → self.now.is_ended ≡ false }
    {
        if self.is_ended {
            true
        } else {
            notes.is_settled()
        }
    }
}

impl<R: Read> Headed<R> {
    // Reads and notes more of the first bytes, none of which is passed on.
    fn read_more(&mut self, notes: &mut StyleNotes, room: &mut [u8]) -> io::Result<()>
        requires room { 0 < length room.old }
        requires goes_on { self.old.is_ended ≡ false }
        requires unread { self.old.passed ≡ 0 }
        ensures kept { OnOk result (Keeps (headed_left R.remaining self.old) (headed_left R.remaining self.new)) }
        ensures passed { OnOk result (self.new.passed ≡ 0) }
        ensures noted { OnOk result ((more : List ℕ) × (self.new.head.items ≡ self.old.head.items ++ more)
            × (notes.old.skipped ≡ 0 → NotesMore notes.old notes.new more)) }
    {
        let count = self.reader.read(room)?;
        let more = &room[..count];
        self.head.extend_from_slice(more)?;
        notes.take(more);
        self.is_ended = count == 0;
        Ok(())
    }
}

impl<R: Read> Read for Headed<R> {
    ghost remaining = { headed_left R.remaining };

    fn read(&mut self, buf: &mut [u8]) -> io::Result<usize> {
        if self.passed < self.head.len() {
            let count = copy_from(&self.head, self.passed, buf);
            self.passed += count;
            Ok(count)
        } else if self.is_ended {
            Ok(0)
        } else {
            self.reader.read(buf)
        }
    }
}

// Copies bytes from a place on, as many as there is room for, and returns how many these are.
fn copy_from(bytes: &[u8], from: usize, buf: &mut [u8]) -> usize
    requires { from < length bytes.now }
    ensures room { length buf.new ≡ length buf.old }
    ensures bound { from + result ≤ length bytes.now }
    ensures fits { result ≤ length buf.new }
    ensures some { 0 < length buf.old → 0 < result }
    ensures copied { take result buf.new ≡ take result (drop from bytes.now) }
{
    let rest = &bytes[from..];
    let count = rest.len().min(buf.len());
    buf[..count].copy_from_slice(&rest[..count]);
    count
}

//! For tests alone: readers and writers over bytes in memory, which give, show and take some of them at a time, fail where a test says,
//! and tell what was asked of them.

use crate::random::Random;
use std::alloc::{AllocError, Global};
use std::cell::Cell;
use std::io::{BufRead, Cursor, ErrorKind, Read, Seek, SeekFrom, Write};
use std::{fmt, io};

// How many bytes a reader gives at most at a read.
#[derive(Drop)]
enum Piece {
    Fixed(usize),
    Drawn(Random),
}

impl Piece {
    fn next(&mut self) -> usize {
        match self {
            Piece::Fixed(length) => *length,
            Piece::Drawn(random) => random.below(40).saturating_add(1) as usize,
        }
    }
}

/// A reader of bytes in memory, some of them at a time. It can fail once where they end, and ends after that.
#[derive(Drop)]
pub struct PieceReader<'a> {
    rest: &'a [u8],
    piece: Piece,
    failure: Option<ErrorKind>,
}

impl<'a> PieceReader<'a> {
    /// A reader that gives at most so many bytes at a time.
    pub fn new(bytes: &'a [u8], length: usize) -> PieceReader<'a> {
        PieceReader {
            rest: bytes,
            piece: Piece::Fixed(length),
            failure: None,
        }
    }

    /// The same, which fails with an error of this kind where the bytes end, and ends after that.
    pub fn failing(bytes: &'a [u8], length: usize, kind: ErrorKind) -> PieceReader<'a> {
        PieceReader {
            rest: bytes,
            piece: Piece::Fixed(length),
            failure: Some(kind),
        }
    }

    /// A reader that gives pieces of up to forty bytes, whose lengths this seed determines.
    pub fn drawn(bytes: &'a [u8], seed: u64) -> PieceReader<'a> {
        PieceReader {
            rest: bytes,
            piece: Piece::Drawn(Random::new(seed)),
            failure: None,
        }
    }
}

impl Read for PieceReader<'_> {
    fn read(&mut self, buf: &mut [u8]) -> io::Result<usize> {
        if self.rest.is_empty() {
            if let Some(kind) = self.failure.take() {
                return Err(io::Error::from(kind));
            }
        }
        let count = self.piece.next().min(buf.len()).min(self.rest.len());
        buf[..count].copy_from_slice(&self.rest[..count]);
        self.rest = &self.rest[count..];
        Ok(count)
    }
}

/// What a writer does with bytes that it has no room for.
#[derive(Clone, Copy)]
pub enum Full {
    /// It fails.
    Fails,
    /// It is interrupted, and would take them if it were asked again.
    IsInterrupted,
    /// It takes none, with no error.
    TakesNone,
}

/// A writer into memory, which takes some bytes at a time, and only so many in all.
#[derive(Drop)]
pub struct PieceWriter {
    /// The bytes that it took.
    pub taken: Vec<u8>,
    /// How many it takes at most at a time.
    pub piece: usize,
    /// How many it takes in all.
    pub room: usize,
    /// What it does with those for which it has no room.
    pub full: Full,
    /// The kind of error with which a flush fails, where it does.
    pub flush_failure: Option<ErrorKind>,
    /// How often it was flushed.
    pub flushes: u8,
}

impl PieceWriter {
    /// A writer that takes at most so many bytes at a time, and has room for all.
    pub fn new(alloc: Global, piece: usize) -> PieceWriter {
        PieceWriter {
            taken: Vec::new(alloc),
            piece,
            room: usize::MAX,
            full: Full::Fails,
            flush_failure: None,
            flushes: 0,
        }
    }
}

impl Write for PieceWriter {
    fn write(&mut self, buf: &[u8]) -> io::Result<usize> {
        let room = self.room.saturating_sub(self.taken.len());
        let count = self.piece.min(buf.len()).min(room);
        match self.full {
            Full::Fails if count == 0 => Err(io::Error::from(ErrorKind::StorageFull)),
            Full::IsInterrupted if count == 0 => {
                self.room = usize::MAX;
                Err(io::Error::from(ErrorKind::Interrupted))
            }
            _ => {
                self.taken.extend_from_slice(&buf[..count])?;
                Ok(count)
            }
        }
    }

    fn flush(&mut self) -> io::Result<()> {
        self.flushes = self.flushes.saturating_add(1);
        match self.flush_failure {
            Some(kind) => Err(io::Error::from(kind)),
            None => Ok(()),
        }
    }
}

/// How many lines were taken of those that a [`LineReader`] gave, and whether it was asked for one while another was not.
#[derive(Drop)]
pub struct Turns {
    taken: Cell<usize>,
    is_early: Cell<bool>,
}

impl Turns {
    /// No line, and none asked for.
    pub fn new() -> Turns {
        Turns {
            taken: Cell::new(0),
            is_early: Cell::new(false),
        }
    }

    /// How many ends of lines the [`LineCounter`] took.
    pub fn taken(&self) -> usize {
        self.taken.get()
    }

    /// Whether a line was asked for while one that was given had no answer.
    pub fn is_early(&self) -> bool {
        self.is_early.get()
    }
}

/// A reader of the same line a number of times, one at each read.
#[derive(Drop)]
pub struct LineReader<'a> {
    line: &'a [u8],
    left: usize,
    given: usize,
    turns: &'a Turns,
}

impl<'a> LineReader<'a> {
    /// A reader that gives the line so many times.
    pub fn new(line: &'a [u8], times: usize, turns: &'a Turns) -> LineReader<'a> {
        LineReader {
            line,
            left: times,
            given: 0,
            turns,
        }
    }
}

impl Read for LineReader<'_> {
    fn read(&mut self, buf: &mut [u8]) -> io::Result<usize> {
        if self.given != self.turns.taken.get() {
            self.turns.is_early.set(true);
        }
        if self.left == 0 || buf.len() < self.line.len() {
            return Ok(0);
        }
        self.left -= 1;
        self.given = self.given.saturating_add(1);
        buf[..self.line.len()].copy_from_slice(self.line);
        Ok(self.line.len())
    }
}

/// A writer that counts the ends of lines that it takes.
#[derive(Drop)]
pub struct LineCounter<'a> {
    turns: &'a Turns,
}

impl<'a> LineCounter<'a> {
    /// A writer that counts here.
    pub fn new(turns: &'a Turns) -> LineCounter<'a> {
        LineCounter { turns }
    }
}

impl Write for LineCounter<'_> {
    fn write(&mut self, buf: &[u8]) -> io::Result<usize> {
        let ends = buf.iter().filter(|byte| **byte == b'\n').count();
        let taken = self.turns.taken.get().saturating_add(ends);
        self.turns.taken.set(taken);
        Ok(buf.len())
    }

    fn flush(&mut self) -> io::Result<()> {
        Ok(())
    }
}

/// The call of a [`Stream`] that fails where none does.
pub const NEVER: usize = usize::MAX;

/// Bytes in memory as a reader, seeker and writer that gives, shows and takes some of them at a time, and fails at one of its calls: by
/// [`ErrorKind::TimedOut`], with the text `the stream broke`.
#[derive(Drop)]
pub struct Stream {
    /// The bytes, those that were written among them.
    pub bytes: Vec<u8>,
    /// How often it was called.
    pub calls: usize,
    at: usize,
    piece: usize,
    fault: usize,
}

impl Stream {
    /// A stream of these bytes, at most `piece` of them at a time, which fails at its call number `fault`, counted from 0.
    pub fn new(
        alloc: Global,
        bytes: &[u8],
        piece: usize,
        fault: usize,
    ) -> Result<Stream, AllocError> {
        Ok(Stream {
            bytes: bytes.to_vec(alloc)?,
            calls: 0,
            at: 0,
            piece,
            fault,
        })
    }

    // Counts a call of the stream, and gives its error where it is the one that fails.
    fn count(&mut self) -> io::Result<()> {
        let call = self.calls;
        self.calls = call.saturating_add(1);
        if call == self.fault {
            Err(io::Error::new(ErrorKind::TimedOut, "the stream broke"))
        } else {
            Ok(())
        }
    }

    // What it shows.
    fn shown(&self) -> &[u8] {
        let rest = self.bytes.get(self.at..).unwrap_or(&[]);
        rest.get(..self.piece).unwrap_or(rest)
    }
}

impl Read for Stream {
    fn read(&mut self, buf: &mut [u8]) -> io::Result<usize> {
        self.count()?;
        let shown = self.shown();
        let taken = shown.len().min(buf.len());
        buf[..taken].copy_from_slice(&shown[..taken]);
        self.at = self.at.saturating_add(taken);
        Ok(taken)
    }
}

impl BufRead for Stream {
    fn fill_buf(&mut self) -> io::Result<&[u8]> {
        self.count()?;
        Ok(self.shown())
    }

    fn consume(&mut self, amount: usize) {
        self.at = self.at.saturating_add(amount);
    }
}

impl Seek for Stream {
    fn seek(&mut self, to: SeekFrom) -> io::Result<u64> {
        self.count()?;
        let mut place = Cursor::new(self.bytes.as_slice());
        place.set_position(self.at as u64);
        let at = place.seek(to)?;
        self.at = at as usize;
        Ok(at)
    }
}

impl Write for Stream {
    fn write(&mut self, buf: &[u8]) -> io::Result<usize> {
        self.count()?;
        let taken = buf.get(..self.piece).unwrap_or(buf);
        self.bytes.extend_from_slice(taken)?;
        Ok(taken.len())
    }

    fn flush(&mut self) -> io::Result<()> {
        self.count()
    }
}

/// A writer of texts that takes each whole text for which there is room, and fails at any other.
#[derive(Debug, PartialEq, Drop)]
pub struct NarrowText {
    /// How many bytes more it takes.
    pub room: usize,
}

impl fmt::Write for NarrowText {
    fn write_str(&mut self, text: &str) -> fmt::Result {
        match self.room.checked_sub(text.len()) {
            Some(rest) => {
                self.room = rest;
                Ok(())
            }
            None => Err(fmt::Error),
        }
    }
}

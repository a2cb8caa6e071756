//! For tests alone: readers and writers that give or take little at a time, and that fail where a test says. Each wraps another, and none
//! takes memory of its own.

use std::io;
use std::io::{ErrorKind, Read, Write};

/// A reader that gives some bytes of another, and then fails at each read.
///
/// ```
/// let mut reader = FailingReader::new(&b"text"[..], 2);
/// let mut bytes = [0; 4];
/// assert!(rt; reader.read(&mut bytes).ok() == Some(2));
/// assert!(rt; reader.read(&mut bytes).is_err());
/// ```
#[derive(Drop)]
pub struct FailingReader<R> {
    inner: R,
    left: usize,
}

impl<R> FailingReader<R> {
    /// A reader that fails once this many bytes are read.
    pub fn new(inner: R, count: usize) -> Self {
        FailingReader { inner, left: count }
    }
}

impl<R: Read> Read for FailingReader<R> {
    fn read(&mut self, buf: &mut [u8]) -> io::Result<usize> {
        let most = buf.len().min(self.left);
        if most == 0 {
            return Err(io::Error::from(ErrorKind::ConnectionReset));
        }
        let count = self.inner.read(&mut buf[..most])?;
        self.left = self.left.saturating_sub(count);
        Ok(count)
    }
}

/// A reader that gives one byte of another at a time.
#[derive(Drop)]
pub struct SlowReader<R> {
    inner: R,
}

impl<R> SlowReader<R> {
    /// A reader of what this one gives.
    pub fn new(inner: R) -> Self {
        SlowReader { inner }
    }
}

impl<R: Read> Read for SlowReader<R> {
    fn read(&mut self, buf: &mut [u8]) -> io::Result<usize> {
        let most = buf.len().min(1);
        self.inner.read(&mut buf[..most])
    }
}

/// A writer that hands some bytes to another, and then fails at each write, as a disk that is full.
#[derive(Drop)]
pub struct FullWriter<W> {
    /// What took the bytes.
    pub inner: W,
    room: usize,
}

impl<W> FullWriter<W> {
    /// A writer with room for this many bytes.
    pub fn new(inner: W, room: usize) -> Self {
        FullWriter { inner, room }
    }
}

impl<W: Write> Write for FullWriter<W> {
    fn write(&mut self, buf: &[u8]) -> io::Result<usize> {
        let most = buf.len().min(self.room);
        if most == 0 {
            return Err(io::Error::from(ErrorKind::StorageFull));
        }
        let count = self.inner.write(&buf[..most])?;
        self.room = self.room.saturating_sub(count);
        Ok(count)
    }

    fn flush(&mut self) -> io::Result<()> {
        self.inner.flush()
    }
}

/// A writer that hands some bytes to another, and then takes none at any write, with no error.
#[derive(Drop)]
pub struct StalledWriter<W> {
    /// What took the bytes.
    pub inner: W,
    room: usize,
}

impl<W> StalledWriter<W> {
    /// A writer with room for this many bytes.
    pub fn new(inner: W, room: usize) -> Self {
        StalledWriter { inner, room }
    }
}

impl<W: Write> Write for StalledWriter<W> {
    fn write(&mut self, buf: &[u8]) -> io::Result<usize> {
        let most = buf.len().min(self.room);
        if most == 0 {
            return Ok(0);
        }
        let count = self.inner.write(&buf[..most])?;
        self.room = self.room.saturating_sub(count);
        Ok(count)
    }

    fn flush(&mut self) -> io::Result<()> {
        self.inner.flush()
    }
}

/// A writer that hands one byte at a time to another.
#[derive(Drop)]
pub struct SlowWriter<W> {
    /// What took the bytes.
    pub inner: W,
}

impl<W> SlowWriter<W> {
    /// A writer to this one.
    pub fn new(inner: W) -> Self {
        SlowWriter { inner }
    }
}

impl<W: Write> Write for SlowWriter<W> {
    fn write(&mut self, buf: &[u8]) -> io::Result<usize> {
        let most = buf.len().min(1);
        self.inner.write(&buf[..most])
    }

    fn flush(&mut self) -> io::Result<()> {
        self.inner.flush()
    }
}

/// A writer that hands all bytes to another, and whose flush fails.
#[derive(Drop)]
pub struct UnflushedWriter<W> {
    /// What took the bytes.
    pub inner: W,
    flushes: u64,
}

impl<W> UnflushedWriter<W> {
    /// A writer to this one, which is never flushed.
    pub fn new(inner: W) -> Self {
        UnflushedWriter { inner, flushes: 0 }
    }

    /// How often a flush was asked for.
    pub fn flushes(&self) -> u64 {
        self.flushes
    }
}

impl<W: Write> Write for UnflushedWriter<W> {
    fn write(&mut self, buf: &[u8]) -> io::Result<usize> {
        self.inner.write(buf)
    }

    fn flush(&mut self) -> io::Result<()> {
        self.flushes = self.flushes.saturating_add(1);
        Err(io::Error::from(ErrorKind::BrokenPipe))
    }
}

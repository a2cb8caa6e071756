//! A file that is read ahead, so that it is read in few calls.
ghost use Rattle.std.specs.Prelude.{◌≡◌, [], IfOk, OnOk, drop, false};
ghost use Rattle.std.specs.Io.KnownBytes.{IsAtEnd, Keeps};
ghost use Rattle.keyed_files.specs.Lines.{ahead_of, left_of};

use crate::buffer::Buffer;
use keyed_faults::Encoding;
use std::alloc::{AllocError, Global};
use std::io;
use std::io::Read;

/// A reader, and the bytes that were read ahead of it and are not taken yet.
#[derive(Drop)]
pub struct Ahead<R> {
    inner: R,
    bytes: Buffer,
    // Whether the reader has said that it has no more.
    is_ended: bool,
}

impl<R: Drop> Ahead<R> {
    /// A reader of which nothing is read ahead.
    ///
    /// # Errors
    ///
    /// Returns `AllocError` if a request for memory was refused.
    pub fn new(alloc: Global, inner: R) -> Result<Self, AllocError>
        ensures inner { IfOk result (λ ahead. ahead.inner ≡ inner) }
        ensures goes_on { IfOk result (λ ahead. ahead.is_ended ≡ false) }
        ensures none { IfOk result (λ ahead. ahead_of ahead ≡ []) }
    {
        let bytes = Buffer::new(alloc)?;
        Ok(Ahead {
            inner,
            bytes,
            is_ended: false,
        })
    }
}

impl<R> Ahead<R> {
    /// The reader.
    pub fn get_ref(&self) -> &R
        ensures { result.now ≡ self.now.inner }
    {
        &self.inner
    }

    /// The bytes that are read ahead.
    pub fn rest(&self) -> &[u8]
        ensures { result.now ≡ ahead_of self.now }
    {
        self.bytes.rest()
    }

    /// Takes so many of these bytes, or all where there are fewer.
    pub fn pass(&mut self, count: usize)
        ensures rest { ahead_of self.new ≡ drop count (ahead_of self.old) }
        ensures inner { self.new.inner ≡ self.old.inner }
        ensures is_ended { self.new.is_ended ≡ self.old.is_ended }
    {
        self.bytes.pass(count);
    }
}

impl<R: Read> Ahead<R> {
    /// Reads until there are as many bytes as tell what a file is, or no more.
    ///
    /// # Errors
    ///
    /// Returns the error of the reader.
    pub fn read_first(&mut self) -> io::Result<()>
        ensures { Keeps (left_of R.remaining self.old) (left_of R.remaining self.new) }
    {
        for _ in 0..Encoding::TELLING {
            if Encoding::TELLING <= self.bytes.filled() {
                break;
            }
            self.read_more()?;
        }
        Ok(())
    }

    /// Reads if all bytes that were read are taken. Where there is none after that, the reader has no more.
    ///
    /// # Errors
    ///
    /// Returns the error of the reader.
    pub fn fill(&mut self) -> io::Result<()>
        ensures kept { Keeps (left_of R.remaining self.old) (left_of R.remaining self.new) }
        ensures end { OnOk result (ahead_of self.new ≡ [] → IsAtEnd (left_of R.remaining self.new)) }
    {
        if self.bytes.is_taken() {
            self.bytes.clear();
            self.read_more()?;
        }
        Ok(())
    }

    // Reads after the bytes that are read ahead, if there is room and the reader may have more.
    fn read_more(&mut self) -> io::Result<()>
        ensures kept { Keeps (left_of R.remaining self.old) (left_of R.remaining self.new) }
        ensures end { OnOk result (self.old.bytes.filled ≡ 0 → ahead_of self.new ≡ []
            → IsAtEnd (left_of R.remaining self.new)) }
    {
        if self.is_ended || !self.bytes.has_room() {
            return Ok(());
        }
        let count = self.bytes.read_behind(&mut self.inner)?;
        self.is_ended = count == 0;
        Ok(())
    }
}

//! Bytes that are read from a file and not taken yet.
ghost use Rattle.std.specs.Prelude.{◌≡◌, ◌↔◌, ◌+◌, ◌<◌, ◌≤◌, [], IfOk, IsTrue, OnErr, drop, slice_range};
ghost use Rattle.std.specs.Prelude.{take, vec_len};
ghost use Rattle.std.specs.Io.KnownBytes.{Consumes, IsAtEnd, Keeps, prepend_known};

use std::alloc::{AllocError, Global};
use std::io;
use std::io::Read;

// How many bytes there is room for.
const ROOM: usize = 65_536;

/// Bytes that were read and are not taken yet.
#[derive(Drop)]
pub struct Buffer {
    bytes: Vec<u8>,
    // Those from here to there are not taken yet.
    at: usize,
    filled: usize,
    ghost ordered: { at ≤ filled },
    ghost in_bounds: { filled ≤ vec_len bytes },
    ghost has_room: { 0 < vec_len bytes },
}

impl Buffer {
    /// No byte.
    ///
    /// # Errors
    ///
    /// Returns `AllocError` if a request for memory was refused.
    pub fn new(alloc: Global) -> Result<Self, AllocError>
        ensures { IfOk result (λ buffer. slice_range buffer.bytes.items buffer.at buffer.filled ≡ []) }
    {
        let bytes = vec![in alloc; 0; ROOM]?;
        Ok(Buffer {
            bytes,
            at: 0,
            filled: 0,
        })
    }

    /// The bytes.
    pub fn rest(&self) -> &[u8]
        ensures { result.now ≡ slice_range self.now.bytes.items self.now.at self.now.filled }
    {
        let all = self.bytes.as_slice();
        &all[self.at..self.filled]
    }

    /// How many bytes were read, taken or not.
    pub fn filled(&self) -> usize
        ensures { result ≡ self.now.filled }
    {
        self.filled
    }

    /// Whether all bytes are taken.
    pub fn is_taken(&self) -> bool
        ensures { IsTrue result ↔ self.now.filled ≤ self.now.at }
    {
        self.filled <= self.at
    }

    /// Whether there is room after the bytes.
    pub fn has_room(&self) -> bool
        ensures { IsTrue result ↔ self.now.filled < vec_len self.now.bytes }
    {
        self.filled < self.bytes.len()
    }

    /// Takes so many of the bytes, or all where there are fewer.
    pub fn pass(&mut self, count: usize)
        ensures { slice_range self.new.bytes.items self.new.at self.new.filled
            ≡ drop count (slice_range self.old.bytes.items self.old.at self.old.filled) }
    {
        let left = self.filled - self.at;
        self.at += left.min(count);
    }

    /// Takes all bytes, so that there is room.
    pub fn clear(&mut self)
        ensures at { self.new.at ≡ 0 }
        ensures filled { self.new.filled ≡ 0 }
    {
        self.at = 0;
        self.filled = 0;
    }

    /// Reads after the bytes, and returns how many were read.
    ///
    /// # Errors
    ///
    /// Returns the error of the reader.
    pub fn read_behind<R: Read>(&mut self, inner: &mut R) -> io::Result<usize>
        ensures kept { Keeps
            (prepend_known (slice_range self.old.bytes.items self.old.at self.old.filled)
            (R.remaining inner.old))
            (prepend_known (slice_range self.new.bytes.items self.new.at self.new.filled)
            (R.remaining inner.new)) }
        ensures at { self.new.at ≡ self.old.at }
        ensures count { IfOk result (λ count. self.new.filled ≡ self.old.filled + count) }
        ensures end { IfOk result (λ count. count ≡ 0 → self.old.filled < vec_len self.old.bytes
            → IsAtEnd (R.remaining inner.new)) }
    {
        let count = read_from(inner, &mut self.bytes, self.filled)?;
        self.filled += count;
        Ok(count)
    }
}

// Reads into the bytes from a place on.
fn read_from<R: Read>(inner: &mut R, bytes: &mut Vec<u8>, from: usize) -> io::Result<usize>
    requires { from ≤ vec_len bytes.old }
    ensures len { vec_len bytes.new ≡ vec_len bytes.old }
    ensures before { take from bytes.new.items ≡ take from bytes.old.items }
    ensures bound { IfOk result (λ count. from + count ≤ vec_len bytes.new) }
    ensures taken { IfOk result (λ count.
        Consumes (R.remaining inner.old) (R.remaining inner.new) (take count (drop from bytes.new.items))) }
    ensures end { IfOk result (λ count. count ≡ 0 → from < vec_len bytes.old
        → IsAtEnd (R.remaining inner.new)) }
    ensures failed { OnErr result (Keeps (R.remaining inner.old) (R.remaining inner.new)) }
{
    inner.read(&mut bytes.as_mut_slice()[from..])
}

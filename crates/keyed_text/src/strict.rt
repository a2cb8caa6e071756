//! A reader that passes a text on, and fails where its quotes are not in order.
ghost use Rattle.std.specs.Prelude.{◌≡◌, ◌≢◌, IfOk, MatchOption, OnErr, OnOk, Some};
ghost use Rattle.keyed_text.specs.Quotes.{place_behind};
ghost use Rattle.keyed_text.specs.declared.quotes.Place.TheVariants.{Quoted};
ghost use Rattle.keyed_text.specs.declared.strict.QuoteFault.TheVariants.{TextBehindQuote};

use crate::quotes::{Marks, Place};
use std::io;
use std::io::{ErrorKind, Read};

/// What is wrong with the quotes of a text.
#[derive(Clone, Copy, Debug, PartialEq, Eq)]
pub enum QuoteFault {
    /// A quote opens a cell, and none closes it.
    NeverClosed,
    /// Between the quote that closes a cell and the end of the cell stands more.
    TextBehindQuote,
}

/// A reader that passes on what another one gives, unchanged and with no memory of its own.
///
/// Where the quotes of the text are not in order it fails: at the next read, so that all bytes up to there were passed on, and at each
/// read from then on. `quote_fault` tells what is wrong then.
#[derive(Drop)]
pub struct Strict<R> {
    reader: R,
    marks: Marks,
    place: Place,
    fault: Option<QuoteFault>,
}

impl<R> Strict<R> {
    /// Returns a reader of the whole text that another one gives.
    pub fn new(reader: R, marks: Marks) -> Self
        ensures { result.reader ≡ reader }
    {
        Strict {
            reader,
            marks,
            place: Place::Top,
            fault: None,
        }
    }

    /// Returns the reader whose bytes are passed on.
    pub fn get_ref(&self) -> &R
        ensures { result.now ≡ self.now.reader }
    {
        &self.reader
    }

    /// Returns what is wrong with the quotes of the bytes that were read, if anything is.
    pub fn quote_fault(&self) -> Option<QuoteFault> {
        self.fault
    }

    // Follows bytes that are passed on.
    fn follow(&mut self, bytes: &[u8])
        ensures reader { self.new.reader ≡ self.old.reader }
        ensures marks { self.new.marks ≡ self.old.marks }
        ensures place { MatchOption (place_behind self.old.marks self.old.place bytes.now)
            (self.new.fault ≡ Some TextBehindQuote)
            (λ place. (self.new.place ≡ place) × (self.new.fault ≡ self.old.fault)) }
    {
        match self.marks.behind(self.place, bytes) {
            Some(place) => self.place = place,
            None => self.fault = Some(QuoteFault::TextBehindQuote),
        }
    }

    // Notes that no byte is left.
    fn end(&mut self) -> io::Result<usize>
        ensures reader { self.new.reader ≡ self.old.reader }
        ensures none { IfOk result (λ n. n ≡ 0) }
        ensures open { OnErr result (self.old.place ≡ Quoted) }
        ensures closed { OnOk result (self.old.place ≢ Quoted) }
    {
        if self.place == Place::Quoted {
            self.fault = Some(QuoteFault::NeverClosed);
            return Err(io::Error::from(ErrorKind::InvalidData));
        }
        Ok(0)
    }
}

impl<R: Read> Read for Strict<R> {
    ghost remaining = { λ s. R.remaining s.reader };

    fn read(&mut self, buf: &mut [u8]) -> io::Result<usize> {
        if self.fault.is_some() {
            return Err(io::Error::from(ErrorKind::InvalidData));
        }
        let count = self.reader.read(buf)?;
        if count == 0 && !buf.is_empty() {
            return self.end();
        }
        self.follow(&buf[..count]);
        Ok(count)
    }
}

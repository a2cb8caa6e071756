//! The bytes of a file on their way to the reader of CSV: line by line, and with quotes in order, or put in order line by line.
ghost use Rattle.std.specs.Prelude.{◌≡◌, IfOk};
ghost use Rattle.keyed_requests.specs.FormBytes.{comment_of, delimiter_of};
ghost use Rattle.keyed_files.specs.Lines.{checked_left, lines_left, where_strict};

use crate::by_line::ByLine;
use keyed_requests::{Comment, Form, Quotes};
use keyed_text::{Lenient, Marks, QuoteFault, Strict};
use std::alloc::{AllocError, Global};
use std::io;
use std::io::Read;

/// A reader of lines, which fails where quotes are not in order, or puts those of each line in order.
#[derive(Drop)]
pub enum Checked<R> {
    Strict(Strict<ByLine<R>>),
    Lenient(Lenient<ByLine<R>>),
}

impl<R: Read + Drop> Checked<R> {
    /// The lines as the form has them read.
    ///
    /// # Errors
    ///
    /// Returns `AllocError` if a request for memory was refused.
    pub fn new(alloc: Global, lines: ByLine<R>, form: Form) -> Result<Self, AllocError>
        ensures { IfOk result (λ checked. checked_left R.remaining checked
            ≡ where_strict form.reading.quotes (lines_left R.remaining lines)) }
    {
        Ok(match form.reading.quotes {
            Quotes::Strict => Checked::Strict(Strict::new(lines, marks_of(form))),
            Quotes::Lenient => {
                Checked::Lenient(Lenient::new(alloc, lines, form.delimiter.byte())?)
            }
        })
    }
}

impl<R> Checked<R> {
    /// The reader of lines.
    pub fn lines(&self) -> &ByLine<R> {
        match self {
            Checked::Strict(strict) => strict.get_ref(),
            Checked::Lenient(lenient) => lenient.get_ref(),
        }
    }

    /// What is wrong with the quotes up to the end of the line that was read last, if anything is and it is not let pass.
    pub fn quote_fault(&self) -> Option<QuoteFault> {
        match self {
            Checked::Strict(strict) => strict.quote_fault(),
            Checked::Lenient(_) => None,
        }
    }
}

// The bytes that part a text of this form.
pub(crate) fn marks_of(form: Form) -> Marks
    ensures delimiter { result.delimiter ≡ delimiter_of form }
    ensures comment { result.comment ≡ comment_of form }
{
    Marks {
        delimiter: form.delimiter.byte(),
        comment: form.reading.comment.map(Comment::byte),
    }
}

impl<R: Read> Read for Checked<R> {
    ghost remaining = { checked_left R.remaining };

    fn read(&mut self, buf: &mut [u8]) -> io::Result<usize> {
        match self {
            Checked::Strict(strict) => strict.read(buf),
            Checked::Lenient(lenient) => lenient.read(buf),
        }
    }
}

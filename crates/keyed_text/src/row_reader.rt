//! Rows read from a text, one by one.
ghost use Rattle.std.specs.Prelude.{[], IfOk, IfSome};
ghost use Rattle.csv.specs.Records.{fields_of};
ghost use Rattle.keyed_text.specs.Streams.{GivesRow, HasRead};

use crate::quotes::Marks;
use csv::{ByteRecord, Reader, ReaderBuilder};
use std::alloc::Global;
use std::io::Read;

/// A reader of rows over a reader of bytes. The first row is a row like any other: what a header is, the caller knows.
///
/// A row may have any number of cells.
///
/// ```
/// let mut rows = RowReader::new(alloc, b"id\n1\n".as_slice(), Marks { delimiter: b',', comment: None });
/// let mut row = ByteRecord::new(alloc);
/// assert!(rt; rows.read_row(&mut row)? && row.get(0) == Some(b"id"));
/// assert!(rt; rows.read_row(&mut row)? && !rows.read_row(&mut row)?);
/// ```
#[derive(Drop)]
pub struct RowReader<R> {
    reader: Reader<R>,
}

impl<R: Read> RowReader<R> {
    /// Returns a reader of the rows of a text, less a byte order mark at its start.
    pub fn new(alloc: Global, text: R, marks: Marks) -> Self
        ensures { IfSome (R.remaining text)
            (λ text. HasRead marks.delimiter marks.comment R.remaining text [] result) }
    {
        RowReader {
            reader: ReaderBuilder::new()
                .delimiter(marks.delimiter)
                .comment(marks.comment)
                .has_headers(false)
                .flexible(true)
                .from_reader(alloc, text),
        }
    }

    /// Reads the next row into a record, and returns whether there is one.
    ///
    /// # Errors
    ///
    /// Returns the error of the reader, or that a request for memory was refused.
    pub fn read_row(&mut self, row: &mut ByteRecord) -> Result<bool, csv::Error>
        ensures { IfOk result (λ found. GivesRow R.remaining self.old self.new found (fields_of row.new)) }
    {
        let found = self.reader.read_byte_record(row)?;
        Ok(found)
    }

    /// Returns the reader of bytes.
    pub fn get_ref(&self) -> &R {
        self.reader.get_ref()
    }
}

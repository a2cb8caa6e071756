//! Rows written as a text, cell by cell.
ghost use Rattle.std.specs.Prelude.{◌≡◌, List, [], ◌∷◌, ℕ, Option, IfOk, OnOk, map};
ghost use Rattle.std.specs.Io.KnownBytes.{Appends};
ghost use Rattle.csv.specs.Records.{fields_of};
ghost use Rattle.csv.specs.declared.writer.WriterBuilder.{WriterBuilder};
ghost use Rattle.keyed_text.specs.Streams.{EndsRow, HasNoRow, HasWritten, PutsCells, PutsRows};
ghost use Rattle.keyed_text.specs.Texts.{quote_style, terminator_of, text_by, writer_by, writer_in};

use crate::quotes::Marks;
use crate::style::{CellQuotes, LineEnd, Style};
use csv::{ByteRecord, QuoteStyle, Terminator, Writer, WriterBuilder};
use std::io::Write;

/// A writer of rows over a writer of bytes. The cells of a row are put one by one, and then the row is ended.
///
/// A row has as many cells as the first one.
///
/// ```
/// let mut rows = RowWriter::new(Vec::new(alloc), Marks { delimiter: b',', comment: None });
/// rows.put_cell(b"id")?;
/// rows.put_cell(b"price, net")?;
/// rows.end_row()?;
/// assert!(rt; rows.finish()?.as_slice() == b"id,\"price, net\"\n".as_slice());
/// ```
#[derive(Drop)]
pub struct RowWriter<W: Write + Drop> {
    writer: Writer<W>,
}

impl<W: Write + Drop> RowWriter<W> {
    /// Returns a writer of rows after the bytes that the writer has, with quotes where they are needed, and LF after each row.
    pub fn new(writer: W, marks: Marks) -> Self
        ensures { HasNoRow (writer_by marks.delimiter marks.comment) W.contents (W.contents writer) result }
    {
        RowWriter::in_style(writer, marks, Style::PLAIN)
    }

    /// Returns a writer of rows in a style after the bytes that the writer has.
    ///
    /// ```
    /// let style = Style {
    ///     quotes: CellQuotes::Everywhere,
    ///     line_end: LineEnd::CrLf,
    /// };
    /// let marks = Marks { delimiter: b',', comment: None };
    /// let mut rows = RowWriter::in_style(Vec::new(alloc), marks, style);
    /// rows.put_cell(b"id")?;
    /// rows.put_cell(b"price")?;
    /// rows.end_row()?;
    /// assert!(rt; rows.finish()?.as_slice() == b"\"id\",\"price\"\r\n".as_slice());
    /// ```
    pub fn in_style(writer: W, marks: Marks, style: Style) -> Self
        ensures { HasNoRow (writer_in style marks.delimiter marks.comment)
            W.contents (W.contents writer) result }
    {
        RowWriter {
            writer: WriterBuilder::new()
                .delimiter(marks.delimiter)
                .comment(marks.comment)
                .quote_style(quote_style(style.quotes))
                .terminator(terminator_of(style.line_end))
                .from_writer(writer),
        }
    }

    /// Puts a cell into the row.
    ///
    /// # Errors
    ///
    /// Returns the error of the writer, or that a request for memory was refused.
    pub fn put_cell(&mut self, cell: &[u8]) -> Result<(), csv::Error>
        ensures { OnOk result (PutsCells W.contents self.old self.new (cell.now ∷ [])) }
    {
        self.writer.write_field(cell)?;
        Ok(())
    }

    /// Ends the row.
    ///
    /// # Errors
    ///
    /// Returns `UnequalLengths` if the row has another number of cells than the first one, and else the error of the writer, or that a
    /// request for memory was refused.
    pub fn end_row(&mut self) -> Result<(), csv::Error>
        ensures { OnOk result (EndsRow W.contents self.old self.new) }
    {
        self.writer.end_record()?;
        Ok(())
    }

    /// Puts a whole row, of the cells of a record, after the rows that were ended. It is faster than its cells one by one.
    ///
    /// # Errors
    ///
    /// Returns `UnequalLengths` if the row has another number of cells than the first one, and else the error of the writer, or that a
    /// request for memory was refused.
    ///
    /// ```
    /// let mut rows = RowWriter::new(Vec::new(alloc), Marks { delimiter: b',', comment: None });
    /// rows.put_row(&ByteRecord::from_fields(alloc, &[b"id", b"price, net"])?)?;
    /// assert!(rt; rows.finish()?.as_slice() == b"id,\"price, net\"\n".as_slice());
    /// ```
    pub fn put_row(&mut self, row: &ByteRecord) -> Result<(), csv::Error>
        ensures { OnOk result (PutsRows W.contents self.old self.new (fields_of row.now ∷ [])) }
    {
        self.writer.write_byte_record(row)?;
        Ok(())
    }

    /// Returns the writer, which has the text of all rows.
    ///
    /// # Errors
    ///
    /// Returns the error of the writer, or that a request for memory was refused.
    pub fn finish(self) -> Result<W, csv::Error>
        ensures { IfOk result (λ writer. (by : WriterBuilder) (there : Option (List ℕ))
            (rows : List (List (List ℕ)))
            → HasWritten by W.contents there rows [] self
            → Appends there (W.contents writer) (text_by by rows)) }
    {
        match self.writer.into_inner() {
            Ok(writer) => Ok(writer),
            Err(error) => Err(error.into_error()),
        }
    }
}

fn quote_style(quotes: CellQuotes) -> QuoteStyle
    ensures { result ≡ quote_style quotes }
{
    match quotes {
        CellQuotes::WhereNeeded => QuoteStyle::Necessary,
        CellQuotes::Everywhere => QuoteStyle::Always,
    }
}

fn terminator_of(line_end: LineEnd) -> Terminator
    ensures { result ≡ terminator_of line_end }
{
    match line_end {
        LineEnd::Lf => Terminator::Any(b'\n'),
        LineEnd::CrLf => Terminator::CRLF,
    }
}

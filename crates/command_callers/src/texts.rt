//! Callers of the reader and the writer of rows: what a program can rely on that reads a text whole, that knows the text when it is
//! written, and that knows the cells which it writes.
ghost use Rattle.std.specs.Prelude.{◌≡◌, ◌++◌, ◌∷◌, [], ℕ, List, Option, None, IfOk, IfSome, MatchOption};
ghost use Rattle.std.specs.Prelude.{codes, map};
ghost use Rattle.csv.specs.Reading.{strip_bom};
ghost use Rattle.csv.specs.Records.{fields_of};
ghost use Rattle.keyed_text.specs.Streams.{HasRead};
ghost use Rattle.keyed_text.specs.Texts.{AreRows, ReadsAs, finished, rows_text, styled_text};
ghost use Rattle.keyed_text.specs.declared.spelling.RowSpelling.{RowSpelling};
ghost use Rattle.command_callers.specs.Answered.{spelled_rows};

use csv::ByteRecord;
use keyed_cut::law_listing_reads;
use keyed_text::{
    CellQuotes, LineEnd, Marks, RowReader, RowWriter, Style, law_reads_back, law_reads_once,
    law_spelled_back,
};
use std::alloc::{AllocError, AllocFailed, Global};
use std::io::Read;

const SEMICOLONS: Marks = Marks {
    delimiter: b';',
    comment: None,
};

const FULL: Style = Style {
    has_mark: true,
    quotes: CellQuotes::Everywhere,
    line_end: LineEnd::CrLf,
    has_end: false,
};

/// Why rows are not read or written.
#[derive(Drop)]
pub enum Failed {
    /// A request for memory was refused.
    NoMemory,
    /// A text can't be read or written.
    Csv(csv::Error),
}

impl From<AllocError> for Failed {
    fn from(_refused: AllocError) -> Self {
        Failed::NoMemory
    }
}

impl<T: Drop> From<AllocFailed<T>> for Failed {
    fn from(_refused: AllocFailed<T>) -> Self {
        Failed::NoMemory
    }
}

impl From<csv::Error> for Failed {
    fn from(error: csv::Error) -> Self {
        Failed::Csv(error)
    }
}

/// Returns all rows of a text.
///
/// # Errors
///
/// Returns the error of the reader, or that a request for memory was refused.
pub fn rows_of<R: Read + Drop>(
    alloc: Global,
    text: R,
    marks: Marks,
) -> Result<Vec<ByteRecord>, Failed>
    ensures { IfOk result (λ rows. IfSome (R.remaining text)
        (λ text. AreRows marks.delimiter marks.comment text (map fields_of rows.items))) }
{
    let mut reader = RowReader::new(alloc, text, marks);
    let rows = rows_left(alloc, &mut reader)?;
    Ok(rows)
}

// The rows that were not read.
fn rows_left<R: Read>(alloc: Global, reader: &mut RowReader<R>) -> Result<Vec<ByteRecord>, Failed>
    ensures { IfOk result (λ rows. (d : ℕ) (c : Option ℕ) (text : List ℕ) (before : List (List (List ℕ)))
        → HasRead d c R.remaining text before reader.old
        → AreRows d c text (before ++ map fields_of rows.items)) }
{
    let mut rows = Vec::new(alloc);
    for _ in 0..u64::MAX {
        match next_row(alloc, reader)? {
            Some(row) => rows.push(row)?,
            None => return Ok(rows),
        }
    }
    Err(Failed::NoMemory)
}

// The next row, if there is one.
fn next_row<R: Read>(alloc: Global, reader: &mut RowReader<R>) -> Result<Option<ByteRecord>, Failed>
    ensures { IfOk result (λ found. (d : ℕ) (c : Option ℕ) (text : List ℕ) (before : List (List (List ℕ)))
        → HasRead d c R.remaining text before reader.old → MatchOption found (AreRows d c text before)
        (λ row. HasRead d c R.remaining text (before ++ (fields_of row ∷ [])) reader.new)) }
{
    let mut row = ByteRecord::new(alloc);
    if reader.read_row(&mut row)? {
        Ok(Some(row))
    } else {
        Ok(None)
    }
}

/// Returns the rows of a text that is known when the program is written.
///
/// # Errors
///
/// Returns the errors of `rows_of`.
pub fn known_rows(alloc: Global) -> Result<Vec<ByteRecord>, Failed>
    ensures { IfOk result (λ rows. map fields_of rows.items
        ≡ (codes "id" ∷ codes "name" ∷ []) ∷ (codes "2" ∷ codes "a;b" ∷ []) ∷ []) }
{
    law_reads_once();
    rows_of(alloc, b"id;name\n2;\"a;b\"\n".as_slice(), SEMICOLONS)
}

/// Returns the text of a row whose cells are known when the program is written.
///
/// # Errors
///
/// Returns the error of the writer, or that a request for memory was refused.
pub fn known_text(alloc: Global) -> Result<Vec<u8>, Failed>
    ensures { IfOk result (λ text. text.items ≡ rows_text 59 None ((codes "2" ∷ codes "a;b" ∷ []) ∷ [])) }
{
    let mut writer = RowWriter::new(Vec::new(alloc), SEMICOLONS);
    writer.put_cell(b"2")?;
    writer.put_cell(b"a;b")?;
    writer.end_row()?;
    let text = writer.finish()?;
    Ok(text)
}

/// Returns the file of a row whose cells are known when the program is written: after a byte order mark, with quotes everywhere, and with
/// no end of the row.
///
/// # Errors
///
/// Returns the error of the writer, or that a request for memory was refused.
pub fn known_file(alloc: Global) -> Result<Vec<u8>, Failed>
    ensures { IfOk result (λ file. file.items ≡ 239 ∷ 187 ∷ 191 ∷ codes "\"2\";\"a b\"") }
{
    let mut writer = RowWriter::in_style(Vec::new(alloc), SEMICOLONS, FULL);
    writer.put_cell(b"2")?;
    writer.put_cell(b"a b")?;
    writer.end_row()?;
    let text = writer.finish()?;
    let file = FULL.finish(alloc, text)?;
    Ok(file)
}

/// The file of a header and a row reads back as them in whatever style it is written.
pub fn reads_in_each(style: Style)
    ensures { ReadsAs 59 None (styled_text style 59 None
        ((codes "id" ∷ codes "name" ∷ []) ∷ (codes "2" ∷ codes "a;b" ∷ []) ∷ []))
        (codes "id" ∷ codes "name" ∷ []) ((codes "2" ∷ codes "a;b" ∷ []) ∷ []) }
{
    law_reads_back();
}

/// The file of a header and a row reads back as them however each of them is spelled, where their text begins with no byte order mark.
pub fn reads_in_each_spelling(style: Style)
    ensures { (header : RowSpelling) (row : RowSpelling)
        → strip_bom (spelled_rows style header row) ≡ spelled_rows style header row
        → AreRows 59 None (finished style (spelled_rows style header row))
        ((codes "id" ∷ codes "name" ∷ []) ∷ (codes "2" ∷ codes "a;b" ∷ []) ∷ []) }
{
    law_spelled_back();
}

/// Returns the text of cells that are known when the program is written: one that needs quotes, one that is to have them, and one with
/// neither.
///
/// # Errors
///
/// Returns `AllocError` if a request for memory was refused.
pub fn known_cells(alloc: Global) -> Result<Vec<u8>, AllocError>
    ensures { IfOk result (λ text. text.items ≡ codes "\"a;\"\"b\"\"\"\"2\"c") }
{
    let mut text = Vec::new(alloc);
    SEMICOLONS.put_cell(&mut text, false, b"a;\"b\"")?;
    SEMICOLONS.put_cell(&mut text, true, b"2")?;
    SEMICOLONS.put_cell(&mut text, false, b"c")?;
    Ok(text)
}

/// Tells the rows of a list of where no table was cut, by the column `id` at one key: it has a row for each of two parts.
pub fn listing_known()
    ensures { AreRows 44 None (codes "part,from.id\n000,\n001,b\n")
        ((codes "part" ∷ codes "from.id" ∷ []) ∷ (codes "000" ∷ [] ∷ [])
        ∷ (codes "001" ∷ codes "b" ∷ []) ∷ []) }
{
    law_listing_reads();
}

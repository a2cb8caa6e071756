//! A file read row by row: the header first, and then the rows under the columns that are wanted.
ghost use Rattle.std.specs.Prelude.{◌≡◌, ◌≢◌, ◌≤◌, [], ℕ, IfErr, IfOk, IfSome, IsNone, MatchBool};
ghost use Rattle.std.specs.Prelude.{OnOk, Some, is_some, map, true};
ghost use Rattle.std.specs.Io.KnownBytes.{Keeps};
ghost use Rattle.csv.specs.Records.{field_at, fields_of};
ghost use Rattle.keyed_text.specs.Streams.{GivesRow, HasRead};
ghost use Rattle.keyed_faults.specs.Outside.{IsApart, IsOutside};
ghost use Rattle.keyed_requests.specs.FormBytes.{comment_of, delimiter_of};
ghost use Rattle.keyed_columns.specs.Going.{GoneSaid};
ghost use Rattle.keyed_columns.specs.Headers.{HeaderOf, cells_before, place_under};
ghost use Rattle.keyed_columns.specs.KeyColumns.{ExplainsKey, ExplainsRenaming};
ghost use Rattle.keyed_columns.specs.Names.{renamed};
ghost use Rattle.keyed_columns.specs.CellsUnder.{cell_at};
ghost use Rattle.keyed_columns.specs.Spelled.{SpelledFirst};
ghost use Rattle.keyed_columns.specs.declared.content.Content.TheVariants.{Changes};
ghost use Rattle.keyed_files.specs.Explained.{BreaksCount, ExplainsPlaces, ExplainsRow, ExplainsSigned, FitsCount};
ghost use Rattle.keyed_files.specs.Explained.{CountsBy, IsNoSign, IsOfRow, IsWrongCount, SameCount};
ghost use Rattle.keyed_files.specs.Gone.{KnowsGone};
ghost use Rattle.keyed_files.specs.CellPlaces.{ArePlaces};
ghost use Rattle.keyed_files.specs.Lines.{checked_left, lines_left};
ghost use Rattle.keyed_files.specs.Reading.{GivesRecord, HasSign, IsOpen, IsPicked, IsSigned, PlacesOf};
ghost use Rattle.keyed_files.specs.Reading.{key_in, last_record, next_of, text_lined, text_read};
ghost use Rattle.keyed_files.specs.Rows.{shown_sign};
ghost use Rattle.keyed_files.specs.declared.source.Next.TheVariants.{Read};

use crate::by_line::ByLine;
use crate::checked::{Checked, marks_of};
use crate::sign::{Sign, SignedRow};
use crate::table_spelling::FoundBy;
use csv::ByteRecord;
use keyed_columns::{Columns, Content, Header, KeyNames, Spelling};
use keyed_faults::{Encoding, Reason};
use keyed_requests::{Form, Lengths, Quotes};
use keyed_rows::{Cells, Key, ReadRow};
use keyed_text::RowReader;
use std::alloc::{AllocError, Global};
use std::io::Read;

/// What a source gives next.
#[derive(Clone, Copy)]
pub enum Next {
    /// The record that was read last, which is the first row and no header.
    Kept,
    /// The next record of the reader.
    Read,
    /// None: the reader has no more.
    Ended,
}

/// A reader whose names of columns are known, and whose rows are not read. It is large, as it holds what was read ahead, and so in a box.
#[derive(Drop)]
pub struct Source<R> {
    alloc: Global,
    reader: RowReader<Checked<R>>,
    // The row that was read last.
    last: ByteRecord,
    next: Next,
    content: Content,
    // How many cells the first row has, and how many the others may have.
    count: usize,
    lengths: Lengths,
    // The cells that are picked from the row, of which its key and its other cells are copies.
    picked: Cells,
    header: Header,
}

impl<R> Source<R> {
    /// The names of the columns, no two of which are the same. A file with no row has none.
    pub fn names(&self) -> &Cells
        ensures { result.now ≡ self.now.header.names }
    {
        &self.header.names
    }

    /// The names of the columns as the header spells them, and those by which they are told apart.
    pub fn spelling(&self) -> &Spelling
        ensures { result.now ≡ self.now.header.spelling }
    {
        &self.header.spelling
    }

    /// In a table of changes, the names of the columns that go.
    pub fn gone(&self) -> &Cells
        ensures { result.now ≡ self.now.header.gone }
    {
        &self.header.gone
    }

    /// Has the header say of the same changes taken back which columns go: those that came.
    pub(crate) fn turn(&mut self)
        ensures { self.new ≡ record self.old
            { header = record self.old.header { gone = self.old.header.came; came = self.old.header.gone } } }
    {
        self.header.turn();
    }

    /// Gives the columns of a key, which have the names of the first table, those of the others.
    ///
    /// # Errors
    ///
    /// Returns the errors of `Header::rename`.
    pub(crate) fn rename(&mut self, key: &KeyNames) -> Result<(), Reason>
        ensures same { self.new ≡ record self.old { header = self.new.header } }
        ensures names { OnOk result
            (self.new.header.names ≡ map (renamed key.now.first key.now.others) self.old.header.names) }
        ensures spelling { self.new.header.spelling ≡ self.old.header.spelling }
        ensures why { IfErr result (ExplainsRenaming self.old.header.spelling.spelled self.old.header.names
            self.old.header.gone key.now) }
    {
        self.header.rename(self.alloc, key)
    }
}

impl<R: Read + Drop> Source<R> {
    /// Reads the header: names of columns, without the first where that is the sign of changes. Names that stand there more than once are
    /// told apart by a number. Where there is no header, the columns have numbers for names, and a file with no row has no column.
    ///
    /// # Errors
    ///
    /// Returns `NoText` if the file begins as one that is no text, `Quotes` if the quotes of the first row are not in order, `Io` if the
    /// reader fails, and `NoMemory` if a request for memory was refused. The first two are let pass where quotes are.
    pub fn open(alloc: Global, reader: R, form: Form, content: Content) -> Result<Box<Self>, Reason>
        ensures opened { IfOk result (λ source. IfSome (text_read form (R.remaining reader))
            (λ text. IsOpen form content R.remaining text source.value.header.names source.value)) }
        ensures gone { content ≡ Changes → IfOk result (λ source. IfSome (text_read form (R.remaining reader))
            (λ text. KnowsGone form R.remaining text source.value)) }
        ensures count { IfOk result (λ source. CountsBy form.reading.lengths source.value) }
        ensures why { IfErr result IsApart }
    {
        let mut reader = begin_rows(alloc, reader, form)?;
        let mut record = ByteRecord::new(alloc);
        let has_first = read_record(&mut reader, &mut record)?;
        let line = reader.get_ref().lines().row_line();
        let header = header_of(alloc, form, content, has_first, &record, line)?;
        let source = Source {
            alloc,
            reader,
            next: next_of(has_first, form.has_header),
            content,
            count: record.len(),
            last: record,
            lengths: form.reading.lengths,
            picked: Cells::new(alloc),
            header,
        };
        let source = Box::new(alloc, source)?;
        Ok(source)
    }

    /// Where the cells of these columns stand in a row.
    ///
    /// # Errors
    ///
    /// Returns `NoColumn` if the header lacks a column of the key, `RepeatedColumn` if it has one more than once, and `NoMemory` if a
    /// request for memory was refused.
    pub fn places(&self, columns: &Columns) -> Result<Places, Reason>
        ensures places { IfOk result (PlacesOf self.now columns.now) }
        ensures why { IfErr result (ExplainsPlaces self.now columns.now) }
    {
        Places::new(self.alloc, &self.header, self.content, columns)
    }

    /// Reads the next row, if there is one. A cell of a column that the header lacks is empty.
    ///
    /// # Errors
    ///
    /// Returns `CellCount` if the row has another number of cells than it may have, `Quotes` if its quotes are not in order, `Io` if the
    /// reader fails, and `NoMemory` if a request for memory was refused.
    pub fn read_row(&mut self, places: &Places) -> Result<Option<ReadRow>, Reason>
        ensures gives { IfOk result (λ row. GivesRecord R.remaining self.old self.new (is_some row)) }
        ensures header { self.new.header ≡ self.old.header }
        ensures rule { SameCount self.old self.new }
        ensures picked { IfOk result (λ row. IfSome row (IsPicked places.now (last_record self.new))) }
        ensures why { IfErr result (ExplainsRow self.new) }
        ensures gave { IfErr result
            (λ reason. IsOfRow reason → GivesRecord R.remaining self.old self.new true) }
    {
        if self.read_record()? {
            let line = self.row_line();
            let row = places.pick_row(&mut self.picked, line, &self.last)?;
            Ok(Some(row))
        } else {
            Ok(None)
        }
    }

    /// Reads the next row, if there is one, and returns its key. The row stays as it is read, with its sign where the file has changes:
    /// `last_row` has it. So a row that is only passed on is not copied.
    ///
    /// # Errors
    ///
    /// Returns the errors of `read_row`, and of a file of changes `NoSign` if the first cell is no sign.
    pub fn read_key(&mut self, places: &Places) -> Result<Option<Key>, Reason>
        ensures gives { IfOk result (λ key. GivesRecord R.remaining self.old self.new (is_some key)) }
        ensures header { self.new.header ≡ self.old.header }
        ensures rule { SameCount self.old self.new }
        ensures key { IfOk result (λ key. IfSome key
            (λ key. key ≡ key_in places.now (last_record self.new))) }
        ensures signed { IfOk result (λ key. IfSome key
            (λ _. HasSign self.new.content (last_record self.new))) }
        ensures why { IfErr result (ExplainsSigned self.new) }
        ensures gave { IfErr result
            (λ reason. IsOfRow reason → GivesRecord R.remaining self.old self.new true) }
    {
        if self.read_record()? {
            let line = self.row_line();
            check_sign(self.content, line, &self.last)?;
            let key = places.pick_key(&mut self.picked, &self.last)?;
            Ok(Some(key))
        } else {
            Ok(None)
        }
    }

    /// The row that was read last, of all its cells: one with fewer or more than there are columns is not made even.
    pub fn last_row(&self) -> &ByteRecord
        ensures { result.now ≡ self.now.last }
    {
        &self.last
    }

    /// Reads the next row of changes, if there is one, and its sign.
    ///
    /// # Errors
    ///
    /// Returns the errors of `read_row`, and `NoSign` if the first cell is no sign.
    pub fn read_signed(&mut self, places: &Places) -> Result<Option<SignedRow>, Reason>
        ensures gives { IfOk result (λ row. GivesRecord R.remaining self.old self.new (is_some row)) }
        ensures header { self.new.header ≡ self.old.header }
        ensures rule { SameCount self.old self.new }
        ensures picked { IfOk result (λ row. IfSome row (IsSigned places.now (last_record self.new))) }
        ensures why { IfErr result (ExplainsSigned self.new) }
        ensures gave { IfErr result
            (λ reason. IsOfRow reason → GivesRecord R.remaining self.old self.new true) }
    {
        if self.read_record()? {
            let line = self.row_line();
            let sign = sign_of(line, &self.last)?;
            let row = places.pick_row(&mut self.picked, line, &self.last)?;
            Ok(Some(SignedRow { sign, row }))
        } else {
            Ok(None)
        }
    }

    /// The reader of the file, which may have given more than the rows that were read.
    pub fn get_ref(&self) -> &R {
        self.reader.get_ref().lines().get_ref()
    }

    // The line on which the row that was read last begins.
    fn row_line(&self) -> u64 {
        self.reader.get_ref().lines().row_line()
    }

    // Takes the next record, or says that there is none.
    fn read_record(&mut self) -> Result<bool, Reason>
        ensures gives { IfOk result (GivesRecord R.remaining self.old self.new) }
        ensures header { self.new.header ≡ self.old.header }
        ensures rule { SameCount self.old self.new }
        ensures why { IfErr result (ExplainsRow self.new) }
        ensures gave { IfErr result
            (λ reason. IsOfRow reason → GivesRecord R.remaining self.old self.new true) }
    {
        match self.next {
            Next::Kept => {
                self.next = Next::Read;
                Ok(true)
            }
            Next::Read => self.read_next(),
            Next::Ended => Ok(false),
        }
    }

    // Reads the next record, or says that there is none.
    fn read_next(&mut self) -> Result<bool, Reason>
        ensures gives { IfOk result (λ found. self.old.next ≡ Read
            → GivesRecord R.remaining self.old self.new found) }
        ensures header { self.new.header ≡ self.old.header }
        ensures rule { SameCount self.old self.new }
        ensures why { IfErr result (ExplainsRow self.new) }
        ensures gave { IfErr result (λ reason. self.old.next ≡ Read → IsOfRow reason
            → GivesRecord R.remaining self.old self.new true) }
    {
        self.reader.get_ref().lines().begin_row();
        let found = read_record(&mut self.reader, &mut self.last)?;
        if found {
            self.check_count()?;
        } else {
            self.next = Next::Ended;
        }
        Ok(found)
    }

    // Tells that the row has as many cells as it may.
    fn check_count(&self) -> Result<(), Reason>
        ensures fits { OnOk result (FitsCount self.now.lengths self.now.count (last_record self.now)) }
        ensures why { IfErr result (IsWrongCount self.now) }
    {
        if fits_count(self.lengths, self.count, &self.last) {
            Ok(())
        } else {
            Err(Reason::CellCount {
                line: self.row_line(),
                expected: self.count as u64,
                found: self.last.len() as u64,
            })
        }
    }
}

// Whether a row has as many cells as it may have, where the first one has so many.
fn fits_count(lengths: Lengths, count: usize, row: &ByteRecord) -> bool
    ensures { MatchBool result (FitsCount lengths count (fields_of row.now))
        (BreaksCount lengths count (fields_of row.now)) }
{
    match lengths {
        Lengths::Equal => row.len() == count,
        Lengths::Ragged => match filled_from(row, count) {
            Some(_) => false,
            None => true,
        },
    }
}

// The first place from this one on where a row has a cell that is not empty, if there is one.
fn filled_from(row: &ByteRecord, place: usize) -> Option<usize>
    ensures none { IsNone result → (at : ℕ) → place ≤ at → cell_at (fields_of row.now) (Some at) ≡ [] }
    ensures some { IfSome result (λ at. (place ≤ at) × (cell_at (fields_of row.now) (Some at) ≢ [])) }
{
    for at in place..row.len() {
        if !cell_of(row, Some(at)).is_empty() {
            return Some(at);
        }
    }
    None
}

// How many cells stand before those of the columns: one of changes, for the sign.
fn cells_before(content: Content) -> usize
    ensures value { result ≡ cells_before content }
    ensures bound { result ≤ 1 }
{
    match content {
        Content::Rows => 0,
        Content::Changes => 1,
    }
}

// The header of a file that has a first row or none.
fn header_of(
    alloc: Global,
    form: Form,
    content: Content,
    has_first: bool,
    row: &ByteRecord,
    line: u64,
) -> Result<Header, AllocError>
    ensures names { IfOk result (λ header. HeaderOf form.has_header content has_first
        (fields_of row.now) header.names) }
    ensures spelled_names { IfOk result (λ header. header.spelling.names ≡ header.names) }
    ensures spelled { IfOk result (λ header. SpelledFirst form.has_header has_first content
        (fields_of row.now) header.spelling.spelled) }
    ensures gone { content ≡ Changes → IfOk result
        (λ header. GoneSaid has_first form.has_header (fields_of row.now) header.gone header.came) }
{
    let before = cells_before(content);
    if !has_first {
        Ok(Header::none(alloc))
    } else if form.has_header {
        Header::of_record(alloc, row, before, line)
    } else {
        Header::numbers(alloc, row.len().saturating_sub(before), line)
    }
}

// The rows of a file that is text, or is to be read as it is.
fn begin_rows<R: Read + Drop>(
    alloc: Global,
    reader: R,
    form: Form,
) -> Result<RowReader<Checked<R>>, Reason>
    ensures begun { IfOk result (λ rows. IfSome (text_read form (R.remaining reader))
        (λ text. HasRead (delimiter_of form) (comment_of form) (checked_left R.remaining) text [] rows)) }
    ensures why { IfErr result IsApart }
{
    let file = begin_lines(alloc, reader, form)?;
    let lines = Checked::new(alloc, file, form)?;
    let marks = marks_of(form);
    let rows = RowReader::new(alloc, lines, marks);
    Ok(rows)
}

// The lines of a file that is text, or is to be read as it is.
fn begin_lines<R: Read + Drop>(alloc: Global, reader: R, form: Form) -> Result<ByLine<R>, Reason>
    ensures keeps { IfOk result (λ lines. Keeps (text_lined form (R.remaining reader))
        (lines_left R.remaining lines)) }
    ensures why { IfErr result IsApart }
{
    let mut lines = ByLine::new(alloc, reader, form.reading)?;
    let encoding = lines.begin()?;
    check_encoding(form.reading.quotes, encoding)?;
    Ok(lines)
}

// Tells that a file is no encoding of a text, unless it is to be read as it is.
fn check_encoding(quotes: Quotes, encoding: Option<Encoding>) -> Result<(), Reason>
    ensures { IfErr result IsApart }
{
    match quotes {
        Quotes::Strict => match encoding {
            Some(encoding) => Err(Reason::NoText(encoding)),
            None => Ok(()),
        },
        Quotes::Lenient => Ok(()),
    }
}

// What a source gives first, of a file that has a row or none.
fn next_of(has_first: bool, has_header: bool) -> Next
    ensures { result ≡ next_of has_first has_header }
{
    if !has_first {
        Next::Ended
    } else if has_header {
        Next::Read
    } else {
        Next::Kept
    }
}

// Reads the next row whose quotes are in order, or says that there is none.
fn read_record<R: Read>(
    reader: &mut RowReader<Checked<R>>,
    row: &mut ByteRecord,
) -> Result<bool, Reason>
    ensures gives { IfOk result (λ found. GivesRow (checked_left R.remaining) reader.old reader.new
        found (fields_of row.new)) }
    ensures why { IfErr result IsOutside }
    ensures apart { IfErr result IsApart }
{
    let outcome = reader.read_row(row);
    let checked = reader.get_ref();
    if let Some(fault) = checked.quote_fault() {
        let line = checked.lines().row_line();
        return Err(Reason::Quotes { line, fault });
    }
    match outcome {
        Ok(found) => Ok(found),
        Err(error) => Err(Reason::of_reading(error)),
    }
}

// The sign that the first cell of a record on this line is.
fn sign_of(line: u64, row: &ByteRecord) -> Result<Sign, Reason>
    ensures sign { IfOk result (λ sign. field_at (fields_of row.now) 0 ≡ Some (shown_sign sign)) }
    ensures why { IfErr result (IsNoSign line (fields_of row.now)) }
{
    match row.get(0) {
        Some(cell) => match Sign::of_cell(cell) {
            Some(sign) => Ok(sign),
            None => Err(Reason::NoSign(line)),
        },
        None => Err(Reason::NoSign(line)),
    }
}

// Tells that the first cell of a record on this line is a sign, where the file has changes.
fn check_sign(content: Content, line: u64, row: &ByteRecord) -> Result<(), Reason>
    ensures sign { OnOk result (HasSign content (fields_of row.now)) }
    ensures why { IfErr result (IsNoSign line (fields_of row.now)) }
{
    match content {
        Content::Rows => Ok(()),
        Content::Changes => {
            sign_of(line, row)?;
            Ok(())
        }
    }
}

/// Where the columns that are wanted stand in a row.
#[derive(Drop)]
pub struct Places {
    key: Vec<Option<usize>>,
    rest: Vec<Option<usize>>,
}

impl Places {
    // Each column of the key is one of the header, unless that has none, as of an empty file.
    fn new(
        alloc: Global,
        header: &Header,
        content: Content,
        columns: &Columns,
    ) -> Result<Self, Reason>
        ensures places { IfOk result (ArePlaces content header.now.names columns.now) }
        ensures why { IfErr result (ExplainsKey header.now.spelling.spelled header.now.names header.now.gone
            columns.now.key) }
    {
        header.check_key(alloc, &columns.key)?;
        Ok(Places {
            key: find_places(alloc, header, content, &columns.key)?,
            rest: find_places(alloc, header, content, &columns.rest)?,
        })
    }

    // The key of a record.
    fn pick_key(&self, picked: &mut Cells, from: &ByteRecord) -> Result<Key, AllocError>
        ensures { IfOk result (λ key. key ≡ key_in self.now (fields_of from.now)) }
    {
        pick(picked, from, &self.key)?;
        let key = Key::copied(picked)?;
        Ok(key)
    }

    // The cells by which a row is found again that has these cells.
    pub(crate) fn pick_found(
        &self,
        found_by: FoundBy,
        row: &Cells,
        picked: &mut Cells,
    ) -> Result<(), AllocError> {
        picked.clear();
        for place in &self.key {
            picked.push(cell_in(row, *place))?;
        }
        if found_by == FoundBy::Cells {
            for place in &self.rest {
                picked.push(cell_in(row, *place))?;
            }
        }
        Ok(())
    }

    // The key of a record, the line that it begins on, and its other cells. They are picked one after the other.
    fn pick_row(
        &self,
        picked: &mut Cells,
        line: u64,
        from: &ByteRecord,
    ) -> Result<ReadRow, AllocError>
        ensures { IfOk result (IsPicked self.now (fields_of from.now)) }
    {
        let key = self.pick_key(picked, from)?;
        pick(picked, from, &self.rest)?;
        Ok(ReadRow {
            key,
            line,
            cells: picked.clone()?,
        })
    }
}

// Where the cell of each name stands in a row, if the header has the name.
fn find_places(
    alloc: Global,
    header: &Header,
    content: Content,
    names: &Cells,
) -> Result<Vec<Option<usize>>, AllocError>
    ensures { IfOk result (λ places. places.items ≡ map (place_under content header.now.names) names.now) }
{
    let mut places = Vec::new(alloc);
    for name in names {
        places.push(find_place(header, content, name))?;
    }
    Ok(places)
}

// Where the cell of a name stands in a row, if the header has the name.
fn find_place(header: &Header, content: Content, name: &[u8]) -> Option<usize>
    ensures { result ≡ place_under content header.now.names name.now }
{
    match header.place_of(name) {
        Some(place) => Some(place + cells_before(content)),
        None => None,
    }
}

// Picks the cells of a record at these places, each of which is empty where there is no place.
fn pick(picked: &mut Cells, from: &ByteRecord, places: &[Option<usize>]) -> Result<(), AllocError>
    ensures { OnOk result (picked.new ≡ map (cell_at (fields_of from.now)) places.now) }
{
    picked.clear();
    for place in places {
        picked.push(cell_of(from, *place))?;
    }
    Ok(())
}

// The cell of a row at a place, or an empty one where there is no place.
fn cell_in(row: &Cells, place: Option<usize>) -> &[u8] {
    match place {
        Some(place) => row.get(place).unwrap_or(b""),
        None => b"",
    }
}

// The cell of a record at a place, or an empty one where there is no place.
fn cell_of(from: &ByteRecord, place: Option<usize>) -> &[u8]
    ensures { result.now ≡ cell_at (fields_of from.now) place }
{
    match place {
        Some(place) => from.get(place).unwrap_or(b""),
        None => b"",
    }
}

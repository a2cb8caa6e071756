//! The tables that are cut, each with the columns of its own header, read row by row.
ghost use Rattle.std.specs.Prelude.{◌≡◌, ◌∷◌, [], IfOk, IfSome, is_some};
ghost use Rattle.keyed_columns.specs.ColumnNames.{AreColumns};
ghost use Rattle.keyed_files.specs.Reading.{GivesRecord, key_in, last_record};

use crate::fault::{CutFault, CutReason};
use crate::request::{Cut, CutTables, Second};
use csv::ByteRecord;
use keyed_columns::{Columns, Content, Fate, KeyNames, key_of};
use keyed_faults::{Reason, at};
use keyed_files::{Opened, Places, Stream};
use keyed_requests::Delimiter;
use keyed_rows::{Cells, Key};
use std::alloc::{AllocError, Global};
use std::fs;
use std::io::Read;
use std::rt::Files;

/// A table whose header is read, and its columns.
#[derive(Drop)]
pub struct Table<'a, R> {
    opened: Opened<'a, R>,
    content: Content,
    pub columns: Columns,
    places: Places,
}

/// The tables that are cut, and the names of the columns that are their key in the first of them.
#[derive(Drop)]
pub struct Tables<'a, R> {
    pub tables: Vec<Table<'a, R>>,
    pub key: Cells,
}

// A file by its name, with what it has and the byte between its cells where that is not the one of the first.
type Named<'a> = (&'a str, Content, Option<Delimiter>);

// A file of rows.
fn rows<'a>(file: &'a str, delimiter: Option<Delimiter>) -> Named<'a> {
    (file, Content::Rows, delimiter)
}

// The files that are cut, of which none is the standard input.
fn files_of<'a>(alloc: Global, cut: Cut<'a>) -> Result<Vec<Named<'a>>, CutFault<'a>> {
    let reading = cut.layout.form.reading;
    let mut files = Vec::new(alloc);
    match cut.tables {
        CutTables::Two {
            left,
            right,
            second,
        } => {
            let content = match second {
                Second::Rows => Content::Rows,
                Second::Changes => Content::Changes,
            };
            put(&mut files, rows(left, None))?;
            put(&mut files, (right, content, reading.next))?;
        }
        CutTables::Three { base, ours, theirs } => {
            put(&mut files, rows(base, None))?;
            put(&mut files, rows(ours, reading.next))?;
            put(&mut files, rows(theirs, reading.last))?;
        }
    }
    for (file, _content, _delimiter) in &files {
        if *file == "-" {
            return Err(CutFault::Asked {
                file: "-",
                reason: CutReason::ReadTwice,
            });
        }
    }
    Ok(files)
}

// Puts an item after the others. The error of `push` holds the item, and so is none that a fault can be of.
fn put<T: Drop>(items: &mut Vec<T>, item: T) -> Result<(), AllocError> {
    items.push(item)?;
    Ok(())
}

/// Opens the tables that are cut, and reads their headers.
///
/// # Errors
///
/// Returns `ReadTwice` if one is the standard input, and the fault of the first table that can't be opened or lacks a column of the key.
pub fn open_tables<'a, R: Files + AllocGlobal>(
    rt: &R,
    cut: Cut<'a>,
) -> Result<Tables<'a, R::File>, CutFault<'a>> {
    let alloc = rt.alloc();
    let mut opened = Vec::new(alloc);
    for (file, content, delimiter) in files_of(alloc, cut)? {
        let stream = Stream {
            file,
            delimiter,
            reader: match fs::open(rt, file) {
                Ok(reader) => Ok(reader),
                Err(error) => Err(Reason::Io(error)),
            },
        };
        let table = Opened::new(alloc, cut.layout.form, content, stream)?;
        put(&mut opened, (table, content))?;
    }
    tables_of(alloc, cut.layout.key, opened)
}

// The tables, of which the first has the first names of the key, and the others its other names.
fn tables_of<'a, F: Read + Drop>(
    alloc: Global,
    key: Option<&str>,
    opened: Vec<(Opened<'a, F>, Content)>,
) -> Result<Tables<'a, F>, CutFault<'a>> {
    let names = key_of_tables(alloc, key, &opened)?;
    let mut tables = Vec::new(alloc);
    for (table, content) in opened {
        let key = key_at(&names, tables.len())?;
        put(&mut tables, table_of(alloc, key, table, content)?)?;
    }
    Ok(Tables {
        tables,
        key: names.first,
    })
}

// The names of the key in the table at a place.
fn key_at(names: &KeyNames, place: usize) -> Result<Cells, AllocError> {
    match place {
        0 => names.first.clone(),
        _ => names.others.clone(),
    }
}

fn table_of<'a, F: Read + Drop>(
    alloc: Global,
    key: Cells,
    opened: Opened<'a, F>,
    content: Content,
) -> Result<Table<'a, F>, CutFault<'a>> {
    let columns = columns_under(alloc, key, opened.header())?;
    let places = at(opened.file, opened.source.places(&columns))?;
    Ok(Table {
        opened,
        content,
        columns,
        places,
    })
}

/// The columns of one header under a key.
///
/// # Errors
///
/// Returns `AllocError` if a request for memory was refused.
pub fn columns_under(alloc: Global, key: Cells, header: &Cells) -> Result<Columns, AllocError>
    ensures { IfOk result (AreColumns key (header.now ∷ [])) }
{
    Columns::new(alloc, key, &[header])
}

// The names of the key: those that are set, or that of the first column of the first table that has one.
fn key_of_tables<'a, F>(
    alloc: Global,
    key: Option<&str>,
    opened: &[(Opened<'a, F>, Content)],
) -> Result<KeyNames, CutFault<'a>> {
    let Some((first, _)) = opened.first() else {
        return Err(CutFault::NoMemory);
    };
    let headers = headers_of(alloc, opened)?;
    Ok(at(first.file, key_of(alloc, key, &headers))?)
}

fn headers_of<'o, F>(
    alloc: Global,
    opened: &'o [(Opened<'_, F>, Content)],
) -> Result<Vec<&'o Cells>, AllocError> {
    let mut headers = Vec::new(alloc);
    for (table, _) in opened {
        headers.push(table.header())?;
    }
    Ok(headers)
}

impl<'a, R> Table<'a, R> {
    /// The name of its file.
    pub fn file(&self) -> &'a str {
        self.opened.file
    }

    /// How many cells a row of its parts has.
    pub fn count_cells(&self) -> usize {
        self.columns.order.len().saturating_add(self.count_signs())
    }

    // How many cells stand before those of the columns, each of one byte.
    fn count_signs(&self) -> usize {
        match self.content {
            Content::Rows => 0,
            Content::Changes => 1,
        }
    }

    /// The header of its parts, spelled as that of the file, or none of a file with no row. Changes have a sign before the columns, and marks
    /// where the names would be taken for others.
    ///
    /// # Errors
    ///
    /// Returns `AllocError` if a request for memory was refused.
    pub fn part_header(&self, alloc: Global) -> Result<Option<Cells>, AllocError> {
        if self.columns.order.is_empty() {
            return Ok(None);
        }
        let mut header = Cells::new(alloc);
        match self.content {
            Content::Rows => {
                for name in self.spelled_names() {
                    header.push(name)?;
                }
            }
            Content::Changes => {
                header.push(b"change")?;
                for name in self.opened.header() {
                    header.push(&self.fate_of(name).marked(alloc, name)?)?;
                }
            }
        }
        Ok(Some(header))
    }

    // The names of the columns as the header spells them, or the numbers of those that have none.
    fn spelled_names(&self) -> &Cells {
        let spelled = &self.opened.source.spelling().spelled;
        if spelled.is_empty() {
            self.opened.header()
        } else {
            spelled
        }
    }

    // What becomes of a column of changes. One that comes needs no mark to be read.
    fn fate_of(&self, name: &[u8]) -> Fate {
        if self.opened.source.gone().iter().any(|gone| gone == name) {
            Fate::Goes
        } else {
            Fate::Stays
        }
    }
}

impl<'a, R: Read + Drop> Table<'a, R> {
    /// Reads the next row, if there is one, and returns its key. `row` has its cells.
    ///
    /// # Errors
    ///
    /// Returns the fault of the row.
    pub fn next_key(&mut self) -> Result<Option<Key>, CutFault<'a>>
        ensures gives { IfOk result (λ key.
            GivesRecord R.remaining self.old.opened.source.value self.new.opened.source.value (is_some key)) }
        ensures key { IfOk result (λ key. IfSome key
            (λ key. key ≡ key_in self.old.places (last_record self.new.opened.source.value))) }
        ensures places { self.new.places ≡ self.old.places }
    {
        let key = at(self.opened.file, self.opened.source.read_key(&self.places))?;
        Ok(key)
    }

    /// The row that was read last, with its sign where the table has changes.
    pub fn row(&self) -> &ByteRecord
        ensures { result.now ≡ self.now.opened.source.value.last }
    {
        self.opened.source.last_row()
    }

    /// How many bytes the cells of the row that was read last take, each with one more, but for its sign.
    pub fn row_size(&self) -> u64 {
        let bytes = self
            .row()
            .as_slice()
            .len()
            .saturating_sub(self.count_signs());
        (bytes as u64).saturating_add(self.columns.order.len() as u64)
    }
}

//! The text of a table: the names of its columns, and its rows in the order of their rowids.
ghost use Rattle.std.specs.Prelude.{◌≡◌, ◌+◌, length, ℕ, IfOk, OnOk, vec_len};
ghost use Rattle.csv.specs.Records.{fields_of};
ghost use Rattle.keyed_sqlite.specs.Tables.{IsTable, WritesTable};

use crate::affinity::Affinity;
use crate::columns::{Column, Definition, definition_of};
use crate::defaults::Added;
use crate::pages::pages_of;
use crate::problem::Problem;
use crate::scan::Scan;
use crate::schema::{objects_of, table_of};
use csv::ByteRecord;
use keyed_text::{Marks, RowWriter};
use sqlite_pages::Memory;
use sqlite_record::fields::Fields;
use sqlite_sql::spelling::{of_float, of_integer};
use sqlite_value::value::ValueRef;
use std::alloc::{AllocError, Global};
use std::num::nearest_i64_to_f64;

// How the text is read: commas between cells, and no comments.
const MARKS: Marks = Marks {
    delimiter: b',',
    comment: None,
};

/// The text of the table of a name, in whatever case, or of the only table where none is named. A cell of NULL is empty, a number is as
/// SQLite writes it, with as many digits as tell it from others, and a text or a blob is its bytes.
///
/// # Errors
///
/// Returns why there is no such table or it can't be read.
///
/// ```
/// let refused = table_text(alloc, b"id,name\n", None);
/// assert!(rt; matches!(refused, Err(Problem::Damaged)));
/// ```
pub fn table_text(alloc: Global, bytes: &[u8], name: Option<&str>) -> Result<Vec<u8>, Problem>
    ensures { IfOk result (λ text. (width : ℕ) × IsTable width text.items) }
{
    let mut pages = pages_of(alloc, bytes)?;
    let objects = objects_of(alloc, &mut pages)?;
    let table = table_of(alloc, &objects, name.map(str::as_bytes))?;
    let definition = definition_of(alloc, &table.sql)?;
    let text = text_of(alloc, &mut pages, table.root, &definition)?;
    Ok(text)
}

// The text of a table whose tree has this root.
fn text_of(
    alloc: Global,
    pages: &mut Memory,
    root: u32,
    definition: &Definition,
) -> Result<Vec<u8>, Problem>
    ensures { IfOk result (λ text. IsTable (vec_len definition.now.columns) text.items) }
{
    let mut rows = begin(alloc, definition)?;
    put_rows(alloc, pages, root, definition, &mut rows)?;
    finish(rows)
}

// Writes the header.
fn begin(alloc: Global, definition: &Definition) -> Result<RowWriter<Vec<u8>>, Problem>
    ensures { IfOk result (WritesTable (vec_len definition.now.columns)) }
{
    let mut rows = RowWriter::new(Vec::new(alloc), MARKS);
    let mut record = ByteRecord::new(alloc);
    for column in &definition.columns {
        record.push_field(&column.name)?;
    }
    rows.put_row(&record)?;
    Ok(rows)
}

fn finish(rows: RowWriter<Vec<u8>>) -> Result<Vec<u8>, Problem>
    ensures { IfOk result (λ text. (width : ℕ) → WritesTable width rows → IsTable width text.items) }
{
    let text = rows.finish()?;
    Ok(text)
}

fn put_rows(
    alloc: Global,
    pages: &mut Memory,
    root: u32,
    definition: &Definition,
    rows: &mut RowWriter<Vec<u8>>,
) -> Result<(), Problem>
    ensures { OnOk result (WritesTable (vec_len definition.now.columns) rows.old
        → WritesTable (vec_len definition.now.columns) rows.new) }
{
    let mut scan = Scan::new(alloc, root);
    let mut record = ByteRecord::new(alloc);
    for _ in 0..u64::MAX {
        if !scan.advance(pages)? {
            break;
        }
        fill_row(scan.rowid(), scan.record(), definition, &mut record)?;
        put_row(rows, &record)?;
    }
    Ok(())
}

// Puts a row under the others.
fn put_row(rows: &mut RowWriter<Vec<u8>>, record: &ByteRecord) -> Result<(), Problem>
    ensures { OnOk result ((width : ℕ) → length (fields_of record.now) ≡ width
        → WritesTable width rows.old → WritesTable width rows.new) }
{
    rows.put_row(record)?;
    Ok(())
}

// Makes the cells of a row.
fn fill_row(
    rowid: i64,
    values: &[u8],
    definition: &Definition,
    record: &mut ByteRecord,
) -> Result<(), Problem>
    ensures { OnOk result (length (fields_of record.new) ≡ vec_len definition.now.columns) }
{
    record.clear();
    let mut fields = Fields::new(values);
    for (place, column) in definition.columns.iter().enumerate() {
        match fields.next() {
            Some(ValueRef::Null) if definition.rowid == Some(place) => {
                record.push_field(of_integer(rowid).as_slice())?;
            }
            Some(value) => push_value(record, column.affinity, value)?,
            None => push_added(record, column)?,
        }
    }
    Ok(())
}

// Adds a cell of a value. A column of reals keeps a whole number as an integer.
fn push_value(
    record: &mut ByteRecord,
    affinity: Affinity,
    value: ValueRef<'_>,
) -> Result<(), AllocError>
    ensures { OnOk result (length (fields_of record.new) ≡ length (fields_of record.old) + 1) }
{
    match value {
        ValueRef::Null => record.push_field(b""),
        ValueRef::Int(number) if affinity == Affinity::Real => {
            record.push_field(of_float(nearest_i64_to_f64(number)).as_slice())
        }
        ValueRef::Int(number) => record.push_field(of_integer(number).as_slice()),
        ValueRef::Real(number) => record.push_field(of_float(number).as_slice()),
        ValueRef::Text(bytes) | ValueRef::Blob(bytes) => record.push_field(bytes),
    }
}

// Adds a cell of what a row has that is older than a column.
fn push_added(record: &mut ByteRecord, column: &Column) -> Result<(), Problem>
    ensures { OnOk result (length (fields_of record.new) ≡ length (fields_of record.old) + 1) }
{
    match &column.added {
        Added::Cell(cell) => {
            record.push_field(cell)?;
            Ok(())
        }
        Added::Unread => Err(Problem::Default),
    }
}

//! The file that says where tables were cut, written and read.
ghost use Rattle.std.specs.Prelude.{◌≡◌, ◌∷◌, [], IfOk, IfSome, OnOk, map, option_map, slice_get};
ghost use Rattle.std.specs.Prelude.{string_bytes, unwrap_or};
ghost use Rattle.std.specs.List.{flat_map};
ghost use Rattle.keyed_files.specs.Writing.{PutsCells, PutsRows};
ghost use Rattle.keyed_cut.specs.Listing.{IsListingForm, IsListingOpen, ReadsBounds, ReadsKeys};
ghost use Rattle.keyed_cut.specs.Listing.{ReadsLaterKeys, amounts_in, amounts_of, from_name, from_names};
ghost use Rattle.keyed_cut.specs.Listing.{listing_header, listing_text, part_number, part_row, part_rows};
ghost use Rattle.keyed_cut.specs.Listing.{table_names};
ghost use Rattle.keyed_cut.specs.Partitioned.{fitted};

use crate::fault::{CutFault, CutReason};
use crate::request::MOST_PARTS;
use crate::sinks::{Count, Counts, put};
use crate::tables::columns_under;
use keyed_columns::Content;
use keyed_faults::{Fault, Reason, at};
use keyed_files::{Opened, Places, Source, Stream, Written};
use keyed_parts::Boundaries;
use keyed_requests::{Delimiter, Form, Reading, Writing};
use keyed_rows::{Cells, Key};
use std::alloc::{AllocError, Global};
use std::fs;
use std::io::Read;
use std::rt::Files;

// What the names of the columns begin with that have the first key of each part.
const FROM: &[u8] = b"from.";

/// The text of the file: a row for each part, with its number, the rows and bytes of each table, and the key that it begins at.
///
/// # Errors
///
/// Returns `NoMemory`, or `Io` with the error that the writer makes of it, if a request for memory was refused.
pub fn listing_text(
    alloc: Global,
    stems: &[&str],
    key: &Cells,
    bounds: &Boundaries<Key>,
    counts: &[Counts],
) -> Result<Vec<u8>, Reason>
    ensures { IfOk result (λ text. text.items
        ≡ listing_text (map (λ stem. stem.now) stems.now) key.now counts.now bounds.now.keys.items) }
{
    let form = listing_form();
    let mut rows = Written::new(alloc, form);
    put_header(alloc, &mut rows, stems, key)?;
    let cells = key.len();
    put_first(alloc, &mut rows, counts, cells)?;
    put_parts(alloc, &mut rows, counts, cells, bounds.keys())?;
    let text = rows.finish()?;
    Ok(text)
}

// How the file is written and read.
fn listing_form() -> Form
    ensures { IsListingForm result }
{
    Form {
        delimiter: Delimiter::COMMA,
        has_header: true,
        reading: Reading::STRICT,
        writing: Writing::PLAIN,
    }
}

// Puts the header.
fn put_header(alloc: Global, rows: &mut Written, stems: &[&str], key: &Cells) -> Result<(), Reason>
    ensures { OnOk result (PutsRows rows.old rows.new
        (listing_header (map (λ stem. stem.now) stems.now) key.now ∷ [])) }
{
    rows.put_cell(b"part")?;
    put_table_names(alloc, rows, stems)?;
    put_from_names(alloc, rows, key)?;
    rows.end_row()?;
    Ok(())
}

// Puts the names of the columns of each table.
fn put_table_names(alloc: Global, rows: &mut Written, stems: &[&str]) -> Result<(), Reason>
    ensures { OnOk result (PutsCells rows.old rows.new
        (flat_map table_names (map (λ stem. stem.now) stems.now))) }
{
    for stem in stems {
        put_table(alloc, rows, stem)?;
    }
    Ok(())
}

// Puts the names of the columns of a table.
fn put_table(alloc: Global, rows: &mut Written, stem: &str) -> Result<(), Reason>
    ensures { OnOk result (PutsCells rows.old rows.new (table_names stem.now)) }
{
    rows.put_cell(format!(in alloc; "{stem}.rows")?.as_bytes())?;
    rows.put_cell(format!(in alloc; "{stem}.bytes")?.as_bytes())?;
    Ok(())
}

// Puts the names of the columns of the key.
fn put_from_names(alloc: Global, rows: &mut Written, key: &Cells) -> Result<(), Reason>
    ensures { OnOk result (PutsCells rows.old rows.new (map from_name key.now)) }
{
    for name in key {
        let from = from_name(alloc, name)?;
        rows.put_cell(&from)?;
    }
    Ok(())
}

// The name of the column that has the cells of one of the key.
fn from_name(alloc: Global, name: &[u8]) -> Result<Vec<u8>, AllocError>
    ensures { IfOk result (λ from. from.items ≡ from_name name.now) }
{
    let mut from = Vec::from_slice(alloc, FROM)?;
    from.extend_from_slice(name)?;
    Ok(from)
}

// Puts the row of the first part, which begins with any key.
fn put_first(
    alloc: Global,
    rows: &mut Written,
    counts: &[Counts],
    cells: usize,
) -> Result<(), Reason>
    ensures { OnOk result (PutsRows rows.old rows.new (part_row cells counts.now 0 [] ∷ [])) }
{
    let any = Key::new(Cells::new(alloc));
    put_part(alloc, rows, counts, cells, 0, &any)?;
    Ok(())
}

// Puts the rows of all parts but the first, by the keys that they begin at.
fn put_parts(
    alloc: Global,
    rows: &mut Written,
    counts: &[Counts],
    cells: usize,
    bounds: &[Key],
) -> Result<(), Reason>
    ensures { OnOk result (PutsRows rows.old rows.new (part_rows cells counts.now 1 bounds.now)) }
{
    for (place, bound) in bounds.iter().enumerate() {
        put_part(alloc, rows, counts, cells, place + 1, bound)?;
    }
    Ok(())
}

// Puts the row of a part that begins at a key, of which it has so many cells.
fn put_part(
    alloc: Global,
    rows: &mut Written,
    counts: &[Counts],
    cells: usize,
    part: usize,
    bound: &Key,
) -> Result<(), Reason>
    ensures { OnOk result (PutsRows rows.old rows.new (part_row cells counts.now part bound.now ∷ [])) }
{
    let number = part_number(alloc, part)?;
    rows.put_cell(number.as_bytes())?;
    put_amounts(alloc, rows, counts, part)?;
    put_key(rows, cells, bound)?;
    rows.end_row()?;
    Ok(())
}

// The number of a part, in three digits or more.
fn part_number(alloc: Global, part: usize) -> Result<String, AllocError>
    ensures { IfOk result (λ number. string_bytes number ≡ part_number part) }
{
    format!(in alloc; "{part:03}")
}

// Puts how many rows and bytes a part has of each table.
fn put_amounts(
    alloc: Global,
    rows: &mut Written,
    counts: &[Counts],
    part: usize,
) -> Result<(), Reason>
    ensures { OnOk result (PutsCells rows.old rows.new (flat_map (amounts_in part) counts.now)) }
{
    for table in counts {
        put_count(alloc, rows, count_in(table, part))?;
    }
    Ok(())
}

// What a part has of a table, if it is counted.
fn count_in(table: &Counts, part: usize) -> Option<&Count>
    ensures { option_map (λ count. count.now) result ≡ slice_get table.now.parts.items part }
{
    table.parts.get(part)
}

// Puts how many rows and bytes are counted.
fn put_count(alloc: Global, rows: &mut Written, count: Option<&Count>) -> Result<(), Reason>
    ensures { OnOk result (PutsCells rows.old rows.new
        (amounts_of (option_map (λ count. count.now) count.entry))) }
{
    let (count, bytes) = match count {
        Some(count) => (count.rows, count.bytes),
        None => (0, 0),
    };
    rows.put_cell(format!(in alloc; "{count}")?.as_bytes())?;
    rows.put_cell(format!(in alloc; "{bytes}")?.as_bytes())?;
    Ok(())
}

// Puts so many cells of a key, of which those that it lacks are empty.
fn put_key(rows: &mut Written, cells: usize, bound: &Key) -> Result<(), Reason>
    ensures { OnOk result (PutsCells rows.old rows.new (fitted cells bound.now)) }
{
    for place in 0..cells {
        rows.put_cell(cell_of(bound, place))?;
    }
    Ok(())
}

// The cell of a key at a place, or an empty one after the last.
fn cell_of(key: &Key, place: usize) -> &[u8]
    ensures { result.now ≡ unwrap_or (slice_get key.now place) [] }
{
    key.iter().nth(place).unwrap_or(b"")
}

/// Reads where an earlier cut was, by a key of as many columns as this one. Tables with no row have a key of none, and any will do.
///
/// # Errors
///
/// Returns the fault of the file, `NoListing` if it is none that a cut has written, and `KeyLength` if its key has another length.
pub fn read_listing<'a, R: Files + AllocGlobal>(
    rt: &R,
    file: &'a str,
    key: &Cells,
) -> Result<Boundaries<Key>, CutFault<'a>> {
    let reader = at(file, fs::open(rt, file))?;
    read_bounds(rt.alloc(), file, reader, key)
}

// Reads where an earlier cut was from what a reader has of its file.
fn read_bounds<'a, R: Read + Drop>(
    alloc: Global,
    file: &'a str,
    reader: R,
    key: &Cells,
) -> Result<Boundaries<Key>, CutFault<'a>>
    ensures { IfOk result (λ bounds. ReadsBounds (R.remaining reader) bounds.keys.items) }
{
    let mut opened = open_listing(alloc, file, reader)?;
    let names = key_columns(alloc, opened.header())?;
    let (earlier, found) = (names.len(), key.len());
    if opened.header().get(0) != Some(b"part".as_slice()) || earlier == 0 {
        return Err(asked(file, CutReason::NoListing));
    }
    if found > 0 && found != earlier {
        return Err(asked(file, CutReason::KeyLength { earlier, found }));
    }
    let columns = columns_under(alloc, names, opened.header())?;
    let places = at(file, opened.source.places(&columns))?;
    match at(file, read_keys(alloc, &mut opened.source, &places))? {
        Some(keys) => Ok(Boundaries::new(keys)),
        None => Err(asked(file, CutReason::NoListing)),
    }
}

// Reads the header of what a reader has.
fn open_listing<'a, R: Read + Drop>(
    alloc: Global,
    file: &'a str,
    reader: R,
) -> Result<Opened<'a, R>, Fault<'a>>
    ensures { IfOk result (λ opened. IfSome (R.remaining reader)
        (λ text. IsListingOpen R.remaining text opened.source.value)) }
{
    let stream = Stream {
        file,
        delimiter: None,
        reader: Ok(reader),
    };
    let opened = Opened::new(alloc, listing_form(), Content::Rows, stream)?;
    Ok(opened)
}

// The key at which each part begins but the first, or nothing where there are no parts or too many.
fn read_keys<F: Read + Drop>(
    alloc: Global,
    source: &mut Source<F>,
    places: &Places,
) -> Result<Option<Vec<Key>>, Reason>
    ensures { IfOk result (λ keys. IfSome keys
        (λ keys. ReadsLaterKeys F.remaining places.now source.old keys.items)) }
{
    let Some(_any) = source.read_key(places)? else {
        return Ok(None);
    };
    let mut keys = Vec::new(alloc);
    read_rest(source, places, &mut keys)?;
    if keys.len() < MOST_PARTS {
        Ok(Some(keys))
    } else {
        Ok(None)
    }
}

// Reads the keys that a source has left, after those that are there. No input has more of them than a number counts.
fn read_rest<F: Read + Drop>(
    source: &mut Source<F>,
    places: &Places,
    keys: &mut Vec<Key>,
) -> Result<(), Reason>
    ensures { OnOk result (ReadsKeys F.remaining places.now source.old keys.old.items keys.new.items) }
{
    for _ in 0..u64::MAX {
        match source.read_key(places)? {
            Some(key) => put(keys, key)?,
            None => return Ok(()),
        }
    }
    Err(Reason::NoMemory)
}

fn asked<'a>(file: &'a str, reason: CutReason) -> CutFault<'a> {
    CutFault::Asked { file, reason }
}

// The names of the columns that have the key at which each part begins.
fn key_columns(alloc: Global, header: &Cells) -> Result<Cells, AllocError>
    ensures { IfOk result (λ names. names ≡ from_names header.now) }
{
    let mut names = Cells::new(alloc);
    for name in header {
        if name.starts_with(FROM) {
            names.push(name)?;
        }
    }
    Ok(names)
}

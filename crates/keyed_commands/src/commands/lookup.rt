//! Rows of a table looked up in another by key. The right table is held, by key; the left one is read row by row, and never held.
ghost use Rattle.std.specs.Prelude.{◌≡◌, ◌++◌, ◌∷◌, [], IfErr, IfOk, List, None, OnOk};
ghost use Rattle.std.specs.Prelude.{false, map, option_map, ℕ};
ghost use Rattle.std.specs.HashMap.{IsUnique, get_by};
ghost use Rattle.eob_joins.specs.Lookup.{shown_lookup, with_found};
ghost use Rattle.keyed_requests.specs.declared.request.RowFormat.TheVariants.{Csv};
ghost use Rattle.keyed_files.specs.Explained.{ExplainsRows};
ghost use Rattle.keyed_files.specs.Reading.{ReadsRest, ReadsRows};
ghost use Rattle.keyed_files.specs.Writing.{PutsRows, Wrote, quoted_text};
ghost use Rattle.keyed_commands.specs.JoinAnswers.{heading_of_join};
ghost use Rattle.keyed_commands.specs.LookupAnswers.{LooksUpStreams, ReadsPart, WritesBehind, WritesPart};
ghost use Rattle.keyed_commands.specs.LookupAnswers.{WritesRest, as_rows, found_under, held_rows, key_eq};
ghost use Rattle.keyed_commands.specs.LookupAnswers.{lookup_rows, rows_of, shown_row, shown_rows};
ghost use Rattle.keyed_commands.specs.UnansweredLookup.{ExplainsFound, ExplainsHeld, ExplainsLeft};
ghost use Rattle.keyed_commands.specs.UnansweredLookup.{ExplainsLookup, GoesOn, IsRepeated};

use eob_joins::{LookupRow, lookup_join};
use indexmap::IndexMap;
use keyed_columns::{Columns, Content, JoinColumns, lookup_header};
use keyed_faults::{Fault, Reason, at};
use keyed_files::{Opened, Places, Source, Stream, Two, Written, quote_first};
use keyed_reports::{JsonSides, put_json_row};
use keyed_requests::{Finding, Form, Layout, LookupKind, RowFormat};
use keyed_rows::{Cells, Key, ReadRow, RepeatedKey};
use std::alloc::{AllocError, Global};
use std::io::{Read, Write};

// How many rows of the left table are looked up at once.
const PART: usize = 512;

// What stands under a key of the right table: the line of its row, and its other cells.
#[derive(Drop)]
struct Found {
    line: u64,
    cells: Cells,
}

// The rows of the right table by their keys, each of which stands once.
type FoundByKey = IndexMap<Key, Found>;

/// Writes each row of the left table, in its order, with the row of the right one that has its key, while the left one is read, and returns
/// the status. Takes the memory of the right table.
///
/// # Errors
///
/// Returns the fault of a table that can't be opened or read, that lacks a column of the key, or, of the right one, in which a key stands
/// twice; of a look-up that would have two columns of a name; and that of the output; also want of memory. Whole rows may be written by
/// then.
pub fn lookup<'a, R: Read + Drop, W: Write>(
    alloc: Global,
    layout: Layout<'a>,
    how: Finding<'a>,
    left: Stream<'a, R>,
    right: Stream<'a, R>,
    output: &mut W,
) -> Result<u8, Fault<'a>>
    ensures status { IfOk result (λ status. status ≡ 0) }
    ensures text { OnOk result (how.entry.format ≡ Csv → LooksUpStreams R.remaining layout.entry how.entry
        left.entry right.entry (W.contents output.old) (W.contents output.new)) }
    ensures why { IfErr result (ExplainsLookup R.remaining layout.entry left.entry right.entry) }
{
    let mut sides = Two::new(alloc, layout.form, Content::Rows, left, right)?;
    let columns = sides.join_columns(alloc, layout.key)?;
    let places = at(sides.first.file, sides.first.source.places(&columns.left))?;
    let right_file = sides.next.file;
    let found = at(
        right_file,
        read_found(alloc, &mut sides.next, &columns.right),
    )?;
    let work = LookupWork {
        alloc,
        form: layout.form,
        kind: how.kind,
        columns: &columns,
        found,
    };
    match how.format {
        RowFormat::Csv => {
            let header = at(right_file, lookup_header(alloc, how, &columns))?;
            write_found(&work, &header, &places, &mut sides.first, output)
        }
        RowFormat::Json => write_json(&work, &places, &mut sides.first, output),
    }
}

// What is looked up, where, and how it is written.
#[derive(Drop)]
struct LookupWork<'c> {
    alloc: Global,
    form: Form,
    kind: LookupKind,
    columns: &'c JoinColumns,
    found: FoundByKey,
}

// Reads the rows of the right table.
fn read_found<R: Read + Drop>(
    alloc: Global,
    right: &mut Opened<'_, R>,
    columns: &Columns,
) -> Result<FoundByKey, Reason>
    ensures rows { IfOk result (λ found.
        ReadsRows R.remaining columns.now right.old.source.value [] (held_rows found.entries)) }
    ensures unique { IfOk result (λ found. IsUnique key_eq found) }
    ensures why { IfErr result (ExplainsFound R.remaining columns.now right.old.source.value) }
{
    let places = right.source.places(columns)?;
    let mut found: FoundByKey = IndexMap::new(alloc);
    read_rest(&mut right.source, &places, &mut found)?;
    Ok(found)
}

// Reads the rows that a source has left, after those that are there. No input has more of them than a number counts.
fn read_rest<R: Read + Drop>(
    source: &mut Source<R>,
    places: &Places,
    found: &mut FoundByKey,
) -> Result<(), Reason>
    ensures read { OnOk result (ReadsRest R.remaining places.now source.old
        (held_rows found.old.entries) (held_rows found.new.entries)) }
    ensures unique { OnOk result (IsUnique key_eq found.old → IsUnique key_eq found.new) }
    ensures why { IfErr result (λ told. held_rows found.old.entries ≡ []
        → ExplainsHeld R.remaining places.now source.old told) }
{
    for _ in 0..u64::MAX {
        match source.read_row(places)? {
            Some(row) => put_unique(found, row)?,
            None => return Ok(()),
        }
    }
    Err(Reason::NoMemory)
}

// Puts a row under its key, under which none stands yet.
fn put_unique(found: &mut FoundByKey, row: ReadRow) -> Result<(), Reason>
    ensures absent { OnOk result (get_by (⟦<Key as PartialEq>⟧.eq row.key) found.old ≡ None) }
    ensures put { OnOk result (held_rows found.new.entries ≡ held_rows found.old.entries ++ row ∷ []) }
    ensures unique { OnOk result (IsUnique key_eq found.new) }
    ensures why { IfErr result (IsRepeated (held_rows found.old.entries) row) }
{
    if let Some(earlier) = found.get(&row.key) {
        return Err(Reason::RepeatedRight(RepeatedKey {
            key: row.key,
            first: earlier.line,
            second: row.line,
        }));
    }
    found.insert(
        row.key,
        Found {
            line: row.line,
            cells: row.cells,
        },
    )?;
    Ok(())
}

// Writes what is found of the rows of the left table, after the header.
fn write_found<'a, R: Read + Drop, W: Write>(
    work: &LookupWork<'_>,
    header: &Cells,
    places: &Places,
    left: &mut Opened<'a, R>,
    output: &mut W,
) -> Result<u8, Fault<'a>>
    ensures status { IfOk result (λ status. status ≡ 0) }
    ensures text { OnOk result (WritesBehind R.remaining work.now.form work.now.kind work.now.columns.now
        (found_under work.now.found.entries) places.now (heading_of_join work.now.form header.now)
        left.old.source.value (W.contents output.old) (W.contents output.new)) }
    ensures why { IfErr result (ExplainsLeft R.remaining left.old) }
{
    let written = at(left.file, begin_lookup(work, header))?;
    write_parts(work, places, left, written, output)
}

// Writes what is found of the rows that are left, part by part: the first part after what is written already. No input has more parts than
// a number counts.
fn write_parts<'a, R: Read + Drop, W: Write>(
    work: &LookupWork<'_>,
    places: &Places,
    left: &mut Opened<'a, R>,
    mut written: Written,
    output: &mut W,
) -> Result<u8, Fault<'a>>
    ensures status { IfOk result (λ status. status ≡ 0) }
    ensures text { OnOk result (WritesRest R.remaining work.now.form work.now.kind work.now.columns.now
        (found_under work.now.found.entries) places.now left.old.source.value written
        (W.contents output.old) (W.contents output.new)) }
    ensures why { IfErr result (ExplainsLeft R.remaining left.old) }
{
    for _ in 0..u64::MAX {
        let is_last = write_part(work, places, left, written, output)?;
        if is_last {
            at("the standard output", output.flush())?;
            return Ok(0);
        }
        written = Written::new(work.alloc, work.form);
    }
    Err(Fault {
        file: left.file,
        reason: Reason::NoMemory,
    })
}

// Writes what is found of the rows of the left table as JSON, part by part.
fn write_json<'a, R: Read + Drop, W: Write>(
    work: &LookupWork<'_>,
    places: &Places,
    left: &mut Opened<'a, R>,
    output: &mut W,
) -> Result<u8, Fault<'a>>
    ensures status { IfOk result (λ status. status ≡ 0) }
    ensures why { IfErr result (ExplainsLeft R.remaining left.old) }
{
    for _ in 0..u64::MAX {
        let part = at(left.file, read_part(work.alloc, &mut left.source, places))?;
        let bytes = at(left.file, part_as_json(work, part.rows))?;
        at("the standard output", output.write_all(&bytes))?;
        if part.is_last {
            break;
        }
    }
    at("the standard output", output.flush())?;
    Ok(0)
}

// Writes what is found of the next rows of the left table after what is written already, and says whether they are the last ones.
fn write_part<'a, R: Read + Drop, W: Write>(
    work: &LookupWork<'_>,
    places: &Places,
    left: &mut Opened<'a, R>,
    written: Written,
    output: &mut W,
) -> Result<bool, Fault<'a>>
    ensures text { IfOk result (λ is_last. WritesPart R.remaining work.now.form work.now.kind
        work.now.columns.now (found_under work.now.found.entries) places.now is_last left.old.source.value
        left.new.source.value written (W.contents output.old) (W.contents output.new)) }
    ensures goes_on { IfOk result (λ is_last. is_last ≡ false
        → GoesOn R.remaining left.old.source.value left.new.source.value) }
    ensures named { left.new.file ≡ left.old.file }
    ensures why { IfErr result (ExplainsLeft R.remaining left.old) }
{
    let part = at(left.file, read_part(work.alloc, &mut left.source, places))?;
    let bytes = at(left.file, part_as_csv(work, written, part.rows))?;
    at("the standard output", output.write_all(&bytes))?;
    Ok(part.is_last)
}

// Rows of the left table that are looked up at once, and whether they are its last ones.
#[derive(Drop)]
struct Part {
    rows: Vec<(Key, Cells)>,
    is_last: bool,
}

// Reads the next rows of the left table, as many as are looked up at once, or as are there.
fn read_part<R: Read + Drop>(
    alloc: Global,
    source: &mut Source<R>,
    places: &Places,
) -> Result<Part, Reason>
    ensures rows { IfOk result (λ part. ReadsPart R.remaining part.is_last places.now source.old source.new
        (as_rows part.rows.items)) }
    ensures goes_on { IfOk result (λ part. part.is_last ≡ false → GoesOn R.remaining source.old source.new) }
    ensures why { IfErr result (ExplainsRows R.remaining source.old) }
{
    let mut rows = Vec::new(alloc);
    for _ in 0..PART {
        match source.read_row(places)? {
            Some(row) => rows.push((row.key, row.cells))?,
            None => {
                return Ok(Part {
                    rows,
                    is_last: true,
                });
            }
        }
    }
    Ok(Part {
        rows,
        is_last: false,
    })
}

// The header, where answers have a heading.
fn begin_lookup(work: &LookupWork<'_>, header: &Cells) -> Result<Written, AllocError>
    ensures { IfOk result (λ written.
        Wrote work.now.form (heading_of_join work.now.form header.now) written) }
{
    let mut written = Written::new(work.alloc, work.form);
    let has_heading = work.form.writes_heading();
    if has_heading {
        written.put_join_heading(header)?;
        Ok(written)
    } else {
        Ok(written)
    }
}

// What is found of these rows as CSV, after what is written already.
fn part_as_csv(
    work: &LookupWork<'_>,
    mut written: Written,
    rows: Vec<(Key, Cells)>,
) -> Result<Vec<u8>, AllocError>
    ensures { IfOk result (λ text. (pending : List (List (List ℕ))) → Wrote work.now.form pending written
        → text.items ≡ quoted_text work.now.form (pending ++ lookup_rows work.now.columns.now work.now.kind
        (found_under work.now.found.entries) rows.items)) }
{
    let rows = look_up(work.alloc, rows, &work.found)?;
    put_rows(work, &mut written, rows)?;
    let bytes = written.finish()?;
    let given = quote_first(work.alloc, bytes, work.form.delimiter)?;
    Ok(given)
}

// The same as JSON, a line a row.
fn part_as_json(work: &LookupWork<'_>, rows: Vec<(Key, Cells)>) -> Result<Vec<u8>, AllocError> {
    let rows = look_up(work.alloc, rows, &work.found)?;
    let mut text = Vec::new(work.alloc);
    for (key, cells, found) in &rows {
        if let Some(sides) = sides_of(work.kind, cells, *found) {
            put_json_row(work.alloc, &mut text, work.columns, key, sides)?;
        }
    }
    Ok(text)
}

// The cells of a row and of what is found of it, if it is one of this kind of look-up.
fn sides_of<'r>(
    kind: LookupKind,
    cells: &'r Cells,
    found: Option<&'r Found>,
) -> Option<JsonSides<'r>> {
    let sides = JsonSides {
        left: Some(cells),
        right: found.map(|found| &found.cells),
    };
    match kind {
        LookupKind::Left => Some(sides),
        LookupKind::Inner => found.map(|_| sides),
        LookupKind::Anti => match found {
            Some(_) => None,
            None => Some(sides),
        },
    }
}

// Each row in its order, with what stands under its key.
fn look_up<'f>(
    alloc: Global,
    rows: Vec<(Key, Cells)>,
    found: &'f FoundByKey,
) -> Result<Vec<LookupRow<'f, Key, Cells, Found>>, AllocError>
    ensures { IfOk result (λ found_rows. map shown_lookup found_rows.items
        ≡ map (with_found (λ k. get_by (⟦<Key as PartialEq>⟧.eq k) found.now)) rows.items) }
{
    lookup_join(alloc, rows, found)
}

// Puts what is found of rows, in their order.
fn put_rows(
    work: &LookupWork<'_>,
    written: &mut Written,
    rows: Vec<LookupRow<'_, Key, Cells, Found>>,
) -> Result<(), AllocError>
    ensures { OnOk result (PutsRows written.old written.new
        (shown_rows work.now.columns.now work.now.kind (map shown_lookup rows.entry.items))) }
{
    for row in rows {
        put_row(work, written, &row)?;
    }
    Ok(())
}

// Puts a row if it is one of this kind of look-up.
fn put_row(
    work: &LookupWork<'_>,
    written: &mut Written,
    row: &LookupRow<'_, Key, Cells, Found>,
) -> Result<(), AllocError>
    ensures { OnOk result (PutsRows written.old written.new
        (shown_row work.now.columns.now work.now.kind (shown_lookup row.now))) }
{
    let (key, cells, found) = row;
    let found = match found {
        Some(found) => Some(&found.cells),
        None => None,
    };
    put_found(work, written, key, cells, found)
}

// Puts a row with the cells that were found, or says nothing of it, as the kind of the look-up is.
fn put_found(
    work: &LookupWork<'_>,
    written: &mut Written,
    key: &Key,
    cells: &Cells,
    found: Option<&Cells>,
) -> Result<(), AllocError>
    ensures { OnOk result (PutsRows written.old written.new
        (rows_of work.now.columns.now work.now.kind key.now cells.now
        (option_map (λ cells. cells.now) found.entry))) }
{
    match work.kind {
        LookupKind::Left => written.put_found(work.columns, key, cells, found),
        LookupKind::Inner => match found {
            Some(_) => written.put_found(work.columns, key, cells, found),
            None => Ok(()),
        },
        LookupKind::Anti => match found {
            Some(_) => Ok(()),
            None => written.put_lone(&work.columns.left, key, cells),
        },
    }
}

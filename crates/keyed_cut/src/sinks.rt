//! The files of the parts of a table, while its rows are partitioned into them.
ghost use Rattle.std.specs.Prelude.{◌≡◌, ◌↔◌, ◌<◌, ◌+◌, ◌-◌, ◌^◌, ◌∷◌, ◌++◌, [], IfOk, IsTrue, OnOk};
ghost use Rattle.std.specs.Prelude.{length, min};
ghost use Rattle.std.specs.Prelude.{unwrap_or};
ghost use Rattle.csv.specs.Records.{field_at, fields_of};
ghost use Rattle.keyed_text.specs.Streams.{PutsCells, PutsRows};
ghost use Rattle.keyed_parts.specs.Parts.{part_in};
ghost use Rattle.keyed_cut.specs.Counted.{AreCounted, CountsRowAt};
ghost use Rattle.keyed_cut.specs.Partitioned.{PutsRowAt, fitted, key_cmp};

use crate::fault::{CutFault, not_made};
use crate::names::part_name;
use csv::ByteRecord;
use keyed_faults::Reason;
use keyed_files::quote_first;
use keyed_parts::Boundaries;
use keyed_requests::Form;
use keyed_rows::{Cells, Key};
use keyed_text::{Marks, RowWriter};
use std::alloc::{AllocError, Global};
use std::fs::File;
use std::io::{BufWriter, Write};
use std::rt::Files;

// How many bytes wait for the files of all parts, and for that of one at least and at most.
const ALL_ROOM: usize = 4_194_304;

const LEAST_ROOM: usize = 16_384;

const MOST_ROOM: usize = 65_536;

/// What a part of a table has.
#[derive(Clone, Copy, Drop)]
pub struct Count {
    pub rows: u64,
    /// How much memory a command takes for them, about.
    pub bytes: u64,
    /// Whether a key is another one than that at which the part begins.
    pub has_others: bool,
}

// What a part has in which no row stands yet.
const NONE: Count = Count {
    rows: 0,
    bytes: 0,
    has_others: false,
};

impl Count {
    // Notes one more row of a part that begins at a boundary, by its key, and how many bytes of memory it takes.
    fn note(&mut self, bound: Option<&Key>, key: &Key, weight: u64)
        ensures { self.new.rows ≡ min (self.old.rows + 1) (2 ^ 64 - 1) }
    {
        self.rows = self.rows.saturating_add(1);
        self.bytes = self.bytes.saturating_add(weight);
        if !self.has_others {
            self.has_others = bound != Some(key);
        }
    }
}

/// What the parts of a table have.
#[derive(Drop)]
pub struct Counts {
    pub parts: Vec<Count>,
}

impl Counts {
    // Notes one more row of a part, by its key, and how many bytes of memory it takes.
    fn note(&mut self, bounds: &Boundaries<Key>, part: usize, key: &Key, weight: u64)
        requires { part < length self.old.parts.items }
        ensures { CountsRowAt part self.old self.new }
    {
        let bound = bounds.keys().get(part.wrapping_sub(1));
        self.parts[part].note(bound, key, weight);
    }
}

/// The files of the parts of a table.
#[derive(Drop)]
pub struct Sinks<W: Write + Drop> {
    writers: Vec<RowWriter<W>>,
    // How many cells each row has.
    columns: usize,
    pub counts: Counts,
}

/// Where the parts of a table are written, and how.
#[derive(Clone, Copy)]
pub struct Target<'a> {
    pub into: &'a str,
    pub stem: &'static str,
    pub form: Form,
}

// The bytes that part what is written.
fn marks_of(form: Form) -> Marks {
    Marks {
        delimiter: form.delimiter.byte(),
        comment: match form.reading.comment {
            Some(comment) => Some(comment.byte()),
            None => None,
        },
    }
}

// A header as it stands at the top of a file.
fn header_text(alloc: Global, form: Form, header: &Cells) -> Result<Vec<u8>, Reason> {
    let mut rows = RowWriter::new(Vec::new(alloc), marks_of(form));
    for name in header {
        rows.put_cell(name)?;
    }
    rows.end_row()?;
    let text = rows.finish()?;
    Ok(quote_first(alloc, text, form.delimiter)?)
}

/// Makes the files of the parts of a table, each with the header if there is one. Each row has so many cells.
///
/// # Errors
///
/// Returns the fault of the first file that can't be made or written, `ManyFiles` where it is that there are too many.
pub fn make_sinks<'a, R: Files + AllocGlobal>(
    rt: &R,
    target: Target<'a>,
    bounds: &Boundaries<Key>,
    header: Option<Cells>,
    columns: usize,
) -> Result<Sinks<BufWriter<R::File>>, CutFault<'a>>
    ensures writers { IfOk result (λ sinks. length sinks.writers.items ≡ length bounds.now.keys.items + 1) }
    ensures counts { IfOk result (λ sinks. AreCounted key_cmp bounds.now.keys.items [] sinks.counts) }
{
    let alloc = rt.alloc();
    let top = top_text(alloc, target.form, header)?;
    let parts = bounds.count_parts();
    let mut writers = Vec::new(alloc);
    let mut counts = Vec::new(alloc);
    put(&mut writers, make_part(rt, target, &top, 0, parts)?)?;
    put(&mut counts, NONE)?;
    for place in 0..bounds.keys().len() {
        put(&mut writers, make_part(rt, target, &top, place + 1, parts)?)?;
        put(&mut counts, NONE)?;
    }
    Ok(Sinks {
        writers,
        columns,
        counts: Counts { parts: counts },
    })
}

// Makes the file of a part, of so many, with what stands at its top.
fn make_part<'a, R: Files + AllocGlobal>(
    rt: &R,
    target: Target<'a>,
    top: &[u8],
    part: usize,
    parts: usize,
) -> Result<RowWriter<BufWriter<R::File>>, CutFault<'a>> {
    let alloc = rt.alloc();
    let name = part_name(alloc, target.into, target.stem, part)?;
    let mut file = match File::create_new(rt, name.as_str()) {
        Ok(file) => file,
        Err(error) => return Err(not_made(name, error, parts)),
    };
    if let Err(error) = file.write_all(top) {
        return Err(written(name, Reason::Io(error)));
    }
    match BufWriter::with_capacity(alloc, room_of(parts), file) {
        Ok(file) => Ok(RowWriter::new(file, marks_of(target.form))),
        Err(_refused) => Err(CutFault::NoMemory),
    }
}

// How many bytes wait for the file of each of so many parts, so that all take no more than a few megabytes.
fn room_of(parts: usize) -> usize {
    (ALL_ROOM / parts.max(1)).clamp(LEAST_ROOM, MOST_ROOM)
}

// What stands at the top of each part: the header, if there is one.
fn top_text(alloc: Global, form: Form, header: Option<Cells>) -> Result<Vec<u8>, AllocError> {
    match header {
        Some(header) => match header_text(alloc, form, &header) {
            Ok(text) => Ok(text),
            Err(_reason) => Err(AllocError),
        },
        None => Ok(Vec::new(alloc)),
    }
}

/// Puts an item after the others.
///
/// # Errors
///
/// Returns `AllocError` if a request for memory was refused.
pub fn put<T: Drop>(items: &mut Vec<T>, item: T) -> Result<(), AllocError>
    ensures { OnOk result (items.new.items ≡ items.old.items ++ item ∷ []) }
{
    items.push(item)?;
    Ok(())
}

fn written<'a>(file: String, reason: Reason) -> CutFault<'a> {
    CutFault::Written { file, reason }
}

impl<W: Write + Drop> Sinks<W> {
    /// Writes a row that was read after those of the part of its key, and notes how many bytes of memory it takes. All other parts stay
    /// as they are.
    ///
    /// # Errors
    ///
    /// Returns the fault of the file.
    pub fn put_row<'a>(
        &mut self,
        alloc: Global,
        target: Target<'a>,
        bounds: &Boundaries<Key>,
        key: &Key,
        row: &ByteRecord,
        weight: u64,
    ) -> Result<(), CutFault<'a>>
        requires writers { length bounds.now.keys.items < length self.old.writers.items }
        requires counts { length bounds.now.keys.items < length self.old.counts.parts.items }
        ensures put { OnOk result (PutsRowAt W.contents
            (part_in ⟦<Key as Ord>⟧.cmp bounds.now.keys.items key.now)
            (fitted self.old.columns (fields_of row.now)) self.old.writers.items self.new.writers.items) }
        ensures columns { OnOk result (self.new.columns ≡ self.old.columns) }
        ensures many { OnOk result (length self.new.writers.items ≡ length self.old.writers.items) }
        ensures counted { OnOk result (CountsRowAt (part_in ⟦<Key as Ord>⟧.cmp bounds.now.keys.items key.now)
            self.old.counts self.new.counts) }
    {
        let part = bounds.part_of(key);
        match put_at(&mut self.writers, part, self.columns, row) {
            Ok(()) => {
                self.counts.note(bounds, part, key, weight);
                Ok(())
            }
            Err(error) => {
                let name = part_name(alloc, target.into, target.stem, part)?;
                Err(written(name, Reason::from(error)))
            }
        }
    }

    /// Writes what is not written yet, closes the files, and returns what the parts have.
    ///
    /// # Errors
    ///
    /// Returns the fault of the first file that does not take it.
    pub fn end<'a>(self, alloc: Global, target: Target<'a>) -> Result<Counts, CutFault<'a>>
        ensures { IfOk result (λ counts. counts ≡ self.counts) }
    {
        let Sinks {
            writers,
            columns: _,
            counts,
        } = self;
        for (part, writer) in writers.into_iter().enumerate() {
            if let Err(error) = writer.finish() {
                let name = part_name(alloc, target.into, target.stem, part)?;
                return Err(written(name, Reason::from(error)));
            }
        }
        Ok(counts)
    }
}

// Puts a row of so many cells after those of the part at a place.
fn put_at<W: Write + Drop>(
    writers: &mut Vec<RowWriter<W>>,
    place: usize,
    count: usize,
    row: &ByteRecord,
) -> Result<(), csv::Error>
    requires { place < length writers.old.items }
    ensures { OnOk result (PutsRowAt W.contents place (fitted count (fields_of row.now))
        writers.old.items writers.new.items) }
{
    put_fitted(&mut writers[place], count, row)?;
    Ok(())
}

// Puts a row of so many cells: one that has fewer has empty ones after them, and of one that has more the others are left out.
fn put_fitted<W: Write + Drop>(
    writer: &mut RowWriter<W>,
    count: usize,
    row: &ByteRecord,
) -> Result<(), csv::Error>
    ensures { OnOk result (PutsRows W.contents writer.old writer.new
        (fitted count (fields_of row.now) ∷ [])) }
{
    if has_count(row, count) {
        writer.put_row(row)?;
        Ok(())
    } else {
        put_cells(writer, count, row)?;
        writer.end_row()?;
        Ok(())
    }
}

// Whether a row has so many cells.
fn has_count(row: &ByteRecord, count: usize) -> bool
    ensures { IsTrue result ↔ length (fields_of row.now) ≡ count }
{
    row.len() == count
}

// Puts so many cells of a row, of which those that it lacks are empty.
fn put_cells<W: Write + Drop>(
    writer: &mut RowWriter<W>,
    count: usize,
    row: &ByteRecord,
) -> Result<(), csv::Error>
    ensures { OnOk result (PutsCells W.contents writer.old writer.new (fitted count (fields_of row.now))) }
{
    for place in 0..count {
        writer.put_cell(cell_of(row, place))?;
    }
    Ok(())
}

// The cell of a row at a place, or an empty one after the last.
fn cell_of(row: &ByteRecord, place: usize) -> &[u8]
    ensures { result.now ≡ unwrap_or (field_at (fields_of row.now) place) [] }
{
    row.get(place).unwrap_or(b"")
}

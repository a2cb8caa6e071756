//! Tables read twice and written into the files of their parts.
ghost use Rattle.std.specs.Prelude.{◌<◌, [], IfOk, OnOk, length};
ghost use Rattle.keyed_cut.specs.Counted.{AreCounted, CountsEach, CountsRest};
ghost use Rattle.keyed_cut.specs.Partitioned.{PartitionsRest, key_cmp};

use crate::fault::{CutFault, CutReason};
use crate::listing::listing_text;
use crate::names::{draft_name, listing_name, part_name, stems_of};
use crate::request::{Cut, Divided};
use crate::sampling::{Sampled, key_size, sample_tables, weight_of};
use crate::sinks::{Count, Counts, Sinks, Target, make_sinks, put};
use crate::tables::{Table, Tables, open_tables};
use keyed_faults::{Reason, Shown, ShownInList};
use keyed_parts::Boundaries;
use keyed_rows::{Cells, Key};
use std::alloc::{AllocError, Global};
use std::fs::File;
use std::io::{ErrorKind, Read, Write};
use std::rt::Files;
use std::{fmt, fs, io};

/// What a cut came to: the parts that take more memory than is asked for.
#[derive(Drop)]
pub struct CutStatus {
    pub heavy: Vec<HeavyPart>,
}

/// A part that takes more memory than is asked for. Prints as what there is to say of it.
#[derive(Drop)]
pub struct HeavyPart {
    file: String,
    key: Option<Key>,
    has_others: bool,
    bytes: u64,
    asked: u64,
}

/// Cuts tables into the files of a folder, which is made, and last into `cut.csv` there: where it stands, the parts are whole. Returns the
/// parts that take more memory than is asked for.
///
/// # Errors
///
/// Returns the first fault of a table, of the folder or of a file in it. What was written is removed.
pub fn write_cut<'a, R: Files + AllocGlobal>(
    rt: &R,
    cut: Cut<'a>,
) -> Result<CutStatus, CutFault<'a>> {
    if fs::metadata(rt, cut.into).is_ok() {
        return Err(is_there(cut));
    }
    let sampled = sample_tables(rt, cut, open_tables(rt, cut)?)?;
    match fs::create_dir(rt, cut.into) {
        Ok(()) => {}
        Err(error) if error.kind() == ErrorKind::AlreadyExists => return Err(is_there(cut)),
        Err(error) => return Err(CutFault::Written {
            file: String::from_str(rt.alloc(), cut.into)?,
            reason: Reason::Io(error),
        }),
    }
    let outcome = write_parts(rt, cut, &sampled);
    if outcome.is_err() {
        remove_parts(rt, cut, sampled.bounds.count_parts());
    }
    outcome
}

fn is_there<'a>(cut: Cut<'a>) -> CutFault<'a> {
    CutFault::Asked {
        file: cut.into,
        reason: CutReason::IsThere,
    }
}

// Writes the parts of all tables, and then where they were cut.
fn write_parts<'a, R: Files + AllocGlobal>(
    rt: &R,
    cut: Cut<'a>,
    sampled: &Sampled,
) -> Result<CutStatus, CutFault<'a>> {
    let Tables { tables, key } = open_tables(rt, cut)?;
    let counts = cut_tables(rt, cut, sampled, tables)?;
    write_listing(rt, cut, &key, &sampled.bounds, &counts)?;
    Ok(CutStatus {
        heavy: heavy_parts(rt.alloc(), cut, &sampled.bounds, &counts)?,
    })
}

// Partitions the rows of all tables into the files of their parts, all by the same boundaries. Each table has as many as at its first
// reading.
fn cut_tables<'a, R: Files + AllocGlobal>(
    rt: &R,
    cut: Cut<'a>,
    sampled: &Sampled,
    tables: Vec<Table<'a, R::File>>,
) -> Result<Vec<Counts>, CutFault<'a>>
    ensures { IfOk result (λ counts. CountsEach R.File.remaining sampled.now.bounds.keys.items
        tables.entry.items counts.items) }
{
    let stems = stems_of(cut.tables);
    let mut counts = Vec::new(rt.alloc());
    for mut table in tables {
        let place = counts.len();
        let target = Target {
            into: cut.into,
            stem: stems.get(place).copied().unwrap_or("table"),
            form: cut.layout.form,
        };
        let found = cut_table(rt, target, &sampled.bounds, &mut table)?;
        if sampled.rows.get(place).copied() != Some(rows_of(&found)) {
            return Err(CutFault::Asked {
                file: table.file(),
                reason: CutReason::Changed,
            });
        }
        put(&mut counts, found)?;
    }
    Ok(counts)
}

// How many rows the parts of a table have.
fn rows_of(counts: &Counts) -> u64 {
    let mut rows = 0_u64;
    for count in &counts.parts {
        rows = rows.saturating_add(count.rows);
    }
    rows
}

// Partitions the rows of a table into the files of its parts.
fn cut_table<'a, R: Files + AllocGlobal>(
    rt: &R,
    target: Target<'a>,
    bounds: &Boundaries<Key>,
    table: &mut Table<'a, R::File>,
) -> Result<Counts, CutFault<'a>>
    ensures { IfOk result (λ counts. CountsRest R.File.remaining bounds.now.keys.items table.old counts) }
{
    let alloc = rt.alloc();
    let header = table.part_header(alloc)?;
    let mut sinks = make_sinks(rt, target, bounds, header, table.count_cells())?;
    partition_rows(alloc, target, bounds, table, &mut sinks)?;
    Ok(sinks.end(alloc, target)?)
}

// Puts the rows that a table has left after those of the parts of their keys. No input has more of them than a number counts.
fn partition_rows<'a, F: Read + Drop, W: Write + Drop>(
    alloc: Global,
    target: Target<'a>,
    bounds: &Boundaries<Key>,
    table: &mut Table<'a, F>,
    sinks: &mut Sinks<W>,
) -> Result<(), CutFault<'a>>
    requires many { length bounds.now.keys.items < length sinks.old.writers.items }
    requires counts { AreCounted key_cmp bounds.now.keys.items [] sinks.old.counts }
    ensures partitioned { OnOk result (PartitionsRest F.remaining W.contents bounds.now.keys.items
        table.old.places sinks.old.columns table.old.opened.source.value sinks.old.writers.items
        sinks.new.writers.items) }
    ensures counted { OnOk result (CountsRest F.remaining bounds.now.keys.items table.old sinks.new.counts) }
{
    for _ in 0..u64::MAX {
        match table.next_key()? {
            Some(key) => {
                let weight = weight_of(key_size(&key), table.row_size());
                sinks.put_row(alloc, target, bounds, &key, table.row(), weight)?;
            }
            None => return Ok(()),
        }
    }
    Err(CutFault::NoMemory)
}

// Writes where the tables were cut: first under another name, so that the file is whole where it stands.
fn write_listing<'a, R: Files + AllocGlobal>(
    rt: &R,
    cut: Cut<'a>,
    key: &Cells,
    bounds: &Boundaries<Key>,
    counts: &[Counts],
) -> Result<(), CutFault<'a>> {
    let alloc = rt.alloc();
    let (draft, name) = (draft_name(alloc, cut.into)?, listing_name(alloc, cut.into)?);
    let text = match listing_text(alloc, stems_of(cut.tables), key, bounds, counts) {
        Ok(text) => text,
        Err(reason) => return Err(CutFault::Written {
            file: draft,
            reason,
        }),
    };
    if let Err(error) = write_file(rt, &draft, &text) {
        return Err(CutFault::Written {
            file: draft,
            reason: Reason::Io(error),
        });
    }
    match fs::rename(rt, draft.as_str(), name.as_str()) {
        Ok(()) => Ok(()),
        Err(error) => Err(CutFault::Written {
            file: name,
            reason: Reason::Io(error),
        }),
    }
}

fn write_file<R: Files>(rt: &R, name: &str, text: &[u8]) -> io::Result<()> {
    let mut file = File::create_new(rt, name)?;
    file.write_all(text)?;
    file.flush()
}

// Removes what was written, as far as the system lets it.
fn remove_parts<R: Files + AllocGlobal>(rt: &R, cut: Cut<'_>, parts: usize) {
    let alloc = rt.alloc();
    for stem in stems_of(cut.tables) {
        for part in 0..parts {
            remove(rt, part_name(alloc, cut.into, stem, part));
        }
    }
    remove(rt, draft_name(alloc, cut.into));
    remove(rt, listing_name(alloc, cut.into));
    let _ = fs::remove_dir(rt, cut.into);
}

fn remove<R: Files>(rt: &R, name: Result<String, AllocError>) {
    if let Ok(name) = name {
        let _ = fs::remove_file(rt, name.as_str());
    }
}

// The parts that take more memory than is asked for, each by the file of its table that takes most.
fn heavy_parts(
    alloc: Global,
    cut: Cut<'_>,
    bounds: &Boundaries<Key>,
    counts: &[Counts],
) -> Result<Vec<HeavyPart>, AllocError> {
    let mut heavy = Vec::new(alloc);
    let Divided::Memory(asked) = cut.divided else {
        return Ok(heavy);
    };
    for part in 0..bounds.count_parts() {
        let whole = whole_of(counts, part);
        if whole.bytes <= asked {
            continue;
        }
        let stem = stems_of(cut.tables).get(whole.heaviest).copied();
        put(
            &mut heavy,
            HeavyPart {
                file: part_name(alloc, cut.into, stem.unwrap_or("table"), part)?,
                key: match bounds.keys().get(part.wrapping_sub(1)) {
                    Some(key) => Some(key.clone()?),
                    None => None,
                },
                has_others: whole.has_others,
                bytes: whole.bytes,
                asked,
            },
        )?;
    }
    Ok(heavy)
}

// What a part has of all tables.
#[derive(Clone, Copy)]
struct Whole {
    bytes: u64,
    has_others: bool,
    // The table that takes most, and how much.
    heaviest: usize,
    most: u64,
}

fn whole_of(counts: &[Counts], part: usize) -> Whole {
    let mut whole = Whole {
        bytes: 0,
        has_others: false,
        heaviest: 0,
        most: 0,
    };
    for (place, table) in counts.iter().enumerate() {
        if let Some(count) = table.parts.get(part) {
            whole = with_count(whole, place, count);
        }
    }
    whole
}

fn with_count(whole: Whole, place: usize, count: &Count) -> Whole {
    let is_heaviest = whole.most < count.bytes;
    Whole {
        bytes: whole.bytes.saturating_add(count.bytes),
        has_others: whole.has_others || count.has_others,
        heaviest: if is_heaviest { place } else { whole.heaviest },
        most: whole.most.max(count.bytes),
    }
}

impl fmt::Display for HeavyPart {
    fn fmt<W: fmt::Write>(&self, f: &mut fmt::Formatter<W>) -> fmt::Result {
        write!(f, "{}: the rows ", Shown(self.file.as_bytes()))?;
        match &self.key {
            Some(key) => {
                f.write_str(if self.has_others {
                    "from key "
                } else {
                    "of key "
                })?;
                for (place, cell) in key.iter().enumerate() {
                    if place > 0 {
                        f.write_char(',')?;
                    }
                    write!(f, "{}", ShownInList(cell))?;
                }
                if self.has_others {
                    f.write_str(" on")?;
                }
            }
            None => f.write_str("up to the first boundary")?,
        }
        let (bytes, asked) = (Amount(self.bytes), Amount(self.asked));
        write!(f, " take {bytes}, and {asked} are asked for")
    }
}

// A number of bytes as a person reads it.
#[derive(Clone, Copy)]
struct Amount(u64);

impl fmt::Display for Amount {
    fn fmt<W: fmt::Write>(&self, f: &mut fmt::Formatter<W>) -> fmt::Result {
        match self.0 {
            10_000_000.. => write!(f, "{} MB", self.0.div_ceil(1_000_000)),
            10_000.. => write!(f, "{} kB", self.0.div_ceil(1000)),
            bytes => write!(f, "{bytes} bytes"),
        }
    }
}

//! The first reading: how many rows each table has, what they weigh, and the boundaries between the parts.

use crate::fault::{CutFault, CutReason};
use crate::listing::read_listing;
use crate::request::{Cut, Divided, LEAST_PARTS, MOST_PARTS};
use crate::tables::{Table, Tables};
use keyed_parts::{Boundaries, Sample};
use keyed_rows::{Cells, Key};
use std::alloc::{AllocError, Global};
use std::io::Read;
use std::rt::Files;

// How many keys are kept of each part, of which the parts are to be about as heavy: with 400 the heaviest of 256 parts is seldom a fourth
// heavier than the mean.
const KEYS_OF_PART: usize = 400;

// How many are kept at least and at most, and how many bytes they may take.
const LEAST_KEYS: usize = 1000;

const MOST_KEYS: usize = 200_000;

const MOST_BYTES: u64 = 16_000_000;

// What a row takes in memory beside its cells, in the commands and here.
const ROW: u64 = 240;

const SAMPLED: u64 = 88;

/// How many bytes of memory a command takes for a row, about: what its key takes once, and what its other cells take twice. All its cells
/// take so many bytes, of which the key has its own.
pub fn weight_of(key: u64, all: u64) -> u64 {
    let others = all.saturating_sub(key);
    ROW.saturating_add(key)
        .saturating_add(others.saturating_mul(2))
}

/// How many bytes the cells of a key take, each with one more.
pub fn key_size(key: &Key) -> u64 {
    let mut size = 0_u64;
    for cell in key.iter() {
        size = size.saturating_add(cell.len() as u64).saturating_add(1);
    }
    size
}

/// What the first reading found: how many rows each table has, and the boundaries.
#[derive(Drop)]
pub struct Sampled {
    pub rows: Vec<u64>,
    pub bounds: Boundaries<Key>,
}

// What the first reading keeps.
#[derive(Drop)]
struct Reading {
    sample: Sample<Key>,
    rows: Vec<u64>,
    weight: u64,
}

/// Reads all tables, so that a fault of a row leaves nothing after, and finds where they are cut.
///
/// # Errors
///
/// Returns the first fault of a table or of an earlier cut, and `PartCount` where there would be too many parts.
pub fn sample_tables<'a, R: Files + AllocGlobal>(
    rt: &R,
    cut: Cut<'a>,
    tables: Tables<'a, R::File>,
) -> Result<Sampled, CutFault<'a>> {
    let alloc = rt.alloc();
    let Tables { tables, key } = tables;
    let earlier = match cut.divided {
        Divided::At(file) => Some(read_listing(rt, file, &key)?),
        Divided::Parts(_) | Divided::Memory(_) => None,
    };
    let mut reading = Reading {
        sample: Sample::new(alloc, room_of(cut.divided), MOST_BYTES),
        rows: Vec::new(alloc),
        weight: 0,
    };
    for mut table in tables {
        let rows = read_table(&mut reading, &mut table)?;
        put(&mut reading.rows, rows)?;
    }
    let Reading {
        sample,
        rows,
        weight,
    } = reading;
    let bounds = match earlier {
        Some(bounds) => bounds,
        None => bounds_of(alloc, sample, parts_of(cut, weight)?)?,
    };
    Ok(Sampled { rows, bounds })
}

// The boundaries of so many parts.
fn bounds_of(
    alloc: Global,
    sample: Sample<Key>,
    parts: usize,
) -> Result<Boundaries<Key>, AllocError> {
    match sample.into_boundaries(parts)? {
        Some(bounds) => Ok(bounds),
        None => no_boundaries(alloc, parts),
    }
}

fn put<T: Drop>(items: &mut Vec<T>, item: T) -> Result<(), AllocError> {
    items.push(item)?;
    Ok(())
}

// How many keys the sample keeps.
fn room_of(divided: Divided<'_>) -> usize {
    match divided {
        Divided::Parts(parts) => parts
            .saturating_mul(KEYS_OF_PART)
            .max(LEAST_KEYS)
            .min(MOST_KEYS),
        Divided::Memory(_) => MOST_KEYS,
        Divided::At(_) => 1,
    }
}

// Reads a table to its end, and returns how many rows it has.
fn read_table<'a, F: Read + Drop>(
    reading: &mut Reading,
    table: &mut Table<'a, F>,
) -> Result<u64, CutFault<'a>> {
    let mut rows = 0_u64;
    for _ in 0..u64::MAX {
        match table.next_key()? {
            Some(key) => {
                let size = key_size(&key);
                let weight = weight_of(size, table.row_size());
                reading.weight = reading.weight.saturating_add(weight);
                reading
                    .sample
                    .take(key, weight, SAMPLED.saturating_add(size))?;
                rows = rows.saturating_add(1);
            }
            None => break,
        }
    }
    Ok(rows)
}

// How many parts there are: as many as are asked for, or so many that a part which is a fourth heavier than the mean takes no more memory
// than may be.
fn parts_of<'a>(cut: Cut<'a>, weight: u64) -> Result<usize, CutFault<'a>> {
    let parts = match cut.divided {
        Divided::Parts(parts) => parts as u64,
        Divided::Memory(most) => {
            let quarters = weight.saturating_mul(5) / 4;
            (quarters / most.max(1)).saturating_add(1)
        }
        Divided::At(_) => 1,
    };
    if parts < (LEAST_PARTS as u64) || (MOST_PARTS as u64) < parts {
        return Err(CutFault::Asked {
            file: cut.into,
            reason: CutReason::PartCount(parts),
        });
    }
    Ok(parts as usize)
}

// Boundaries of tables with no row, so that there are as many parts.
fn no_boundaries(alloc: Global, parts: usize) -> Result<Boundaries<Key>, AllocError> {
    let mut keys = Vec::new(alloc);
    for _ in 1..parts {
        keys.push(Key::new(Cells::new(alloc)))?;
    }
    Ok(Boundaries::new(keys))
}

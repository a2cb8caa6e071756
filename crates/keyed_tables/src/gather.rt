//! From the rows of a file to a table.
ghost use Rattle.std.specs.Prelude.{◌≡◌, All, IfErr, IfOk, OnOk, ◌∷◌, drop, find, length, map, option_map};
ghost use Rattle.std.specs.Prelude.{zip};
ghost use Rattle.std.specs.Ordering.{is_eq, on, then_cmp};
ghost use Rattle.eob_joins.specs.Groups.{key_runs, run_rest, run_values};
ghost use Rattle.keyed_tables.specs.Gathered.{AloneLaw, AreInOrder, HoldsRows, alone};
ghost use Rattle.keyed_tables.specs.Repeated.{IfRepeated, IsFirstRepeat};

use crate::table::Rows;
use keyed_rows::{Cells, Group, Key, ReadRow, Release, RepeatedKey, UniqueError};
use std::alloc::{AllocError, Global};
use std::cmp::Ordering;
use std::collections::VecDeque;

/// The rows by key, of which no two have the same: each row once, under its key, as a group of one whose memory is given back as said.
///
/// # Errors
///
/// Returns `RepeatedKey` if a key stands twice: the least that does, with the lines of its first two rows. Returns `NoMemory` if a request
/// for memory was refused.
pub fn unique_rows(
    alloc: Global,
    mut rows: Vec<ReadRow>,
    release: Release,
) -> Result<Rows<Key, Group>, UniqueError>
    ensures rows { IfOk result (λ table. HoldsRows ⟦<Key as Ord>⟧.cmp
        (map (λ row. (row.key, row.cells)) rows.items) table.pairs.items) }
    ensures unique { IfOk result (λ table.
        All (λ group. length group.1 ≡ 1) table.pairs.items) }
    ensures repeated { IfErr result (IfRepeated (IsFirstRepeat ⟦<Key as Ord>⟧.cmp (λ row. row.key)
        (λ row. row.line) rows.items)) }
{
    rows.sort_by(|row, next| row.key.cmp(&next.key))?;
    if let Some((row, next)) = first_repeat(&rows) {
        return Err(UniqueError::RepeatedKey(RepeatedKey {
            key: row.key.clone()?,
            first: row.line,
            second: next.line,
        }));
    }
    let pairs = part_rows(alloc, rows, release)?;
    law_alone::<Key, Cells>();
    Ok(Rows { pairs })
}

/// The rows by key, where keys may repeat: each row once, under its key, and those under the same key in the order of their cells. The
/// memory of a row whose key has no other is given back as said.
///
/// # Errors
///
/// Returns `AllocError` if a request for memory was refused.
pub fn grouped_rows(
    alloc: Global,
    mut rows: Vec<ReadRow>,
    release: Release,
) -> Result<Rows<Key, Group>, AllocError>
    ensures rows { IfOk result (λ table. HoldsRows ⟦<Key as Ord>⟧.cmp
        (map (λ row. (row.key, row.cells)) rows.items) table.pairs.items) }
    ensures order { IfOk result (λ table. AreInOrder ⟦<Cells as Ord>⟧.cmp table.pairs.items) }
{
    rows.sort_by(|row, next| order_of(row, next))?;
    let pairs = group_rows(alloc, rows, release)?;
    Ok(Rows { pairs })
}

// The order of the keys of two rows, and of their cells where their keys are equal.
fn order_of(row: &ReadRow, next: &ReadRow) -> Ordering
    ensures { result ≡ then_cmp (on (λ row. row.key) ⟦<Key as Ord>⟧.cmp)
        (on (λ row. row.cells) ⟦<Cells as Ord>⟧.cmp) row.now next.now }
{
    match row.key.cmp(&next.key) {
        Ordering::Equal => row.cells.cmp(&next.cells),
        order => order,
    }
}

// The first two neighbours with the same key.
fn first_repeat(rows: &[ReadRow]) -> Option<(&ReadRow, &ReadRow)>
    ensures { option_map (λ pair. (pair.0.now, pair.1.now)) result
        ≡ find (λ pair. is_eq (⟦<Key as Ord>⟧.cmp pair.0.key pair.1.key)) (zip rows.now (drop 1 rows.now)) }
{
    rows.iter()
        .zip(rows.iter().skip(1))
        .find(|(row, next)| row.key.cmp(&next.key).is_eq())
}

// Each row as a group of its own.
fn part_rows(
    alloc: Global,
    rows: Vec<ReadRow>,
    release: Release,
) -> Result<Vec<(Key, Group)>, AllocError>
    ensures { IfOk result (λ pairs. pairs.items ≡ map (λ row. alone (row.key, row.cells)) rows.items) }
{
    let mut pairs = Vec::with_capacity(alloc, rows.len())?;
    for row in rows {
        pairs.push((row.key, Group::with_release(row.cells, release)))?;
    }
    Ok(pairs)
}

// The rows of neighbours with the same key as groups.
fn group_rows(
    alloc: Global,
    rows: Vec<ReadRow>,
    release: Release,
) -> Result<Vec<(Key, Group)>, AllocError>
    ensures { IfOk result (λ groups. groups.items
        ≡ key_runs ⟦<Key as Ord>⟧.cmp (map (λ row. (row.key, row.cells)) rows.items)) }
{
    let mut groups = Vec::new(alloc);
    // As a queue the rows take no more memory, and leave it one by one.
    let mut rows = VecDeque::from_vec(rows);
    'groups: loop {
        match rows.pop_front() {
            Some(row) => {
                let ReadRow {
                    key,
                    line: _,
                    cells,
                } = row;
                let group = take_group(alloc, &key, cells, &mut rows, release)?;
                groups.push((key, group))?;
            }
            None => return Ok(groups),
        }
    }
}

// The cells of a row, and those of the rows with the same key that come next, which leave the queue.
fn take_group(
    alloc: Global,
    key: &Key,
    first: Cells,
    rows: &mut VecDeque<ReadRow>,
    release: Release,
) -> Result<Group, AllocError>
    ensures values { IfOk result (λ group. group
        ≡ first ∷ run_values ⟦<Key as Ord>⟧.cmp key.now (map (λ row. (row.key, row.cells)) rows.old.items)) }
    ensures rest { OnOk result (map (λ row. (row.key, row.cells)) rows.new.items
        ≡ run_rest ⟦<Key as Ord>⟧.cmp key.now (map (λ row. (row.key, row.cells)) rows.old.items)) }
{
    let mut group = Group::with_release(first, release);
    'group: loop {
        match rows.front() {
            Some(next) => {
                if !key.cmp(&next.key).is_eq() {
                    return Ok(group);
                }
            }
            None => return Ok(group),
        }
        match rows.pop_front() {
            Some(row) => group = group.with_row(alloc, row.cells)?,
            None => unreachable!(),
        }
    }
}

// Rows whose keys strictly increase, each as a group of its own, are their groups by key.
fn law_alone<K: Ord, V>()
    ensures { AloneLaw K.cmp V }
{}

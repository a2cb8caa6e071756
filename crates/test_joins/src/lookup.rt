//! Tests of a list whose keys repeat, joined with a map: each item of the list in its order, with what a rule puts under its key; and the
//! parts of a slice.

use either_or_both::EitherOrBoth;
use either_or_both::join::outer_join_lazily;
use eob_joins::{Lookup, LookupRow, groups_of, is_ordered, lookup_join, lookup_join_lazily};
use indexmap::IndexMap;
use std::alloc::{AllocError, Global};
use std::cell::Cell;
use std::collections::{BTreeMap, HashMap};
use std::test::Fail;

// How many items the lists have.
const SIZES: [u32; 4] = [0, 1, 400, 70_000];

// The keys are below this.
const KEYS: u32 = 1009;

// The key of an item, by its number.
fn key_of(number: u32) -> u32 {
    number.wrapping_mul(35) % KEYS
}

// What the maps have under a key.
fn under(key: u32) -> Option<u32> {
    if key % 3 == 0 { Some(key / 3) } else { None }
}

// So many items, with their numbers as values.
fn items(alloc: Global, count: u32) -> Result<Vec<(u32, u32)>, AllocError> {
    let mut items = Vec::new(alloc);
    for number in 0..count {
        items.push((key_of(number), number))?;
    }
    Ok(items)
}

// The entries of the maps.
fn entries(alloc: Global) -> Result<Vec<(u32, u32)>, AllocError> {
    let mut entries = Vec::new(alloc);
    for key in 0..KEYS {
        if let Some(value) = under(key) {
            entries.push((key, value))?;
        }
    }
    Ok(entries)
}

fn ordered(alloc: Global) -> Result<BTreeMap<u32, u32>, AllocError> {
    entries(alloc)?.into_iter().collect(alloc)
}

fn hashed(alloc: Global) -> Result<HashMap<u32, u32>, AllocError> {
    entries(alloc)?.into_iter().collect(alloc)
}

fn inserted(alloc: Global) -> Result<IndexMap<u32, u32>, AllocError> {
    entries(alloc)?.into_iter().collect(alloc)
}

// Whether the rows are so many, each with its item, and what the rule puts under its key.
fn are_rows(rows: &[LookupRow<u32, u32, u32>], count: u32) -> bool {
    rows.len() == count as usize
        && rows
            .iter()
            .zip(0..count)
            .all(|(row, number)| is_row(row, number))
}

// Whether the row is the one of this number.
fn is_row(row: &LookupRow<u32, u32, u32>, number: u32) -> bool {
    row.0 == key_of(number) && row.1 == number && row.2.copied() == under(row.0)
}

// Whether a list of each size has its rows beside a map.
fn has_rows<R: Lookup<u32, Value = u32>>(alloc: Global, map: &R) -> Result<bool, AllocError> {
    for count in SIZES {
        if !are_rows(&lookup_join(alloc, items(alloc, count)?, map)?, count) {
            return Ok(false);
        }
    }
    Ok(true)
}

/// Lists of some sizes, joined with an ordered map.
#[test]
fn each_item_has_what_an_ordered_map_has(rt: HostRuntime) -> Result<(), Fail> {
    assert!(rt; has_rows(rt.alloc(), &ordered(rt.alloc())?)?);
    Ok(())
}

/// The same with a hashed map.
#[test]
fn each_item_has_what_a_hashed_map_has(rt: HostRuntime) -> Result<(), Fail> {
    assert!(rt; has_rows(rt.alloc(), &hashed(rt.alloc())?)?);
    Ok(())
}

/// The same with a map in the order of insertion.
#[test]
fn each_item_has_what_an_index_map_has(rt: HostRuntime) -> Result<(), Fail> {
    assert!(rt; has_rows(rt.alloc(), &inserted(rt.alloc())?)?);
    Ok(())
}

// Whether so many rows come one by one: the source is asked for an item where a row is, and for no other, and the hint is its own.
fn come_one_by_one(
    alloc: Global,
    map: &BTreeMap<u32, u32>,
    count: u32,
) -> Result<bool, AllocError> {
    let asked = Cell::new(0u32);
    let source = items(alloc, count)?.into_iter().inspect(|_item| {
        asked.set(asked.get().saturating_add(1));
    });
    let mut rows = lookup_join_lazily(source, map);
    for number in 0..count {
        let left = (count - number) as usize;
        if rows.size_hint() != (left, Some(left)) || asked.get() != number {
            return Ok(false);
        }
        match rows.next() {
            Some(row) if is_row(&row, number) => {}
            _ => return Ok(false),
        }
    }
    Ok(rows.next().is_none() && asked.get() == count)
}

/// A join that is iterated takes an item of its source for each row, and has the hint of its source.
#[test]
fn rows_come_one_by_one(rt: HostRuntime) -> Result<(), Fail> {
    let alloc = rt.alloc();
    let map = ordered(alloc)?;
    for count in SIZES {
        assert!(rt; come_one_by_one(alloc, &map, count)?, "{count} items");
    }
    Ok(())
}

/// A slice whose keys repeat beside an ordered map that has each key once.
#[test]
fn slice_with_repeated_keys_is_joined_to_a_map(rt: HostRuntime) -> Result<(), Fail> {
    let alloc = rt.alloc();
    let orders = [(1, 'a'), (1, 'b'), (4, 'c')];
    let customers: BTreeMap<u32, &str> = [(1, "one"), (2, "two")].into_iter().collect(alloc)?;
    assert!(rt; is_ordered(&orders));
    let mut rows = outer_join_lazily(&customers, groups_of(&orders));
    for row in [
        (&1, EitherOrBoth::Both(&"one", &orders[..2])),
        (&2, EitherOrBoth::Left(&"two")),
        (&4, EitherOrBoth::Right(&orders[2..])),
    ] {
        assert!(rt; rows.next() == Some(row));
    }
    assert!(rt; rows.next().is_none());
    Ok(())
}

//! Tests: how often keys are compared and hashed, as the comments of the joins say it.
//!
//! No clause counts calls: a join that compares each two keys twice has the same rows.

use either_or_both::join::{is_rising, outer_join, outer_join_lazily};
use eob_joins::{
    anti_join, diff, group_by_key, inner_join, is_ordered, left_join, outer_join_hash_maps,
    outer_join_index_maps, right_join, semi_join,
};
use indexmap::IndexMap;
use std::alloc::{AllocError, Global};
use std::collections::HashMap;
use std::process::Abort;
use std::test::Fail;
use testkit::counts::{Count, Key};

// The keys are below this.
const KEYS: u32 = 400;

// How many keys below 400 are even or multiples of three: 200 and 134, less the 67 multiples of six.
const JOINED: u32 = 267;

// The multiples of a step among the keys.
fn multiples<'a>(
    alloc: Global,
    step: u32,
    count: &'a Count,
) -> Result<Vec<(Key<'a>, u32)>, AllocError> {
    let mut table = Vec::new(alloc);
    for number in 0..KEYS {
        if number.checked_rem(step) == Some(0) {
            table.push((Key { number, count }, number))?;
        }
    }
    Ok(table)
}

// How many comparisons the call makes for the even keys and the multiples of three.
fn comparisons(rt: &impl Abort, alloc: Global, call: &str) -> Result<u32, Fail> {
    let count = Count::new();
    let left = multiples(alloc, 2, &count)?;
    let right = multiples(alloc, 3, &count)?;
    assert!(rt; is_rising(&left) && is_rising(&right));
    count.clear();
    let ended = match call {
        "outer_join" => outer_join(alloc, left, right).map(drop),
        "inner_join" => inner_join(alloc, left, right).map(drop),
        "left_join" => left_join(alloc, left, right).map(drop),
        "right_join" => right_join(alloc, left, right).map(drop),
        "semi_join" => semi_join(alloc, left, right).map(drop),
        "anti_join" => anti_join(alloc, left, right).map(drop),
        _ => diff(alloc, left, right).map(drop),
    };
    ended?;
    Ok(count.get())
}

/// A join compares keys once at most for each key that it meets.
#[test]
fn joins_compare_once_for_each_key(rt: HostRuntime) -> Result<(), Fail> {
    let alloc = rt.alloc();
    for call in [
        "outer_join",
        "inner_join",
        "left_join",
        "right_join",
        "semi_join",
        "anti_join",
        "diff",
    ] {
        let made = comparisons(&rt, alloc, call)?;
        assert!(rt; 0 < made && made <= JOINED);
    }
    Ok(())
}

/// So does a join that is walked.
#[test]
fn walked_join_compares_once_for_each_key(rt: HostRuntime) -> Result<(), Fail> {
    let alloc = rt.alloc();
    let count = Count::new();
    let left = multiples(alloc, 2, &count)?;
    let right = multiples(alloc, 3, &count)?;
    assert!(rt; is_rising(&left) && is_rising(&right));
    count.clear();
    for _row in outer_join_lazily(left, right) {}
    assert!(rt; 0 < count.get() && count.get() <= JOINED);
    Ok(())
}

// Each number below 100 four times, in order.
fn repeated<'a>(alloc: Global, count: &'a Count) -> Result<Vec<(Key<'a>, u32)>, AllocError> {
    let mut table = multiples(alloc, 1, count)?;
    for pair in &mut table {
        pair.0.number /= 4;
    }
    Ok(table)
}

/// The tests of a table's order compare each pair once.
#[test]
fn tests_of_order_compare_once_for_each_pair(rt: HostRuntime) -> Result<(), Fail> {
    let alloc = rt.alloc();
    let count = Count::new();
    assert!(rt; is_rising(&multiples(alloc, 1, &count)?));
    assert_eq!(rt; count.get(), KEYS - 1);
    count.clear();
    assert!(rt; is_ordered(&repeated(alloc, &count)?));
    assert_eq!(rt; count.get(), KEYS - 1);
    Ok(())
}

/// The groups of a table compare each pair once at most.
#[test]
fn groups_compare_once_for_each_pair(rt: HostRuntime) -> Result<(), Fail> {
    let alloc = rt.alloc();
    let count = Count::new();
    let table = repeated(alloc, &count)?;
    assert!(rt; is_ordered(&table));
    count.clear();
    assert_eq!(rt; group_by_key(alloc, table)?.len(), 100);
    assert!(rt; 0 < count.get() && count.get() <= KEYS);
    Ok(())
}

// The same as maps.
fn index_map<'a>(
    alloc: Global,
    step: u32,
    count: &'a Count,
) -> Result<IndexMap<Key<'a>, u32>, AllocError> {
    multiples(alloc, step, count)?.into_iter().collect(alloc)
}

fn hash_map<'a>(
    alloc: Global,
    step: u32,
    count: &'a Count,
) -> Result<HashMap<Key<'a>, u32>, AllocError> {
    multiples(alloc, step, count)?.into_iter().collect(alloc)
}

/// A join of maps hashes each key of the left map once, and each of the right map once or, where the left map lacks it, twice.
#[test]
fn joins_of_maps_hash_keys_once_or_twice(rt: HostRuntime) -> Result<(), Fail> {
    let alloc = rt.alloc();
    let count = Count::new();
    let left = index_map(alloc, 2, &count)?;
    let right = index_map(alloc, 3, &count)?;
    count.clear();
    drop(outer_join_index_maps(alloc, left, right)?);
    assert_eq!(rt; count.get(), 200 + 67 + 2 * 67);
    Ok(())
}

/// The same of hashed maps.
#[test]
fn joins_of_hash_maps_hash_keys_once_or_twice(rt: HostRuntime) -> Result<(), Fail> {
    let alloc = rt.alloc();
    let count = Count::new();
    let left = hash_map(alloc, 2, &count)?;
    let right = hash_map(alloc, 3, &count)?;
    count.clear();
    drop(outer_join_hash_maps(alloc, left, right)?);
    assert_eq!(rt; count.get(), 200 + 67 + 2 * 67);
    Ok(())
}

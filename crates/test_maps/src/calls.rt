//! Each call at small and large sizes, and with each request for memory refused in turn: it gives all rows, or the error.

use eob_maps::{
    MergedMap, apply_map, diff_maps, full_join_maps, inner_join_maps, into_map, into_rows,
    left_join_maps, merge_maps, overlay_maps,
};
use eob_sums::{counts_by_key, total_join, totals_by_key};
use std::alloc::{AllocError, Global};
use std::collections::BTreeMap;
use std::test::Fail;
use testkit::memory::{RUNS, Refusing};

type Memory = Refusing<Global>;

// Each call, and of 12 keys how many rows it gives of the even ones and of the multiples of three.
const CALLS: [(&str, usize); 9] = [
    ("into_rows", 6),
    ("into_map", 6),
    ("inner_join_maps", 2),
    ("left_join_maps", 6),
    ("full_join_maps", 8),
    ("overlay_maps", 8),
    ("diff_maps", 7),
    ("apply_map", 4),
    ("merge_maps", 4),
];

// The multiples of a number below a size. A multiple of 12 has the value 1, and another the number.
fn multiples<'a>(
    memory: &'a Memory,
    step: u32,
    size: u32,
) -> Result<BTreeMap<u32, u32, &'a Memory>, AllocError> {
    let mut map = BTreeMap::new(memory);
    for key in 0..size {
        if step != 0 && key % step == 0 {
            map.insert(key, if key % 12 == 0 { 1 } else { step })?;
        }
    }
    Ok(map)
}

// How many rows a call gives of the even keys and of the multiples of three, where the request of a number is refused; of 0 none is.
fn rows_of(memory: &Memory, call: &str, size: u32, number: u64) -> Result<usize, AllocError> {
    let left = multiples(memory, 2, size)?;
    let right = multiples(memory, 3, size)?;
    match call {
        "apply_map" => applied(memory, left, right, size, number),
        "merge_maps" => merged(memory, left, right, size, number),
        _ => {
            memory.refuse(number);
            joined(memory, call, left, right)
        }
    }
}

// The same of a call on two maps.
fn joined<'a>(
    memory: &'a Memory,
    call: &str,
    left: BTreeMap<u32, u32, &'a Memory>,
    right: BTreeMap<u32, u32, &'a Memory>,
) -> Result<usize, AllocError> {
    match call {
        "into_rows" => Ok(into_rows(memory, left)?.len()),
        "into_map" => {
            let rows = into_rows(memory, left)?;
            Ok(into_map(memory, rows)?.len())
        }
        "inner_join_maps" => Ok(inner_join_maps(memory, left, right)?.len()),
        "left_join_maps" => Ok(left_join_maps(memory, left, right)?.len()),
        "full_join_maps" => Ok(full_join_maps(memory, left, right)?.len()),
        "overlay_maps" => Ok(overlay_maps(memory, left, right)?.len()),
        _ => Ok(diff_maps(memory, left, right)?.len()),
    }
}

// The changes from the left map to the right one, made to a map that has what the left one has.
fn applied<'a>(
    memory: &'a Memory,
    left: BTreeMap<u32, u32, &'a Memory>,
    right: BTreeMap<u32, u32, &'a Memory>,
    size: u32,
    number: u64,
) -> Result<usize, AllocError> {
    let copy = multiples(memory, 2, size)?;
    let changes = diff_maps(memory, left, right)?;
    memory.refuse(number);
    Ok(apply_map(memory, copy, changes)?.len())
}

// The left map as base and as ours, and the right one as theirs.
fn merged<'a>(
    memory: &'a Memory,
    base: BTreeMap<u32, u32, &'a Memory>,
    theirs: BTreeMap<u32, u32, &'a Memory>,
    size: u32,
    number: u64,
) -> Result<usize, AllocError> {
    let ours = multiples(memory, 2, size)?;
    memory.refuse(number);
    match merge_maps(memory, base, ours, theirs)? {
        MergedMap::Whole(map) => Ok(map.len()),
        MergedMap::Conflicts(_rows) => Ok(0),
    }
}

/// Each call on maps gives all rows, of few keys and of many.
#[test]
fn maps_have_all_rows_at_any_size(rt: HostRuntime) -> Result<(), Fail> {
    let memory = Refusing::new(rt.alloc());
    for (call, of_twelve) in CALLS {
        for (size, times) in [(0, 0), (12, 1), (1200, 100)] {
            assert_eq!(rt; rows_of(&memory, call, size, 0)?, of_twelve * times);
        }
    }
    Ok(())
}

/// Each call on maps ends with the error where a request is refused, and the run that meets no refusal has all rows.
#[test]
fn maps_end_where_memory_is_refused(rt: HostRuntime) -> Result<(), Fail> {
    let memory = Refusing::new(rt.alloc());
    for (call, of_twelve) in CALLS {
        let mut refused = 0;
        for number in 1..RUNS {
            memory.refuse(0);
            match memory.judge(rows_of(&memory, call, 60, number))? {
                Some(rows) => {
                    assert_eq!(rt; rows, of_twelve * 5);
                    break;
                }
                None => refused = number,
            }
        }
        assert!(rt; refused > 0 && refused < RUNS - 1);
    }
    Ok(())
}

// So many pairs of keys below 7, each with a number.
fn pairs<'a>(memory: &'a Memory, count: u32) -> Result<Vec<(u32, u64), &'a Memory>, AllocError> {
    let mut pairs = Vec::new(memory);
    for place in 0..count {
        pairs.push((place % 7, u64::from(place)))?;
    }
    Ok(pairs)
}

// How many keys a call finds.
fn keys_of(memory: &Memory, call: &str, count: u32, number: u64) -> Result<usize, AllocError> {
    let left = pairs(memory, count)?;
    let right = pairs(memory, count)?;
    memory.refuse(number);
    match call {
        "counts_by_key" => Ok(counts_by_key(memory, left)?.len()),
        "totals_by_key" => Ok(totals_by_key(memory, left)?.len()),
        _ => Ok(total_join(memory, left, right)?.len()),
    }
}

/// Counts and sums by key take in all pairs, and end with the error where a request is refused.
#[test]
fn sums_take_all_pairs_or_end(rt: HostRuntime) -> Result<(), Fail> {
    let memory = Refusing::new(rt.alloc());
    for call in ["counts_by_key", "totals_by_key", "total_join"] {
        for (count, keys) in [(0, 0), (5, 5), (3000, 7)] {
            assert_eq!(rt; keys_of(&memory, call, count, 0)?, keys);
        }
        memory.refuse(0);
        assert!(rt; memory.judge(keys_of(&memory, call, 70, 1))?.is_none());
    }
    Ok(())
}

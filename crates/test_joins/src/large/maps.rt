//! Maps of 70,000 entries joined, laid one over another, merged, and looked up in.

use super::{KEYS, Side, conflicts, joined, places, table, value};
use either_or_both::EitherOrBoth;
use eob_joins::{
    Layered, Merged, lookup_join, merge_version_maps, outer_join_hash_maps, outer_join_index_maps,
    overlay_index_maps, overlay_maps,
};
use indexmap::IndexMap;
use std::alloc::{AllocError, Global};
use std::collections::{BTreeMap, HashMap};
use std::test::Fail;

// A table as a map in the order of its keys.
fn index_map(alloc: Global, side: Side) -> Result<IndexMap<u32, u32>, AllocError> {
    let mut map = IndexMap::new(alloc);
    for key in 0..KEYS {
        if let Some(value) = value(side, key) {
            map.insert(key, value)?;
        }
    }
    Ok(map)
}

// A table as a hashed map.
fn hash_map(alloc: Global, side: Side) -> Result<HashMap<u32, u32>, AllocError> {
    let mut map = HashMap::new(alloc);
    for key in 0..KEYS {
        if let Some(value) = value(side, key) {
            map.insert(key, value)?;
        }
    }
    Ok(map)
}

// A table as an ordered map.
fn ordered_map(alloc: Global, side: Side) -> Result<BTreeMap<u32, u32>, AllocError> {
    let mut map = BTreeMap::new(alloc);
    for key in 0..KEYS {
        if let Some(value) = value(side, key) {
            map.insert(key, value)?;
        }
    }
    Ok(map)
}

type Rows = IndexMap<u32, EitherOrBoth<u32, u32>>;

// The join of the two maps in the order of their keys.
fn joined_in_order(alloc: Global) -> Result<Rows, AllocError> {
    let left = index_map(alloc, Side::Evens)?;
    let right = index_map(alloc, Side::Threes)?;
    outer_join_index_maps(alloc, left, right)
}

/// A join of maps has each key of either map, those of the left map first.
#[test]
fn joins_of_index_maps_have_every_row(rt: HostRuntime) -> Result<(), Fail> {
    let alloc = rt.alloc();
    let rows = joined_in_order(alloc)?;
    let want = joined(alloc)?;
    let mut walk = rows.iter();
    for has_left in [true, false] {
        for (key, row) in want.iter().filter(|row| row.1.has_left() == has_left) {
            assert!(rt; walk.next() == Some((key, row)));
        }
    }
    assert!(rt; walk.next().is_none());
    Ok(())
}

// The join of the two hashed maps.
fn joined_hashed(alloc: Global) -> Result<Rows, AllocError> {
    let left = hash_map(alloc, Side::Evens)?;
    let right = hash_map(alloc, Side::Threes)?;
    outer_join_hash_maps(alloc, left, right)
}

/// So has a join of hashed maps.
#[test]
fn joins_of_hash_maps_have_every_row(rt: HostRuntime) -> Result<(), Fail> {
    let alloc = rt.alloc();
    let rows = joined_hashed(alloc)?;
    let want = joined(alloc)?;
    for (key, row) in &want {
        assert!(rt; rows.get(key) == Some(row));
    }
    assert_eq!(rt; rows.len(), want.len());
    Ok(())
}

// The multiples of three laid over the even numbers.
fn overlaid(alloc: Global) -> Result<IndexMap<u32, u32>, AllocError> {
    let base = index_map(alloc, Side::Evens)?;
    let over = index_map(alloc, Side::Threes)?;
    overlay_index_maps(alloc, base, over)
}

/// A map laid over another has each key of either, those of the lower map first, with the upper value where there is one.
#[test]
fn overlay_has_every_key(rt: HostRuntime) -> Result<(), Fail> {
    let settings = overlaid(rt.alloc())?;
    let mut walk = settings.iter();
    for in_base in [true, false] {
        for key in 0..KEYS {
            let base = value(Side::Evens, key);
            if let Some(want) = value(Side::Threes, key).or(base) {
                if base.is_some() == in_base {
                    assert!(rt; walk.next() == Some((&key, &want)));
                }
            }
        }
    }
    assert!(rt; walk.next().is_none());
    Ok(())
}

// The keys of a hashed map as it iterates.
fn keys(alloc: Global, map: &HashMap<u32, u32>) -> Result<Vec<u32>, AllocError> {
    let mut keys = Vec::new(alloc);
    for (key, _value) in map {
        keys.push(*key)?;
    }
    Ok(keys)
}

/// A join of hashed maps has the left map's keys as that iterates, then those that it lacks as the right map does.
#[test]
fn rows_of_hashed_maps_come_as_they_iterate(rt: HostRuntime) -> Result<(), Fail> {
    let alloc = rt.alloc();
    let left = hash_map(alloc, Side::Evens)?;
    let right = hash_map(alloc, Side::Threes)?;
    let mut want = keys(alloc, &left)?;
    for key in keys(alloc, &right)? {
        if value(Side::Evens, key).is_none() {
            want.push(key)?;
        }
    }
    let rows = outer_join_hash_maps(alloc, left, right)?;
    assert!(rt; rows.keys().eq(&want));
    Ok(())
}

// Whether each of the even numbers stands, in order, beside what the multiples of three have under it.
fn finds_each(
    alloc: Global,
    evens: Vec<(u32, u32)>,
    threes: &BTreeMap<u32, u32>,
) -> Result<bool, AllocError> {
    let mut found = lookup_join(alloc, evens, threes)?.into_iter();
    for key in 0..KEYS {
        let (even, three) = places(key);
        if let Some(value) = even {
            if found.next() != Some((key, value, three.as_ref())) {
                return Ok(false);
            }
        }
    }
    Ok(found.next().is_none())
}

/// A list looked up in an ordered map has each of its items.
#[test]
fn items_are_looked_up(rt: HostRuntime) -> Result<(), Fail> {
    let alloc = rt.alloc();
    let threes = ordered_map(alloc, Side::Threes)?;
    assert!(rt; finds_each(alloc, table(&rt, alloc, Side::Evens)?, &threes)?);
    Ok(())
}

// The layers, the last one on top.
const LAYERS: [Side; 3] = [Side::Evens, Side::Threes, Side::Fours];

// What the layers hold under a key.
fn layered(key: u32) -> Option<Layered<u32>> {
    let mut top = None;
    for (layer, side) in LAYERS.iter().enumerate() {
        if let Some(value) = value(*side, key) {
            top = Some(Layered { layer, value });
        }
    }
    top
}

// The layers laid one over the other.
fn laid(alloc: Global) -> Result<Vec<(u32, Layered<u32>)>, AllocError> {
    let mut layers = Vec::new(alloc);
    for side in LAYERS {
        layers.push(ordered_map(alloc, side)?)?;
    }
    overlay_maps(alloc, layers)
}

/// Layers of ordered maps have each key of any.
#[test]
fn layers_have_every_key(rt: HostRuntime) -> Result<(), Fail> {
    let mut rows = laid(rt.alloc())?.into_iter();
    for key in 0..KEYS {
        if let Some(want) = layered(key) {
            assert!(rt; rows.next() == Some((key, want)));
        }
    }
    assert!(rt; rows.next().is_none());
    Ok(())
}

// The multiples of three as ours merged with theirs over the even numbers.
fn merged(alloc: Global, theirs: Side) -> Result<Merged<u32, u32>, AllocError> {
    let base = ordered_map(alloc, Side::Evens)?;
    let ours = ordered_map(alloc, Side::Threes)?;
    let theirs = ordered_map(alloc, theirs)?;
    merge_version_maps(alloc, base, ours, theirs)
}

/// A merge of maps has the rows that both sides changed in two ways, and where their side changed nothing, our side's rows.
#[test]
fn merges_of_maps_have_every_row(rt: HostRuntime) -> Result<(), Fail> {
    let alloc = rt.alloc();
    assert!(rt; merged(alloc, Side::Fours)? == Merged::Conflicts(conflicts(alloc)?));
    let ours = table(&rt, alloc, Side::Threes)?;
    assert!(rt; merged(alloc, Side::Evens)? == Merged::Whole(ours));
    Ok(())
}

//! Joins of maps, and of a list with a map.

use crate::read::{Table, Wrong, shown, table, two};
use eob_joins::{
    Lookup, lookup_join, outer_join_hash_maps, outer_join_index_maps, overlay_index_maps,
    overlay_maps,
};
use indexmap::IndexMap;
use std::alloc::Global;
use std::collections::{BTreeMap, HashMap};

/// What a call on maps returns. Of a call by whose maps it differs, the name of the map stands after it.
pub fn returned(alloc: Global, call: &str, tables: &str) -> Result<String, Wrong> {
    if call == "overlay_maps" {
        return layered(alloc, tables);
    }
    let (left, right) = two(tables)?;
    match call {
        "lookup_join_ordered" => looked_up(alloc, left, &ordered(alloc, right)?),
        "lookup_join_hashed" => looked_up(alloc, left, &hashed(alloc, right)?),
        "lookup_join_inserted" => looked_up(alloc, left, &inserted(alloc, right)?),
        "outer_join_index_maps" => joined(alloc, left, right),
        "outer_join_hash_maps" => joined_hashed(alloc, left, right),
        "overlay_index_maps" => overlaid(alloc, left, right),
        _ => Err(Wrong::Line("no such call")),
    }
}

fn ordered(alloc: Global, text: &str) -> Result<BTreeMap<u32, u32>, Wrong> {
    Ok(table(alloc, text)?.into_iter().collect(alloc)?)
}

fn hashed(alloc: Global, text: &str) -> Result<HashMap<u32, u32>, Wrong> {
    Ok(table(alloc, text)?.into_iter().collect(alloc)?)
}

fn inserted(alloc: Global, text: &str) -> Result<IndexMap<u32, u32>, Wrong> {
    Ok(table(alloc, text)?.into_iter().collect(alloc)?)
}

// A list with what a map has under each key.
fn looked_up<R: Lookup<u32, Value = u32>>(
    alloc: Global,
    list: &str,
    map: &R,
) -> Result<String, Wrong> {
    let list: Table<u32> = table(alloc, list)?;
    shown(alloc, &lookup_join(alloc, list, map)?)
}

fn joined(alloc: Global, left: &str, right: &str) -> Result<String, Wrong> {
    let left = inserted(alloc, left)?;
    let right = inserted(alloc, right)?;
    shown(alloc, &outer_join_index_maps(alloc, left, right)?)
}

// The rows in the order of their keys, since nothing says in which order a hashed map iterates.
fn joined_hashed(alloc: Global, left: &str, right: &str) -> Result<String, Wrong> {
    let left = hashed(alloc, left)?;
    let right = hashed(alloc, right)?;
    let mut rows = BTreeMap::new(alloc);
    for (key, row) in outer_join_hash_maps(alloc, left, right)? {
        rows.insert(key, row)?;
    }
    shown(alloc, &rows)
}

fn overlaid(alloc: Global, base: &str, over: &str) -> Result<String, Wrong> {
    let base = inserted(alloc, base)?;
    let over = inserted(alloc, over)?;
    shown(alloc, &overlay_index_maps(alloc, base, over)?)
}

// Ordered maps laid one over the other, as many as there are.
fn layered(alloc: Global, tables: &str) -> Result<String, Wrong> {
    let mut layers = Vec::new(alloc);
    for text in tables.split('|') {
        layers.push(ordered(alloc, text)?)?;
    }
    shown(alloc, &overlay_maps(alloc, layers)?)
}

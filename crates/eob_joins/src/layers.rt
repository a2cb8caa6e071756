//! Ordered maps as layers, such as the user's settings over the site's over the defaults: what holds under each key, and from which layer
//! it comes.
ghost use Rattle.std.specs.Prelude.{◌≡◌, IfOk, Some, map, option_map};
ghost use Rattle.eob_lists.specs.Join.{Rising};
ghost use Rattle.eob_lists.specs.JoinLaws.{overlaid};
ghost use Rattle.eob_joins.specs.Layers.{IsLaidOver, from_layer, topmost};
ghost use Rattle.eob_joins.specs.Tables.{IsKeptOfJoin, Tabulates};

use crate::kept::{kept_rows, push_all};
use eob_lists::EitherOrBoth;
use eob_lists::join::law_sorted_rises;
use std::alloc::{AllocError, Allocator};
use std::collections::{BTreeMap, VecDeque};

/// A value, and the layer that it comes from: its place among the layers, counted from 0.
#[derive(Debug, Clone, Copy, PartialEq, Eq, Drop)]
pub struct Layered<V> {
    pub layer: usize,
    pub value: V,
}

/// Returns what holds of ordered maps that are laid one over the other, the last one on top: each key of any of them once, in order, with
/// the value of the last map that has it, and the place of that map.
///
/// # Errors
///
/// `AllocError` where a request for memory was refused: then the maps are dropped.
///
/// # Examples
///
/// ```
/// let mut site = BTreeMap::new(alloc);
/// site.insert("depth", 3)?;
/// site.insert("port", 80)?;
/// let mut user = BTreeMap::new(alloc);
/// user.insert("port", 8080)?;
/// let layers = vec![in alloc; site, user]?;
/// let depth = Layered { layer: 0, value: 3 };
/// let port = Layered { layer: 1, value: 8080 };
/// assert_eq!(rt; overlay_maps(alloc, layers)?, vec![in alloc; ("depth", depth), ("port", port)]?);
/// ```
pub fn overlay_maps<K: Ord + Drop, V: Drop, M: Allocator + Copy>(
    alloc: M,
    layers: Vec<BTreeMap<K, V, M>, M>,
) -> Result<Vec<(K, Layered<V>), M>, AllocError>
    ensures { IfOk result (λ rows. Tabulates K.cmp rows.items (topmost K.cmp 0 layers.items)) }
{
    let mut rows = Vec::new(alloc);
    let mut layer: usize = 0;
    // As a queue the layers take no more memory, and come one by one.
    let mut layers = VecDeque::from_vec(layers);
    'layers: loop {
        match layers.pop_front() {
            Some(map) => {
                rows = lay_over(alloc, rows, layer, map)?;
                layer += 1;
            }
            None => return Ok(rows),
        }
    }
}

// The rows with a layer over them.
fn lay_over<K: Ord + Drop, V: Drop, M: Allocator + Copy>(
    alloc: M,
    rows: Vec<(K, Layered<V>), M>,
    layer: usize,
    map: BTreeMap<K, V, M>,
) -> Result<Vec<(K, Layered<V>), M>, AllocError>
    requires { Rising K.cmp rows.items }
    ensures { IfOk result (λ all. IsLaidOver K.cmp layer map.entries rows.items all.items) }
{
    let over = layer_rows(alloc, layer, map)?;
    let all = upper_rows(alloc, rows, over)?;
    Ok(all)
}

// The upper value of each row of a join.
fn upper_rows<K: Ord + Drop, W: Drop, M: Allocator>(
    alloc: M,
    rows: Vec<(K, W), M>,
    over: Vec<(K, W), M>,
) -> Result<Vec<(K, W), M>, AllocError>
    requires rows { Rising K.cmp rows.items }
    requires over { Rising K.cmp over.items }
    ensures { IfOk result (λ all. IsKeptOfJoin K.cmp (λ v. Some (overlaid v))
        rows.items over.items all.items) }
{
    kept_rows(alloc, rows, over, upper)
}

// The upper value of a row.
fn upper<K: Drop, W: Drop>(row: (K, EitherOrBoth<W, W>)) -> Option<(K, W)>
    ensures { result ≡ option_map (λ w. (row.0, w)) (Some (overlaid row.1)) }
{
    let (key, values) = row;
    match values {
        EitherOrBoth::Left(below) => Some((key, below)),
        EitherOrBoth::Both(_below, above) => Some((key, above)),
        EitherOrBoth::Right(above) => Some((key, above)),
    }
}

// The entries of a layer, each with the layer's place.
fn layer_rows<K: Ord + Drop, V: Drop, M: Allocator + Copy>(
    alloc: M,
    layer: usize,
    of_layer: BTreeMap<K, V, M>,
) -> Result<Vec<(K, Layered<V>), M>, AllocError>
    ensures rows { IfOk result (λ rows. rows.items ≡ map (from_layer layer) of_layer.entries) }
    ensures rises { IfOk result (λ rows. Rising K.cmp rows.items) }
{
    let list = entries(alloc, of_layer)?;
    let rows = rows_in_layer(alloc, layer, list)?;
    Ok(rows)
}

// The pairs of a list, each with the layer's place.
fn rows_in_layer<K: Drop, V: Drop, M: Allocator>(
    alloc: M,
    layer: usize,
    list: Vec<(K, V), M>,
) -> Result<Vec<(K, Layered<V>), M>, AllocError>
    ensures { IfOk result (λ rows. rows.items ≡ map (from_layer layer) list.items) }
{
    let mut rows = Vec::new(alloc);
    for entry in list {
        rows.push(in_layer(layer, entry))?;
    }
    Ok(rows)
}

// An entry of a layer.
fn in_layer<K: Drop, V: Drop>(layer: usize, entry: (K, V)) -> (K, Layered<V>)
    ensures { result ≡ from_layer layer entry }
{
    let (key, value) = entry;
    (key, Layered { layer, value })
}

/// Returns the entries of an ordered map as a list, whose keys strictly increase.
pub(crate) fn entries<K: Ord + Drop, V: Drop, M: Allocator>(
    alloc: M,
    map: BTreeMap<K, V, M>,
) -> Result<Vec<(K, V), M>, AllocError>
    ensures entries { IfOk result (λ list. list.items ≡ map.entries) }
    ensures rises { IfOk result (λ list. Rising K.cmp list.items) }
{
    law_sorted_rises::<K, V>();
    let list = push_all(alloc, map.into_iter())?;
    Ok(list)
}

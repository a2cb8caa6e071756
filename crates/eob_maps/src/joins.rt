//! Two ordered maps as one: the inner, the left and the full join, and a map laid over another.
ghost use Rattle.std.specs.Prelude.{◌≡◌, IfOk, option_map};
ghost use Rattle.std.specs.BTreeMap.{get};
ghost use Rattle.std.specs.Map.{update_all};
ghost use Rattle.std.specs.Option.{option_or, option_zip};
ghost use Rattle.std.specs.Ordering.{eq_by_cmp};
ghost use Rattle.eob_lists.specs.Places.{from_places};

use crate::entries::{into_map, into_rows};
use eob_joins::{inner_join, left_join};
use eob_lists::EitherOrBoth;
use eob_lists::join::outer_join;
use std::alloc::{AllocError, Allocator};
use std::collections::BTreeMap;

/// Returns the inner join of two maps: under each key that both maps have, both values. Takes one comparison for each key of either map
/// at most, and an insert for each key of the result.
///
/// # Errors
///
/// `AllocError` where a request for memory was refused: then both maps are dropped.
///
/// # Examples
///
/// ```
/// let left = BTreeMap::from_array(alloc, [(1, 'a'), (3, 'b')])?;
/// let right = BTreeMap::from_array(alloc, [(2, 'x'), (3, 'y')])?;
/// let rows = inner_join_maps(alloc, left, right)?;
/// assert_eq!(rt; (rows.len(), rows.get(&3)), (1, Some(&('b', 'y'))));
/// ```
pub fn inner_join_maps<K: Ord + Drop, A: Drop, B: Drop, M: Allocator + Copy>(
    alloc: M,
    left: BTreeMap<K, A, M>,
    right: BTreeMap<K, B, M>,
) -> Result<BTreeMap<K, (A, B), M>, AllocError>
    ensures { IfOk result (λ rows. (k : _) → get K.cmp rows k
        ≡ option_zip (get K.cmp left k) (get K.cmp right k)) }
{
    let left = into_rows(alloc, left)?;
    let right = into_rows(alloc, right)?;
    let rows = inner_join(alloc, left, right)?;
    let map = into_map(alloc, rows)?;
    Ok(map)
}

/// Returns the left join of two maps: under each key of the left map, its value and the right map's, if there is one. Takes one
/// comparison for each key of either map at most, and an insert for each key of the result.
///
/// # Errors
///
/// `AllocError` where a request for memory was refused: then both maps are dropped.
///
/// # Examples
///
/// ```
/// let left = BTreeMap::from_array(alloc, [(1, 'a'), (3, 'b')])?;
/// let right = BTreeMap::from_array(alloc, [(2, 'x'), (3, 'y')])?;
/// let rows = left_join_maps(alloc, left, right)?;
/// assert_eq!(rt; (rows.get(&1), rows.get(&3)), (Some(&('a', None)), Some(&('b', Some('y')))));
/// ```
pub fn left_join_maps<K: Ord + Drop, A: Drop, B: Drop, M: Allocator + Copy>(
    alloc: M,
    left: BTreeMap<K, A, M>,
    right: BTreeMap<K, B, M>,
) -> Result<BTreeMap<K, (A, Option<B>), M>, AllocError>
    ensures { IfOk result (λ rows. (k : _) → get K.cmp rows k
        ≡ option_map (λ a. (a, get K.cmp right k)) (get K.cmp left k)) }
{
    let left = into_rows(alloc, left)?;
    let right = into_rows(alloc, right)?;
    let rows = left_join(alloc, left, right)?;
    let map = into_map(alloc, rows)?;
    Ok(map)
}

/// Returns the full outer join of two maps: under each key of either map, what the two maps have there. Takes one comparison for each
/// key of either map at most, and an insert for each.
///
/// # Errors
///
/// `AllocError` where a request for memory was refused: then both maps are dropped.
///
/// # Examples
///
/// ```
/// let left = BTreeMap::from_array(alloc, [(1, 'a'), (3, 'b')])?;
/// let right = BTreeMap::from_array(alloc, [(2, 'x'), (3, 'y')])?;
/// let rows = full_join_maps(alloc, left, right)?;
/// assert_eq!(rt; (rows.get(&2), rows.get(&3)), (Some(&Right('x')), Some(&Both('b', 'y'))));
/// ```
pub fn full_join_maps<K: Ord + Drop, A: Drop, B: Drop, M: Allocator + Copy>(
    alloc: M,
    left: BTreeMap<K, A, M>,
    right: BTreeMap<K, B, M>,
) -> Result<BTreeMap<K, EitherOrBoth<A, B>, M>, AllocError>
    ensures { IfOk result (λ rows. (k : _) → get K.cmp rows k
        ≡ from_places (get K.cmp left k) (get K.cmp right k)) }
{
    let left = into_rows(alloc, left)?;
    let right = into_rows(alloc, right)?;
    let rows = outer_join(alloc, left, right)?;
    let map = into_map(alloc, rows)?;
    Ok(map)
}

/// Returns a map laid over another, such as the user's settings over the site's: under each key the value of `over`, and where it has
/// none that of `base`. Layers of any number are laid one over the other by as many calls; where the layer of each value is wanted too,
/// `eob_joins::overlay_maps` has it. Takes an insert into `base` for each entry of `over`.
///
/// # Errors
///
/// `AllocError` where a request for memory was refused: then both maps are dropped.
///
/// # Examples
///
/// ```
/// let site = BTreeMap::from_array(alloc, [("depth", 3), ("port", 80)])?;
/// let user = BTreeMap::from_array(alloc, [("port", 8080)])?;
/// let settings = overlay_maps(alloc, site, user)?;
/// assert_eq!(rt; (settings.get(&"depth"), settings.get(&"port")), (Some(&3), Some(&8080)));
/// ```
pub fn overlay_maps<K: Ord + Drop, V: Drop, M: Allocator + Copy>(
    alloc: M,
    base: BTreeMap<K, V, M>,
    over: BTreeMap<K, V, M>,
) -> Result<BTreeMap<K, V, M>, AllocError>
    ensures { IfOk result (λ map. (k : _) → get K.cmp map k
        ≡ option_or (get K.cmp over k) (get K.cmp base k)) }
{
    let rows = into_rows(alloc, over)?;
    let map = put_rows(base, rows)?;
    Ok(map)
}

// Puts rows into a map one by one: where `append` goes on when a request for memory is refused, this stops.
fn put_rows<K: Ord + Drop, V: Drop, M: Allocator + Copy>(
    base: BTreeMap<K, V, M>,
    rows: Vec<(K, V), M>,
) -> Result<BTreeMap<K, V, M>, AllocError>
    ensures { IfOk result (λ map. (k : _) → get K.cmp map k
        ≡ update_all (eq_by_cmp K.cmp) (get K.cmp base) rows.items k) }
{
    let mut map = base;
    for row in rows {
        let (key, value) = row;
        map.insert(key, value)?;
    }
    Ok(map)
}

//! An ordered map as the list of its entries, and a list as an ordered map: one equation each.
ghost use Rattle.std.specs.Prelude.{◌≡◌, IfOk};
ghost use Rattle.std.specs.Iterator.{IsFinite};
ghost use Rattle.std.specs.Iterator.Runs.{WholeRun};
ghost use Rattle.eob_lists.specs.Join.{Rising};

use eob_lists::join::law_sorted_rises;
use std::alloc::{AllocError, Allocator};
use std::collections::BTreeMap;

/// Returns the entries of an ordered map as a list, in the order of the keys, which strictly increase. So the list may be joined.
///
/// # Errors
///
/// `AllocError` where a request for memory was refused: then the map is dropped.
///
/// # Examples
///
/// ```
/// let mut map = BTreeMap::new(alloc);
/// map.insert(2, 'b')?;
/// map.insert(1, 'a')?;
/// assert_eq!(rt; into_rows(alloc, map)?, vec![in alloc; (1, 'a'), (2, 'b')]?);
/// ```
pub fn into_rows<K: Ord + Drop, V: Drop, M: Allocator>(
    alloc: M,
    map: BTreeMap<K, V, M>,
) -> Result<Vec<(K, V), M>, AllocError>
    ensures entries { IfOk result (λ rows. rows.items ≡ map.entries) }
    ensures rises { IfOk result (λ rows. Rising K.cmp rows.items) }
{
    law_sorted_rises::<K, V>();
    let rows = push_all(alloc, map.into_iter())?;
    Ok(rows)
}

// The items of an iterator, pushed one by one, so that a refused request for memory is never passed over.
fn push_all<I: Iterator, M: Allocator>(alloc: M, items: I) -> Result<Vec<I::Item, M>, AllocError>
where
    I::Item: Drop,
    requires can { I.can_next items }
    requires finite { IsFinite (I.remaining items) }
    ensures { IfOk result (λ list. WholeRun I.next_gives items (λ p. list.items ≡ p.items)) }
{
    let mut list = Vec::new(alloc);
    for item in items {
        list.push(item)?;
    }
    Ok(list)
}

/// Returns a list whose keys strictly increase as an ordered map, which has exactly the pairs of the list as its entries.
///
/// The caller must prove that the keys strictly increase; see [`is_rising`](eob_lists::join::is_rising). Of each list that a call of
/// `eob_joins` returned it is known.
///
/// # Errors
///
/// `AllocError` where a request for memory was refused: then the list is dropped.
///
/// # Examples
///
/// ```
/// let rows = vec![in alloc; (1, 'a'), (2, 'b')]?;
/// assert!(rt; is_rising(&rows));
/// let map = into_map(alloc, rows)?;
/// assert_eq!(rt; map.get(&2), Some(&'b'));
/// ```
pub fn into_map<K: Ord + Drop, V: Drop, M: Allocator + Copy>(
    alloc: M,
    rows: Vec<(K, V), M>,
) -> Result<BTreeMap<K, V, M>, AllocError>
    requires { Rising K.cmp rows.items }
    ensures { IfOk result (λ map. map.entries ≡ rows.items) }
{
    let mut map = BTreeMap::new(alloc);
    for row in rows {
        let (key, value) = row;
        map.insert(key, value)?;
    }
    Ok(map)
}

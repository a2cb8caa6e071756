//! The pairs of a list counted and summed by key, and the same of both sides of a join.
ghost use Rattle.std.specs.Prelude.{◌≡◌, ◌+◌, ◌<◌, ◌^◌, IfOk, IfSome, OnOk, Some, length, option_map};
ghost use Rattle.std.specs.BTreeMap.{Updates, get};
ghost use Rattle.eob_lists.specs.Places.{from_places};
ghost use Rattle.eob_joins.specs.Groups.{group_under};
ghost use Rattle.eob_sums.specs.Sums.{one_more, total_under, with_more};

use crate::sums::with_number;
use eob_lists::EitherOrBoth;
use eob_maps::full_join_maps;
use std::alloc::{AllocError, Allocator};
use std::collections::BTreeMap;

/// How many numbers a key has, and their sum, or `None` where that is 2 ^ 64 or more.
#[derive(Debug, Clone, Copy, PartialEq, Eq)]
pub struct Total {
    pub count: usize,
    pub sum: Option<u64>,
}

/// Returns how many values a list has under each of its keys, which may repeat and stand in any order: `GROUP BY` with `COUNT`. A key
/// that the list lacks has no entry. Takes two look-ups for each pair.
///
/// # Errors
///
/// `AllocError` where a request for memory was refused: then the list is dropped.
///
/// # Examples
///
/// ```
/// let orders = vec![in alloc; (7, "lamp"), (2, "desk"), (7, "bulb")]?;
/// let counts = counts_by_key(alloc, orders)?;
/// assert_eq!(rt; (counts.get(&7), counts.get(&2), counts.get(&1)), (Some(&2), Some(&1), None));
/// ```
pub fn counts_by_key<K: Ord + Drop, V: Drop, M: Allocator + Copy>(
    alloc: M,
    rows: Vec<(K, V), M>,
) -> Result<BTreeMap<K, usize, M>, AllocError>
    ensures { IfOk result (λ counts. (k : _) → get K.cmp counts k
        ≡ option_map length (group_under K.cmp rows.items k)) }
{
    let mut counts = BTreeMap::new(alloc);
    for row in rows {
        let (key, _value) = row;
        count_key(&mut counts, key)?;
    }
    Ok(counts)
}

/// Returns how many numbers a list has under each of its keys, and their sum, `None` where it is 2 ^ 64 or more: `GROUP BY` with `COUNT`
/// and `SUM`. Keys may repeat and stand in any order; a key that the list lacks has no entry. Takes two look-ups for each pair.
///
/// # Errors
///
/// `AllocError` where a request for memory was refused: then the list is dropped.
///
/// # Examples
///
/// ```
/// let payments = vec![in alloc; (7, 30), (2, u64::MAX), (7, 12), (2, 1)]?;
/// let totals = totals_by_key(alloc, payments)?;
/// assert_eq!(rt; totals.get(&7), Some(&Total { count: 2, sum: Some(42) }));
/// assert_eq!(rt; totals.get(&2), Some(&Total { count: 2, sum: None }));
/// ```
pub fn totals_by_key<K: Ord + Drop, M: Allocator + Copy>(
    alloc: M,
    rows: Vec<(K, u64), M>,
) -> Result<BTreeMap<K, Total, M>, AllocError>
    ensures { IfOk result (λ totals. (k : _) → get K.cmp totals k ≡ total_under K.cmp rows.items k) }
{
    let mut totals = BTreeMap::new(alloc);
    for row in rows {
        let (key, number) = row;
        add_number(&mut totals, key, number)?;
    }
    Ok(totals)
}

/// Returns the count and the checked sum of what either list has under each key: the join of two lists whose keys may repeat and stand in
/// any order, such as what was sold and what came back, with each side's group as one [`Total`]. A side that lacks the key is absent.
///
/// For a `LEFT JOIN` of a map with `COUNT` and `SUM`, call `left_join_maps` of `eob_maps` with the map and [`totals_by_key`].
///
/// # Errors
///
/// `AllocError` where a request for memory was refused: then both lists are dropped.
///
/// # Examples
///
/// ```
/// let sold = vec![in alloc; (1, 5), (2, 3), (1, 4)]?;
/// let back = vec![in alloc; (1, 2)]?;
/// let totals = total_join(alloc, sold, back)?;
/// let (two, one) = (Total { count: 2, sum: Some(9) }, Total { count: 1, sum: Some(2) });
/// assert_eq!(rt; totals.get(&1), Some(&Both(two, one)));
/// ```
pub fn total_join<K: Ord + Drop, M: Allocator + Copy>(
    alloc: M,
    left: Vec<(K, u64), M>,
    right: Vec<(K, u64), M>,
) -> Result<BTreeMap<K, EitherOrBoth<Total, Total>, M>, AllocError>
    ensures { IfOk result (λ totals. (k : _) → get K.cmp totals k
        ≡ from_places (total_under K.cmp left.items k) (total_under K.cmp right.items k)) }
{
    let left = totals_by_key(alloc, left)?;
    let right = totals_by_key(alloc, right)?;
    let totals = full_join_maps(alloc, left, right)?;
    Ok(totals)
}

// One more under the key.
fn count_key<K: Ord + Drop, M: Allocator + Copy>(
    counts: &mut BTreeMap<K, usize, M>,
    key: K,
) -> Result<(), AllocError>
    requires { IfSome (get K.cmp counts.old key) (λ n. n + 1 < 2 ^ 64) }
    ensures { OnOk result (Updates K.cmp counts.old counts.new key
        (Some (one_more (get K.cmp counts.old key)))) }
{
    let count = match counts.get(&key) {
        Some(count) => *count + 1,
        None => 1,
    };
    counts.insert(key, count)?;
    Ok(())
}

// A number more under the key.
fn add_number<K: Ord + Drop, M: Allocator + Copy>(
    totals: &mut BTreeMap<K, Total, M>,
    key: K,
    number: u64,
) -> Result<(), AllocError>
    requires { IfSome (get K.cmp totals.old key) (λ t. t.count + 1 < 2 ^ 64) }
    ensures { OnOk result (Updates K.cmp totals.old totals.new key
        (Some (with_more (get K.cmp totals.old key) number))) }
{
    let total = match totals.get(&key) {
        Some(total) => Total {
            count: total.count + 1,
            sum: with_number(total.sum, number),
        },
        None => Total {
            count: 1,
            sum: Some(number),
        },
    };
    totals.insert(key, total)?;
    Ok(())
}

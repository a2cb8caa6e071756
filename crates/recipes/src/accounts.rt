//! Customers by number, each with how many orders a list has of it: the list is in any order, and names a customer as often as it ordered.
//! A customer without an order has none, and an order of nobody known is left out.
ghost use Rattle.std.specs.Prelude.{◌≡◌};
ghost use Rattle.std.specs.BTreeMap.{get};
ghost use Rattle.either_or_both.specs.Prelude.{IfOk, length, option_map};
ghost use Rattle.eob_joins.specs.Groups.{group_under};

use eob_maps::left_join_maps;
use eob_sums::counts_by_key;
use std::alloc::{AllocError, Global};
use std::collections::BTreeMap;

/// Each customer with the number of its orders, where there is one.
pub fn with_order_counts<K: Ord + Drop, C: Drop, O: Drop>(
    alloc: Global,
    customers: BTreeMap<K, C>,
    orders: Vec<(K, O)>,
) -> Result<BTreeMap<K, (C, Option<usize>)>, AllocError>
    ensures { IfOk result (λ rows. (k : _) → get K.cmp rows k
        ≡ option_map (λ c. (c, option_map length (group_under K.cmp orders.items k)))
        (get K.cmp customers k)) }
{
    let counts = counts_by_key(alloc, orders)?;
    let rows = left_join_maps(alloc, customers, counts)?;
    Ok(rows)
}

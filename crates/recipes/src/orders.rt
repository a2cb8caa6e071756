//! Orders with their customers: each order in its place, with what is known of the customer that it names.
ghost use Rattle.std.specs.Prelude.{◌≡◌};
ghost use Rattle.std.specs.BTreeMap.{get};
ghost use Rattle.std.specs.HashMap.{get_by};
ghost use Rattle.either_or_both.specs.Prelude.{IfOk, map, nat_cmp, nat_eq};
ghost use Rattle.eob_joins.specs.Lookup.{shown_lookup, with_found};

use eob_joins::{LookupRow, lookup_join, lookup_join_lazily};
use std::alloc::{AllocError, Global};
use std::collections::{BTreeMap, HashMap};

/// Each order, by its customer's number, with the customer's name, where there is one.
pub fn with_customers<'a>(
    alloc: Global,
    orders: Vec<(u32, String)>,
    customers: &'a BTreeMap<u32, String>,
) -> Result<Vec<LookupRow<'a, u32, String, String>>, AllocError>
    ensures { IfOk result (λ rows. map shown_lookup rows.items
        ≡ map (with_found (get nat_cmp customers.now)) orders.items) }
{
    let rows = lookup_join(alloc, orders, customers)?;
    Ok(rows)
}

/// The same of customers in a hashed map.
pub fn with_customers_hashed<'a>(
    alloc: Global,
    orders: Vec<(u32, String)>,
    customers: &'a HashMap<u32, String>,
) -> Result<Vec<LookupRow<'a, u32, String, String>>, AllocError>
    ensures { IfOk result (λ rows. map shown_lookup rows.items
        ≡ map (with_found (λ k. get_by (nat_eq k) customers.now)) orders.items) }
{
    let rows = lookup_join(alloc, orders, customers)?;
    Ok(rows)
}

/// The same by the iterator, which takes no memory of its own and may be filtered or mapped before it is collected.
pub fn with_customers_in_turn<'a>(
    alloc: Global,
    orders: Vec<(u32, String)>,
    customers: &'a BTreeMap<u32, String>,
) -> Result<Vec<LookupRow<'a, u32, String, String>>, AllocError>
    ensures { IfOk result (λ rows. map shown_lookup rows.items
        ≡ map (with_found (get nat_cmp customers.now)) orders.items) }
{
    let rows = lookup_join_lazily(orders, customers).collect(alloc)?;
    Ok(rows)
}

//! What to write where the check says that a fact is missing: for each case the form that proves. `docs/GUIDE.md` shows the messages.
ghost use Rattle.std.specs.Prelude.{◌≡◌, IfOk, Option, filter, is_some, map, option_copied, ℕ};
ghost use Rattle.std.specs.BTreeMap.{get};
ghost use Rattle.std.specs.Ordering.{nat_cmp};
ghost use Rattle.either_or_both.specs.Join.{IsJoin, Rising, value_under};
ghost use Rattle.either_or_both.specs.Places.{from_places};
ghost use Rattle.eob_joins.specs.Lookup.{shown_lookup, with_found};
ghost use Rattle.eob_joins.specs.Tables.{Tabulates};

use either_or_both::EitherOrBoth;
use either_or_both::join::{law_sorted_rises, outer_join, outer_join_lazily};
use eob_joins::{LookupRow, lookup_join};
use eob_maps::{full_join_maps, into_rows};
use std::alloc::{AllocError, Global};
use std::collections::BTreeMap;

/// The entries of a map as rows, known by `get`.
pub fn rows_by_get<K: Ord + Drop, V: Drop>(
    alloc: Global,
    map: BTreeMap<K, V>,
) -> Result<Vec<(K, V)>, AllocError>
    ensures rises { IfOk result (λ rows. Rising K.cmp rows.items) }
    ensures values { IfOk result (λ rows. (k : _) → value_under K.cmp rows.items k ≡ get K.cmp map k) }
{
    let rows = into_rows(alloc, map)?;
    Ok(rows)
}

/// The join of two maps as rows, known by `get`: no clause here speaks of entries, that of the helper does.
pub fn joined_rows<K: Ord + Drop, A: Drop, B: Drop>(
    alloc: Global,
    left: BTreeMap<K, A>,
    right: BTreeMap<K, B>,
) -> Result<Vec<(K, EitherOrBoth<A, B>)>, AllocError>
    ensures rises { IfOk result (λ rows. Rising K.cmp rows.items) }
    ensures values { IfOk result (λ rows. (k : _) → value_under K.cmp rows.items k
        ≡ from_places (get K.cmp left k) (get K.cmp right k)) }
{
    let map = full_join_maps(alloc, left, right)?;
    let rows = rows_by_get(alloc, map)?;
    Ok(rows)
}

/// The same as one record, of the parts that the function above says one by one.
pub fn joined_table<K: Ord + Drop, A: Drop, B: Drop>(
    alloc: Global,
    left: BTreeMap<K, A>,
    right: BTreeMap<K, B>,
) -> Result<Vec<(K, EitherOrBoth<A, B>)>, AllocError>
    ensures { IfOk result (λ rows. Tabulates K.cmp rows.items
        (λ k. from_places (get K.cmp left k) (get K.cmp right k))) }
{
    let rows = joined_rows(alloc, left, right)?;
    Ok(rows)
}

/// Labels that are references: what holds them is `labels` where it is required, and `labels.entry` in what the function ensures.
pub fn with_labels<'a, K: Ord + Drop, S: Drop>(
    alloc: Global,
    shelves: Vec<(K, S)>,
    labels: Vec<(K, &'a str)>,
) -> Result<Vec<(K, EitherOrBoth<S, &'a str>)>, AllocError>
    requires shelves { Rising K.cmp shelves.items }
    requires labels { Rising K.cmp labels.items }
    ensures { IfOk result (λ rows. IsJoin K.cmp shelves.items labels.entry.items rows.items) }
{
    let rows = outer_join(alloc, shelves, labels)?;
    Ok(rows)
}

// An order with its customer's number widened.
fn widened(order: (u16, u8)) -> (u32, u8)
    ensures { result ≡ (order.0, order.1) }
{
    (u32::from(order.0), order.1)
}

/// Orders with wider numbers, by a function with a type of its own under a `let`.
pub fn widened_by_let(alloc: Global, orders: Vec<(u16, u8)>) -> Result<Vec<(u32, u8)>, AllocError>
    ensures { let wide : ℕ × ℕ → ℕ × ℕ = λ o. (o.0, o.1) in
        IfOk result (λ rows. rows.items ≡ map wide orders.items) }
{
    orders.into_iter().map(widened).collect(alloc)
}

/// The same, with the type of the items that the `map` makes.
pub fn widened_orders(alloc: Global, orders: Vec<(u16, u8)>) -> Result<Vec<(u32, u8)>, AllocError>
    ensures { IfOk result (λ rows. rows.items ≡ map {B = ℕ × ℕ} (λ o. (o.0, o.1)) orders.items) }
{
    orders.into_iter().map(widened).collect(alloc)
}

/// Orders with wider numbers and their customers: mapped and collected first, since of a look-up join over `map` no caller knows its rows.
pub fn with_customers<'a>(
    alloc: Global,
    orders: Vec<(u16, u8)>,
    customers: &'a BTreeMap<u32, u64>,
) -> Result<Vec<LookupRow<'a, u32, u8, u64>>, AllocError>
    ensures { IfOk result (λ rows. map shown_lookup rows.items
        ≡ map (with_found (get nat_cmp customers.now)) (map {B = ℕ × ℕ} (λ o. (o.0, o.1)) orders.items)) }
{
    let orders = widened_orders(alloc, orders)?;
    let rows = lookup_join(alloc, orders, customers)?;
    Ok(rows)
}

// The rows whose customer is known.
fn known<'a>(
    alloc: Global,
    rows: Vec<LookupRow<'a, u32, u8, u64>>,
) -> Result<Vec<LookupRow<'a, u32, u8, u64>>, AllocError>
    ensures { IfOk result (λ made. made.items ≡ filter (λ r. is_some r.2) rows.entry.items) }
{
    rows.into_iter()
        .filter(|row| row.2.is_some())
        .collect(alloc)
}

/// Orders whose customer is known: the rows filtered by a function that takes them by value, since of a look-up join that is filtered or
/// mapped no caller knows its rows.
pub fn with_known_customers<'a>(
    alloc: Global,
    orders: Vec<(u32, u8)>,
    customers: &'a BTreeMap<u32, u64>,
) -> Result<Vec<LookupRow<'a, u32, u8, u64>>, AllocError>
    ensures { IfOk result (λ made. (rows : _)
        × (map shown_lookup rows ≡ map (with_found (get nat_cmp customers.now)) orders.items)
        × (made.items ≡ filter (λ r. is_some r.2) rows)) }
{
    let rows = lookup_join(alloc, orders, customers)?;
    let made = known(alloc, rows)?;
    Ok(made)
}

// The number of an order's customer, with what is known of it.
fn shown(row: LookupRow<'_, u32, u8, u64>) -> (u32, Option<u64>)
    ensures { result ≡ (row.entry.0, option_copied row.entry.2) }
{
    (row.0, row.2.copied())
}

// The same of each row.
fn all_shown(
    alloc: Global,
    rows: Vec<LookupRow<'_, u32, u8, u64>>,
) -> Result<Vec<(u32, Option<u64>)>, AllocError>
    ensures { IfOk result (λ made. made.items
        ≡ map {B = ℕ × Option ℕ} (λ r. (r.0, option_copied r.2)) rows.entry.items) }
{
    rows.into_iter().map(shown).collect(alloc)
}

/// What is known of the customer of each order: the rows mapped in the same way.
pub fn customers_of(
    alloc: Global,
    orders: Vec<(u32, u8)>,
    customers: &BTreeMap<u32, u64>,
) -> Result<Vec<(u32, Option<u64>)>, AllocError>
    ensures { IfOk result (λ made. (rows : _)
        × (map shown_lookup rows ≡ map (with_found (get nat_cmp customers.now)) orders.items)
        × (made.items ≡ map {B = ℕ × Option ℕ} (λ r. (r.0, option_copied r.2)) rows)) }
{
    let rows = lookup_join(alloc, orders, customers)?;
    let made = all_shown(alloc, rows)?;
    Ok(made)
}

/// A lazy join, collected where it is made.
pub fn collected_join<K: Ord + Drop, A: Drop, B: Drop>(
    alloc: Global,
    left: BTreeMap<K, A>,
    right: BTreeMap<K, B>,
) -> Result<Vec<(K, EitherOrBoth<A, B>)>, AllocError>
    ensures { IfOk result (λ rows. IsJoin K.cmp left.entries right.entries rows.items) }
{
    law_sorted_rises::<K, A>();
    law_sorted_rises::<K, B>();
    let rows = outer_join_lazily(left, right).collect(alloc)?;
    Ok(rows)
}

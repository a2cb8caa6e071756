//! Tables that are maps, as one: the articles in the order in which they were entered, each with its stock and with what is on order.
ghost use Rattle.std.specs.Prelude.{◌≡◌};
ghost use Rattle.std.specs.HashMap.{get_by};
ghost use Rattle.either_or_both.specs.Prelude.{IfOk, from_places};

use either_or_both::EitherOrBoth;
use eob_joins::{outer_join_hash_maps, outer_join_index_maps};
use indexmap::IndexMap;
use std::alloc::{AllocError, Global};
use std::collections::HashMap;
use std::hash::Hash;

/// An article, and what is in stock and on order of it.
pub type Supplied<A, B, C> = EitherOrBoth<A, EitherOrBoth<B, C>>;

/// Two maps as one: each article in its order, with its stock where there is some; then the stock of what is no article, in its order.
pub fn stocked<K: Eq + Hash + Drop, A: Drop, B: Drop>(
    alloc: Global,
    articles: IndexMap<K, A>,
    stock: IndexMap<K, B>,
) -> Result<IndexMap<K, EitherOrBoth<A, B>>, AllocError>
    ensures { IfOk result (λ rows. (k : _) → get_by (K.eq k) rows
        ≡ from_places (get_by (K.eq k) articles) (get_by (K.eq k) stock)) }
{
    let rows = outer_join_index_maps(alloc, articles, stock)?;
    Ok(rows)
}

/// Three maps as one: each article with its stock and with what is on order, where there is some.
pub fn supplied<K: Eq + Hash + Drop, A: Drop, B: Drop, C: Drop>(
    alloc: Global,
    articles: IndexMap<K, A>,
    stock: IndexMap<K, B>,
    ordered: IndexMap<K, C>,
) -> Result<IndexMap<K, Supplied<A, B, C>>, AllocError>
    ensures { IfOk result (λ rows. (k : _) → get_by (K.eq k) rows
        ≡ from_places (get_by (K.eq k) articles)
        (from_places (get_by (K.eq k) stock) (get_by (K.eq k) ordered))) }
{
    let numbers = stocked(alloc, stock, ordered)?;
    let rows = stocked(alloc, articles, numbers)?;
    Ok(rows)
}

/// The same of two maps that keep no order of their own.
pub fn stocked_hashed<K: Eq + Hash + Drop, A: Drop, B: Drop>(
    alloc: Global,
    articles: HashMap<K, A>,
    stock: HashMap<K, B>,
) -> Result<IndexMap<K, EitherOrBoth<A, B>>, AllocError>
    ensures { IfOk result (λ rows. (k : _) → get_by (K.eq k) rows
        ≡ from_places (get_by (K.eq k) articles) (get_by (K.eq k) stock)) }
{
    let rows = outer_join_hash_maps(alloc, articles, stock)?;
    Ok(rows)
}

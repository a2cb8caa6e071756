//! Articles with their stock and their suppliers: each result is two joins, of which the second goes over the rows of the first. That
//! these are strictly increasing, the first says.
ghost use Rattle.std.specs.Prelude.{◌≡◌};
ghost use Rattle.either_or_both.specs.Prelude.{IfOk, Rising, option_map, option_zip, value_under};
ghost use Rattle.std.specs.Option.{option_and};
ghost use Rattle.eob_joins.specs.Tables.{unless};

use eob_joins::{anti_join, inner_join, left_join, right_join, semi_join};
use std::alloc::{AllocError, Global};

/// What to order: each article of which there is no stock, with who supplies it, where anybody does.
pub fn to_order<K: Ord + Drop, A: Drop, S: Drop>(
    alloc: Global,
    articles: Vec<(K, A)>,
    stock: Vec<(K, u32)>,
    suppliers: Vec<(K, S)>,
) -> Result<Vec<(K, (A, Option<S>))>, AllocError>
    requires articles { Rising K.cmp articles.items }
    requires stock { Rising K.cmp stock.items }
    requires suppliers { Rising K.cmp suppliers.items }
    ensures { IfOk result (λ rows. (k : _) → value_under K.cmp rows.items k
        ≡ option_map (λ a. (a, value_under K.cmp suppliers.items k))
        (unless (value_under K.cmp articles.items k) (value_under K.cmp stock.items k))) }
{
    let sold_out = anti_join(alloc, articles, stock)?;
    let rows = left_join(alloc, sold_out, suppliers)?;
    Ok(rows)
}

/// What is on sale: each article of which there is stock and that was not withdrawn, with its number.
pub fn on_sale<K: Ord + Drop, A: Drop, W: Drop>(
    alloc: Global,
    articles: Vec<(K, A)>,
    stock: Vec<(K, u32)>,
    withdrawn: Vec<(K, W)>,
) -> Result<Vec<(K, (A, u32))>, AllocError>
    requires articles { Rising K.cmp articles.items }
    requires stock { Rising K.cmp stock.items }
    requires withdrawn { Rising K.cmp withdrawn.items }
    ensures { IfOk result (λ rows. (k : _) → value_under K.cmp rows.items k
        ≡ unless (option_zip (value_under K.cmp articles.items k) (value_under K.cmp stock.items k))
        (value_under K.cmp withdrawn.items k)) }
{
    let in_stock = inner_join(alloc, articles, stock)?;
    let rows = anti_join(alloc, in_stock, withdrawn)?;
    Ok(rows)
}

/// What was counted of what is wanted: each number, with its article where there is one.
pub fn counted<K: Ord + Drop, A: Drop, W: Drop>(
    alloc: Global,
    articles: Vec<(K, A)>,
    stock: Vec<(K, u32)>,
    asked: Vec<(K, W)>,
) -> Result<Vec<(K, (Option<A>, u32))>, AllocError>
    requires articles { Rising K.cmp articles.items }
    requires stock { Rising K.cmp stock.items }
    requires asked { Rising K.cmp asked.items }
    ensures { IfOk result (λ rows. (k : _) → value_under K.cmp rows.items k
        ≡ option_map (λ n. (value_under K.cmp articles.items k, n))
        (option_and (value_under K.cmp asked.items k) (value_under K.cmp stock.items k))) }
{
    let numbers = semi_join(alloc, stock, asked)?;
    let rows = right_join(alloc, articles, numbers)?;
    Ok(rows)
}

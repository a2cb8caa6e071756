//! Counts of two tables, added key by key: no count is lost.
ghost use Rattle.std.specs.Prelude.{◌≡◌, ◌+◌};
ghost use Rattle.either_or_both.specs.Prelude.{IfOk, Rising, Some, option_map, sum_by};
ghost use Rattle.eob_joins.specs.Laws.{added};
ghost use Rattle.eob_joins.specs.Tables.{IsKeptByKey, IsKeptOfJoin};

use either_or_both::EitherOrBoth;
use either_or_both::join::outer_join_lazily;
use eob_joins::{law_join_sum, law_kept_join};
use std::alloc::{AllocError, Global};

// A row with its counts added, which fit.
fn total_row<K: Drop>(row: (K, EitherOrBoth<u32, u32>)) -> Option<(K, u64)>
    ensures { result ≡ option_map (λ n. (row.0, n)) (Some (added row.1)) }
{
    let (key, counts) = row;
    let (left, right) = counts.or_default();
    Some((key, u64::from(left) + u64::from(right)))
}

// The rows of all keys.
fn total_rows<K: Ord + Drop>(
    alloc: Global,
    left: Vec<(K, u32)>,
    right: Vec<(K, u32)>,
) -> Result<Vec<(K, u64)>, AllocError>
    requires left { Rising K.cmp left.items }
    requires right { Rising K.cmp right.items }
    ensures { IfOk result (λ rows. IsKeptOfJoin K.cmp (λ v. Some (added v))
        left.items right.items rows.items) }
{
    outer_join_lazily(left, right)
        .filter_map(total_row)
        .collect(alloc)
}

/// Each key of either table once, in order, with its counts added, which add up to what both tables have.
pub fn totals<K: Ord + Drop>(
    alloc: Global,
    left: Vec<(K, u32)>,
    right: Vec<(K, u32)>,
) -> Result<Vec<(K, u64)>, AllocError>
    requires left { Rising K.cmp left.items }
    requires right { Rising K.cmp right.items }
    ensures table { IfOk result (λ rows.
        IsKeptByKey K.cmp (λ v. Some (added v)) left.items right.items rows.items) }
    ensures sum { IfOk result (λ rows. sum_by (λ z. z.1) rows.items
        ≡ sum_by (λ z. z.1) left.items + sum_by (λ z. z.1) right.items) }
{
    law_join_sum::<K>();
    let rows = total_rows(alloc, left, right)?;
    law_kept_join::<K, u32, u32, u64>(&rows);
    Ok(rows)
}

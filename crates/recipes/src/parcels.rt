//! Parcels and complaints by street, where a street stands in both tables as often as it likes and in any order. Each street once, with all
//! its parcels and all its complaints, in the order in which they came.
ghost use Rattle.std.specs.Prelude.{◌≡◌};
ghost use Rattle.either_or_both.specs.Prelude.{IfOk, Rising, from_places, map, value_under};
ghost use Rattle.eob_joins.specs.Groups.{group_under, shown_row};

use eob_joins::{GroupRow, group_join_unordered};
use std::alloc::{AllocError, Global};

/// A row for each street of either table, each street once.
pub fn by_street<K: Ord + Drop, A: Drop, B: Drop>(
    alloc: Global,
    parcels: Vec<(K, A)>,
    complaints: Vec<(K, B)>,
) -> Result<Vec<GroupRow<K, A, B>>, AllocError>
    ensures once { IfOk result (λ rows. Rising K.cmp (map shown_row rows.items)) }
    ensures streets { IfOk result (λ rows. (k : _) → value_under K.cmp (map shown_row rows.items) k
        ≡ from_places (group_under K.cmp parcels.items k) (group_under K.cmp complaints.items k)) }
{
    let rows = group_join_unordered(alloc, parcels, complaints)?;
    Ok(rows)
}

//! A join of one's own, row by row off the full outer join: what has been ordered and is still to be delivered.
ghost use Rattle.std.specs.Prelude.{◌≡◌};
ghost use Rattle.either_or_both.specs.Prelude.{IfOk, Rising, from_places, option_and_then, option_map};
ghost use Rattle.either_or_both.specs.Prelude.{value_under};
ghost use Rattle.eob_joins.specs.Tables.{IsKeptOfJoin};
ghost use Rattle.recipes.specs.Cells.{due};

use either_or_both::EitherOrBoth;
use either_or_both::join::outer_join_lazily;
use eob_joins::law_kept_join;
use std::alloc::{AllocError, Global};

// What is due of a row, where something is.
fn due_row<K: Drop>(row: (K, EitherOrBoth<u32, u32>)) -> Option<(K, u32)>
    ensures { result ≡ option_map (λ n. (row.0, n)) (due row.1) }
{
    let (key, cells) = row;
    match cells {
        EitherOrBoth::Left(ordered) => Some((key, ordered)),
        EitherOrBoth::Both(ordered, delivered) => {
            if delivered < ordered {
                Some((key, ordered - delivered))
            } else {
                None
            }
        }
        EitherOrBoth::Right(_delivered) => None,
    }
}

// The rows of all of which something is due.
fn due_rows<K: Ord + Drop>(
    alloc: Global,
    ordered: Vec<(K, u32)>,
    delivered: Vec<(K, u32)>,
) -> Result<Vec<(K, u32)>, AllocError>
    requires ordered { Rising K.cmp ordered.items }
    requires delivered { Rising K.cmp delivered.items }
    ensures { IfOk result (λ rows. IsKeptOfJoin K.cmp due ordered.items delivered.items rows.items) }
{
    outer_join_lazily(ordered, delivered)
        .filter_map(due_row)
        .collect(alloc)
}

/// Each article of which more was ordered than delivered, with how many are due.
pub fn still_due<K: Ord + Drop>(
    alloc: Global,
    ordered: Vec<(K, u32)>,
    delivered: Vec<(K, u32)>,
) -> Result<Vec<(K, u32)>, AllocError>
    requires ordered { Rising K.cmp ordered.items }
    requires delivered { Rising K.cmp delivered.items }
    ensures { IfOk result (λ rows. (k : _) → value_under K.cmp rows.items k
        ≡ option_and_then due
        (from_places (value_under K.cmp ordered.items k) (value_under K.cmp delivered.items k))) }
{
    let rows = due_rows(alloc, ordered, delivered)?;
    law_kept_join::<K, u32, u32, u32>(&rows);
    Ok(rows)
}

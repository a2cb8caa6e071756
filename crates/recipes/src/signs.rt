//! Shelves and the signs that hang over them, by number, where a sign is a text that somebody else holds. Each number of either list once,
//! with its shelf and a reference to its sign, and none is copied.
ghost use Rattle.std.specs.Prelude.{◌≡◌};
ghost use Rattle.either_or_both.specs.Prelude.{IfOk, IsJoin, Rising};

use either_or_both::EitherOrBoth;
use either_or_both::join::outer_join;
use std::alloc::{AllocError, Global};

/// The shelves and the signs joined.
pub fn with_signs<'a, K: Ord + Drop, S: Drop>(
    alloc: Global,
    shelves: Vec<(K, S)>,
    signs: Vec<(K, &'a str)>,
) -> Result<Vec<(K, EitherOrBoth<S, &'a str>)>, AllocError>
    requires shelves { Rising K.cmp shelves.items }
    requires signs { Rising K.cmp signs.items }
    ensures { IfOk result (λ rows. IsJoin K.cmp shelves.items signs.entry.items rows.items) }
{
    let rows = outer_join(alloc, shelves, signs)?;
    Ok(rows)
}

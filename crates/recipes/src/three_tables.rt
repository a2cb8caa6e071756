//! Three tables as one: each key of any of them once, with what each table has under it.
ghost use Rattle.std.specs.Prelude.{◌≡◌};
ghost use Rattle.either_or_both.specs.Prelude.{IfOk, IsJoin, Rising, from_places, value_under};
ghost use Rattle.eob_joins.specs.Tables.{Tabulates};

use either_or_both::EitherOrBoth;
use either_or_both::join::outer_join_lazily;
use std::alloc::{AllocError, Global};

/// A row of three tables: what the first has under its key, and what the two others have.
pub type Row<K, A, B, C> = (K, EitherOrBoth<A, EitherOrBoth<B, C>>);

/// The join of the first table with the join of the two others.
pub fn joined<K: Ord + Drop, A: Drop, B: Drop, C: Drop>(
    alloc: Global,
    first: Vec<(K, A)>,
    second: Vec<(K, B)>,
    third: Vec<(K, C)>,
) -> Result<Vec<Row<K, A, B, C>>, AllocError>
    requires first { Rising K.cmp first.items }
    requires second { Rising K.cmp second.items }
    requires third { Rising K.cmp third.items }
    ensures { IfOk result (λ rows. (others : _) × IsJoin K.cmp second.items third.items others
        × IsJoin K.cmp first.items others rows.items) }
{
    outer_join_lazily(first, outer_join_lazily(second, third)).collect(alloc)
}

/// The same, known by look-ups: the keys are strictly increasing, and under each stands what each of the three tables has there.
pub fn by_key<K: Ord + Drop, A: Drop, B: Drop, C: Drop>(
    alloc: Global,
    first: Vec<(K, A)>,
    second: Vec<(K, B)>,
    third: Vec<(K, C)>,
) -> Result<Vec<Row<K, A, B, C>>, AllocError>
    requires first { Rising K.cmp first.items }
    requires second { Rising K.cmp second.items }
    requires third { Rising K.cmp third.items }
    ensures rises { IfOk result (λ rows. Rising K.cmp rows.items) }
    ensures values { IfOk result (λ rows. (k : _) → value_under K.cmp rows.items k
        ≡ from_places (value_under K.cmp first.items k)
        (from_places (value_under K.cmp second.items k) (value_under K.cmp third.items k))) }
{
    let rows = joined(alloc, first, second, third)?;
    Ok(rows)
}

/// The same as one table, of which each law of tables speaks.
pub fn as_one_table<K: Ord + Drop, A: Drop, B: Drop, C: Drop>(
    alloc: Global,
    first: Vec<(K, A)>,
    second: Vec<(K, B)>,
    third: Vec<(K, C)>,
) -> Result<Vec<Row<K, A, B, C>>, AllocError>
    requires first { Rising K.cmp first.items }
    requires second { Rising K.cmp second.items }
    requires third { Rising K.cmp third.items }
    ensures { IfOk result (λ rows. Tabulates K.cmp rows.items
        (λ k. from_places (value_under K.cmp first.items k)
        (from_places (value_under K.cmp second.items k) (value_under K.cmp third.items k)))) }
{
    let rows = by_key(alloc, first, second, third)?;
    Ok(rows)
}

//! A merge looked over before it is made: three versions of a table, and what became of each row.
ghost use Rattle.std.specs.Prelude.{◌≡◌};
ghost use Rattle.either_or_both.specs.Prelude.{IfOk, Rising, count_by, from_places, value_under};
ghost use Rattle.eob_joins.specs.Tables.{Tabulates};
ghost use Rattle.eob_joins.specs.Versions.{clashes};

use eob_joins::{Verdict, Versions, join_versions, judge, law_versions};
use std::alloc::{AllocError, Global};

/// Each key of any version once, in order, with its values in the three.
pub fn side_by_side<K: Ord + Drop, V: Drop>(
    alloc: Global,
    base: Vec<(K, V)>,
    ours: Vec<(K, V)>,
    theirs: Vec<(K, V)>,
) -> Result<Vec<(K, Versions<V>)>, AllocError>
    requires base { Rising K.cmp base.items }
    requires ours { Rising K.cmp ours.items }
    requires theirs { Rising K.cmp theirs.items }
    ensures { IfOk result (λ rows. Tabulates K.cmp rows.items
        (λ k. from_places (value_under K.cmp base.items k)
        (from_places (value_under K.cmp ours.items k) (value_under K.cmp theirs.items k)))) }
{
    law_versions::<K, V>();
    let rows = join_versions(alloc, base, ours, theirs)?;
    Ok(rows)
}

/// Whether both sides changed a row, to values that are not equal.
pub fn is_disputed<V: Eq>(row: &Versions<V>) -> bool
    ensures { result ≡ clashes V.eq row.now }
{
    judge(row) == Verdict::Conflict
}

/// How many rows are disputed.
pub fn count_disputed<K, V: Eq>(rows: &[(K, Versions<V>)]) -> usize
    ensures { result ≡ count_by (λ row. clashes V.eq row.1) rows.now }
{
    rows.iter().filter(|row| is_disputed(&row.1)).count()
}

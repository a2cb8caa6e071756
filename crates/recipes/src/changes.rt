//! What changed between two versions of a table: the versions joined by key, and the rows counted by what became of them.
ghost use Rattle.std.specs.Prelude.{◌≡◌};
ghost use Rattle.either_or_both.specs.Prelude.{IfOk, IsJoin, count_by, is_none, left_place, right_place};
ghost use Rattle.recipes.specs.Cells.{changes, stays};

use either_or_both::EitherOrBoth;
use either_or_both::join::{law_sorted_rises, outer_join_lazily};
use std::alloc::{AllocError, Global};
use std::collections::BTreeMap;

/// How many keys were added, removed, changed and left as they were.
#[derive(Debug, Clone, Copy, PartialEq, Eq)]
pub struct Counts {
    pub added: usize,
    pub removed: usize,
    pub changed: usize,
    pub same: usize,
}

/// Each key of either version once, in order, with its value before and its value after.
pub fn compare<K: Ord + Drop, V: Drop>(
    alloc: Global,
    old: BTreeMap<K, V>,
    new: BTreeMap<K, V>,
) -> Result<Vec<(K, EitherOrBoth<V, V>)>, AllocError>
    ensures { IfOk result (λ rows. IsJoin K.cmp old.entries new.entries rows.items) }
{
    law_sorted_rises::<K, V>();
    outer_join_lazily(old, new).collect(alloc)
}

/// Whether a key is new.
pub fn is_added<V>(cells: &EitherOrBoth<V, V>) -> bool
    ensures { result ≡ is_none (left_place cells.now) }
{
    cells.is_right()
}

/// Whether a key is gone.
pub fn is_removed<V>(cells: &EitherOrBoth<V, V>) -> bool
    ensures { result ≡ is_none (right_place cells.now) }
{
    cells.is_left()
}

/// Whether a key has another value than before.
pub fn is_changed<V: Eq>(cells: &EitherOrBoth<V, V>) -> bool
    ensures { result ≡ changes V.eq cells.now }
{
    cells.as_ref().is_both_and(|old, new| old != new)
}

/// Whether a key has the value that it had.
pub fn is_same<V: Eq>(cells: &EitherOrBoth<V, V>) -> bool
    ensures { result ≡ stays V.eq cells.now }
{
    cells.as_ref().is_both_and(|old, new| old == new)
}

/// How many rows are new.
pub fn count_added<K, V>(rows: &[(K, EitherOrBoth<V, V>)]) -> usize
    ensures { result ≡ count_by (λ row. is_none (left_place row.1)) rows.now }
{
    rows.iter().filter(|row| is_added(&row.1)).count()
}

/// How many rows are gone.
pub fn count_removed<K, V>(rows: &[(K, EitherOrBoth<V, V>)]) -> usize
    ensures { result ≡ count_by (λ row. is_none (right_place row.1)) rows.now }
{
    rows.iter().filter(|row| is_removed(&row.1)).count()
}

/// How many rows have another value than before.
pub fn count_changed<K, V: Eq>(rows: &[(K, EitherOrBoth<V, V>)]) -> usize
    ensures { result ≡ count_by (λ row. changes V.eq row.1) rows.now }
{
    rows.iter().filter(|row| is_changed(&row.1)).count()
}

/// How many rows have the value that they had.
pub fn count_same<K, V: Eq>(rows: &[(K, EitherOrBoth<V, V>)]) -> usize
    ensures { result ≡ count_by (λ row. stays V.eq row.1) rows.now }
{
    rows.iter().filter(|row| is_same(&row.1)).count()
}

/// The counts of the rows.
pub fn count_changes<K, V: Eq>(rows: &[(K, EitherOrBoth<V, V>)]) -> Counts
    ensures added { result.added ≡ count_by (λ row. is_none (left_place row.1)) rows.now }
    ensures removed { result.removed ≡ count_by (λ row. is_none (right_place row.1)) rows.now }
    ensures changed { result.changed ≡ count_by (λ row. changes V.eq row.1) rows.now }
    ensures same { result.same ≡ count_by (λ row. stays V.eq row.1) rows.now }
{
    Counts {
        added: count_added(rows),
        removed: count_removed(rows),
        changed: count_changed(rows),
        same: count_same(rows),
    }
}

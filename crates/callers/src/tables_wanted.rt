//! What users of joined tables wanted to know of them: by a law that is called with the rows, or before them. A join of one's own stands
//! in a function that says what its rows are; who calls that function calls the law.
ghost use Rattle.std.specs.Prelude.{◌≡◌, ◌+◌, [], ◌∷◌, IfOk, Some, map};
ghost use Rattle.std.specs.Prelude.{option_map, sum_by, true};
ghost use Rattle.std.specs.Option.{option_eq};
ghost use Rattle.either_or_both.specs.Places.{left_place};
ghost use Rattle.either_or_both.specs.Order.{places_eq};
ghost use Rattle.either_or_both.specs.Join.{Rising, value_under};
ghost use Rattle.eob_joins.specs.Laws.{added, doubled};
ghost use Rattle.eob_joins.specs.Layers.{topmost};
ghost use Rattle.eob_joins.specs.Lookup.{shown_lookup, with_found};
ghost use Rattle.eob_joins.specs.Tables.{AlikeRows, IsKeptOfJoin, SameRows};

use either_or_both::EitherOrBoth;
use either_or_both::join::{outer_join, outer_join_lazily};
use eob_joins::{
    Layered, Lookup, LookupRow, apply, diff, law_changed_alike, law_join_copy, law_join_self_rows,
    law_join_sum, law_kept_join, lookup_join, overlay_maps,
};
use std::alloc::{AllocError, Global};
use std::collections::BTreeMap;

// The row of a left value.
fn row_of<K: Drop>(row: (K, EitherOrBoth<u32, u32>)) -> Option<(K, u32)>
    ensures { result ≡ option_map (λ n. (row.0, n)) (left_place row.1) }
{
    let (key, cells) = row;
    match cells {
        EitherOrBoth::Left(a) => Some((key, a)),
        EitherOrBoth::Both(a, _b) => Some((key, a)),
        EitherOrBoth::Right(_b) => None,
    }
}

// The left values of a join.
fn rows_of<K: Ord + Drop>(
    alloc: Global,
    left: Vec<(K, u32)>,
    right: Vec<(K, u32)>,
) -> Result<Vec<(K, u32)>, AllocError>
    requires left { Rising K.cmp left.items }
    requires right { Rising K.cmp right.items }
    ensures { IfOk result (λ rows. IsKeptOfJoin K.cmp left_place left.items right.items rows.items) }
{
    outer_join_lazily(left, right)
        .filter_map(row_of)
        .collect(alloc)
}

/// The keys of what is kept of a join are strictly increasing, so that it may be joined again.
pub fn kept_rises<K: Ord + Drop>(
    alloc: Global,
    left: Vec<(K, u32)>,
    right: Vec<(K, u32)>,
) -> Result<Vec<(K, u32)>, AllocError>
    requires left { Rising K.cmp left.items }
    requires right { Rising K.cmp right.items }
    ensures { IfOk result (λ rows. Rising K.cmp rows.items) }
{
    let rows = rows_of(alloc, left, right)?;
    law_kept_join::<K, u32, u32, u32>(&rows);
    Ok(rows)
}

// A row of a join of counts, with its counts added.
fn total_row<K: Drop>(row: (K, EitherOrBoth<u32, u32>)) -> Option<(K, u64)>
    ensures { result ≡ Some (row.0, added row.1) }
{
    let (key, counts) = row;
    let (left, right) = counts.or_default();
    Some((key, u64::from(left) + u64::from(right)))
}

// The counts of two tables, added key by key.
fn total_rows<K: Ord + Drop>(
    alloc: Global,
    left: Vec<(K, u32)>,
    right: Vec<(K, u32)>,
) -> Result<Vec<(K, u64)>, AllocError>
    requires left { Rising K.cmp left.items }
    requires right { Rising K.cmp right.items }
    ensures { IfOk result (λ rows. IsKeptOfJoin K.cmp (λ v. Some (added v))
        left.items right.items rows.items) }
{
    outer_join_lazily(left, right)
        .filter_map(total_row)
        .collect(alloc)
}

/// The counts of two tables, added key by key: no count is lost.
pub fn totals<K: Ord + Drop>(
    alloc: Global,
    left: Vec<(K, u32)>,
    right: Vec<(K, u32)>,
) -> Result<Vec<(K, u64)>, AllocError>
    requires left { Rising K.cmp left.items }
    requires right { Rising K.cmp right.items }
    ensures { IfOk result (λ rows. sum_by (λ z. z.1) rows.items
        ≡ sum_by (λ z. z.1) left.items + sum_by (λ z. z.1) right.items) }
{
    law_join_sum::<K>();
    let rows = total_rows(alloc, left, right)?;
    Ok(rows)
}

/// A table compared with itself, of any keys.
pub fn beside_itself<K: Ord + Drop, V: Drop>(
    alloc: Global,
    table: Vec<(K, V)>,
    same: Vec<(K, V)>,
) -> Result<Vec<(K, EitherOrBoth<V, V>)>, AllocError>
    requires same { same.items ≡ table.items }
    requires table { Rising K.cmp table.items }
    ensures { IfOk result (λ rows. SameRows K.cmp rows.items (doubled table.items)) }
{
    law_join_self_rows::<K, V>();
    Ok(outer_join(alloc, table, same)?)
}

/// A table compared with one that counts as equal, such as a clone of it.
pub fn beside_a_copy<K: Ord + Drop, V: Eq + Drop>(
    alloc: Global,
    table: Vec<(K, V)>,
    copy: Vec<(K, V)>,
) -> Result<Vec<(K, EitherOrBoth<V, V>)>, AllocError>
    requires table { Rising K.cmp table.items }
    requires copy { Rising K.cmp copy.items }
    requires alike { AlikeRows K.cmp V.eq table.items copy.items }
    ensures { IfOk result (λ rows. AlikeRows K.cmp (places_eq V.eq V.eq) rows.items (doubled table.items)) }
{
    law_join_copy::<K, V>();
    Ok(outer_join(alloc, table, copy)?)
}

/// The changes from one version of a table to another, made to the first: under each key stands what counts as equal to what the second
/// has there.
pub fn patched_texts<K: Ord + Drop>(
    alloc: Global,
    old: Vec<(K, String)>,
    copy: Vec<(K, String)>,
    new: Vec<(K, String)>,
) -> Result<Vec<(K, String)>, AllocError>
    requires copy { copy.items ≡ old.items }
    requires old { Rising K.cmp old.items }
    requires new { Rising K.cmp new.items }
    ensures { IfOk result (λ rows. (k : _)
        → option_eq ⟦<String as PartialEq>⟧.eq (value_under K.cmp rows.items k)
        (value_under K.cmp new.items k) ≡ true) }
{
    law_changed_alike::<String>();
    let changes = diff(alloc, old, new)?;
    let rows = apply(alloc, copy, changes)?;
    Ok(rows)
}

/// Each item of a list with what a map has under its key, of any map.
pub fn rows_with_values<'a, K: Drop, A: Drop, R: Lookup<K>>(
    alloc: Global,
    left: Vec<(K, A)>,
    right: &'a R,
) -> Result<Vec<LookupRow<'a, K, A, R::Value>>, AllocError>
    ensures { IfOk result (λ rows. map shown_lookup rows.items
        ≡ map (with_found (R.finds right.now)) left.items) }
{
    lookup_join(alloc, left, right)
}

/// What three layers hold under each key, and which of them.
pub fn three_layers<K: Ord + Drop, V: Drop>(
    alloc: Global,
    lowest: BTreeMap<K, V>,
    middle: BTreeMap<K, V>,
    highest: BTreeMap<K, V>,
) -> Result<Vec<(K, Layered<V>)>, AllocError>
    ensures { IfOk result (λ rows. (k : _) → value_under K.cmp rows.items k
        ≡ topmost K.cmp 0 (lowest ∷ middle ∷ highest ∷ []) k) }
{
    let layers = vec![in alloc; lowest, middle, highest]?;
    let rows = overlay_maps(alloc, layers)?;
    Ok(rows)
}

//! Ordered maps joined and turned into lists and back, and what a law tells by look-ups of rows that were kept. What a recipe shows of
//! `eob_maps` and `eob_sums` has no caller here.
ghost use Rattle.std.specs.Prelude.{◌≡◌, IfOk, Some, option_and_then, option_map};
ghost use Rattle.std.specs.BTreeMap.{get};
ghost use Rattle.std.specs.Option.{option_or, option_zip};
ghost use Rattle.either_or_both.specs.Join.{Rising, value_under};
ghost use Rattle.either_or_both.specs.JoinLaws.{overlaid};
ghost use Rattle.either_or_both.specs.Places.{left_place};
ghost use Rattle.eob_joins.specs.Tables.{IsKeptOfJoin, kept};

use either_or_both::EitherOrBoth;
use either_or_both::join::outer_join_lazily;
use eob_maps::{inner_join_maps, into_map, into_rows};
use eob_sums::{law_kept_overlaid, law_kept_rows};
use std::alloc::{AllocError, Global};
use std::collections::BTreeMap;

/// What three maps have under one key.
pub fn shared_by_three<K: Ord + Drop, A: Drop, B: Drop, C: Drop>(
    alloc: Global,
    first: BTreeMap<K, A>,
    second: BTreeMap<K, B>,
    third: BTreeMap<K, C>,
) -> Result<BTreeMap<K, ((A, B), C)>, AllocError>
    ensures { IfOk result (λ rows. (k : _) → get K.cmp rows k
        ≡ option_zip (option_zip (get K.cmp first k) (get K.cmp second k)) (get K.cmp third k)) }
{
    let pairs = inner_join_maps(alloc, first, second)?;
    let rows = inner_join_maps(alloc, pairs, third)?;
    Ok(rows)
}

/// A list whose keys strictly increase as a map, known by look-ups.
pub fn map_of_rows<K: Ord + Drop, V: Drop>(
    alloc: Global,
    rows: Vec<(K, V)>,
) -> Result<BTreeMap<K, V>, AllocError>
    requires { Rising K.cmp rows.items }
    ensures { IfOk result (λ map. (k : _) → get K.cmp map k ≡ value_under K.cmp rows.items k) }
{
    let map = into_map(alloc, rows)?;
    Ok(map)
}

/// A map as a list and as a map again: the same entries.
pub fn there_and_back<K: Ord + Drop, V: Drop>(
    alloc: Global,
    map: BTreeMap<K, V>,
) -> Result<BTreeMap<K, V>, AllocError>
    ensures { IfOk result (λ back. back.entries ≡ map.entries) }
{
    let rows = into_rows(alloc, map)?;
    let back = into_map(alloc, rows)?;
    Ok(back)
}

// The row of a left value.
fn left_row<K: Drop>(row: (K, EitherOrBoth<u32, u32>)) -> Option<(K, u32)>
    ensures { result ≡ option_map (λ n. (row.0, n)) (left_place row.1) }
{
    let (key, cells) = row;
    match cells {
        EitherOrBoth::Left(a) => Some((key, a)),
        EitherOrBoth::Both(a, _b) => Some((key, a)),
        EitherOrBoth::Right(_b) => None,
    }
}

// The left values of rows.
fn left_rows<K: Drop>(
    alloc: Global,
    rows: Vec<(K, EitherOrBoth<u32, u32>)>,
) -> Result<Vec<(K, u32)>, AllocError>
    ensures { IfOk result (λ lefts. lefts.items ≡ kept left_place rows.items) }
{
    rows.into_iter().filter_map(left_row).collect(alloc)
}

/// The left values of any rows whose keys strictly increase, by look-ups.
pub fn lefts_by_key<K: Ord + Drop>(
    alloc: Global,
    rows: Vec<(K, EitherOrBoth<u32, u32>)>,
) -> Result<Vec<(K, u32)>, AllocError>
    requires { Rising K.cmp rows.items }
    ensures { IfOk result (λ lefts. (k : _) → value_under K.cmp lefts.items k
        ≡ option_and_then left_place (value_under K.cmp rows.items k)) }
{
    let lefts = left_rows(alloc, rows)?;
    law_kept_rows::<K, EitherOrBoth<u32, u32>, u32>(&lefts);
    Ok(lefts)
}

// The upper value of a row.
fn upper_row<K: Drop, V: Drop>(row: (K, EitherOrBoth<V, V>)) -> Option<(K, V)>
    ensures { result ≡ option_map (λ v. (row.0, v)) (Some (overlaid row.1)) }
{
    let (key, values) = row;
    Some((key, values.reduce_right(|below| below)))
}

// The upper value of each row of a join.
fn upper_rows<K: Ord + Drop, V: Drop>(
    alloc: Global,
    base: Vec<(K, V)>,
    over: Vec<(K, V)>,
) -> Result<Vec<(K, V)>, AllocError>
    requires base { Rising K.cmp base.items }
    requires over { Rising K.cmp over.items }
    ensures { IfOk result (λ rows. IsKeptOfJoin K.cmp (λ v. Some (overlaid v))
        base.items over.items rows.items) }
{
    outer_join_lazily(base, over)
        .filter_map(upper_row)
        .collect(alloc)
}

/// A list over another, by look-ups.
pub fn over_by_key<K: Ord + Drop, V: Drop>(
    alloc: Global,
    base: Vec<(K, V)>,
    over: Vec<(K, V)>,
) -> Result<Vec<(K, V)>, AllocError>
    requires base { Rising K.cmp base.items }
    requires over { Rising K.cmp over.items }
    ensures { IfOk result (λ rows. (k : _) → value_under K.cmp rows.items k
        ≡ option_or (value_under K.cmp over.items k) (value_under K.cmp base.items k)) }
{
    let rows = upper_rows(alloc, base, over)?;
    law_kept_overlaid(&rows);
    Ok(rows)
}

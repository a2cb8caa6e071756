//! The example of the README: two tables joined, a layered setting, a batch split in two, and two lists side by side.
ghost use Rattle.std.specs.Prelude.{◌≡◌, ◌↔◌};
ghost use Rattle.either_or_both.specs.Prelude.{IfOk, IfSome, IsJoin, IsSome, Rising, aligned, filter_map};
ghost use Rattle.either_or_both.specs.Prelude.{map_places, pair_of, result_err, result_ok, unwrap_or};

use either_or_both::join::{is_rising, law_sorted_rises, outer_join, outer_join_lazily};
use either_or_both::laws::law_results;
use either_or_both::{Either, EitherOrBoth};
use std::alloc::{AllocError, Global};
use std::collections::BTreeMap;

/// Two tables joined by key: each key of either table once, in order, with what each table has under it.
pub fn full_outer_join<K: Ord + Drop, A: Drop, B: Drop>(
    alloc: Global,
    left: BTreeMap<K, A>,
    right: BTreeMap<K, B>,
) -> Result<Vec<(K, EitherOrBoth<A, B>)>, AllocError>
    ensures { IfOk result (λ rows. IsJoin K.cmp left.entries right.entries rows.items) }
{
    law_sorted_rises::<K, A>();
    law_sorted_rises::<K, B>();
    outer_join_lazily(left, right).collect(alloc)
}

/// A port that the user may have set, over one that the site may have set.
pub fn port(site: Option<u16>, user: Option<u16>) -> u16
    ensures { result ≡ unwrap_or user (unwrap_or site 8080) }
{
    match EitherOrBoth::try_from((site, user)) {
        Ok(setting) => setting.reduce_right(|site| site),
        Err(_) => 8080,
    }
}

/// A batch split into its faults and its successes: exactly those, in order.
pub fn split<T: Drop, E: Drop>(
    alloc: Global,
    batch: Vec<Result<T, E>>,
) -> Result<EitherOrBoth<Vec<E>, Vec<T>>, AllocError>
    ensures { let faults = filter_map result_err batch.items in
        let good = filter_map result_ok batch.items in
        IfOk result (λ v. map_places (λ l. l.items) (λ r. r.items) v ≡ pair_of faults good) }
{
    law_results(&batch);
    batch.into_iter().map(Either::from).collect(alloc)
}

/// Two lists side by side: the longer one's rest stands alone.
pub fn side_by_side<T: Drop, U: Drop>(
    alloc: Global,
    left: Vec<T>,
    right: Vec<U>,
) -> Result<Vec<EitherOrBoth<T, U>>, AllocError>
    ensures { IfOk result (λ v. v.items ≡ aligned left.items right.items) }
{
    EitherOrBoth::Both(left, right)
        .into_iter_swap()
        .collect(alloc)
}

/// The same of two lists that may come in any order: None where the keys of one are not strictly increasing.
pub fn joined_if_rising<K: Ord + Drop, A: Drop, B: Drop>(
    alloc: Global,
    left: Vec<(K, A)>,
    right: Vec<(K, B)>,
) -> Result<Option<Vec<(K, EitherOrBoth<A, B>)>>, AllocError>
    ensures some { IfOk result (λ r. IfSome r (λ rows. IsJoin K.cmp left.items right.items rows.items)) }
    ensures none { IfOk result (λ r. IsSome r ↔ (Rising K.cmp left.items × Rising K.cmp right.items)) }
{
    if is_rising(&left) && is_rising(&right) {
        Ok(Some(outer_join(alloc, left, right)?))
    } else {
        Ok(None)
    }
}

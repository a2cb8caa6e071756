//! Joins of two slices, and of two maps, that stay as they are, row by row: collected, counted, looked for, and taken by a loop. What a
//! caller makes of all rows that were taken one by one wants a short proof beside a loop's invariant, since the search does not find that
//! the rows which came are all of the join: each such caller has one under `proofs/rows`.
ghost use Rattle.std.specs.Prelude.{◌≡◌, ◌+◌, ◌<◌, ◌≤◌, ◌^◌, IfOk, IfSome, length, map};
ghost use Rattle.std.specs.Ordering.{nat_cmp};
ghost use Rattle.either_or_both.specs.Join.{IsJoin, Rising};
ghost use Rattle.either_or_both.specs.JoinLaws.{deref_joined, shared_keys};
ghost use Rattle.either_or_both.specs.OuterJoin.{BeginsJoin, ShowsPlaces};

use either_or_both::EitherOrBoth;
use either_or_both::join::{law_first_call, outer_join_maps, outer_join_slices};
use std::alloc::{AllocError, Global};
use std::collections::BTreeMap;

/// The join of two slices that stay as they are.
pub fn walk_of_slices<'a, K: Ord, A, B>(
    alloc: Global,
    left: &'a [(K, A)],
    right: &'a [(K, B)],
) -> Result<Vec<(&'a K, EitherOrBoth<&'a A, &'a B>)>, AllocError>
    requires left { Rising K.cmp left.now }
    requires right { Rising K.cmp right.now }
    ensures { IfOk result (λ joined. IsJoin K.cmp left.now right.now (map deref_joined joined.items)) }
{
    outer_join_slices(left, right).collect(alloc)
}

/// How many rows the join of two slices has: those of both, less the keys that they share.
pub fn count_rows<K: Ord, A, B>(left: &[(K, A)], right: &[(K, B)]) -> usize
    requires left { Rising K.cmp left.now }
    requires right { Rising K.cmp right.now }
    requires fits { length left.now + length right.now < 2 ^ 64 }
    ensures { result + shared_keys K.cmp left.now right.now ≡ length left.now + length right.now }
{
    outer_join_slices(left, right).count()
}

/// How many keys two maps have, each once: those of both, less the ones that they share.
pub fn count_keys(left: &BTreeMap<u32, String>, right: &BTreeMap<u32, u8>) -> usize
    requires { length left.now.entries + length right.now.entries < 2 ^ 64 }
    ensures { result + shared_keys nat_cmp left.now.entries right.now.entries
        ≡ length left.now.entries + length right.now.entries }
{
    outer_join_maps(left, right).count()
}

/// How many rows the join of two tables has that are written out. The attribute opens `Rising`, which is then found of them.
#[tactic(auto, unfolding(eob_lists::specs::Join::Rising))]
pub fn count_written_rows() -> usize
    ensures { result ≤ 3 }
{
    let left = [(1, 'a'), (3, 'b')];
    let right = [(3, 'y')];
    outer_join_slices(&left, &right).count()
}

/// The first row whose key stands in both slices.
pub fn first_shared<'a, K: Ord, A, B>(
    left: &'a [(K, A)],
    right: &'a [(K, B)],
) -> Option<(&'a K, EitherOrBoth<&'a A, &'a B>)>
    requires left { Rising K.cmp left.now }
    requires right { Rising K.cmp right.now }
    ensures { IfSome result (ShowsPlaces K.cmp left.now right.now) }
{
    outer_join_slices(left, right).find(|row| row.1.is_both())
}

/// The row at place `n`, where there are so many: the first one with `n` as 0.
pub fn nth_row<'a, K: Ord, A, B>(
    left: &'a [(K, A)],
    right: &'a [(K, B)],
    n: usize,
) -> Option<(&'a K, EitherOrBoth<&'a A, &'a B>)>
    requires left { Rising K.cmp left.now }
    requires right { Rising K.cmp right.now }
    ensures { IfSome result (ShowsPlaces K.cmp left.now right.now) }
{
    outer_join_slices(left, right).nth(n)
}

/// The first row, by `next`.
pub fn first_row<'a, K: Ord, A, B>(
    left: &'a [(K, A)],
    right: &'a [(K, B)],
) -> Option<(&'a K, EitherOrBoth<&'a A, &'a B>)>
    requires left { Rising K.cmp left.now }
    requires right { Rising K.cmp right.now }
    ensures { IfSome result (ShowsPlaces K.cmp left.now right.now) }
{
    let mut rows = outer_join_slices(left, right);
    law_first_call(&rows);
    rows.next()
}

/// The first `n` rows, or all where there are no more: a beginning of the join.
pub fn first_rows<'a, K: Ord, A, B>(
    alloc: Global,
    left: &'a [(K, A)],
    right: &'a [(K, B)],
    n: usize,
) -> Result<Vec<(&'a K, EitherOrBoth<&'a A, &'a B>)>, AllocError>
    requires left { Rising K.cmp left.now }
    requires right { Rising K.cmp right.now }
    ensures begins { IfOk result (λ rows. BeginsJoin K.cmp left.now right.now (map deref_joined rows.items)) }
    ensures most { IfOk result (λ rows. length rows.items ≤ n) }
{
    outer_join_slices(left, right).take(n).collect(alloc)
}

/// The rows, pushed by a loop.
pub fn push_rows<'a, K: Ord, A, B>(
    alloc: Global,
    left: &'a [(K, A)],
    right: &'a [(K, B)],
) -> Result<Vec<(&'a K, EitherOrBoth<&'a A, &'a B>)>, AllocError>
    requires left { Rising K.cmp left.now }
    requires right { Rising K.cmp right.now }
    ensures { IfOk result (λ rows. IsJoin K.cmp left.now right.now (map deref_joined rows.items)) }
{
    let mut rows = Vec::new(alloc);
    for row in outer_join_slices(left, right) {
        rows.push(row)?;
    }
    Ok(rows)
}

/// The same by `filter`.
pub fn count_shared_by_filter<K: Ord, A, B>(left: &[(K, A)], right: &[(K, B)]) -> usize
    requires left { Rising K.cmp left.now }
    requires right { Rising K.cmp right.now }
    requires fits { length left.now + length right.now < 2 ^ 64 }
    ensures { result ≡ shared_keys K.cmp left.now right.now }
{
    outer_join_slices(left, right)
        .filter(|row| row.1.is_both())
        .count()
}

//! What is read off the join of two lists whose keys strictly increase: inner, left, right, semi and anti join. Each is one line over the
//! lazy full outer join, and says by look-ups what it returns.
ghost use Rattle.std.specs.Prelude.{◌≡◌, IfOk, option_map};
ghost use Rattle.eob_lists.specs.Join.{Rising};
ghost use Rattle.eob_joins.specs.Tables.{IsAntiJoin, IsInnerJoin, IsKeptOfJoin, IsLeftJoin, IsRightJoin};
ghost use Rattle.eob_joins.specs.Tables.{IsSemiJoin};
ghost use Rattle.eob_joins.specs.Tables.{both_places, lone_left, paired_left, paired_right, shared_left};

use crate::kept::kept_rows;
use eob_lists::EitherOrBoth;
use std::alloc::{AllocError, Allocator};

/// Returns the inner join of two lists: each key that both lists have, in order, with both values. Takes one comparison for each key of
/// either list at most.
///
/// The caller must prove that the keys strictly increase; see [`is_rising`](eob_lists::join::is_rising).
///
/// # Errors
///
/// `AllocError` where a request for memory was refused: then both lists are dropped.
///
/// # Examples
///
/// ```
/// let left = vec![in alloc; (1, 'a'), (3, 'b')]?;
/// let right = vec![in alloc; (2, 'x'), (3, 'y')]?;
/// assert!(rt; is_rising(&left) && is_rising(&right));
/// let rows = vec![in alloc; (3, ('b', 'y'))]?;
/// assert_eq!(rt; inner_join(alloc, left, right)?, rows);
/// ```
pub fn inner_join<K: Ord + Drop, A: Drop, B: Drop, M: Allocator>(
    alloc: M,
    left: Vec<(K, A), M>,
    right: Vec<(K, B), M>,
) -> Result<Vec<(K, (A, B)), M>, AllocError>
    requires left { Rising K.cmp left.items }
    requires right { Rising K.cmp right.items }
    ensures kept { IfOk result (λ rows. IsKeptOfJoin K.cmp both_places left.items right.items rows.items) }
    ensures values { IfOk result (λ rows. IsInnerJoin K.cmp left.items right.items rows.items) }
{
    let rows = both_rows(alloc, left, right)?;
    Ok(rows)
}

/// Returns the left join of two lists: each key of the left list, in order, with its value and the right list's, if there is one. Takes
/// one comparison for each key of either list at most.
///
/// The caller must prove that the keys strictly increase, so that each list has a key once; see
/// [`is_rising`](eob_lists::join::is_rising). Where the keys of the left list repeat, as those of orders do,
/// [`lookup_join`](crate::lookup_join) gives each of its items with what a map has; where the keys of both do,
/// [`group_join`](crate::group_join) gives all values of each key.
///
/// # Errors
///
/// `AllocError` where a request for memory was refused: then both lists are dropped.
///
/// # Examples
///
/// ```
/// let left = vec![in alloc; (1, 'a'), (3, 'b')]?;
/// let right = vec![in alloc; (2, 'x'), (3, 'y')]?;
/// assert!(rt; is_rising(&left) && is_rising(&right));
/// let rows = vec![in alloc; (1, ('a', None)), (3, ('b', Some('y')))]?;
/// assert_eq!(rt; left_join(alloc, left, right)?, rows);
/// ```
pub fn left_join<K: Ord + Drop, A: Drop, B: Drop, M: Allocator>(
    alloc: M,
    left: Vec<(K, A), M>,
    right: Vec<(K, B), M>,
) -> Result<Vec<(K, (A, Option<B>)), M>, AllocError>
    requires left { Rising K.cmp left.items }
    requires right { Rising K.cmp right.items }
    ensures kept { IfOk result (λ rows. IsKeptOfJoin K.cmp paired_left left.items right.items rows.items) }
    ensures values { IfOk result (λ rows. IsLeftJoin K.cmp left.items right.items rows.items) }
{
    let rows = left_rows(alloc, left, right)?;
    Ok(rows)
}

/// Returns the right join of two lists: each key of the right list, in order, with the left list's value, if there is one, and its own.
/// Takes one comparison for each key of either list at most.
///
/// The caller must prove that the keys strictly increase, so that each list has a key once; see
/// [`is_rising`](eob_lists::join::is_rising). Where the keys of the right list repeat, [`lookup_join`](crate::lookup_join) gives each of
/// its items with what a map has; where the keys of both do, [`group_join`](crate::group_join) gives all values of each key.
///
/// # Errors
///
/// `AllocError` where a request for memory was refused: then both lists are dropped.
///
/// # Examples
///
/// ```
/// let left = vec![in alloc; (1, 'a'), (3, 'b')]?;
/// let right = vec![in alloc; (2, 'x'), (3, 'y')]?;
/// assert!(rt; is_rising(&left) && is_rising(&right));
/// let rows = vec![in alloc; (2, (None, 'x')), (3, (Some('b'), 'y'))]?;
/// assert_eq!(rt; right_join(alloc, left, right)?, rows);
/// ```
pub fn right_join<K: Ord + Drop, A: Drop, B: Drop, M: Allocator>(
    alloc: M,
    left: Vec<(K, A), M>,
    right: Vec<(K, B), M>,
) -> Result<Vec<(K, (Option<A>, B)), M>, AllocError>
    requires left { Rising K.cmp left.items }
    requires right { Rising K.cmp right.items }
    ensures kept { IfOk result (λ rows. IsKeptOfJoin K.cmp paired_right left.items right.items rows.items) }
    ensures values { IfOk result (λ rows. IsRightJoin K.cmp left.items right.items rows.items) }
{
    let rows = right_rows(alloc, left, right)?;
    Ok(rows)
}

/// Returns the semi join of two lists: each key of the left list that the right list has too, in order, with its left value. Takes one
/// comparison for each key of either list at most.
///
/// The caller must prove that the keys strictly increase; see [`is_rising`](eob_lists::join::is_rising).
///
/// # Errors
///
/// `AllocError` where a request for memory was refused: then both lists are dropped.
///
/// # Examples
///
/// ```
/// let left = vec![in alloc; (1, 'a'), (3, 'b')]?;
/// let right = vec![in alloc; (2, 'x'), (3, 'y')]?;
/// assert!(rt; is_rising(&left) && is_rising(&right));
/// let rows = vec![in alloc; (3, 'b')]?;
/// assert_eq!(rt; semi_join(alloc, left, right)?, rows);
/// ```
pub fn semi_join<K: Ord + Drop, A: Drop, B: Drop, M: Allocator>(
    alloc: M,
    left: Vec<(K, A), M>,
    right: Vec<(K, B), M>,
) -> Result<Vec<(K, A), M>, AllocError>
    requires left { Rising K.cmp left.items }
    requires right { Rising K.cmp right.items }
    ensures kept { IfOk result (λ rows. IsKeptOfJoin K.cmp shared_left left.items right.items rows.items) }
    ensures values { IfOk result (λ rows. IsSemiJoin K.cmp left.items right.items rows.items) }
{
    let rows = shared_rows(alloc, left, right)?;
    Ok(rows)
}

/// Returns the anti join of two lists: each key of the left list that the right list lacks, in order, with its value. Takes one
/// comparison for each key of either list at most.
///
/// The caller must prove that the keys strictly increase; see [`is_rising`](eob_lists::join::is_rising).
///
/// # Errors
///
/// `AllocError` where a request for memory was refused: then both lists are dropped.
///
/// # Examples
///
/// ```
/// let left = vec![in alloc; (1, 'a'), (3, 'b')]?;
/// let right = vec![in alloc; (2, 'x'), (3, 'y')]?;
/// assert!(rt; is_rising(&left) && is_rising(&right));
/// let rows = vec![in alloc; (1, 'a')]?;
/// assert_eq!(rt; anti_join(alloc, left, right)?, rows);
/// ```
pub fn anti_join<K: Ord + Drop, A: Drop, B: Drop, M: Allocator>(
    alloc: M,
    left: Vec<(K, A), M>,
    right: Vec<(K, B), M>,
) -> Result<Vec<(K, A), M>, AllocError>
    requires left { Rising K.cmp left.items }
    requires right { Rising K.cmp right.items }
    ensures kept { IfOk result (λ rows. IsKeptOfJoin K.cmp lone_left left.items right.items rows.items) }
    ensures values { IfOk result (λ rows. IsAntiJoin K.cmp left.items right.items rows.items) }
{
    let rows = lone_rows(alloc, left, right)?;
    Ok(rows)
}

// The rows of both lists, off the lazy join.
fn both_rows<K: Ord + Drop, A: Drop, B: Drop, M: Allocator>(
    alloc: M,
    left: Vec<(K, A), M>,
    right: Vec<(K, B), M>,
) -> Result<Vec<(K, (A, B)), M>, AllocError>
    requires left { Rising K.cmp left.items }
    requires right { Rising K.cmp right.items }
    ensures { IfOk result (λ rows. IsKeptOfJoin K.cmp both_places left.items right.items rows.items) }
{
    kept_rows(alloc, left, right, in_both)
}

// The rows of the left list, off the lazy join.
fn left_rows<K: Ord + Drop, A: Drop, B: Drop, M: Allocator>(
    alloc: M,
    left: Vec<(K, A), M>,
    right: Vec<(K, B), M>,
) -> Result<Vec<(K, (A, Option<B>)), M>, AllocError>
    requires left { Rising K.cmp left.items }
    requires right { Rising K.cmp right.items }
    ensures { IfOk result (λ rows. IsKeptOfJoin K.cmp paired_left left.items right.items rows.items) }
{
    kept_rows(alloc, left, right, of_left)
}

// The rows of the right list, off the lazy join.
fn right_rows<K: Ord + Drop, A: Drop, B: Drop, M: Allocator>(
    alloc: M,
    left: Vec<(K, A), M>,
    right: Vec<(K, B), M>,
) -> Result<Vec<(K, (Option<A>, B)), M>, AllocError>
    requires left { Rising K.cmp left.items }
    requires right { Rising K.cmp right.items }
    ensures { IfOk result (λ rows. IsKeptOfJoin K.cmp paired_right left.items right.items rows.items) }
{
    kept_rows(alloc, left, right, of_right)
}

// The left values of the rows of both lists, off the lazy join.
fn shared_rows<K: Ord + Drop, A: Drop, B: Drop, M: Allocator>(
    alloc: M,
    left: Vec<(K, A), M>,
    right: Vec<(K, B), M>,
) -> Result<Vec<(K, A), M>, AllocError>
    requires left { Rising K.cmp left.items }
    requires right { Rising K.cmp right.items }
    ensures { IfOk result (λ rows. IsKeptOfJoin K.cmp shared_left left.items right.items rows.items) }
{
    kept_rows(alloc, left, right, shared)
}

// The rows of the left list alone, off the lazy join.
fn lone_rows<K: Ord + Drop, A: Drop, B: Drop, M: Allocator>(
    alloc: M,
    left: Vec<(K, A), M>,
    right: Vec<(K, B), M>,
) -> Result<Vec<(K, A), M>, AllocError>
    requires left { Rising K.cmp left.items }
    requires right { Rising K.cmp right.items }
    ensures { IfOk result (λ rows. IsKeptOfJoin K.cmp lone_left left.items right.items rows.items) }
{
    kept_rows(alloc, left, right, alone)
}

// A row of both lists.
fn in_both<K: Drop, A: Drop, B: Drop>(row: (K, EitherOrBoth<A, B>)) -> Option<(K, (A, B))>
    ensures { result ≡ option_map (λ w. (row.0, w)) (both_places row.1) }
{
    let (key, cells) = row;
    match cells.both() {
        Some(pair) => Some((key, pair)),
        None => None,
    }
}

// A row of the left list, with what the right one adds.
fn of_left<K: Drop, A: Drop, B: Drop>(row: (K, EitherOrBoth<A, B>)) -> Option<(K, (A, Option<B>))>
    ensures { result ≡ option_map (λ w. (row.0, w)) (paired_left row.1) }
{
    let (key, cells) = row;
    match cells {
        EitherOrBoth::Left(a) => Some((key, (a, None))),
        EitherOrBoth::Both(a, b) => Some((key, (a, Some(b)))),
        EitherOrBoth::Right(_b) => None,
    }
}

// A row of the right list, with what the left one adds.
fn of_right<K: Drop, A: Drop, B: Drop>(row: (K, EitherOrBoth<A, B>)) -> Option<(K, (Option<A>, B))>
    ensures { result ≡ option_map (λ w. (row.0, w)) (paired_right row.1) }
{
    let (key, cells) = row;
    match cells {
        EitherOrBoth::Left(_a) => None,
        EitherOrBoth::Both(a, b) => Some((key, (Some(a), b))),
        EitherOrBoth::Right(b) => Some((key, (None, b))),
    }
}

// A row of both lists, with its left value.
fn shared<K: Drop, A: Drop, B: Drop>(row: (K, EitherOrBoth<A, B>)) -> Option<(K, A)>
    ensures { result ≡ option_map (λ w. (row.0, w)) (shared_left row.1) }
{
    let (key, cells) = row;
    match cells {
        EitherOrBoth::Left(_a) => None,
        EitherOrBoth::Both(a, _b) => Some((key, a)),
        EitherOrBoth::Right(_b) => None,
    }
}

// A row of the left list alone.
fn alone<K: Drop, A: Drop, B: Drop>(row: (K, EitherOrBoth<A, B>)) -> Option<(K, A)>
    ensures { result ≡ option_map (λ w. (row.0, w)) (lone_left row.1) }
{
    let (key, cells) = row;
    match cells {
        EitherOrBoth::Left(a) => Some((key, a)),
        EitherOrBoth::Both(_a, _b) => None,
        EitherOrBoth::Right(_b) => None,
    }
}

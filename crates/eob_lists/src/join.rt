//! The full outer join by key of two lists of keyed pairs whose keys strictly increase: at once here, item by item in [`OuterJoin`].
//!
//! Each key of either list stands once in the join, in order, with the values that the two lists have under it. What follows of
//! every join stands in the functions `law_join_*`, which do nothing.
ghost use Rattle.std.specs.Prelude.{IfOk, IsTrue, ◌↔◌};
ghost use Rattle.eob_lists.specs.Join.{IsJoin, JoinTakes, Rising, SameKeys};
ghost use Rattle.eob_lists.specs.JoinLaws.{AllBoth, HasJoinCounts};

mod laws;
mod refs;
mod walk;

use crate::EitherOrBoth;
pub use laws::{
    law_begins_join, law_first_call, law_join_both, law_join_counts, law_join_flip,
    law_join_length, law_join_overlaid, law_join_places, law_join_sides, law_one_join, law_rising,
    law_rising_hash_map, law_rising_keys, law_rising_map, law_shown_join, law_shown_rises,
    law_sorted_rises,
};
pub use refs::{PairRefs, outer_join_maps, outer_join_refs, outer_join_slices};
use std::alloc::{AllocError, Allocator};
use std::cmp::Ordering;
use std::collections::VecDeque;
pub use walk::{JoinedPairs, OuterJoin, outer_join_lazily};

/// Returns `true` if each key is less than the next, which [`outer_join`] requires of both lists. Takes no memory, and at most one
/// comparison for each pair of neighbours.
///
/// # Examples
///
/// ```
/// assert!(rt; is_rising(&[(1, 'a'), (2, 'b')]));
/// assert!(rt; !is_rising(&[(1, 'a'), (1, 'b')]));
/// ```
pub fn is_rising<K: Ord, V>(list: &[(K, V)]) -> bool
    ensures { IsTrue result ↔ Rising K.cmp list.now }
{
    list.is_sorted_by(|pair, next| pair.0.cmp(&next.0).is_lt())
}

/// Returns the full outer join of two lists whose keys strictly increase: each key of either list once, in order, with the left list's
/// value as left place and the right list's as right place. Takes one comparison for each key of the join at most, and memory for as many
/// rows as both lists have pairs.
///
/// The caller must prove that the keys strictly increase; see [`is_rising`].
///
/// # Errors
///
/// `AllocError` where a request for memory was refused: then both lists are dropped.
///
/// # Examples
///
/// ```
/// let left = vec![in alloc; (1, 'a'), (3, 'b')]?;
/// let right = vec![in alloc; (2, 'x'), (3, 'y')]?;
/// let joined = vec![in alloc; (1, Left('a')), (2, Right('x')), (3, Both('b', 'y'))]?;
/// assert_eq!(rt; outer_join(alloc, left, right)?, joined);
/// ```
pub fn outer_join<K: Ord + Drop, A: Drop, B: Drop, M: Allocator>(
    alloc: M,
    left: Vec<(K, A), M>,
    right: Vec<(K, B), M>,
) -> Result<Vec<(K, EitherOrBoth<A, B>), M>, AllocError>
    requires left { Rising K.cmp left.items }
    requires right { Rising K.cmp right.items }
    ensures join { IfOk result (λ joined. IsJoin K.cmp left.items right.items joined.items) }
    ensures both { SameKeys K.cmp left.items right.items → IfOk result (λ joined. AllBoth joined.items) }
    ensures counts { IfOk result (λ joined. HasJoinCounts K.cmp left.items right.items joined.items) }
{
    // No join is longer than both lists together, so it never grows; growing would cost more than the room that stays.
    let mut joined = Vec::with_capacity(alloc, left.len().saturating_add(right.len()))?;
    // As queues the lists take no more memory, and give their first pairs one by one.
    let mut left = VecDeque::from_vec(left);
    let mut right = VecDeque::from_vec(right);
    while let Some(item) = take_first(&mut left, &mut right) {
        joined.push(item)?;
    }
    Ok(joined)
}

// Takes the first pair of the list whose first key is less, or both first pairs where their keys are equal.
#[inline(always)]
fn take_first<K: Ord + Drop, A: Drop, B: Drop, M: Allocator>(
    left: &mut VecDeque<(K, A), M>,
    right: &mut VecDeque<(K, B), M>,
) -> Option<(K, EitherOrBoth<A, B>)>
    ensures { JoinTakes K.cmp left.old.items right.old.items result left.new.items right.new.items }
{
    let order = match (left.front(), right.front()) {
        (Some(l), Some(r)) => l.0.cmp(&r.0),
        (Some(_), None) => Ordering::Less,
        (None, Some(_)) => Ordering::Greater,
        (None, None) => return None,
    };
    match order {
        Ordering::Less => {
            let (key, a) = left.pop_front()?;
            Some((key, EitherOrBoth::Left(a)))
        }
        Ordering::Equal => {
            let (key, a) = left.pop_front()?;
            let (_other, b) = right.pop_front()?;
            Some((key, EitherOrBoth::Both(a, b)))
        }
        Ordering::Greater => {
            let (key, b) = right.pop_front()?;
            Some((key, EitherOrBoth::Right(b)))
        }
    }
}

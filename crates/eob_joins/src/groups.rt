//! Tables whose keys repeat: the values of each key as one group, and the full outer join of two such tables by key.
//!
//! [`group_join_unordered`] takes tables in any order. [`group_join`] and [`group_by_key`] sort nothing: the caller
//! must prove that the keys are ordered, which [`is_ordered`] tests. Under a key the values stand in the order that they have in their
//! table.
ghost use Rattle.std.specs.Prelude.{◌≡◌, ◌∷◌, IsTrue, IfOk, OnOk, ◌↔◌, map};
ghost use Rattle.eob_lists.specs.Join.{Rising};
ghost use Rattle.eob_joins.specs.Groups.{AreGroups, HasGroupsOf, IsGroupJoin, Ordered, OrderedLaw, run_rest};
ghost use Rattle.eob_joins.specs.Groups.{run_values, shown_group, shown_row};

use eob_lists::EitherOrBoth;
use eob_lists::join::outer_join;
use std::alloc::{AllocError, Allocator, Global};
use std::collections::VecDeque;

/// A row of a group join: a key, and the values that each table has under it.
pub type GroupRow<K, A, B, M = Global> = (K, EitherOrBoth<Vec<A, M>, Vec<B, M>>);

/// Returns the full outer join of two tables in any order, whose keys may repeat: each key of either table once, in order, with all values
/// that the left table has under it as left place and those of the right table as right place. Under a key the values stand in the
/// order that they have in their table. Both tables are sorted by key first; of tables whose keys are ordered, [`group_join`] gives
/// the same rows without.
///
/// # Errors
///
/// `AllocError` where a request for memory was refused: then both tables are dropped.
///
/// # Examples
///
/// ```
/// let left = vec![in alloc; (3, 'c'), (1, 'b'), (1, 'a')]?;
/// let right = vec![in alloc; (2, 'y'), (1, 'x')]?;
/// let rows = group_join_unordered(alloc, left, right)?;
/// let text = format!(in alloc; "{rows:?}")?;
/// assert_eq!(rt; text.as_str(), "[(1, Both(['b', 'a'], ['x'])), (2, Right(['y'])), (3, Left(['c']))]");
/// ```
pub fn group_join_unordered<K: Ord + Drop, A: Drop, B: Drop, M: Allocator + Copy>(
    alloc: M,
    left: Vec<(K, A), M>,
    right: Vec<(K, B), M>,
) -> Result<Vec<GroupRow<K, A, B, M>, M>, AllocError>
    ensures { IfOk result (λ rows. IsGroupJoin K.cmp left.items right.items (map shown_row rows.items)) }
{
    let left = in_order(left)?;
    let right = in_order(right)?;
    let rows = group_join(alloc, left, right)?;
    Ok(rows)
}

/// Returns the full outer join of two tables whose keys are ordered and may repeat: each key of either table once, in order, with all
/// values that the left table has under it as left place and those of the right table as right place. Takes one vector for each group.
///
/// The caller must prove that the keys are ordered; see [`is_ordered`].
///
/// # Errors
///
/// `AllocError` where a request for memory was refused: then both tables are dropped.
///
/// # Examples
///
/// ```
/// let left = vec![in alloc; (1, 'a'), (1, 'b'), (3, 'c')]?;
/// let right = vec![in alloc; (1, 'x'), (2, 'y')]?;
/// assert!(rt; is_ordered(&left) && is_ordered(&right));
/// let rows = group_join(alloc, left, right)?;
/// let text = format!(in alloc; "{rows:?}")?;
/// assert_eq!(rt; text.as_str(), "[(1, Both(['a', 'b'], ['x'])), (2, Right(['y'])), (3, Left(['c']))]");
/// ```
pub fn group_join<K: Ord + Drop, A: Drop, B: Drop, M: Allocator + Copy>(
    alloc: M,
    left: Vec<(K, A), M>,
    right: Vec<(K, B), M>,
) -> Result<Vec<GroupRow<K, A, B, M>, M>, AllocError>
    requires left { Ordered K.cmp left.items }
    requires right { Ordered K.cmp right.items }
    ensures { IfOk result (λ rows. IsGroupJoin K.cmp left.items right.items (map shown_row rows.items)) }
{
    let left = group_by_key(alloc, left)?;
    let right = group_by_key(alloc, right)?;
    let rows = outer_join(alloc, left, right)?;
    Ok(rows)
}

/// Returns the groups of a table whose keys are ordered: each key once, in order, with all its values in theirs. Takes one comparison
/// for each pair, and one vector for each group.
///
/// The caller must prove that the keys are ordered; see [`is_ordered`].
///
/// # Errors
///
/// `AllocError` where a request for memory was refused: then the table is dropped.
///
/// # Examples
///
/// ```
/// let list = vec![in alloc; (1, 'a'), (1, 'b'), (3, 'c')]?;
/// assert!(rt; is_ordered(&list));
/// let groups = group_by_key(alloc, list)?;
/// let text = format!(in alloc; "{groups:?}")?;
/// assert_eq!(rt; text.as_str(), "[(1, ['a', 'b']), (3, ['c'])]");
/// ```
pub fn group_by_key<K: Ord + Drop, V: Drop, M: Allocator + Copy>(
    alloc: M,
    list: Vec<(K, V), M>,
) -> Result<Vec<(K, Vec<V, M>), M>, AllocError>
    requires { Ordered K.cmp list.items }
    ensures groups { IfOk result (λ groups. AreGroups K.cmp list.items (map shown_group groups.items)) }
    ensures rises { IfOk result (λ groups. Rising K.cmp groups.items) }
{
    let mut groups = Vec::new(alloc);
    // As a queue the table takes no more memory, and gives its first pairs one by one.
    let mut list = VecDeque::from_vec(list);
    'groups: loop {
        match list.pop_front() {
            Some((key, first)) => {
                let values = take_group(alloc, &key, first, &mut list)?;
                groups.push((key, values))?;
            }
            None => return Ok(groups),
        }
    }
}

/// Returns `true` if no key is less than the one before it, which [`group_join`] and [`group_by_key`] require. Takes no memory.
///
/// # Examples
///
/// ```
/// assert!(rt; is_ordered(&[(1, 'a'), (1, 'b'), (2, 'c')]));
/// assert!(rt; !is_ordered(&[(2, 'a'), (1, 'b')]));
/// ```
pub fn is_ordered<K: Ord, V>(list: &[(K, V)]) -> bool
    ensures { IsTrue result ↔ Ordered K.cmp list.now }
{
    list.is_sorted_by(|pair, next| !next.0.cmp(&pair.0).is_lt())
}

/// A list whose keys strictly increase is ordered.
///
/// Call it before [`group_join`] or [`group_by_key`] of such a list, as of the entries of an ordered map.
///
/// # Examples
///
/// ```
/// law_ordered_rises::<u32, char>();
/// let list = vec![in alloc; (1, 'a'), (2, 'b')]?;
/// assert!(rt; is_rising(&list));
/// let groups = vec![in alloc; (1, vec![in alloc; 'a']?), (2, vec![in alloc; 'b']?)]?;
/// assert_eq!(rt; group_by_key(alloc, list)?, groups);
/// ```
pub fn law_ordered_rises<K: Ord, V>()
    ensures { OrderedLaw K.cmp V }
{}

// The value, and those of the pairs with the same key that come next, which leave the queue.
fn take_group<K: Ord + Drop, V: Drop, M: Allocator + Copy>(
    alloc: M,
    key: &K,
    first: V,
    list: &mut VecDeque<(K, V), M>,
) -> Result<Vec<V, M>, AllocError>
    ensures values { IfOk result (λ group. group.items ≡ first ∷ run_values K.cmp key.now list.old.items) }
    ensures rest { OnOk result (list.new.items ≡ run_rest K.cmp key.now list.old.items) }
{
    let mut group = Vec::new(alloc);
    group.push(first)?;
    'group: loop {
        match list.front() {
            Some(next) => {
                if !key.cmp(&next.0).is_eq() {
                    return Ok(group);
                }
            }
            None => return Ok(group),
        }
        match list.pop_front() {
            Some((_other, value)) => group.push(value)?,
            None => unreachable!(),
        }
    }
}

// The table sorted by key, with what it has under each key as it was.
fn in_order<K: Ord + Drop, V: Drop, M: Allocator>(
    mut list: Vec<(K, V), M>,
) -> Result<Vec<(K, V), M>, AllocError>
    ensures ordered { IfOk result (λ sorted. Ordered K.cmp sorted.items) }
    ensures same { IfOk result (λ sorted. HasGroupsOf K.cmp list.items sorted.items) }
{
    list.sort_by(|pair, next| pair.0.cmp(&next.0))?;
    Ok(list)
}

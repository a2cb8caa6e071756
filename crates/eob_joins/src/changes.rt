//! Two versions of a table: what changed between them, and the new version made again of the old one and the changes.
ghost use Rattle.std.specs.Prelude.{◌≡◌, IfOk, option_map};
ghost use Rattle.eob_lists.specs.Join.{Rising};
ghost use Rattle.eob_joins.specs.Changes.{ApplyDiffLaw, ChangedAlikeLaw, ChangedValueLaw, PatchedLaw};
ghost use Rattle.eob_joins.specs.Changes.{applied, changed};
ghost use Rattle.eob_joins.specs.Tables.{IsKeptByKey, IsKeptOfJoin};

use crate::kept::kept_rows;
use eob_lists::EitherOrBoth;
use eob_lists::join::outer_join;
use std::alloc::{AllocError, Allocator};

/// What changed under a key: its value went (Left), came (Right), or is another one (Both).
pub type Change<V> = EitherOrBoth<V, V>;

/// Returns the changes from the old version of a table to the new one: each key whose value is not the same in both, in order, with its
/// value in either version. Takes one comparison of keys for each key of either version at most.
///
/// The caller must prove that the keys strictly increase; see [`is_rising`](eob_lists::join::is_rising).
///
/// # Errors
///
/// `AllocError` where a request for memory was refused: then both versions are dropped.
///
/// # Examples
///
/// ```
/// let old = vec![in alloc; (1, 'a'), (2, 'b'), (3, 'c')]?;
/// let new = vec![in alloc; (1, 'a'), (3, 'd'), (4, 'e')]?;
/// assert!(rt; is_rising(&old) && is_rising(&new));
/// let changes = vec![in alloc; (2, Left('b')), (3, Both('c', 'd')), (4, Right('e'))]?;
/// assert_eq!(rt; diff(alloc, old, new)?, changes);
/// ```
pub fn diff<K: Ord + Drop, V: Eq + Drop, M: Allocator>(
    alloc: M,
    old: Vec<(K, V), M>,
    new: Vec<(K, V), M>,
) -> Result<Vec<(K, Change<V>), M>, AllocError>
    requires old { Rising K.cmp old.items }
    requires new { Rising K.cmp new.items }
    ensures kept { IfOk result (λ rows. IsKeptOfJoin K.cmp (changed V.eq) old.items new.items rows.items) }
    ensures values { IfOk result (λ rows. IsKeptByKey K.cmp (changed V.eq) old.items new.items rows.items) }
{
    let rows = changed_rows(alloc, old, new)?;
    Ok(rows)
}

/// Returns a table with changes made to it: under the key of a change its new value, or nothing where the value went, and under every
/// other key what it was. What a change says of the old value is not looked at. Takes memory for the join of both.
///
/// The caller must prove that the keys strictly increase; see [`is_rising`](eob_lists::join::is_rising).
///
/// # Errors
///
/// `AllocError` where a request for memory was refused: then the table and the changes are dropped.
///
/// # Examples
///
/// ```
/// let old = vec![in alloc; (1, 'a'), (2, 'b'), (3, 'c')]?;
/// let changes = vec![in alloc; (2, Left('b')), (3, Both('c', 'd')), (4, Right('e'))]?;
/// assert!(rt; is_rising(&old) && is_rising(&changes));
/// let new = vec![in alloc; (1, 'a'), (3, 'd'), (4, 'e')]?;
/// assert_eq!(rt; apply(alloc, old, changes)?, new);
/// ```
pub fn apply<K: Ord + Drop, V: Drop, M: Allocator + Copy>(
    alloc: M,
    old: Vec<(K, V), M>,
    changes: Vec<(K, Change<V>), M>,
) -> Result<Vec<(K, V), M>, AllocError>
    requires old { Rising K.cmp old.items }
    requires changes { Rising K.cmp changes.items }
    ensures kept { IfOk result (λ rows. IsKeptOfJoin K.cmp applied old.items changes.items rows.items) }
    ensures values { IfOk result (λ rows. IsKeptByKey K.cmp applied old.items changes.items rows.items) }
{
    let rows = applied_rows(alloc, old, changes)?;
    Ok(rows)
}

// The rows whose value is not the same in both versions, off the lazy join.
fn changed_rows<K: Ord + Drop, V: Eq + Drop, M: Allocator>(
    alloc: M,
    old: Vec<(K, V), M>,
    new: Vec<(K, V), M>,
) -> Result<Vec<(K, Change<V>), M>, AllocError>
    requires old { Rising K.cmp old.items }
    requires new { Rising K.cmp new.items }
    ensures { IfOk result (λ rows. IsKeptOfJoin K.cmp (changed V.eq) old.items new.items rows.items) }
{
    kept_rows(alloc, old, new, changed_row)
}

// The rows of the old version and the changes, off their join.
fn applied_rows<K: Ord + Drop, V: Drop, M: Allocator + Copy>(
    alloc: M,
    old: Vec<(K, V), M>,
    changes: Vec<(K, Change<V>), M>,
) -> Result<Vec<(K, V), M>, AllocError>
    requires old { Rising K.cmp old.items }
    requires changes { Rising K.cmp changes.items }
    ensures { IfOk result (λ rows. IsKeptOfJoin K.cmp applied old.items changes.items rows.items) }
{
    let joined = outer_join(alloc, old, changes)?;
    let mut rows = Vec::new(alloc);
    for row in joined {
        match applied_row(row) {
            Some(kept) => rows.push(kept)?,
            None => {}
        }
    }
    Ok(rows)
}

// A row whose value is not the same in both versions.
fn changed_row<K: Drop, V: Eq + Drop>(row: (K, Change<V>)) -> Option<(K, Change<V>)>
    ensures { result ≡ option_map (λ w. (row.0, w)) (changed V.eq row.1) }
{
    let (key, cells) = row;
    match cells {
        EitherOrBoth::Left(old) => Some((key, EitherOrBoth::Left(old))),
        EitherOrBoth::Both(old, new) => {
            if old == new {
                None
            } else {
                Some((key, EitherOrBoth::Both(old, new)))
            }
        }
        EitherOrBoth::Right(new) => Some((key, EitherOrBoth::Right(new))),
    }
}

// A row of the old version and the changes.
fn applied_row<K: Drop, V: Drop>(row: (K, EitherOrBoth<V, Change<V>>)) -> Option<(K, V)>
    ensures { result ≡ option_map (λ w. (row.0, w)) (applied row.1) }
{
    let (key, cells) = row;
    match cells {
        EitherOrBoth::Left(old) => Some((key, old)),
        EitherOrBoth::Both(_old, change) => match change.right() {
            Some(new) => Some((key, new)),
            None => None,
        },
        EitherOrBoth::Right(change) => match change.right() {
            Some(new) => Some((key, new)),
            None => None,
        },
    }
}

/// A value with the change made to it that leads to another is the other, and so where one of them is absent: where values that count
/// as equal are equal. With what [`diff`] and [`apply`] say of each key, the changes made to the old version have what the new one has.
///
/// Of other values, such as texts and vectors, [`law_changed_alike`] says it. Call it before [`diff`], to know by look-ups the table that
/// [`apply`] gives.
///
/// # Examples
///
/// ```
/// law_changed_value::<char>();
/// let old = vec![in alloc; (1, 'a'), (2, 'b')]?;
/// let copy = vec![in alloc; (1, 'a'), (2, 'b')]?;
/// let new = vec![in alloc; (2, 'c'), (3, 'd')]?;
/// assert!(rt; is_rising(&old) && is_rising(&copy) && is_rising(&new));
/// let changes = diff(alloc, old, new)?;
/// assert_eq!(rt; apply(alloc, copy, changes)?, vec![in alloc; (2, 'c'), (3, 'd')]?);
/// ```
pub fn law_changed_value<V: Eq>()
    ensures { ChangedValueLaw V.eq }
{}

/// A value with the change made to it that leads to another counts as equal to the other, and so where one of them is absent. No premise
/// on the values is asked, so that it holds of texts and vectors too. Call it before [`diff`], as [`law_changed_value`].
///
/// # Examples
///
/// ```
/// law_changed_alike::<&str>();
/// let old = vec![in alloc; (1, "a")]?;
/// let copy = vec![in alloc; (1, "a")]?;
/// let new = vec![in alloc; (1, "b")]?;
/// assert!(rt; is_rising(&old) && is_rising(&copy) && is_rising(&new));
/// let changes = diff(alloc, old, new)?;
/// assert_eq!(rt; apply(alloc, copy, changes)?, vec![in alloc; (1, "b")]?);
/// ```
pub fn law_changed_alike<V: Eq>()
    ensures { ChangedAlikeLaw V.eq }
{}

/// The changes from one version of a table to another, made to the first, give the second: where keys that count as equal are equal,
/// and values too. Of other keys and values, such as texts and vectors, [`law_patched`] says it.
///
/// An answer of a caller's own cites it; a caller with none calls [`law_changed_value`], which speaks of one key.
///
/// # Examples
///
/// ```
/// law_apply_diff::<u32, char>();
/// let old = vec![in alloc; (1, 'a')]?;
/// let copy = vec![in alloc; (1, 'a')]?;
/// let new = vec![in alloc; (2, 'b')]?;
/// assert!(rt; is_rising(&old) && is_rising(&copy) && is_rising(&new));
/// let changes = diff(alloc, old, new)?;
/// assert_eq!(rt; apply(alloc, copy, changes)?, vec![in alloc; (2, 'b')]?);
/// ```
pub fn law_apply_diff<K: Ord, V: Eq>()
    ensures { ApplyDiffLaw K.cmp V.eq }
{}

/// The changes from one version of a table to another, made to the first, give a table whose keys and values count as equal to those
/// of the second, pair by pair.
///
/// An answer of a caller's own cites it; a caller with none calls [`law_changed_alike`], which speaks of one key.
///
/// # Examples
///
/// ```
/// law_patched::<&str, &str>();
/// let old = vec![in alloc; ("a", "x")]?;
/// let copy = vec![in alloc; ("a", "x")]?;
/// let new = vec![in alloc; ("a", "y")]?;
/// assert!(rt; is_rising(&old) && is_rising(&copy) && is_rising(&new));
/// let changes = diff(alloc, old, new)?;
/// assert_eq!(rt; apply(alloc, copy, changes)?, vec![in alloc; ("a", "y")]?);
/// ```
pub fn law_patched<K: Ord, V: Eq>()
    ensures { PatchedLaw K.cmp V.eq }
{}

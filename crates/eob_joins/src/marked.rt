//! What a merge of three versions of a table makes of each key, in the order of the keys; and the merged rows and those in conflict apart.
ghost use Rattle.std.specs.Prelude.{◌≡◌, ◌==◌, IfOk, length};
ghost use Rattle.eob_lists.specs.Join.{Rising};
ghost use Rattle.eob_joins.specs.Marked.{IsMarkedMerge, MarkedAs, merged_of, settled_value};
ghost use Rattle.eob_joins.specs.Marked.{unresolved_versions};
ghost use Rattle.eob_joins.specs.Settled.{KeptAs};
ghost use Rattle.eob_joins.specs.Tables.{kept};
ghost use Rattle.eob_both.specs.Places.{item_left, item_right, right_place};

use crate::settle::Settle;
use crate::versions::{Merged, Verdict, Versions, join_versions, judge};
use std::alloc::{AllocError, Allocator, Global};

/// What a merge makes of a key.
#[derive(Debug, PartialEq, Eq, Drop)]
pub enum Marked<V> {
    /// Its value in the merged table.
    Settled(V),
    /// Its values in the three versions, which are in conflict.
    Unresolved(Versions<V>),
}

/// Returns two versions of a table merged over their base, each row that is in conflict and that the rule does not settle in its place among
/// the others. A key that no row is left of is not there.
///
/// The caller must prove that the keys strictly increase; see [`is_rising`](eob_lists::join::is_rising).
///
/// # Errors
///
/// `AllocError` where a request for memory was refused, by the rule too: then the three versions are dropped.
///
/// # Examples
///
/// ```
/// let base = vec![in alloc; (1, 'a'), (2, 'b')]?;
/// let ours = vec![in alloc; (1, 'a'), (2, 'c')]?;
/// let theirs = vec![in alloc; (1, 'd')]?;
/// assert!(rt; is_rising(&base) && is_rising(&ours) && is_rising(&theirs));
/// let rows = vec![in alloc; (1, Marked::Settled('d')), (2, Marked::Unresolved(Both('b', Left('c'))))]?;
/// assert_eq!(rt; mark_versions(alloc, base, ours, theirs, &NoRule)?, rows);
/// ```
pub fn mark_versions<K: Ord + Drop, V: Eq + Drop, S: Settle<V>, M: Allocator + Copy>(
    alloc: M,
    base: Vec<(K, V), M>,
    ours: Vec<(K, V), M>,
    theirs: Vec<(K, V), M>,
    rule: &S,
) -> Result<Vec<(K, Marked<V>), M>, AllocError>
    requires base { Rising K.cmp base.items }
    requires ours { Rising K.cmp ours.items }
    requires theirs { Rising K.cmp theirs.items }
    ensures { IfOk result (λ rows. IsMarkedMerge K.cmp V.eq (S.can rule.now) (S.gives rule.now)
        base.items ours.items theirs.items rows.items) }
{
    let all = join_versions(alloc, base, ours, theirs)?;
    let rows = marked_rows(alloc, all, rule)?;
    Ok(rows)
}

// What became of the rows of a join, in their order.
fn marked_rows<K: Drop, V: Eq + Drop, S: Settle<V>, M: Allocator + Copy>(
    alloc: M,
    all: Vec<(K, Versions<V>), M>,
    rule: &S,
) -> Result<Vec<(K, Marked<V>), M>, AllocError>
    ensures { IfOk result (λ rows. KeptAs (MarkedAs V.eq (S.can rule.now) (S.gives rule.now))
        all.items rows.items) }
{
    let mut rows = Vec::new(alloc);
    for (key, versions) in all {
        match marked_row(versions, rule)? {
            Some(row) => rows.push((key, row))?,
            None => {}
        }
    }
    Ok(rows)
}

// What became of a row: ours where our side changed it, and else theirs.
fn marked_row<V: Eq + Drop, S: Settle<V>>(
    versions: Versions<V>,
    rule: &S,
) -> Result<Option<Marked<V>>, AllocError>
    ensures { IfOk result (MarkedAs V.eq (S.can rule.now) (S.gives rule.now) versions) }
{
    match judge(&versions) {
        Verdict::Conflict => match rule.settle(versions)? {
            Ok(value) => Ok(Some(Marked::Settled(value))),
            Err(versions) => Ok(Some(Marked::Unresolved(versions))),
        },
        Verdict::Ours | Verdict::Alike => match ours_of(versions) {
            Some(value) => Ok(Some(Marked::Settled(value))),
            None => Ok(None),
        },
        Verdict::Unchanged | Verdict::Theirs => match theirs_of(versions) {
            Some(value) => Ok(Some(Marked::Settled(value))),
            None => Ok(None),
        },
    }
}

// The value of our side.
fn ours_of<V: Drop>(versions: Versions<V>) -> Option<V>
    ensures { result ≡ item_left (right_place versions) }
{
    versions.right()?.left()
}

// The value of their side.
fn theirs_of<V: Drop>(versions: Versions<V>) -> Option<V>
    ensures { result ≡ item_right (right_place versions) }
{
    versions.right()?.right()
}

/// The merged rows, and those in conflict, each in the order of their keys.
#[derive(Debug, PartialEq, Eq, Drop)]
pub struct Parted<K, V, M: Allocator = Global> {
    pub settled: Vec<(K, V), M>,
    pub unresolved: Vec<(K, Versions<V>), M>,
}

/// Returns the merged rows among those of [`mark_versions`], and the rows in conflict among them, both in their order.
///
/// # Errors
///
/// `AllocError` where a request for memory was refused: then the rows are dropped.
///
/// # Examples
///
/// ```
/// let rows = vec![in alloc; (1, Marked::Settled('d')), (2, Marked::Unresolved(Both('b', Left('c'))))]?;
/// let parted = part_marked(alloc, rows)?;
/// assert_eq!(rt; parted.settled, vec![in alloc; (1, 'd')]?);
/// assert_eq!(rt; parted.unresolved, vec![in alloc; (2, Both('b', Left('c')))]?);
/// ```
pub fn part_marked<K: Drop, V: Drop, M: Allocator + Copy>(
    alloc: M,
    rows: Vec<(K, Marked<V>), M>,
) -> Result<Parted<K, V, M>, AllocError>
    ensures settled { IfOk result (λ parted. parted.settled.items ≡ kept settled_value rows.items) }
    ensures unresolved { IfOk result
        (λ parted. parted.unresolved.items ≡ kept unresolved_versions rows.items) }
{
    let mut settled = Vec::new(alloc);
    let mut unresolved = Vec::new(alloc);
    for (key, row) in rows {
        match row {
            Marked::Settled(value) => settled.push((key, value))?,
            Marked::Unresolved(versions) => unresolved.push((key, versions))?,
        }
    }
    Ok(Parted {
        settled,
        unresolved,
    })
}

impl<K: Drop, V: Drop, M: Allocator + Copy> Parted<K, V, M> {
    /// Returns whether no row is in conflict.
    ///
    /// # Examples
    ///
    /// ```
    /// let rows = vec![in alloc; (1, Marked::Settled('d'))]?;
    /// assert!(rt; part_marked(alloc, rows)?.is_whole());
    /// ```
    pub fn is_whole(&self) -> bool
        ensures { result ≡ (length self.now.unresolved.items == 0) }
    {
        self.unresolved.is_empty()
    }

    // The merged table, or the rows in conflict.
    pub(crate) fn merged(self) -> Merged<K, V, M>
        ensures { result ≡ merged_of self }
    {
        if self.is_whole() {
            Merged::Whole(self.settled)
        } else {
            Merged::Conflicts(self.unresolved)
        }
    }
}

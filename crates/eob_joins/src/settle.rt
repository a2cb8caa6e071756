//! A merge of three versions of a table in which a rule may settle a row that both sides changed.
ghost use Rattle.std.specs.Prelude.{Bool, IfOk, Option};
ghost use Rattle.eob_lists.specs.Join.{Rising};
ghost use Rattle.eob_joins.specs.Marked.{GivesNothing, IsPartedMerge, can_nothing};
ghost use Rattle.eob_joins.specs.Settled.{IsMergeWith, Settles};

use crate::marked::{mark_versions, part_marked};
use crate::versions::{Merged, Versions};
use std::alloc::{AllocError, Allocator};

/// A rule that may settle a row that both sides changed, and not alike.
///
/// A rule says what it does by two ghost members: `can`, whether it settles the three values of a key, and `gives`, the values with
/// which it may settle them. [`ByCell`](crate::ByCell) is one.
pub trait Settle<V> {
    // Whether it settles three versions.
    ghost can: { Self → Option V → Option V → Option V → Bool };
    // The values with which it may settle them.
    ghost gives: { Self → Option V → Option V → Option V → V → Type 0 };

    /// Settles a row with a value, or hands the row back.
    ///
    /// # Errors
    ///
    /// `AllocError` where a request for memory was refused: then the row is dropped.
    fn settle(&self, row: Versions<V>) -> Result<Result<V, Versions<V>>, AllocError>
        ensures { IfOk result (Settles (can self.now) (gives self.now) row) };
}

/// The rule that settles nothing.
///
/// # Examples
///
/// ```
/// let row = Both('a', Both('b', 'c'));
/// assert_eq!(rt; NoRule.settle(row)?, Err(Both('a', Both('b', 'c'))));
/// ```
pub struct NoRule;

impl<V> Settle<V> for NoRule {
    ghost can = { λ rule. can_nothing };

    ghost gives = { λ rule. GivesNothing };

    fn settle(&self, row: Versions<V>) -> Result<Result<V, Versions<V>>, AllocError>
        ensures { IfOk result (Settles can_nothing GivesNothing row) }
    {
        Ok(Err(row))
    }
}

/// Returns two versions of a table merged over their base, as [`merge_versions`](crate::merge_versions) does, where a rule may settle a
/// row that is in conflict. Where it settles each of them, the merged table: under the key of such a row stands a value that the rule
/// gave, and under every other what `merge_versions` has there. Else the rows that it can't settle, and no others.
///
/// The caller must prove that the keys strictly increase; see [`is_rising`](eob_lists::join::is_rising).
///
/// # Errors
///
/// `AllocError` where a request for memory was refused, by the rule too: then the three versions are dropped.
///
/// # Examples
///
/// ```
/// let base = vec![in alloc; (1, vec![in alloc; 1, 2]?)]?;
/// let ours = vec![in alloc; (1, vec![in alloc; 7, 2]?)]?;
/// let theirs = vec![in alloc; (1, vec![in alloc; 1, 9]?)]?;
/// assert!(rt; is_rising(&base) && is_rising(&ours) && is_rising(&theirs));
/// let whole = Merged::Whole(vec![in alloc; (1, vec![in alloc; 7, 9]?)]?);
/// assert_eq!(rt; merge_versions_with(alloc, base, ours, theirs, &ByCell)?, whole);
/// ```
pub fn merge_versions_with<K: Ord + Drop, V: Eq + Drop, S: Settle<V>, M: Allocator + Copy>(
    alloc: M,
    base: Vec<(K, V), M>,
    ours: Vec<(K, V), M>,
    theirs: Vec<(K, V), M>,
    settle: &S,
) -> Result<Merged<K, V, M>, AllocError>
    requires base { Rising K.cmp base.items }
    requires ours { Rising K.cmp ours.items }
    requires theirs { Rising K.cmp theirs.items }
    ensures { IfOk result (λ m. IsMergeWith K.cmp V.eq (S.can settle.now) (S.gives settle.now) base.items
        ours.items theirs.items m) }
{
    let merge = merged_with(alloc, base, ours, theirs, settle)?;
    Ok(merge)
}

// The merged table, or the rows that the rule can't settle, by the rows of the join.
pub(crate) fn merged_with<K: Ord + Drop, V: Eq + Drop, S: Settle<V>, M: Allocator + Copy>(
    alloc: M,
    base: Vec<(K, V), M>,
    ours: Vec<(K, V), M>,
    theirs: Vec<(K, V), M>,
    settle: &S,
) -> Result<Merged<K, V, M>, AllocError>
    requires base { Rising K.cmp base.items }
    requires ours { Rising K.cmp ours.items }
    requires theirs { Rising K.cmp theirs.items }
    ensures { IfOk result (λ m. IsPartedMerge K.cmp V.eq (S.can settle.now) (S.gives settle.now) base.items
        ours.items theirs.items m) }
{
    let rows = mark_versions(alloc, base, ours, theirs, settle)?;
    let parted = part_marked(alloc, rows)?;
    Ok(parted.merged())
}

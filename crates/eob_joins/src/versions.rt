//! Three versions of a table, as a merge of two lines of work needs them: the base, ours and theirs, joined by key, what became of each
//! row, and the merged table or the rows in conflict.
ghost use Rattle.std.specs.Prelude.{◌≡◌, IfOk};
ghost use Rattle.eob_lists.specs.Join.{Rising};
ghost use Rattle.eob_joins.specs.Versions.{IsMerge, IsMergeByKey, IsVersionJoin};
ghost use Rattle.eob_joins.specs.Versions.{MergeLaw, MergedPlaceLaw, VersionsLaw};
ghost use Rattle.eob_joins.specs.Versions.{row_verdict, verdict};

use crate::layers::entries;
use crate::settle::{NoRule, merged_with};
use eob_lists::EitherOrBoth;
use eob_lists::join::outer_join;
use std::alloc::{AllocError, Allocator, Global};
use std::collections::BTreeMap;

/// The values of the three versions under a key, of which at least one is there: the base as left place, and ours and theirs on the
/// right.
pub type Versions<V> = EitherOrBoth<V, EitherOrBoth<V, V>>;

/// Returns the join of three versions of a table: each key of any of them once, in order, with its values in the three.
/// [`law_versions`] says the same by look-ups. Takes memory for the join of ours and theirs too.
///
/// The caller must prove that the keys strictly increase; see [`is_rising`](eob_lists::join::is_rising).
///
/// # Errors
///
/// `AllocError` where a request for memory was refused: then the three versions are dropped.
///
/// # Examples
///
/// ```
/// let base = vec![in alloc; (1, 'a'), (2, 'b')]?;
/// let ours = vec![in alloc; (1, 'a'), (2, 'c')]?;
/// let theirs = vec![in alloc; (1, 'd')]?;
/// assert!(rt; is_rising(&base) && is_rising(&ours) && is_rising(&theirs));
/// let rows = vec![in alloc; (1, Both('a', Both('a', 'd'))), (2, Both('b', Left('c')))]?;
/// assert_eq!(rt; join_versions(alloc, base, ours, theirs)?, rows);
/// ```
pub fn join_versions<K: Ord + Drop, V: Drop, M: Allocator + Copy>(
    alloc: M,
    base: Vec<(K, V), M>,
    ours: Vec<(K, V), M>,
    theirs: Vec<(K, V), M>,
) -> Result<Vec<(K, Versions<V>), M>, AllocError>
    requires base { Rising K.cmp base.items }
    requires ours { Rising K.cmp ours.items }
    requires theirs { Rising K.cmp theirs.items }
    ensures { IfOk result (λ rows. IsVersionJoin K.cmp base.items ours.items theirs.items rows.items) }
{
    let sides = outer_join(alloc, ours, theirs)?;
    let rows = outer_join(alloc, base, sides)?;
    Ok(rows)
}

/// What became of a row between the base and the two other versions.
#[derive(Debug, Clone, Copy, PartialEq, Eq)]
pub enum Verdict {
    /// Neither side changed it.
    Unchanged,
    /// Our side alone changed it.
    Ours,
    /// Their side alone changed it.
    Theirs,
    /// Both sides changed it, to equal values.
    Alike,
    /// Both sides changed it, to values that are not equal.
    Conflict,
}

/// Returns what became of a row. A key that is absent in two versions counts as the same in both.
///
/// # Examples
///
/// ```
/// assert_eq!(rt; judge(&Both('a', Both('a', 'd'))), Verdict::Theirs);
/// assert_eq!(rt; judge(&Both('b', Left('c'))), Verdict::Conflict);
/// ```
pub fn judge<V: Eq>(row: &Versions<V>) -> Verdict
    ensures { result ≡ row_verdict V.eq row.now }
{
    match row {
        EitherOrBoth::Left(_) => Verdict::Alike,
        EitherOrBoth::Both(base, EitherOrBoth::Left(ours)) => {
            if base == ours {
                Verdict::Theirs
            } else {
                Verdict::Conflict
            }
        }
        EitherOrBoth::Both(base, EitherOrBoth::Both(ours, theirs)) => {
            judge_values(base, ours, theirs)
        }
        EitherOrBoth::Both(base, EitherOrBoth::Right(theirs)) => {
            if base == theirs {
                Verdict::Ours
            } else {
                Verdict::Conflict
            }
        }
        EitherOrBoth::Right(EitherOrBoth::Left(_)) => Verdict::Ours,
        EitherOrBoth::Right(EitherOrBoth::Both(ours, theirs)) => {
            if ours == theirs {
                Verdict::Alike
            } else {
                Verdict::Conflict
            }
        }
        EitherOrBoth::Right(EitherOrBoth::Right(_)) => Verdict::Theirs,
    }
}

// What became of a row that all three versions have.
fn judge_values<V: Eq>(base: &V, ours: &V, theirs: &V) -> Verdict
    ensures { result ≡ verdict V.eq (Some base.now) (Some ours.now) (Some theirs.now) }
{
    match (base == ours, base == theirs) {
        (true, true) => Verdict::Unchanged,
        (true, false) => Verdict::Theirs,
        (false, true) => Verdict::Ours,
        (false, false) => {
            if ours == theirs {
                Verdict::Alike
            } else {
                Verdict::Conflict
            }
        }
    }
}

/// The answer of [`merge_versions`].
#[derive(Debug, PartialEq, Eq, Drop)]
pub enum Merged<K, V, M: Allocator = Global> {
    /// No row is in conflict: the merged table.
    Whole(Vec<(K, V), M>),
    /// The rows that are in conflict, at least one, each with its values in the three versions.
    Conflicts(Vec<(K, Versions<V>), M>),
}

/// Returns two versions of a table merged over their base. Where no row is in conflict, the merged table: whatever one side alone
/// changed is in it as that side has it, what both changed alike as both have it, and every other row as it was. Else the rows in
/// conflict, and no others.
///
/// The caller must prove that the keys strictly increase; see [`is_rising`](eob_lists::join::is_rising).
///
/// # Errors
///
/// `AllocError` where a request for memory was refused: then the three versions are dropped.
///
/// # Examples
///
/// ```
/// let base = vec![in alloc; (1, 'a'), (2, 'b')]?;
/// let ours = vec![in alloc; (1, 'a'), (2, 'c')]?;
/// let theirs = vec![in alloc; (1, 'd'), (2, 'b'), (3, 'e')]?;
/// assert!(rt; is_rising(&base) && is_rising(&ours) && is_rising(&theirs));
/// let whole = Merged::Whole(vec![in alloc; (1, 'd'), (2, 'c'), (3, 'e')]?);
/// assert_eq!(rt; merge_versions(alloc, base, ours, theirs)?, whole);
/// ```
pub fn merge_versions<K: Ord + Drop, V: Eq + Drop, M: Allocator + Copy>(
    alloc: M,
    base: Vec<(K, V), M>,
    ours: Vec<(K, V), M>,
    theirs: Vec<(K, V), M>,
) -> Result<Merged<K, V, M>, AllocError>
    requires base { Rising K.cmp base.items }
    requires ours { Rising K.cmp ours.items }
    requires theirs { Rising K.cmp theirs.items }
    ensures rows { IfOk result (λ m. IsMerge K.cmp V.eq base.items ours.items theirs.items m) }
    ensures values { IfOk result (λ m. IsMergeByKey K.cmp V.eq base.items ours.items theirs.items m) }
{
    let merge = merged_with(alloc, base, ours, theirs, &NoRule)?;
    Ok(merge)
}

/// Returns two versions of an ordered map merged over their base, as [`merge_versions`] does of lists. The keys of an ordered map
/// strictly increase, so there is nothing to prove, and so do those of the merged table, which is a list.
///
/// # Errors
///
/// `AllocError` where a request for memory was refused: then the three versions are dropped.
///
/// # Examples
///
/// ```
/// let mut base = BTreeMap::new(alloc);
/// base.insert(1, 'a')?;
/// let ours = BTreeMap::new(alloc);
/// let mut theirs = BTreeMap::new(alloc);
/// theirs.insert(1, 'a')?;
/// theirs.insert(2, 'b')?;
/// let whole = Merged::Whole(vec![in alloc; (2, 'b')]?);
/// assert_eq!(rt; merge_version_maps(alloc, base, ours, theirs)?, whole);
/// ```
pub fn merge_version_maps<K: Ord + Drop, V: Eq + Drop, M: Allocator + Copy>(
    alloc: M,
    base: BTreeMap<K, V, M>,
    ours: BTreeMap<K, V, M>,
    theirs: BTreeMap<K, V, M>,
) -> Result<Merged<K, V, M>, AllocError>
    ensures rows { IfOk result (λ m. IsMerge K.cmp V.eq base.entries ours.entries theirs.entries m) }
    ensures values { IfOk result (λ m. IsMergeByKey K.cmp V.eq base.entries ours.entries theirs.entries m) }
{
    let base = entries(alloc, base)?;
    let ours = entries(alloc, ours)?;
    let theirs = entries(alloc, theirs)?;
    let merge = merge_versions(alloc, base, ours, theirs)?;
    Ok(merge)
}

/// The join of three versions has under each key what the three have there.
///
/// Call it before [`join_versions`], whose rows are then known by look-ups.
///
/// # Examples
///
/// ```
/// law_versions::<u32, char>();
/// let base = vec![in alloc; (1, 'a')]?;
/// let ours = vec![in alloc; (1, 'b')]?;
/// let theirs = vec![in alloc; (2, 'c')]?;
/// assert!(rt; is_rising(&base) && is_rising(&ours) && is_rising(&theirs));
/// let rows = vec![in alloc; (1, Both('a', Left('b'))), (2, Right(Right('c')))]?;
/// assert_eq!(rt; join_versions(alloc, base, ours, theirs)?, rows);
/// ```
pub fn law_versions<K: Ord, V>()
    ensures { VersionsLaw K.cmp V }
{}

/// The answer of a merge by look-ups: under each key of the merged table stands a function of the three values there, and no key is in
/// conflict; or under each key that is in conflict stand its three values.
///
/// Call it with the answer of [`merge_versions`] before it is returned or matched.
///
/// # Examples
///
/// ```
/// let base = vec![in alloc; (1, 'a'), (2, 'b')]?;
/// let ours = vec![in alloc; (1, 'a'), (2, 'c')]?;
/// let theirs = vec![in alloc; (1, 'd'), (2, 'b')]?;
/// assert!(rt; is_rising(&base) && is_rising(&ours) && is_rising(&theirs));
/// let merged = merge_versions(alloc, base, ours, theirs)?;
/// law_merge(&merged);
/// assert_eq!(rt; merged, Merged::Whole(vec![in alloc; (1, 'd'), (2, 'c')]?));
/// ```
pub fn law_merge<K: Ord, V: Eq, M: Allocator>(merge: &Merged<K, V, M>)
    ensures { MergeLaw K.cmp V.eq merge.now }
{}

/// The merged value of a key by its verdict: ours where our side alone changed it, theirs where theirs did, either where both changed
/// it alike, and where neither did the value that it had.
///
/// Call it beside [`law_merge`], where a caller tells rows apart by what [`judge`] says of them.
///
/// # Examples
///
/// ```
/// law_merged_value::<char>();
/// let row = Both('a', Both('a', 'd'));
/// assert_eq!(rt; judge(&row), Verdict::Theirs);
/// ```
pub fn law_merged_value<V: Eq>()
    ensures { MergedPlaceLaw V.eq }
{}

//! A merge of three versions of a table whose rows are lists of cells, cell by cell.
ghost use Rattle.std.specs.Prelude.{◌≡◌, IfOk};
ghost use Rattle.eob_lists.specs.Join.{Rising};
ghost use Rattle.eob_joins.specs.Cells.{GivesByCell, KeepsCells, MergedRow, UnresolvedByCellLaw, can_by_cell};
ghost use Rattle.eob_joins.specs.Cells.{same_length};
ghost use Rattle.eob_joins.specs.Settled.{IsMergeWith, Settles};

use crate::cells::{has_cell_conflict, merge_cells_in_place};
use crate::settle::{Settle, merge_versions_with};
use crate::versions::{Merged, Versions};
use eob_lists::EitherOrBoth;
use std::alloc::{AllocError, Global};

/// The rule that settles a row of cells that all three versions have, at one length, where each cell can be merged as a row of its own.
/// The settled row has theirs of each cell where ours is the base, and ours elsewhere.
#[derive(Debug, Clone, Copy, PartialEq, Eq)]
pub struct ByCell;

impl<C: Eq + Drop> Settle<Vec<C>> for ByCell {
    ghost can = { λ rule. can_by_cell C.eq };

    ghost gives = { λ rule. GivesByCell C.eq };

    fn settle(&self, row: Versions<Vec<C>>) -> Result<Result<Vec<C>, Versions<Vec<C>>>, AllocError>
        ensures { IfOk result (Settles (can_by_cell C.eq) (GivesByCell C.eq) row) }
    {
        match row {
            EitherOrBoth::Left(base) => Ok(Err(EitherOrBoth::Left(base))),
            EitherOrBoth::Both(base, sides) => match sides {
                EitherOrBoth::Left(ours) => {
                    Ok(Err(EitherOrBoth::Both(base, EitherOrBoth::Left(ours))))
                }
                EitherOrBoth::Both(ours, theirs) => Ok(settled_row(base, ours, theirs)),
                EitherOrBoth::Right(theirs) => {
                    Ok(Err(EitherOrBoth::Both(base, EitherOrBoth::Right(theirs))))
                }
            },
            EitherOrBoth::Right(sides) => Ok(Err(EitherOrBoth::Right(sides))),
        }
    }
}

// The merged row, or the three rows where they can't be merged.
fn settled_row<C: Eq + Drop>(
    base: Vec<C>,
    mut ours: Vec<C>,
    mut theirs: Vec<C>,
) -> Result<Vec<C>, Versions<Vec<C>>>
    ensures { MergedRow C.eq base ours theirs result }
{
    if are_same_length(&base, &ours, &theirs) && !has_cell_conflict(&base, &ours, &theirs) {
        merge_cells_in_place(&base, &mut ours, &mut theirs);
        Ok(ours)
    } else {
        Err(EitherOrBoth::Both(base, EitherOrBoth::Both(ours, theirs)))
    }
}

// Whether three rows have one length.
fn are_same_length<C>(base: &[C], ours: &[C], theirs: &[C]) -> bool
    ensures { result ≡ same_length base.now ours.now theirs.now }
{
    ours.len() == base.len() && theirs.len() == base.len()
}

/// Returns two versions of a table of rows of cells merged over their base cell by cell: where both sides changed a row, each cell is
/// merged as a row of its own. Whatever one side alone changed, a row or a cell, is in the merged table as that side has it. A row is in
/// conflict where both sides changed one cell, and not alike; where one removed what the other changed; where both added it, and not
/// alike; and where its three versions differ in length and both sides changed it.
///
/// The caller must prove that the keys strictly increase; see [`is_rising`](eob_lists::join::is_rising).
///
/// # Errors
///
/// `AllocError` where a request for memory was refused: then the three versions are dropped.
///
/// # Examples
///
/// ```
/// let base = vec![in alloc; (1, vec![in alloc; 1, 2]?), (2, vec![in alloc; 3, 4]?)]?;
/// let ours = vec![in alloc; (1, vec![in alloc; 7, 2]?), (2, vec![in alloc; 3, 4]?)]?;
/// let theirs = vec![in alloc; (1, vec![in alloc; 1, 9]?)]?;
/// assert!(rt; is_rising(&base) && is_rising(&ours) && is_rising(&theirs));
/// let whole = Merged::Whole(vec![in alloc; (1, vec![in alloc; 7, 9]?)]?);
/// assert_eq!(rt; merge_by_cell(alloc, base, ours, theirs)?, whole);
/// ```
pub fn merge_by_cell<K: Ord + Drop, C: Eq + Drop>(
    alloc: Global,
    base: Vec<(K, Vec<C>)>,
    ours: Vec<(K, Vec<C>)>,
    theirs: Vec<(K, Vec<C>)>,
) -> Result<Merged<K, Vec<C>>, AllocError>
    requires base { Rising K.cmp base.items }
    requires ours { Rising K.cmp ours.items }
    requires theirs { Rising K.cmp theirs.items }
    ensures merge { IfOk result (λ m. IsMergeWith K.cmp ⟦<Vec<C> as PartialEq>⟧.eq (can_by_cell C.eq)
        (GivesByCell C.eq) base.items ours.items theirs.items m) }
    ensures cells { IfOk result (λ m. KeepsCells K.cmp C.eq base.items ours.items theirs.items m) }
{
    let merge = merge_versions_with(alloc, base, ours, theirs, &ByCell)?;
    Ok(merge)
}

/// Which rows a merge by cell leaves in conflict. A row that all three versions have at one length, exactly where a cell of it is; one
/// that a side removed, where the other changed it; one that both sides added, where they are not alike; and no other row.
pub fn law_unresolved_by_cell<C: Eq>()
    ensures { UnresolvedByCellLaw C.eq }
{}

//! Three rows of cells merged cell by cell.
ghost use Rattle.std.specs.Prelude.{◌≡◌, IfOk, IfSome, is_none, length, if◌then◌else◌};
ghost use Rattle.eob_joins.specs.Cells.{AreClonesOfMerged, AreMergedCells, CellsClashLaw, cell_clashes};
ghost use Rattle.eob_joins.specs.Cells.{cells_clash};

use std::alloc::{AllocError, Global};
use std::mem::swap;

/// Returns whether both sides changed a cell, and not alike. Of rows that differ in length, as many cells are looked at as the shortest
/// has.
///
/// # Examples
///
/// ```
/// assert!(rt; has_cell_conflict(&[1, 2], &[7, 2], &[8, 2]));
/// assert!(rt; !has_cell_conflict(&[1, 2], &[7, 2], &[1, 9]));
/// ```
pub fn has_cell_conflict<C: Eq>(base: &[C], ours: &[C], theirs: &[C]) -> bool
    ensures { result ≡ cells_clash C.eq base.now ours.now theirs.now }
{
    base.iter().zip(ours.iter().zip(theirs.iter())).any(|(
        base,
        (ours, theirs),
    )| is_cell_in_conflict(base, ours, theirs))
}

// Whether both sides changed a cell, and not alike.
fn is_cell_in_conflict<C: Eq>(base: &C, ours: &C, theirs: &C) -> bool
    ensures { result ≡ cell_clashes C.eq base.now ours.now theirs.now }
{
    base != ours && base != theirs && ours != theirs
}

/// Merges three rows of one length cell by cell into `ours`, which takes the cell of `theirs` where its own is the base's. Takes no
/// memory.
///
/// The caller must prove that the rows have one length.
///
/// # Examples
///
/// ```
/// let (mut ours, mut theirs) = ([7, 2], [1, 9]);
/// merge_cells_in_place(&[1, 2], &mut ours, &mut theirs);
/// assert_eq!(rt; ours, [7, 9]);
/// ```
pub fn merge_cells_in_place<C: Eq>(base: &[C], ours: &mut [C], theirs: &mut [C])
    requires ours { length ours.old ≡ length base.now }
    requires theirs { length theirs.old ≡ length base.now }
    ensures { AreMergedCells C.eq base.now ours.old theirs.old ours.new }
{
    for i in 0..base.len() {
        if base[i] == ours[i] {
            swap(&mut ours[i], &mut theirs[i]);
        }
    }
}

/// Returns clones of the cells of three rows of one length, merged cell by cell, or `None` if both sides changed one cell, and not
/// alike.
///
/// The caller must prove that the rows have one length.
///
/// # Errors
///
/// `AllocError` where a request for memory was refused.
///
/// # Examples
///
/// ```
/// let merged = vec![in alloc; 7, 9]?;
/// assert_eq!(rt; merge_cells(alloc, &[1, 2], &[7, 2], &[1, 9])?, Some(merged));
/// ```
pub fn merge_cells<C: Eq + Clone>(
    alloc: Global,
    base: &[C],
    ours: &[C],
    theirs: &[C],
) -> Result<Option<Vec<C>>, AllocError>
    requires ours { length ours.now ≡ length base.now }
    requires theirs { length theirs.now ≡ length base.now }
    ensures none { IfOk result (λ m. is_none m ≡ cells_clash C.eq base.now ours.now theirs.now) }
    ensures cells { IfOk result (λ m. IfSome m
        (λ row. AreClonesOfMerged C.eq C.is_clone base.now ours.now theirs.now row.items)) }
{
    if has_cell_conflict(base, ours, theirs) {
        return Ok(None);
    }
    let row = cloned_cells(alloc, base, ours, theirs)?;
    Ok(Some(row))
}

// Clones of the merged cells.
fn cloned_cells<C: Eq + Clone>(
    alloc: Global,
    base: &[C],
    ours: &[C],
    theirs: &[C],
) -> Result<Vec<C>, AllocError>
    requires ours { length ours.now ≡ length base.now }
    requires theirs { length theirs.now ≡ length base.now }
    ensures { IfOk result (λ row. AreClonesOfMerged C.eq C.is_clone base.now ours.now theirs.now row.items) }
{
    let mut row = Vec::with_capacity(alloc, base.len())?;
    for i in 0..base.len() {
        row.push(cloned_cell(&base[i], &ours[i], &theirs[i])?)?;
    }
    Ok(row)
}

// A clone of the merged cell.
fn cloned_cell<C: Eq + Clone>(base: &C, ours: &C, theirs: &C) -> Result<C, AllocError>
    ensures { IfOk result (λ cell.
        C.is_clone (if C.eq base.now ours.now then theirs.now else ours.now) cell) }
{
    if base == ours {
        theirs.clone()
    } else {
        ours.clone()
    }
}

/// Of rows of one length, both sides changed a cell, and not alike, exactly where at some place the three cells are in conflict.
pub fn law_cell_conflict<C: Eq>()
    ensures { CellsClashLaw C.eq }
{}

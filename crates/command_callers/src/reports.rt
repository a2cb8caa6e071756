//! Callers of `row_changes` and of its laws: which rows a report shows of changes that are known, and as what.
ghost use Rattle.std.specs.Prelude.{◌≡◌, ◌∷◌, [], IfOk, codes, length, map, true};
ghost use Rattle.eob_both.specs.declared.either_or_both.EitherOrBoth.TheVariants.{Left, Both, Right};
ghost use Rattle.keyed_reports.specs.RowChanges.{count_of, lone, row_behind, rows_eq, told_by};
ghost use Rattle.command_callers.specs.Shown.{changed_groups, changed_rows, rows_after, rows_before};

use eob_both::EitherOrBoth;
use eob_joins::Change;
use keyed_reports::{
    RowChange, law_lone_count, law_one_row_each, law_pairs, law_told_differs, row_changes,
};
use keyed_rows::{Cells, Group, Key};
use std::alloc::{AllocError, Global};

/// Returns the rows that are shown of three keys with one row each: one that changed, one that was removed, and one that was added.
///
/// # Errors
///
/// Returns `AllocError` if a request for memory was refused.
pub fn rows_shown<'a>(
    alloc: Global,
    changes: &'a [(Key, Change<Group>)],
) -> Result<Vec<RowChange<'a>>, AllocError>
    requires { changes.now ≡ changed_rows }
    ensures { IfOk result (λ rows. map row_behind rows.items
        ≡ (codes "1" ∷ [], Both (codes "x" ∷ []) (codes "z" ∷ []))
        ∷ (codes "2" ∷ [], Left (codes "y" ∷ []))
        ∷ (codes "3" ∷ [], Right (codes "w" ∷ [])) ∷ []) }
{
    row_changes(alloc, false, changes)
}

/// Returns the same, as it follows from what each key has before and after.
///
/// # Errors
///
/// Returns `AllocError` if a request for memory was refused.
pub fn pairs_shown<'a>(
    alloc: Global,
    changes: &'a [(Key, Change<Group>)],
) -> Result<Vec<RowChange<'a>>, AllocError>
    requires { changes.now ≡ changed_rows }
    ensures { IfOk result (λ rows. map row_behind rows.items
        ≡ (codes "1" ∷ [], Both (codes "x" ∷ []) (codes "z" ∷ []))
        ∷ (codes "2" ∷ [], Left (codes "y" ∷ []))
        ∷ (codes "3" ∷ [], Right (codes "w" ∷ [])) ∷ []) }
{
    law_pairs::<Key>();
    row_changes(alloc, false, changes)
}

/// Returns how many rows `x` the rows after lack of those before: there were two, and there is one.
pub fn count_gone() -> usize
    ensures { result ≡ count_of rows_eq (codes "x" ∷ []) (lone rows_eq rows_before rows_after) }
{
    law_lone_count();
    1
}

/// Returns how many rows are told of these that have other cells than before: all that are told, one that changed.
pub fn count_that_differ() -> usize
    ensures { result ≡ length (told_by rows_eq rows_eq rows_before rows_after) }
{
    law_told_differs();
    1
}

/// Returns how many rows are told of a key with one row before and another one after, where any two rows count as the same: none.
pub fn count_where_all_are_same() -> usize
    ensures { result ≡ length (told_by rows_eq (λ row other. true)
        ((codes "x" ∷ []) ∷ []) ((codes "z" ∷ []) ∷ [])) }
{
    law_one_row_each();
    0
}

/// Returns the rows that are told of keys that stand more than once. Of the first key one of two rows `x` became `z`. Of the second one `p`
/// was removed, `r` and another `q` were added. The third has the same rows in another order. The fourth was removed, with both its rows.
///
/// # Errors
///
/// Returns `AllocError` if a request for memory was refused.
pub fn groups_told<'a>(
    alloc: Global,
    changes: &'a [(Key, Change<Group>)],
) -> Result<Vec<RowChange<'a>>, AllocError>
    requires { changes.now ≡ changed_groups }
    ensures { IfOk result (λ rows. map row_behind rows.items
        ≡ (codes "1" ∷ [], Both (codes "x" ∷ []) (codes "z" ∷ []))
        ∷ (codes "2" ∷ [], Left (codes "p" ∷ []))
        ∷ (codes "2" ∷ [], Right (codes "r" ∷ []))
        ∷ (codes "2" ∷ [], Right (codes "q" ∷ []))
        ∷ (codes "4" ∷ [], Left (codes "v" ∷ []))
        ∷ (codes "4" ∷ [], Left (codes "v" ∷ [])) ∷ []) }
{
    row_changes(alloc, true, changes)
}

/// Returns how many rows are told of those groups.
///
/// # Errors
///
/// Returns `AllocError` if a request for memory was refused.
pub fn count_told(alloc: Global) -> Result<usize, AllocError>
    ensures { IfOk result (λ count. count ≡ 6) }
{
    let changes = known_groups(alloc)?;
    let rows = groups_told(alloc, &changes)?;
    Ok(rows.len())
}

// The groups, from bytes.
fn known_groups(alloc: Global) -> Result<Vec<(Key, Change<Group>)>, AllocError>
    ensures { IfOk result (λ changes. changes.items ≡ changed_groups) }
{
    let mut changes = Vec::new(alloc);
    let (old, new) = (
        three(alloc, b"x", b"x", b"y")?,
        three(alloc, b"x", b"y", b"z")?,
    );
    changes.push((key(alloc, b"1")?, EitherOrBoth::Both(old, new)))?;
    let (old, new) = (two(alloc, b"p", b"q")?, three(alloc, b"q", b"r", b"q")?);
    changes.push((key(alloc, b"2")?, EitherOrBoth::Both(old, new)))?;
    let (old, new) = (two(alloc, b"s", b"t")?, two(alloc, b"t", b"s")?);
    changes.push((key(alloc, b"3")?, EitherOrBoth::Both(old, new)))?;
    let old = two(alloc, b"v", b"v")?;
    changes.push((key(alloc, b"4")?, EitherOrBoth::Left(old)))?;
    Ok(changes)
}

fn key(alloc: Global, cell: &[u8]) -> Result<Key, AllocError>
    ensures { IfOk result (λ key. key ≡ cell.now ∷ []) }
{
    Ok(Key::new(row(alloc, cell)?))
}

fn row(alloc: Global, cell: &[u8]) -> Result<Cells, AllocError>
    ensures { IfOk result (λ row. row ≡ cell.now ∷ []) }
{
    let mut row = Cells::new(alloc);
    row.push(cell)?;
    Ok(row)
}

fn two(alloc: Global, first: &[u8], second: &[u8]) -> Result<Group, AllocError>
    ensures { IfOk result (λ group. group ≡ (first.now ∷ []) ∷ (second.now ∷ []) ∷ []) }
{
    let group = Group::new(row(alloc, first)?);
    group.with_row(alloc, row(alloc, second)?)
}

fn three(alloc: Global, first: &[u8], second: &[u8], third: &[u8]) -> Result<Group, AllocError>
    ensures { IfOk result (λ group. group
        ≡ (first.now ∷ []) ∷ (second.now ∷ []) ∷ (third.now ∷ []) ∷ []) }
{
    let group = two(alloc, first, second)?;
    group.with_row(alloc, row(alloc, third)?)
}

//! The rows that changed, of changes by key.
ghost use Rattle.std.specs.Prelude.{◌≡◌, ◌+◌, ◌-◌, ◌^◌, ◌++◌, ℕ, IfOk, List, OnOk, map, min, nat_lt};
ghost use Rattle.std.specs.Prelude.{option_map, if◌then◌else◌};
ghost use Rattle.either_or_both.specs.Prelude.{aligned, left_place, right_place};
ghost use Rattle.eob_both.specs.declared.either_or_both.EitherOrBoth.TheVariants.{Left, Right};
ghost use Rattle.keyed_reports.specs.RowChanges.{changed_or_each, count_in, count_of, each_of, lone};
ghost use Rattle.keyed_reports.specs.RowChanges.{only, row_behind, row_changes, rows_at, rows_eq, shown_of};
ghost use Rattle.keyed_reports.specs.RowChanges.{told, word_of};

use either_or_both::EitherOrBoth;
use eob_joins::Change;
use indexmap::IndexMap;
use keyed_rows::{Cells, Group, Key};
use std::alloc::{AllocError, Global};

/// A row that changed, by key.
pub type RowChange<'a> = (&'a Key, Change<&'a Cells>);

/// The rows of changes by key, key after key. Where rows with the same key are groups, they are those that one version has more often: if
/// one alone goes and one alone comes, this row changed, else each that goes was removed, and then each that comes was added. Without groups
/// a row that goes stands beside the one that comes.
///
/// ```
/// let old = Group::new(Cells::from_slices(alloc, &[b"x"])?);
/// let changes = [(Key::new(Cells::from_slices(alloc, &[b"1"])?), EitherOrBoth::Left(old))];
/// let rows = row_changes(alloc, false, &changes)?;
/// assert!(rt; rows.len() == 1 && rows[0].1.is_left());
/// ```
///
/// # Errors
///
/// Returns `AllocError` if a request for memory was refused.
pub fn row_changes<'a>(
    alloc: Global,
    groups: bool,
    changes: &'a [(Key, Change<Group>)],
) -> Result<Vec<RowChange<'a>>, AllocError>
    ensures { IfOk result (λ rows. map row_behind rows.items ≡ row_changes rows_eq groups changes.now) }
{
    let mut rows = Vec::new(alloc);
    for (key, change) in changes {
        push_shown(alloc, &mut rows, groups, key, change)?;
    }
    Ok(rows)
}

// Puts the rows that are shown of a key.
fn push_shown<'a>(
    alloc: Global,
    rows: &mut Vec<RowChange<'a>>,
    groups: bool,
    key: &'a Key,
    change: &'a Change<Group>,
) -> Result<(), AllocError>
    ensures { OnOk result (map row_behind rows.new.items ≡ map row_behind rows.old.items
        ++ map (λ row. (key.now, row)) (shown_of rows_eq groups
        (rows_at (left_place change.now)) (rows_at (right_place change.now)))) }
{
    let (old, new) = change.as_ref().unzip();
    if groups {
        push_told(alloc, rows, key, rows_of(old), rows_of(new))
    } else {
        push_paired(rows, key, rows_of(old), rows_of(new))
    }
}

// Puts the rows of two groups that one of them has more often. Which of several rows became which of others is not known, so that one row
// changed only where it alone goes and one alone comes.
fn push_told<'a>(
    alloc: Global,
    rows: &mut Vec<RowChange<'a>>,
    key: &'a Key,
    old: &'a [Cells],
    new: &'a [Cells],
) -> Result<(), AllocError>
    ensures { OnOk result (map row_behind rows.new.items ≡ map row_behind rows.old.items
        ++ map (λ row. (key.now, row)) (told rows_eq old.now new.now)) }
{
    let gone = lone_rows(alloc, old, new)?;
    let come = lone_rows(alloc, new, old)?;
    push_changed_or_each(rows, key, &gone, &come)
}

// Puts rows that go and rows that come.
fn push_changed_or_each<'a>(
    rows: &mut Vec<RowChange<'a>>,
    key: &'a Key,
    gone: &[&'a Cells],
    come: &[&'a Cells],
) -> Result<(), AllocError>
    ensures { OnOk result (map row_behind rows.new.items ≡ map row_behind rows.old.items
        ++ map (λ row. (key.now, row)) (changed_or_each
        (map (λ row. row.now) gone.now) (map (λ row. row.now) come.now))) }
{
    match only_row(gone) {
        Some(row) => match only_row(come) {
            Some(next) => Ok(rows.push((key, EitherOrBoth::Both(row, next)))?),
            None => push_each(rows, key, gone, come),
        },
        None => push_each(rows, key, gone, come),
    }
}

// Puts each row that goes, and then each that comes.
fn push_each<'a>(
    rows: &mut Vec<RowChange<'a>>,
    key: &'a Key,
    gone: &[&'a Cells],
    come: &[&'a Cells],
) -> Result<(), AllocError>
    ensures { OnOk result (map row_behind rows.new.items ≡ map row_behind rows.old.items
        ++ map (λ row. (key.now, row)) (each_of
        (map (λ row. row.now) gone.now) (map (λ row. row.now) come.now))) }
{
    push_removed(rows, key, gone)?;
    push_added(rows, key, come)
}

fn push_removed<'a>(
    rows: &mut Vec<RowChange<'a>>,
    key: &'a Key,
    gone: &[&'a Cells],
) -> Result<(), AllocError>
    ensures { OnOk result (map row_behind rows.new.items ≡ map row_behind rows.old.items
        ++ map (λ row. (key.now, Left row.now)) gone.now) }
{
    for row in gone {
        rows.push((key, EitherOrBoth::Left(*row)))?;
    }
    Ok(())
}

fn push_added<'a>(
    rows: &mut Vec<RowChange<'a>>,
    key: &'a Key,
    come: &[&'a Cells],
) -> Result<(), AllocError>
    ensures { OnOk result (map row_behind rows.new.items ≡ map row_behind rows.old.items
        ++ map (λ row. (key.now, Right row.now)) come.now) }
{
    for row in come {
        rows.push((key, EitherOrBoth::Right(*row)))?;
    }
    Ok(())
}

// The row of which there is no other.
fn only_row<'a>(rows: &[&'a Cells]) -> Option<&'a Cells>
    ensures { option_map (λ row. row.now) result ≡ only (map (λ row. row.now) rows.now) }
{
    match rows {
        [row] => Some(*row),
        _ => None,
    }
}

// Puts rows that go beside rows that come.
fn push_paired<'a>(
    rows: &mut Vec<RowChange<'a>>,
    key: &'a Key,
    gone: &'a [Cells],
    come: &'a [Cells],
) -> Result<(), AllocError>
    ensures { OnOk result (map row_behind rows.new.items ≡ map row_behind rows.old.items
        ++ map (λ row. (key.now, row)) (aligned gone.now come.now)) }
{
    for row in EitherOrBoth::Both(gone, come).into_iter_swap() {
        rows.push((key, row))?;
    }
    Ok(())
}

fn rows_of(group: Option<&Group>) -> &[Cells]
    ensures { result.now ≡ rows_at (option_map (λ rows. rows.now) group.entry) }
{
    match group {
        Some(group) => group.rows(),
        None => &[],
    }
}

// The rows that one group has more often than another, in their order: of those that are the same the last ones.
fn lone_rows<'a>(
    alloc: Global,
    rows: &'a [Cells],
    others: &'a [Cells],
) -> Result<Vec<&'a Cells>, AllocError>
    ensures { IfOk result (λ found. map (λ row. row.now) found.items ≡ lone rows_eq rows.now others.now) }
{
    let mut counts = counts_of(alloc, others)?;
    let mut lone = Vec::new(alloc);
    for row in rows {
        if !take_one(&mut counts, row) {
            lone.push(row)?;
        }
    }
    Ok(lone)
}

// How often each row is there.
fn counts_of<'a>(alloc: Global, rows: &'a [Cells]) -> Result<IndexMap<&'a Cells, usize>, AllocError>
    ensures { IfOk result (λ counts. (row : List (List ℕ)) →
        count_in counts row ≡ count_of rows_eq row rows.now) }
{
    let mut counts: IndexMap<&'a Cells, usize> = IndexMap::new(alloc);
    for row in rows {
        add_one(&mut counts, row)?;
    }
    Ok(counts)
}

// Counts a row once more.
fn add_one<'a>(counts: &mut IndexMap<&'a Cells, usize>, row: &'a Cells) -> Result<(), AllocError>
    ensures { OnOk result ((other : List (List ℕ)) → count_in counts.new other
        ≡ (if rows_eq row.now other then min (count_in counts.old other + 1) (2 ^ 64 - 1)
        else count_in counts.old other)) }
{
    match counts.get_mut(&row) {
        Some(count) => *count = count.saturating_add(1),
        None => {
            counts.insert(row, 1)?;
        }
    }
    Ok(())
}

// Counts a row once less. Whether it was there.
fn take_one<'a>(counts: &mut IndexMap<&'a Cells, usize>, row: &'a Cells) -> bool
    ensures was { result ≡ nat_lt 0 (count_in counts.old row.now) }
    ensures counts { (other : List (List ℕ)) → count_in counts.new other
        ≡ (if rows_eq row.now other then count_in counts.old other - 1
        else count_in counts.old other) }
{
    match counts.get_mut(&row) {
        Some(count) => {
            let was_there = *count > 0;
            *count = count.saturating_sub(1);
            was_there
        }
        None => false,
    }
}

/// What is said of a row that changed: `removed`, `changed` or `added`.
pub fn word_of(change: Change<&Cells>) -> &'static str
    ensures { result.now ≡ word_of change.entry }
{
    match change {
        EitherOrBoth::Left(_) => "removed",
        EitherOrBoth::Both(..) => "changed",
        EitherOrBoth::Right(_) => "added",
    }
}

//! Recipes on versions of a table: what changed, a copy brought up to date, and two sides merged.

use crate::shown::expect_shown;
use either_or_both::EitherOrBoth;
use either_or_both::EitherOrBoth::{Both, Left, Right};
use either_or_both::join::is_rising;
use recipes::changes::{Counts, compare, count_changes};
use recipes::merged::{merged, merged_lists};
use recipes::patched::caught_up;
use recipes::verdicts::{count_disputed, side_by_side as versions_side_by_side};
use std::alloc::{AllocError, Global};
use std::collections::BTreeMap;
use std::test::Fail;

// What changed between two small tables.
fn rows(alloc: Global) -> Result<Vec<Row>, AllocError> {
    let old = BTreeMap::from_array(alloc, [("a", "1"), ("b", "2"), ("c", "3")])?;
    let new = BTreeMap::from_array(alloc, [("b", "2"), ("c", "4"), ("d", "5")])?;
    compare(alloc, old, new)
}

type Row = (&'static str, EitherOrBoth<&'static str, &'static str>);

const ROWS: [Row; 4] = [
    ("a", Left("1")),
    ("b", Both("2", "2")),
    ("c", Both("3", "4")),
    ("d", Right("5")),
];

/// The rows of two tables, and how many changed.
#[test]
fn of_changes(rt: HostRuntime) -> Result<(), Fail> {
    let rows = rows(rt.alloc())?;
    assert_eq!(rt; rows.as_slice(), ROWS.as_slice());
    let counts = Counts {
        added: 1,
        removed: 1,
        changed: 1,
        same: 1,
    };
    assert_eq!(rt; count_changes(&rows), counts);
    Ok(())
}

/// Two sides that changed other rows.
#[test]
fn of_merged_versions(rt: HostRuntime) -> Result<(), Fail> {
    let alloc = rt.alloc();
    let base = BTreeMap::from_array(alloc, [(1, 'a'), (2, 'b'), (3, 'c')])?;
    let ours = BTreeMap::from_array(alloc, [(1, 'x'), (2, 'b'), (3, 'c')])?;
    let theirs = BTreeMap::from_array(alloc, [(1, 'a'), (3, 'c'), (4, 'd')])?;
    let merge = merged(alloc, base, ours, theirs)?;
    expect_shown(alloc, &merge, "Whole([(1, 'x'), (3, 'c'), (4, 'd')])")
}

/// Two sides that changed the same row.
#[test]
fn of_versions_in_conflict(rt: HostRuntime) -> Result<(), Fail> {
    let alloc = rt.alloc();
    let base = BTreeMap::from_array(alloc, [(1, 'a'), (2, 'b')])?;
    let ours = BTreeMap::from_array(alloc, [(1, 'x'), (2, 'b')])?;
    let theirs = BTreeMap::from_array(alloc, [(1, 'z'), (2, 'b')])?;
    let merge = merged(alloc, base, ours, theirs)?;
    expect_shown(alloc, &merge, "Conflicts([(1, Both('a', Both('x', 'z')))])")
}

/// The same of lists: our side put a row, and theirs took one out.
#[test]
fn of_merged_lists(rt: HostRuntime) -> Result<(), Fail> {
    let alloc = rt.alloc();
    let base = vec![in alloc; (1, 'a'), (2, 'b')]?;
    let ours = vec![in alloc; (1, 'a'), (2, 'b'), (3, 'c')]?;
    let theirs = vec![in alloc; (2, 'b')]?;
    assert!(rt; is_rising(&base) && is_rising(&ours) && is_rising(&theirs));
    let merge = merged_lists(alloc, base, ours, theirs)?;
    expect_shown(alloc, &merge, "Whole([(2, 'b'), (3, 'c')])")
}

/// A copy of the old version becomes the new one.
#[test]
fn of_a_copy(rt: HostRuntime) -> Result<(), Fail> {
    let alloc = rt.alloc();
    let old = vec![in alloc; (1, 'a'), (2, 'b'), (3, 'c')]?;
    let new = vec![in alloc; (1, 'a'), (3, 'd'), (4, 'e')]?;
    assert!(rt; is_rising(&old) && is_rising(&new));
    let copy = caught_up(alloc, old.clone()?, old, new)?;
    expect_shown(alloc, &copy, "[(1, 'a'), (3, 'd'), (4, 'e')]")
}

/// What a copy has beside the old version stays.
#[test]
fn of_a_copy_with_a_row_of_its_own(rt: HostRuntime) -> Result<(), Fail> {
    let alloc = rt.alloc();
    let old = vec![in alloc; (1, 'a'), (2, 'b'), (3, 'c')]?;
    let new = vec![in alloc; (1, 'a'), (3, 'd'), (4, 'e')]?;
    let copy = vec![in alloc; (1, 'a'), (2, 'b'), (3, 'c'), (9, 'z')]?;
    assert!(rt; is_rising(&old) && is_rising(&new) && is_rising(&copy));
    let copy = caught_up(alloc, copy, old, new)?;
    expect_shown(alloc, &copy, "[(1, 'a'), (3, 'd'), (4, 'e'), (9, 'z')]")
}

/// Three versions of a table: a row that both sides changed, one that theirs took out and ours changed, and one that is as it was.
#[test]
fn of_verdicts(rt: HostRuntime) -> Result<(), Fail> {
    let alloc = rt.alloc();
    let base = vec![in alloc; (1, 'a'), (2, 'b'), (3, 'c')]?;
    let ours = vec![in alloc; (1, 'x'), (2, 'y'), (3, 'c')]?;
    let theirs = vec![in alloc; (1, 'z'), (3, 'c'), (4, 'd')]?;
    assert!(rt; is_rising(&base) && is_rising(&ours) && is_rising(&theirs));
    let rows = versions_side_by_side(alloc, base, ours, theirs)?;
    assert_eq!(rt; count_disputed(&rows), 2);
    let want = "[(1, Both('a', Both('x', 'z'))), (2, Both('b', Left('y'))), \
                (3, Both('c', Both('c', 'c'))), (4, Right(Right('d')))]";
    expect_shown(alloc, &rows, want)
}

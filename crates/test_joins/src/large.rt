//! Tests of size: each call that takes a list, with 70,000 rows on either side, compared with a rule for each key. What gives up, or
//! drops rows, past some size is seen here.

ghost use Rattle.std.specs.Prelude.{IfOk};
ghost use Rattle.std.specs.Ordering.{nat_cmp};
ghost use Rattle.either_or_both.specs.Join.{Rising};

mod groups;
mod maps;

use either_or_both::EitherOrBoth;
use either_or_both::join::{is_rising, outer_join, outer_join_lazily, outer_join_slices};
use eob_joins::{
    Change, Merged, Versions, anti_join, apply, diff, inner_join, join_versions, left_join,
    merge_versions, right_join, semi_join,
};
use std::alloc::{AllocError, Global};
use std::process::Abort;
use std::test::Fail;

// So many rows has each table.
const ROWS: u32 = 70_000;

// The keys of all tables are below this.
const KEYS: u32 = 4 * ROWS;

// A table by a rule.
#[derive(Clone, Copy)]
enum Side {
    // The first even numbers.
    Evens,
    // The first multiples of three, where a multiple of twelve has the value that it has among the even numbers.
    Threes,
    // The first multiples of four, with another value than the even numbers have.
    Fours,
}

// What a table has under a key.
fn value(side: Side, key: u32) -> Option<u32> {
    match side {
        Side::Evens if key % 2 == 0 && key / 2 < ROWS => Some(key),
        Side::Threes if key % 12 == 0 && key / 3 < ROWS => Some(key),
        Side::Threes if key % 3 == 0 && key / 3 < ROWS => Some(key / 3),
        Side::Fours if key % 4 == 0 && key / 4 < ROWS => Some(key / 4),
        _ => None,
    }
}

type Table = Vec<(u32, u32)>;

// The table, whose keys strictly increase.
fn table(rt: &impl Abort, alloc: Global, side: Side) -> Result<Table, Fail>
    ensures { IfOk result (λ table. Rising nat_cmp table.items) }
{
    let mut table = Vec::new(alloc);
    for key in 0..KEYS {
        if let Some(value) = value(side, key) {
            table.push((key, value))?;
        }
    }
    assert!(rt; table.len() == ROWS as usize && is_rising(&table));
    Ok(table)
}

// What the even numbers and the multiples of three have under a key.
type Places = (Option<u32>, Option<u32>);

fn places(key: u32) -> Places {
    (value(Side::Evens, key), value(Side::Threes, key))
}

// The rows of the join of the two, by the rule.
fn joined(alloc: Global) -> Result<Vec<(u32, EitherOrBoth<u32, u32>)>, AllocError> {
    let mut rows = Vec::new(alloc);
    for key in 0..KEYS {
        if let Ok(row) = EitherOrBoth::try_from(places(key)) {
            rows.push((key, row))?;
        }
    }
    Ok(rows)
}

// A call that joins two tables.
#[derive(Clone, Copy, Debug)]
enum Call {
    Outer,
    Lazily,
    Inner,
    Left,
    Right,
    Semi,
    Anti,
}

const CALLS: [Call; 7] = [
    Call::Outer,
    Call::Lazily,
    Call::Inner,
    Call::Left,
    Call::Right,
    Call::Semi,
    Call::Anti,
];

// What a row of a join has of either table.
trait Shown {
    fn shown(self) -> Places;
}

impl Shown for EitherOrBoth<u32, u32> {
    fn shown(self) -> Places {
        self.unzip()
    }
}

impl Shown for (u32, u32) {
    fn shown(self) -> Places {
        (Some(self.0), Some(self.1))
    }
}

impl Shown for (u32, Option<u32>) {
    fn shown(self) -> Places {
        (Some(self.0), self.1)
    }
}

impl Shown for (Option<u32>, u32) {
    fn shown(self) -> Places {
        (self.0, Some(self.1))
    }
}

impl Shown for u32 {
    fn shown(self) -> Places {
        (Some(self), None)
    }
}

// Whether the rows are those that a call is to give, each once and in order.
fn are_rows<T: Shown + Drop>(call: Call, rows: Vec<(u32, T)>) -> bool {
    let mut rows = rows.into_iter();
    for key in 0..KEYS {
        if let Some(want) = row_of(call, places(key)) {
            match rows.next() {
                Some(row) => {
                    if row.0 != key || row.1.shown() != want {
                        return false;
                    }
                }
                None => return false,
            }
        }
    }
    rows.next().is_none()
}

// What a join shows of what both tables have under a key, if it has a row there.
fn row_of(call: Call, places: Places) -> Option<Places> {
    let (left, right) = (places.0.is_some(), places.1.is_some());
    let has_row = match call {
        Call::Outer | Call::Lazily => left || right,
        Call::Inner | Call::Semi => left && right,
        Call::Left => left,
        Call::Right => right,
        Call::Anti => left && !right,
    };
    match call {
        _ if !has_row => None,
        Call::Semi | Call::Anti => Some((places.0, None)),
        _ => Some(places),
    }
}

// Whether a call gives its rows of two tables.
fn gives_rows(alloc: Global, call: Call, left: Table, right: Table) -> Result<bool, AllocError>
    requires left { Rising nat_cmp left.items }
    requires right { Rising nat_cmp right.items }
{
    Ok(match call {
        Call::Outer => are_rows(call, outer_join(alloc, left, right)?),
        Call::Lazily => are_rows(call, outer_join_lazily(left, right).collect(alloc)?),
        Call::Inner => are_rows(call, inner_join(alloc, left, right)?),
        Call::Left => are_rows(call, left_join(alloc, left, right)?),
        Call::Right => are_rows(call, right_join(alloc, left, right)?),
        Call::Semi => are_rows(call, semi_join(alloc, left, right)?),
        Call::Anti => are_rows(call, anti_join(alloc, left, right)?),
    })
}

/// Each join has each key of the tables that it is of, made at once and iterated.
#[test]
fn joins_have_every_row(rt: HostRuntime) -> Result<(), Fail> {
    let alloc = rt.alloc();
    for call in CALLS {
        let left = table(&rt, alloc, Side::Evens)?;
        let right = table(&rt, alloc, Side::Threes)?;
        assert!(rt; gives_rows(alloc, call, left, right)?, "{call:?}");
    }
    Ok(())
}

/// So has a join of slices.
#[test]
fn joins_of_slices_have_every_row(rt: HostRuntime) -> Result<(), Fail> {
    let alloc = rt.alloc();
    let left = table(&rt, alloc, Side::Evens)?;
    let right = table(&rt, alloc, Side::Threes)?;
    let mut rows = outer_join_slices(&left, &right);
    for (key, row) in &joined(alloc)? {
        assert!(rt; rows.next() == Some((key, row.as_ref())));
    }
    assert!(rt; rows.next().is_none());
    Ok(())
}

type Changes = Vec<(u32, Change<u32>)>;

// The changes from the even numbers to the multiples of three.
fn changes(rt: &impl Abort, alloc: Global) -> Result<Changes, Fail>
    ensures { IfOk result (λ changes. Rising nat_cmp changes.items) }
{
    let old = table(rt, alloc, Side::Evens)?;
    let new = table(rt, alloc, Side::Threes)?;
    let changes = diff(alloc, old, new)?;
    assert!(rt; is_rising(&changes));
    Ok(changes)
}

// The same by the rule.
fn wanted_changes(alloc: Global) -> Result<Changes, AllocError> {
    let mut changes = Vec::new(alloc);
    for (key, row) in joined(alloc)? {
        if row.left() != row.right() {
            changes.push((key, row))?;
        }
    }
    Ok(changes)
}

/// Changes name each key whose value is not the same in both versions, and made to the first give the second.
#[test]
fn changes_have_every_row(rt: HostRuntime) -> Result<(), Fail> {
    let alloc = rt.alloc();
    assert!(rt; changes(&rt, alloc)? == wanted_changes(alloc)?);
    let old = table(&rt, alloc, Side::Evens)?;
    let patched = apply(alloc, old, changes(&rt, alloc)?)?;
    assert!(rt; patched == table(&rt, alloc, Side::Threes)?);
    Ok(())
}

// The even numbers as base, the multiples of three as ours, and the multiples of four as theirs under a key.
fn versions(key: u32) -> Option<Versions<u32>> {
    let (base, ours) = places(key);
    let sides = EitherOrBoth::try_from((ours, value(Side::Fours, key))).ok();
    EitherOrBoth::try_from((base, sides)).ok()
}

// Whether both sides changed the value under a key, and in two ways.
fn clashes(key: u32) -> bool {
    let (base, ours) = places(key);
    let theirs = value(Side::Fours, key);
    base != ours && base != theirs && ours != theirs
}

// The rows of the three versions that are in conflict.
fn conflicts(alloc: Global) -> Result<Vec<(u32, Versions<u32>)>, AllocError> {
    let mut rows = Vec::new(alloc);
    for key in 0..KEYS {
        if let Some(row) = versions(key) {
            if clashes(key) {
                rows.push((key, row))?;
            }
        }
    }
    Ok(rows)
}

// The rows of the join of the three versions.
fn all_versions(alloc: Global) -> Result<Vec<(u32, Versions<u32>)>, AllocError> {
    let mut rows = Vec::new(alloc);
    for key in 0..KEYS {
        if let Some(row) = versions(key) {
            rows.push((key, row))?;
        }
    }
    Ok(rows)
}

/// A join of three versions has each key of any of them.
#[test]
fn joins_of_versions_have_every_row(rt: HostRuntime) -> Result<(), Fail> {
    let alloc = rt.alloc();
    let base = table(&rt, alloc, Side::Evens)?;
    let ours = table(&rt, alloc, Side::Threes)?;
    let theirs = table(&rt, alloc, Side::Fours)?;
    assert!(rt; join_versions(alloc, base, ours, theirs)? == all_versions(alloc)?);
    Ok(())
}

// The multiples of three as ours merged with theirs over the even numbers.
fn merged(rt: &impl Abort, alloc: Global, theirs: Side) -> Result<Merged<u32, u32>, Fail> {
    let base = table(rt, alloc, Side::Evens)?;
    let ours = table(rt, alloc, Side::Threes)?;
    let theirs = table(rt, alloc, theirs)?;
    Ok(merge_versions(alloc, base, ours, theirs)?)
}

/// A merge has the rows that both sides changed in two ways, and where their side changed nothing, our side's rows.
#[test]
fn merges_have_every_row(rt: HostRuntime) -> Result<(), Fail> {
    let alloc = rt.alloc();
    assert!(rt; merged(&rt, alloc, Side::Fours)? == Merged::Conflicts(conflicts(alloc)?));
    let ours = table(&rt, alloc, Side::Threes)?;
    assert!(rt; merged(&rt, alloc, Side::Evens)? == Merged::Whole(ours));
    Ok(())
}

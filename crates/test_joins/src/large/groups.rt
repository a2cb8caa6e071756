//! Groups of tables whose keys repeat, with 70,000 rows.

use super::ROWS;
use either_or_both::EitherOrBoth;
use eob_joins::{
    GroupRow, group_by_key, group_join, group_join_slices, group_join_unordered, groups_of,
    is_ordered,
};
use std::alloc::{AllocError, Global};
use std::process::Abort;
use std::test::Fail;

type Table = Vec<(u32, u32)>;

// So many keys have the left and the right table: some rows a key, all rows under one, and a row a key.
const SPREADS: [(u32, u32); 3] = [(17_500, 35_000), (1, 3), (70_000, 1)];

// The keys come in turn, each again and again, and the values are the rows' numbers.
fn in_turn(alloc: Global, keys: u32) -> Result<Table, AllocError> {
    let mut table = Vec::new(alloc);
    for row in 0..ROWS {
        table.push((row.checked_rem(keys).unwrap_or(0), row))?;
    }
    Ok(table)
}

// The same rows in the order of their keys.
fn ordered(alloc: Global, keys: u32) -> Result<Table, AllocError> {
    let mut table = Vec::new(alloc);
    for key in 0..keys {
        for row in rows_of(alloc, keys, key)? {
            table.push((key, row))?;
        }
    }
    Ok(table)
}

// The rows under a key: the one with its number, and each so many rows further.
fn rows_of(alloc: Global, keys: u32, key: u32) -> Result<Vec<u32>, AllocError> {
    let mut rows = Vec::new(alloc);
    let mut row = key;
    for _turn in 0..ROWS {
        if keys <= key || ROWS <= row {
            break;
        }
        rows.push(row)?;
        row = row.saturating_add(keys);
    }
    Ok(rows)
}

// A row of a group join, of which a table without rows under the key is absent.
fn row_of(
    alloc: Global,
    spread: (u32, u32),
    key: u32,
) -> Result<Option<GroupRow<u32, u32, u32>>, AllocError> {
    let left = Some(rows_of(alloc, spread.0, key)?).filter(|rows| !rows.is_empty());
    let right = Some(rows_of(alloc, spread.1, key)?).filter(|rows| !rows.is_empty());
    Ok(match EitherOrBoth::try_from((left, right)) {
        Ok(cells) => Some((key, cells)),
        Err(_) => None,
    })
}

// All rows of the group join of two tables.
fn rows_of_both(
    alloc: Global,
    spread: (u32, u32),
) -> Result<Vec<GroupRow<u32, u32, u32>>, AllocError> {
    let mut rows = Vec::new(alloc);
    for key in 0..ROWS {
        if let Some(row) = row_of(alloc, spread, key)? {
            rows.push(row)?;
        }
    }
    Ok(rows)
}

// The group join of tables with so many keys, whose rows come in turn.
fn joined_unordered(
    alloc: Global,
    spread: (u32, u32),
) -> Result<Vec<GroupRow<u32, u32, u32>>, AllocError> {
    group_join_unordered(alloc, in_turn(alloc, spread.0)?, in_turn(alloc, spread.1)?)
}

// The same of tables in order.
fn joined(
    rt: &impl Abort,
    alloc: Global,
    spread: (u32, u32),
) -> Result<Vec<GroupRow<u32, u32, u32>>, AllocError> {
    let left = ordered(alloc, spread.0)?;
    let right = ordered(alloc, spread.1)?;
    assert!(rt; is_ordered(&left) && is_ordered(&right));
    group_join(alloc, left, right)
}

/// A group join has each key of either table with all its rows, of tables in order and of others.
#[test]
fn group_joins_have_every_row(rt: HostRuntime) -> Result<(), Fail> {
    let alloc = rt.alloc();
    for spread in SPREADS {
        assert!(rt; joined_unordered(alloc, spread)? == rows_of_both(alloc, spread)?);
        assert!(rt; joined(&rt, alloc, spread)? == rows_of_both(alloc, spread)?);
    }
    Ok(())
}

/// The groups of a table have each key once, with all its rows.
#[test]
fn groups_have_every_row(rt: HostRuntime) -> Result<(), Fail> {
    let alloc = rt.alloc();
    for (keys, _) in SPREADS {
        let list = ordered(alloc, keys)?;
        assert!(rt; is_ordered(&list));
        let mut groups = group_by_key(alloc, list)?.into_iter();
        for key in 0..keys {
            assert!(rt; groups.next() == Some((key, rows_of(alloc, keys, key)?)));
        }
        assert!(rt; groups.next().is_none());
    }
    Ok(())
}

// Whether a part of a slice has these rows.
fn is_part(part: &[(u32, u32)], rows: &[u32]) -> bool {
    part.len() == rows.len() && part.iter().zip(rows).all(|(pair, row)| pair.1 == *row)
}

// Whether a hint has room for so many parts, and says of some that there is one at least.
fn has_room(hint: (usize, Option<usize>), parts: u32) -> bool {
    hint.0 == (parts as usize).min(1) && hint.1 >= Some(parts as usize)
}

/// The parts of a slice have each key once, with all its rows, and a hint that has room for them.
#[test]
fn parts_have_every_row(rt: HostRuntime) -> Result<(), Fail> {
    let alloc = rt.alloc();
    for (keys, _) in SPREADS {
        let list = ordered(alloc, keys)?;
        assert!(rt; is_ordered(&list));
        let mut parts = groups_of(&list);
        for key in 0..keys {
            assert!(rt; has_room(parts.size_hint(), keys - key));
            let rows = rows_of(alloc, keys, key)?;
            assert!(rt;
                parts
                    .next()
                    .is_some_and(|(found, part)| *found == key && is_part(part, &rows))
            );
        }
        assert!(rt; parts.size_hint() == (0, Some(0)) && parts.next().is_none());
    }
    Ok(())
}

type Part<'a> = &'a [(u32, u32)];

// Whether a row of parts has what is wanted.
fn is_row(
    row: Option<(&u32, EitherOrBoth<Part<'_>, Part<'_>>)>,
    want: &GroupRow<u32, u32, u32>,
) -> bool {
    match row {
        Some((key, EitherOrBoth::Left(a))) => {
            *key == want.0 && matches!(&want.1, EitherOrBoth::Left(x) if is_part(a, x))
        }
        Some((key, EitherOrBoth::Both(a, b))) => {
            *key == want.0
                && matches!(&want.1, EitherOrBoth::Both(x, y) if is_part(a, x) && is_part(b, y))
        }
        Some((key, EitherOrBoth::Right(b))) => {
            *key == want.0 && matches!(&want.1, EitherOrBoth::Right(y) if is_part(b, y))
        }
        None => false,
    }
}

/// The parts of two slices, joined, have each key once, with all its rows.
#[test]
fn parts_of_two_slices_have_every_row(rt: HostRuntime) -> Result<(), Fail> {
    let alloc = rt.alloc();
    for (lefts, rights) in SPREADS {
        let left = ordered(alloc, lefts)?;
        let right = ordered(alloc, rights)?;
        assert!(rt; is_ordered(&left) && is_ordered(&right));
        let mut rows = group_join_slices(&left, &right);
        for want in &rows_of_both(alloc, (lefts, rights))? {
            assert!(rt; is_row(rows.next(), want));
        }
        assert!(rt; rows.next().is_none());
    }
    Ok(())
}

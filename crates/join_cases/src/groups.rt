//! Lists whose keys repeat: tested, grouped, and joined group by group.

use crate::read::{UNORDERED, Wrong, ordered, shown, table, two};
use either_or_both::join::is_rising;
use eob_joins::{
    group_by_key, group_join, group_join_slices, group_join_unordered, groups_of, is_ordered,
};
use std::alloc::{AllocError, Global};

/// What a call on one list returns.
pub fn of_one(alloc: Global, call: &str, list: &str) -> Result<String, Wrong> {
    match call {
        "is_rising" => shown(alloc, &is_rising(&table::<u32>(alloc, list)?)),
        "is_ordered" => shown(alloc, &is_ordered(&table::<u32>(alloc, list)?)),
        "group_by_key" => shown(alloc, &group_by_key(alloc, ordered(alloc, list)?)?),
        _ => parts(alloc, &table::<u32>(alloc, list)?),
    }
}

// The parts of a slice, each written as it comes, since a list of them would name two lifetimes, of which nothing is proved.
fn parts(alloc: Global, list: &[(u32, u32)]) -> Result<String, Wrong> {
    if is_ordered(list) {
        let mut text = String::new(alloc);
        for part in groups_of(list) {
            add_row(&mut text, &format!(in alloc; "{part:?}")?)?;
        }
        return Ok(format!(in alloc; "[{text}]")?);
    }
    Err(UNORDERED)
}

// Adds a row to a text of rows.
fn add_row(text: &mut String, row: &str) -> Result<(), AllocError> {
    if !text.is_empty() {
        text.push_str(", ")?;
    }
    text.push_str(row)
}

/// What a call on two lists returns.
pub fn of_two(alloc: Global, call: &str, tables: &str) -> Result<String, Wrong> {
    let (left, right) = two(tables)?;
    match call {
        "group_join" => grouped(alloc, left, right),
        "group_join_unordered" => grouped_unordered(alloc, left, right),
        _ => parts_of_both(
            alloc,
            &table::<u32>(alloc, left)?,
            &table::<u32>(alloc, right)?,
        ),
    }
}

fn grouped(alloc: Global, left: &str, right: &str) -> Result<String, Wrong> {
    let left = ordered(alloc, left)?;
    let right = ordered(alloc, right)?;
    shown(alloc, &group_join(alloc, left, right)?)
}

fn grouped_unordered(alloc: Global, left: &str, right: &str) -> Result<String, Wrong> {
    let left = table::<u32>(alloc, left)?;
    let right = table::<u32>(alloc, right)?;
    shown(alloc, &group_join_unordered(alloc, left, right)?)
}

// The parts of two slices, joined.
fn parts_of_both(
    alloc: Global,
    left: &[(u32, u32)],
    right: &[(u32, u32)],
) -> Result<String, Wrong> {
    if is_ordered(left) && is_ordered(right) {
        let mut text = String::new(alloc);
        for row in group_join_slices(left, right) {
            add_row(&mut text, &format!(in alloc; "{row:?}")?)?;
        }
        return Ok(format!(in alloc; "[{text}]")?);
    }
    Err(UNORDERED)
}

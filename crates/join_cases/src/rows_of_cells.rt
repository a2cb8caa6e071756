//! Rows of cells: three of them, and three versions of a table of them.

use crate::read::{Value, Wrong, rising, shown, three};
use eob_joins::{has_cell_conflict, merge_by_cell, merge_cells};
use std::alloc::Global;

/// What a call on three rows of cells, or on three tables of such rows, returns.
pub fn returned(alloc: Global, call: &str, texts: &str) -> Result<String, Wrong> {
    let (base, ours, theirs) = three(texts)?;
    match call {
        "merge_by_cell" => merged(alloc, base, ours, theirs),
        _ => of_rows(alloc, call, base, ours, theirs),
    }
}

fn merged(alloc: Global, base: &str, ours: &str, theirs: &str) -> Result<String, Wrong> {
    let base = rising::<Vec<u32>>(alloc, base)?;
    let ours = rising(alloc, ours)?;
    let theirs = rising(alloc, theirs)?;
    shown(alloc, &merge_by_cell(alloc, base, ours, theirs)?)
}

fn of_rows(
    alloc: Global,
    call: &str,
    base: &str,
    ours: &str,
    theirs: &str,
) -> Result<String, Wrong> {
    let base = Vec::<u32>::read(alloc, base.trim())?;
    let ours = Vec::<u32>::read(alloc, ours.trim())?;
    let theirs = Vec::<u32>::read(alloc, theirs.trim())?;
    if call == "has_cell_conflict" {
        return shown(alloc, &has_cell_conflict(&base, &ours, &theirs));
    }
    if ours.len() == base.len() && theirs.len() == base.len() {
        shown(alloc, &merge_cells(alloc, &base, &ours, &theirs)?)
    } else {
        Err(Wrong::Line("rows that differ in length"))
    }
}

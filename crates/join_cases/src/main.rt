//! Joins of tables as the gate tries them: each line of the input is a call of the library and its tables, and comes back with what it
//! returns, as `inner_join 1:7 3:9 | 2:1 3:5 = [(3, (9, 5))]`.
//!
//! A table is its rows, a key and a value each, or `-` where it has none; `|` stands between two tables. A line that is empty or begins
//! with `#` comes back as it is, and one that is no case with `error:` and why. The file `stdout` has what `tools/compare_joins` gives
//! for the lines of `stdin`, which finds it by look-ups in dictionaries.
#![tactic(auto)]

mod groups;
mod lists;
mod maps;
mod read;
mod rows_of_cells;
mod versions;

use read::{MISSING, Wrong};
use std::alloc::{AllocError, Global};
use std::io;

fn main(rt: HostRuntime) -> io::Result<()> {
    for line in rt.lines(rt.alloc()) {
        let line = line?;
        let told = told_line(rt.alloc(), &line)?;
        println!(rt; "{told}")?;
    }
    Ok(())
}

// A line, with what its call returns if it has one.
fn told_line(alloc: Global, line: &str) -> Result<String, AllocError> {
    if line.is_empty() || line.starts_with('#') {
        return String::from_str(alloc, line);
    }
    match returned(alloc, line) {
        Ok(text) => format!(in alloc; "{line} = {text}"),
        Err(Wrong::Line(why)) => format!(in alloc; "{line} = error: {why}"),
        Err(Wrong::Memory) => Err(AllocError),
    }
}

// What the call of a line returns.
fn returned(alloc: Global, line: &str) -> Result<String, Wrong> {
    let (call, tables) = line.split_once(' ').ok_or(MISSING)?;
    match call {
        "outer_join"
        | "inner_join"
        | "left_join"
        | "right_join"
        | "semi_join"
        | "anti_join"
        | "diff"
        | "apply" => lists::returned(alloc, call, tables),
        "is_rising" | "is_ordered" | "group_by_key" | "groups_of" => {
            groups::of_one(alloc, call, tables)
        }
        "group_join" | "group_join_unordered" | "group_join_slices" => {
            groups::of_two(alloc, call, tables)
        }
        "join_versions" | "judge" | "merge_versions" | "merge_version_maps" => {
            versions::returned(alloc, call, tables)
        }
        "has_cell_conflict" | "merge_cells" | "merge_by_cell" => {
            rows_of_cells::returned(alloc, call, tables)
        }
        _ => maps::returned(alloc, call, tables),
    }
}

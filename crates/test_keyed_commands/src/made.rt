//! Tables made by a rule, as inputs of every command.

use crate::commands::Command;
use std::alloc::{AllocError, Global};
use std::fmt::Write;
use std::ops::Range;

/// Puts rows after a text: a number of a range as a key, after the beginning of each row, and a cell.
pub fn put_rows(
    text: &mut String,
    beginning: &str,
    numbers: Range<usize>,
    cell: &str,
) -> Result<(), AllocError> {
    for number in numbers {
        writeln!(text, "{beginning}k{number:05},{cell}")?;
    }
    Ok(())
}

/// A table of two columns: a number of a range as a key, and a cell.
pub fn table(alloc: Global, numbers: Range<usize>, cell: &str) -> Result<String, AllocError> {
    let mut text = String::from_str(alloc, "id,a\n")?;
    put_rows(&mut text, "", numbers, cell)?;
    Ok(text)
}

/// Changes of as many rows from one cell to another.
pub fn changes(alloc: Global, count: usize) -> Result<String, AllocError> {
    let mut text = String::from_str(alloc, "change,id,a\n")?;
    put_rows(&mut text, "-,", 0..count, "p")?;
    put_rows(&mut text, "+,", 0..count, "q")?;
    Ok(text)
}

/// The inputs of a command with as many rows each, which are good and fit one another.
pub fn inputs(alloc: Global, command: Command, count: usize) -> Result<[String; 3], AllocError> {
    let next = match command {
        Command::Apply => changes(alloc, count)?,
        // Where all rows differ, the most work is done to find that they do.
        Command::RowDiff => table(alloc, 1..count.saturating_add(1), "p")?,
        _ => table(alloc, 0..count, "q")?,
    };
    Ok([
        table(alloc, 0..count, "p")?,
        next,
        table(alloc, 0..count, "p")?,
    ])
}

/// The inputs with another one at a place.
pub fn with_input(inputs: [String; 3], place: usize, other: String) -> [String; 3] {
    let [first, next, last] = inputs;
    match place {
        0 => [other, next, last],
        1 => [first, other, last],
        _ => [first, next, other],
    }
}

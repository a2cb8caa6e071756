//! Two versions of a file that is no table, compared line by line as git compares texts.

use keyed_faults::Shown;
use keyed_lines::{Hunk, Line, Part, compare_lines, hunks_of};
use std::alloc::{AllocError, Global};
use std::fmt::Write;
use std::ops::Range;

/// Two versions of a file, by their names.
#[derive(Clone, Copy)]
pub struct Versions<'a> {
    pub old_name: &'a str,
    pub new_name: &'a str,
    pub old: &'a [u8],
    pub new: &'a [u8],
}

/// The lines that differ, each with three around it as git shows them, in text that a terminal shows as it is. Of two versions of which one
/// has a byte NUL it says no more than that they differ, and of two that do not differ nothing.
///
/// # Errors
///
/// Returns `AllocError` if a request for memory was refused.
pub fn render_line_diff(alloc: Global, versions: Versions<'_>) -> Result<String, AllocError> {
    let Versions { old, new, .. } = versions;
    let mut text = String::new(alloc);
    if old == new {
        return Ok(text);
    }
    if old.contains(&0) || new.contains(&0) {
        text.push_str("Binary files differ\n")?;
        return Ok(text);
    }
    writeln!(text, "--- {}", Shown(versions.old_name.as_bytes()))?;
    writeln!(text, "+++ {}", Shown(versions.new_name.as_bytes()))?;
    let lines = compare_lines(alloc, old, new)?;
    for hunk in hunks_of(alloc, &lines)? {
        put_hunk(&mut text, &lines, &hunk)?;
    }
    Ok(text)
}

fn put_hunk(text: &mut String, lines: &[Line<'_>], hunk: &Hunk) -> Result<(), AllocError> {
    text.push_str("@@ -")?;
    put_range(text, &hunk.old)?;
    text.push_str(" +")?;
    put_range(text, &hunk.new)?;
    text.push_str(" @@\n")?;
    let range = hunk.lines.start..hunk.lines.end;
    for line in lines.get(range).unwrap_or(lines) {
        put_line(text, line)?;
    }
    Ok(())
}

// Puts the first of some lines, and how many there are where it is not one: of none, the line before them.
fn put_range(text: &mut String, range: &Range<usize>) -> Result<(), AllocError> {
    let count = range.end.saturating_sub(range.start);
    let first = range.start.saturating_add(count.min(1));
    if count == 1 {
        write!(text, "{first}")?;
    } else {
        write!(text, "{first},{count}")?;
    }
    Ok(())
}

fn put_line(text: &mut String, line: &Line<'_>) -> Result<(), AllocError> {
    match line {
        Part::Kept(line, _) => put_after(text, ' ', line),
        Part::Removed(line) => put_after(text, '-', line),
        Part::Added(line) => put_after(text, '+', line),
    }
}

// Puts a line after a sign.
fn put_after(text: &mut String, sign: char, line: &[u8]) -> Result<(), AllocError> {
    text.push(sign)?;
    match line.strip_suffix(b"\n") {
        Some(shown) => writeln!(text, "{}", Shown(shown))?,
        None => {
            writeln!(text, "{}", Shown(line))?;
            text.push_str("\\ No newline at end of file\n")?;
        }
    }
    Ok(())
}

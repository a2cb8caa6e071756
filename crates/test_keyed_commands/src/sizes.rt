//! Tests: tables, cells, groups and counts past each size at which rows could be cut, kept or written apart.

use crate::commands::{
    GROUPED, PLAIN, TEXT, applied, compared, compared_in_parts, expect, joined, joined_in_parts,
    merged,
};
use crate::made::{put_rows, table};
use keyed_commands::{Format, Kind};
use std::alloc::{AllocError, Global};
use std::fmt::Write;
use std::ops::Range;
use std::test::Fail;

// A table of rows with one cell, but for the row of one number, which has another.
fn with_one(alloc: Global, count: usize, number: usize) -> Result<String, AllocError> {
    let mut text = table(alloc, 0..number.min(count), "p")?;
    put_rows(
        &mut text,
        "",
        number..number.saturating_add(1).min(count),
        "q",
    )?;
    put_rows(&mut text, "", number.saturating_add(1)..count, "p")?;
    Ok(text)
}

/// Of 2,000 rows one differs: the first, one in the middle, or the last. Read whole and in parts it is the change, and the status is 1.
#[test]
fn one_row_of_many_differs(rt: HostRuntime) -> Result<(), Fail> {
    let alloc = rt.alloc();
    let old = table(alloc, 0..2000, "p")?;
    for number in [0, 1000, 1999] {
        let new = with_one(alloc, 2000, number)?;
        let (old, new) = (old.as_bytes(), new.as_bytes());
        let row = format!(in alloc; "change,id,a\n-,k{number:05},p\n+,k{number:05},q\n")?;
        expect(compared_in_parts(alloc, PLAIN, old, new), 1, row.as_bytes())?;
        expect(
            compared(alloc, PLAIN, Format::Csv, old, new),
            1,
            row.as_bytes(),
        )?;
        let text = format!(in alloc;
            "         id      a\nchanged  k{number:05}  p -> q\n0 added, 0 removed, 1 changed, 1999 the same\n"
        )?;
        expect(compared(alloc, PLAIN, TEXT, old, new), 1, text.as_bytes())?;
    }
    expect(
        compared_in_parts(alloc, PLAIN, old.as_bytes(), old.as_bytes()),
        0,
        b"change,id,a\n",
    )
}

// The cell of a number in the next table: another one near each border of parts.
fn next_cell(number: usize) -> &'static str {
    if number % 511 < 3 { "q" } else { "p" }
}

// Two tables whose keys are the numbers of ranges, the changes between them and their outer join.
#[derive(Drop)]
struct Sides {
    left: String,
    right: String,
    changes: String,
    joined: String,
}

impl Sides {
    fn new(alloc: Global) -> Result<Sides, AllocError> {
        Ok(Sides {
            left: String::from_str(alloc, "id,a\n")?,
            right: String::from_str(alloc, "id,a\n")?,
            changes: String::from_str(alloc, "change,id,a\n")?,
            joined: String::from_str(alloc, "side,id,left.a,right.a\n")?,
        })
    }

    // Puts the row of a number that one side has or both.
    fn put(&mut self, number: usize, in_left: bool, in_right: bool) -> Result<(), AllocError> {
        let cell = next_cell(number);
        if in_left {
            writeln!(self.left, "k{number:05},p")?;
        }
        if in_right {
            writeln!(self.right, "k{number:05},{cell}")?;
        }
        if in_left && in_right {
            writeln!(self.joined, "both,k{number:05},p,{cell}")?;
        } else if in_left {
            writeln!(self.joined, "left,k{number:05},p,")?;
        } else if in_right {
            writeln!(self.joined, "right,k{number:05},,{cell}")?;
        }
        let is_same = in_right && cell == "p";
        if in_left && !is_same {
            writeln!(self.changes, "-,k{number:05},p")?;
        }
        if in_right && !(in_left && is_same) {
            writeln!(self.changes, "+,k{number:05},{cell}")?;
        }
        Ok(())
    }
}

// How many rows the left table has, and how many the right one.
const BORDERS: [(usize, usize); 12] = [
    (511, 0),
    (512, 0),
    (513, 0),
    (0, 512),
    (0, 513),
    (511, 512),
    (512, 511),
    (512, 512),
    (512, 513),
    (513, 512),
    (513, 1025),
    (1024, 513),
];

/// Where a part ends on either side, with equal keys there or one side ended, the parts give the changes and the join.
#[test]
fn parts_end_at_any_row(rt: HostRuntime) -> Result<(), Fail> {
    let alloc = rt.alloc();
    for (left, right) in BORDERS {
        for first in [0, 1, 512] {
            let mut sides = Sides::new(alloc)?;
            for number in 0..left.max(right.saturating_add(first)) {
                let in_right = first <= number && number < first.saturating_add(right);
                sides.put(number, number < left, in_right)?;
            }
            let (left, right) = (sides.left.as_bytes(), sides.right.as_bytes());
            expect(
                compared_in_parts(alloc, PLAIN, left, right),
                1,
                sides.changes.as_bytes(),
            )?;
            let join = joined_in_parts(alloc, PLAIN, Kind::Outer, left, right);
            expect(join, 0, sides.joined.as_bytes())?;
        }
    }
    Ok(())
}

/// Tables of more rows than any part, buffer or table of a test has are written to their last row, whether keys may repeat or not.
#[test]
fn rows_are_never_too_many(rt: HostRuntime) -> Result<(), Fail> {
    let alloc = rt.alloc();
    let rows = table(alloc, 0..17_000, "p")?;
    let none: &[u8] = b"id,a\n";
    let mut come = String::from_str(alloc, "change,id,a\n")?;
    put_rows(&mut come, "+,", 0..17_000, "p")?;
    let mut alone = String::from_str(alloc, "side,id,left.a,right.a\n")?;
    put_rows(&mut alone, "right,", 0..17_000, ",p")?;
    let (rows, come) = (rows.as_bytes(), come.as_bytes());
    for settings in [PLAIN, GROUPED] {
        expect(
            joined(alloc, settings, Kind::Outer, none, rows),
            0,
            alone.as_bytes(),
        )?;
        expect(compared(alloc, settings, Format::Csv, none, rows), 1, come)?;
        expect(applied(alloc, settings, none, come), 0, rows)?;
        expect(merged(alloc, settings, none, none, rows), 0, rows)?;
        expect(joined(alloc, settings, Kind::Semi, rows, rows), 0, rows)?;
    }
    Ok(())
}

/// So are tables of more parts.
#[test]
fn parts_are_never_too_many(rt: HostRuntime) -> Result<(), Fail> {
    let alloc = rt.alloc();
    let rows = table(alloc, 0..20_000, "p")?;
    let none: &[u8] = b"id,a\n";
    let mut gone = String::from_str(alloc, "change,id,a\n")?;
    put_rows(&mut gone, "-,", 0..20_000, "p")?;
    let mut alone = String::from_str(alloc, "side,id,left.a,right.a\n")?;
    put_rows(&mut alone, "left,", 0..20_000, "p,")?;
    let rows = rows.as_bytes();
    expect(
        compared_in_parts(alloc, PLAIN, rows, none),
        1,
        gone.as_bytes(),
    )?;
    expect(
        joined_in_parts(alloc, PLAIN, Kind::Outer, rows, none),
        0,
        alone.as_bytes(),
    )?;
    expect(
        joined_in_parts(alloc, PLAIN, Kind::Semi, rows, rows),
        0,
        rows,
    )
}

/// Counts are right past each number of digits.
#[test]
fn counts_are_never_too_great(rt: HostRuntime) -> Result<(), Fail> {
    let alloc = rt.alloc();
    let old = table(alloc, 0..3600, "p")?;
    let mut new = table(alloc, 0..1100, "q")?;
    put_rows(&mut new, "", 1100..2400, "p")?;
    put_rows(&mut new, "", 3600..5100, "p")?;
    let mut text = String::from_str(alloc, "         id      a\n")?;
    put_shown(&mut text, "changed", 0..1100, "p -> q")?;
    put_shown(&mut text, "removed", 2400..3600, "p")?;
    put_shown(&mut text, "added  ", 3600..5100, "p")?;
    text.push_str("1500 added, 1200 removed, 1100 changed, 1300 the same\n")?;
    let answer = compared(alloc, PLAIN, TEXT, old.as_bytes(), new.as_bytes());
    expect(answer, 1, text.as_bytes())
}

// Puts the lines of rows with the same change.
fn put_shown(
    text: &mut String,
    word: &str,
    numbers: Range<usize>,
    cell: &str,
) -> Result<(), AllocError> {
    for number in numbers {
        writeln!(text, "{word}  k{number:05}  {cell}")?;
    }
    Ok(())
}

// A text of as many letters.
fn long(alloc: Global, count: usize) -> Result<String, AllocError> {
    let mut text = String::new(alloc);
    for _ in 0..count {
        text.push('x')?;
    }
    Ok(text)
}

/// Cells and keys of any length are whole in every answer.
#[test]
fn cells_are_never_too_long(rt: HostRuntime) -> Result<(), Fail> {
    let alloc = rt.alloc();
    for count in [4095, 4097, 70_000] {
        let (cell, key) = (long(alloc, count)?, long(alloc, count)?);
        let row = format!(in alloc; "{key}y,\"{cell}\"\"\"\n")?;
        let next = format!(in alloc; "{key}z,{cell}\n")?;
        let first = format!(in alloc; "id,a\n{row}")?;
        let both = format!(in alloc; "id,a\n{row}{next}")?;
        let come = format!(in alloc; "change,id,a\n+,{next}")?;
        let (first, both, come) = (first.as_bytes(), both.as_bytes(), come.as_bytes());
        expect(compared(alloc, PLAIN, Format::Csv, first, both), 1, come)?;
        expect(compared_in_parts(alloc, PLAIN, first, both), 1, come)?;
        expect(applied(alloc, PLAIN, first, come), 0, both)?;
        expect(merged(alloc, PLAIN, first, first, both), 0, both)?;
        expect(joined(alloc, PLAIN, Kind::Semi, both, both), 0, both)?;
        expect(
            joined_in_parts(alloc, PLAIN, Kind::Semi, both, both),
            0,
            both,
        )?;
        let text = format!(in alloc;
            "       id{0:1$}  a\nadded  {key}z  {cell}\n1 added, 0 removed, 0 changed, 1 the same\n",
            "",
            count.saturating_sub(1)
        )?;
        expect(
            compared(alloc, PLAIN, TEXT, first, both),
            1,
            text.as_bytes(),
        )?;
    }
    Ok(())
}

// The rows of a group between two texts, each after a beginning: as many with cells of their own, and as many that are the same.
fn group(
    alloc: Global,
    before: &str,
    beginning: &str,
    count: usize,
    behind: &str,
) -> Result<String, AllocError> {
    let mut text = String::from_str(alloc, before)?;
    for number in 0..count {
        writeln!(text, "{beginning}c{number:04}")?;
    }
    for _ in 0..count {
        writeln!(text, "{beginning}d")?;
    }
    text.push_str(behind)?;
    Ok(text)
}

/// Groups of any number of rows are whole in every answer, and all of their rows are shown.
#[test]
fn groups_are_never_too_large(rt: HostRuntime) -> Result<(), Fail> {
    let alloc = rt.alloc();
    for count in [2, 3, 9, 70, 3000] {
        let rows = group(alloc, "id,a\n", "1,", count, "")?;
        let come = group(alloc, "change,id,a\n", "+,1,", count, "")?;
        let end = format!(in alloc;
            "{} added, 0 removed, 0 changed, 0 the same\n",
            count.saturating_add(count)
        )?;
        let text = group(alloc, "       id  a\n", "added  1   ", count, &end)?;
        let misfit = group(
            alloc,
            "          id  a\n",
            "table     1   ",
            count,
            "expected  1   (no row)\n",
        )?;
        let (none, rows, come): (&[u8], _, _) = (b"id,a\n", rows.as_bytes(), come.as_bytes());
        expect(compared(alloc, GROUPED, Format::Csv, none, rows), 1, come)?;
        expect(
            compared(alloc, GROUPED, TEXT, none, rows),
            1,
            text.as_bytes(),
        )?;
        expect(applied(alloc, GROUPED, none, come), 0, rows)?;
        expect(applied(alloc, GROUPED, rows, come), 1, misfit.as_bytes())?;
        expect(merged(alloc, GROUPED, none, rows, none), 0, rows)?;
        expect(joined(alloc, GROUPED, Kind::Anti, rows, none), 0, rows)?;
    }
    Ok(())
}

/// A join of groups has each row of one with each of the other, of any number of rows.
#[test]
fn groups_are_joined_row_by_row(rt: HostRuntime) -> Result<(), Fail> {
    let alloc = rt.alloc();
    for (count, other) in [(1, 9), (9, 1), (3, 3), (12, 11)] {
        let mut left = String::from_str(alloc, "id,a\n")?;
        let mut right = String::from_str(alloc, "id,b\n")?;
        let mut rows = String::from_str(alloc, "id,a,b\n")?;
        for number in 0..count {
            writeln!(left, "1,c{number:02}")?;
            for next in 0..other {
                writeln!(rows, "1,c{number:02},d{next:02}")?;
            }
        }
        for next in 0..other {
            writeln!(right, "1,d{next:02}")?;
        }
        let join = joined(
            alloc,
            GROUPED,
            Kind::Inner,
            left.as_bytes(),
            right.as_bytes(),
        );
        expect(join, 0, rows.as_bytes())?;
    }
    Ok(())
}

/// A heading has all its columns, however many there are.
#[test]
fn columns_are_never_too_many(rt: HostRuntime) -> Result<(), Fail> {
    let alloc = rt.alloc();
    let mut header = String::from_str(alloc, "k")?;
    let mut row = String::from_str(alloc, "k")?;
    let mut heading = String::from_str(alloc, "       k")?;
    let mut shown = String::from_str(alloc, "added  k")?;
    for number in 10..80 {
        write!(header, ",{number}")?;
        write!(row, ",x")?;
        write!(heading, "  {number}")?;
        write!(shown, "{}x", if number == 10 { "  " } else { "   " })?;
    }
    let old = format!(in alloc; "{header}\n")?;
    let new = format!(in alloc; "{header}\n{row}\n")?;
    let come = format!(in alloc; "change,{header}\n+,{row}\n")?;
    let text = format!(in alloc;
        "{heading}\n{shown}\n1 added, 0 removed, 0 changed, 0 the same\n"
    )?;
    let (old, new) = (old.as_bytes(), new.as_bytes());
    expect(
        compared(alloc, PLAIN, Format::Csv, old, new),
        1,
        come.as_bytes(),
    )?;
    expect(compared(alloc, PLAIN, TEXT, old, new), 1, text.as_bytes())
}

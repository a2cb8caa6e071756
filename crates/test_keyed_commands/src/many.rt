//! Tests: tables of hundreds of rows and more, made by a rule: looked up, laid over, merged, read in parts and made again.

use crate::commands::{
    Command, KINDS, ORDERED, PLAIN, TEXT, answered, applied, applied_partly, asked, compared,
    compared_in_parts, expect, joined, joined_in_parts, merged, merged_by, under,
};
use crate::made::{put_rows, table};
use keyed_commands::{Conflicts, Direction, Format, Merging, Unit};
use std::alloc::{AllocError, Global};
use std::fmt::Write;
use std::test::Fail;

// Rows whose keys fall and repeat, of which every third stands in the right table, and what is found of them.
#[derive(Drop)]
struct LookedUp {
    left: String,
    found: String,
}

// As many rows, with the keys of the right table up to this number.
fn looked_up_rows(alloc: Global, count: usize, keys: usize) -> Result<LookedUp, AllocError> {
    let mut made = LookedUp {
        left: String::from_str(alloc, "n,id\n")?,
        found: String::from_str(alloc, "n,id,a\n")?,
    };
    for number in 0..count {
        let key = number % 900;
        writeln!(made.left, "{number},k{key:05}")?;
        let cell = if key < keys { "q" } else { "" };
        writeln!(made.found, "{number},k{key:05},{cell}")?;
    }
    Ok(made)
}

// The inputs of a command that takes two.
fn two<'t>(first: &'t [u8], next: &'t [u8]) -> [&'t [u8]; 3] {
    [first, next, b""]
}

/// Of tables past each size of a part, each row is looked up once, in its place.
#[test]
fn rows_of_many_parts_are_looked_up(rt: HostRuntime) -> Result<(), Fail> {
    let alloc = rt.alloc();
    let settings = under("id");
    for count in [0, 1, 511, 512, 513, 1025] {
        for keys in [0, 600, 1000] {
            let right = table(alloc, 0..keys, "q")?;
            let LookedUp { left, found } = looked_up_rows(alloc, count, keys)?;
            let inputs = two(left.as_bytes(), right.as_bytes());
            let outcome = asked(alloc, settings, Command::Lookup, inputs);
            expect(outcome, 0, found.as_bytes())?;
        }
    }
    Ok(())
}

/// Of many rows below and above, the upper ones stand where both tables have the key.
#[test]
fn many_rows_are_laid_over(rt: HostRuntime) -> Result<(), Fail> {
    let alloc = rt.alloc();
    for (first, next, last) in [
        (0, 700, 2000),
        (300, 1024, 1025),
        (0, 0, 600),
        (600, 600, 600),
    ] {
        let base = table(alloc, 0..next, "p")?;
        let over = table(alloc, first..last, "q")?;
        let mut laid = table(alloc, 0..first, "p")?;
        put_rows(&mut laid, "", first..last, "q")?;
        let inputs = two(base.as_bytes(), over.as_bytes());
        expect(
            asked(alloc, PLAIN, Command::Overlay, inputs),
            0,
            laid.as_bytes(),
        )?;
    }
    Ok(())
}

const BY_ROW: Merging<'static> = Merging {
    unit: Unit::Row,
    conflicts: Conflicts::Marks,
    sameness: None,
};

/// Hundreds of conflicts among hundreds of rows keep their places.
#[test]
fn hundreds_of_conflicts_are_marked(rt: HostRuntime) -> Result<(), Fail> {
    let alloc = rt.alloc();
    let mut base = String::from_str(alloc, "id,a\n")?;
    let mut ours = String::from_str(alloc, "id,a\n")?;
    let mut theirs = String::from_str(alloc, "id,a\n")?;
    let mut wanted = String::from_str(alloc, "id,a\n")?;
    for number in 0..900usize {
        let key = format!(in alloc; "k{number:03}")?;
        writeln!(base, "{key},x")?;
        if number % 3 == 0 {
            writeln!(ours, "{key},o")?;
            writeln!(theirs, "{key},t")?;
            writeln!(
                wanted,
                "<<<<<<< ours\n{key},o\n||||||| base\n{key},x\n=======\n{key},t\n>>>>>>> theirs"
            )?;
        } else {
            writeln!(ours, "{key},x")?;
            writeln!(theirs, "{key},t")?;
            writeln!(wanted, "{key},t")?;
        }
    }
    let merge = merged_by(
        alloc,
        PLAIN,
        BY_ROW,
        base.as_bytes(),
        ours.as_bytes(),
        theirs.as_bytes(),
    );
    expect(merge, 1, wanted.as_bytes())
}

/// Each of thousands of rows that theirs adds stands after the row that it follows there.
#[test]
fn many_new_rows_stand_behind_those_that_they_follow(rt: HostRuntime) -> Result<(), Fail> {
    let alloc = rt.alloc();
    let mut ours = String::from_str(alloc, "key\n")?;
    let mut theirs = String::from_str(alloc, "key\n")?;
    for number in 0..3000usize {
        let key = (number * 7) % 3000;
        if number % 2 == 0 {
            writeln!(ours, "{key}")?;
        }
        writeln!(theirs, "{key}")?;
    }
    let merge = merged(alloc, ORDERED, b"key\n", ours.as_bytes(), theirs.as_bytes());
    expect(merge, 0, theirs.as_bytes())
}

// A table whose keys are the multiples of a number below a limit.
fn multiples(alloc: Global, step: usize, limit: usize) -> Result<String, AllocError> {
    let mut text = String::from_str(alloc, "key,cell\n")?;
    for number in 0..limit {
        if number.checked_rem(step) == Some(0) {
            writeln!(text, "k{number:05},{}", number / 100 % step.max(1))?;
        }
    }
    Ok(text)
}

// Many rows against few, gaps on one side, a table of no row, and two that are the same: of each table the step and the limit.
const STEPS: [[usize; 4]; 4] = [
    [1, 3000, 2, 4000],
    [3, 6000, 1, 700],
    [7, 9000, 1, 0],
    [5, 100, 5, 100],
];

/// Read part by part, tables give what they give whole.
#[test]
fn parts_give_the_changes(rt: HostRuntime) -> Result<(), Fail> {
    let alloc = rt.alloc();
    for [step, limit, other_step, other_limit] in STEPS {
        let old = multiples(alloc, step, limit)?;
        let new = multiples(alloc, other_step, other_limit)?;
        let whole = answered(compared(alloc, PLAIN, Format::Csv, old.as_bytes(), new.as_bytes()))?;
        let parts = compared_in_parts(alloc, PLAIN, old.as_bytes(), new.as_bytes());
        expect(parts, whole.status, &whole.bytes)?;
    }
    Ok(())
}

/// The same, of each kind of join.
#[test]
fn parts_give_the_joins(rt: HostRuntime) -> Result<(), Fail> {
    let alloc = rt.alloc();
    for [step, limit, other_step, other_limit] in STEPS {
        let left = multiples(alloc, step, limit)?;
        let right = multiples(alloc, other_step, other_limit)?;
        for kind in KINDS {
            let whole = answered(joined(alloc, PLAIN, kind, left.as_bytes(), right.as_bytes()))?;
            let parts = joined_in_parts(alloc, PLAIN, kind, left.as_bytes(), right.as_bytes());
            expect(parts, 0, &whole.bytes)?;
        }
    }
    Ok(())
}

// Cells of every shape: plain, empty, with a comma, with quotes, with line ends, with spaces, beyond ASCII.
const CELLS: [&str; 7] = [
    "plain",
    "",
    "\"a, b\"",
    "\"say \"\"so\"\"\"",
    "\"two\r\nlines\"",
    "  x ",
    "\u{e9}\u{4e2d}",
];

// A table whose keys are the multiples of a number below 600, in order, with cells by a rule.
fn shaped(alloc: Global, step: usize, shift: usize) -> Result<String, AllocError> {
    let mut text = String::from_str(alloc, "key,first,second\n")?;
    for number in 0..600usize {
        if number.checked_rem(step) == Some(0) {
            let first = CELLS.get(number % 7).copied().unwrap_or("");
            let second = CELLS
                .get((number / 6 % 4).saturating_mul(shift) % 7)
                .copied()
                .unwrap_or("");
            writeln!(text, "k{number:03},{first},{second}")?;
        }
    }
    Ok(text)
}

/// The changes from a table to another, made to the first, give the bytes of the second; and made to the second they do not fit.
#[test]
fn changes_made_again_give_the_new_table(rt: HostRuntime) -> Result<(), Fail> {
    let alloc = rt.alloc();
    let old = shaped(alloc, 2, 1)?;
    let new = shaped(alloc, 3, 2)?;
    let changes = answered(compared(alloc, PLAIN, Format::Csv, old.as_bytes(), new.as_bytes()))?;
    assert_eq!(rt; changes.status, 1);
    let made = applied(alloc, PLAIN, old.as_bytes(), &changes.bytes);
    expect(made, 0, new.as_bytes())?;
    let refused = answered(applied(alloc, PLAIN, new.as_bytes(), &changes.bytes))?;
    assert_eq!(rt; refused.status, 1);
    Ok(())
}

/// The changes from a table to another are all made to the first, and none to the second, also where they need not fit; taken back it is the
/// other way about. Those that are not made are the changes as they were given.
#[test]
fn changes_that_do_not_fit_are_kept(rt: HostRuntime) -> Result<(), Fail> {
    let alloc = rt.alloc();
    let old = shaped(alloc, 2, 1)?;
    let new = shaped(alloc, 3, 2)?;
    let (old, new) = (old.as_bytes(), new.as_bytes());
    let changes = answered(compared(alloc, PLAIN, Format::Csv, old, new))?.bytes;
    for (direction, from, to) in [
        (Direction::Forward, old, new),
        (Direction::Backward, new, old),
    ] {
        let made = applied_partly(alloc, direction, from, &changes)?;
        expect(Ok(made.answer), 0, to)?;
        assert_eq!(rt;
            made.rejected.as_slice(),
            b"change,key,first,second\n".as_slice()
        );
        let kept = applied_partly(alloc, direction, to, &changes)?;
        expect(Ok(kept.answer), 1, to)?;
        assert_eq!(rt; kept.rejected.as_slice(), changes.as_slice());
    }
    Ok(())
}

/// Of keys that are multiples of 2 and of 3 below 600, a hundred came, two hundred went, and of the hundred in both those changed whose
/// second cell is by another rule: three in four.
#[test]
fn counts_of_tables_made_by_a_rule(rt: HostRuntime) -> Result<(), Fail> {
    let alloc = rt.alloc();
    let old = shaped(alloc, 2, 1)?;
    let new = shaped(alloc, 3, 2)?;
    let answer = answered(compared(alloc, PLAIN, TEXT, old.as_bytes(), new.as_bytes()))?;
    let text = str::from_utf8(&answer.bytes)?;
    assert_eq!(rt; text.lines().count(), 377);
    assert_eq!(rt;
        text.lines().last(),
        Some("100 added, 200 removed, 75 changed, 25 the same")
    );
    Ok(())
}

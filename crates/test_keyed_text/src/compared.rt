//! Tests: two texts compared line by line.

use keyed_lines::{Line, Part, compare_lines, hunks_of};
use std::alloc::{AllocError, Global};
use std::fmt::Write;
use std::test::Fail;

// What becomes of each line: `=` for one that stays, `-` for one that goes, `+` for one that comes.
fn signs(alloc: Global, lines: &[Line<'_>]) -> Result<String, AllocError> {
    let mut signs = String::new(alloc);
    for line in lines {
        signs.push(match line {
            Part::Kept(..) => '=',
            Part::Removed(_) => '-',
            Part::Added(_) => '+',
        })?;
    }
    Ok(signs)
}

// Two texts, what becomes of their lines, and the parts that are shown, as `diff -u` of another program has them.
type Compared = (&'static [u8], &'static [u8], &'static str, &'static str);

#[rattlefmt::skip]
const TEXTS: [Compared; 14] = [
    (b"",                 b"",                 "",            ""),
    (b"a\n",              b"a\n",              "=",           ""),
    (b"a",                b"a\n",              "-+",          "0..2 0..1 0..1;"),
    (b"",                 b"a\nb\n",           "++",          "0..2 0..0 0..2;"),
    (b"a\nb",             b"",                 "--",          "0..2 0..2 0..0;"),
    (b"a\nb\nc\n",        b"a\nx\nc\n",        "=-+=",        "0..4 0..3 0..3;"),
    (b"a\nb\nc\n",        b"b\nc\nd\n",        "-==+",        "0..4 0..3 0..3;"),
    (b"\n\n\n",           b"\n\n",             "==-",         "0..3 0..3 0..2;"),
    (b"a\r\nb\r\n",       b"a\nb\r\n",         "-+=",         "0..3 0..2 0..2;"),
    (b"1\n2\n3\n4\n5\n6\n7\n8\n9\n", b"1\n2\n3\n4\n5\n6\n7\n8\n", "========-", "5..9 5..9 5..8;"),
    (b"1\n2\n3\n4\n5\n6\n7\n8\n9\n", b"x\n2\n3\n4\n5\n6\n7\n8\n9\n", "-+========", "0..5 0..4 0..4;"),
    (b"1\n2\n3\n4\n5\n6\n7\n8\n", b"x\n2\n3\n4\n5\n6\n7\ny\n", "-+======-+", "0..10 0..8 0..8;"),
    (b"1\n2\n3\n4\n5\n6\n7\n8\n9\n", b"x\n2\n3\n4\n5\n6\n7\n8\ny\n", "-+=======-+", "0..5 0..4 0..4;6..11 5..9 5..9;"),
    (b"0\n1\n2\n3\n4\n5\n6\n7\n8\n9\n", b"0\n1\n2\n3\n4\nx\n5\n6\n7\n8\n9\n", "=====+=====", "2..9 2..8 2..9;"),
];

/// As few lines as can be go and come, and three lines are shown around them.
#[test]
fn lines_are_compared(rt: HostRuntime) -> Result<(), Fail> {
    let alloc = rt.alloc();
    for (old, new, wanted, parts) in TEXTS {
        let lines = compare_lines(alloc, old, new)?;
        let found = signs(alloc, &lines)?;
        assert_eq!(rt; found.as_str(), wanted);
        let mut shown = String::new(alloc);
        for hunk in hunks_of(alloc, &lines)? {
            write!(shown, "{:?} {:?} {:?};", hunk.lines, hunk.old, hunk.new)?;
        }
        assert_eq!(rt; shown.as_str(), parts);
    }
    Ok(())
}

// So many lines that no other text has, one that each has, and as many again.
fn lines_around(alloc: Global, count: usize, name: &str) -> Result<String, AllocError> {
    let mut text = String::new(alloc);
    for number in 0..count {
        writeln!(text, "{name}{number}")?;
    }
    text.push_str("the same\n")?;
    for number in 0..count {
        writeln!(text, "{name}{number}")?;
    }
    Ok(text)
}

/// Texts that differ in no more than some hundred lines keep the others; of texts that differ in more than a thousand all lines go and come.
#[test]
fn texts_of_many_lines_are_compared(rt: HostRuntime) -> Result<(), Fail> {
    let alloc = rt.alloc();
    for (count, kept) in [(0, 1), (1, 1), (200, 1), (249, 1), (250, 0), (400, 0)] {
        let old = lines_around(alloc, count, "old")?;
        let new = lines_around(alloc, count, "new")?;
        let lines = compare_lines(alloc, old.as_bytes(), new.as_bytes())?;
        let found = signs(alloc, &lines)?;
        let is_kept = found.chars().filter(|sign| *sign == '=').count();
        assert_eq!(rt; is_kept, kept);
        if kept == 0 {
            let places = found.find('+').unwrap_or(0);
            assert_eq!(rt; places, 2 * count + 1);
        }
    }
    Ok(())
}

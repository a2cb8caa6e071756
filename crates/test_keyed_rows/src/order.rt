//! The order of rows and of keys, beside that of the same cells as vectors of vectors.

use keyed_rows::{Cells, Key};
use std::alloc::{AllocError, Global};
use std::cmp::Ordering;
use std::collections::HashSet;
use std::process::Abort;

type Vectors = Vec<Vec<u8>>;

fn vectors(alloc: Global, cells: &[&[u8]]) -> Result<Vectors, AllocError> {
    let mut row = Vec::new(alloc);
    for cell in cells {
        row.push(Vec::from_slice(alloc, cell)?)?;
    }
    Ok(row)
}

fn packed(alloc: Global, cells: &[Vec<u8>]) -> Result<Cells, AllocError> {
    let mut row = Cells::new(alloc);
    for cell in cells {
        row.push(cell)?;
    }
    Ok(row)
}

// Compares both rows in each form, and both ways.
fn check_two(
    rt: &impl Abort,
    alloc: Global,
    row: &[Vec<u8>],
    other: &[Vec<u8>],
) -> Result<(), AllocError> {
    let order = row.cmp(other);
    let (cells, other_cells) = (packed(alloc, row)?, packed(alloc, other)?);
    assert!(rt; cells.cmp(&other_cells) == order);
    assert!(rt; cells.partial_cmp(&other_cells) == Some(order));
    assert!(rt; (cells == other_cells) == (order == Ordering::Equal));
    let (key, other_key) = (Key::new(cells), Key::new(other_cells));
    assert!(rt; key.cmp(&other_key) == order && other_key.cmp(&key) == order.reverse());
    assert!(rt; key.partial_cmp(&other_key) == Some(order));
    assert!(rt; (key == other_key) == (order == Ordering::Equal));
    assert!(rt; key.clone()? == key && key.clone()?.cmp(&other_key) == order);
    Ok(())
}

// Rows that differ in the number of their cells, in an empty one, in a byte before, at or after the eighth, and in a zero that is a byte
// or is none.
static SHORT: [&[&[u8]]; 28] = [
    &[],
    &[b""],
    &[b"", b""],
    &[b"", b"a"],
    &[b"\0"],
    &[b"\0\0"],
    &[b"\0", b""],
    &[b"\x01"],
    &[b"a"],
    &[b"a", b""],
    &[b"a", b"b"],
    &[b"a\0"],
    &[b"a\0\0\0\0\0\0\0"],
    &[b"a\0\0\0\0\0\0\0\0"],
    &[b"aa"],
    &[b"ab"],
    &[b"b"],
    &[b"customer"],
    &[b"customer", b"a"],
    &[b"customer\0"],
    &[b"customer1"],
    &[b"customer10"],
    &[b"customer2"],
    &[b"customes"],
    &[b"\xfe"],
    &[b"\xff"],
    &[b"\xff\xff\xff\xff\xff\xff\xff\xff"],
    &[b"\xff\xff\xff\xff\xff\xff\xff\xff\xff"],
];

// The short rows, and rows that differ in whether a key keeps them in itself, or in a length that takes one byte or nine.
fn rows(alloc: Global) -> Result<Vec<Vectors>, AllocError> {
    let mut rows = Vec::new(alloc);
    for row in SHORT {
        rows.push(vectors(alloc, row)?)?;
    }
    for length in [28, 29, 30, 31, 254, 255, 300] {
        let mut row = Vec::new(alloc);
        row.push(vec![in alloc; b'a'; length]?)?;
        if length == 300 {
            row.push(Vec::from_slice(alloc, b"a")?)?;
        }
        rows.push(row)?;
    }
    Ok(rows)
}

#[test]
fn rows_have_the_order_of_lists(rt: HostRuntime) -> Result<(), AllocError> {
    let alloc = rt.alloc();
    let rows = rows(alloc)?;
    for row in &rows {
        for other in &rows {
            check_two(&rt, alloc, row, other)?;
        }
    }
    Ok(())
}

// Numbers that are the same on each run.
fn draw(state: &mut u64, below: u64) -> u64 {
    *state = state
        .wrapping_mul(6364136223846793005)
        .wrapping_add(1442695040888963407);
    (*state >> 33) % below.max(1)
}

// A row of few cells and few bytes, so that two often begin alike.
fn drawn(alloc: Global, state: &mut u64) -> Result<Vectors, AllocError> {
    let mut row = Vec::new(alloc);
    for _ in 0..draw(state, 4) {
        let mut cell = Vec::new(alloc);
        for _ in 0..draw(state, 11) {
            cell.push(if draw(state, 3) == 0 { 0 } else { 255 })?;
        }
        row.push(cell)?;
    }
    Ok(row)
}

#[test]
fn drawn_rows_have_the_order_of_lists(rt: HostRuntime) -> Result<(), AllocError> {
    let alloc = rt.alloc();
    let mut state = 1;
    for _ in 0..3000 {
        let (row, other) = (drawn(alloc, &mut state)?, drawn(alloc, &mut state)?);
        check_two(&rt, alloc, &row, &other)?;
        check_two(&rt, alloc, &row, &row)?;
    }
    Ok(())
}

#[test]
fn rows_and_keys_are_found_in_sets(rt: HostRuntime) -> Result<(), AllocError> {
    let alloc = rt.alloc();
    let rows = rows(alloc)?;
    let mut cells: HashSet<Cells> = HashSet::new(alloc);
    let mut keys: HashSet<Key> = HashSet::new(alloc);
    for row in &rows {
        assert!(rt; cells.insert(packed(alloc, row)?)?);
        assert!(rt; keys.insert(Key::new(packed(alloc, row)?))?);
    }
    for row in &rows {
        assert!(rt; cells.contains(&packed(alloc, row)?));
        assert!(rt; keys.contains(&Key::new(packed(alloc, row)?)));
        assert!(rt; !keys.insert(Key::new(packed(alloc, row)?))?);
    }
    assert!(rt; cells.len() == rows.len() && keys.len() == rows.len());
    Ok(())
}

#[test]
fn a_key_keeps_its_cells(rt: HostRuntime) -> Result<(), AllocError> {
    let alloc = rt.alloc();
    for row in &rows(alloc)? {
        let key = Key::new(packed(alloc, row)?);
        let cells = packed(alloc, row)?;
        assert!(rt;
            key.iter().eq(cells.iter()) && Key::copied(&cells)? == key && key.clone()? == key
        );
        assert!(rt; format!(in alloc; "{key:?}")? == format!(in alloc; "{cells:?}")?);
    }
    Ok(())
}

//! Rows of no cell and of many, and cells of each length at which a block is laid out otherwise.

use keyed_rows::{Cells, Key};
use std::alloc::{AllocError, Global};
use std::process::Abort;

fn filled(alloc: Global, count: usize, byte: u8) -> Result<Vec<u8>, AllocError> {
    Ok(vec![in alloc; byte; count]?)
}

// A row of so many cells, of which each has its number in eight bytes.
fn numbered(alloc: Global, count: usize) -> Result<Cells, AllocError> {
    let mut row = Cells::new(alloc);
    for number in 0..count {
        row.push(&(number as u64).to_le_bytes())?;
    }
    Ok(row)
}

fn check_numbered(rt: &impl Abort, row: &Cells, count: usize) {
    assert!(rt; row.len() == count && row.is_empty() == (count == 0));
    let mut number: usize = 0;
    for cell in row {
        assert!(rt; cell == (number as u64).to_le_bytes().as_slice());
        number = number.saturating_add(1);
    }
    assert!(rt; number == count && row.get(count).is_none());
    if 0 < count {
        let last = count.saturating_sub(1);
        assert!(rt; row.get(0) == Some(&[0, 0, 0, 0, 0, 0, 0, 0]));
        assert!(rt; row.get(last) == Some((last as u64).to_le_bytes().as_slice()));
    }
}

#[test]
fn rows_of_no_cell_and_of_many(rt: HostRuntime) -> Result<(), AllocError> {
    let alloc = rt.alloc();
    for count in [0, 1, 2, 254, 255, 256, 65_535, 65_536] {
        let row = numbered(alloc, count)?;
        check_numbered(&rt, &row, count);
        check_numbered(&rt, &row.clone()?, count);
        let key = Key::copied(&row)?;
        assert!(rt; key.clone()? == key && key.iter().eq(row.iter()));
        assert!(rt; row == numbered(alloc, count)?);
        assert!(rt; row < numbered(alloc, count.saturating_add(1))?);
    }
    Ok(())
}

// Whether the row has the long cell between two others.
fn check_cells(rt: &impl Abort, row: &Cells, long: &[u8]) {
    let mut places: usize = 0;
    for cell in row {
        let is_right = match places {
            0 => cell.is_empty(),
            2 => cell == b"x".as_slice(),
            _ => cell == long,
        };
        assert!(rt; is_right);
        places = places.saturating_add(1);
    }
    assert!(rt; places == 4 && row.len() == 4 && row.get(4).is_none());
    assert!(rt; row.get(1).is_some_and(|cell| cell == long));
}

// A row of the long cell between two others, made in both ways.
fn check_long(rt: &impl Abort, alloc: Global, long: &[u8]) -> Result<(), AllocError> {
    let mut pushed = Cells::new(alloc);
    pushed.push(b"")?;
    pushed.push(long)?;
    pushed.push(b"x")?;
    pushed.push(long)?;
    check_cells(rt, &pushed, long);
    check_cells(rt, &pushed.clone()?, long);
    let made = Cells::from_slices(alloc, &[&[], long, &[b'x'], long])?;
    check_cells(rt, &made, long);
    assert!(rt; made == pushed);
    Ok(())
}

#[test]
fn cells_of_each_length(rt: HostRuntime) -> Result<(), AllocError> {
    let alloc = rt.alloc();
    for length in [0, 1, 253, 254, 255, 256, 257, 65_535, 65_536, 70_000] {
        for byte in [0, 1, 254, 255] {
            check_long(&rt, alloc, &filled(alloc, length, byte)?)?;
        }
    }
    Ok(())
}

// So many bytes of 255, put there in blocks that double.
fn doubled(alloc: Global, count: usize) -> Result<Vec<u8>, AllocError> {
    let mut bytes = filled(alloc, 1000, 255)?;
    for _ in 0..64 {
        if count <= bytes.len() {
            break;
        }
        let more = Vec::from_slice(alloc, &bytes)?;
        bytes.extend_from_slice(&more)?;
    }
    bytes.truncate(count);
    Ok(bytes)
}

#[test]
fn a_cell_of_10_mb(rt: HostRuntime) -> Result<(), AllocError> {
    let alloc = rt.alloc();
    let long = doubled(alloc, 10_000_000)?;
    let row = Cells::from_slices(alloc, &[&long, b"x"])?;
    assert!(rt; row.len() == 2 && row.get(1) == Some(b"x"));
    let cell = row.get(0).unwrap_or(b"");
    assert!(rt; cell.len() == 10_000_000);
    assert!(rt; cell.first() == Some(&255) && cell.last() == Some(&255));
    Ok(())
}

#[test]
fn empty_cells_stay_at_either_end(rt: HostRuntime) -> Result<(), AllocError> {
    let alloc = rt.alloc();
    let row = Cells::from_slices(alloc, &[b"", b"a", b"", b""])?;
    assert!(rt; row.len() == 4 && row.get(0) == Some(b"") && row.get(3) == Some(b""));
    assert!(rt; row != Cells::from_slices(alloc, &[b"", b"a", b""])?);
    assert!(rt; row != Cells::from_slices(alloc, &[b"a", b"", b""])?);
    assert!(rt; Cells::from_slices(alloc, &[b""])? != Cells::new(alloc));
    Ok(())
}

#[test]
fn a_row_is_used_again(rt: HostRuntime) -> Result<(), AllocError> {
    let alloc = rt.alloc();
    let mut scratch = Cells::new(alloc);
    for count in [3, 300, 0, 1] {
        scratch.clear();
        assert!(rt; scratch.is_empty() && scratch.len() == 0 && scratch.iter().next().is_none());
        for number in 0..count {
            scratch.push(&(number as u64).to_le_bytes())?;
        }
        let row = scratch.clone()?;
        scratch.push(b"more")?;
        check_numbered(&rt, &row, count);
    }
    Ok(())
}

#[test]
fn a_row_shows_as_its_cells(rt: HostRuntime) -> Result<(), AllocError> {
    let alloc = rt.alloc();
    let row = Cells::from_slices(alloc, &[b"ab", b""])?;
    let text = format!(in alloc; "{row:?}")?;
    assert!(rt; text.as_str() == "[[97, 98], []]");
    Ok(())
}

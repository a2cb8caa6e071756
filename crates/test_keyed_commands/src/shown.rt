//! Tests: cells that differ never look the same to a person, and no control character is shown.

use keyed_commands::{ShownCell, ShownName};
use std::alloc::{AllocError, Global};
use std::test::Fail;

// What escapes and quotes are made of, what stands between the two sides of a change, and bytes that a terminal does not show.
const BYTES: [u8; 9] = [b'"', b'\\', b' ', b'-', b'>', b'n', b'\n', 0xff, b'x'];

// All cells of so many of these bytes at most.
fn cells_up_to(alloc: Global, length: usize) -> Result<Vec<Vec<u8>>, AllocError> {
    let mut cells = Vec::new(alloc);
    let mut longest = Vec::new(alloc);
    longest.push(Vec::new(alloc))?;
    for _ in 0..length {
        let mut longer = Vec::new(alloc);
        for cell in longest {
            for byte in BYTES {
                let mut next = Vec::from_slice(alloc, &cell)?;
                next.push(byte)?;
                longer.push(next)?;
            }
            cells.push(cell)?;
        }
        longest = longer;
    }
    for cell in longest {
        cells.push(cell)?;
    }
    Ok(cells)
}

// Fails unless all texts differ, and none has a control character or ends with a space.
fn expect_apart(mut texts: Vec<String>) -> Result<(), Fail> {
    texts.sort_by(|text, next| text.as_str().cmp(next.as_str()))?;
    for (text, next) in texts.iter().zip(texts.iter().skip(1)) {
        if text == next {
            return Err(Fail::new(format_args!("two cells look like {text}")));
        }
    }
    for text in &texts {
        if text.ends_with(' ') || text.chars().any(|c| c.is_control()) {
            return Err(Fail::new(format_args!("{text:?}")));
        }
    }
    Ok(())
}

const OWN: [&[u8]; 4] = [b"(no row)", b"\"(no row)\"", b"\xe2\x80\x8f", b"\\u{200f}"];

/// No two cells look the same.
#[test]
fn cells_look_different(rt: HostRuntime) -> Result<(), Fail> {
    let alloc = rt.alloc();
    let mut texts = Vec::new(alloc);
    for cell in cells_up_to(alloc, 4)? {
        texts.push(format!(in alloc; "{}", ShownCell(&cell))?)?;
    }
    for cell in OWN {
        texts.push(format!(in alloc; "{}", ShownCell(cell))?)?;
    }
    expect_apart(texts)
}

/// No two pairs of cells look the same where they are the sides of a change, and none looks like one cell.
#[test]
fn changes_look_different(rt: HostRuntime) -> Result<(), Fail> {
    let alloc = rt.alloc();
    let mut texts = Vec::new(alloc);
    for old in cells_up_to(alloc, 2)? {
        for new in cells_up_to(alloc, 2)? {
            if old != new {
                texts.push(format!(in alloc; "{} -> {}", ShownName(&old), ShownName(&new))?)?;
            }
        }
    }
    for cell in cells_up_to(alloc, 4)? {
        texts.push(format!(in alloc; "{}", ShownCell(&cell))?)?;
    }
    expect_apart(texts)
}

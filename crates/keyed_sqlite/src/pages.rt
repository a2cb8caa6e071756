//! The pages of an SQLite file, copied from its bytes.

use crate::problem::Problem;
use sqlite_pages::{Memory, Pages};
use std::alloc::Global;

// What an SQLite file begins with.
const MAGIC: &[u8] = b"SQLite format 3\0";

// How many bytes the header of a file has.
const HEADER: usize = 100;

/// How many bytes at the start of a file tell whether it is an SQLite file.
pub const BEGINNING: usize = 16;

/// Whether bytes begin as those of an SQLite file do.
///
/// ```
/// assert!(rt; is_database(b"SQLite format 3\0 and so on"));
/// assert!(rt; !is_database(b"id,name\n"));
/// ```
pub fn is_database(bytes: &[u8]) -> bool {
    bytes.starts_with(MAGIC)
}

// What the header says of the pages: how many bytes each has, and how many of those are at its end for others than SQLite.
#[derive(Clone, Copy)]
struct Sizes {
    page: usize,
    usable: usize,
}

/// Copies the pages of a file.
///
/// # Errors
///
/// Returns `Damaged` if the bytes are not the header and whole pages of an SQLite file, `Utf16` if its texts are in UTF-16, and `NoMemory`
/// if a request for memory was refused.
pub fn pages_of(alloc: Global, bytes: &[u8]) -> Result<Memory, Problem> {
    let Some(sizes) = sizes_of(bytes) else {
        return Err(Problem::Damaged);
    };
    if has_utf16(bytes) {
        return Err(Problem::Utf16);
    }
    if sizes.usable < 480 || sizes.usable > 65536 {
        return Err(Problem::Damaged);
    }
    let mut pages = Memory::new(alloc, sizes.usable)?;
    copy_pages(&mut pages, bytes, sizes)?;
    Ok(pages)
}

// The sizes that the header says, if it is that of an SQLite file.
fn sizes_of(bytes: &[u8]) -> Option<Sizes> {
    if !is_database(bytes) || bytes.len() < HEADER {
        return None;
    }
    let page = match (*bytes.get(16)?, *bytes.get(17)?) {
        (0, 1) => 65536,
        (high, low) => usize::from(high) * 256 + usize::from(low),
    };
    let reserved = usize::from(*bytes.get(20)?);
    if page < 512 || !page.is_power_of_two() {
        return None;
    }
    Some(Sizes {
        page,
        usable: page.saturating_sub(reserved),
    })
}

// Whether the header says that texts are in UTF-16.
fn has_utf16(bytes: &[u8]) -> bool {
    match bytes.get(56..60) {
        Some(encoding) => encoding == b"\0\0\0\x02".as_slice()
            || encoding == b"\0\0\0\x03".as_slice(),
        None => false,
    }
}

// Copies each page, the first of which is there.
fn copy_pages(pages: &mut Memory, bytes: &[u8], sizes: Sizes) -> Result<(), Problem> {
    let mut rest = bytes;
    for number in 1..u32::MAX {
        if rest.is_empty() {
            return Ok(());
        }
        let (Some(page), Some(next)) = (rest.get(..sizes.usable), rest.get(sizes.page..)) else {
            return Err(Problem::Damaged);
        };
        if number > 1 && pages.allocate()? != number {
            return Err(Problem::Damaged);
        }
        copy_page(pages, number, page)?;
        rest = next;
    }
    Err(Problem::Damaged)
}

fn copy_page(pages: &mut Memory, number: u32, page: &[u8]) -> Result<(), Problem> {
    if pages.loaded().len() != page.len() {
        return Err(Problem::Damaged);
    }
    pages.write(number, page)?;
    Ok(())
}

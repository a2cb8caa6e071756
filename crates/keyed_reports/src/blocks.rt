//! Columns cut into blocks, so that no line of a table takes more columns of a terminal than it may.

use keyed_layout::Line;
use std::alloc::{AllocError, Global};

/// The columns of a table, each with its flag, in blocks: of each block the flags of its columns, which are among them. The columns that
/// stand first in each line take `lead` columns of a terminal, and those with a flag have these widths. A block takes `most` at most,
/// unless one column alone takes more.
///
/// # Errors
///
/// Returns `AllocError` if a request for memory was refused.
pub fn blocks(
    alloc: Global,
    shown: &[bool],
    widths: &[usize],
    lead: usize,
    most: usize,
) -> Result<Vec<Vec<bool>>, AllocError> {
    let mut blocks = Vec::new(alloc);
    let mut block: Vec<bool> = Vec::new(alloc);
    let mut taken = lead;
    let mut widths = widths.iter();
    for is_shown in shown {
        if *is_shown {
            let width = widths
                .next()
                .copied()
                .unwrap_or(0)
                .saturating_add(Line::GAP);
            if taken > lead && taken.saturating_add(width) > most {
                let next = none_of(alloc, block.len())?;
                blocks.push(block)?;
                block = next;
                taken = lead;
            }
            taken = taken.saturating_add(width);
        }
        block.push(*is_shown)?;
    }
    blocks.push(block)?;
    Ok(blocks)
}

// So many flags of columns that are not in a block.
fn none_of(alloc: Global, count: usize) -> Result<Vec<bool>, AllocError> {
    let mut flags = Vec::new(alloc);
    for _ in 0..count {
        flags.push(false)?;
    }
    Ok(flags)
}

/// How many columns of a terminal the first so many columns of a table take.
pub fn lead_of(widths: &[usize], count: usize) -> usize {
    let mut taken: usize = 0;
    for width in widths.get(..count).unwrap_or(widths) {
        taken = taken.saturating_add(*width).saturating_add(Line::GAP);
    }
    taken.saturating_sub(Line::GAP)
}

//! The bytes of a block: each cell as its length and then its bytes.
ghost use Rattle.std.specs.Prelude.{OnErr, OnOk, ◌⊎◌, ◌++◌, ◌^◌, ◌≡◌, ◌<◌, ◌≤◌, ◌∷◌, length, option_map};
ghost use Rattle.std.specs.Prelude.{slice_get, slice_index, take};
ghost use Rattle.std.specs.Cmp.Lexicographic.{slice_cmp};
ghost use Rattle.std.specs.Ordering.{nat_cmp};
ghost use Rattle.keyed_rows.specs.Layout.{IsBlock, cell_code, cells_of, first_len, head_len, length_code};

use std::alloc::AllocError;
use std::cmp::Ordering;

// The length at the start of a block that takes nine bytes.
fn long_length(block: &[u8]) -> usize
    requires room { 8 < length block.now }
    requires long { 255 ≤ slice_index block.now 0 }
    ensures { result ≡ first_len block.now }
{
    usize::from_le_bytes([
        block[1], block[2], block[3], block[4], block[5], block[6], block[7], block[8],
    ])
}

// The first cell of a block, and the block of the others, where the length takes so many bytes and is that.
#[inline(always)]
fn cut(block: &[u8], head: usize, count: usize) -> (&[u8], &[u8])
    requires is_block { IsBlock block.now }
    requires some { 0 < length block.now }
    requires head { head ≡ head_len block.now }
    requires count { count ≡ first_len block.now }
    ensures cells { cells_of block.now ≡ result.0.now ∷ cells_of result.1.now }
    ensures rest { IsBlock result.1.now }
    ensures shorter { length result.1.now < length block.now }
{
    let (_, cells) = block.split_at(head);
    cells.split_at(count)
}

// The first cell of a block, and the block of the others.
#[inline(always)]
pub(crate) fn split_first(block: &[u8]) -> (&[u8], &[u8])
    requires is_block { IsBlock block.now }
    requires some { 0 < length block.now }
    ensures cells { cells_of block.now ≡ result.0.now ∷ cells_of result.1.now }
    ensures rest { IsBlock result.1.now }
    ensures shorter { length result.1.now < length block.now }
{
    let count = block[0];
    if count < 255 {
        cut(block, 1, count as usize)
    } else {
        cut(block, 9, long_length(block))
    }
}

// The order of two lists of cells: the first cells that differ decide.
#[tactic(auto, using(crate::proofs::Facts::cells_of_none))]
pub(crate) fn compare(block: &[u8], other: &[u8]) -> Ordering
    requires block { IsBlock block.now }
    requires other { IsBlock other.now }
    ensures { result ≡ slice_cmp (slice_cmp nat_cmp) (cells_of block.now) (cells_of other.now) }
{
    let (mut left, mut right) = (block, other);
    while !left.is_empty() && !right.is_empty() {
        let (cell, left_rest) = split_first(left);
        let (other_cell, right_rest) = split_first(right);
        match cell.cmp(other_cell) {
            Ordering::Equal => {
                left = left_rest;
                right = right_rest;
            }
            order => return order,
        }
    }
    compare_ends(left, right)
}

// The order of two lists of cells of which one is empty.
#[tactic(auto, using(crate::proofs::Facts::cells_of_none, crate::proofs::Facts::cells_of_some))]
fn compare_ends(block: &[u8], other: &[u8]) -> Ordering
    requires block { IsBlock block.now }
    requires other { IsBlock other.now }
    requires ends { (length block.now ≡ 0) ⊎ (length other.now ≡ 0) }
    ensures { result ≡ slice_cmp (slice_cmp nat_cmp) (cells_of block.now) (cells_of other.now) }
{
    if !other.is_empty() {
        return Ordering::Less;
    }
    if block.is_empty() {
        Ordering::Equal
    } else {
        Ordering::Greater
    }
}

// How many cells a block has.
#[tactic(auto, using(crate::proofs::Facts::cells_of_none))]
pub(crate) fn count(block: &[u8]) -> usize
    requires { IsBlock block.now }
    ensures { result ≡ length (cells_of block.now) }
{
    let mut rest = block;
    let mut count = 0;
    while !rest.is_empty() {
        rest = split_first(rest).1;
        count += 1;
    }
    count
}

// The cell at a place.
#[tactic(auto, using(crate::proofs::Facts::cells_of_none))]
pub(crate) fn at(block: &[u8], place: usize) -> Option<&[u8]>
    requires { IsBlock block.now }
    ensures { option_map (λ cell. cell.now) result ≡ slice_get (cells_of block.now) place }
{
    let mut rest = block;
    for i in 0..place {
        if rest.is_empty() {
            return None;
        }
        rest = split_first(rest).1;
    }
    if rest.is_empty() {
        None
    } else {
        Some(split_first(rest).0)
    }
}

// Puts a length after a block.
#[tactic(auto, using(crate::proofs::Facts::length_code_short, crate::proofs::Facts::length_code_long))]
fn put_length(block: &mut Vec<u8>, count: usize) -> Result<(), AllocError>
    ensures put { OnOk result (block.new.items ≡ block.old.items ++ length_code count) }
    ensures kept { take (length block.old.items) block.new.items ≡ block.old.items }
{
    if count < 255 {
        block.push(count as u8)?;
        Ok(())
    } else {
        block.push(255)?;
        block.extend_from_slice(&count.to_le_bytes())?;
        Ok(())
    }
}

// Puts a cell after a block, and part of it where a request for memory was refused.
#[tactic(auto, using(crate::proofs::Facts::cell_code_is))]
fn put_cell(block: &mut Vec<u8>, cell: &[u8]) -> Result<(), AllocError>
    ensures put { OnOk result (block.new.items ≡ block.old.items ++ cell_code cell.now) }
    ensures kept { take (length block.old.items) block.new.items ≡ block.old.items }
{
    put_length(block, cell.len())?;
    block.extend_from_slice(cell)?;
    Ok(())
}

// Puts a cell after a block.
pub(crate) fn append(block: &mut Vec<u8>, cell: &[u8]) -> Result<(), AllocError>
    ensures put { OnOk result (block.new.items ≡ block.old.items ++ cell_code cell.now) }
    ensures kept { OnErr result (block.new.items ≡ block.old.items) }
{
    let before = block.len();
    let done = put_cell(block, cell);
    if done.is_err() {
        block.truncate(before);
    }
    done
}

// A block has no more bytes than a `usize` can count.
pub(crate) fn count_fits(block: &Vec<u8>)
    ensures { length block.now.items < 2 ^ 64 }
{
    let _count = block.len();
}

// How many bytes a cell takes in a block, or the greatest number.
fn room_of(cell: &[u8]) -> usize {
    let head = if cell.len() < 255 { 1 } else { 9 };
    cell.len().saturating_add(head)
}

// How many bytes cells take in a block, or the greatest number.
pub(crate) fn room(cells: &[&[u8]]) -> usize {
    let mut sum = 0_usize;
    for cell in cells {
        sum = sum.saturating_add(room_of(cell));
    }
    sum
}

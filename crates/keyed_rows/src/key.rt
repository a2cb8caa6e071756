//! The key of a row, with its first eight bytes beside its cells.
ghost use Rattle.std.specs.Prelude.{◌≡◌, ◌^◌, ◌<◌, IfOk, IfSome, Some, get_or, length, nat_eq, refl};
ghost use Rattle.std.specs.Cmp.{partial_equiv_from_equiv, partial_order_from_agreeing_total};
ghost use Rattle.std.specs.Cmp.Lexicographic.{bytes_decides, lists_equiv, lists_ties, lists_total};
ghost use Rattle.std.specs.Cmp.Lexicographic.{nat_list_cmp_total, nat_list_eq_equiv, pointwise};
ghost use Rattle.std.specs.Cmp.Lexicographic.{pointwise_decides, slice_cmp, texts_ties};
ghost use Rattle.std.specs.Hash as fed;
ghost use Rattle.std.specs.Ordering.{nat_cmp};
ghost use Rattle.keyed_rows.specs.Beginning.{Begins, KeyBegins};
ghost use Rattle.keyed_rows.specs.Kept.{block_in};
ghost use Rattle.keyed_rows.specs.Layout.{IsBlock, cells_of, code};

use crate::block;
use crate::cells::Cells;
use crate::iter::Iter;
use std::alloc::AllocError;
use std::cmp::Ordering;
use std::fmt;
use std::hash::{Hash, Hasher};
use std::marker::Model;

// How many bytes of cells, each with its length, a key holds with no memory of its own: with them it takes 40 bytes.
const ROOM: usize = 30;

/// The cells of a row's key, in the order of their list.
///
/// Beside the cells stand the first eight bytes of the first one, so that most keys are compared with no look at the others. A key whose
/// cells take 30 bytes at most, each with one for its length, takes no memory of its own. Beside that a key is what its [`Cells`] are: it
/// has their value, their order and their hash.
///
/// ```
/// let apple = Key::new(Cells::from_slices(alloc, &[b"apple"])?);
/// let pear = Key::new(Cells::from_slices(alloc, &[b"pear"])?);
/// assert!(rt; apple < pear && pear.iter().next() == Some(b"pear"));
/// ```
#[derive(Drop)]
pub struct Key {
    // The first eight bytes of the first cell as a number, with zeros after a shorter one: a key with a lesser number is less.
    first: u64,
    kept: Kept,
}

// The block of a key's cells: in the key itself, or as cells of its own.
#[derive(Drop)]
enum Kept {
    Short { count: u8, bytes: [u8; ROOM] },
    Long(Cells),
}

impl Model for Key {
    ghost use Rattle.std.specs.Prelude.{List, ℕ};
    ghost use Rattle.keyed_rows.specs.Beginning.{KeyBegins};
    ghost use Rattle.keyed_rows.specs.Kept.{block_in};
    ghost use Rattle.keyed_rows.specs.Layout.{IsBlock, cells_of};

    ghost Value = { List (List ℕ) };

    ghost view = { λ a. cells_of (block_in a.kept) };

    ghost invariant = { λ a. IsBlock (block_in a.kept) × KeyBegins (cells_of (block_in a.kept)) a.first };
}

impl Key {
    /// Returns the key of these cells. Takes no memory.
    ///
    /// ```
    /// let key = Key::new(Cells::from_slices(alloc, &[b"apple", b"red"])?);
    /// assert!(rt; key.iter().count() == 2);
    /// ```
    pub fn new(cells: Cells) -> Self
        ensures { result ≡ cells }
    {
        let first = first_of(&cells);
        let kept = keep(cells);
        Key { first, kept }
    }

    /// Returns the key of a copy of these cells. Takes one request for memory, or none where they take 30 bytes at most.
    ///
    /// # Errors
    ///
    /// `AllocError` if the request for memory was refused.
    ///
    /// ```
    /// let key = Key::copied(&Cells::from_slices(alloc, &[b"apple"])?)?;
    /// assert!(rt; key.iter().next() == Some(b"apple"));
    /// ```
    pub fn copied(cells: &Cells) -> Result<Self, AllocError>
        ensures { IfOk result (λ key. key ≡ cells.now) }
    {
        let first = first_of(cells);
        let kept = keep_copy(cells)?;
        Ok(Key { first, kept })
    }

    /// Returns an iterator over the cells of the key, first to last.
    ///
    /// ```
    /// let key = Key::new(Cells::from_slices(alloc, &[b"apple"])?);
    /// assert!(rt; key.iter().next() == Some(b"apple"));
    /// ```
    #[tactic(auto, using(crate::proofs::Facts::cells_fit))]
    pub fn iter(&self) -> Iter<'_>
        ensures rest { result ≡ self.now }
        ensures bound { length self.now < 2 ^ 64 }
    {
        Iter::new(self.block())
    }

    // The bytes of the cells.
    #[inline(always)]
    fn block(&self) -> &[u8]
        ensures is_block { IsBlock result.now }
        ensures cells { self.now ≡ cells_of result.now }
    {
        bytes_of(&self.kept)
    }
}

// The bytes of cells that are kept.
#[inline(always)]
fn bytes_of(kept: &Kept) -> &[u8]
    ensures { result.now ≡ block_in kept.now }
{
    match kept {
        Kept::Short { count, bytes } => match bytes.get(..*count as usize) {
            Some(block) => block,
            None => bytes,
        },
        Kept::Long(cells) => cells.block(),
    }
}

// Keeps cells: in the key where there is room.
fn keep(cells: Cells) -> Kept
    ensures is_block { IsBlock (block_in result) }
    ensures cells { cells_of (block_in result) ≡ cells }
{
    match shorten(cells.block()) {
        Some(kept) => kept,
        None => Kept::Long(cells),
    }
}

// Keeps a copy of cells: in the key where there is room.
fn keep_copy(cells: &Cells) -> Result<Kept, AllocError>
    ensures is_block { IfOk result (λ kept. IsBlock (block_in kept)) }
    ensures cells { IfOk result (λ kept. cells_of (block_in kept) ≡ cells.now) }
{
    match shorten(cells.block()) {
        Some(kept) => Ok(kept),
        None => Ok(keep(cells.clone()?)),
    }
}

// A block in a key itself, if there is room.
fn shorten(block: &[u8]) -> Option<Kept>
    ensures { IfSome result (λ kept. block_in kept ≡ block.now) }
{
    if block.len() > ROOM {
        return None;
    }
    let mut bytes = [0; ROOM];
    bytes[..block.len()].copy_from_slice(block);
    Some(Kept::Short {
        count: block.len() as u8,
        bytes,
    })
}

// The first eight bytes of the first cell.
fn first_of(cells: &Cells) -> u64
    ensures { KeyBegins cells.now result }
{
    match cells.get(0) {
        Some(cell) => first_bytes(cell),
        None => 0,
    }
}

// The first eight bytes, with zeros after a cell that is shorter.
fn first_bytes(cell: &[u8]) -> u64
    ensures { Begins cell.now result }
{
    u64::from_be_bytes([
        byte_at(cell, 0),
        byte_at(cell, 1),
        byte_at(cell, 2),
        byte_at(cell, 3),
        byte_at(cell, 4),
        byte_at(cell, 5),
        byte_at(cell, 6),
        byte_at(cell, 7),
    ])
}

// The byte at a place, or zero after the last.
fn byte_at(cell: &[u8], place: usize) -> u8
    ensures { result ≡ get_or cell.now place 0 }
{
    cell.get(place).copied().unwrap_or(0)
}

// The same cells, kept once more.
fn copy_of(kept: &Kept) -> Result<Kept, AllocError>
    ensures { IfOk result (λ copy. copy ≡ kept.now) }
{
    match kept {
        Kept::Short { count, bytes } => Ok(Kept::Short {
            count: *count,
            bytes: *bytes,
        }),
        Kept::Long(cells) => Ok(Kept::Long(cells.clone()?)),
    }
}

impl Clone for Key {
    ghost is_clone = { λ key copy. copy ≡ key };

    fn clone(&self) -> Result<Self, AllocError> {
        let kept = copy_of(&self.kept)?;
        Ok(Key {
            first: self.first,
            kept,
        })
    }
}

impl PartialEq for Key {
    ghost eq = { pointwise (pointwise nat_eq) };

    ghost laws = { partial_equiv_from_equiv (lists_equiv nat_list_eq_equiv) };

    #[tactic(auto, using(crate::proofs::Facts::same_blocks))]
    fn eq(&self, other: &Self) -> bool {
        self.block() == other.block()
    }
}

impl Eq for Key {
    ghost laws = { lists_equiv nat_list_eq_equiv };
}

impl PartialOrd for Key {
    ghost partial_cmp = { λ key other. Some (slice_cmp (slice_cmp nat_cmp) key other) };

    ghost laws = { partial_order_from_agreeing_total (slice_cmp (slice_cmp nat_cmp))
        (lists_total nat_list_cmp_total) (λ x y. refl) (lists_ties (slice_cmp nat_cmp) texts_ties) };

    fn partial_cmp(&self, other: &Self) -> Option<Ordering> {
        Some(self.cmp(other))
    }
}

impl Ord for Key {
    ghost cmp = { slice_cmp (slice_cmp nat_cmp) };

    ghost total = { lists_total nat_list_cmp_total };

    ghost matches_partial_cmp = { λ x y. refl };

    ghost matches_eq = { lists_ties (slice_cmp nat_cmp) texts_ties };

    fn cmp(&self, other: &Self) -> Ordering {
        match self.first.cmp(&other.first) {
            Ordering::Equal => block::compare(self.block(), other.block()),
            order => order,
        }
    }
}

impl Hash for Key {
    ghost hash_input = { λ key. fed.slice fed.u8 (code key) };

    ghost respects_eq = { (fed.same_Alike (λ key. fed.slice fed.u8 (code key))
        (pointwise_decides bytes_decides)).fed };

    fn hash<H: Hasher>(&self, state: &mut H) {
        self.block().hash(state);
    }
}

/// As a list of its cells, each a list of its bytes.
impl fmt::Debug for Key {
    fn fmt<W: fmt::Write>(&self, f: &mut fmt::Formatter<W>) -> fmt::Result {
        f.debug_list().entries(self.iter()).finish()
    }
}

//! Cells in one block of memory, and what is done with them.
ghost use Rattle.std.specs.Prelude.{◌≡◌, ◌==◌, ◌^◌, ◌<◌, IfOk, OnErr, OnOk, Some, [], ◌∷◌, ◌++◌, length, map};
ghost use Rattle.std.specs.Prelude.{nat_eq, option_map, refl, slice_get};
ghost use Rattle.std.specs.Cmp.{partial_equiv_from_equiv, partial_order_from_agreeing_total};
ghost use Rattle.std.specs.Cmp.Lexicographic.{bytes_decides, lists_equiv, lists_ties, lists_total};
ghost use Rattle.std.specs.Cmp.Lexicographic.{nat_list_cmp_total, nat_list_eq_equiv, pointwise};
ghost use Rattle.std.specs.Cmp.Lexicographic.{pointwise_decides, slice_cmp, texts_ties};
ghost use Rattle.std.specs.Hash as fed;
ghost use Rattle.std.specs.Ordering.{nat_cmp};
ghost use Rattle.keyed_rows.specs.Layout.{IsBlock, cells_of, code};

use crate::block;
use crate::iter::Iter;
use std::alloc::{AllocError, Global};
use std::cmp::Ordering;
use std::fmt;
use std::hash::{Hash, Hasher};
use std::marker::Model;

/// Cells of bytes, in one block of memory: a row of a table, the key of a row, or the names of columns.
///
/// Each cell stands there as its length and its bytes. The length takes one byte where it is below 255, and else nine. A row of no cell
/// takes no memory, and a copy takes one request, of just its size. Rows are ordered by their first cells that differ, as lists of
/// cells are.
///
/// What asks for a cell by its place walks to it from the first one. A loop over a row takes [`Cells::iter`].
///
/// ```
/// let row = Cells::from_slices(alloc, &[b"id", b"", b"price"])?;
/// assert!(rt; row.len() == 3 && row.get(2) == Some(b"price") && row.get(3).is_none());
/// ```
#[derive(Drop)]
pub struct Cells {
    block: Vec<u8>,
}

impl Model for Cells {
    ghost use Rattle.std.specs.Prelude.{List, ℕ};
    ghost use Rattle.keyed_rows.specs.Layout.{IsBlock, cells_of};

    ghost Value = { List (List ℕ) };

    ghost view = { λ a. cells_of a.block.items };

    ghost invariant = { λ a. IsBlock a.block.items };
}

impl Cells {
    /// Returns a row of no cell. Takes no memory.
    ///
    /// ```
    /// assert!(rt; Cells::new(alloc).is_empty());
    /// ```
    #[tactic(auto, using(crate::proofs::Facts::is_block_none, crate::proofs::Facts::cells_of_none))]
    pub fn new(alloc: Global) -> Self
        ensures { result ≡ [] }
    {
        Cells {
            block: Vec::new(alloc),
        }
    }

    /// Returns a row of these cells.
    ///
    /// # Errors
    ///
    /// `AllocError` if the one request for memory was refused, or the cells take more bytes than there can be.
    ///
    /// ```
    /// let row = Cells::from_slices(alloc, &[b"id", b"price"])?;
    /// assert!(rt; row.len() == 2);
    /// ```
    pub fn from_slices(alloc: Global, cells: &[&[u8]]) -> Result<Self, AllocError>
        ensures { IfOk result (λ row. row ≡ map (λ cell. cell.now) cells.now) }
    {
        let mut block = Vec::with_capacity(alloc, block::room(cells))?;
        for cell in cells {
            block::append(&mut block, cell)?;
        }
        block::count_fits(&block);
        Ok(Cells { block })
    }

    /// Puts a cell after the others.
    ///
    /// # Errors
    ///
    /// `AllocError` if a request for memory was refused: then the cells stay as they were.
    ///
    /// ```
    /// let mut row = Cells::new(alloc);
    /// row.push(b"id")?;
    /// assert!(rt; row.get(0) == Some(b"id"));
    /// ```
    pub fn push(&mut self, cell: &[u8]) -> Result<(), AllocError>
        ensures pushed { OnOk result (self.new ≡ self.old ++ cell.now ∷ []) }
        ensures kept { OnErr result (self.new ≡ self.old) }
    {
        block::append(&mut self.block, cell)?;
        block::count_fits(&self.block);
        Ok(())
    }

    /// Removes all cells. Their memory stays, for the cells that come next.
    ///
    /// ```
    /// let mut row = Cells::from_slices(alloc, &[b"id"])?;
    /// row.clear();
    /// assert!(rt; row.is_empty());
    /// ```
    #[tactic(auto, using(crate::proofs::Facts::is_block_none, crate::proofs::Facts::cells_of_none))]
    pub fn clear(&mut self)
        ensures { self.new ≡ [] }
    {
        self.block.clear();
    }

    /// Returns how many cells there are. Takes a step for each cell.
    ///
    /// ```
    /// let row = Cells::from_slices(alloc, &[b"id", b""])?;
    /// assert!(rt; row.len() == 2);
    /// ```
    pub fn len(&self) -> usize
        ensures { result ≡ length self.now }
    {
        block::count(&self.block)
    }

    /// Returns `true` if there is no cell.
    ///
    /// ```
    /// let row = Cells::from_slices(alloc, &[b""])?;
    /// assert!(rt; !row.is_empty());
    /// ```
    #[tactic(auto, using(crate::proofs::Facts::none_alike))]
    pub fn is_empty(&self) -> bool
        ensures { result ≡ (length self.now == 0) }
    {
        self.block.is_empty()
    }

    /// Returns the cell at a place, if there is one. Takes a step for each cell before it: a loop over a row takes [`Cells::iter`].
    ///
    /// ```
    /// let row = Cells::from_slices(alloc, &[b"id", b"price"])?;
    /// assert!(rt; row.get(1) == Some(b"price") && row.get(2).is_none());
    /// ```
    pub fn get(&self, place: usize) -> Option<&[u8]>
        ensures { option_map (λ cell. cell.now) result ≡ slice_get self.now place }
    {
        block::at(&self.block, place)
    }

    /// Returns an iterator over the cells, first to last.
    ///
    /// ```
    /// let row = Cells::from_slices(alloc, &[b"id", b"price"])?;
    /// let cells: Vec<&[u8]> = row.iter().collect(alloc)?;
    /// assert!(rt; cells.len() == 2 && cells[1] == b"price");
    /// ```
    #[tactic(auto, using(crate::proofs::Facts::cells_fit))]
    pub fn iter(&self) -> Iter<'_>
        ensures rest { result ≡ self.now }
        ensures bound { length self.now < 2 ^ 64 }
    {
        Iter::new(&self.block)
    }

    // The bytes of the cells.
    #[inline(always)]
    pub(crate) fn block(&self) -> &[u8]
        ensures code { result.now ≡ code self.now }
        ensures cells { self.now ≡ cells_of result.now }
        ensures is_block { IsBlock result.now }
    {
        &self.block
    }
}

impl<'a> IntoIterator for &'a Cells {
    type Item = &'a [u8];

    type IntoIter = Iter<'a>;

    ghost into_iter_gives = { λ cells it. it ≡ cells.now };

    fn into_iter(self) -> Iter<'a> {
        self.iter()
    }
}

impl Clone for Cells {
    ghost is_clone = { λ cells copy. copy ≡ cells };

    fn clone(&self) -> Result<Self, AllocError> {
        let block = Vec::from_slice(*self.block.allocator(), &self.block)?;
        Ok(Cells { block })
    }
}

impl PartialEq for Cells {
    ghost eq = { pointwise (pointwise nat_eq) };

    ghost laws = { partial_equiv_from_equiv (lists_equiv nat_list_eq_equiv) };

    #[tactic(auto, using(crate::proofs::Facts::same_blocks))]
    fn eq(&self, other: &Self) -> bool {
        self.block == other.block
    }
}

impl Eq for Cells {
    ghost laws = { lists_equiv nat_list_eq_equiv };
}

impl PartialOrd for Cells {
    ghost partial_cmp = { λ cells other. Some (slice_cmp (slice_cmp nat_cmp) cells other) };

    ghost laws = { partial_order_from_agreeing_total (slice_cmp (slice_cmp nat_cmp))
        (lists_total nat_list_cmp_total) (λ x y. refl) (lists_ties (slice_cmp nat_cmp) texts_ties) };

    fn partial_cmp(&self, other: &Self) -> Option<Ordering> {
        Some(self.cmp(other))
    }
}

impl Ord for Cells {
    ghost cmp = { slice_cmp (slice_cmp nat_cmp) };

    ghost total = { lists_total nat_list_cmp_total };

    ghost matches_partial_cmp = { λ x y. refl };

    ghost matches_eq = { lists_ties (slice_cmp nat_cmp) texts_ties };

    fn cmp(&self, other: &Self) -> Ordering {
        block::compare(&self.block, &other.block)
    }
}

impl Hash for Cells {
    ghost hash_input = { λ cells. fed.slice fed.u8 (code cells) };

    ghost respects_eq = { (fed.same_Alike (λ cells. fed.slice fed.u8 (code cells))
        (pointwise_decides bytes_decides)).fed };

    fn hash<H: Hasher>(&self, state: &mut H) {
        self.block.hash(state);
    }
}

/// As a list of cells, each a list of its bytes.
impl fmt::Debug for Cells {
    fn fmt<W: fmt::Write>(&self, f: &mut fmt::Formatter<W>) -> fmt::Result {
        f.debug_list().entries(self.iter()).finish()
    }
}

//! The cells of a row, one after another.
ghost use Rattle.std.specs.Prelude.{◌≡◌};
ghost use Rattle.std.specs.Iterator.{YieldsFirstRef, item_count};
ghost use Rattle.keyed_rows.specs.Layout.{IsBlock, cells_of};

use crate::block::split_first;
use std::marker::Model;

/// An iterator over the cells of a row, which [`Cells::iter`](crate::Cells::iter) returns.
///
/// ```
/// let row = Cells::from_slices(alloc, &[b"id", b"price"])?;
/// let mut cells = row.iter();
/// assert!(rt; cells.next() == Some(b"id") && cells.next() == Some(b"price") && cells.next().is_none());
/// ```
#[derive(Drop)]
pub struct Iter<'a> {
    rest: &'a [u8],
}

impl<'a> Model for Iter<'a> {
    ghost use Rattle.std.specs.Prelude.{List, ℕ};
    ghost use Rattle.keyed_rows.specs.Layout.{IsBlock, cells_of};

    ghost Value = { List (List ℕ) };

    ghost view = { λ a. cells_of a.rest.now };

    ghost invariant = { λ a. IsBlock a.rest.now };
}

impl<'a> Iter<'a> {
    // The cells of a block.
    pub(crate) fn new(block: &'a [u8]) -> Self
        requires { IsBlock block.now }
        ensures { result ≡ cells_of block.now }
    {
        Iter { rest: block }
    }
}

impl<'a> Iterator for Iter<'a> {
    type Item = &'a [u8];

    ghost next_gives = { YieldsFirstRef (λ cells. cells) };

    ghost remaining = { item_count (λ cells. cells) };

    #[inline(always)]
    #[tactic(auto, using(crate::proofs::Facts::cells_of_none))]
    fn next(&mut self) -> Option<&'a [u8]> {
        if self.rest.is_empty() {
            return None;
        }
        let (cell, rest) = split_first(self.rest);
        self.rest = rest;
        Some(cell)
    }
}

//! The cells of a row in the order of its columns.
ghost use Rattle.std.specs.Prelude.{◌≡◌, ◌^◌, ◌<◌, ◌≤◌, drop, length, option_map, slice_get};
ghost use Rattle.keyed_columns.specs.Placed.{cell_placed, rest_behind};

use crate::columns::Place;
use keyed_rows::{Cells, Iter, Key};

/// The cells of a row, taken one by one in an order of columns: those of its key and its other cells.
#[derive(Drop)]
pub struct PlacedCells<'a> {
    key: CellsByPlace<'a>,
    rest: Iter<'a>,
}

impl<'a> PlacedCells<'a> {
    /// The cells of a key and those beside it, of which none is taken yet.
    #[inline(always)]
    pub fn new(key: &'a Key, rest: &'a Cells) -> Self
        ensures key { result.key.cells.now ≡ key.now }
        ensures rest { result.rest ≡ rest.now }
    {
        PlacedCells {
            key: CellsByPlace::new(key),
            rest: rest.iter(),
        }
    }

    /// The cell of the next column, which stands at this place, or an empty one where the row has none there.
    #[inline(always)]
    pub fn take(&mut self, place: Place) -> &'a [u8]
        ensures cell { result.now ≡ cell_placed place self.old.key.cells.now self.old.rest }
        ensures rest { self.new.rest ≡ rest_behind place self.old.rest }
        ensures key { self.new.key.cells.now ≡ self.old.key.cells.now }
    {
        match place {
            Place::Key(place) => match self.key.get(place) {
                Some(cell) => cell,
                None => b"",
            },
            Place::Rest => match self.rest.next() {
                Some(cell) => cell,
                None => b"",
            },
        }
    }
}

// The cells of a key, found by their places: the next place takes one step, and only an earlier one begins anew.
#[derive(Drop)]
struct CellsByPlace<'a> {
    cells: &'a Key,
    next: Iter<'a>,
    place: usize,
    ghost left: { next ≡ drop place cells.now },
    ghost bound: { length cells.now < 2 ^ 64 },
}

impl<'a> CellsByPlace<'a> {
    // At the first cell.
    fn new(cells: &'a Key) -> Self
        ensures cells { result.cells.now ≡ cells.now }
        ensures place { result.place ≡ 0 }
    {
        CellsByPlace {
            cells,
            next: cells.iter(),
            place: 0,
        }
    }

    // The cell at a place, if there is one.
    fn get(&mut self, place: usize) -> Option<&'a [u8]>
        ensures cell { option_map (λ cell. cell.now) result ≡ slice_get self.old.cells.now place }
        ensures cells { self.new.cells.now ≡ self.old.cells.now }
    {
        if place < self.place {
            *self = CellsByPlace::new(self.cells);
        }
        self.get_ahead(place)
    }

    // The cell at a place that was not passed, if there is one.
    fn get_ahead(&mut self, place: usize) -> Option<&'a [u8]>
        requires { self.old.place ≤ place }
        ensures cell { option_map (λ cell. cell.now) result ≡ slice_get self.old.cells.now place }
        ensures cells { self.new.cells.now ≡ self.old.cells.now }
    {
        let cell = self.next.nth(place - self.place);
        self.place = place.saturating_add(1);
        cell
    }
}

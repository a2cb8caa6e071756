//! Names of columns, each found in one step however many there are.
ghost use Rattle.std.specs.Prelude.{◌≡◌, ◌++◌, ◌∷◌, ◌^◌, ◌<◌, [], IfOk, IfSome, OnOk, nat_eq, not, true};
ghost use Rattle.std.specs.Cmp.Lexicographic.{pointwise};
ghost use Rattle.std.specs.List.{list_any};
ghost use Rattle.indexmap.specs.IndexSet.{insert_all, insert_key};
ghost use Rattle.keyed_columns.specs.Names.{names_in, place_in};

use indexmap::IndexSet;
use keyed_rows::Cells;
use std::alloc::{AllocError, Global};

/// Names in an order, each once.
#[derive(Drop)]
pub struct Names {
    names: IndexSet<Vec<u8>>,
}

impl Names {
    /// No name.
    pub fn new(alloc: Global) -> Self
        ensures { names_in result ≡ [] }
    {
        Names {
            names: IndexSet::new(alloc),
        }
    }

    /// These names, of those that are the same the first.
    ///
    /// # Errors
    ///
    /// Returns `AllocError` if a request for memory was refused.
    pub fn of_cells(alloc: Global, cells: &Cells) -> Result<Self, AllocError>
        ensures { IfOk result (λ names. names_in names ≡ insert_all (pointwise nat_eq) [] cells.now) }
    {
        let mut names = Names::new(alloc);
        names.add_all(alloc, cells)?;
        Ok(names)
    }

    /// Puts names after the others, each unless it is one of them.
    ///
    /// # Errors
    ///
    /// Returns `AllocError` if a request for memory was refused.
    pub fn add_all(&mut self, alloc: Global, cells: &Cells) -> Result<(), AllocError>
        ensures { OnOk result
            (names_in self.new ≡ insert_all (pointwise nat_eq) (names_in self.old) cells.now) }
    {
        for name in cells {
            self.add(alloc, name)?;
        }
        Ok(())
    }

    /// Puts a name after the others unless it is one of them, and returns whether it is new.
    ///
    /// # Errors
    ///
    /// Returns `AllocError` if a request for memory was refused.
    pub fn add(&mut self, alloc: Global, name: &[u8]) -> Result<bool, AllocError>
        ensures names { OnOk result
            (names_in self.new ≡ insert_key (pointwise nat_eq) (names_in self.old) name.now) }
        ensures is_new { IfOk result
            (λ is_new. is_new ≡ not (list_any (pointwise nat_eq name.now) (names_in self.old))) }
        ensures behind { IfOk result
            (λ is_new. is_new ≡ true → names_in self.new ≡ names_in self.old ++ name.now ∷ []) }
    {
        let is_new = self.names.insert(Vec::from_slice(alloc, name)?)?;
        Ok(is_new)
    }

    /// These names in one block.
    ///
    /// # Errors
    ///
    /// Returns `AllocError` if a request for memory was refused.
    pub fn to_cells(&self, alloc: Global) -> Result<Cells, AllocError>
        ensures { IfOk result (λ cells. cells ≡ names_in self.now) }
    {
        let mut cells = Cells::new(alloc);
        for name in self.names.as_slice() {
            cells.push(name)?;
        }
        Ok(cells)
    }

    /// How many names these are.
    pub fn len(&self) -> usize {
        self.names.len()
    }

    /// Where a name stands, if it is one of these.
    pub fn place_of(&self, name: &[u8]) -> Option<usize>
        ensures place { result ≡ place_in (names_in self.now) name.now }
        ensures bound { IfSome result (λ place. place < 2 ^ 63) }
    {
        match self.names.get_index_of(name) {
            // Each place is less than that, which is less than a place may be.
            Some(place) => Some(place.min(self.names.len())),
            None => None,
        }
    }

    /// Whether a name is one of these.
    pub fn has(&self, name: &[u8]) -> bool
        ensures { result ≡ list_any (pointwise nat_eq name.now) (names_in self.now) }
    {
        self.names.contains(name)
    }
}

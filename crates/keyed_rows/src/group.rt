//! The rows of a table that have the same key.
ghost use Rattle.std.specs.Prelude.{◌≡◌, IfOk, [], ◌∷◌, ◌++◌, nat_eq};
ghost use Rattle.std.specs.Cmp.{partial_equiv_from_equiv};
ghost use Rattle.std.specs.Cmp.Lexicographic.{lists_equiv, nat_list_eq_equiv, pointwise};

use crate::cells::Cells;
use std::alloc::{AllocError, Global};
use std::marker::Model;
use std::mem::ManuallyDrop;
use std::{fmt, slice};

/// When the memory of a row is given back.
///
/// Rows are dropped in the order of their keys, which is any order in memory. Where there are many, an allocator takes a quarter of a run to
/// put their blocks together, though the run ends next. Such rows may last.
#[derive(Clone, Copy, Debug)]
pub enum Release {
    /// When the row is dropped.
    AtDrop,
    /// When the process ends.
    AtExit,
}

/// The rows under a key, without the key, in an order of their own: one, or where keys repeat several. One row alone takes no vector.
///
/// ```
/// let red = Cells::from_slices(alloc, &[b"red"])?;
/// let green = Cells::from_slices(alloc, &[b"green"])?;
/// let group = Group::new(red).with_row(alloc, green)?;
/// assert!(rt; group.rows().len() == 2 && group.rows()[1].get(0) == Some(b"green"));
/// ```
#[derive(Drop)]
pub struct Group {
    held: Held,
}

// One row, one whose memory lasts, or all rows in a vector.
#[derive(Drop)]
enum Held {
    One(Cells),
    Lasting(ManuallyDrop<Cells>),
    All(Vec<Cells>),
}

impl Model for Group {
    ghost use Rattle.std.specs.Prelude.{List, ℕ};
    ghost use Rattle.keyed_rows.specs.Held.{rows_of};

    ghost Value = { List (List (List ℕ)) };

    ghost view = { λ a. rows_of a.held };
}

impl Group {
    /// Returns the group of one row. Takes no memory.
    ///
    /// ```
    /// let group = Group::new(Cells::from_slices(alloc, &[b"red"])?);
    /// assert!(rt; group.rows().len() == 1);
    /// ```
    pub fn new(row: Cells) -> Self
        ensures { result ≡ row ∷ [] }
    {
        Group {
            held: Held::One(row),
        }
    }

    /// Returns the group of one row, whose memory is given back as said, unless a row comes after it. Takes no memory.
    ///
    /// ```
    /// let group = Group::with_release(Cells::from_slices(alloc, &[b"red"])?, Release::AtDrop);
    /// assert!(rt; group.rows().len() == 1);
    /// ```
    pub fn with_release(row: Cells, release: Release) -> Self
        ensures { result ≡ row ∷ [] }
    {
        Group {
            held: match release {
                Release::AtDrop => Held::One(row),
                Release::AtExit => Held::Lasting(ManuallyDrop::new(row)),
            },
        }
    }

    /// Returns the group with a row more, after the others.
    ///
    /// # Errors
    ///
    /// `AllocError` if a request for memory was refused: then all rows are dropped.
    ///
    /// ```
    /// let group = Group::new(Cells::from_slices(alloc, &[b"red"])?);
    /// let group = group.with_row(alloc, Cells::from_slices(alloc, &[b"green"])?)?;
    /// assert!(rt; group.rows().len() == 2);
    /// ```
    pub fn with_row(self, alloc: Global, row: Cells) -> Result<Self, AllocError>
        ensures { IfOk result (λ group. group ≡ self ++ row ∷ []) }
    {
        let mut rows = match self.held {
            Held::One(first) => begin_rows(alloc, first)?,
            Held::Lasting(first) => begin_rows(alloc, ManuallyDrop::into_inner(first))?,
            Held::All(rows) => rows,
        };
        rows.push(row)?;
        Ok(Group {
            held: Held::All(rows),
        })
    }

    /// Returns the rows.
    ///
    /// ```
    /// let group = Group::new(Cells::from_slices(alloc, &[b"red"])?);
    /// assert!(rt; group.rows()[0].get(0) == Some(b"red"));
    /// ```
    pub fn rows(&self) -> &[Cells]
        ensures { result.now ≡ self.now }
    {
        match &self.held {
            Held::One(row) => slice::from_ref(row),
            Held::Lasting(row) => slice::from_ref(&**row),
            Held::All(rows) => rows,
        }
    }
}

// The first row of several.
fn begin_rows(alloc: Global, first: Cells) -> Result<Vec<Cells>, AllocError>
    ensures { IfOk result (λ rows. rows.items ≡ first ∷ []) }
{
    let mut rows = Vec::with_capacity(alloc, 2)?;
    rows.push(first)?;
    Ok(rows)
}

impl PartialEq for Group {
    ghost eq = { pointwise (pointwise (pointwise nat_eq)) };

    ghost laws = { partial_equiv_from_equiv (lists_equiv (lists_equiv nat_list_eq_equiv)) };

    fn eq(&self, other: &Self) -> bool {
        self.rows() == other.rows()
    }
}

impl Eq for Group {
    ghost laws = { lists_equiv (lists_equiv nat_list_eq_equiv) };
}

/// As the list of its rows.
impl fmt::Debug for Group {
    fn fmt<W: fmt::Write>(&self, f: &mut fmt::Formatter<W>) -> fmt::Result {
        write!(f, "{:?}", self.rows())
    }
}

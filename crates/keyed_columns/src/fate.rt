//! What became of a column, as the header of a table of changes says it.
ghost use Rattle.std.specs.Prelude.{◌≡◌, ◌++◌, IfOk, OnOk};
ghost use Rattle.keyed_columns.specs.ChangedColumns.{begins_marked, marked_name};
ghost use Rattle.keyed_columns.specs.Going.{coming, going, name_if_comes, name_if_goes};
ghost use Rattle.keyed_columns.specs.Headers.{unmarked};

use std::alloc::{AllocError, Global};

/// What becomes of a column where changes are made.
///
/// The header of a table of changes has a mark before the name of a column: `-` where the column goes, `+` where it comes, and `=` where it
/// stays and its name begins with one of the three. Any other name is that of a column that stays.
#[derive(Clone, Copy, Debug, PartialEq, Eq)]
pub enum Fate {
    /// Both tables have it.
    Stays,
    /// The new table has it, and the old one lacks it.
    Comes,
    /// The new table lacks it.
    Goes,
}

impl Fate {
    /// The name of a column with the mark of its fate.
    ///
    /// # Errors
    ///
    /// Returns `AllocError` if a request for memory was refused.
    ///
    /// ```
    /// assert!(rt; Fate::Goes.marked(alloc, b"size")?.as_slice() == b"-size");
    /// assert!(rt; Fate::Stays.marked(alloc, b"-size")?.as_slice() == b"=-size");
    /// ```
    pub fn marked(self, alloc: Global, name: &[u8]) -> Result<Vec<u8>, AllocError>
        ensures { IfOk result (λ marked. marked.items ≡ marked_name self name.now) }
    {
        let mut marked = Vec::new(alloc);
        self.put_mark(&mut marked, name)?;
        marked.extend_from_slice(name)?;
        Ok(marked)
    }

    // Puts the mark of a name, if it has one.
    fn put_mark(self, marked: &mut Vec<u8>, name: &[u8]) -> Result<(), AllocError>
        ensures { OnOk result (marked.new.items ++ name.now ≡ marked.old.items ++ marked_name self name.now) }
    {
        match self {
            Fate::Goes => marked.push(b'-')?,
            Fate::Comes => marked.push(b'+')?,
            Fate::Stays => {
                if begins_marked(name) {
                    marked.push(b'=')?;
                }
            }
        }
        Ok(())
    }

    /// The fate of a column and its name, of a cell in the header of changes.
    ///
    /// ```
    /// assert!(rt; Fate::of_cell(b"-size") == (Fate::Goes, b"size"));
    /// assert!(rt; Fate::of_cell(b"=-size") == (Fate::Stays, b"-size"));
    /// ```
    pub fn of_cell(cell: &[u8]) -> (Self, &[u8])
        ensures name { result.1.now ≡ unmarked cell.now }
        ensures goes { name_if_goes result.0 result.1.now ≡ going cell.now }
        ensures comes { name_if_comes result.0 result.1.now ≡ coming cell.now }
    {
        match cell {
            [b'-', name @ ..] => (Fate::Goes, name),
            [b'+', name @ ..] => (Fate::Comes, name),
            [b'=', name @ ..] => (Fate::Stays, name),
            _ => (Fate::Stays, cell),
        }
    }
}

// Whether a name begins with a mark.
fn begins_marked(name: &[u8]) -> bool
    ensures { result ≡ begins_marked name.now }
{
    matches!(name, [b'-' | b'+' | b'=', ..])
}

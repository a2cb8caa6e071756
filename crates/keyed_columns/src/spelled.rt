//! The heading of a table that is made of another, spelled as the header of that one.
ghost use Rattle.std.specs.Prelude.{◌≡◌, IfOk};
ghost use Rattle.keyed_columns.specs.Placed.{names_placed};
ghost use Rattle.keyed_columns.specs.Spelled.{SpellsHeading, spelled_as};

use crate::columns::Columns;
use crate::header::Spelling;
use crate::joined_names::names_placed;
use keyed_rows::Cells;
use std::alloc::{AllocError, Global};

impl Columns {
    /// The same columns, with a heading that spells their names as a header does, where its columns are those that are written, in the same
    /// order. So a header that has a name more than once is written as it was read: `id,a,a`, and not `id,a,a.2`.
    ///
    /// # Errors
    ///
    /// Returns `AllocError` if a request for memory was refused.
    pub fn spell_as(self, alloc: Global, spelling: &Spelling) -> Result<Self, AllocError>
        ensures { IfOk result (SpellsHeading spelling.now self) }
    {
        let spelled = spelled_as(alloc, spelling, &self)?;
        Ok(Columns {
            key: self.key,
            rest: self.rest,
            order: self.order,
            spelled,
        })
    }
}

// The names that the heading of columns has in place of those that are written, if it has others.
fn spelled_as(
    alloc: Global,
    spelling: &Spelling,
    columns: &Columns,
) -> Result<Option<Cells>, AllocError>
    ensures { IfOk result (λ spelled. spelled
        ≡ spelled_as spelling.now.names spelling.now.spelled (names_placed columns.now)) }
{
    let written = names_placed(alloc, columns, &columns.rest)?;
    if written == spelling.names {
        let spelled = spelling.spelled.clone()?;
        Ok(Some(spelled))
    } else {
        Ok(None)
    }
}

//! Callers of what is told where the names of a key are not those of columns, or a key stands twice.
ghost use Rattle.std.specs.Prelude.{◌∷◌, [], IfErr, IsErr, codes};
ghost use Rattle.command_callers.specs.Keys.{NamesColumn};
ghost use Rattle.command_callers.specs.Repeats.{RepeatsAlone};

use crate::{CHANGES, PLAIN};
use keyed_columns::Header;
use keyed_commands::{Answer, Fault, Stream, diff};
use keyed_faults::Reason;
use keyed_rows::Cells;
use std::alloc::Global;

/// A table with two columns and no header has no third one: a key of it is refused, and the fault names this column.
///
/// # Errors
///
/// Returns `NoColumn` of the third column, or `NoMemory` if a request for memory was refused.
pub fn third_of_two_columns(alloc: Global) -> Result<(), Reason>
    ensures refused { IsErr result }
    ensures told { IfErr result (NamesColumn (51 ∷ [])) }
{
    let header = Header::numbers(alloc, 2, 1)?;
    let key = Cells::from_slices(alloc, &[b"3"])?;
    header.check_key(alloc, &key)
}

/// Compares two tables in the first of which the key 1 stands twice, where keys may not. If it is told that a key stands twice, it is this
/// one, of the first table.
///
/// # Errors
///
/// Returns the errors of `diff`.
pub fn twice_in_old(alloc: Global) -> Result<Answer, Fault<'static>>
    ensures { IfErr result (RepeatsAlone (codes "old.csv") (codes "1")) }
{
    let old = file!("old.csv", b"id,a\n1,x\n1,y\n");
    let new = file!("new.csv", b"id,a\n1,x\n");
    diff(alloc, PLAIN, CHANGES, old, new)
}

//! Callers of `overlay`.
ghost use Rattle.std.specs.Prelude.{◌≡◌, ◌∷◌, [], IfOk, codes};
ghost use Rattle.keyed_commands.specs.OverlayAnswers.{OverlaysStreams};
ghost use Rattle.command_callers.specs.Answered.{IsTableInStyle, plainly};

use crate::{IN_ORDER, PLAIN};
use keyed_commands::{Answer, Fault, Layer, Reason, Settings, Stream, overlay};
use std::alloc::{AllocError, Global};
use std::io::Read;

/// Returns two tables, one over the other: the row of the upper one under the key of both, and the one that it adds.
///
/// # Errors
///
/// Returns the errors of `overlay`; also want of memory.
pub fn rows_over(alloc: Global) -> Result<Answer, Fault<'static>>
    ensures { IfOk result (IsTableInStyle
        ((codes "id" ∷ codes "a" ∷ []) ∷ (codes "1" ∷ codes "y" ∷ []) ∷ (codes "2" ∷ codes "z" ∷ []) ∷ [])
        plainly (codes "id,a\n1,y\n2,z\n")) }
{
    let below = file!("below.csv", b"id,a\n1,x\n");
    let above = file!("above.csv", b"id,a\n1,y\n2,z\n");
    overlay_two(alloc, PLAIN, Layer::Rows, below, above)
}

/// Returns two tables, one over the other cell by cell: a cell of the upper one that is empty leaves that of the lower one.
///
/// # Errors
///
/// Returns the errors of `overlay`; also want of memory.
pub fn cells_over(alloc: Global) -> Result<Answer, Fault<'static>>
    ensures { IfOk result (IsTableInStyle
        ((codes "id" ∷ codes "a" ∷ codes "b" ∷ []) ∷ (codes "1" ∷ codes "x" ∷ codes "w" ∷ []) ∷ [])
        plainly (codes "id,a,b\n1,x,w\n")) }
{
    let below = file!("below.csv", b"id,a,b\n1,x,y\n");
    let above = file!("above.csv", b"id,a,b\n1,,w\n");
    overlay_two(alloc, PLAIN, Layer::Cells, below, above)
}

/// Returns a table as it is, with its rows in the order in which they stand in the file, and not in that of their keys.
///
/// # Errors
///
/// Returns the errors of `overlay`; also want of memory.
pub fn in_file_order(alloc: Global) -> Result<Answer, Fault<'static>>
    ensures { IfOk result (IsTableInStyle
        ((codes "id" ∷ codes "a" ∷ []) ∷ (codes "2" ∷ codes "y" ∷ []) ∷ (codes "1" ∷ codes "x" ∷ []) ∷ [])
        plainly (codes "id,a\n2,y\n1,x\n")) }
{
    let table = file!("table.csv", b"id,a\n2,y\n1,x\n");
    overlay_one(alloc, IN_ORDER, Layer::Rows, table)
}

// Lays a table over none.
fn overlay_one<'a, R: Read + Drop>(
    alloc: Global,
    settings: Settings<'a>,
    layer: Layer,
    table: Stream<'a, R>,
) -> Result<Answer, Fault<'a>>
    ensures { IfOk result (OverlaysStreams R.remaining settings.entry layer (table.entry ∷ [])) }
{
    let file = table.file;
    match one_of(alloc, table) {
        Ok(tables) => overlay(alloc, settings, layer, tables),
        Err(AllocError) => Err(Fault {
            file,
            reason: Reason::NoMemory,
        }),
    }
}

// One table alone.
fn one_of<'a, R: Drop>(
    alloc: Global,
    table: Stream<'a, R>,
) -> Result<Vec<Stream<'a, R>>, AllocError>
    ensures { IfOk result (λ tables. tables.items ≡ table.entry ∷ []) }
{
    let mut tables = Vec::new(alloc);
    tables.push(table)?;
    Ok(tables)
}

// Lays a table over another.
fn overlay_two<'a, R: Read + Drop>(
    alloc: Global,
    settings: Settings<'a>,
    layer: Layer,
    below: Stream<'a, R>,
    above: Stream<'a, R>,
) -> Result<Answer, Fault<'a>>
    ensures { IfOk result (OverlaysStreams R.remaining settings.entry layer
        (below.entry ∷ above.entry ∷ [])) }
{
    let file = below.file;
    match two_of(alloc, below, above) {
        Ok(tables) => overlay(alloc, settings, layer, tables),
        Err(AllocError) => Err(Fault {
            file,
            reason: Reason::NoMemory,
        }),
    }
}

// Two tables, the lower one first.
fn two_of<'a, R: Drop>(
    alloc: Global,
    below: Stream<'a, R>,
    above: Stream<'a, R>,
) -> Result<Vec<Stream<'a, R>>, AllocError>
    ensures { IfOk result (λ tables. tables.items ≡ below.entry ∷ above.entry ∷ []) }
{
    let mut tables = Vec::new(alloc);
    tables.push(below)?;
    tables.push(above)?;
    Ok(tables)
}

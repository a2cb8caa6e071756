//! Callers of the laws of columns, and of what stands for a cell: what a program knows by them of headers and cells that it knows when it is
//! written.
ghost use Rattle.std.specs.Prelude.{◌≡◌, ◌∷◌, [], ℕ, IfOk, List, codes, encode_utf8_all, false, nat_eq, true};
ghost use Rattle.std.specs.Cmp.Lexicographic.{pointwise};
ghost use Rattle.std.specs.List.{IsDistinct, flat_map, list_any};
ghost use Rattle.keyed_columns.specs.CellsUnder.{row_under};
ghost use Rattle.keyed_columns.specs.ColumnNames.{has_name};
ghost use Rattle.keyed_columns.specs.Placed.{placed};
ghost use Rattle.keyed_columns.specs.declared.content.Content.TheVariants.{Rows};
ghost use Rattle.keyed_faults.specs.ShownCells.{IsShownCell, is_moving};
ghost use Rattle.keyed_reports.specs.Escapes.{html_byte, is_html_mark};

use keyed_columns::{Columns, law_keeps_names, law_names_once, law_places_cells, law_puts_back};
use keyed_faults::{law_shown_apart, law_shows_no_control};
use keyed_reports::law_html_is_text;
use keyed_rows::Cells;
use std::alloc::{AllocError, Global};

/// Returns the columns of a table whose key is its second column: its header and each row are written as they stand.
///
/// # Errors
///
/// Returns `AllocError` if a request for memory was refused.
pub fn columns_of_one(alloc: Global) -> Result<Columns, AllocError>
    ensures header { IfOk result (λ columns. placed columns.order.items columns.key columns.rest
        ≡ codes "a" ∷ codes "id" ∷ []) }
    ensures row { IfOk result (λ columns. placed columns.order.items
        (row_under Rows (codes "a" ∷ codes "id" ∷ []) columns (codes "x" ∷ codes "1" ∷ [])).0
        (row_under Rows (codes "a" ∷ codes "id" ∷ []) columns (codes "x" ∷ codes "1" ∷ [])).1
        ≡ codes "x" ∷ codes "1" ∷ []) }
{
    law_puts_back();
    let names = two_names(alloc, b"a", b"id")?;
    let mut key = Cells::new(alloc);
    key.push(b"id")?;
    Columns::new(alloc, key, &[&names])
}

/// Returns the columns of two tables whose key is `id`: each name stands once in the header that is written, and a row of the second table is
/// empty under the name that it lacks.
///
/// # Errors
///
/// Returns `AllocError` if a request for memory was refused.
pub fn columns_of_two(alloc: Global) -> Result<Columns, AllocError>
    ensures header { IfOk result (λ columns. placed columns.order.items columns.key columns.rest
        ≡ codes "id" ∷ codes "a" ∷ codes "b" ∷ []) }
    ensures once { IfOk result (λ columns. IsDistinct (pointwise nat_eq)
        (placed columns.order.items columns.key columns.rest)) }
    ensures beside { IfOk result (λ columns. has_name columns.rest (codes "b") ≡ true) }
    ensures of_key { IfOk result (λ columns. has_name columns.rest (codes "id") ≡ false) }
    ensures row { IfOk result (λ columns. placed columns.order.items
        (row_under Rows (codes "id" ∷ codes "b" ∷ []) columns (codes "1" ∷ codes "y" ∷ [])).0
        (row_under Rows (codes "id" ∷ codes "b" ∷ []) columns (codes "1" ∷ codes "y" ∷ [])).1
        ≡ codes "1" ∷ [] ∷ codes "y" ∷ []) }
{
    law_keeps_names();
    law_names_once();
    law_places_cells();
    let first = two_names(alloc, b"id", b"a")?;
    let next = two_names(alloc, b"id", b"b")?;
    let mut key = Cells::new(alloc);
    key.push(b"id")?;
    Columns::new(alloc, key, &[&first, &next])
}

fn two_names(alloc: Global, first: &[u8], second: &[u8]) -> Result<Cells, AllocError>
    ensures { IfOk result (λ names. names ≡ first.now ∷ second.now ∷ []) }
{
    let mut names = Cells::new(alloc);
    names.push(first)?;
    names.push(second)?;
    Ok(names)
}

/// Takes what stands for the cell `x`: it stands for no cell `y`.
pub fn shows_no_other(text: &str)
    requires { IsShownCell (codes "x") text.now }
    ensures { IsShownCell (codes "y") text.now → ⊥ }
{
    law_shown_apart();
}

/// Takes what stands for a cell that would clear a terminal: no character of it moves text.
pub fn clears_nothing(text: &str)
    requires { IsShownCell (27 ∷ codes "[2J") text.now }
    ensures { (shown : List ℕ) × (encode_utf8_all shown ≡ text.now) × (list_any is_moving shown ≡ false) }
{
    law_shows_no_control();
}

/// Takes a cell: what stands for it in a page of HTML begins no tag and ends none.
pub fn begins_no_tag(cell: &[u8])
    ensures { list_any is_html_mark (flat_map html_byte cell.now) ≡ false }
{
    law_html_is_text();
}

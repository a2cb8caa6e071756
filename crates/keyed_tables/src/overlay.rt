//! A table laid over another: by row, or by cell.
ghost use Rattle.std.specs.Prelude.{◌≡◌, ◌∷◌, [], ℕ, List, IfOk, map, option_map, unwrap_or};
ghost use Rattle.std.specs.Map.{keys_of};
ghost use Rattle.eob_both.specs.declared.either_or_both.EitherOrBoth.{EitherOrBoth};
ghost use Rattle.eob_lists.specs.Join.{IsJoin};
ghost use Rattle.eob_lists.specs.JoinLaws.{overlaid};
ghost use Rattle.keyed_tables.specs.Laid.{IsLaidBy, filled, filled_cells, filled_rows, upper_cell};

use crate::table::Rows;
use eob_lists::EitherOrBoth;
use eob_lists::join::outer_join;
use keyed_rows::{Cells, Group, Key};
use std::alloc::{AllocError, Global};

/// The rows of both tables, and under a key of both those of the upper one.
///
/// # Errors
///
/// Returns `AllocError` if a request for memory was refused.
pub fn laid_over<K: Ord + Drop, V: Drop>(
    alloc: Global,
    below: Rows<K, V>,
    above: Rows<K, V>,
) -> Result<Rows<K, V>, AllocError>
    ensures { IfOk result (λ rows. IsLaidBy K.cmp overlaid
        below.pairs.items above.pairs.items rows.pairs.items) }
{
    let joined = outer_join(alloc, below.pairs, above.pairs)?;
    let pairs = upper_rows(alloc, joined)?;
    Ok(Rows { pairs })
}

/// The rows of both tables, and under a key of both, where each has one row there, each cell of the upper row, or of the lower one where
/// that is empty. Where one of them has more rows there, those of the upper one.
///
/// # Errors
///
/// Returns `AllocError` if a request for memory was refused.
pub fn filled_over(
    alloc: Global,
    below: Rows<Key, Group>,
    above: Rows<Key, Group>,
) -> Result<Rows<Key, Group>, AllocError>
    ensures cells { IfOk result (λ rows. IsLaidBy ⟦<Key as Ord>⟧.cmp filled
        below.pairs.items above.pairs.items rows.pairs.items) }
    ensures keys { IfOk result (λ rows.
        (zs : List (List (List ℕ) × EitherOrBoth (List (List (List ℕ))) (List (List (List ℕ)))))
        × IsJoin ⟦<Key as Ord>⟧.cmp below.pairs.items above.pairs.items zs
        × (keys_of rows.pairs.items ≡ keys_of zs)) }
{
    let joined = outer_join(alloc, below.pairs, above.pairs)?;
    let pairs = filled_rows(alloc, joined)?;
    Ok(Rows { pairs })
}

// The upper value of each row of a join.
fn upper_rows<K: Drop, V: Drop>(
    alloc: Global,
    joined: Vec<(K, EitherOrBoth<V, V>)>,
) -> Result<Vec<(K, V)>, AllocError>
    ensures { IfOk result (λ rows. rows.items ≡ map (λ row. (row.0, overlaid row.1)) joined.items) }
{
    let mut rows = Vec::new(alloc);
    for row in joined {
        rows.push(upper(row))?;
    }
    Ok(rows)
}

// The upper value of a row.
fn upper<K: Drop, V: Drop>(row: (K, EitherOrBoth<V, V>)) -> (K, V)
    ensures { result ≡ (row.0, overlaid row.1) }
{
    let (key, values) = row;
    match values {
        EitherOrBoth::Left(below) => (key, below),
        EitherOrBoth::Both(_below, above) => (key, above),
        EitherOrBoth::Right(above) => (key, above),
    }
}

// The cells of both values of each row of a join.
fn filled_rows(
    alloc: Global,
    joined: Vec<(Key, EitherOrBoth<Group, Group>)>,
) -> Result<Vec<(Key, Group)>, AllocError>
    ensures { IfOk result (λ rows. rows.items ≡ map (λ row. (row.0, filled row.1)) joined.items) }
{
    let mut rows = Vec::new(alloc);
    for row in joined {
        rows.push(filled_row(alloc, row)?)?;
    }
    Ok(rows)
}

// The cells of both values of a row.
fn filled_row(
    alloc: Global,
    row: (Key, EitherOrBoth<Group, Group>),
) -> Result<(Key, Group), AllocError>
    ensures { IfOk result (λ made. made ≡ (row.0, filled row.1)) }
{
    let (key, values) = row;
    match values {
        EitherOrBoth::Left(below) => Ok((key, below)),
        EitherOrBoth::Both(below, above) => {
            let group = filled_group(alloc, &below, above)?;
            Ok((key, group))
        }
        EitherOrBoth::Right(above) => Ok((key, above)),
    }
}

// The cells of two groups of one row, or else the upper group.
fn filled_group(alloc: Global, below: &Group, above: Group) -> Result<Group, AllocError>
    ensures { IfOk result (λ group. group ≡ filled_rows below.now above) }
{
    match filled_only(alloc, below.rows(), above.rows())? {
        Some(cells) => Ok(Group::new(cells)),
        None => Ok(above),
    }
}

// The cells of two rows, where there is one of each.
fn filled_only(alloc: Global, below: &[Cells], above: &[Cells]) -> Result<Option<Cells>, AllocError>
    ensures { IfOk result (λ made. filled_rows below.now above.now
        ≡ unwrap_or (option_map (λ cells. cells ∷ []) made) above.now) }
{
    if let [row] = below {
        if let [over] = above {
            let cells = filled_cells(alloc, row, over)?;
            return Ok(Some(cells));
        }
    }
    Ok(None)
}

// Each cell of the upper row, or of the lower one where that is empty.
fn filled_cells(alloc: Global, below: &Cells, above: &Cells) -> Result<Cells, AllocError>
    ensures { IfOk result (λ cells. cells ≡ filled_cells below.now above.now) }
{
    let mut cells = Cells::new(alloc);
    for (cell, over) in below.iter().zip(above.iter()) {
        cells.push(upper_of(cell, over))?;
    }
    Ok(cells)
}

// The upper cell, or the lower one where that is empty.
fn upper_of<'c>(below: &'c [u8], above: &'c [u8]) -> &'c [u8]
    ensures { result.now ≡ upper_cell below.now above.now }
{
    if above.is_empty() { below } else { above }
}

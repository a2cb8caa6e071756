//! The names of the columns of a join and of a look-up, no two of which are the same.
ghost use Rattle.std.specs.Prelude.{◌≡◌, ◌++◌, [], IfErr, IfOk, None, OnOk, false, map, nat_eq, option_map};
ghost use Rattle.std.specs.Cmp.Lexicographic.{pointwise};
ghost use Rattle.indexmap.specs.IndexSet.{insert_all};
ghost use Rattle.keyed_columns.specs.JoinedNames.{ExplainsNames, found_names, joined_names, left_names};
ghost use Rattle.keyed_columns.specs.JoinedNames.{option_for};
ghost use Rattle.keyed_columns.specs.JoinedNames.{right_names, side_column, told_apart};
ghost use Rattle.keyed_columns.specs.Names.{names_in, repeats};
ghost use Rattle.keyed_columns.specs.Placed.{first_cells, placed};

use crate::columns::{Columns, JoinColumns, Place};
use crate::names::Names;
use crate::placed::PlacedCells;
use keyed_faults::Reason;
use keyed_requests::{Finding, JoinNames, Joining, Kind, LookupKind};
use keyed_rows::{Cells, Key};
use std::alloc::{AllocError, Global};

/// The names of the columns of a join: that of the first column, if it is an outer one, those of the key, and those of both tables. A name
/// that both have is told apart by what stands before it. Of a join that has the cells of the left table alone there is none.
///
/// # Errors
///
/// Returns `JoinedTwice` if two of the names are the same, with the first one that another is the same as before it, and `NoMemory` if a
/// request for memory was refused.
pub fn join_header(alloc: Global, how: Joining<'_>, columns: &JoinColumns) -> Result<Cells, Reason>
    ensures names { IfOk result (λ names. names ≡ joined_names how.entry.kind how.entry.names columns.now) }
    ensures once { IfOk result (λ names. repeats [] names ≡ false) }
    ensures twice { IfErr result (ExplainsNames (side_column how.entry.kind how.entry.names)
        (joined_names how.entry.kind how.entry.names columns.now)) }
{
    let side = match how.kind {
        Kind::Outer => Some(how.names.side.as_bytes()),
        Kind::Inner | Kind::Left | Kind::Right => None,
        Kind::Semi | Kind::Anti => return Ok(Cells::new(alloc)),
    };
    let header = names_of_both(alloc, side, how.names, columns)?;
    check_once(alloc, side, &header)?;
    Ok(header)
}

// The names of the columns of both tables, after that of the first column, if there is one.
fn names_of_both(
    alloc: Global,
    side: Option<&[u8]>,
    names: JoinNames<'_>,
    columns: &JoinColumns,
) -> Result<Cells, AllocError>
    ensures { IfOk result (λ header. header
        ≡ ((first_cells (option_map (λ name. name.now) side.entry) ++ columns.now.left.key)
        ++ left_names names.entry columns.now) ++ right_names names.entry columns.now) }
{
    let (left, right) = (&columns.left, &columns.right);
    let of_right = Names::of_cells(alloc, &right.rest)?;
    let mut header = Cells::new(alloc);
    if let Some(name) = side {
        header.push(name)?;
    }
    for name in &left.key {
        header.push(name)?;
    }
    put_told(alloc, &mut header, names.left, &left.rest, &of_right)?;
    put_told(
        alloc,
        &mut header,
        names.right,
        &right.rest,
        &names_of_left(alloc, left)?,
    )?;
    Ok(header)
}

/// The names of the columns of a look-up: those of the left table in their order, and after them those of the right one without its key. A
/// name that both have is told apart by what stands before it, but not that of a column of the left key. Of rows that are not found there
/// are the left names alone.
///
/// # Errors
///
/// Returns `JoinedTwice` if two of the names are the same, with the first one that another is the same as before it, and `NoMemory` if a
/// request for memory was refused.
pub fn lookup_header(
    alloc: Global,
    how: Finding<'_>,
    columns: &JoinColumns,
) -> Result<Cells, Reason>
    ensures names { IfOk result (λ names. names ≡ found_names how.entry.kind how.entry.names columns.now) }
    ensures once { IfOk result (λ names. repeats [] names ≡ false) }
    ensures twice { IfErr result (ExplainsNames None
        (found_names how.entry.kind how.entry.names columns.now)) }
{
    let header = match how.kind {
        LookupKind::Left | LookupKind::Inner => names_found(alloc, how.names, columns)?,
        LookupKind::Anti => names_placed(alloc, &columns.left, &columns.left.rest)?,
    };
    check_once(alloc, None, &header)?;
    Ok(header)
}

// The names of the columns of both tables, those of the left one in their order.
fn names_found(
    alloc: Global,
    names: JoinNames<'_>,
    columns: &JoinColumns,
) -> Result<Cells, AllocError>
    ensures { IfOk result (λ header. header ≡ placed columns.now.left.order.items columns.now.left.key
        (left_names names.entry columns.now) ++ right_names names.entry columns.now) }
{
    let (left, right) = (&columns.left, &columns.right);
    let of_right = Names::of_cells(alloc, &right.rest)?;
    let mut rest = Cells::new(alloc);
    put_told(alloc, &mut rest, names.left, &left.rest, &of_right)?;
    let mut header = names_placed(alloc, left, &rest)?;
    put_told(
        alloc,
        &mut header,
        names.right,
        &right.rest,
        &names_of_left(alloc, left)?,
    )?;
    Ok(header)
}

// The names of the key of columns and these others, in the order of the columns.
pub(crate) fn names_placed(
    alloc: Global,
    columns: &Columns,
    rest: &Cells,
) -> Result<Cells, AllocError>
    ensures { IfOk result (λ names. names ≡ placed columns.now.order.items columns.now.key rest.now) }
{
    let key = Key::copied(&columns.key)?;
    let mut cells = PlacedCells::new(&key, rest);
    let mut names = Cells::new(alloc);
    for place in &columns.order {
        names.push(cells.take(*place))?;
    }
    Ok(names)
}

// The names of all columns of the left table.
fn names_of_left(alloc: Global, left: &Columns) -> Result<Names, AllocError>
    ensures { IfOk result (λ names. names_in names
        ≡ insert_all (pointwise nat_eq) [] (left.now.key ++ left.now.rest)) }
{
    let mut names = Names::of_cells(alloc, &left.key)?;
    names.add_all(alloc, &left.rest)?;
    Ok(names)
}

// Puts names after others, each with a word before it if it is one of those of the other table.
fn put_told(
    alloc: Global,
    header: &mut Cells,
    word: &str,
    names: &Cells,
    others: &Names,
) -> Result<(), AllocError>
    ensures { OnOk result (header.new ≡ header.old
        ++ map (told_apart word.now (names_in others.now)) names.now) }
{
    for name in names {
        let mut told = Vec::new(alloc);
        if others.has(name) {
            told.extend_from_slice(word.as_bytes())?;
        }
        told.extend_from_slice(name)?;
        header.push(&told)?;
    }
    Ok(())
}

// Tells of the first of these names that one before it is the same as.
fn check_once(alloc: Global, side: Option<&[u8]>, names: &Cells) -> Result<(), Reason>
    ensures once { OnOk result (repeats [] names.now ≡ false) }
    ensures twice { IfErr result (ExplainsNames (option_map (λ name. name.now) side.entry) names.now) }
{
    let mut there = Names::new(alloc);
    for name in names {
        if !there.add(alloc, name)? {
            return Err(Reason::JoinedTwice {
                name: Vec::from_slice(alloc, name)?,
                option: option_for(side, name),
            });
        }
    }
    Ok(())
}

// The option that gives a column another name: the first column has one of its own.
fn option_for(side: Option<&[u8]>, name: &[u8]) -> &'static str
    ensures { result.now ≡ option_for (option_map (λ name. name.now) side.entry) name.now }
{
    match side {
        Some(side) if side == name => "--side",
        _ => "--prefix",
    }
}

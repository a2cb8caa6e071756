//! The columns of the table that changes make of another, and of two versions merged: which are written, and in which order.
ghost use Rattle.std.specs.Prelude.{◌≡◌, ◌++◌, ◌∷◌, [], IfOk, OnOk, drop, filter, map, not};
ghost use Rattle.std.specs.List.{list_all, list_any};
ghost use Rattle.keyed_columns.specs.ChangedColumns.{AreChangedColumns, AreMergedColumns, changed_names};
ghost use Rattle.keyed_columns.specs.ChangedColumns.{comes_in, fate_between, is_led_by_theirs};
ghost use Rattle.keyed_columns.specs.ChangedColumns.{marked_between, marked_columns, marked_names};
ghost use Rattle.keyed_columns.specs.ChangedColumns.{merged_names, name_each, names_merged, stays_in};
ghost use Rattle.keyed_columns.specs.ColumnNames.{WriteNames, has_name};
ghost use Rattle.keyed_columns.specs.Lost.{count_written, is_filled, is_rest, loses_cells};
ghost use Rattle.keyed_columns.specs.Names.{names_in};

use crate::column_changes::is_same_order;
use crate::columns::{Columns, Place, kept_names, or_header, put_kept_names};
use crate::fate::Fate;
use crate::joined_names::names_placed;
use crate::names::Names;
use keyed_rows::{Cells, Group};
use std::alloc::{AllocError, Global};

// Columns of which these are written, in this order. Those of the other headers are read, and stand after.
fn written_columns(
    alloc: Global,
    key: Cells,
    written: &Cells,
    first: &Cells,
    next: &Cells,
    last: &Cells,
) -> Result<Columns, AllocError>
    ensures { IfOk result
        (WriteNames key written.now (first.now ∷ next.now ∷ last.now ∷ [])) }
{
    let mut columns = Columns::new(alloc, key, &[written, first, next, last])?;
    columns.order.truncate(written.len());
    Ok(columns)
}

/// The names of the columns of the changes from one header to another, as the header of the changes has them, each with the mark of what
/// became of it: those of the new header in its order, and then those that it lacks. A header that is empty, as of a file with no row, is
/// that of the other table.
///
/// # Errors
///
/// Returns `AllocError` if a request for memory was refused.
pub fn marked_names<'a>(alloc: Global, old: &'a Cells, new: &'a Cells) -> Result<Cells, AllocError>
    ensures { IfOk result (λ marked. marked ≡ marked_names old.now new.now) }
{
    let before = Names::of_cells(alloc, or_header(old, new))?;
    let after = Names::of_cells(alloc, or_header(new, old))?;
    let columns = Columns::new(alloc, Cells::new(alloc), &[new, old])?;
    let marked = marked_among(alloc, &before, &after, &columns.rest)?;
    Ok(marked)
}

/// The names of columns in the order in which they are written, each with the mark of what became of it from one header to another. A header
/// that is empty, as of a file with no row, is that of the other table.
///
/// # Errors
///
/// Returns `AllocError` if a request for memory was refused.
pub fn marked_columns<'a>(
    alloc: Global,
    columns: &Columns,
    old: &'a Cells,
    new: &'a Cells,
) -> Result<Cells, AllocError>
    ensures { IfOk result (λ marked. marked ≡ marked_columns columns.now old.now new.now) }
{
    let before = Names::of_cells(alloc, or_header(old, new))?;
    let after = Names::of_cells(alloc, or_header(new, old))?;
    let names = names_placed(alloc, columns, &columns.rest)?;
    let marked = marked_among(alloc, &before, &after, &names)?;
    Ok(marked)
}

// These names, each with the mark of what became of it from the names before to those after.
fn marked_among(
    alloc: Global,
    before: &Names,
    after: &Names,
    names: &Cells,
) -> Result<Cells, AllocError>
    ensures { IfOk result
        (λ marked. marked ≡ map (marked_between (names_in before.now) (names_in after.now)) names.now) }
{
    let mut marked = Cells::new(alloc);
    for name in names {
        let name_marked = fate_between(before, after, name).marked(alloc, name)?;
        marked.push(&name_marked)?;
    }
    Ok(marked)
}

// What became of a column from the names before to those after.
fn fate_between(before: &Names, after: &Names, name: &[u8]) -> Fate
    ensures { result ≡ fate_between (names_in before.now) (names_in after.now) name.now }
{
    if !after.has(name) {
        Fate::Goes
    } else if before.has(name) {
        Fate::Stays
    } else {
        Fate::Comes
    }
}

/// Whether the header of changes names each column of the table that they are made to. If not, the changes are of those columns alone that
/// it names.
///
/// # Errors
///
/// Returns `AllocError` if a request for memory was refused.
pub fn name_each(alloc: Global, old: &Cells, changes: &Cells) -> Result<bool, AllocError>
    ensures { IfOk result (λ each. each ≡ name_each old.now changes.now) }
{
    let named = Names::of_cells(alloc, changes)?;
    let each = have_each(&named, old);
    Ok(each)
}

// Whether each name of a header is one of these.
fn have_each(names: &Names, header: &Cells) -> bool
    ensures { result ≡ list_all (has_name (names_in names.now)) header.now }
{
    header.iter().all(|name| names.has(name))
}

/// The columns of the table that changes make of another, without those that go: those of the changes in their order where they name each
/// column of the other table, and else those of the other table, and then those that come.
///
/// # Errors
///
/// Returns `AllocError` if a request for memory was refused.
pub fn changed_columns(
    alloc: Global,
    key: Cells,
    old: &Cells,
    changes: &Cells,
    gone: &Cells,
) -> Result<Columns, AllocError>
    ensures { IfOk result (AreChangedColumns key old.now changes.now gone.now) }
{
    let written = changed_names(alloc, old, changes, gone)?;
    let columns = written_columns(alloc, key, &written, changes, old, gone)?;
    Ok(columns)
}

// The names of these columns.
fn changed_names(
    alloc: Global,
    old: &Cells,
    changes: &Cells,
    gone: &Cells,
) -> Result<Cells, AllocError>
    ensures { IfOk result (λ names. names ≡ changed_names old.now changes.now gone.now) }
{
    let each = name_each(alloc, old, changes)?;
    let going = Names::of_cells(alloc, gone)?;
    if each {
        let names = kept_names(alloc, &going, false, changes)?;
        Ok(names)
    } else {
        let names = names_beside(alloc, &going, old, changes, gone)?;
        Ok(names)
    }
}

// The names of a table, and then those of changes that it lacks, without those that go.
fn names_beside(
    alloc: Global,
    going: &Names,
    old: &Cells,
    changes: &Cells,
    gone: &Cells,
) -> Result<Cells, AllocError>
    ensures { IfOk result (λ names. names
        ≡ filter (λ name. not (has_name (names_in going.now) name)) old.now
        ++ filter (λ name. not (has_name (old.now ++ gone.now) name)) changes.now) }
{
    let mut there = Names::of_cells(alloc, old)?;
    there.add_all(alloc, gone)?;
    let mut names = kept_names(alloc, going, false, old)?;
    put_kept_names(&mut names, &there, false, changes)?;
    Ok(names)
}

/// The columns of two versions of a table merged over their base, as rows are merged: a column that one of them dropped is dropped, and one
/// that one of them alone has, and not the base, is there. They stand in the order of ours, and then those that theirs alone has; or the
/// other way about where theirs alone changed the columns, or their order. A header that is empty, as of a file with no row, is that of
/// the base.
///
/// # Errors
///
/// Returns `AllocError` if a request for memory was refused.
pub fn merged_columns<'a>(
    alloc: Global,
    key: Cells,
    base: &'a Cells,
    ours: &'a Cells,
    theirs: &'a Cells,
) -> Result<Columns, AllocError>
    ensures { IfOk result (AreMergedColumns key base.now ours.now theirs.now) }
{
    let ours = or_header(ours, base);
    let theirs = or_header(theirs, base);
    let written = names_merged(alloc, base, ours, theirs)?;
    let columns = written_columns(alloc, key, &written, base, ours, theirs)?;
    Ok(columns)
}

// The names of the columns of two versions merged over their base, in the order of one of the versions.
fn names_merged(
    alloc: Global,
    base: &Cells,
    ours: &Cells,
    theirs: &Cells,
) -> Result<Cells, AllocError>
    ensures { IfOk result (λ names. names ≡ names_merged base.now ours.now theirs.now) }
{
    if is_led_by_theirs(base, ours, theirs) {
        merged_names(alloc, base, theirs, ours)
    } else {
        merged_names(alloc, base, ours, theirs)
    }
}

// Whether theirs alone changed the columns, or theirs alone their order.
fn is_led_by_theirs(base: &Cells, ours: &Cells, theirs: &Cells) -> bool
    ensures { result ≡ is_led_by_theirs base.now ours.now theirs.now }
{
    ours == base || is_same_order(base, ours) && !is_same_order(base, theirs)
}

// The names of the columns of two versions without those that one of them dropped: those of the first, and then those that the next one
// alone has.
fn merged_names(
    alloc: Global,
    base: &Cells,
    first: &Cells,
    next: &Cells,
) -> Result<Cells, AllocError>
    ensures { IfOk result (λ names. names ≡ merged_names base.now first.now next.now) }
{
    let before = Names::of_cells(alloc, base)?;
    let there = Names::of_cells(alloc, first)?;
    let beside = Names::of_cells(alloc, next)?;
    let mut names = Cells::new(alloc);
    put_kept(&mut names, first, &before, &beside)?;
    put_added(&mut names, next, &before, &there)?;
    Ok(names)
}

// Puts those of a header after other names that the other version did not drop.
fn put_kept(
    names: &mut Cells,
    header: &Cells,
    before: &Names,
    beside: &Names,
) -> Result<(), AllocError>
    ensures { OnOk result (names.new
        ≡ names.old ++ filter (stays_in (names_in before.now) (names_in beside.now)) header.now) }
{
    for name in header {
        if beside.has(name) || !before.has(name) {
            names.push(name)?;
        }
    }
    Ok(())
}

// Puts those of a header after other names that are new, and not in the other version.
fn put_added(
    names: &mut Cells,
    header: &Cells,
    before: &Names,
    there: &Names,
) -> Result<(), AllocError>
    ensures { OnOk result (names.new
        ≡ names.old ++ filter (comes_in (names_in before.now) (names_in there.now)) header.now) }
{
    for name in header {
        if !there.has(name) && !before.has(name) {
            names.push(name)?;
        }
    }
    Ok(())
}

impl Columns {
    /// How many of the cells after a key are written. Those after them are of columns that go.
    pub fn count_written(&self) -> usize
        ensures { result ≡ count_written self.now }
    {
        self.order.iter().filter(|place| is_rest(place)).count()
    }

    /// Whether a row of a group has a cell that is not empty in a column that goes.
    pub fn lose_cells(&self, rows: &Group) -> bool
        ensures { result ≡ loses_cells (count_written self.now) rows.now }
    {
        let written = self.count_written();
        rows.rows().iter().any(|row| is_filled_behind(row, written))
    }
}

// Whether the cell of a column is none of the key.
fn is_rest(place: &Place) -> bool
    ensures { result ≡ is_rest place.now }
{
    match place {
        Place::Key(_) => false,
        Place::Rest => true,
    }
}

// Whether a row has a cell that is not empty after so many.
fn is_filled_behind(row: &Cells, written: usize) -> bool
    ensures { result ≡ list_any is_filled (drop written row.now) }
{
    row.iter().skip(written).any(|cell| !cell.is_empty())
}

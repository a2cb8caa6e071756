//! What became of the columns between two versions of a table.
ghost use Rattle.std.specs.Prelude.{◌≡◌, ◌||◌, ◌&&◌, ◌==◌, ◌∷◌, [], IfOk, OnOk, filter, is_none, length};
ghost use Rattle.keyed_columns.specs.ChangedColumns.{is_same_order};
ghost use Rattle.keyed_columns.specs.Names.{compared, has_lone, place_in};

use crate::columns::{has_name, kept_names, place_of};
use crate::names::Names;
use keyed_faults::ShownName;
use keyed_rows::Cells;
use std::alloc::{AllocError, Global};
use std::fmt;

/// What became of the columns between two headers. Prints as a line for each column that one of them alone has, and one for another order
/// of those that both have. A header that is empty, as of an empty file, says nothing of columns.
#[derive(Clone, Copy)]
pub struct ColumnChanges<'a> {
    before: &'a Cells,
    after: &'a Cells,
}

impl<'a> ColumnChanges<'a> {
    /// From the old header to the new one.
    pub fn new(old: &'a Cells, new: &'a Cells) -> Self
        ensures { (result.before.now, result.after.now) ≡ compared old.now new.now }
    {
        // An empty header beside itself has no column.
        if old.is_empty() {
            ColumnChanges {
                before: old,
                after: old,
            }
        } else if new.is_empty() {
            ColumnChanges {
                before: new,
                after: new,
            }
        } else {
            ColumnChanges {
                before: old,
                after: new,
            }
        }
    }

    /// Whether one of the headers has a column that the other lacks.
    ///
    /// # Errors
    ///
    /// Returns `AllocError` if a request for memory was refused.
    pub fn has_lone(self, alloc: Global) -> Result<bool, AllocError>
        ensures { IfOk result (λ has. has ≡ (has_lone self.entry.before.now self.entry.after.now
            || has_lone self.entry.after.now self.entry.before.now)) }
    {
        Ok(
            has_lone_name(alloc, self.before, self.after)?
                || has_lone_name(alloc, self.after, self.before)?,
        )
    }
}

/// The names of the columns that one of two tables alone has.
#[derive(Drop)]
pub struct LoneColumns {
    pub added: Cells,
    pub removed: Cells,
}

impl LoneColumns {
    /// Whether both tables have the same columns.
    pub fn is_empty(&self) -> bool
        ensures { result ≡ ((length self.now.added == 0) && (length self.now.removed == 0)) }
    {
        self.added.is_empty() && self.removed.is_empty()
    }
}

impl ColumnChanges<'_> {
    /// The names of the columns that one of the headers alone has.
    ///
    /// # Errors
    ///
    /// Returns `AllocError` if a request for memory was refused.
    pub fn lone(self, alloc: Global) -> Result<LoneColumns, AllocError> {
        Ok(LoneColumns {
            added: lone_names(alloc, self.after, self.before)?,
            removed: lone_names(alloc, self.before, self.after)?,
        })
    }
}

// The names that are not among others.
fn lone_names(alloc: Global, names: &Cells, others: &Cells) -> Result<Cells, AllocError>
    ensures { IfOk result (λ lone. lone ≡ filter (λ name. is_none (place_in others.now name)) names.now) }
{
    let known = Names::of_cells(alloc, others)?;
    let lone = kept_names(alloc, &known, false, names)?;
    Ok(lone)
}

impl fmt::Display for ColumnChanges<'_> {
    fn fmt<W: fmt::Write>(&self, f: &mut fmt::Formatter<W>) -> fmt::Result {
        if self.before == self.after {
            return Ok(());
        }
        say_lone(f, self.after, self.before, "added")?;
        say_lone(f, self.before, self.after, "removed")?;
        if is_same_order(self.before, self.after) {
            Ok(())
        } else {
            f.write_str("columns in another order\n")
        }
    }
}

// Whether a name is not among others.
fn has_lone_name(alloc: Global, names: &Cells, others: &Cells) -> Result<bool, AllocError>
    ensures { IfOk result (λ has. has ≡ has_lone names.now others.now) }
{
    let others = Names::of_cells(alloc, others)?;
    Ok(names.iter().any(|name| !others.has(name)))
}

// Says what became of each name that is not among others.
fn say_lone<W: fmt::Write>(
    f: &mut fmt::Formatter<W>,
    names: &Cells,
    others: &Cells,
    word: &str,
) -> fmt::Result {
    for name in names {
        if place_of(others, name).is_none() {
            writeln!(f, "column {} {word}", ShownName(name))?;
        }
    }
    Ok(())
}

// Whether the names that both headers have stand in the same order.
pub(crate) fn is_same_order(old: &Cells, new: &Cells) -> bool
    ensures { result ≡ is_same_order old.now new.now }
{
    let shared = old.iter().filter(|name| has_name(new, name));
    let shared_of_new = new.iter().filter(|name| has_name(old, name));
    shared.zip(shared_of_new).all(|(name, other)| name == other)
}

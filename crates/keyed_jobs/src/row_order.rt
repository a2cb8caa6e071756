//! The order in which the rows of a group come out: that of their cells, or that of the files.
ghost use Rattle.std.specs.Prelude.{◌≡◌, ◌++◌, ◌∷◌, [], IfOk, IsPermutation, is_none, map, true, unwrap_or};
ghost use Rattle.eob_joins.specs.Groups.{some_items};
ghost use Rattle.keyed_jobs.specs.ComeOut.{AlikePlaces, AlikeRows};

use either_or_both::EitherOrBoth;
use indexmap::IndexMap;
use keyed_rows::{Cells, Group, Key, ReadRow};
use std::alloc::{AllocError, Global};
use std::ops::Range;

// The rows of a file under their keys, as they stand there.
type RowsByKey = IndexMap<Key, Vec<Cells>>;

/// The rows of the files in the order in which they stand there, where the rows of a group come out in this order.
#[derive(Drop)]
pub struct RowOrder {
    files: Option<Vec<RowsByKey>>,
}

// How often a group has a row, how many of these are put, and how often the file has it up to here.
#[derive(Clone, Copy)]
struct Times {
    wanted: usize,
    put: usize,
    seen: usize,
}

impl Times {
    // A row that is there once.
    const ONCE: Times = Times {
        wanted: 1,
        put: 0,
        seen: 0,
    };
}

impl RowOrder {
    /// The order of cells.
    pub fn by_cells() -> Self
        ensures { is_none result.files ≡ true }
    {
        RowOrder { files: None }
    }

    /// The order of the files, of which none is read yet.
    pub fn by_file(alloc: Global) -> Self {
        RowOrder {
            files: Some(Vec::new(alloc)),
        }
    }

    /// Whether it is the order of cells, in which groups have their rows.
    pub fn is_by_cells(&self) -> bool
        ensures { result ≡ is_none self.now.files }
    {
        self.files.is_none()
    }

    /// Takes the rows of the next file, as they stand there.
    ///
    /// # Errors
    ///
    /// Returns `AllocError` if a request for memory was refused.
    pub fn note_file(&mut self, alloc: Global, rows: &[ReadRow]) -> Result<(), AllocError>
        ensures { is_none self.old.files ≡ true → is_none self.new.files ≡ true }
    {
        if let Some(files) = &mut self.files {
            let mut file: RowsByKey = IndexMap::new(alloc);
            for row in rows {
                note_row(alloc, &mut file, row)?;
            }
            files.push(file)?;
        }
        Ok(())
    }

    /// The rows of a group under a key in this order: those of the first of these files as they stand there, then those that it lacks as
    /// they stand in the next. A row that a file has several times is as many rows.
    ///
    /// # Errors
    ///
    /// Returns `AllocError` if a request for memory was refused.
    pub fn arrange(
        &self,
        alloc: Global,
        files: Range<usize>,
        key: &Key,
        group: Group,
    ) -> Result<Group, AllocError>
        ensures alike { IfOk result (AlikeRows group) }
        ensures same { is_none self.now.files ≡ true → IfOk result (λ rows. rows ≡ group) }
    {
        match &self.files {
            Some(noted) => arranged(alloc, noted.get(files).unwrap_or(&[]), key, group),
            None => Ok(group),
        }
    }

    /// All files that are read.
    pub fn all_files(&self) -> Range<usize> {
        0..self.files.as_ref().map_or(0, |files| files.len())
    }
}

fn note_row(alloc: Global, file: &mut RowsByKey, row: &ReadRow) -> Result<(), AllocError> {
    let cells = row.cells.clone()?;
    match file.get_mut(&row.key) {
        Some(rows) => rows.push(cells)?,
        None => {
            let mut rows = Vec::new(alloc);
            rows.push(cells)?;
            file.insert(row.key.clone()?, rows)?;
        }
    }
    Ok(())
}

// The rows of a group under a key in the order of the files. A group with rows that no file has stays as it is.
fn arranged(
    alloc: Global,
    files: &[RowsByKey],
    key: &Key,
    group: Group,
) -> Result<Group, AllocError>
    ensures { IfOk result (AlikeRows group) }
{
    if group.rows().len() < 2 {
        return Ok(group);
    }
    let order = rows_in_order(alloc, files, key, group.rows())?;
    put_in_order(alloc, group, order)
}

// The rows of a group, which stand in the order of their cells, in another order, if it has the same rows.
fn put_in_order(alloc: Global, group: Group, order: Vec<Cells>) -> Result<Group, AllocError>
    ensures { IfOk result (AlikeRows group) }
{
    if are_sorted_as(alloc, group.rows(), &order)? {
        match group_of(alloc, order)? {
            Some(made) => Ok(made),
            None => Ok(group),
        }
    } else {
        Ok(group)
    }
}

// Whether rows that stand in the order of their cells are these ones in another order.
fn are_sorted_as(alloc: Global, rows: &[Cells], order: &[Cells]) -> Result<bool, AllocError>
    ensures { IfOk result (λ same. same ≡ true → IsPermutation order.now rows.now) }
{
    let mut sorted: Vec<&Cells> = Vec::new(alloc);
    for row in order {
        sorted.push(row)?;
    }
    sorted.sort()?;
    Ok(are_same(rows, &sorted))
}

// Whether these are the same rows.
fn are_same(rows: &[Cells], others: &[&Cells]) -> bool
    ensures { result ≡ true → rows.now ≡ map (λ row. row.now) others.now }
{
    if rows.len() != others.len() {
        return false;
    }
    for place in 0..rows.len() {
        if !is_same(&rows[place], others[place]) {
            return false;
        }
    }
    true
}

// Whether two rows have the same cells.
fn is_same(row: &Cells, other: &Cells) -> bool
    ensures { result ≡ true → row.now ≡ other.now }
{
    row == other
}

// Rows as a group, if there are any.
fn group_of(alloc: Global, rows: Vec<Cells>) -> Result<Option<Group>, AllocError>
    ensures { IfOk result (λ made. made ≡ some_items rows.items) }
{
    let mut made: Option<Group> = None;
    for row in rows {
        made = Some(with_row(alloc, made, row)?);
    }
    Ok(made)
}

// A group with a row more, or of this row.
fn with_row(alloc: Global, made: Option<Group>, row: Cells) -> Result<Group, AllocError>
    ensures { IfOk result (λ group. group ≡ unwrap_or made [] ++ row ∷ []) }
{
    match made {
        Some(group) => group.with_row(alloc, row),
        None => Ok(Group::new(row)),
    }
}

fn rows_in_order(
    alloc: Global,
    files: &[RowsByKey],
    key: &Key,
    rows: &[Cells],
) -> Result<Vec<Cells>, AllocError> {
    let mut times = times_of(alloc, rows)?;
    let mut order = Vec::new(alloc);
    for file in files {
        if let Some(there) = file.get(key) {
            for row in there {
                put_row(&mut times, &mut order, row)?;
            }
        }
        for row in rows {
            if let Some(times) = times.get_mut(row) {
                times.seen = 0;
            }
        }
    }
    Ok(order)
}

// How often each row is there.
fn times_of(alloc: Global, rows: &[Cells]) -> Result<IndexMap<Cells, Times>, AllocError> {
    let mut all: IndexMap<Cells, Times> = IndexMap::new(alloc);
    for row in rows {
        match all.get_mut(row) {
            Some(times) => times.wanted = times.wanted.saturating_add(1),
            None => {
                all.insert(row.clone()?, Times::ONCE)?;
            }
        }
    }
    Ok(all)
}

// Puts the next row of a file, unless it is put as often as the group has it, or as an earlier file had it up to here.
fn put_row(
    times: &mut IndexMap<Cells, Times>,
    order: &mut Vec<Cells>,
    row: &Cells,
) -> Result<(), AllocError> {
    if let Some(times) = times.get_mut(row) {
        times.seen = times.seen.saturating_add(1);
        if times.seen > times.put && times.put < times.wanted {
            times.put = times.seen;
            order.push(row.clone()?)?;
        }
    }
    Ok(())
}

/// What stands under a key: the rows of a group, or of each of several.
pub trait Grouped: Sized {
    // The same groups, each with its rows in another order.
    ghost alike: { Self → Self → Type 0 };

    /// The same with the rows of each group in the order of the files.
    ///
    /// # Errors
    ///
    /// Returns `AllocError` if a request for memory was refused.
    fn in_order(self, alloc: Global, order: &RowOrder, key: &Key) -> Result<Self, AllocError>
        ensures { IfOk result (alike self) };
}

impl Grouped for Group {
    ghost alike = { AlikeRows };

    fn in_order(self, alloc: Global, order: &RowOrder, key: &Key) -> Result<Self, AllocError> {
        order.arrange(alloc, order.all_files(), key, self)
    }
}

impl<L: Grouped + Drop, R: Grouped + Drop> Grouped for EitherOrBoth<L, R> {
    ghost alike = { AlikePlaces L.alike R.alike };

    fn in_order(self, alloc: Global, order: &RowOrder, key: &Key) -> Result<Self, AllocError> {
        match self {
            EitherOrBoth::Left(left) => {
                Ok(EitherOrBoth::Left(left.in_order(alloc, order, key)?))
            }
            EitherOrBoth::Right(right) => {
                Ok(EitherOrBoth::Right(right.in_order(alloc, order, key)?))
            }
            EitherOrBoth::Both(left, right) => {
                let left = left.in_order(alloc, order, key)?;
                Ok(EitherOrBoth::Both(left, right.in_order(alloc, order, key)?))
            }
        }
    }
}

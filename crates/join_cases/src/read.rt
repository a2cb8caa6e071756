//! Tables that are texts, as `1:7 2:9`, and what may be wrong with them.
ghost use Rattle.std.specs.Prelude.{IfOk};
ghost use Rattle.std.specs.Ordering.{nat_cmp};
ghost use Rattle.either_or_both.specs.Join.{Rising};
ghost use Rattle.eob_joins.specs.Groups.{Ordered};

use either_or_both::EitherOrBoth;
use either_or_both::join::is_rising;
use eob_joins::{Change, is_ordered};
use std::alloc::{AllocError, AllocFailed, Global};
use std::fmt::Debug;

/// Why a line has no answer.
#[derive(Debug, Drop)]
pub enum Wrong {
    /// A request for memory was refused.
    Memory,
    /// It is no case, and why.
    Line(&'static str),
}

impl From<AllocError> for Wrong {
    fn from(_error: AllocError) -> Self {
        Wrong::Memory
    }
}

impl<T: Drop> From<AllocFailed<T>> for Wrong {
    fn from(_failed: AllocFailed<T>) -> Self {
        Wrong::Memory
    }
}

pub type Table<V> = Vec<(u32, V)>;

/// A line has fewer tables than its call takes.
pub const MISSING: Wrong = Wrong::Line("a table is missing");

/// The keys of a table are not ordered.
pub const UNORDERED: Wrong = Wrong::Line("keys that are not ordered");

/// A value as a text.
pub fn shown<V: Debug>(alloc: Global, value: &V) -> Result<String, Wrong> {
    Ok(format!(in alloc; "{value:?}")?)
}

/// The texts of two tables.
pub fn two(tables: &str) -> Result<(&str, &str), Wrong> {
    tables.split_once('|').ok_or(MISSING)
}

/// The texts of three tables.
pub fn three(tables: &str) -> Result<(&str, &str, &str), Wrong> {
    let (first, others) = two(tables)?;
    let (second, third) = two(others)?;
    Ok((first, second, third))
}

/// What a table has under a key.
pub trait Value: Sized {
    /// Reads the value of a text.
    fn read(alloc: Global, text: &str) -> Result<Self, Wrong>;
}

impl Value for u32 {
    fn read(_alloc: Global, text: &str) -> Result<u32, Wrong> {
        match text.parse() {
            Ok(number) => Ok(number),
            Err(_) => Err(Wrong::Line("no number")),
        }
    }
}

/// A change is `7>` where the value goes, `>9` where one comes, and `7>9` where it is another one.
impl Value for Change<u32> {
    fn read(alloc: Global, text: &str) -> Result<Change<u32>, Wrong> {
        match text.split_once('>') {
            Some((old, "")) => Ok(EitherOrBoth::Left(u32::read(alloc, old)?)),
            Some(("", new)) => Ok(EitherOrBoth::Right(u32::read(alloc, new)?)),
            Some((old, new)) => Ok(EitherOrBoth::Both(
                u32::read(alloc, old)?,
                u32::read(alloc, new)?,
            )),
            None => Err(Wrong::Line("no change")),
        }
    }
}

/// Cells have a point between two.
impl Value for Vec<u32> {
    fn read(alloc: Global, text: &str) -> Result<Vec<u32>, Wrong> {
        let mut cells = Vec::new(alloc);
        for cell in text.split('.') {
            cells.push(u32::read(alloc, cell)?)?;
        }
        Ok(cells)
    }
}

// The words of a table, of which `-` has none.
fn words(text: &str) -> Result<&str, Wrong> {
    match text.trim() {
        "" => Err(MISSING),
        "-" => Ok(""),
        words => Ok(words),
    }
}

/// The rows of a table.
pub fn table<V: Value + Drop>(alloc: Global, text: &str) -> Result<Table<V>, Wrong> {
    let mut rows = Vec::new(alloc);
    for word in words(text)?.split_whitespace() {
        let (key, value) = word.split_once(':').ok_or(Wrong::Line("no row"))?;
        rows.push((u32::read(alloc, key)?, V::read(alloc, value)?))?;
    }
    Ok(rows)
}

/// The rows of a table whose keys strictly increase.
pub fn rising<V: Value + Drop>(alloc: Global, text: &str) -> Result<Table<V>, Wrong>
    ensures { IfOk result (λ table. Rising nat_cmp table.items) }
{
    let table = table(alloc, text)?;
    if is_rising(&table) {
        Ok(table)
    } else {
        Err(Wrong::Line("keys that do not strictly increase"))
    }
}

/// The rows of a table whose keys are ordered.
pub fn ordered(alloc: Global, text: &str) -> Result<Table<u32>, Wrong>
    ensures { IfOk result (λ table. Ordered nat_cmp table.items) }
{
    let table = table(alloc, text)?;
    if is_ordered(&table) {
        Ok(table)
    } else {
        Err(UNORDERED)
    }
}

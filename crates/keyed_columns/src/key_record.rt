//! The names of the columns that are the key, as they are given.
ghost use Rattle.std.specs.Prelude.{◌≡◌, ◌==◌, ◌++◌, ◌∷◌, [], IfErr, IfOk, OnOk, false, option_and_then};
ghost use Rattle.std.specs.Prelude.{option_map, slice_get};
ghost use Rattle.std.specs.Prelude.{true};
ghost use Rattle.csv.specs.Records.{fields_of};
ghost use Rattle.keyed_text.specs.Streams.{GivesRow};
ghost use Rattle.keyed_faults.specs.Outside.{IsApart};
ghost use Rattle.keyed_columns.specs.KeyText.{AreNamesIn, AreNamesOf, EndsNames, GivesNames, HasNames};
ghost use Rattle.keyed_columns.specs.KeyText.{ReadsByte};
ghost use Rattle.keyed_columns.specs.KeyText.{begins_well, doubled, other_in, read_of, text_left};
ghost use Rattle.keyed_columns.specs.Names.{place_in, renamed};
ghost use Rattle.keyed_columns.specs.NewColumns.{HasOnce};

use crate::columns::place_of;
use crate::header::cell_of;
use crate::names::Names;
use csv::ByteRecord;
use keyed_faults::Reason;
use keyed_rows::Cells;
use keyed_text::{Marks, RowReader, Strict};
use std::alloc::{AllocError, Global};

// How such a text is parted.
pub(crate) const COMMAS: Marks = Marks {
    delimiter: b',',
    comment: None,
};

/// The names of the columns that are the key: those that they have in the first table, and those in the others, in the same order.
#[derive(Drop)]
pub struct KeyNames {
    pub first: Cells,
    pub others: Cells,
}

impl KeyNames {
    /// Columns that have these names in each table.
    ///
    /// # Errors
    ///
    /// Returns `AllocError` if a request for memory was refused.
    pub fn alike(names: Cells) -> Result<Self, AllocError>
        ensures first { IfOk result (λ alike. alike.first ≡ names) }
        ensures others { IfOk result (λ alike. alike.others ≡ names) }
    {
        let others = names.clone()?;
        Ok(KeyNames {
            first: names,
            others,
        })
    }

    /// The name in the other tables of the column that has this one in the first, if it is a column of the key.
    pub fn other_of(&self, name: &[u8]) -> Option<&[u8]>
        ensures { option_map (λ other. other.now) result
            ≡ option_and_then (λ place. slice_get self.now.others place) (place_in self.now.first name.now) }
    {
        self.others.get(place_of(&self.first, name)?)
    }

    /// The name in the other tables of the column that has this one in the first: the same, unless a column of the key has two names.
    pub fn renamed<'a>(&'a self, name: &'a [u8]) -> &'a [u8]
        ensures { result.now ≡ renamed self.now.first self.now.others name.now }
    {
        match self.other_of(name) {
            Some(other) => other,
            None => name,
        }
    }
}

/// The names that a text gives, which is one record of CSV with commas between its cells. A column whose names differ has them both, with an
/// `=` between them. Two `=` side by side, read from the left, are one of a name.
///
/// # Errors
///
/// Returns `KeyNoRecord` if the text is another number of records or its quotes are not in order, `ManyNames` if a column has more than two
/// names, `RepeatedName` if two names of one table are the same, and `NoMemory` if a request for memory was refused.
///
/// ```
/// let names = key_names(alloc, "customer_id=id,year")?;
/// assert!(rt; names.first.get(0) == Some(b"customer_id") && names.others.get(0) == Some(b"id"));
/// assert!(rt; names.first.get(1) == Some(b"year") && names.others.get(1) == Some(b"year"));
/// ```
pub fn key_names(alloc: Global, text: &str) -> Result<KeyNames, Reason>
    ensures names { IfOk result (λ names. AreNamesIn text.now names.first names.others) }
    ensures why { IfErr result IsApart }
{
    if text.is_empty() {
        let names = no_name(alloc)?;
        return Ok(names);
    }
    let strict = Strict::new(text.as_bytes(), COMMAS);
    let mut rows = RowReader::new(alloc, strict, COMMAS);
    let mut row = ByteRecord::new(alloc);
    if !read_key(&mut rows, &mut row)? {
        return Err(Reason::KeyNoRecord);
    }
    let names = names_of(alloc, &row)?;
    if read_key(&mut rows, &mut row)? {
        return Err(Reason::KeyNoRecord);
    }
    Ok(names)
}

// One name in each table, which is empty.
fn no_name(alloc: Global) -> Result<KeyNames, AllocError>
    ensures { IfOk result (λ names. AreNamesOf ([] ∷ []) names.first names.others) }
{
    let names = KeyNames::alike(Cells::from_slices(alloc, &[b""])?)?;
    Ok(names)
}

// Reads a record, or says that there is none.
pub(crate) fn read_key(
    rows: &mut RowReader<Strict<&[u8]>>,
    row: &mut ByteRecord,
) -> Result<bool, Reason>
    ensures found { IfOk result (λ found. GivesRow text_left rows.old rows.new found (fields_of row.new)) }
    ensures why { IfErr result IsApart }
{
    let outcome = rows.read_row(row);
    if rows.get_ref().quote_fault().is_some() {
        return Err(Reason::KeyNoRecord);
    }
    match outcome {
        Ok(found) => Ok(found),
        Err(error) => Err(Reason::of_reading(error)),
    }
}

// The names that the cells of a record give, no two of which are the same in one table.
fn names_of(alloc: Global, row: &ByteRecord) -> Result<KeyNames, Reason>
    ensures names { IfOk result (λ names. AreNamesOf (fields_of row.now) names.first names.others) }
    ensures why { IfErr result IsApart }
{
    let mut first = NewNames::new(alloc);
    let mut others = NewNames::new(alloc);
    for place in 0..row.len() {
        let column = names_of_cell(alloc, cell_of(row, place))?;
        others.put(alloc, column.other())?;
        first.put(alloc, &column.first)?;
    }
    Ok(KeyNames {
        first: first.names,
        others: others.names,
    })
}

// Names of which no two are the same.
#[derive(Drop)]
pub(crate) struct NewNames {
    pub(crate) names: Cells,
    seen: Names,
}

impl NewNames {
    pub(crate) fn new(alloc: Global) -> Self
        ensures once { HasOnce result }
        ensures none { result.names ≡ [] }
    {
        NewNames {
            names: Cells::new(alloc),
            seen: Names::new(alloc),
        }
    }

    pub(crate) fn put(&mut self, alloc: Global, name: &[u8]) -> Result<(), Reason>
        ensures once { OnOk result (HasOnce self.old → HasOnce self.new) }
        ensures names { OnOk result (self.new.names ≡ self.old.names ++ name.now ∷ []) }
        ensures why { IfErr result IsApart }
    {
        if !self.seen.add(alloc, name)? {
            return Err(Reason::RepeatedName(Vec::from_slice(alloc, name)?));
        }
        self.names.push(name)?;
        Ok(())
    }
}

// The name of a column in the first table, and its name in the others where that is another, as far as its cell is read.
#[derive(Drop)]
pub(crate) struct TwoNames {
    pub(crate) first: Vec<u8>,
    pub(crate) other: Option<Vec<u8>>,
    // Whether an `=` has come that is one of a name if another comes next.
    waits: bool,
}

impl TwoNames {
    // Nothing is read.
    fn new(alloc: Global) -> Self
        ensures { HasNames [] result }
    {
        TwoNames {
            first: Vec::new(alloc),
            other: None,
            waits: false,
        }
    }

    // Reads the next byte, and returns whether there are two names at most.
    fn read(&mut self, alloc: Global, byte: u8) -> Result<bool, AllocError>
        ensures { IfOk result (λ goes. goes ≡ true → ReadsByte self.old self.new byte) }
    {
        let is_equal = byte == b'=';
        if self.waits == is_equal {
            self.put(byte)?;
            Ok(true)
        } else if is_equal {
            self.waits = true;
            Ok(true)
        } else {
            self.begin_other(alloc, byte)
        }
    }

    // Puts a byte after the name that is read.
    fn put(&mut self, byte: u8) -> Result<(), AllocError>
        ensures waits { self.new.waits ≡ false }
        ensures read { OnOk result (read_of self.new ≡ read_of self.old ++ doubled (byte ∷ [])) }
        ensures begun { OnOk result (begins_well (option_map (λ name. name.items) self.old.other) ≡ true
            → begins_well (option_map (λ name. name.items) self.new.other) ≡ true) }
    {
        self.waits = false;
        match &mut self.other {
            Some(name) => name.push(byte)?,
            None => self.first.push(byte)?,
        }
        Ok(())
    }

    // Begins the name in the others with this byte, unless it is begun: then it returns false.
    fn begin_other(&mut self, alloc: Global, byte: u8) -> Result<bool, AllocError>
        requires waits { self.old.waits ≡ true }
        requires byte { (byte == 61) ≡ false }
        ensures { IfOk result (λ goes. goes ≡ true → ReadsByte self.old self.new byte) }
    {
        if self.other.is_some() {
            return Ok(false);
        }
        let mut name = Vec::new(alloc);
        name.push(byte)?;
        self.other = Some(name);
        self.waits = false;
        Ok(true)
    }

    // Ends the names, and returns whether there are two at most.
    fn end(&mut self, alloc: Global) -> bool
        ensures { result ≡ true → EndsNames self.old self.new }
    {
        if !self.waits {
            return true;
        }
        if self.other.is_some() {
            return false;
        }
        self.other = Some(Vec::new(alloc));
        true
    }

    // The name in the other tables.
    fn other(&self) -> &[u8]
        ensures { result.now ≡ other_in self.now }
    {
        match &self.other {
            Some(name) => name,
            None => &self.first,
        }
    }
}

// The names that a cell gives, with one `=` between them. Two are one of a name.
pub(crate) fn names_of_cell(alloc: Global, cell: &[u8]) -> Result<TwoNames, Reason>
    ensures names { IfOk result (λ names. GivesNames cell.now (names.first.items, other_in names)) }
    ensures why { IfErr result IsApart }
{
    let mut names = TwoNames::new(alloc);
    for byte in cell {
        if !names.read(alloc, *byte)? {
            return Err(Reason::ManyNames(Vec::from_slice(alloc, cell)?));
        }
    }
    if !names.end(alloc) {
        return Err(Reason::ManyNames(Vec::from_slice(alloc, cell)?));
    }
    Ok(names)
}

//! The names of a table's columns, told apart where the header has one more than once.
ghost use Rattle.std.specs.Prelude.{◌≡◌, ◌++◌, ◌∷◌, ◌^◌, ◌<◌, IfErr, IfOk, IfSome, OnOk, [], false, map};
ghost use Rattle.std.specs.Prelude.{nat_eq, true, unwrap_or};
ghost use Rattle.std.specs.Cmp.Lexicographic.{pointwise};
ghost use Rattle.std.specs.List.{list_all, list_any};
ghost use Rattle.csv.specs.Records.{field_at, fields_of};
ghost use Rattle.keyed_columns.specs.Going.{coming_behind, going_behind, name_if_comes, name_if_goes};
ghost use Rattle.keyed_columns.specs.Going.{names_coming, names_going, with_coming, with_going};
ghost use Rattle.keyed_columns.specs.Headers.{name_in, names_behind, numbered_names};
ghost use Rattle.keyed_columns.specs.KeyColumns.{ExplainsKey, ExplainsName, ExplainsRenaming};
ghost use Rattle.keyed_columns.specs.KeyColumns.{PutsName, TellsNames, is_one_column, lacks};
ghost use Rattle.keyed_columns.specs.KeyColumns.{with_two_names};
ghost use Rattle.keyed_columns.specs.Names.{names_in, place_in, renamed, repeats};
ghost use Rattle.keyed_columns.specs.Repeated.{AreRepeated};

use crate::columns::has_name;
use crate::fate::Fate;
use crate::key_record::KeyNames;
use crate::names::Names;
use csv::ByteRecord;
use keyed_faults::Reason;
use keyed_rows::Cells;
use std::alloc::{AllocError, Global};
use std::mem;

/// The names of the columns of a table, no two of which are the same, and which of them stand in its header more than once.
#[derive(Drop)]
pub struct Header {
    pub names: Cells,
    /// How the header spells them.
    pub spelling: Spelling,
    // The same, each found in one step.
    found: Names,
    /// In a table of changes, those of columns that go.
    pub gone: Cells,
    /// And those of columns that come.
    pub came: Cells,
    repeated: Names,
    // The line that it stands on.
    line: u64,
    ghost found_is_names: { names_in found ≡ names },
    ghost repeated_twice: { AreRepeated spelling.spelled (names_in repeated) },
}

/// The names of the columns of a table as its header spells them, the same name as often as it stands there, and those by which they are
/// told apart as the header is read.
#[derive(Drop)]
pub struct Spelling {
    pub names: Cells,
    pub spelled: Cells,
}

impl Header {
    /// No column, as of a file with no row.
    pub fn none(alloc: Global) -> Self
        ensures names { result.names ≡ [] }
        ensures spelled_names { result.spelling.names ≡ [] }
        ensures spelled { result.spelling.spelled ≡ [] }
        ensures gone { result.gone ≡ [] }
        ensures came { result.came ≡ [] }
    {
        Header {
            names: Cells::new(alloc),
            spelling: Spelling {
                names: Cells::new(alloc),
                spelled: Cells::new(alloc),
            },
            found: Names::new(alloc),
            gone: Cells::new(alloc),
            came: Cells::new(alloc),
            repeated: Names::new(alloc),
            line: 0,
        }
    }

    /// The names in the row on a line, after the cells that stand before them: where there are such, it is the header of changes, and the
    /// marks before the names are taken off. Of those that are the same the first is as it stands,
    /// and the others have a number after a point: the second `NAME.2`, or the next number with which no column is named.
    ///
    /// # Errors
    ///
    /// Returns `AllocError` if a request for memory was refused.
    pub fn of_record(
        alloc: Global,
        row: &ByteRecord,
        before: usize,
        line: u64,
    ) -> Result<Self, AllocError>
        ensures names { IfOk result (λ header. repeats [] (names_behind before (fields_of row.now)) ≡ false
            → header.names ≡ names_behind before (fields_of row.now)) }
        ensures spelled_names { IfOk result (λ header. header.spelling.names ≡ header.names) }
        ensures spelled { IfOk result
            (λ header. header.spelling.spelled ≡ names_behind before (fields_of row.now)) }
        ensures gone { IfOk result (λ header. header.gone ≡ names_going before (fields_of row.now)) }
        ensures came { IfOk result (λ header. header.came ≡ names_coming before (fields_of row.now)) }
    {
        let spelled = spelled_names(alloc, row, before)?;
        let there = There::of_record(alloc, row, before)?;
        let mut told = Told::new(alloc);
        // Of each name of the header the number that the last column of this name has, or 0 where none has come.
        let mut numbers: Vec<usize> = Vec::from_elem(alloc, 0, there.each.len())?;
        for place in before..row.len() {
            let (fate, name) = fate_of(before, cell_of(row, place));
            let last = last_number(&numbers, there.each.place_of(name));
            let number = told.put(alloc, &there.each, name, last)?;
            note_number(&mut numbers, there.each.place_of(name), number);
            told.note_fate(fate, name)?;
        }
        told.into_header(alloc, spelled, there.repeated, line)
    }

    /// The header of the same changes taken back: the columns that came go, and those that went come.
    pub fn turn(&mut self)
        ensures { self.new ≡ record self.old { gone = self.old.came; came = self.old.gone } }
    {
        mem::swap(&mut self.gone, &mut self.came);
    }

    /// The names of columns that have no header, of which there are so many: 1, 2 and so on.
    ///
    /// # Errors
    ///
    /// Returns `AllocError` if a request for memory was refused.
    pub fn numbers(alloc: Global, count: usize, line: u64) -> Result<Self, AllocError>
        ensures names { IfOk result (λ header. header.names ≡ numbered_names count) }
        ensures spelled_names { IfOk result (λ header. header.spelling.names ≡ header.names) }
    {
        let mut told = Told::new(alloc);
        for number in 0..count {
            let name = format!(in alloc; "{}", number.saturating_add(1))?;
            told.found.add(alloc, name.as_bytes())?;
        }
        told.into_header(alloc, Cells::new(alloc), Names::new(alloc), line)
    }

    /// Gives the columns of a key, which have the first of their names, the others. A header with no name, as of an empty file, stays so.
    ///
    /// # Errors
    ///
    /// Returns `NoColumn` if the header lacks a column that gets another name, `RepeatedColumn` if it has one more than once, `NamedTwice`
    /// if two columns would have one name, and `NoMemory` if a request for memory was refused.
    pub fn rename(&mut self, alloc: Global, key: &KeyNames) -> Result<(), Reason>
        ensures names { OnOk result
            (self.new.names ≡ map (renamed key.now.first key.now.others) self.old.names) }
        ensures spelling { self.new.spelling ≡ self.old.spelling }
        ensures why { IfErr result
            (ExplainsRenaming self.old.spelling.spelled self.old.names self.old.gone key.now) }
    {
        self.check_key(alloc, &renamed_of(alloc, key)?)?;
        let mut found = Names::new(alloc);
        for name in &self.names {
            let name = key.renamed(name);
            if !found.add(alloc, name)? {
                return Err(Reason::NamedTwice {
                    line: self.line,
                    name: Vec::from_slice(alloc, name)?,
                });
            }
        }
        self.names = found.to_cells(alloc)?;
        self.found = found;
        Ok(())
    }

    /// Where the column of a name stands, if there is one.
    pub fn place_of(&self, name: &[u8]) -> Option<usize>
        ensures place { result ≡ place_in self.now.names name.now }
        ensures bound { IfSome result (λ place. place < 2 ^ 63) }
    {
        self.found.place_of(name)
    }

    /// Tells that each name of a key is that of one column, and of one that does not go. A header with no name, as of an empty file, needs
    /// none.
    ///
    /// # Errors
    ///
    /// Returns `NoColumn` if the header lacks a name, or its column goes, `RepeatedColumn` if it has one more than once, and `NoMemory` if
    /// a request for memory was refused.
    pub fn check_key(&self, alloc: Global, key: &Cells) -> Result<(), Reason>
        ensures known { OnOk result (list_all
            (is_one_column self.now.spelling.spelled self.now.names self.now.gone) key.now ≡ true) }
        ensures why { IfErr result
            (ExplainsKey self.now.spelling.spelled self.now.names self.now.gone key.now) }
    {
        for name in key {
            self.check_name(alloc, name)?;
        }
        Ok(())
    }

    // Tells the same of one name.
    fn check_name(&self, alloc: Global, name: &[u8]) -> Result<(), Reason>
        ensures known { OnOk result
            (is_one_column self.now.spelling.spelled self.now.names self.now.gone name.now ≡ true) }
        ensures why { IfErr result
            (ExplainsName self.now.spelling.spelled self.now.names self.now.gone name.now) }
    {
        if self.repeated.has(name) {
            return Err(Reason::RepeatedColumn {
                line: self.line,
                name: Vec::from_slice(alloc, name)?,
            });
        }
        if self.lacks(name) {
            return Err(Reason::NoColumn {
                line: self.line,
                name: Vec::from_slice(alloc, name)?,
                header: self.names.clone()?,
            });
        }
        Ok(())
    }

    // Whether there are columns, and none of this name that stays.
    fn lacks(&self, name: &[u8]) -> bool
        ensures { result ≡ lacks self.now.names self.now.gone name.now }
    {
        !self.names.is_empty() && (has_name(&self.gone, name) || !self.found.has(name))
    }
}

// The names that the header has, each once, to be found, and those that stand there more than once.
#[derive(Drop)]
struct There {
    each: Names,
    repeated: Names,
}

impl There {
    // No name.
    fn new(alloc: Global) -> Self
        ensures { TellsNames [] result }
    {
        There {
            each: Names::new(alloc),
            repeated: Names::new(alloc),
        }
    }

    // The names that a record has after the cells that stand before them.
    fn of_record(alloc: Global, row: &ByteRecord, before: usize) -> Result<Self, AllocError>
        ensures { IfOk result (TellsNames (names_behind before (fields_of row.now))) }
    {
        let mut there = There::new(alloc);
        for place in before..row.len() {
            there.put(alloc, fate_of(before, cell_of(row, place)).1)?;
        }
        Ok(there)
    }

    // Puts the name that stands next.
    fn put(&mut self, alloc: Global, name: &[u8]) -> Result<(), AllocError>
        ensures { OnOk result (PutsName self.old self.new name.now) }
    {
        if !self.each.add(alloc, name)? {
            self.repeated.add(alloc, name)?;
        }
        Ok(())
    }
}

// The names of a header that is read, up to a column.
#[derive(Drop)]
struct Told {
    found: Names,
    // Those of columns that go, and of those that come.
    gone: Cells,
    came: Cells,
}

impl Told {
    // No name.
    fn new(alloc: Global) -> Self
        ensures names { names_in result.found ≡ [] }
        ensures gone { result.gone ≡ [] }
        ensures came { result.came ≡ [] }
    {
        Told {
            found: Names::new(alloc),
            gone: Cells::new(alloc),
            came: Cells::new(alloc),
        }
    }

    // Puts the next column of a name whose last one has this number, and returns its own.
    fn put(
        &mut self,
        alloc: Global,
        there: &Names,
        name: &[u8],
        last: usize,
    ) -> Result<usize, AllocError>
        ensures names { OnOk result (list_any (pointwise nat_eq name.now) (names_in self.old.found) ≡ false
            → names_in self.new.found ≡ names_in self.old.found ++ name.now ∷ []) }
        ensures gone { self.new.gone ≡ self.old.gone }
        ensures came { self.new.came ≡ self.old.came }
    {
        if self.found.add(alloc, name)? {
            return Ok(1);
        }
        let mut number = last.saturating_add(1);
        let mut told = numbered(alloc, name, number)?;
        // As many names as there are may be taken.
        for _ in 0..there.len() {
            if !there.has(&told) {
                break;
            }
            number = number.saturating_add(1);
            told = numbered(alloc, name, number)?;
        }
        self.found.add(alloc, &told)?;
        Ok(number)
    }

    // Notes what becomes of a column.
    fn note_fate(&mut self, fate: Fate, name: &[u8]) -> Result<(), AllocError>
        ensures found { self.new.found ≡ self.old.found }
        ensures gone { OnOk result (self.new.gone ≡ with_going fate name.now self.old.gone) }
        ensures came { OnOk result (self.new.came ≡ with_coming fate name.now self.old.came) }
    {
        match fate {
            Fate::Goes => self.gone.push(name)?,
            Fate::Comes => self.came.push(name)?,
            Fate::Stays => {}
        }
        Ok(())
    }

    // The header on a line with these names, which it spells so, some of them more than once.
    fn into_header(
        self,
        alloc: Global,
        spelled: Cells,
        repeated: Names,
        line: u64,
    ) -> Result<Header, AllocError>
        requires { AreRepeated spelled (names_in repeated) }
        ensures names { IfOk result (λ header. header.names ≡ names_in self.found) }
        ensures spelled_names { IfOk result (λ header. header.spelling.names ≡ header.names) }
        ensures spelled { IfOk result (λ header. header.spelling.spelled ≡ spelled) }
        ensures gone { IfOk result (λ header. header.gone ≡ self.gone) }
        ensures came { IfOk result (λ header. header.came ≡ self.came) }
    {
        Ok(Header {
            names: self.found.to_cells(alloc)?,
            spelling: Spelling {
                names: self.found.to_cells(alloc)?,
                spelled,
            },
            found: self.found,
            gone: self.gone,
            came: self.came,
            repeated,
            line,
        })
    }
}

// The names that a record has after the cells that stand before them, as it has them.
fn spelled_names(alloc: Global, record: &ByteRecord, before: usize) -> Result<Cells, AllocError>
    ensures { IfOk result (λ names. names ≡ names_behind before (fields_of record.now)) }
{
    let mut names = Cells::new(alloc);
    for place in before..record.len() {
        names.push(fate_of(before, cell_of(record, place)).1)?;
    }
    Ok(names)
}

// The cell of a row at a place, or an empty one after the last.
pub(crate) fn cell_of(row: &ByteRecord, place: usize) -> &[u8]
    ensures { result.now ≡ unwrap_or (field_at (fields_of row.now) place) [] }
{
    row.get(place).unwrap_or(b"")
}

// The number at a place, or 0 where there is none.
fn last_number(numbers: &[usize], place: Option<usize>) -> usize {
    match place {
        Some(place) => numbers.get(place).copied().unwrap_or(0),
        None => 0,
    }
}

// Puts a number at a place, if there is one.
fn note_number(numbers: &mut [usize], place: Option<usize>, number: usize) {
    if let Some(place) = place {
        if let Some(last) = numbers.get_mut(place) {
            *last = number;
        }
    }
}

// The first of the names of those columns of a key that have two.
fn renamed_of(alloc: Global, key: &KeyNames) -> Result<Cells, AllocError>
    ensures { IfOk result (λ names. names ≡ with_two_names key.now.first key.now.others) }
{
    let mut names = Cells::new(alloc);
    for (first, other) in key.first.iter().zip(key.others.iter()) {
        if first != other {
            names.push(first)?;
        }
    }
    Ok(names)
}

// The fate of a column and its name, after as many cells: after none, as in a table of rows, a name has no mark.
fn fate_of(before: usize, cell: &[u8]) -> (Fate, &[u8])
    ensures name { result.1.now ≡ name_in before cell.now }
    ensures goes { name_if_goes result.0 result.1.now ≡ going_behind before cell.now }
    ensures comes { name_if_comes result.0 result.1.now ≡ coming_behind before cell.now }
{
    if before == 0 {
        (Fate::Stays, cell)
    } else {
        Fate::of_cell(cell)
    }
}

// A name with a number after it.
fn numbered(alloc: Global, name: &[u8], number: usize) -> Result<Vec<u8>, AllocError> {
    let mut told = Vec::from_slice(alloc, name)?;
    let number = format!(in alloc; ".{number}")?;
    told.extend_from_slice(number.as_bytes())?;
    Ok(told)
}

//! A table whose keys are strictly increasing, read part by part.
ghost use Rattle.std.specs.Prelude.{◌≡◌, ◌++◌, ◌∷◌, ◌⊎◌, [], ℕ, IfErr, IfOk, List, MatchOption};
ghost use Rattle.std.specs.Prelude.{None, OnOk, Option, Some, cond, false, is_some, option_map, true};
ghost use Rattle.keyed_faults.specs.Outside.{IsApart};
ghost use Rattle.keyed_faults.specs.declared.fault.Reason.TheVariants.{NoMemory};
ghost use Rattle.keyed_files.specs.Explained.{ExplainsPlaces};
ghost use Rattle.keyed_files.specs.Parts.{ExplainsNext, ExplainsPart, Fills, HasParts, IsFull, IsNotRising};
ghost use Rattle.keyed_files.specs.Parts.{IsStep, RisesTo, TakesUpTo};
ghost use Rattle.keyed_files.specs.Parts.{first_within, keys_in, rises_behind};
ghost use Rattle.keyed_files.specs.Reading.{HasGiven, PlacesOf};

use crate::opened::Opened;
use crate::source::{Places, Source};
use keyed_columns::Columns;
use keyed_faults::{Fault, Reason, at};
use keyed_rows::{Key, ReadRow};
use std::alloc::Global;
use std::collections::VecDeque;
use std::io::Read;

// How many rows of a table are held at most.
const PART: usize = 512;

/// A table whose rows are read part by part, with the rows that wait.
#[derive(Drop)]
pub struct Parts<'a, R> {
    pub file: &'a str,
    source: Box<Source<R>>,
    places: Places,
    waiting: VecDeque<ReadRow>,
    last: Option<Key>,
    is_ended: bool,
}

impl<'a, R: Read + Drop> Parts<'a, R> {
    /// No row is read yet.
    ///
    /// # Errors
    ///
    /// Returns the fault of the file: `NoColumn` if its header lacks a column of the key, and `NoMemory` if a request for memory was
    /// refused.
    pub fn new(alloc: Global, table: Opened<'a, R>, columns: &Columns) -> Result<Self, Fault<'a>>
        ensures named { IfOk result (λ parts. parts.file ≡ table.entry.file) }
        ensures source { IfOk result (λ parts. parts.source ≡ table.entry.source) }
        ensures places { IfOk result (λ parts. PlacesOf table.entry.source.value columns.now parts.places) }
        ensures rises { IfOk result (λ parts. RisesTo (keys_in parts.waiting.items) parts.last) }
        ensures begins { IfOk result (λ parts. (d : ℕ) (c : Option ℕ) (text : List ℕ)
            (given : List (List (List ℕ)))
            → HasGiven d c R.remaining text given table.entry.source.value
            → HasParts R.remaining d c text given [] parts) }
        ensures file { IfErr result (λ fault. fault.file ≡ table.entry.file) }
        ensures why { IfErr result
            (λ fault. ExplainsPlaces table.entry.source.value columns.now fault.reason) }
    {
        let places = at(table.file, table.source.places(columns))?;
        Ok(Parts {
            file: table.file,
            source: table.source,
            places,
            waiting: VecDeque::new(alloc),
            last: None,
            is_ended: false,
        })
    }

    /// Reads until as many rows wait as may. A key that is not greater than the one before it is a fault.
    ///
    /// # Errors
    ///
    /// Returns the fault of the file: `NotRising` if a key is not greater than the one before it, `CellCount` if a row has more or
    /// fewer cells than the first one, `Io` if the reader fails, and `NoMemory` if a request for memory was refused.
    pub fn fill(&mut self) -> Result<(), Fault<'a>>
        ensures fills { OnOk result (Fills R.remaining self.old self.new) }
        ensures full { OnOk result (IsFull self.new) }
        ensures file { IfErr result (λ fault. fault.file ≡ self.old.file) }
        ensures why { IfErr result (λ fault. ExplainsPart R.remaining self.old fault.reason) }
    {
        at(self.file, self.read_part())
    }

    // The same, with no file.
    fn read_part(&mut self) -> Result<(), Reason>
        ensures fills { OnOk result (Fills R.remaining self.old self.new) }
        ensures full { OnOk result (IsFull self.new) }
        ensures why { IfErr result (ExplainsPart R.remaining self.old) }
    {
        for _ in self.waiting.len()..PART {
            if self.is_ended {
                return Ok(());
            }
            self.read_next()?;
        }
        Ok(())
    }

    // Reads the next row of a table that is not ended, if there is one.
    fn read_next(&mut self) -> Result<(), Reason>
        requires { self.now.is_ended ≡ false }
        ensures fills { OnOk result (Fills R.remaining self.old self.new) }
        ensures step { OnOk result (IsStep self.old self.new) }
        ensures why { IfErr result (ExplainsNext R.remaining self.old) }
    {
        match self.source.read_row(&self.places)? {
            Some(row) => {
                self.put(row)?;
                Ok(())
            }
            None => {
                self.is_ended = true;
                Ok(())
            }
        }
    }

    // Puts a row after those that wait.
    fn put(&mut self, row: ReadRow) -> Result<(), Reason>
        ensures rises { OnOk result (rises_behind self.old.last row.key ≡ true) }
        ensures last { OnOk result (self.new.last ≡ Some row.key) }
        ensures puts { OnOk result (self.new.waiting.items ≡ self.old.waiting.items ++ row ∷ []) }
        ensures same { self.new ≡ record self.old { last = self.new.last; waiting = self.new.waiting } }
        ensures why { IfErr result (λ told. (told ≡ NoMemory) ⊎ IsNotRising self.old.last row told) }
    {
        if !self.rises(&row.key) {
            return Err(Reason::NotRising(row.line));
        }
        self.last = Some(row.key.clone()?);
        self.waiting.push_back(row)?;
        Ok(())
    }

    // Whether a key is greater than the last one.
    fn rises(&self, key: &Key) -> bool
        ensures { result ≡ rises_behind self.now.last key.now }
    {
        match &self.last {
            Some(last) => *last < *key,
            None => true,
        }
    }

    /// The key up to which all rows are read, or None where all are.
    pub fn bound(&self) -> Option<&Key>
        ensures { option_map (λ key. key.now) result ≡ cond self.now.is_ended None self.now.last }
    {
        if self.is_ended {
            None
        } else {
            self.last.as_ref()
        }
    }

    /// Takes the rows that wait, in their order, as far as they are not beyond a key.
    ///
    /// # Errors
    ///
    /// Returns the fault of the file: `NoMemory` if a request for memory was refused.
    pub fn take_up_to(
        &mut self,
        alloc: Global,
        bound: &Option<Key>,
    ) -> Result<Vec<ReadRow>, Fault<'a>>
        ensures rows { IfOk result (λ rows. TakesUpTo bound.now self.old self.new rows.items) }
        ensures file { IfErr result (λ fault. fault.file ≡ self.old.file) }
        ensures why { IfErr result (λ fault. IsApart fault.reason) }
    {
        at(self.file, self.take_rows(alloc, bound))
    }

    // The same, with no file.
    fn take_rows(&mut self, alloc: Global, bound: &Option<Key>) -> Result<Vec<ReadRow>, Reason>
        ensures rows { IfOk result (λ rows. TakesUpTo bound.now self.old self.new rows.items) }
        ensures why { IfErr result IsApart }
    {
        let mut rows = Vec::new(alloc);
        for _ in 0..u64::MAX {
            match self.pop(bound) {
                Some(row) => rows.push(row)?,
                None => return Ok(rows),
            }
        }
        Err(Reason::NoMemory)
    }

    /// Takes the next row that waits, unless it is beyond a key.
    pub fn pop(&mut self, bound: &Option<Key>) -> Option<ReadRow>
        ensures first { result ≡ first_within bound.now self.old.waiting.items }
        ensures rest { MatchOption result (self.new.waiting.items ≡ self.old.waiting.items)
            (λ row. self.old.waiting.items ≡ row ∷ self.new.waiting.items) }
        ensures same { self.new ≡ record self.old { waiting = self.new.waiting } }
    {
        if self.is_within(bound) {
            self.waiting.pop_front()
        } else {
            None
        }
    }

    // Whether a row waits that is not beyond a key.
    fn is_within(&self, bound: &Option<Key>) -> bool
        ensures { result ≡ is_some (first_within bound.now self.now.waiting.items) }
    {
        match self.waiting.front() {
            Some(row) => match bound {
                Some(key) => row.key <= *key,
                None => true,
            },
            None => false,
        }
    }
}

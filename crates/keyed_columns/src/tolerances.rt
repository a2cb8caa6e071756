//! How far apart numbers may be that count as the same, as it is given: for all columns, and for some by their names.
ghost use Rattle.std.specs.Prelude.{◌≡◌, IfErr, IfOk, None, length, replicate};
ghost use Rattle.keyed_faults.specs.Outside.{IsApart};
ghost use Rattle.keyed_columns.specs.Alikes.{ComparesAsTheyStand, alike_with, as_they_stand};

use crate::columns::{Columns, has_name, place_of};
use crate::header::cell_of;
use crate::key_record::{COMMAS, TwoNames, names_of_cell, read_key};
use csv::ByteRecord;
use keyed_faults::Reason;
use keyed_numbers::{Alike, Decimal};
use keyed_requests::Sameness;
use keyed_rows::Cells;
use keyed_text::{RowReader, Strict};
use std::alloc::{AllocError, Global};

/// How cells are compared, with how far apart numbers may be that count as the same: in columns that are named, and in all others.
///
/// A text gives tolerances as one record of CSV with commas between its cells, such as `0.01,price=0.5`: a number of 0 or more for all
/// columns that are not named, which is 0 where none is given, and names of columns, each with an `=` and a number after it. Two `=` side
/// by side are one of a name.
#[derive(Drop)]
pub struct Tolerances<'a> {
    // How cells are compared, of which the text is read.
    sameness: Sameness<'a>,
    all: Option<Vec<u8>>,
    names: Cells,
    // The numbers of the names, in the same order.
    numbers: Cells,
}

impl<'a> Tolerances<'a> {
    /// Those of cells that are compared so, or as they stand.
    ///
    /// # Errors
    ///
    /// Returns `KeyNoRecord` if the text is another number of records or its quotes are not in order, `RepeatedName` if a column is named
    /// twice, `NoTolerance` if what is given is no number of 0 or more, a second one for all columns, or has more than one `=`, and
    /// `NoMemory` if a request for memory was refused.
    pub fn new(alloc: Global, sameness: Option<Sameness<'a>>) -> Result<Self, Reason>
        ensures plain { IfOk result (λ tolerances. sameness.entry ≡ None → ComparesAsTheyStand tolerances) }
        ensures why { IfErr result IsApart }
    {
        match sameness {
            Some(sameness) => Tolerances::given(alloc, sameness),
            None => Ok(Tolerances::unread(alloc, Sameness::AS_THEY_STAND)),
        }
    }

    // Those of cells that are compared so.
    fn given(alloc: Global, sameness: Sameness<'a>) -> Result<Self, Reason>
        ensures why { IfErr result IsApart }
    {
        let mut tolerances = Tolerances::unread(alloc, sameness);
        if let Some(text) = sameness.tolerance {
            tolerances.read(alloc, text)?;
        }
        Ok(tolerances)
    }

    // The same with a text that is not read yet.
    fn unread(alloc: Global, sameness: Sameness<'a>) -> Self
        ensures { result.sameness ≡ sameness.entry }
    {
        Tolerances {
            sameness,
            all: None,
            names: Cells::new(alloc),
            numbers: Cells::new(alloc),
        }
    }

    // Reads them from a text.
    fn read(&mut self, alloc: Global, text: &str) -> Result<(), Reason>
        ensures why { IfErr result IsApart }
    {
        if text.is_empty() {
            return Err(wrong(alloc, b"", NO_NUMBER)?);
        }
        let strict = Strict::new(text.as_bytes(), COMMAS);
        let mut rows = RowReader::new(alloc, strict, COMMAS);
        let mut row = ByteRecord::new(alloc);
        if !read_key(&mut rows, &mut row)? {
            return Err(Reason::KeyNoRecord);
        }
        for place in 0..row.len() {
            self.put(alloc, cell_of(&row, place))?;
        }
        if read_key(&mut rows, &mut row)? {
            return Err(Reason::KeyNoRecord);
        }
        Ok(())
    }

    // Puts what a cell gives after the others.
    fn put(&mut self, alloc: Global, cell: &[u8]) -> Result<(), Reason>
        ensures why { IfErr result IsApart }
    {
        let given = match names_of_cell(alloc, cell) {
            Ok(given) => given,
            Err(reason) => return Err(told(alloc, cell, reason)?),
        };
        let TwoNames { first, other, .. } = given;
        match other {
            Some(number) => self.put_named(alloc, cell, &first, &number),
            None => self.put_all(alloc, &first),
        }
    }

    // Puts the number that a cell gives a column of this name.
    fn put_named(
        &mut self,
        alloc: Global,
        cell: &[u8],
        name: &[u8],
        number: &[u8],
    ) -> Result<(), Reason>
        ensures why { IfErr result IsApart }
    {
        if let Some(why) = wrong_with(number) {
            return Err(wrong(alloc, cell, why)?);
        }
        if has_name(&self.names, name) {
            return Err(Reason::RepeatedName(Vec::from_slice(alloc, name)?));
        }
        self.names.push(name)?;
        self.numbers.push(number)?;
        Ok(())
    }

    // Puts the number of all columns that are not named.
    fn put_all(&mut self, alloc: Global, number: &[u8]) -> Result<(), Reason>
        ensures why { IfErr result IsApart }
    {
        if let Some(why) = wrong_with(number) {
            return Err(wrong(alloc, number, why)?);
        }
        if self.all.is_some() {
            return Err(wrong(alloc, number, SECOND)?);
        }
        self.all = Some(Vec::from_slice(alloc, number)?);
        Ok(())
    }

    /// Tells of the first column that is named and is not beside the key of these columns.
    ///
    /// # Errors
    ///
    /// Returns `NeitherHas` if it is none of the columns, `ToleranceOfKey` if it is one of the key, and `NoMemory` if a request for memory
    /// was refused.
    pub fn check_known(&self, alloc: Global, columns: &Columns) -> Result<(), Reason>
        ensures why { IfErr result IsApart }
    {
        for name in &self.names {
            if has_name(&columns.key, name) {
                return Err(Reason::ToleranceOfKey(Vec::from_slice(alloc, name)?));
            }
            if !has_name(&columns.rest, name) {
                return Err(Reason::NeitherHas(Vec::from_slice(alloc, name)?));
            }
        }
        Ok(())
    }

    /// How the cells of each column beside the key are compared.
    ///
    /// # Errors
    ///
    /// Returns `AllocError` if a request for memory was refused.
    pub fn alikes(&self, alloc: Global, columns: &Columns) -> Result<Vec<Alike<'_>>, AllocError>
        ensures each { IfOk result (λ alikes. length alikes.items ≡ length columns.now.rest) }
        ensures plain { ComparesAsTheyStand self.now → IfOk result (λ alikes. alikes.items
            ≡ replicate (length columns.now.rest) as_they_stand) }
    {
        match self.sameness.tolerance {
            Some(_) => columns
                .rest
                .iter()
                .map(|name| self.alike_with(self.tolerance_of(name)))
                .collect(alloc),
            None => {
                let mut alikes = Vec::new(alloc);
                alikes.resize(columns.rest.len(), self.alike_with(None))?;
                Ok(alikes)
            }
        }
    }

    // How the cells of a column are compared that has this tolerance.
    fn alike_with<'t>(&self, tolerance: Option<Decimal<'t>>) -> Alike<'t>
        ensures { result ≡ alike_with self.now.sameness tolerance.entry }
    {
        Alike {
            tolerance,
            mark: self.sameness.mark,
            trims: self.sameness.trims,
            folds_case: self.sameness.folds_case,
        }
    }

    // The tolerance of a column of this name.
    fn tolerance_of(&self, name: &[u8]) -> Option<Decimal<'_>> {
        match place_of(&self.names, name) {
            Some(place) => Decimal::parse(self.numbers.get(place)?),
            None => match &self.all {
                Some(number) => Decimal::parse(number),
                None => Some(Decimal::ZERO),
            },
        }
    }
}

const NO_NUMBER: &str = "not a number of 0 or more";

const MORE: &str = "more than one =: an = of a name is ==";

const SECOND: &str = "a second number for all columns: give a column its own as in price=0.01";

// What is wrong with a number that is given, if anything is.
fn wrong_with(number: &[u8]) -> Option<&'static str> {
    match Decimal::parse(number) {
        Some(tolerance) if !tolerance.is_negative() => None,
        Some(_) => Some(NO_NUMBER),
        None if has_long_power(number) => Some("a power of ten of more than four digits"),
        None => Some(NO_NUMBER),
    }
}

// Whether bytes would be a number if its power of ten had no more than four digits.
fn has_long_power(number: &[u8]) -> bool {
    let Some(place) = number
        .iter()
        .position(|byte| *byte == b'e' || *byte == b'E')
    else {
        return false;
    };
    let (digits, power) = number.split_at(place);
    let power = match power {
        [_, b'+' | b'-', rest @ ..] => rest,
        [_, rest @ ..] => rest,
        [] => power,
    };
    Decimal::parse(digits).is_some()
        && power.len() > 4
        && power.iter().all(|byte| byte.is_ascii_digit())
}

// What is told where a cell is no name with a number: more than one `=` is told with the remedy.
fn told(alloc: Global, cell: &[u8], reason: Reason) -> Result<Reason, AllocError>
    requires { IsApart reason }
    ensures { IfOk result IsApart }
{
    if is_of_names(&reason) {
        wrong(alloc, cell, MORE)
    } else {
        Ok(reason)
    }
}

fn is_of_names(reason: &Reason) -> bool {
    match reason {
        Reason::ManyNames(_) => true,
        _ => false,
    }
}

fn wrong(alloc: Global, given: &[u8], why: &'static str) -> Result<Reason, AllocError>
    ensures { IfOk result IsApart }
{
    Ok(Reason::NoTolerance {
        given: Vec::from_slice(alloc, given)?,
        wrong: why,
    })
}

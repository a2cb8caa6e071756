//! The columns of tables: from headers to the columns of what is written.
ghost use Rattle.std.specs.Prelude.{◌≡◌, ◌++◌, ◌∷◌, ◌||◌, [], IfErr, IfOk, None, OnOk, filter, length, map, true};
ghost use Rattle.std.specs.List.{list_all};
ghost use Rattle.keyed_faults.specs.Outside.{IsApart};
ghost use Rattle.keyed_columns.specs.ColumnNames.{AreColumns, column_names, has_name, if_empty};
ghost use Rattle.keyed_columns.specs.ColumnNames.{is_beside, key_first};
ghost use Rattle.keyed_columns.specs.ColumnNames.{or_header, place_under_key};
ghost use Rattle.keyed_columns.specs.Headers.{numbered_names};
ghost use Rattle.keyed_columns.specs.Keys.{AreColumnsBy, AreJoinColumns, AreKeyNames, ArePicked};
ghost use Rattle.keyed_columns.specs.Keys.{ArePickedColumns, NameColumns, by_place, first_name, name_by};
ghost use Rattle.keyed_columns.specs.Names.{is_kept, names_in, place_in};
ghost use Rattle.keyed_columns.specs.NewColumns.{HasSeen, PutsColumn, SeesNames};

use crate::header::Header;
use crate::key_record::{KeyNames, NewNames, key_names};
use crate::names::Names;
use keyed_faults::Reason;
use keyed_requests::Picked;
use keyed_rows::Cells;
use std::alloc::{AllocError, Global};

/// The names of a table's columns: those that are its key, the others, and in which order they are written.
#[derive(Drop)]
pub struct Columns {
    pub key: Cells,
    pub rest: Cells,
    pub order: Vec<Place>,
    /// The names of those that are written as their heading spells them, where it does so in another way.
    pub spelled: Option<Cells>,
}

/// Where the cell of a column stands in a row.
#[derive(Clone, Copy)]
pub enum Place {
    /// In the key, at this place.
    Key(usize),
    /// Among the other cells, after that of the last such column.
    Rest,
}

impl Columns {
    /// The columns of all headers under a key, in the order of the headers.
    ///
    /// # Errors
    ///
    /// Returns `AllocError` if a request for memory was refused.
    pub fn new(alloc: Global, key: Cells, headers: &[&Cells]) -> Result<Self, AllocError>
        ensures columns { IfOk result
            (λ columns. AreColumns key (map (λ header. header.now) headers.now) columns) }
        ensures plain { IfOk result (λ columns. columns.spelled ≡ None) }
    {
        let mut new = NewColumns::new(alloc, key);
        for header in headers {
            new.put_all(alloc, header)?;
        }
        Ok(Columns {
            key: new.columns.key,
            rest: new.columns.rest,
            order: new.columns.order,
            spelled: None,
        })
    }

    // Puts a column after the others: its name goes after the others too, unless it is one of the key.
    fn put(&mut self, name: &[u8]) -> Result<(), AllocError>
        ensures { OnOk result (PutsColumn self.old self.new name.now) }
    {
        let place = put_name(&self.key, &mut self.rest, name)?;
        self.order.push(place)?;
        Ok(())
    }
}

// Columns whose names are put one after the other, each once.
#[derive(Drop)]
struct NewColumns {
    columns: Columns,
    seen: Names,
}

impl NewColumns {
    // No column.
    fn new(alloc: Global, key: Cells) -> Self
        ensures { HasSeen key [] result }
    {
        NewColumns {
            columns: Columns {
                key,
                rest: Cells::new(alloc),
                order: Vec::new(alloc),
                spelled: None,
            },
            seen: Names::new(alloc),
        }
    }

    // Puts the columns of a header.
    fn put_all(&mut self, alloc: Global, header: &Cells) -> Result<(), AllocError>
        ensures { OnOk result (SeesNames self.old self.new header.now) }
    {
        for name in header {
            self.put(alloc, name)?;
        }
        Ok(())
    }

    // Puts a column, unless there is one of its name.
    fn put(&mut self, alloc: Global, name: &[u8]) -> Result<(), AllocError>
        ensures { OnOk result (SeesNames self.old self.new (name.now ∷ [])) }
    {
        if self.seen.add(alloc, name)? {
            self.columns.put(name)?;
        }
        Ok(())
    }
}

// Where a name stands among others first.
pub(crate) fn place_of(names: &Cells, name: &[u8]) -> Option<usize>
    ensures { result ≡ place_in names.now name.now }
{
    names.iter().position(|other| name == other)
}

// Whether a name is one of others.
pub(crate) fn has_name(names: &Cells, name: &[u8]) -> bool
    ensures { result ≡ has_name names.now name.now }
{
    place_of(names, name).is_some()
}

// A header, or another one where it is empty.
pub(crate) fn or_header<'a>(header: &'a Cells, other: &'a Cells) -> &'a Cells
    ensures { result.now ≡ or_header header.now other.now }
{
    if header.is_empty() { other } else { header }
}

// The place of the next column, whose name goes after the others unless it is one of the key.
fn put_name(key: &Cells, rest: &mut Cells, name: &[u8]) -> Result<Place, AllocError>
    ensures place { IfOk result (λ place. place ≡ place_under_key key.now name.now) }
    ensures rest { OnOk result (rest.new ≡ rest.old ++ filter (is_beside key.now) (name.now ∷ [])) }
{
    match place_of(key, name) {
        Some(place) => Ok(Place::Key(place)),
        None => {
            rest.push(name)?;
            Ok(Place::Rest)
        }
    }
}

/// The same columns with those alone, beside the key, that are picked: the key, and then the others in their order.
///
/// # Errors
///
/// Returns the errors of `key_names`, `NeitherHas` if a name that is given is that of no column, and `NoMemory` if a request for memory was
/// refused.
pub fn picked_columns(
    alloc: Global,
    picked: Picked<'_>,
    columns: Columns,
) -> Result<Columns, Reason>
    ensures kept { IfOk result (λ kept. ArePickedColumns picked.entry columns kept) }
    ensures why { IfErr result IsApart }
{
    match picked {
        Picked::All => Ok(columns),
        Picked::Only(record) => columns_picked(alloc, record, true, columns),
        Picked::AllBut(record) => columns_picked(alloc, record, false, columns),
    }
}

// The same columns with those alone, beside the key, that a text names, or does not name.
fn columns_picked(
    alloc: Global,
    text: &str,
    keeps: bool,
    columns: Columns,
) -> Result<Columns, Reason>
    ensures kept { IfOk result (λ kept. ArePicked text.now keeps columns kept) }
    ensures why { IfErr result IsApart }
{
    let given = key_names(alloc, text)?;
    check_known(alloc, &columns, &given.first)?;
    let names = Names::of_cells(alloc, &given.first)?;
    let kept = columns_among(alloc, &names, keeps, columns)?;
    Ok(kept)
}

// Tells of the first of these names that is that of no column.
fn check_known(alloc: Global, columns: &Columns, given: &Cells) -> Result<(), Reason>
    ensures known { OnOk result
        (list_all (λ name. has_name columns.now.key name || has_name columns.now.rest name) given.now
        ≡ true) }
    ensures why { IfErr result IsApart }
{
    for name in given {
        if !columns.has(name) {
            return Err(Reason::NeitherHas(Vec::from_slice(alloc, name)?));
        }
    }
    Ok(())
}

impl Columns {
    // Whether a name is that of a column.
    fn has(&self, name: &[u8]) -> bool
        ensures { result ≡ (has_name self.now.key name.now || has_name self.now.rest name.now) }
    {
        has_name(&self.key, name) || has_name(&self.rest, name)
    }
}

// The same columns with those alone, beside the key, whose names are among these, or are not.
fn columns_among(
    alloc: Global,
    names: &Names,
    keeps: bool,
    columns: Columns,
) -> Result<Columns, AllocError>
    ensures key { IfOk result (λ kept. kept.key ≡ columns.key) }
    ensures rest { IfOk result
        (λ kept. kept.rest ≡ filter (is_kept keeps (names_in names.now)) columns.rest) }
    ensures order { IfOk result
        (λ kept. kept.order.items ≡ key_first (length columns.key) (length kept.rest)) }
    ensures plain { IfOk result (λ kept. kept.spelled ≡ None) }
{
    let rest = kept_names(alloc, names, keeps, &columns.rest)?;
    let order = key_first(alloc, columns.key.len(), rest.len())?;
    Ok(Columns {
        key: columns.key,
        rest,
        order,
        spelled: None,
    })
}

// Those of a header that are among these names, or those that are not.
pub(crate) fn kept_names(
    alloc: Global,
    names: &Names,
    keeps: bool,
    header: &Cells,
) -> Result<Cells, AllocError>
    ensures { IfOk result (λ kept. kept ≡ filter (is_kept keeps (names_in names.now)) header.now) }
{
    let mut kept = Cells::new(alloc);
    put_kept_names(&mut kept, names, keeps, header)?;
    Ok(kept)
}

// Puts those of a header that are among these names, or those that are not, after others.
pub(crate) fn put_kept_names(
    kept: &mut Cells,
    names: &Names,
    keeps: bool,
    header: &Cells,
) -> Result<(), AllocError>
    ensures { OnOk result
        (kept.new ≡ kept.old ++ filter (is_kept keeps (names_in names.now)) header.now) }
{
    for name in header {
        if names.has(name) == keeps {
            kept.push(name)?;
        }
    }
    Ok(())
}

// The places of so many columns of a key, and of so many others after them.
fn key_first(alloc: Global, key: usize, rest: usize) -> Result<Vec<Place>, AllocError>
    ensures { IfOk result (λ order. order.items ≡ key_first key rest) }
{
    let mut order = Vec::new(alloc);
    for place in 0..key {
        order.push(Place::Key(place))?;
    }
    for beside in 0..rest {
        order.push(Place::Rest)?;
    }
    Ok(order)
}

/// The names of a header that are those of columns, in its order.
///
/// # Errors
///
/// Returns `AllocError` if a request for memory was refused.
pub fn names_among(alloc: Global, header: &Cells, columns: &Columns) -> Result<Cells, AllocError>
    ensures { IfOk result
        (λ names. names ≡ filter (has_name (columns.now.key ++ columns.now.rest)) header.now) }
{
    let mut there = Names::of_cells(alloc, &columns.key)?;
    there.add_all(alloc, &columns.rest)?;
    let names = kept_names(alloc, &there, true, header)?;
    Ok(names)
}

/// The names of the columns of both tables, whose keys have as many.
#[derive(Drop)]
pub struct JoinColumns {
    pub left: Columns,
    pub right: Columns,
}

/// The columns of all tables, with the key that is set, by the names that it has in all but the first, or else the first column.
///
/// # Errors
///
/// Returns the errors of `key_names`, and `NoMemory` if a request for memory was refused.
pub fn columns_of(alloc: Global, key: Option<&str>, headers: &[&Cells]) -> Result<Columns, Reason>
    ensures columns { IfOk result (λ columns. AreColumnsBy key.entry
        (map (λ header. header.now) headers.now) (map (λ header. header.now) headers.now) columns) }
    ensures why { IfErr result IsApart }
{
    let names = key_of(alloc, key, headers)?;
    let columns = Columns::new(alloc, names.others, headers)?;
    Ok(columns)
}

/// The columns of each of two tables, with the key that is set, by the names that it has in each, or else the first column of the left one.
/// A file with no row has no column of its own, and those of the other table.
///
/// # Errors
///
/// Returns the errors of `key_names`, and `NoMemory` if a request for memory was refused.
pub fn join_columns(
    alloc: Global,
    key: Option<&str>,
    left: &Cells,
    right: &Cells,
) -> Result<JoinColumns, Reason>
    ensures columns { IfOk result (AreJoinColumns key.entry left.now right.now) }
    ensures why { IfErr result IsApart }
{
    let names = key_of(alloc, key, &[left, right])?;
    let left_columns = columns_beside(alloc, &names.others, &names.first, left, right)?;
    let right_columns = columns_beside(alloc, &names.first, &names.others, right, left)?;
    Ok(JoinColumns {
        left: left_columns,
        right: right_columns,
    })
}

// The columns of one of two tables by a key of its own, or where it has none, those of the other one by the key of that.
fn columns_beside(
    alloc: Global,
    other_key: &Cells,
    key: &Cells,
    header: &Cells,
    other: &Cells,
) -> Result<Columns, AllocError>
    ensures columns { IfOk result
        (AreColumns (if_empty header.now other_key.now key.now) (or_header header.now other.now ∷ [])) }
    ensures plain { IfOk result (λ columns. columns.spelled ≡ None) }
{
    if header.is_empty() {
        let columns = Columns::new(alloc, other_key.clone()?, &[other])?;
        Ok(columns)
    } else {
        let columns = Columns::new(alloc, key.clone()?, &[header])?;
        Ok(columns)
    }
}

/// The names of the key: those that are set, or that of the first column. Where each column has one name, a number that no column has for
/// its name is the place of a column among those of all tables, counted from 1: those of the first header, and then those that the others
/// bring.
///
/// # Errors
///
/// Returns the errors of `key_names`, `RepeatedName` if a column is given by its name and by its place, and `NoMemory` if a request for
/// memory was refused.
pub fn key_of(alloc: Global, key: Option<&str>, headers: &[&Cells]) -> Result<KeyNames, Reason>
    ensures names { IfOk result
        (λ names. AreKeyNames key.entry (map (λ header. header.now) headers.now) names.first names.others) }
    ensures why { IfErr result IsApart }
{
    match key {
        Some(text) => {
            let names = named_columns(alloc, text, headers)?;
            Ok(names)
        }
        None => {
            let names = KeyNames::alike(first_name(alloc, headers)?)?;
            Ok(names)
        }
    }
}

// The names that a text gives, or the names of the columns at the places that it gives.
fn named_columns(alloc: Global, text: &str, headers: &[&Cells]) -> Result<KeyNames, Reason>
    ensures names { IfOk result (λ names. NameColumns text.now (map (λ header. header.now) headers.now)
        names.first names.others) }
    ensures why { IfErr result IsApart }
{
    let given = key_names(alloc, text)?;
    if given.first == given.others {
        let names = KeyNames::alike(columns_at(alloc, &given.first, headers)?)?;
        Ok(names)
    } else {
        Ok(given)
    }
}

// The names of columns of all tables that are given by name or by number.
fn columns_at(alloc: Global, given: &Cells, headers: &[&Cells]) -> Result<Cells, Reason>
    ensures names { IfOk result (λ names.
        names ≡ map (by_place (column_names (map (λ header. header.now) headers.now))) given.now) }
    ensures why { IfErr result IsApart }
{
    let columns = Columns::new(alloc, Cells::new(alloc), headers)?;
    let places = numbered(alloc, columns.rest)?;
    let names = names_at(alloc, &places, given)?;
    Ok(names)
}

// Columns by their numbers, counted from 1.
fn numbered(alloc: Global, columns: Cells) -> Result<KeyNames, AllocError>
    ensures first { IfOk result (λ places. places.first ≡ numbered_names (length columns)) }
    ensures others { IfOk result (λ places. places.others ≡ columns) }
{
    let numbers = Header::numbers(alloc, columns.len(), 0)?;
    Ok(KeyNames {
        first: numbers.names,
        others: columns,
    })
}

// The names of the columns that are given by name or by number.
fn names_at(alloc: Global, places: &KeyNames, given: &Cells) -> Result<Cells, Reason>
    ensures names { IfOk result
        (λ names. names ≡ map (name_by places.now.first places.now.others) given.now) }
    ensures why { IfErr result IsApart }
{
    let mut names = NewNames::new(alloc);
    for name in given {
        names.put(alloc, name_at(places, name))?;
    }
    Ok(names.names)
}

// The name of the column that is given by name or by number.
fn name_at<'a>(places: &'a KeyNames, name: &'a [u8]) -> &'a [u8]
    ensures { result.now ≡ name_by places.now.first places.now.others name.now }
{
    if has_name(&places.others, name) {
        name
    } else {
        places.renamed(name)
    }
}

// The first column, if there is one: an empty file with no header has none.
fn first_name(alloc: Global, headers: &[&Cells]) -> Result<Cells, AllocError>
    ensures { IfOk result (λ key. key ≡ first_name (map (λ header. header.now) headers.now)) }
{
    let mut key = Cells::new(alloc);
    for header in headers {
        match header.get(0) {
            Some(name) => {
                key.push(name)?;
                return Ok(key);
            }
            None => continue,
        }
    }
    Ok(key)
}

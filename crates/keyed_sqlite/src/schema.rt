//! What the schema of an SQLite file lists: its tables and views.

use crate::problem::Problem;
use crate::scan::Scan;
use sqlite_pages::Memory;
use sqlite_record::fields::Fields;
use sqlite_value::value::ValueRef;
use std::alloc::{AllocError, Global};

/// What can be asked for by name.
#[derive(Clone, Copy, Debug, PartialEq, Eq)]
pub enum Kind {
    Table,
    Virtual,
    View,
}

/// A table or a view.
#[derive(Drop)]
pub struct Object {
    pub kind: Kind,
    pub name: Vec<u8>,
    /// The page that its tree begins at, where it has one.
    pub root: u32,
    /// Its CREATE statement.
    pub sql: Vec<u8>,
}

/// The tables and views of a file, but those that SQLite keeps for itself, in the order in which they are listed.
///
/// # Errors
///
/// Returns `Damaged` if the schema can't be read, and `NoMemory` if a request for memory was refused.
pub fn objects_of(alloc: Global, pages: &mut Memory) -> Result<Vec<Object>, Problem> {
    let mut objects = Vec::new(alloc);
    let mut scan = Scan::new(alloc, 1);
    for _ in 0..u64::MAX {
        if !scan.advance(pages)? {
            break;
        }
        if let Some(object) = object_of(alloc, scan.record())? {
            objects.push(object)?;
        }
    }
    Ok(objects)
}

// The table or view that a row of the schema lists, if it lists one.
fn object_of(alloc: Global, record: &[u8]) -> Result<Option<Object>, AllocError> {
    let mut fields = Fields::new(record);
    let kind = fields.next();
    let name = text_of(fields.next());
    let _table = fields.next();
    let root = root_of(fields.next());
    let sql = text_of(fields.next());
    let kind = match text_of(kind) {
        b"table" if root == 0 => Kind::Virtual,
        b"table" => Kind::Table,
        b"view" => Kind::View,
        _ => return Ok(None),
    };
    if is_own_name(name) {
        return Ok(None);
    }
    Ok(Some(Object {
        kind,
        name: Vec::from_slice(alloc, name)?,
        root,
        sql: Vec::from_slice(alloc, sql)?,
    }))
}

fn text_of(value: Option<ValueRef<'_>>) -> &[u8] {
    match value {
        Some(ValueRef::Text(bytes)) => bytes,
        _ => b"",
    }
}

fn root_of(value: Option<ValueRef<'_>>) -> u32 {
    match value {
        Some(ValueRef::Int(root)) => u32::try_from(root).unwrap_or(0),
        _ => 0,
    }
}

// Whether a name is one that SQLite keeps for its own tables.
fn is_own_name(name: &[u8]) -> bool {
    match name.get(..7) {
        Some(start) => start.eq_ignore_ascii_case(b"sqlite_"),
        None => false,
    }
}

/// The table of this name, in whatever case, or the only one where none is named.
///
/// # Errors
///
/// Returns `NoTables`, `Unnamed` or `NoTable` where none is meant, `View` or `Virtual` where it is no table of rows, and `NoMemory` if a
/// request for memory was refused.
pub fn table_of<'o>(
    alloc: Global,
    objects: &'o [Object],
    name: Option<&[u8]>,
) -> Result<&'o Object, Problem> {
    let found = match name {
        Some(name) => objects
            .iter()
            .find(|object| object.name.as_slice().eq_ignore_ascii_case(name)),
        None => only_table(objects),
    };
    match (found, name) {
        (Some(object), _) => match object.kind {
            Kind::Table => Ok(object),
            Kind::Virtual => Err(Problem::Virtual),
            Kind::View => Err(Problem::View),
        },
        (None, Some(_)) => Err(Problem::NoTable(names_of(alloc, objects)?)),
        (None, None) => {
            let names = names_of(alloc, objects)?;
            if names.is_empty() {
                Err(Problem::NoTables)
            } else {
                Err(Problem::Unnamed(names))
            }
        }
    }
}

// The only table, if there is just one.
fn only_table(objects: &[Object]) -> Option<&Object> {
    let mut found = None;
    for object in objects {
        if object.kind != Kind::View {
            if found.is_some() {
                return None;
            }
            found = Some(object);
        }
    }
    found
}

// The names of the tables.
fn names_of(alloc: Global, objects: &[Object]) -> Result<Vec<Vec<u8>>, AllocError> {
    let mut names = Vec::new(alloc);
    for object in objects {
        if object.kind != Kind::View {
            names.push(Vec::from_slice(alloc, &object.name)?)?;
        }
    }
    Ok(names)
}

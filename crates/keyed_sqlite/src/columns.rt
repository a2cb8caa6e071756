//! The columns of a table, by its CREATE TABLE.

use crate::affinity::Affinity;
use crate::defaults::{Added, added_by};
use crate::problem::Problem;
use sqlite_ast::{CreateTable, Expr, Keyed, Rule, Statement};
use sqlite_syntax::error::ParseError;
use sqlite_syntax::parse;
use std::alloc::{AllocError, Global};

/// A column of a table.
#[derive(Drop)]
pub struct Column {
    pub name: Vec<u8>,
    pub affinity: Affinity,
    /// What a row has that is older than the column.
    pub added: Added,
}

/// The columns of a table, and the place of the one that is the rowid, if one is.
#[derive(Drop)]
pub struct Definition {
    pub columns: Vec<Column>,
    pub rowid: Option<usize>,
}

/// What a CREATE TABLE defines.
///
/// # Errors
///
/// Returns `Definition` if it is not one that the kit reads, as that of a table WITHOUT ROWID or with generated columns, and `NoMemory` if
/// a request for memory was refused.
pub fn definition_of(alloc: Global, sql: &[u8]) -> Result<Definition, Problem> {
    match parse(alloc, sql) {
        Ok(parsed) => match &parsed.statement {
            Statement::CreateTable(table) => Ok(define(alloc, table)?),
            _ => Err(Problem::Definition),
        },
        Err(ParseError::OutOfMemory) => Err(Problem::NoMemory),
        Err(_) => Err(Problem::Definition),
    }
}

fn define(alloc: Global, table: &CreateTable) -> Result<Definition, AllocError> {
    let rules = table.body.rules.as_slice();
    let mut columns = Vec::new(alloc);
    for column in table.body.columns.as_slice() {
        let affinity = Affinity::of(column.1.as_slice());
        columns.push(Column {
            name: Vec::from_slice(alloc, column.0.as_slice())?,
            affinity,
            added: match default_of(rules, column.0.as_slice()) {
                Some(default) => added_by(alloc, affinity, default)?,
                None => Added::Cell(Vec::new(alloc)),
            },
        })?;
    }
    let rowid = rowid_of(table, rules);
    Ok(Definition { columns, rowid })
}

// The default of a column, if it has one.
fn default_of<'t>(rules: &'t [Rule], name: &[u8]) -> Option<&'t Expr> {
    let mut found = None;
    for rule in rules {
        if let Rule::Default(column, default) = rule {
            if column.as_slice().eq_ignore_ascii_case(name) {
                found = Some(default);
            }
        }
    }
    found
}

// The place of the column that is the rowid: the one of the primary key, where that is one column whose type is INTEGER.
fn rowid_of(table: &CreateTable, rules: &[Rule]) -> Option<usize> {
    let key = key_of(rules)?;
    let (place, column) = table
        .body
        .columns
        .as_slice()
        .iter()
        .enumerate()
        .find(|column| column.1.0.as_slice().eq_ignore_ascii_case(key))?;
    if column.1.as_slice().eq_ignore_ascii_case(b"INTEGER") {
        Some(place)
    } else {
        None
    }
}

// The name of the column that is the primary key, where it is one that may be the rowid.
fn key_of(rules: &[Rule]) -> Option<&[u8]> {
    for rule in rules {
        match rule {
            Rule::PrimaryKey(keys) | Rule::CountedKey(keys) => return only_name(keys.as_slice()),
            _ => {}
        }
    }
    None
}

fn only_name(keys: &[Keyed]) -> Option<&[u8]> {
    match keys {
        [key] => Some(key.name.as_slice()),
        _ => None,
    }
}

//! How two tables are compared that have no key: by rows that are wholes.

use crate::terminal::{Terminal, width_of};
use crate::view::{check_counted, check_each_row, format_of, rows_of};
use crate::{ParseError, flag};
use clap::{Arg, ArgMatches};
use keyed_requests::{Picked, RowComparing, RowsShown};
use std::alloc::Global;

/// The name of the option.
pub const KEY_ROW: &str = "key-row";

// The options that say something of keys or of columns alone: those that take a text, and the others.
static TEXTS: [&str; 5] = ["key", "rename", "only", "ignore", "tolerance"];

static FLAGS: [&str; 8] = [
    "keep-order",
    "group",
    "sorted",
    "all-columns",
    "numbers",
    "decimal-comma",
    "ignore-case",
    "trim",
];

/// The option that says that tables have no key.
pub fn key_row<'a>(alloc: Global) -> Arg<'a> {
    let help = "Tables have no key: rows are compared as wholes, in the order of the files";
    flag(alloc, KEY_ROW, help)
}

/// How the rows of two tables are compared as wholes. Where the colours and the width are left open, they are those of the terminal.
///
/// # Errors
///
/// Returns a `ParseError::Value` if an option is given that says something of keys or of columns alone, if what is given for one is none of
/// its values, or if it leaves out a part of what is whole.
pub fn row_comparing_of(
    matches: &ArgMatches<'_>,
    terminal: Terminal,
) -> Result<RowComparing, ParseError> {
    check_given(matches)?;
    let rows = rows_of(matches)?;
    check_rows(matches, rows)?;
    Ok(RowComparing {
        format: format_of(matches, Picked::All, None, terminal),
        rows,
        width: width_of(matches, terminal)?,
    })
}

// Tells that no option is given that says something of keys or of columns alone.
fn check_given(matches: &ArgMatches<'_>) -> Result<(), ParseError> {
    let wrong = "not with --key-row, by which rows are compared as wholes, in their order";
    for option in TEXTS {
        if matches.get_str(option).is_some() {
            return Err(ParseError::Value { option, wrong });
        }
    }
    for option in FLAGS {
        if matches.get_flag(option) {
            return Err(ParseError::Value { option, wrong });
        }
    }
    Ok(())
}

// Tells that rows are left out of no form that has them all.
fn check_rows(matches: &ArgMatches<'_>, rows: RowsShown) -> Result<(), ParseError> {
    match matches.get_str("format") {
        Some("csv") => check_all(rows),
        Some("json") => check_each_row(rows),
        _ => check_counted(matches),
    }
}

// Tells that all rows are to come out.
fn check_all(rows: RowsShown) -> Result<(), ParseError> {
    let option = match rows {
        RowsShown::All => return Ok(()),
        RowsShown::First(_) => "limit",
        RowsShown::Nothing => "summary",
    };
    Err(ParseError::Value {
        option,
        wrong: "not with --format csv, which has all rows: give --format table",
    })
}

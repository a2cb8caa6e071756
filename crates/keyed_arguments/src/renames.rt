//! The option for columns of the old table that have other names in the new one.

use crate::{ParseError, put, text};
use clap::{Arg, ArgMatches};
use keyed_columns::key_names;
use std::alloc::{AllocError, Global};

// The name of the option.
const OPTION: &str = "rename";

/// Puts the option after others.
///
/// # Errors
///
/// Returns `AllocError` if a request for memory was refused.
pub fn put_renames(alloc: Global, args: &mut Vec<Arg<'_>>) -> Result<(), AllocError> {
    let rename = text(
        alloc,
        OPTION,
        "OLD=NEW",
        "The columns of the first file that have other names in the others; a list is a record of CSV",
    );
    put(args, rename)
}

/// The names that columns of the old table have in the new one, if there are such.
///
/// # Errors
///
/// Returns `ParseError::Names` if what is given is no names of columns, and `ParseError::Value` if a column has no other name, or tables are
/// read in the order of their keys.
pub fn renames_of<'a>(
    alloc: Global,
    matches: &ArgMatches<'a>,
) -> Result<Option<&'a str>, ParseError> {
    let Some(given) = matches.get_str(OPTION) else {
        return Ok(None);
    };
    if matches.get_flag("sorted") {
        return Err(wrong("not with --sorted: give tables the same names, or leave out --sorted"));
    }
    let names = match key_names(alloc, given) {
        Ok(names) => names,
        Err(reason) => {
            return Err(ParseError::Names {
                option: OPTION,
                reason,
            });
        }
    };
    for (old, new) in names.first.iter().zip(names.others.iter()) {
        if old == new {
            return Err(wrong("a column has one name: give OLD=NEW"));
        }
    }
    Ok(Some(given))
}

fn wrong(why: &'static str) -> ParseError {
    ParseError::Value {
        option: OPTION,
        wrong: why,
    }
}

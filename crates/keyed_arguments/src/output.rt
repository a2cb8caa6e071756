//! The options for the file that an answer goes into, and for an answer that stands after another.

use crate::{ParseError, flag, option, put};
use clap::{Arg, ArgMatches};
use keyed_requests::Heading;
use std::alloc::{AllocError, Global};

/// The file that the answer goes into, if that is not the standard output.
///
/// # Errors
///
/// Returns a `ParseError` if the name of the file is empty.
pub fn output_of<'a>(matches: &ArgMatches<'a>) -> Result<Option<&'a str>, ParseError> {
    match matches.get_str("output") {
        Some(file) => match file {
            "" => Err(ParseError::Value {
                option: "output",
                wrong: "an empty name: give a file, or - for the standard output",
            }),
            "-" => Ok(None),
            file => Ok(Some(file)),
        },
        None => Ok(None),
    }
}

/// Whether the names of the columns stand before the rows of the answer.
pub fn heading_of(matches: &ArgMatches<'_>) -> Heading {
    if matches.get_flag("no-heading") {
        Heading::Omitted
    } else {
        Heading::Written
    }
}

/// Puts the options after others.
///
/// # Errors
///
/// Returns `AllocError` if a request for memory was refused.
pub fn put_output(alloc: Global, args: &mut Vec<Arg<'_>>) -> Result<(), AllocError> {
    let output = option(alloc, "output").short('o').value_name("FILE").help(
        "The file that the answer goes into, once it is whole; it may be one of those that are read",
    );
    put(args, output)?;
    let no_heading = "CSV has no names of columns, so that it can stand after other CSV";
    put(args, flag(alloc, "no-heading", no_heading))
}

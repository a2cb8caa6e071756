//! The options for how changes are made to a table.

use crate::{ParseError, flag, put, text};
use clap::{Arg, ArgMatches};
use keyed_requests::{Applying, Direction, Misfits};
use std::alloc::{AllocError, Global};

/// How changes are made.
///
/// # Errors
///
/// Returns a `ParseError` if changes that do not fit are to go into what is no file of their own.
pub fn applying_of<'a>(matches: &ArgMatches<'a>) -> Result<Applying<'a>, ParseError> {
    Ok(Applying {
        direction: direction_of(matches),
        misfits: misfits_of(matches)?,
    })
}

// Which way changes are made.
fn direction_of(matches: &ArgMatches<'_>) -> Direction {
    if matches.get_flag("reverse") {
        Direction::Backward
    } else {
        Direction::Forward
    }
}

// What becomes of changes that do not fit.
fn misfits_of<'a>(matches: &ArgMatches<'a>) -> Result<Misfits<'a>, ParseError> {
    match matches.get_str("partial") {
        Some(file) => match why_not(matches, file) {
            Some(wrong) => Err(ParseError::Value {
                option: "partial",
                wrong,
            }),
            None => Ok(Misfits::Rejected(file)),
        },
        None => Ok(Misfits::Reported),
    }
}

// Why rejected changes can't go into a file, if they can't: the table goes there, or stands there.
fn why_not(matches: &ArgMatches<'_>, file: &str) -> Option<&'static str> {
    match file {
        "" => Some("an empty name: give a file"),
        "-" => Some("not the standard output, where the table goes: give a file"),
        file if matches.get_str("output") == Some(file) => {
            Some("the file that the table goes into: give another one")
        }
        file if matches.get_str("OLD") == Some(file) => {
            Some("the file of the table that is changed: give another one")
        }
        _ => None,
    }
}

/// Puts the options after others.
///
/// # Errors
///
/// Returns `AllocError` if a request for memory was refused.
pub fn put_applying(alloc: Global, args: &mut Vec<Arg<'_>>) -> Result<(), AllocError> {
    let taken_back = "The changes are taken back: OLD is the table that they made";
    put(args, flag(alloc, "reverse", taken_back))?;
    let rejected = "The changes that fit are made, and the others go into this file, as changes";
    put(args, text(alloc, "partial", "REJECTS", rejected))
}

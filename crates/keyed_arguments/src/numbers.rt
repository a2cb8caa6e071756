//! The options by which cells are not compared as they stand.

use crate::{ParseError, flag, put, text};
use clap::{Arg, ArgMatches};
use keyed_columns::Tolerances;
use keyed_numbers::DecimalMark;
use keyed_requests::Sameness;
use std::alloc::{AllocError, Global};

// The option by which numbers have a comma.
const COMMA: &str = "decimal-comma";

// The options that take no text, each with its help.
static FLAGS: [(&str, &str); 3] = [
    (
        "numbers",
        "Cells that are numbers, but not keys, are compared by value: 1.0 is 1",
    ),
    (
        "ignore-case",
        "Cells, but not keys, are compared with case folded, as Unicode has it",
    ),
    (
        "trim",
        "White space around cells, but not keys, is not compared",
    ),
];

/// Puts the options after others.
///
/// # Errors
///
/// Returns `AllocError` if a request for memory was refused.
pub fn put_numbers(alloc: Global, args: &mut Vec<Arg<'_>>) -> Result<(), AllocError> {
    for (name, help) in &FLAGS {
        put(args, flag(alloc, name, help).conflicts_with("group")?)?;
    }
    let tolerance = "With --numbers, two of no more than X between them are the same; 0 else";
    put(
        args,
        text(alloc, "tolerance", "X|COLUMN=X[,COLUMN=X..]", tolerance),
    )?;
    let comma = "With --numbers, a comma and no point stands in the numbers of cells: 1,50 is 1,5";
    put(args, flag(alloc, COMMA, comma))
}

/// The first of the options that take no text that is given.
pub fn first_given(matches: &ArgMatches<'_>) -> Option<&'static str> {
    for (name, _) in &FLAGS {
        if matches.get_flag(name) {
            return Some(name);
        }
    }
    None
}

/// How cells are compared, where it is not as they stand.
///
/// # Errors
///
/// Returns a `ParseError::Names` if what is given for a tolerance is none, and a `ParseError::Value` if numbers are not compared by value.
pub fn sameness_of<'a>(
    alloc: Global,
    matches: &ArgMatches<'a>,
) -> Result<Option<Sameness<'a>>, ParseError> {
    let tolerance = tolerance_of(matches)?;
    let mark = mark_of(matches)?;
    if first_given(matches).is_none() {
        return Ok(None);
    }
    let sameness = Some(Sameness {
        tolerance,
        mark,
        trims: matches.get_flag("trim"),
        folds_case: matches.get_flag("ignore-case"),
    });
    match Tolerances::new(alloc, sameness) {
        Ok(_) => Ok(sameness),
        Err(reason) => Err(ParseError::Names {
            option: "tolerance",
            reason,
        }),
    }
}

// What stands in numbers before their fractions, where these are compared by value.
fn mark_of(matches: &ArgMatches<'_>) -> Result<DecimalMark, ParseError> {
    match (matches.get_flag(COMMA), matches.get_flag("numbers")) {
        (false, _) => Ok(DecimalMark::Point),
        (true, true) => Ok(DecimalMark::Comma),
        (true, false) => Err(ParseError::Value {
            option: COMMA,
            wrong: "needs --numbers",
        }),
    }
}

// The text of tolerances, where numbers are compared by value.
fn tolerance_of<'a>(matches: &ArgMatches<'a>) -> Result<Option<&'a str>, ParseError> {
    let by_number = matches.get_flag("numbers");
    match matches.get_str("tolerance") {
        Some(tolerance) if by_number => Ok(Some(tolerance)),
        Some(_) => Err(ParseError::Value {
            option: "tolerance",
            wrong: "needs --numbers",
        }),
        None if by_number => Ok(Some("0")),
        None => Ok(None),
    }
}

//! What a report has from the terminal on which it is shown, and the option that says it in its place.

use crate::{ParseError, text};
use clap::{Arg, ArgMatches};
use keyed_requests::Colours;
use std::alloc::Global;

/// What is known of the standard output where it is a terminal.
#[derive(Clone, Copy, Debug)]
pub struct Terminal {
    /// Whether it has colours.
    pub colours: Colours,
    /// How many columns a line of it has, if that is known.
    pub width: Option<usize>,
}

impl Terminal {
    /// An output that is none.
    pub const NONE: Terminal = Terminal {
        colours: Colours::Off,
        width: None,
    };
}

/// The option that says how wide the lines of a table may be.
pub fn width_option<'a>(alloc: Global) -> Arg<'a> {
    let help =
        "A table in blocks of columns, each with the key, no wider than N; 0: in one. Else COLUMNS, on a terminal";
    text(alloc, "width", "N", help)
}

/// How many columns of a terminal the lines of a table may take, if that is bounded. Where the option is not given, it is the terminal that
/// bounds it.
///
/// # Errors
///
/// Returns a `ParseError::Value` if what is given is no number.
pub fn width_of(matches: &ArgMatches<'_>, terminal: Terminal) -> Result<Option<usize>, ParseError> {
    match matches.get_str("width") {
        Some(text) => match text.parse::<usize>() {
            Ok(0) => Ok(None),
            Ok(width) => Ok(Some(width)),
            Err(_) => Err(ParseError::Value {
                option: "width",
                wrong: "not a number of columns of a terminal",
            }),
        },
        None => Ok(terminal.width),
    }
}

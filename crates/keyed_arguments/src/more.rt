//! What the words of a command line ask for where it is no request of whole tables: rows looked up, and tables laid one over the other.

use crate::form::delimiter_for;
use crate::{ParseError, file_of, names_of, put, row_format_of, settings_of};
use clap::ArgMatches;
use keyed_requests::{Command, Finding, Layer, Lookup, LookupKind, NamedFile, Overlay};
use std::alloc::Global;

/// A look-up.
///
/// # Errors
///
/// Returns a `ParseError` if what is given for an option is none of its values, or a request for memory was refused.
pub fn lookup_of<'a>(alloc: Global, matches: &ArgMatches<'a>) -> Result<Command<'a>, ParseError> {
    let (left, right) = (file_of(matches, "LEFT"), file_of(matches, "RIGHT"));
    let names = names_of(matches)?;
    let settings = settings_of(alloc, matches, [left, right, right])?;
    Ok(Command::Lookup {
        layout: settings.layout(),
        request: Lookup {
            left,
            right,
            how: Finding {
                kind: kind_of(matches.get_str("kind").unwrap_or("left")),
                names,
                format: row_format_of(matches),
            },
        },
    })
}

fn kind_of(name: &str) -> LookupKind {
    match name {
        "inner" => LookupKind::Inner,
        "anti" => LookupKind::Anti,
        _ => LookupKind::Left,
    }
}

/// Tables laid one over the other.
///
/// # Errors
///
/// Returns a `ParseError` if what is given for an option is none of its values, or a request for memory was refused.
pub fn overlay_of<'a>(alloc: Global, matches: &ArgMatches<'a>) -> Result<Command<'a>, ParseError> {
    let base = file_of(matches, "BASE");
    let settings = settings_of(alloc, matches, [base; 3])?;
    let mut files = Vec::new(alloc);
    put(&mut files, named_file(matches, base)?)?;
    for file in matches.get_strs("OVER").unwrap_or(&[]) {
        put(&mut files, named_file(matches, file)?)?;
    }
    Ok(Command::Overlay {
        settings,
        request: Overlay {
            files,
            layer: if matches.get_flag("cells") {
                Layer::Cells
            } else {
                Layer::Rows
            },
        },
    })
}

fn named_file<'a>(matches: &ArgMatches<'_>, file: &'a str) -> Result<NamedFile<'a>, ParseError> {
    Ok(NamedFile {
        file,
        delimiter: delimiter_for(matches, file)?,
    })
}

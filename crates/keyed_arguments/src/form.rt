//! The form of tables that a command line asks for: the bytes between the cells of each file, and how files are read.

use crate::ParseError;
use crate::output::heading_of;
use clap::ArgMatches;
use keyed_requests::{Comment, Delimiter, Form, Lengths, Quotes, Reading, Request, Writing};

/// The form of the tables in these files.
///
/// # Errors
///
/// Returns a `ParseError::Value` if what is given for an option is none of its values.
pub fn form_of(matches: &ArgMatches<'_>, files: [&str; 3]) -> Result<Form, ParseError> {
    let all = delimiter_of(matches, "delimiter")?;
    let left = delimiter_of(matches, "left-delimiter")?.or(all);
    let right = delimiter_of(matches, "right-delimiter")?.or(all);
    let [first, next, last] = files;
    let delimiter = left.unwrap_or(delimiter_by_name(first));
    let next = right.unwrap_or(delimiter_by_name(next));
    let last = all.unwrap_or(delimiter_by_name(last));
    Ok(Form {
        delimiter,
        has_header: !matches.get_flag("no-header"),
        reading: Reading {
            next: Some(next),
            last: Some(last),
            quotes: if matches.get_flag("lenient") {
                Quotes::Lenient
            } else {
                Quotes::Strict
            },
            lengths: if matches.get_flag("ragged") {
                Lengths::Ragged
            } else {
                Lengths::Equal
            },
            comment: comment_of(matches, [delimiter, next, last])?,
            skipped: skipped_of(matches)?,
        },
        writing: Writing {
            heading: heading_of(matches),
            ..Writing::PLAIN
        },
    })
}

/// The byte between the cells of a file of as many as there may be.
///
/// # Errors
///
/// Returns a `ParseError::Value` if what is given is no such byte, or begins lines which are passed over.
pub fn delimiter_for(matches: &ArgMatches<'_>, file: &str) -> Result<Delimiter, ParseError> {
    let all = delimiter_of(matches, "delimiter")?;
    let delimiter = all.unwrap_or(delimiter_by_name(file));
    comment_of(matches, [delimiter; 3])?;
    Ok(delimiter)
}

/// The files of a request. Where there are two the second stands for the third.
pub fn files_of(request: Request<'_>) -> [&str; 3] {
    match request {
        Request::Diff { old, new, .. } => [old, new, new],
        Request::DiffRows { old, new, .. } => [old, new, new],
        Request::Apply { old, changes, .. } => [old, changes, changes],
        Request::Merge {
            base,
            ours,
            theirs,
            ..
        } => [base, ours, theirs],
        Request::Join { left, right, .. } => [left, right, right],
    }
}

// The byte between the cells of a file for which none is given.
fn delimiter_by_name(file: &str) -> Delimiter {
    if file.ends_with(".tsv") || file.ends_with(".tab") {
        Delimiter::TAB
    } else {
        Delimiter::COMMA
    }
}

// The byte that an option gives, if it is given.
fn delimiter_of(
    matches: &ArgMatches<'_>,
    option: &'static str,
) -> Result<Option<Delimiter>, ParseError> {
    let Some(text) = matches.get_str(option) else {
        return Ok(None);
    };
    let delimiter = match text.as_bytes() {
        b"tab" | b"\\t" => Some(Delimiter::TAB),
        [byte] => Delimiter::new(*byte),
        _ => None,
    };
    match delimiter {
        Some(delimiter) => Ok(Some(delimiter)),
        None => Err(ParseError::Value {
            option,
            wrong: "not one byte that may stand between cells",
        }),
    }
}

// The byte that begins lines which are passed over, if one is given. It is none that stands between cells.
fn comment_of(
    matches: &ArgMatches<'_>,
    delimiters: [Delimiter; 3],
) -> Result<Option<Comment>, ParseError> {
    let Some(text) = matches.get_str("comment") else {
        return Ok(None);
    };
    let comment = match text.as_bytes() {
        [byte] => comment_beside(*byte, delimiters),
        _ => None,
    };
    match comment {
        Some(comment) => Ok(Some(comment)),
        None => Err(ParseError::Value {
            option: "comment",
            wrong: "not one byte that may begin a line and stands between no cells",
        }),
    }
}

// The byte as one that begins lines which are passed over, if it may, beside these delimiters.
fn comment_beside(byte: u8, delimiters: [Delimiter; 3]) -> Option<Comment> {
    for delimiter in delimiters {
        if delimiter.byte() == byte {
            return None;
        }
    }
    Comment::new(byte)
}

// How many lines at the top of each file are passed over.
fn skipped_of(matches: &ArgMatches<'_>) -> Result<u64, ParseError> {
    match matches.get_str("skip").unwrap_or("0").parse::<u64>() {
        Ok(count) => Ok(count),
        Err(_) => Err(ParseError::Value {
            option: "skip",
            wrong: "not a number of lines",
        }),
    }
}

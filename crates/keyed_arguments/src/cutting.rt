//! What the words of a command line ask for where tables are cut.

use crate::form::form_of;
use crate::help::example_of;
use crate::progress::put_progress;
use crate::{FLAGS, KEY, ParseError, TEXTS, TEXTS_OF_TWO, file_of, flag, put, put_texts, text};
use clap::{Arg, ArgMatches, Command};
use keyed_columns::key_names;
use keyed_cut::{Cut, CutTables, Divided, LEAST_PARTS, MOST_PARTS, Second};
use keyed_requests::Layout;
use std::alloc::{AllocError, Global};

/// Puts the command after others.
///
/// # Errors
///
/// Returns `AllocError` if a request for memory was refused.
pub fn put_cut<'a>(alloc: Global, commands: &mut Vec<Command<'a>>) -> Result<(), AllocError> {
    put(commands, cut_command(alloc)?)
}

fn cut_command<'a>(alloc: Global) -> Result<Command<'a>, AllocError> {
    let mut args = Vec::new(alloc);
    put_files(alloc, &mut args)?;
    put_texts(alloc, &mut args, &KEY)?;
    put_parts(alloc, &mut args)?;
    let changes = "The second table has changes, as diff --format csv prints them";
    put(&mut args, flag(alloc, "changes", changes))?;
    put_texts(alloc, &mut args, &TEXTS)?;
    put_texts(alloc, &mut args, &TEXTS_OF_TWO)?;
    for (name, help) in &FLAGS {
        if has_flag(name) {
            put(&mut args, flag(alloc, name, help))?;
        }
    }
    put_progress(alloc, &mut args)?;
    let about = "Cuts tables into parts by ranges of their keys. \
         Status 0: cut, 1: a part takes more memory than asked for, 2: trouble.";
    Command::new(alloc, "cut")
        .about(about)
        .after_help(example_of("cut"))
        .args(args)
}

// Whether a cut has a flag of the other commands: rows of parts stand as in their file, and keys may repeat in any case.
fn has_flag(name: &str) -> bool {
    match name {
        "keep-order" => false,
        "group" => false,
        _ => true,
    }
}

fn put_files<'a>(alloc: Global, args: &mut Vec<Arg<'a>>) -> Result<(), AllocError> {
    let left = "The left table, or the base of three, or the old table";
    let right = "The right table, or ours of three, or the new table, or changes";
    put(args, Arg::new(alloc, "LEFT").required(true).help(left))?;
    put(args, Arg::new(alloc, "RIGHT").required(true).help(right))?;
    put(args, Arg::new(alloc, "THEIRS").help("Theirs of three"))
}

// Puts the options that say where the parts go, and where tables are cut.
fn put_parts<'a>(alloc: Global, args: &mut Vec<Arg<'a>>) -> Result<(), AllocError> {
    let into = "The folder that the parts go into, which is made";
    let into = text(alloc, "into", "DIR", into).required(true);
    let parts = "How many parts there are, 1 to 999";
    let parts = text(alloc, "parts", "N", parts).conflicts_with("memory")?;
    let memory = "How much memory a command may take for a part, as 500M or 2G";
    let memory = text(alloc, "memory", "SIZE", memory).conflicts_with("at")?;
    let at = "The cut.csv of an earlier cut: tables are cut where that was";
    let at = text(alloc, "at", "CUT.csv", at).conflicts_with("parts")?;
    put(args, into)?;
    put(args, parts)?;
    put(args, memory)?;
    put(args, at)
}

/// A cut.
///
/// # Errors
///
/// Returns a `ParseError` if what is given for an option is none of its values, and where it is not said where tables are cut.
pub fn cut_of<'a>(alloc: Global, matches: &ArgMatches<'a>) -> Result<Cut<'a>, ParseError> {
    let (left, right) = (file_of(matches, "LEFT"), file_of(matches, "RIGHT"));
    let theirs = matches.get_str("THEIRS");
    let key = matches.get_str("key");
    if let Some(names) = key {
        if let Err(reason) = key_names(alloc, names) {
            return Err(ParseError::Names {
                option: "key",
                reason,
            });
        }
    }
    let form = form_of(matches, [left, right, theirs.unwrap_or(right)])?;
    Ok(Cut {
        layout: Layout { form, key },
        tables: tables_of(matches, left, right, theirs)?,
        divided: divided_of(matches)?,
        into: matches.get_str("into").unwrap_or("."),
    })
}

fn tables_of<'a>(
    matches: &ArgMatches<'a>,
    left: &'a str,
    right: &'a str,
    theirs: Option<&'a str>,
) -> Result<CutTables<'a>, ParseError> {
    let has_changes = matches.get_flag("changes");
    match theirs {
        Some(_) if has_changes => Err(ParseError::Value {
            option: "changes",
            wrong: "there are three tables, of which none has changes",
        }),
        Some(theirs) => Ok(CutTables::Three {
            base: left,
            ours: right,
            theirs,
        }),
        None => Ok(CutTables::Two {
            left,
            right,
            second: if has_changes {
                Second::Changes
            } else {
                Second::Rows
            },
        }),
    }
}

fn divided_of<'a>(matches: &ArgMatches<'a>) -> Result<Divided<'a>, ParseError> {
    if let Some(file) = matches.get_str("at") {
        return Ok(Divided::At(file));
    }
    if let Some(text) = matches.get_str("memory") {
        return match size_of(text) {
            Some(size) => Ok(Divided::Memory(size)),
            None => Err(ParseError::Value {
                option: "memory",
                wrong: "not a number of bytes, as 800000, 500M or 2G",
            }),
        };
    }
    match matches.get_str("parts") {
        Some(text) => parts_of(text),
        None => Err(ParseError::Value {
            option: "parts",
            wrong: "say how many there are, or give --memory or --at",
        }),
    }
}

fn parts_of<'a>(text: &str) -> Result<Divided<'a>, ParseError> {
    match text.parse::<u64>() {
        Ok(parts) => {
            if parts < (LEAST_PARTS as u64) || (MOST_PARTS as u64) < parts {
                Err(ParseError::PartCount(parts))
            } else {
                Ok(Divided::Parts(parts as usize))
            }
        }
        Err(_) => Err(ParseError::Value {
            option: "parts",
            wrong: "not a number of parts",
        }),
    }
}

// A number of bytes: digits, and after them K, M or G for a thousand, a million or a thousand millions.
fn size_of(text: &str) -> Option<u64> {
    let (digits, unit) = match text.as_bytes().last() {
        Some(b'K' | b'k') => (text.get(..text.len().saturating_sub(1))?, 1000),
        Some(b'M' | b'm') => (text.get(..text.len().saturating_sub(1))?, 1_000_000),
        Some(b'G' | b'g') => (text.get(..text.len().saturating_sub(1))?, 1_000_000_000),
        _ => (text, 1),
    };
    match digits.parse::<u64>() {
        Ok(0) | Err(_) => None,
        Ok(number) => number.checked_mul(unit),
    }
}

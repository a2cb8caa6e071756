//! The options that take a text, of all commands and of those that take two files.

use crate::{put, text};
use clap::Arg;
use std::alloc::{AllocError, Global};

/// An option that takes a text: its name, what stands for the text in the help, and its help.
pub type Text = (&'static str, &'static str, &'static str);

/// The option of all commands that comes first.
pub static KEY: [Text; 1] = [(
    "key",
    "COLUMN[,COLUMN..]",
    "The columns that say which row it is, by name or place, as id, or region,id, or 1,3 \
     [default: the first column]; LEFT=RIGHT where a column has two names",
)];

/// The other options of all commands that take a text.
pub static TEXTS: [Text; 3] = [
    (
        "delimiter",
        "BYTE",
        "The character between cells, as \";\", or tab [default: a tab in .tsv and .tab files, else a comma]",
    ),
    (
        "comment",
        "BYTE",
        "Lines that begin with this byte are passed over",
    ),
    (
        "skip",
        "N",
        "So many lines at the top of each file are passed over",
    ),
];

/// Those of commands that take two files.
pub static TEXTS_OF_TWO: [Text; 2] = [
    (
        "left-delimiter",
        "BYTE",
        "The character between the cells of the first file, and of what is written",
    ),
    (
        "right-delimiter",
        "BYTE",
        "The character between the cells of the second file",
    ),
];

/// Puts options that take a text after others.
///
/// # Errors
///
/// Returns `AllocError` if a request for memory was refused.
pub fn put_texts(
    alloc: Global,
    args: &mut Vec<Arg<'_>>,
    texts: &'static [Text],
) -> Result<(), AllocError> {
    for (name, value, help) in texts {
        put(args, text(alloc, name, value, help))?;
    }
    Ok(())
}

//! How two tables are compared, and what a report shows of the changes.

use crate::numbers::{first_given, sameness_of};
use crate::terminal::{Terminal, width_of, width_option};
use crate::{ParseError, flag, put, text};
use clap::{Arg, ArgMatches};
use keyed_columns::key_names;
use keyed_requests::{
    Colours, ColumnsShown, Comparing, Format, Look, Picked, RowsShown, Sameness, View,
};
use std::alloc::{AllocError, Global};

// The options that leave something out and take a text: the name of each, what stands for the text in the help, and its help.
static PARTS: [(&str, &str, &str); 3] = [
    (
        "only",
        "COLUMN[,COLUMN..]",
        "The columns that are compared and shown, beside those of the key; in CSV the others stay",
    ),
    (
        "ignore",
        "COLUMN[,COLUMN..]",
        "The columns that are not compared, nor shown but in CSV",
    ),
    (
        "limit",
        "N",
        "Print N rows at most, and how many more there are; counts are of all",
    ),
];

/// Puts the options that say what a report shows after others.
///
/// # Errors
///
/// Returns `AllocError` if a request for memory was refused.
pub fn put_view(alloc: Global, args: &mut Vec<Arg<'_>>) -> Result<(), AllocError> {
    for (name, value, help) in &PARTS {
        let part = text(alloc, name, value, help);
        match *name {
            "only" => put(args, part.conflicts_with("ignore")?)?,
            _ => put(args, part)?,
        }
    }
    let help =
        "No rows: how many changed in each column, its three commonest changes, and the counts";
    put(args, flag(alloc, "summary", help).conflicts_with("limit")?)?;
    put(args, all_columns(alloc).conflicts_with("summary")?)?;
    put(args, width_option(alloc))
}

/// The option that leaves no column out.
pub fn all_columns<'a>(alloc: Global) -> Arg<'a> {
    let help = "Also the columns that are the same in all rows shown, in a table or a page of HTML";
    flag(alloc, "all-columns", help)
}

/// Which of the columns that are compared are shown.
pub fn columns_shown(matches: &ArgMatches<'_>) -> ColumnsShown {
    if matches.get_flag("all-columns") {
        ColumnsShown::All
    } else {
        ColumnsShown::Changed
    }
}

/// Puts the option that says which columns are left out after others.
///
/// # Errors
///
/// Returns `AllocError` if a request for memory was refused.
pub fn put_ignore(alloc: Global, args: &mut Vec<Arg<'_>>) -> Result<(), AllocError> {
    for (name, value, help) in &PARTS {
        let part = text(alloc, name, value, help);
        match *name {
            "ignore" => put(args, part)?,
            _ => {}
        }
    }
    Ok(())
}

/// How two tables are compared. Where the colours and the width are left open, they are those of the terminal.
///
/// # Errors
///
/// Returns a `ParseError::Value` if what is given for an option is none of its values, or if it leaves out a part of changes that are
/// whole, and `ParseError::Names` if it is no names of columns.
pub fn comparing_of<'a>(
    alloc: Global,
    matches: &ArgMatches<'a>,
    terminal: Terminal,
) -> Result<Comparing<'a>, ParseError> {
    check_counted(matches)?;
    if matches.get_str("format") == Some("csv") {
        check_whole(matches)?;
    }
    let view = View {
        columns: picked_of(alloc, matches)?,
        shown: columns_shown(matches),
        rows: rows_of(matches)?,
        width: width_of(matches, terminal)?,
    };
    if matches.get_str("format") == Some("json") {
        check_each_row(view.rows)?;
    }
    let sameness = sameness_of(alloc, matches)?;
    Ok(Comparing {
        format: format_of(matches, view.columns, sameness, terminal),
        view,
        sameness,
    })
}

// Tells that no row is left out of changes as CSV, but one that differs in columns alone that are ignored or not compared.
fn check_whole(matches: &ArgMatches<'_>) -> Result<(), ParseError> {
    if let Some(option) = first_given(matches) {
        return Err(ParseError::Value {
            option,
            wrong: "not with --format csv: the changes that apply takes are of cells as they stand",
        });
    }
    for (option, _, _) in &PARTS {
        let wrong = match *option {
            "limit" => {
                Some("not with --format csv: a part of the changes is no patch that apply takes")
            }
            _ if matches.get_flag("group") => {
                Some("not with --format csv and --group: a group changes as a whole")
            }
            "only" if matches.get_flag("no-header") => Some(
                "not with --format csv and --no-header: the header says of which columns changes are",
            ),
            _ => None,
        };
        match wrong {
            Some(wrong) if matches.get_str(option).is_some() => {
                return Err(ParseError::Value { option, wrong });
            }
            _ => {}
        }
    }
    Ok(())
}

/// Tells that changes are counted in a form that has a place for their counts.
///
/// # Errors
///
/// Returns a `ParseError::Value` if they are to be in one that has none.
pub fn check_counted(matches: &ArgMatches<'_>) -> Result<(), ParseError> {
    if !matches.get_flag("summary") {
        return Ok(());
    }
    let wrong = match matches.get_str("format") {
        Some("csv") =>
            "not with --format csv, whose changes are a patch: give --format table or json",
        Some("markdown") | Some("html") => {
            "not with --format markdown or html, which show rows: give --format table or json"
        }
        _ => return Ok(()),
    };
    Err(ParseError::Value {
        option: "summary",
        wrong,
    })
}

/// Tells that all rows are to come out, or none.
///
/// # Errors
///
/// Returns a `ParseError::Value` if the first ones alone are to.
pub fn check_each_row(rows: RowsShown) -> Result<(), ParseError> {
    match rows {
        RowsShown::First(_) => Err(ParseError::Value {
            option: "limit",
            wrong: "not with --format json, of which each line is a row: head takes the first ones",
        }),
        RowsShown::All | RowsShown::Nothing => Ok(()),
    }
}

/// The form of what is printed. An answer of which the status alone is wanted, and of all columns as they stand, takes the one that is made
/// with the least.
pub fn format_of(
    matches: &ArgMatches<'_>,
    picked: Picked<'_>,
    sameness: Option<Sameness<'_>>,
    terminal: Terminal,
) -> Format {
    if matches.get_flag("quiet") && matches!(picked, Picked::All) && sameness.is_none() {
        return Format::Csv;
    }
    match matches.get_str("format") {
        Some("csv") => Format::Csv,
        _ => Format::Report(look_of(matches, colours_of(matches, terminal.colours))),
    }
}

/// The form of a report: a table with these colours, where no other is named.
pub fn look_of(matches: &ArgMatches<'_>, colours: Colours) -> Look {
    match matches.get_str("format") {
        Some("json") => Look::Json,
        Some("markdown") => Look::Markdown,
        Some("html") => Look::Html,
        _ => Look::Table { colours },
    }
}

/// The colours of a table on a terminal: those of the terminal, where that is left open.
pub fn colours_of(matches: &ArgMatches<'_>, terminal: Colours) -> Colours {
    match matches.get_str("color").unwrap_or("auto") {
        "always" => Colours::On,
        "never" => Colours::Off,
        _ => terminal,
    }
}

/// The columns that are compared.
///
/// # Errors
///
/// Returns `ParseError::Names` if what is given is no names of columns, and `ParseError::Value` if it gives two names to one.
pub fn picked_of<'a>(alloc: Global, matches: &ArgMatches<'a>) -> Result<Picked<'a>, ParseError> {
    if let Some(names) = matches.get_str("only") {
        check_names(alloc, "only", names)?;
        return Ok(Picked::Only(names));
    }
    match matches.get_str("ignore") {
        Some(names) => {
            check_names(alloc, "ignore", names)?;
            Ok(Picked::AllBut(names))
        }
        None => Ok(Picked::All),
    }
}

// Tells that a text gives names of columns, one of each.
fn check_names(alloc: Global, option: &'static str, text: &str) -> Result<(), ParseError> {
    let names = match key_names(alloc, text) {
        Ok(names) => names,
        Err(reason) => return Err(ParseError::Names { option, reason }),
    };
    if names.first == names.others {
        Ok(())
    } else {
        Err(ParseError::Value {
            option,
            wrong: "two names of a column: an = of a name is ==",
        })
    }
}

/// The rows that are shown.
///
/// # Errors
///
/// Returns a `ParseError::Value` if what is given is no number of rows.
pub fn rows_of(matches: &ArgMatches<'_>) -> Result<RowsShown, ParseError> {
    if matches.get_flag("summary") {
        return Ok(RowsShown::Nothing);
    }
    match matches.get_str("limit") {
        Some(text) => match text.parse::<usize>() {
            Ok(count) => Ok(RowsShown::First(count)),
            Err(_) => Err(ParseError::Value {
                option: "limit",
                wrong: "not a number of rows",
            }),
        },
        None => Ok(RowsShown::All),
    }
}

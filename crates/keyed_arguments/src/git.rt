//! The commands that git calls, and the one that prints how git is set up to call them.

use crate::form::files_of;
use crate::help::example_of;
use crate::numbers::{put_numbers, sameness_of};
use crate::terminal::{Terminal, width_of, width_option};
use crate::view::{all_columns, colours_of, columns_shown, picked_of, put_ignore};
use crate::{
    COLOR, FLAGS, KEY, ParseError, TEXTS, choice, file_of, flag, put, put_texts, settings_of,
};
use clap::{Arg, ArgMatches, Command};
use keyed_requests::{
    Asked, Comparing, Format, GitDiff, GitMerge, GitSetup, Look, Merging, Request, Settings, View,
};
use std::alloc::{AllocError, Global};

// A command that git calls: its name, what it does, and the words that git gives it, each with its help. So many of them are required.
type GitCommand = (
    &'static str,
    &'static str,
    usize,
    &'static [(&'static str, &'static str)],
);

static COMMANDS: [GitCommand; 3] = [
    (
        "git-diff",
        "Prints the rows that changed, for git diff. Status 0, or 2: trouble.",
        1,
        &[
            ("PATH", "The path of the table"),
            ("OLD", "The file of the old table"),
            ("OLD-HEX", "Its hash, which is not read"),
            ("OLD-MODE", "Its mode, which is not read"),
            ("NEW", "The file of the new table"),
            ("NEW-HEX", "Its hash, which is not read"),
            ("NEW-MODE", "Its mode, which is not read"),
            (
                "NEW-PATH",
                "The path that the table got, where it was renamed",
            ),
            ("CHANGE", "How it was renamed, which is not read"),
        ],
    ),
    (
        "git-merge",
        "Merges two versions into the file of ours, for git merge. Status 0: merged, 1: rows in conflict, 129: trouble.",
        3,
        &[
            ("BASE", "The file of the base, %O"),
            ("OURS", "The file of our version, %A"),
            ("THEIRS", "The file of their version, %B"),
            ("PATH", "The path of the table, %P"),
        ],
    ),
    (
        "git-setup",
        "Prints the commands that tell git of both, with these options, for all tables or some paths.",
        0,
        &[(
            PATTERN,
            "The paths that these options are for, as in .gitattributes [default: all .csv and .tsv files]",
        )],
    ),
];

// The patterns of paths, of which there may be several.
const PATTERN: &str = "PATTERN";

/// Puts the commands for git after others.
///
/// # Errors
///
/// Returns `AllocError` if a request for memory was refused.
pub fn put_git_commands<'a>(
    alloc: Global,
    commands: &mut Vec<Command<'a>>,
) -> Result<(), AllocError> {
    for command in &COMMANDS {
        put(commands, git_command(alloc, command)?)?;
    }
    Ok(())
}

fn git_command<'a>(alloc: Global, command: &GitCommand) -> Result<Command<'a>, AllocError> {
    let (name, about, required, words) = *command;
    let mut args = Vec::new(alloc);
    for (place, (word, help)) in words.iter().enumerate() {
        let arg = Arg::new(alloc, word).required(place < required).help(help);
        if *word == PATTERN {
            put(&mut args, arg.num_args(0..))?;
        } else {
            put(&mut args, arg)?;
        }
    }
    if name == "git-diff" {
        put(&mut args, choice(alloc, COLOR))?;
        put(&mut args, all_columns(alloc))?;
        put(&mut args, width_option(alloc))?;
    }
    put_texts(alloc, &mut args, &KEY)?;
    put_texts(alloc, &mut args, &TEXTS)?;
    for (name, help) in &FLAGS {
        if *name != "keep-order" {
            put(&mut args, flag(alloc, name, help))?;
        }
    }
    put_numbers(alloc, &mut args)?;
    if name != "git-merge" {
        put_ignore(alloc, &mut args)?;
    }
    Command::new(alloc, name)
        .about(about)
        .after_help(example_of(name))
        .args(args)
}

/// What a command for git asks for, if it is one.
///
/// # Errors
///
/// Returns a `ParseError` if what is given for an option is none of its values.
pub fn git_asked<'a>(
    alloc: Global,
    name: &str,
    matches: &ArgMatches<'a>,
    terminal: Terminal,
) -> Result<Option<Asked<'a>>, ParseError> {
    match name {
        "git-diff" => Ok(Some(diff_asked(alloc, matches, terminal)?)),
        "git-merge" => Ok(Some(merge_asked(alloc, matches)?)),
        "git-setup" => Ok(Some(Asked::GitSetup {
            setup: setup_asked(alloc, matches)?,
        })),
        _ => Ok(None),
    }
}

// How git is told of the other two, whose options are those that they take.
fn setup_asked<'a>(alloc: Global, matches: &ArgMatches<'a>) -> Result<GitSetup<'a>, ParseError> {
    let merging = merge_of_path("-", merging_by(alloc, matches)?);
    settings_in_order(alloc, matches, merging)?;
    comparing_by(alloc, matches, Format::Csv)?;
    let merge = options_of(alloc, matches)?;
    let mut diff = options_of(alloc, matches)?;
    put_text(alloc, &mut diff, matches, "ignore")?;
    let mut patterns = Vec::new(alloc);
    for pattern in matches.get_strs(PATTERN).unwrap_or(&[]) {
        put(&mut patterns, *pattern)?;
    }
    Ok(GitSetup {
        diff,
        merge,
        patterns,
    })
}

// The options that are given, as words of a command line, without that of comparing alone.
fn options_of(alloc: Global, matches: &ArgMatches<'_>) -> Result<Vec<String>, AllocError> {
    let mut words = Vec::new(alloc);
    for (name, _, _) in &KEY {
        put_text(alloc, &mut words, matches, name)?;
    }
    for (name, _, _) in &TEXTS {
        put_text(alloc, &mut words, matches, name)?;
    }
    for (name, _) in &FLAGS {
        put_flag(alloc, &mut words, matches, name)?;
    }
    for name in ["numbers", "decimal-comma", "ignore-case", "trim"] {
        put_flag(alloc, &mut words, matches, name)?;
    }
    put_text(alloc, &mut words, matches, "tolerance")?;
    Ok(words)
}

// Puts an option and its text after others, if it is given.
fn put_text(
    alloc: Global,
    words: &mut Vec<String>,
    matches: &ArgMatches<'_>,
    name: &str,
) -> Result<(), AllocError> {
    if let Some(text) = matches.get_str(name) {
        words.push(format!(in alloc; "--{name}")?)?;
        words.push(String::from_str(alloc, text)?)?;
    }
    Ok(())
}

// Puts an option that takes no text after others, if it is given.
fn put_flag(
    alloc: Global,
    words: &mut Vec<String>,
    matches: &ArgMatches<'_>,
    name: &str,
) -> Result<(), AllocError> {
    if matches.get_flag(name) {
        words.push(format!(in alloc; "--{name}")?)?;
    }
    Ok(())
}

fn diff_asked<'a>(
    alloc: Global,
    matches: &ArgMatches<'a>,
    terminal: Terminal,
) -> Result<Asked<'a>, ParseError> {
    let path = file_of(matches, "PATH");
    match (matches.get_str("OLD"), matches.get_str("NEW")) {
        (Some(old), Some(new)) => {
            let diff = GitDiff {
                path,
                renamed: matches.get_str("NEW-PATH"),
                old,
                new,
            };
            let how = shown_to_git(alloc, matches, terminal)?;
            versions_asked(alloc, matches, how, diff)
        }
        _ => Ok(Asked::GitUnmerged { path }),
    }
}

// How two versions are compared, of which git shows all rows that changed.
fn comparing_by<'a>(
    alloc: Global,
    matches: &ArgMatches<'a>,
    format: Format,
) -> Result<Comparing<'a>, ParseError> {
    Ok(Comparing {
        format,
        view: View {
            columns: picked_of(alloc, matches)?,
            ..View::WHOLE
        },
        sameness: sameness_of(alloc, matches)?,
    })
}

// The same, and how they are shown.
fn shown_to_git<'a>(
    alloc: Global,
    matches: &ArgMatches<'a>,
    terminal: Terminal,
) -> Result<Comparing<'a>, ParseError> {
    let look = Look::Table {
        colours: colours_of(matches, terminal.colours),
    };
    let how = comparing_by(alloc, matches, Format::Report(look))?;
    Ok(Comparing {
        view: View {
            shown: columns_shown(matches),
            width: width_of(matches, terminal)?,
            ..how.view
        },
        ..how
    })
}

fn versions_asked<'a>(
    alloc: Global,
    matches: &ArgMatches<'a>,
    how: Comparing<'a>,
    diff: GitDiff<'a>,
) -> Result<Asked<'a>, ParseError> {
    let named = Request::Diff {
        old: diff.path,
        new: diff.renamed.unwrap_or(diff.path),
        how,
    };
    Ok(Asked::GitDiff {
        settings: settings_in_order(alloc, matches, named)?,
        how,
        diff,
    })
}

fn merge_asked<'a>(alloc: Global, matches: &ArgMatches<'a>) -> Result<Asked<'a>, ParseError> {
    let ours = file_of(matches, "OURS");
    let path = matches.get_str("PATH");
    let how = merging_by(alloc, matches)?;
    let named = merge_of_path(path.unwrap_or(ours), how);
    Ok(Asked::GitMerge {
        settings: settings_in_order(alloc, matches, named)?,
        how,
        merge: GitMerge {
            base: file_of(matches, "BASE"),
            ours,
            theirs: file_of(matches, "THEIRS"),
            path,
        },
    })
}

// How versions are merged: as git merges texts, and perhaps with numbers by value.
fn merging_by<'a>(alloc: Global, matches: &ArgMatches<'a>) -> Result<Merging<'a>, ParseError> {
    Ok(Merging {
        sameness: sameness_of(alloc, matches)?,
        ..Merging::AS_GIT
    })
}

// A merge of three files of this name, which says what stands between their cells. Those that git hands over have names of their own.
fn merge_of_path<'a>(path: &'a str, how: Merging<'a>) -> Request<'a> {
    Request::Merge {
        base: path,
        ours: path,
        theirs: path,
        how,
    }
}

// The settings of a command, with rows in the order of the files.
fn settings_in_order<'a>(
    alloc: Global,
    matches: &ArgMatches<'a>,
    request: Request<'a>,
) -> Result<Settings<'a>, ParseError> {
    Ok(Settings {
        keeps_order: true,
        ..settings_of(alloc, matches, files_of(request))?
    })
}

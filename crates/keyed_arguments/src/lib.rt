//! What the command line of `keyed` asks for.
#![tactic(auto)]

mod applying;
mod cutting;
mod form;
mod git;
mod help;
mod key_row;
mod merging;
mod more;
mod numbers;
mod output;
mod progress;
mod renames;
mod terminal;
mod texts;
mod view;

use applying::{applying_of, put_applying};
use clap::{Arg, ArgAction, ArgMatches};
use cutting::{cut_of, put_cut};
use form::{files_of, form_of};
use git::{git_asked, put_git_commands};
use help::{example_of, group_of};
use key_row::{KEY_ROW, key_row, row_comparing_of};
use keyed_columns::key_names;
use keyed_cut::Cut;
use keyed_faults::Reason;
use keyed_requests::{
    Asked, Colours, Command, Comparing, Format, Heading, JoinNames, Joining, Kind, Look, Picked,
    Request, RowFormat, RowsShown, Settings, SortedChanges, SortedRequest, Wanted,
};
use merging::{merging_of, put_merging};
use more::{lookup_of, overlay_of};
use numbers::put_numbers;
use output::{heading_of, output_of, put_output};
pub use progress::Progress;
use progress::{progress_of, put_progress};
use renames::{put_renames, renames_of};
use std::alloc::{AllocError, Global};
use std::{fmt, io};
pub use terminal::Terminal;
use texts::{KEY, TEXTS, TEXTS_OF_TWO, put_texts};
use view::{comparing_of, look_of, put_view};

/// Why the words of a command line make no command. Its `Display` is the text for the user.
#[derive(Drop)]
pub enum ParseError {
    /// They are not such as the commands take, they ask for help or the version, or a request for memory was refused.
    Words(clap::Error),
    /// What is given for an option is none of its values.
    Value {
        option: &'static str,
        wrong: &'static str,
    },
    /// What is given for an option are no names of columns.
    Names {
        option: &'static str,
        reason: Reason,
    },
    /// Tables are to be compared as they are read, and the answer to be lined up, for which all its rows must be known.
    SortedTable,
    /// An answer that is no CSV is to have no names of columns.
    NoHeading,
    /// Tables are to be cut into so many parts.
    PartCount(u64),
}

/// What a command line asks for.
#[derive(Debug, Drop)]
pub enum Line<'a> {
    /// An answer, or what git does with tables.
    Asked {
        asked: Asked<'a>,
        progress: Progress,
    },
    /// Tables cut into parts.
    Cut {
        cut: Cut<'a>,
        progress: Progress,
    },
}

impl From<clap::Error> for ParseError {
    fn from(error: clap::Error) -> Self {
        ParseError::Words(error)
    }
}

impl From<AllocError> for ParseError {
    fn from(refused: AllocError) -> Self {
        ParseError::Words(clap::Error::from(refused))
    }
}

impl ParseError {
    /// Whether the text is for the standard error: it is, unless the words ask for help or the version.
    pub fn use_stderr(&self) -> bool {
        match self {
            ParseError::Words(error) => error.use_stderr(),
            ParseError::Value { .. }
            | ParseError::Names { .. }
            | ParseError::SortedTable
            | ParseError::NoHeading
            | ParseError::PartCount(_) => true,
        }
    }

    /// Prints the text, on the standard error unless the words ask for help or the version.
    ///
    /// # Errors
    ///
    /// Returns the error of the stream.
    pub fn print<R: Print + Eprint>(&self, rt: &R) -> io::Result<()> {
        if self.use_stderr() {
            rt.eprint(self)
        } else {
            rt.print(self)
        }
    }
}

impl fmt::Display for ParseError {
    fn fmt<W: fmt::Write>(&self, f: &mut fmt::Formatter<W>) -> fmt::Result {
        match self {
            ParseError::Words(error) => write!(f, "{error}"),
            ParseError::Value { option, wrong } => writeln!(f, "keyed: --{option}: {wrong}"),
            ParseError::Names { option, reason } => writeln!(f, "keyed: --{option}: {reason}"),
            ParseError::SortedTable => {
                f.write_str("keyed: diff --sorted needs --format csv or json\n")
            }
            ParseError::NoHeading => f.write_str("keyed: --no-heading needs --format csv\n"),
            ParseError::PartCount(count) => writeln!(
                f,
                "keyed: --parts: {count} parts, and there may be 1 to 999"
            ),
        }
    }
}

/// What the words of a command line ask for. Where `--color` and `--width` leave it open, a table that a person reads has colours and lines
/// as the terminal has, which is the standard output.
///
/// # Errors
///
/// Returns a `ParseError` with the text to print if the words make no command, or ask for help or the version, and one that says so if a
/// request for memory was refused.
pub fn parse<'a>(
    alloc: Global,
    words: &'a [String],
    terminal: Terminal,
) -> Result<Line<'a>, ParseError> {
    let matches = command(alloc)?.try_get_matches_from(words)?;
    match matches.subcommand() {
        Some(("cut", matches)) => Ok(Line::Cut {
            cut: cut_of(alloc, matches)?,
            progress: progress_of(matches),
        }),
        Some((name, matches)) => match git_asked(alloc, name, matches, terminal)? {
            Some(asked) => Ok(Line::Asked {
                asked,
                progress: Progress::LeftOut,
            }),
            None => answer_of(alloc, name, matches, terminal),
        },
        None => Err(ParseError::from(AllocError)),
    }
}

// An answer to a command. A file that it goes into is no terminal.
fn answer_of<'a>(
    alloc: Global,
    name: &str,
    matches: &ArgMatches<'a>,
    terminal: Terminal,
) -> Result<Line<'a>, ParseError> {
    let output = output_of(matches)?;
    let shown_on = match output {
        Some(_) => Terminal::NONE,
        None => terminal,
    };
    let command = command_of(alloc, name, matches, shown_on)?;
    match heading_of(matches) {
        Heading::Omitted if !is_csv(&command) => return Err(ParseError::NoHeading),
        Heading::Omitted | Heading::Written => {}
    }
    Ok(Line::Asked {
        asked: Asked::Answer { command, output },
        progress: progress_of(matches),
    })
}

// Whether the answer to a command is CSV, unless it is why there is none.
fn is_csv(command: &Command<'_>) -> bool {
    match command {
        Command::Whole { request, .. } => match request {
            Request::Diff { how, .. } => matches!(how.format, Format::Csv),
            Request::DiffRows { how, .. } => matches!(how.format, Format::Csv),
            Request::Join { how, .. } => matches!(how.format, RowFormat::Csv),
            Request::Apply { .. } | Request::Merge { .. } => true,
        },
        Command::Sorted { request, .. } => match request {
            SortedRequest::Diff { how, .. } => matches!(how, SortedChanges::Csv),
            SortedRequest::Join { how, .. } => matches!(how.format, RowFormat::Csv),
        },
        Command::Lookup { request, .. } => matches!(request.how.format, RowFormat::Csv),
        Command::Overlay { .. } => true,
    }
}

fn command_of<'a>(
    alloc: Global,
    name: &str,
    matches: &ArgMatches<'a>,
    terminal: Terminal,
) -> Result<Command<'a>, ParseError> {
    match name {
        "lookup" => return lookup_of(alloc, matches),
        "overlay" => return overlay_of(alloc, matches),
        _ => {}
    }
    let request = request_of(alloc, name, matches, terminal)?;
    let settings = settings_of(alloc, matches, files_of(request))?;
    let wanted = wanted_of(matches);
    if !matches.get_flag("sorted") {
        return Ok(Command::Whole {
            settings,
            request,
            wanted,
        });
    }
    Ok(Command::Sorted {
        layout: settings.layout(),
        request: sorted_of(request, wanted)?,
        wanted,
    })
}

// How much of the answer is wanted.
fn wanted_of(matches: &ArgMatches<'_>) -> Wanted {
    if matches.get_flag("quiet") {
        Wanted::Status
    } else {
        Wanted::Answer
    }
}

// The request as one whose answer is written while its tables are read, if it can be.
fn sorted_of(request: Request<'_>, wanted: Wanted) -> Result<SortedRequest<'_>, ParseError> {
    match request {
        Request::Diff { old, new, how } => Ok(SortedRequest::Diff {
            old,
            new,
            how: sorted_changes(how, wanted)?,
        }),
        Request::Join { left, right, how } => Ok(SortedRequest::Join { left, right, how }),
        Request::Apply { .. } | Request::DiffRows { .. } | Request::Merge { .. } => {
            Err(ParseError::SortedTable)
        }
    }
}

// How changes are written while tables are read. Where the status alone is wanted, that is as good as any form.
fn sorted_changes(how: Comparing<'_>, wanted: Wanted) -> Result<SortedChanges<'_>, ParseError> {
    let json = SortedChanges::Json {
        columns: how.view.columns,
        sameness: how.sameness,
    };
    match (how.format, wanted) {
        (Format::Csv, _) => match how.view.columns {
            Picked::All => Ok(SortedChanges::Csv),
            Picked::Only(_) => Err(not_in_parts("only")),
            Picked::AllBut(_) => Err(not_in_parts("ignore")),
        },
        (Format::Report(_), Wanted::Status) => Ok(json),
        (Format::Report(Look::Json), Wanted::Answer) => match how.view.rows {
            RowsShown::All => Ok(json),
            RowsShown::First(_) | RowsShown::Nothing => Err(ParseError::Value {
                option: "summary",
                wrong: "not with --sorted, whose counts go to the standard error: give > /dev/null",
            }),
        },
        (Format::Report(_), Wanted::Answer) => Err(ParseError::SortedTable),
    }
}

// That an option is none of changes that are written as CSV part by part.
fn not_in_parts(option: &'static str) -> ParseError {
    ParseError::Value {
        option,
        wrong: "not with --format csv and --sorted: leave out --sorted",
    }
}

fn request_of<'a>(
    alloc: Global,
    name: &str,
    matches: &ArgMatches<'a>,
    terminal: Terminal,
) -> Result<Request<'a>, ParseError> {
    Ok(match name {
        "apply" => Request::Apply {
            old: file_of(matches, "OLD"),
            changes: file_of(matches, "CHANGES"),
            how: applying_of(matches)?,
        },
        "merge" => Request::Merge {
            base: file_of(matches, "BASE"),
            ours: file_of(matches, "OURS"),
            theirs: file_of(matches, "THEIRS"),
            how: merging_of(alloc, matches)?,
        },
        "join" => Request::Join {
            left: file_of(matches, "LEFT"),
            right: file_of(matches, "RIGHT"),
            how: Joining {
                kind: kind_of(matches.get_str("kind").unwrap_or("outer")),
                names: names_of(matches)?,
                format: row_format_of(matches),
            },
        },
        _ if matches.get_flag(KEY_ROW) => Request::DiffRows {
            old: file_of(matches, "OLD"),
            new: file_of(matches, "NEW"),
            how: row_comparing_of(matches, terminal)?,
        },
        _ => Request::Diff {
            old: file_of(matches, "OLD"),
            new: file_of(matches, "NEW"),
            how: comparing_of(alloc, matches, terminal)?,
        },
    })
}

// How the rows of a join are written.
fn row_format_of(matches: &ArgMatches<'_>) -> RowFormat {
    match matches.get_str("format") {
        Some("json") => RowFormat::Json,
        _ => RowFormat::Csv,
    }
}

// What the header of a join has beside the names of columns.
fn names_of<'a>(matches: &ArgMatches<'a>) -> Result<JoinNames<'a>, ParseError> {
    let plain = JoinNames::PLAIN;
    let (left, right) = match matches.get_str("prefix") {
        Some(text) => prefixes_of(text)?,
        None => (plain.left, plain.right),
    };
    Ok(JoinNames {
        left,
        right,
        side: matches.get_str("side").unwrap_or(plain.side),
    })
}

// Two texts with one comma between them.
fn prefixes_of(text: &str) -> Result<(&str, &str), ParseError> {
    match text.split_once(',') {
        Some((left, right)) if !right.contains(',') => Ok((left, right)),
        _ => Err(ParseError::Value {
            option: "prefix",
            wrong: "not two texts with a comma between them",
        }),
    }
}

fn file_of<'a>(matches: &ArgMatches<'a>, name: &str) -> &'a str {
    matches.get_str(name).unwrap_or("-")
}

fn kind_of(name: &str) -> Kind {
    match name {
        "inner" => Kind::Inner,
        "left" => Kind::Left,
        "right" => Kind::Right,
        "semi" => Kind::Semi,
        "anti" => Kind::Anti,
        _ => Kind::Outer,
    }
}

fn settings_of<'a>(
    alloc: Global,
    matches: &ArgMatches<'a>,
    files: [&str; 3],
) -> Result<Settings<'a>, ParseError> {
    let key = matches.get_str("key");
    if let Some(names) = key {
        if let Err(reason) = key_names(alloc, names) {
            return Err(ParseError::Names {
                option: "key",
                reason,
            });
        }
    }
    Ok(Settings {
        form: form_of(matches, files)?,
        key,
        renames: renames_of(alloc, matches)?,
        keeps_order: matches.get_flag("keep-order"),
        groups: matches.get_flag("group"),
        look: look_of(matches, Colours::Off),
    })
}

// A command below the program's: its name, what it prints, and the files that it takes, each with its help.
type Below<'a> = (&'a str, &'a str, &'a [(&'a str, &'a str)]);

static COMMANDS: [Below<'static>; 6] = [
    (
        "diff",
        "Prints the rows that changed. Status 0: none did, 1: some did, 2: trouble.",
        &[
            ("OLD", "The old table; - is the standard input"),
            ("NEW", "The new table; - is the standard input"),
        ],
    ),
    (
        "apply",
        "Prints a table with changes made to it. Status 0: all fit, 1: some do not, 2: trouble.",
        &[
            ("OLD", "The table; - is the standard input"),
            (
                "CHANGES",
                "What diff --format csv printed; - is the standard input",
            ),
        ],
    ),
    (
        "merge",
        "Prints two versions of a table merged over their base. \
         Status 0: merged, 1: rows in conflict, 2: trouble.",
        &[
            ("BASE", "The base; - is the standard input"),
            ("OURS", "Our version; - is the standard input"),
            ("THEIRS", "Their version; - is the standard input"),
        ],
    ),
    (
        "join",
        "Prints two tables joined by key. Status 0, or 2: trouble.",
        &[
            ("LEFT", "The left table; - is the standard input"),
            ("RIGHT", "The right table; - is the standard input"),
        ],
    ),
    (
        "lookup",
        "Prints each row of a table with the row of another that has its key. Status 0, or 2: trouble.",
        &[
            (
                "LEFT",
                "The table whose rows are looked up, of any size and order; - is the standard input",
            ),
            (
                "RIGHT",
                "The table in which each key stands once; - is the standard input",
            ),
        ],
    ),
    (
        "overlay",
        "Prints tables laid one over the other. Status 0, or 2: trouble.",
        &[
            ("BASE", "The lowest table; - is the standard input"),
            (
                OVERS,
                "The tables over it, the last one on top; - is the standard input",
            ),
        ],
    ),
];

// What stands for the files of which there may be several.
const OVERS: &str = "OVER";

// The options that are set or not: the name of each, and its help.
static FLAGS: [(&str, &str); 5] = [
    (
        "no-header",
        "The first row is no header: columns are named 1, 2 and so on",
    ),
    (
        "ragged",
        "A short row has empty cells at its end, and a long one may have empty ones",
    ),
    (
        "lenient",
        "Quotes that are not in order are taken as they are",
    ),
    (
        "keep-order",
        "Rows come out in the order of the files, and not in that of their keys",
    ),
    (
        "group",
        "Keys may repeat: rows with the same key are a group",
    ),
];

fn command<'a>(alloc: Global) -> Result<clap::Command<'a>, AllocError> {
    let below = subcommands(alloc)?;
    clap::Command::new(alloc, "keyed")
        .version("0.1.0")
        .about(
            "Compares, changes, merges and joins tables of CSV by key. FILE:TABLE is a table of an SQLite file.",
        )
        .subcommand_required(true)
        .subcommands(below)
}

fn subcommands<'a>(alloc: Global) -> Result<Vec<clap::Command<'a>>, AllocError> {
    let mut commands = Vec::new(alloc);
    for below in &COMMANDS {
        put(&mut commands, subcommand(alloc, below)?)?;
    }
    put_cut(alloc, &mut commands)?;
    put_git_commands(alloc, &mut commands)?;
    Ok(commands)
}

fn subcommand<'a>(alloc: Global, below: &Below<'a>) -> Result<clap::Command<'a>, AllocError> {
    let (name, about, files) = *below;
    let args = args_of(alloc, name, files)?;
    clap::Command::new(alloc, name)
        .about(about)
        .after_help(example_of(name))
        .args(args)
}

// What a command takes: its files, its own options, and the settings of all.
fn args_of<'a>(
    alloc: Global,
    name: &str,
    files: &[(&'a str, &'a str)],
) -> Result<Vec<Arg<'a>>, AllocError> {
    let mut args = Vec::new(alloc);
    for file in files {
        put(&mut args, file_arg(alloc, file.0, file.1))?;
    }
    put_texts(alloc, &mut args, &KEY)?;
    put_options(alloc, &mut args, name)?;
    put_settings(alloc, &mut args, name)?;
    Ok(args)
}

// A file, or the several of an overlay.
fn file_arg<'a>(alloc: Global, name: &'a str, help: &'a str) -> Arg<'a> {
    let file = Arg::new(alloc, name).required(true).help(help);
    if name == OVERS {
        file.num_args(1..)
    } else {
        file
    }
}

// Puts the options that a command has beside the settings of all.
fn put_options<'a>(alloc: Global, args: &mut Vec<Arg<'a>>, name: &str) -> Result<(), AllocError> {
    match name {
        "diff" => {
            put(args, key_row(alloc))?;
            put(args, choice(alloc, FORMAT))?;
            put(args, choice(alloc, COLOR))?;
            put_view(alloc, args)?;
            put_renames(alloc, args)?;
            put_numbers(alloc, args)?;
            put(args, quiet(alloc)?)?;
            put(args, sorted(alloc)?)
        }
        "apply" => {
            put_applying(alloc, args)?;
            put(args, choice(alloc, REPORT))?;
            put_renames(alloc, args)?;
            put(args, quiet(alloc)?)
        }
        "merge" => {
            put(args, choice(alloc, REPORT))?;
            put_renames(alloc, args)?;
            put_numbers(alloc, args)?;
            put(args, quiet(alloc)?)?;
            put_merging(alloc, args)
        }
        "join" => {
            put(args, choice(alloc, KIND))?;
            put(args, choice(alloc, ROWS))?;
            put(args, prefix(alloc))?;
            put(args, side(alloc))?;
            put(args, sorted(alloc)?)
        }
        "lookup" => {
            put(args, choice(alloc, LOOKUP_KIND))?;
            put(args, choice(alloc, ROWS))?;
            put(args, prefix(alloc))
        }
        "overlay" => put(args, cells(alloc)?),
        _ => Ok(()),
    }
}

fn prefix<'a>(alloc: Global) -> Arg<'a> {
    text(
        alloc,
        "prefix",
        "LEFT,RIGHT",
        "What stands before a name that both tables have; left.,right. else",
    )
}

fn side<'a>(alloc: Global) -> Arg<'a> {
    text(
        alloc,
        "side",
        "NAME",
        "The name of the first column of an outer join; side else",
    )
}

fn cells<'a>(alloc: Global) -> Result<Arg<'a>, AllocError> {
    let cells = flag(
        alloc,
        "cells",
        "Each cell is that of the last table that has one there which is not empty",
    );
    cells.conflicts_with("group")
}

fn quiet<'a>(alloc: Global) -> Result<Arg<'a>, AllocError> {
    let quiet = flag(
        alloc,
        "quiet",
        "Nothing is printed: the status alone tells what came out",
    );
    quiet.conflicts_with("output")
}

// An option that is one of some words, of which the first is the default, with what stands for them in the help, and its own help.
#[derive(Clone, Copy)]
struct OneOf {
    name: &'static str,
    shown: &'static str,
    words: &'static [&'static str],
    help: &'static str,
}

const FORMAT: OneOf = OneOf {
    name: "format",
    shown: "FORM",
    words: &["table", "csv", "json", "markdown", "html"],
    help: "A table to read, CSV that apply takes, JSON, a line a row, a table of Markdown, or a page of HTML",
};

const REPORT: OneOf = OneOf {
    name: "format",
    shown: "FORM",
    words: &["table", "json", "markdown", "html"],
    help: "How a report is printed, where rows are in conflict or changes do not fit",
};

const ROWS: OneOf = OneOf {
    name: "format",
    shown: "csv|json",
    words: &["csv", "json"],
    help: "CSV, or JSON, a line a row: its key, and its other cells of each table that has it",
};

const COLOR: OneOf = OneOf {
    name: "color",
    shown: "auto|always|never",
    words: &["auto", "always", "never"],
    help: "Colours in a table; auto: on a terminal, unless NO_COLOR is set and not empty",
};

const KIND: OneOf = OneOf {
    name: "kind",
    shown: "KIND",
    words: &["outer", "inner", "left", "right", "semi", "anti"],
    help: "Which rows: of either table, of both, of the left, of the right; \
           semi and anti: of the left, with its cells alone",
};

const LOOKUP_KIND: OneOf = OneOf {
    name: "kind",
    shown: "left|inner|anti",
    words: &["left", "inner", "anti"],
    help: "Which rows: all of the left table, those that are found, or those that are not, with their cells alone",
};

// An option of one of these words, of which the first one stands where it is not given.
fn choice<'a>(alloc: Global, of: OneOf) -> Arg<'a> {
    one_of(alloc, of).default_value(of.words.first().copied().unwrap_or(""))
}

// An option of one of these words, if it is given.
fn one_of<'a>(alloc: Global, of: OneOf) -> Arg<'a> {
    grouped(Arg::new(alloc, of.name).long(of.name), of.name)
        .value_name(of.shown)
        .value_parser(of.words)
        .help(of.help)
}

fn sorted<'a>(alloc: Global) -> Result<Arg<'a>, AllocError> {
    let sorted = flag(
        alloc,
        "sorted",
        "Both files are in the order of their keys: they are read side by side, in memory that does not grow",
    );
    sorted.conflicts_with("group")?.conflicts_with("keep-order")
}

// Puts the settings of all commands, and those of commands that take two files.
fn put_settings<'a>(
    alloc: Global,
    args: &mut Vec<Arg<'a>>,
    command: &str,
) -> Result<(), AllocError> {
    put_texts(alloc, args, &TEXTS)?;
    if command != "merge" && command != "overlay" {
        put_texts(alloc, args, &TEXTS_OF_TWO)?;
    }
    for (name, help) in &FLAGS {
        if has_flag(command, name) {
            put(args, flag(alloc, name, help))?;
        }
    }
    put_output(alloc, args)?;
    put_progress(alloc, args)
}

// Whether a command has a flag. The rows of a look-up stand as in the left table, whose keys may repeat.
fn has_flag(command: &str, name: &str) -> bool {
    command != "lookup" || name != "keep-order" && name != "group"
}

// Puts an item after the others. One that there is no memory for is dropped.
fn put<T: Drop>(items: &mut Vec<T>, item: T) -> Result<(), AllocError> {
    items.push(item)?;
    Ok(())
}

// An option with a value, which may begin with a hyphen, as the name of a column may.
fn text<'a>(alloc: Global, name: &'a str, value: &'a str, help: &'a str) -> Arg<'a> {
    option(alloc, name)
        .value_name(value)
        .allow_hyphen_values(true)
        .help(help)
}

fn flag<'a>(alloc: Global, name: &'a str, help: &'a str) -> Arg<'a> {
    option(alloc, name).action(ArgAction::SetTrue).help(help)
}

// An option by its name, and by its letter if it has one.
fn option<'a>(alloc: Global, name: &'a str) -> Arg<'a> {
    let option = grouped(Arg::new(alloc, name).long(name), name);
    match letter_of(name) {
        Some(letter) => option.short(letter),
        None => option,
    }
}

// An option in its group, if it stands in one.
fn grouped<'a>(option: Arg<'a>, name: &str) -> Arg<'a> {
    match group_of(name) {
        Some(group) => option.help_heading(group),
        None => option,
    }
}

// The letter that stands for the name of an option, if one does.
fn letter_of(name: &str) -> Option<char> {
    match name {
        "key" => Some('k'),
        "delimiter" => Some('d'),
        "group" => Some('g'),
        "no-header" => Some('H'),
        "quiet" => Some('q'),
        _ => None,
    }
}

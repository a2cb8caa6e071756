//! A run of `keyed`: from the words of the command line to the request, and from its answer to the output, the standard error and the
//! status. What the command line asks for stands in the crate `keyed_arguments`, how a request is answered in `keyed_commands`.
#![tactic(auto)]

mod counted;
mod leavable;
mod progress;
mod words;

use counted::{ClearedOutput, CountedRuntime};
use keyed_arguments::{Line, ParseError, Terminal, parse};
use keyed_commands::{
    Asked, Colours, Command, Fault, Finished, GitMerge, Reason, Shown, SortedRequest, at,
    version_name, write_command, write_git_diff, write_git_merge, write_git_setup,
    write_git_unmerged, write_git_unopened, write_into_file,
};
use keyed_cut::{Cut, write_cut};
use keyed_sqlite::{Databases, Reading};
use leavable::{LeavableOutput, WhenLeft};
use progress::ProgressLine;
use std::alloc::{AllocError, Global};
use std::env::FillError;
use std::fs;
use std::io::{IsTerminal, Write};
use std::rt::{Clock, Env, Files};
use words::{ShownWords, Words, words_of};

// The status of trouble.
const TROUBLE: u8 = 2;

// The same of a merge for git, which takes one up to 128 for rows in conflict.
const TROUBLE_FOR_GIT: u8 = 129;

/// Answers the command line of a runtime on the output, and returns the status. Unless sorted tables are read row by row, nothing is
/// written before the whole answer is known. What is wrong is said on the standard error, and so is an output that does not take the help.
/// That the reader of the output has left is no trouble: the status is that of the command, and a join or a look-up of tables as they are
/// read stops.
///
/// A standard stream that is closed stays so: no file that is named takes its place.
///
/// Where `errors`, the standard error, is a terminal and a second has passed, a line of it says how many lines are read. It is written
/// over, and gone before anything else is written there and once the run is over.
pub fn run<
    R: Files + Env + Input + Clock + Print + Eprint + AllocGlobal,
    W: Write + IsTerminal,
    E: IsTerminal,
>(rt: &R, output: &mut W, errors: &E) -> u8 {
    // The next file that is opened has the least number that is free. The standard streams have 0 to 2, so three files that hold nothing
    // are open until the end, and take the numbers of those that are closed.
    let _first = fs::open(rt, "/dev/null");
    let _second = fs::open(rt, "/dev/null");
    let _third = fs::open(rt, "/dev/null");
    match words_of(rt) {
        Ok(Words::Text(words)) => run_words(rt, &words, output, errors),
        Ok(Words::NoText(words)) => run_shown_words(rt, &words, output, errors),
        Err(reason) => trouble(rt, of_words(reason)),
    }
}

/// Answers the words of a command line, the name of the program first, as `run` answers those of its runtime, and returns the status.
/// Several command lines can be answered in turn: the first that names the standard input reads all of it. Where a standard stream is
/// closed, a file that is opened takes its place, which only `run` guards against.
pub fn run_words<
    R: Files + Env + Input + Clock + Print + Eprint + AllocGlobal,
    W: Write + IsTerminal,
    E: IsTerminal,
>(rt: &R, words: &[String], output: &mut W, errors: &E) -> u8 {
    match parse(rt.alloc(), words, terminal_of(rt, output)) {
        Ok(Line::Asked { asked, progress }) => {
            let line = ProgressLine::new(rt, progress, errors);
            answer_counted(rt, &line, asked, output)
        }
        Ok(Line::Cut { cut, progress }) => {
            let line = ProgressLine::new(rt, progress, errors);
            cut_counted(rt, &line, cut)
        }
        Err(error) => refuse(rt, words, error),
    }
}

// Answers what git asks for by words of which some are not UTF-8, or says so of the first, and returns the status.
fn run_shown_words<
    R: Files + Env + Input + Clock + Print + Eprint + AllocGlobal,
    W: Write + IsTerminal,
    E: IsTerminal,
>(rt: &R, words: &ShownWords, output: &mut W, errors: &E) -> u8 {
    if let Ok(Line::Asked { asked, progress }) = parse(
        rt.alloc(),
        &words.words,
        terminal_of(rt, output),
    ) {
        if let Some(asked) = words.asked_by_git(&asked) {
            let line = ProgressLine::new(rt, progress, errors);
            return answer_counted(rt, &line, asked, output);
        }
    }
    match words.said(rt.alloc()) {
        Ok(said) => {
            let _ = eprintln!(rt; "keyed: the command line: {said}");
            trouble_of(&words.words)
        }
        Err(AllocError) => trouble(rt, of_words(Reason::NoMemory)),
    }
}

// What reports have of an output, where the command line leaves that open.
fn terminal_of<R: Env, W: IsTerminal>(rt: &R, output: &W) -> Terminal {
    if !output.is_terminal() {
        return Terminal::NONE;
    }
    let colours = if has_text(rt, "NO_COLOR") {
        Colours::Off
    } else {
        Colours::On
    };
    Terminal {
        colours,
        width: columns_of(rt),
    }
}

// How many columns the lines of a terminal have, as the variable says that shells set, if it is set to a number above 0.
fn columns_of<R: Env>(rt: &R) -> Option<usize> {
    let mut text = [0; 8];
    let length = rt.var("COLUMNS", &mut text).ok()?;
    let digits = str::from_utf8(text.get(..length)?).ok()?;
    match digits.parse::<usize>() {
        Ok(0) | Err(_) => None,
        Ok(columns) => Some(columns),
    }
}

// Answers, says meanwhile how many lines are read, and returns the status.
fn answer_counted<'r, R: Files + Input + Clock + Eprint + AllocGlobal, W: Write + IsTerminal>(
    rt: &'r R,
    line: &ProgressLine<'r, R>,
    asked: Asked<'_>,
    output: &mut W,
) -> u8 {
    let databases = Databases::new(rt.alloc(), reading_of(&asked));
    let counted = CountedRuntime {
        rt,
        line,
        databases: &databases,
    };
    let mut output = ClearedOutput::new(line, output);
    let status = answer(&counted, &databases, asked, &mut output);
    line.clear();
    status
}

// Cuts tables, says meanwhile how many lines are read, and returns the status.
fn cut_counted<'r, R: Files + Clock + Eprint + AllocGlobal>(
    rt: &'r R,
    line: &ProgressLine<'r, R>,
    cut: Cut<'_>,
) -> u8 {
    let databases = Databases::new(rt.alloc(), Reading::LeftAlone);
    let counted = CountedRuntime {
        rt,
        line,
        databases: &databases,
    };
    let status = cut_tables(&counted, cut);
    line.clear();
    status
}

// Says why words make no command, and returns the status. What is said of them may repeat a word, and so is of the words as they are
// shown, so that none of them begins a line or moves a terminal's text.
fn refuse<R: Print + Eprint + AllocGlobal>(rt: &R, words: &[String], error: ParseError) -> u8 {
    let error = match error {
        ParseError::Words(_) => match shown_error(rt.alloc(), words) {
            Ok(error) => error,
            Err(AllocError) => return trouble(rt, of_words(Reason::NoMemory)),
        },
        error => error,
    };
    let printed = error.print(rt);
    if error.use_stderr() {
        return trouble_of(words);
    }
    match at("the standard output", printed) {
        Ok(()) => 0,
        Err(fault) if fault.is_closed_pipe() => 0,
        Err(fault) => trouble(rt, fault),
    }
}

// The status of trouble with these words.
fn trouble_of(words: &[String]) -> u8 {
    match words.get(1) {
        Some(command) if command.as_str() == "git-merge" => TROUBLE_FOR_GIT,
        _ => TROUBLE,
    }
}

// A fault of the command line.
fn of_words<'a>(reason: Reason) -> Fault<'a> {
    Fault {
        file: "the command line",
        reason,
    }
}

// The error of the words as they are shown. Where these make a command, it was memory that the words as they are lacked.
fn shown_error(alloc: Global, words: &[String]) -> Result<ParseError, AllocError> {
    let mut shown = Vec::new(alloc);
    for word in words {
        shown.push(format!(in alloc; "{}", Shown(word.as_bytes()))?)?;
    }
    match parse(alloc, &shown, Terminal::NONE) {
        Err(ParseError::Words(error)) => Ok(ParseError::Words(error)),
        _ => Err(AllocError),
    }
}

// How SQLite files are read. Git has a merge write over a version of the file, which may be none of them.
fn reading_of(asked: &Asked<'_>) -> Reading {
    match asked {
        Asked::Answer { command, .. } => match command {
            Command::Sorted { .. } => Reading::Sorted,
            Command::Whole { .. } | Command::Lookup { .. } | Command::Overlay { .. } => {
                Reading::Tables
            }
        },
        Asked::GitDiff { .. } => Reading::Tables,
        Asked::GitUnopened { .. }
        | Asked::GitUnmerged { .. }
        | Asked::GitMerge { .. }
        | Asked::GitSetup { .. } => Reading::LeftAlone,
    }
}

fn answer<R: Files + Input + Eprint + AllocGlobal, W: Write>(
    rt: &R,
    databases: &Databases,
    asked: Asked<'_>,
    output: &mut W,
) -> u8 {
    let merge = merge_of(&asked);
    let mut output = LeavableOutput::new(output, when_left(&asked));
    match write_asked(rt, asked, &mut output) {
        Ok(finished) => {
            if let Some(counts) = finished.counts {
                let _ = eprintln!(rt; "{counts}");
            }
            finished.status
        }
        Err(_closed) if output.has_stopped() => 0,
        Err(fault) => match merge {
            Some(merge) => trouble_for_git(rt, merge, fault),
            None => trouble_with_file(rt, databases, fault),
        },
    }
}

// The merge that git asks for, if it asks for one.
fn merge_of<'a>(asked: &Asked<'a>) -> Option<GitMerge<'a>> {
    match asked {
        Asked::GitMerge { merge, .. } => Some(*merge),
        _ => None,
    }
}

// What a command does once the reader of its output has left: a join and a look-up, which write while they read and have but one status,
// stop.
fn when_left(asked: &Asked<'_>) -> WhenLeft {
    match asked {
        Asked::Answer { command, .. } => match command {
            Command::Lookup { .. } => WhenLeft::Stop,
            Command::Sorted { request, .. } => match request {
                SortedRequest::Join { .. } => WhenLeft::Stop,
                SortedRequest::Diff { .. } => WhenLeft::GoOn,
            },
            Command::Whole { .. } | Command::Overlay { .. } => WhenLeft::GoOn,
        },
        _ => WhenLeft::GoOn,
    }
}

fn write_asked<'a, R: Files + Input + AllocGlobal, W: Write>(
    rt: &R,
    asked: Asked<'a>,
    output: &mut W,
) -> Result<Finished, Fault<'a>> {
    let status = match asked {
        Asked::Answer {
            command,
            output: place,
        } => {
            return match place {
                Some(file) => write_into_file(rt, command, file, output),
                None => write_command(rt, command, output),
            };
        }
        Asked::GitDiff {
            settings,
            how,
            diff,
        } => write_git_diff(rt, settings, how, diff, output)?,
        Asked::GitUnopened { diff } => write_git_unopened(rt, diff, output)?,
        Asked::GitUnmerged { path } => write_git_unmerged(rt, path, output)?,
        Asked::GitMerge {
            settings,
            how,
            merge,
        } => write_git_merge(rt, settings, how, merge, output)?,
        Asked::GitSetup { setup } => write_git_setup(rt, &setup, output)?,
    };
    Ok(Finished::of(status))
}

// Cuts tables, says which parts take more memory than is asked for, and returns the status.
fn cut_tables<R: Files + Eprint + AllocGlobal>(rt: &R, cut: Cut<'_>) -> u8 {
    match write_cut(rt, cut) {
        Ok(done) => {
            for part in &done.heavy {
                let _ = eprintln!(rt; "keyed: {part}");
            }
            if done.heavy.is_empty() { 0 } else { 1 }
        }
        Err(fault) => {
            let _ = eprintln!(rt; "keyed: {fault}");
            TROUBLE
        }
    }
}

// Whether a variable is set and not empty.
fn has_text<R: Env>(rt: &R, name: &str) -> bool {
    match rt.var(name, &mut [0]) {
        Ok(length) => length > 0,
        Err(FillError::NotPresent) => false,
        Err(FillError::TooLong) => true,
    }
}

// Says what is wrong, and returns the status of trouble.
fn trouble<R: Eprint>(rt: &R, fault: Fault<'_>) -> u8 {
    let _ = eprintln!(rt; "keyed: {fault}");
    TROUBLE
}

// Says what is wrong, of an SQLite file why it was refused, and returns the status of trouble.
fn trouble_with_file<R: Eprint>(rt: &R, databases: &Databases, fault: Fault<'_>) -> u8 {
    match databases.why(fault.file) {
        Ok(Some(why)) => {
            let file = Shown(fault.file.as_bytes());
            let _ = eprintln!(rt; "keyed: {file}: {why}");
            TROUBLE
        }
        Ok(None) => trouble(rt, fault),
        Err(AllocError) => trouble(rt, of_words(Reason::NoMemory)),
    }
}

// Says what is wrong with a merge for git, and returns the status of trouble with one.
fn trouble_for_git<R: Eprint + AllocGlobal>(rt: &R, merge: GitMerge<'_>, fault: Fault<'_>) -> u8 {
    match version_name(rt.alloc(), merge, fault.file) {
        Ok(name) => {
            let Fault { reason, .. } = fault;
            let file = name.as_str();
            trouble(rt, Fault { file, reason });
        }
        Err(AllocError) => {
            trouble(rt, fault);
        }
    }
    TROUBLE_FOR_GIT
}

//! What git asks for: a table that changed, versions merged into a file, and how it is told of both.

use crate::files::{answer_request, write_whole};
use crate::line_diff::{Versions, render_line_diff};
use crate::output::write_answer;
use keyed_faults::{Fault, Reason, Shown, at};
use keyed_requests::{Comparing, GitDiff, GitMerge, GitSetup, Merging, Request, Settings};
use std::alloc::{AllocError, Global};
use std::fmt::Write as WriteText;
use std::fs;
use std::io::Write;
use std::rt::Files;

/// Writes what changed between two versions of a table, after its path. Where one of them is no table under these settings it says why, and
/// compares them line by line, as git does. The status is 0, also where they differ: git takes another one for trouble.
///
/// # Errors
///
/// Returns the fault of a version that can't be read, that of the output, and what is wrong with the settings.
pub fn write_git_diff<'a, R: Files + Input + AllocGlobal, W: Write>(
    rt: &R,
    settings: Settings<'a>,
    how: Comparing<'a>,
    diff: GitDiff<'a>,
    output: &mut W,
) -> Result<u8, Fault<'a>> {
    let request = Request::Diff {
        old: diff.old,
        new: diff.new,
        how,
    };
    let bytes = match answer_request(rt, settings, request) {
        Ok(answer) => answer.bytes,
        Err(fault) => lines_of_git(rt, diff, fault)?,
    };
    let mut text = at(diff.path, heading(rt.alloc(), diff))?.into_bytes();
    at(diff.path, text.extend_from_slice(&bytes))?;
    at("the standard output", write_whole(output, &text))?;
    Ok(0)
}

// What is wrong with a version that is no table, and both of them line by line; or the fault where it is of no version's text.
fn lines_of_git<'a, R: Files + AllocGlobal>(
    rt: &R,
    diff: GitDiff<'a>,
    fault: Fault<'a>,
) -> Result<Vec<u8>, Fault<'a>> {
    if !is_of_text(&fault.reason) {
        return Err(fault);
    }
    let alloc = rt.alloc();
    let mut text = at(diff.path, format!(in alloc; "no table: {fault}\n"))?;
    let old = at(diff.old, fs::read(rt, diff.old))?;
    let new = at(diff.new, fs::read(rt, diff.new))?;
    let old_name = at(diff.path, name_beside(alloc, "a", diff.old, diff.path))?;
    let new_path = diff.renamed.unwrap_or(diff.path);
    let new_name = at(diff.path, name_beside(alloc, "b", diff.new, new_path))?;
    let versions = Versions {
        old_name: &old_name,
        new_name: &new_name,
        old: &old,
        new: &new,
    };
    let lines = at(diff.path, render_line_diff(alloc, versions))?;
    at(diff.path, text.push_str(&lines))?;
    Ok(text.into_bytes())
}

// Whether a file is no table for what its text has, and not for want of a file, of memory or of a setting.
fn is_of_text(reason: &Reason) -> bool {
    match reason {
        Reason::NoText(_)
        | Reason::Quotes { .. }
        | Reason::NoColumn { .. }
        | Reason::NeitherHas(_)
        | Reason::RepeatedColumn { .. }
        | Reason::NamedTwice { .. }
        | Reason::CellCount { .. }
        | Reason::RepeatedKey(_) => true,
        _ => false,
    }
}

// The name of a version of a file as git has it: its path in a folder of this name, unless there is none.
fn name_beside(alloc: Global, folder: &str, file: &str, path: &str) -> Result<String, AllocError> {
    if file == "/dev/null" {
        String::from_str(alloc, file)
    } else {
        format!(in alloc; "{folder}/{path}")
    }
}

// The line with the path of a table, and the one that it got where it was renamed.
fn heading(alloc: Global, diff: GitDiff<'_>) -> Result<String, AllocError> {
    let path = Shown(diff.path.as_bytes());
    match diff.renamed {
        Some(renamed) => format!(in alloc; "keyed diff {path} -> {}\n", Shown(renamed.as_bytes())),
        None => format!(in alloc; "keyed diff {path}\n"),
    }
}

/// Writes the path of a table that changed and can't be opened, since the name of its file is not UTF-8, and says what compares it. The
/// status is 0, so that git goes on with the next file.
///
/// # Errors
///
/// Returns the fault of the output, and want of memory as one of the path.
pub fn write_git_unopened<'a, R: AllocGlobal, W: Write>(
    rt: &R,
    diff: GitDiff<'a>,
    output: &mut W,
) -> Result<u8, Fault<'a>> {
    let mut text = at(diff.path, heading(rt.alloc(), diff))?;
    at(diff.path, text.push_str(UNOPENED))?;
    at("the standard output", write_whole(output, text.as_bytes()))?;
    Ok(0)
}

// What is said of a table whose file can't be opened.
const UNOPENED: &str =
    "not compared: its name is not UTF-8 (git diff --no-ext-diff compares its lines)\n";

/// Writes the line that git writes for a path that is in conflict. The status is 0.
///
/// # Errors
///
/// Returns the fault of the output, and want of memory as one of the path.
pub fn write_git_unmerged<'a, R: AllocGlobal, W: Write>(
    rt: &R,
    path: &'a str,
    output: &mut W,
) -> Result<u8, Fault<'a>> {
    let line = format!(in rt.alloc(); "* Unmerged path {}\n", Shown(path.as_bytes()));
    let line = at(path, line)?;
    at("the standard output", write_whole(output, line.as_bytes()))?;
    Ok(0)
}

/// Merges two versions of a table over their base, cell by cell, into the file of ours, and returns the status: 0 where it is whole, and 1
/// where rows are in conflict, which then stand there between marks. The file has its byte order mark, its line ends and its quotes as it had
/// them. Where rows in conflict can't stand there, it stays as it was, and they are reported on the output.
///
/// # Errors
///
/// Returns the fault of the first version that is bad, and that of the file where it can't be written: then it is as it was.
pub fn write_git_merge<'a, R: Files + Input + AllocGlobal, W: Write>(
    rt: &R,
    settings: Settings<'a>,
    how: Merging<'a>,
    merge: GitMerge<'a>,
    output: &mut W,
) -> Result<u8, Fault<'a>> {
    let request = Request::Merge {
        base: merge.base,
        ours: merge.ours,
        theirs: merge.theirs,
        how,
    };
    let answer = answer_request(rt, settings, request)?;
    write_answer(rt, answer, merge.ours, output)
}

/// The name of a version that git has merged, by the name of its file: the path that git gives, and which version it is, since the file
/// is one of git's own, which is gone after the merge. Any other file keeps its name, as does each where git gives no path.
///
/// # Errors
///
/// Returns `AllocError` if a request for memory was refused.
pub fn version_name(alloc: Global, merge: GitMerge<'_>, file: &str) -> Result<String, AllocError> {
    match (merge.path, version_of(merge, file)) {
        (Some(path), Some(version)) => format!(in alloc; "{path} ({version})"),
        _ => String::from_str(alloc, file),
    }
}

// Which version a file has, if it is one of them.
fn version_of(merge: GitMerge<'_>, file: &str) -> Option<&'static str> {
    if file == merge.base {
        Some("base")
    } else if file == merge.ours {
        Some("ours")
    } else if file == merge.theirs {
        Some("theirs")
    } else {
        None
    }
}

/// Writes the commands of a shell that tell git of the two others, with these options for them, for all tables or for those whose paths match
/// a pattern. They can be run again, which changes nothing. The status is 0.
///
/// # Errors
///
/// Returns the fault of the output, and want of memory as one of the output too.
pub fn write_git_setup<'a, R: AllocGlobal, W: Write>(
    rt: &R,
    setup: &GitSetup<'_>,
    output: &mut W,
) -> Result<u8, Fault<'a>> {
    let text = at("the standard output", setup_text(rt.alloc(), setup))?;
    at("the standard output", write_whole(output, text.as_bytes()))?;
    Ok(0)
}

// Puts lines for all tables into `.gitattributes`, each before those for the paths of a pattern, which win over it; unless it is there.
const ALL_TABLES: &str = r#"before='/ diff=keyed-/ && !done { print ENVIRON["line"]; done = 1 }
    { print }
    END { if (!done) print ENVIRON["line"] }'
for line in '*.csv diff=keyed merge=keyed' '*.tsv diff=keyed merge=keyed'
do
    grep -qsxF "$line" .gitattributes || {
        lines=$(cat .gitattributes 2>/dev/null | line=$line awk "$before")
        printf '%s\n' "$lines" >.gitattributes
    }
done
"#;

// Puts each line after those that `.gitattributes` has, unless it is there, and ends the last of those where nothing ends it.
const AFTER_OTHERS: &str = r#"
do
    grep -qsxFe "$line" .gitattributes ||
        { test -z "$(tail -c 1 .gitattributes)" || echo; printf '%s\n' "$line"; } >>.gitattributes
done
"#;

// What tells git of the commands for all tables, or for those of each pattern, which has a driver of its own.
fn setup_text(alloc: Global, setup: &GitSetup<'_>) -> Result<String, AllocError> {
    let mut text = String::new(alloc);
    if setup.patterns.is_empty() {
        put_driver(alloc, &mut text, setup, "keyed")?;
        text.push_str(ALL_TABLES)?;
        return Ok(text);
    }
    let mut lines = String::new(alloc);
    for pattern in &setup.patterns {
        let driver = driver_of(alloc, pattern)?;
        put_driver(alloc, &mut text, setup, &driver)?;
        let pattern = pattern_of(alloc, pattern)?;
        let line = format!(in alloc; "{pattern} diff={driver} merge={driver}")?;
        write!(lines, " {}", quoted(alloc, &line)?)?;
    }
    write!(text, "for line in{lines}{AFTER_OTHERS}")?;
    Ok(text)
}

// Puts the lines that tell git of a driver. The words that git puts after the options stand after `--`, so that the name of a file may begin
// as an option does. Where both branches were merged before, git merges their bases first: a conflict there takes one side whole, since
// marks in it would be no table.
fn put_driver(
    alloc: Global,
    text: &mut String,
    setup: &GitSetup<'_>,
    driver: &str,
) -> Result<(), AllocError> {
    let words = words_of(alloc, &setup.diff)?;
    let diff = quoted(alloc, &format!(in alloc; "keyed git-diff{words} --")?)?;
    let words = words_of(alloc, &setup.merge)?;
    let merge = quoted(
        alloc,
        &format!(in alloc; "keyed git-merge{words} -- %O %A %B %P")?,
    )?;
    let name = quoted(alloc, &format!(in alloc; "diff.{driver}.command")?)?;
    writeln!(text, "git config {name} {diff}")?;
    let name = quoted(alloc, &format!(in alloc; "merge.{driver}.driver")?)?;
    writeln!(text, "git config {name} {merge}")?;
    let name = quoted(alloc, &format!(in alloc; "merge.{driver}.recursive")?)?;
    writeln!(text, "git config {name} binary")
}

// The name of the driver for a pattern, another one for each pattern. An attribute's value ends at a blank.
fn driver_of(alloc: Global, pattern: &str) -> Result<String, AllocError> {
    let mut name = String::from_str(alloc, "keyed-")?;
    for character in pattern.chars() {
        if is_blank(character) || character == '%' {
            write!(name, "%{:02x}", u32::from(character))?;
        } else {
            name.push(character)?;
        }
    }
    Ok(name)
}

// A pattern as a line of attributes begins with it: as a text of C where it would else end early, or mean something else.
fn pattern_of(alloc: Global, pattern: &str) -> Result<String, AllocError> {
    let mut text = String::new(alloc);
    if !pattern.is_empty() && !pattern.starts_with(['"', '#']) && !pattern.chars().any(is_blank) {
        text.push_str(pattern)?;
        return Ok(text);
    }
    text.push('"')?;
    for character in pattern.chars() {
        match character {
            '"' | '\\' => write!(text, "\\{character}")?,
            _ if is_blank(character) && character != ' ' => {
                write!(text, "\\{:03o}", u32::from(character))?;
            }
            _ => text.push(character)?,
        }
    }
    text.push('"')?;
    Ok(text)
}

// Whether a character is a space or a control character, which may end a word in the files of git.
fn is_blank(character: char) -> bool {
    character == ' ' || character.is_ascii_control()
}

// Options as a shell reads them, each after a space.
fn words_of(alloc: Global, options: &[String]) -> Result<String, AllocError> {
    let mut words = String::new(alloc);
    for option in options {
        words.push(' ')?;
        words.push_str(&quoted(alloc, option)?)?;
    }
    Ok(words)
}

// A word as a shell reads it: in single quotes, unless it is plain.
fn quoted(alloc: Global, word: &str) -> Result<String, AllocError> {
    let mut text = String::new(alloc);
    if !word.is_empty() && word.bytes().all(is_plain) {
        text.push_str(word)?;
        return Ok(text);
    }
    text.push('\'')?;
    for character in word.chars() {
        if character == '\'' {
            text.push_str("'\\''")?;
        } else {
            text.push(character)?;
        }
    }
    text.push('\'')?;
    Ok(text)
}

// Whether a byte means nothing but itself to a shell.
fn is_plain(byte: u8) -> bool {
    byte.is_ascii_alphanumeric() || b"-_=,./:+@".contains(&byte)
}

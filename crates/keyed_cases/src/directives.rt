//! The lines of a case file that say what stands around its commands.

use crate::escapes::meant;
use crate::room::{Block, Room};
use crate::words::{Word, words_of};
use crate::wrong::Wrong;
use std::alloc::Global;
use testkit::disk::Trouble;

/// Does what a line says: a directive, or a line after `|` of what a file or the standard input holds.
///
/// # Errors
///
/// Returns `Line` if there is no such directive, or it has not the words that it needs, and `Io` if a request for memory was refused.
pub fn set(alloc: Global, room: &mut Room, line: &str) -> Result<(), Wrong> {
    match line.strip_prefix('|') {
        Some("") => put_line(alloc, room, ""),
        Some(rest) => match rest.strip_prefix(' ') {
            Some(text) => put_line(alloc, room, text),
            None => put_numbered(alloc, room, rest),
        },
        None => {
            let (name, words) = match line.split_once(' ') {
                Some((name, rest)) => (name, words_of(alloc, rest)?),
                None => (line, Vec::new(alloc)),
            };
            direct(alloc, room, name, words)
        }
    }
}

// Puts a line of a text where the last directive says, with its line end unless a backslash takes it off.
fn put_line(alloc: Global, room: &mut Room, line: &str) -> Result<(), Wrong> {
    let mut meant = meant(alloc, line)?;
    if !meant.is_joined {
        meant.bytes.push(b'\n')?;
    }
    room.put(&meant.bytes)
}

// A line for each number of a range, with what stands before and after the number, and how many digits this has.
#[derive(Clone, Copy)]
struct Numbered<'l> {
    first: usize,
    last: usize,
    before: &'l str,
    behind: &'l str,
    width: usize,
}

// What `0..600 k###,p` means: a line with each number from 0 to 599, of three digits.
fn numbered_of(line: &str) -> Option<Numbered<'_>> {
    let (range, text) = line.split_once(' ')?;
    let (first, last) = range.split_once("..")?;
    let (before, _) = text.split_once('#')?;
    let (_, behind) = text.rsplit_once('#')?;
    Some(Numbered {
        first: first.parse().ok()?,
        last: last.parse().ok()?,
        before,
        behind,
        width: text.chars().filter(|c| *c == '#').count(),
    })
}

// Puts a line for each number of a range.
fn put_numbered(alloc: Global, room: &mut Room, line: &str) -> Result<(), Wrong> {
    let Some(numbered) = numbered_of(line) else {
        return Err(Wrong::Line(
            "behind | stands a space and a text, or FROM..TO and a text with #",
        ));
    };
    for number in numbered.first..numbered.last {
        let digits = number.to_string(alloc)?;
        let mut line = String::from_str(alloc, numbered.before)?;
        for _ in digits.len()..numbered.width {
            line.push('0')?;
        }
        line.push_str(&digits)?;
        line.push_str(numbered.behind)?;
        put_line(alloc, room, &line)?;
    }
    Ok(())
}

fn direct(alloc: Global, room: &mut Room, name: &str, words: Vec<Word>) -> Result<(), Wrong> {
    room.block = Block::Nothing;
    if name == "stdin" {
        room.stdin = Vec::new(alloc);
        room.block = Block::Stdin;
        return Ok(());
    }
    let mut words = words.into_iter();
    let word = match (words.next(), words.next()) {
        (Some(word), None) => word,
        _ => return Err(Wrong::Line("a directive has one word behind it: quote what has spaces")),
    };
    if name == "called" {
        room.program = word.bytes;
        return Ok(());
    }
    match String::from_utf8(word.bytes) {
        Ok(word) => direct_by(room, name, word),
        Err(_) => Err(Wrong::Line("the word of a directive is UTF-8")),
    }
}

// A directive with a word.
fn direct_by(room: &mut Room, name: &str, word: String) -> Result<(), Wrong> {
    match name {
        "file" => {
            room.disk.put(&word, b"")?;
            room.block = Block::File(word);
        }
        "later" => {
            room.disk.put_later(&word, b"")?;
            room.block = Block::Later(word);
        }
        "folder" => room.disk.put_folder(&word)?,
        "broken" => room.disk.refuse(&word, Trouble::Broken)?,
        "locked" => room.disk.refuse(&word, Trouble::Locked)?,
        "full" => room.disk.refuse(&word, Trouble::Full)?,
        "kept" => room.disk.refuse(&word, Trouble::Kept)?,
        "files" => room.disk.let_files(number_of(&word)?)?,
        "bytes" => room.disk.let_bytes(number_of(&word)?)?,
        "clock" => room.step = number_of(&word)? as u64,
        "terminal" => match word.as_str() {
            "stdout" => room.has_output_terminal = true,
            "stderr" => room.has_error_terminal = true,
            _ => return Err(Wrong::Line("a terminal is stdout or stderr")),
        },
        _ => return Err(Wrong::Line("there is no such directive")),
    }
    Ok(())
}

fn number_of(word: &str) -> Result<usize, Wrong> {
    match word.parse() {
        Ok(number) => Ok(number),
        Err(_) => Err(Wrong::Line("this is no number")),
    }
}

//! A command line of a case, and what a shell would make of its signs.

use crate::words::{Word, words_of};
use crate::wrong::Wrong;
use std::alloc::Global;
use testkit::process::Sink;

/// A command line of `keyed`.
#[derive(Drop)]
pub struct Command {
    /// The words after the name of the program.
    pub words: Vec<Vec<u8>>,
    /// What the variable `NO_COLOR` is set to.
    pub no_color: Option<Vec<u8>>,
    /// What the variable `COLUMNS` is set to.
    pub columns: Option<Vec<u8>>,
    /// The name of the file that is the standard input.
    pub stdin: Option<Vec<u8>>,
    /// What the standard output is, where it is said.
    pub stdout: Option<Sink>,
}

// What a word means.
#[derive(Clone, Copy)]
enum Role {
    // The name of the program is to come.
    Program,
    Word,
    // After `<`, `>` and `|`.
    Input,
    Output,
    Reader,
}

const NO_COLOR: &[u8] = b"NO_COLOR=";

const COLUMNS: &[u8] = b"COLUMNS=";

/// What a line says that stands after `$`.
///
/// # Errors
///
/// Returns the errors of `words_of`, and `Line` if it runs another program, or a sign leads to what there is not.
pub fn command_of(alloc: Global, line: &str) -> Result<Command, Wrong> {
    let mut command = Command {
        words: Vec::new(alloc),
        no_color: None,
        columns: None,
        stdin: None,
        stdout: None,
    };
    let mut role = Role::Program;
    for word in words_of(alloc, line)? {
        role = command.take(alloc, role, word)?;
    }
    match role {
        Role::Word => Ok(command),
        _ => Err(Wrong::Line("a word is missing at the end")),
    }
}

impl Command {
    // Takes a word, and returns what the next one means.
    fn take(&mut self, alloc: Global, role: Role, word: Word) -> Result<Role, Wrong> {
        let Word { bytes, is_bare } = word;
        match role {
            Role::Program => match bytes.as_slice() {
                b"keyed" => Ok(Role::Word),
                text => {
                    self.set(alloc, text)?;
                    Ok(Role::Program)
                }
            },
            Role::Word => match bytes.as_slice() {
                b"<" if is_bare => Ok(Role::Input),
                b">" if is_bare => Ok(Role::Output),
                b"|" if is_bare => Ok(Role::Reader),
                _ => {
                    self.words.push(bytes)?;
                    Ok(Role::Word)
                }
            },
            Role::Input => {
                self.stdin = Some(bytes);
                Ok(Role::Word)
            }
            Role::Output => self.lead("/dev/full", Sink::Full, bytes),
            Role::Reader => self.lead("true", Sink::Left, bytes),
        }
    }

    // Sets the variable that a word before the name of the program sets.
    fn set(&mut self, alloc: Global, text: &[u8]) -> Result<(), Wrong> {
        if let Some(value) = text.strip_prefix(NO_COLOR) {
            self.no_color = Some(Vec::from_slice(alloc, value)?);
            return Ok(());
        }
        match text.strip_prefix(COLUMNS) {
            Some(value) => {
                self.columns = Some(Vec::from_slice(alloc, value)?);
                Ok(())
            }
            None => Err(Wrong::Line(
                "it is keyed that is run, behind NO_COLOR=.. and COLUMNS=.. at most",
            )),
        }
    }

    // Leads the output to this sink, where the word says so.
    fn lead(&mut self, name: &str, sink: Sink, word: Vec<u8>) -> Result<Role, Wrong> {
        if word.as_slice() != name.as_bytes() {
            return Err(Wrong::Line("the output goes > /dev/full or | true, or is shown"));
        }
        self.stdout = Some(sink);
        Ok(Role::Word)
    }
}

//! What stands around the commands of a part of a case file, and a run of one in it.

use crate::command::Command;
use crate::escapes::put_lines;
use crate::wrong::Wrong;
use std::alloc::{AllocError, Global};
use std::fmt::Write;
use std::io;
use testkit::disk::{Disk, Found};
use testkit::process::{Process, Sink, World};

/// What the lines after `|` are put into.
#[derive(Drop)]
pub enum Block {
    /// Nothing: no directive before them takes any.
    Nothing,
    /// The file of this name.
    File(String),
    /// What the file of this name holds when it is opened again.
    Later(String),
    /// The standard input.
    Stdin,
}

/// The files, the standard streams and the clock of a part of a case file.
#[derive(Drop)]
pub struct Room {
    alloc: Global,
    /// Its files.
    pub disk: Disk,
    /// What the standard input holds.
    pub stdin: Vec<u8>,
    /// What lines are put into.
    pub block: Block,
    /// The name by which the program is called.
    pub program: Vec<u8>,
    /// Whether the standard output is a terminal.
    pub has_output_terminal: bool,
    /// Whether the standard error is one.
    pub has_error_terminal: bool,
    /// How many thousandths of a second are from one look at the clock to the next.
    pub step: u64,
}

// What came of a command.
#[derive(Drop)]
struct Outcome {
    status: u8,
    output: Vec<u8>,
    said: String,
}

impl Room {
    /// A room with no file.
    ///
    /// # Errors
    ///
    /// Returns `AllocError` if a request for memory was refused.
    pub fn new(alloc: Global) -> Result<Self, AllocError> {
        Ok(Room {
            alloc,
            disk: Disk::new(alloc),
            stdin: Vec::new(alloc),
            block: Block::Nothing,
            program: Vec::from_slice(alloc, b"keyed")?,
            has_output_terminal: false,
            has_error_terminal: false,
            step: 0,
        })
    }

    /// Puts bytes where the last directive says.
    ///
    /// # Errors
    ///
    /// Returns `Line` if it takes none, and `Io` if a request for memory was refused.
    pub fn put(&mut self, bytes: &[u8]) -> Result<(), Wrong> {
        let is_there = match &self.block {
            Block::Nothing => false,
            Block::File(name) => self.disk.put_more(name, bytes)?,
            Block::Later(name) => self.disk.put_later(name, bytes)?,
            Block::Stdin => {
                self.stdin.extend_from_slice(bytes)?;
                true
            }
        };
        if is_there {
            Ok(())
        } else {
            Err(Wrong::Line("no file stands before this line that it is of"))
        }
    }

    /// Runs a command, and puts what it comes to after a transcript: what is on its output, on its standard error, each file that it made
    /// or changed, and its status.
    ///
    /// # Errors
    ///
    /// Returns `Line` if the file of its standard input is not there, and `Io` if a request for memory was refused.
    pub fn run(&mut self, command: &Command, transcript: &mut String) -> Result<(), Wrong> {
        let before = self.disk.names()?;
        let outcome = self.outcome(command)?;
        put_lines(transcript, '>', &outcome.output)?;
        put_lines(transcript, '!', outcome.said.as_bytes())?;
        for found in self.disk.take_changed()? {
            put_found(transcript, &found)?;
        }
        let behind = self.disk.names()?;
        for name in &before {
            if !behind.iter().any(|other| other.as_str() == name.as_str()) {
                writeln!(transcript, "gone {name}")?;
            }
        }
        writeln!(transcript, "status {}", outcome.status)?;
        Ok(())
    }

    fn outcome(&self, command: &Command) -> Result<Outcome, Wrong> {
        let words = self.words_of(command)?;
        let stdin = self.stdin_of(command)?;
        let world = World {
            words: &words,
            no_color: bytes_of(&command.no_color),
            columns: bytes_of(&command.columns),
            stdin: &stdin,
            stdout: self.sink_of(command),
            has_terminal: self.has_error_terminal,
            step: self.step,
        };
        Ok(outcome_in(self.alloc, world, &self.disk)?)
    }

    fn words_of(&self, command: &Command) -> Result<Vec<Vec<u8>>, AllocError> {
        let mut words = Vec::new(self.alloc);
        words.push(Vec::from_slice(self.alloc, &self.program)?)?;
        for word in &command.words {
            words.push(Vec::from_slice(self.alloc, word)?)?;
        }
        Ok(words)
    }

    fn stdin_of(&self, command: &Command) -> Result<Vec<u8>, Wrong> {
        let Some(name) = &command.stdin else {
            return Ok(Vec::from_slice(self.alloc, &self.stdin)?);
        };
        let bytes = match str::from_utf8(name) {
            Ok(name) => self.disk.bytes_of(name)?,
            Err(_) => None,
        };
        match bytes {
            Some(bytes) => Ok(bytes),
            None => Err(Wrong::Line("there is no file that could be the standard input")),
        }
    }

    fn sink_of(&self, command: &Command) -> Sink {
        match command.stdout {
            Some(sink) => sink,
            None if self.has_output_terminal => Sink::Terminal,
            None => Sink::Pipe,
        }
    }
}

fn outcome_in(alloc: Global, world: World<'_>, disk: &Disk) -> io::Result<Outcome> {
    let process = Process::new(alloc, world, disk);
    let mut output = process.output();
    let errors = process.errors();
    let status = keyed_run::run(&process, &mut output, &errors);
    let (printed, said) = process.into_texts();
    output.bytes.extend_from_slice(printed.as_bytes())?;
    Ok(Outcome {
        status,
        output: output.bytes,
        said,
    })
}

// Puts a file with what it holds, or a folder.
fn put_found(transcript: &mut String, found: &Found) -> Result<(), AllocError> {
    let Found {
        name,
        bytes,
        is_folder,
    } = found;
    if *is_folder {
        writeln!(transcript, "folder {name}")
    } else {
        writeln!(transcript, "file {name}")?;
        put_lines(transcript, '|', bytes)
    }
}

// The bytes of a value, if there is one.
fn bytes_of(value: &Option<Vec<u8>>) -> Option<&[u8]> {
    match value {
        Some(value) => Some(value.as_slice()),
        None => None,
    }
}

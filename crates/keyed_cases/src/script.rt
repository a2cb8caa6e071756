//! A case file, line by line, and its transcript: each command with what came of it, and what is for the reader.
//!
//! - `# ..` is for the reader. The first line is one: it says what the file shows.
//! - `## ..` begins a part, with a new disk. What stands before the first `##` is in each part.
//! - `$ keyed ..` is a command, split as a shell splits it: `'..'`, `".."`, and `$'..'` with escapes. Beside it may stand `NO_COLOR=1` and
//!   `COLUMNS=80` before `keyed`, and `< NAME`, `> /dev/full` or `| true` after, for a file that is the standard input, and an output that
//! is   full or left.
//!   What it writes stands after `>`, what it says after `!`, then each file that it made or changed, and its status.
//! - `file NAME` puts a file on the disk, whose lines follow, each after `|`. `\n`, `\r`, `\t`, `\0`, `\\`, `\xHH` and `\u{H}` are escapes,
//! and   a lone backslash at the end takes the line end off. `|0..600 k###,p` is a line for each of these numbers, of three digits.
//! - `stdin` and `later NAME` take lines too: what the standard input holds, and what a file holds when it is opened again.
//! - `folder NAME` makes a folder. Of what lies there, or of a file, `broken NAME` fails to be read to its end, and `locked NAME`, `full NAME`
//!   and `kept NAME` refuse a new file, a byte and a file in the place of another. `files N` and `bytes N` are what the disk takes at most.
//! - `terminal stdout`, `terminal stderr`: a stream that is a terminal. `clock N`: from one look at the clock to the next are N thousandths of
//!   a second. `called NAME`: the name of the program.

use crate::command::command_of;
use crate::directives::set;
use crate::room::Room;
use crate::wrong::Wrong;
use std::alloc::Global;
use std::fmt::Write;

// Where in a case file the next line stands.
#[derive(Clone, Copy, PartialEq, Eq)]
enum Place {
    Title,
    Head,
    Part,
}

/// What is read of a case file.
#[derive(Drop)]
pub struct Script<'t> {
    alloc: Global,
    room: Option<Room>,
    // The directives before the first part.
    head: Vec<&'t str>,
    place: Place,
    // Whether the last line of the transcript is a blank one.
    is_blank: bool,
    /// What is to be printed of it.
    pub transcript: String,
    /// How many commands were run.
    pub commands: usize,
}

impl<'t> Script<'t> {
    /// A case file of which nothing is read.
    pub fn new(alloc: Global) -> Self {
        Script {
            alloc,
            room: None,
            head: Vec::new(alloc),
            place: Place::Title,
            is_blank: true,
            transcript: String::new(alloc),
            commands: 0,
        }
    }

    /// Takes the next line.
    ///
    /// # Errors
    ///
    /// Returns `Line` if it means nothing, and `Io` if a request for memory was refused.
    pub fn take(&mut self, line: &'t str) -> Result<(), Wrong> {
        if line.is_empty() {
            return self.put_blank();
        }
        if self.place == Place::Title {
            if !line.starts_with("# ") {
                return Err(Wrong::Line("the first line is a heading, behind #"));
            }
            self.place = Place::Head;
        }
        if line.starts_with("## ") {
            self.put_blank()?;
            self.begin_part()?;
        }
        if line.starts_with('#') {
            return self.put_line(line);
        }
        match line.strip_prefix("$ ") {
            Some(command) => {
                self.put_line(line)?;
                self.run(command)
            }
            None => self.set(line),
        }
    }

    // Puts a line that is for the reader too.
    fn put_line(&mut self, line: &str) -> Result<(), Wrong> {
        writeln!(self.transcript, "{line}")?;
        self.is_blank = false;
        Ok(())
    }

    // Puts a blank line, unless there is one.
    fn put_blank(&mut self) -> Result<(), Wrong> {
        if !self.is_blank {
            self.transcript.push('\n')?;
            self.is_blank = true;
        }
        Ok(())
    }

    // Begins a part, with what stands before the first one.
    fn begin_part(&mut self) -> Result<(), Wrong> {
        self.place = Place::Part;
        let mut room = Room::new(self.alloc)?;
        for line in &self.head {
            set(self.alloc, &mut room, line)?;
        }
        self.room = Some(room);
        Ok(())
    }

    fn set(&mut self, line: &'t str) -> Result<(), Wrong> {
        if self.place == Place::Head {
            self.head.push(line)?;
        }
        match &mut self.room {
            Some(room) => set(self.alloc, room, line),
            None => {
                let mut room = Room::new(self.alloc)?;
                let outcome = set(self.alloc, &mut room, line);
                self.room = Some(room);
                outcome
            }
        }
    }

    fn run(&mut self, line: &str) -> Result<(), Wrong> {
        let command = command_of(self.alloc, line)?;
        match &mut self.room {
            Some(room) => room.run(&command, &mut self.transcript)?,
            None => {
                let mut room = Room::new(self.alloc)?;
                room.run(&command, &mut self.transcript)?;
                self.room = Some(room);
            }
        }
        self.commands = self.commands.saturating_add(1);
        self.put_blank()
    }
}

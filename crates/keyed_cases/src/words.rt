//! The words of a line, as a shell splits it: `'..'` and `".."` are as they stand, and `$'..'` has escapes. What a shell would take for
//! more than itself stands in quotes.

use crate::escapes::meant;
use crate::wrong::Wrong;
use std::alloc::Global;

/// A word of a line.
#[derive(Drop)]
pub struct Word {
    /// What it means.
    pub bytes: Vec<u8>,
    /// Whether no part of it stands in quotes.
    pub is_bare: bool,
}

// Where in a line the next character stands.
#[derive(Clone, Copy)]
enum Place {
    Between,
    Bare,
    // After `$`.
    Dollar,
    Single,
    Double,
    // In `$'..'`.
    Escaped,
}

#[derive(Drop)]
struct Splitter {
    alloc: Global,
    words: Vec<Word>,
    bytes: Vec<u8>,
    // What stands in `$'..'`.
    escaped: String,
    place: Place,
    is_bare: bool,
}

/// The words of a line.
///
/// # Errors
///
/// Returns `Line` if a quote is not closed, an escape is none or a character needs quotes, and `Io` if a request for memory was refused.
pub fn words_of(alloc: Global, line: &str) -> Result<Vec<Word>, Wrong> {
    let mut splitter = Splitter {
        alloc,
        words: Vec::new(alloc),
        bytes: Vec::new(alloc),
        escaped: String::new(alloc),
        place: Place::Between,
        is_bare: true,
    };
    for c in line.chars() {
        splitter.take(c)?;
    }
    splitter.finish()
}

impl Splitter {
    fn take(&mut self, c: char) -> Result<(), Wrong> {
        match self.place {
            Place::Between | Place::Bare => self.take_bare(c),
            Place::Dollar if c == '\'' => {
                self.place = Place::Escaped;
                Ok(())
            }
            Place::Dollar => Err(Wrong::Line("$ stands before a quote alone")),
            Place::Single if c == '\'' => self.close(),
            Place::Double if c == '"' => self.close(),
            Place::Double if c == '$' || c == '`' || c == '\\' => {
                Err(Wrong::Line("a shell would take $, ` or \\ in \"..\" for more"))
            }
            Place::Single | Place::Double => self.put(c),
            Place::Escaped if c == '\'' => {
                let meant = meant(self.alloc, &self.escaped)?;
                self.bytes.extend_from_slice(&meant.bytes)?;
                self.escaped = String::new(self.alloc);
                self.close()
            }
            Place::Escaped => {
                self.escaped.push(c)?;
                Ok(())
            }
        }
    }

    fn take_bare(&mut self, c: char) -> Result<(), Wrong> {
        match c {
            ' ' => self.end_word(),
            '\'' => self.open(Place::Single),
            '"' => self.open(Place::Double),
            '$' => self.open(Place::Dollar),
            '<' | '>' | '|' => {
                self.place = Place::Bare;
                self.put(c)
            }
            _ if is_plain(c) => {
                self.place = Place::Bare;
                self.put(c)
            }
            _ => Err(Wrong::Line("this character stands in quotes, as in a shell")),
        }
    }

    fn open(&mut self, place: Place) -> Result<(), Wrong> {
        self.place = place;
        self.is_bare = false;
        Ok(())
    }

    fn close(&mut self) -> Result<(), Wrong> {
        self.place = Place::Bare;
        Ok(())
    }

    fn put(&mut self, c: char) -> Result<(), Wrong> {
        let text = c.to_string(self.alloc)?;
        self.bytes.extend_from_slice(text.as_bytes())?;
        Ok(())
    }

    // Ends a word, if one has begun.
    fn end_word(&mut self) -> Result<(), Wrong> {
        if let Place::Between = self.place {
            return Ok(());
        }
        if self.is_bare && self.bytes.len() > 1 {
            if self
                .bytes
                .iter()
                .any(|byte| matches!(*byte, b'<' | b'>' | b'|'))
            {
                return Err(Wrong::Line("spaces stand around <, > and |, or quotes"));
            }
        }
        let bytes = std::mem::replace(&mut self.bytes, Vec::new(self.alloc));
        self.words.push(Word {
            bytes,
            is_bare: self.is_bare,
        })?;
        self.place = Place::Between;
        self.is_bare = true;
        Ok(())
    }

    fn finish(mut self) -> Result<Vec<Word>, Wrong> {
        match self.place {
            Place::Between | Place::Bare => {
                self.end_word()?;
                Ok(self.words)
            }
            _ => Err(Wrong::Line("a quote is not closed")),
        }
    }
}

// Whether a shell takes a character for itself alone.
fn is_plain(c: char) -> bool {
    c.is_ascii_alphanumeric() || "-_+=.,:/@%^".contains(c) || !c.is_ascii()
}

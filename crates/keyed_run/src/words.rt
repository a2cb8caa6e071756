//! The words of the command line, and what becomes of those that are no text.

use keyed_commands::{Asked, Reason, Shown};
use std::alloc::{AllocError, Global};
use std::env::FillError;
use std::io::ErrorKind;
use std::rt::Env;

// How many bytes a word may have to be shown: no system here takes a longer one.
const LONGEST: usize = 131_072;

/// The words of a command line.
#[derive(Drop)]
pub enum Words {
    /// The name of the program and the others.
    Text(Vec<String>),
    /// Not all of them are UTF-8.
    NoText(ShownWords),
}

/// The words of a command line, of which some are not UTF-8: these are escaped.
#[derive(Drop)]
pub struct ShownWords {
    /// The name of the program and the others.
    pub words: Vec<String>,
    // Where the words stand that are escaped.
    escaped: Vec<usize>,
}

/// The words of the command line.
///
/// # Errors
///
/// Returns `NoMemory`, or `Io` with the error of the call, if a request for memory was refused, and `Io` if a word that is not UTF-8 has
/// more than 131,072 bytes.
pub fn words_of<R: Env + AllocGlobal>(rt: &R) -> Result<Words, Reason> {
    match std::env::args(rt) {
        Ok(words) => Ok(Words::Text(words.collect(rt.alloc())?)),
        Err(error) if error.kind() == ErrorKind::InvalidData => match shown_words(rt)? {
            Some(shown) => Ok(Words::NoText(shown)),
            None => Err(Reason::Io(error)),
        },
        Err(error) => Err(Reason::Io(error)),
    }
}

// The words of the command line, each as it is or escaped, unless one is too long.
fn shown_words<R: Env + AllocGlobal>(rt: &R) -> Result<Option<ShownWords>, AllocError> {
    let alloc = rt.alloc();
    let mut bytes: Vec<u8> = vec![in alloc; 0; LONGEST]?;
    let mut shown = ShownWords {
        words: Vec::new(alloc),
        escaped: Vec::new(alloc),
    };
    for place in 0..usize::MAX {
        match rt.arg(place, &mut bytes) {
            Ok(length) => shown.put(alloc, place, bytes.get(..length).unwrap_or(&[]))?,
            Err(FillError::TooLong) => return Ok(None),
            Err(FillError::NotPresent) => break,
        }
    }
    Ok(Some(shown))
}

impl ShownWords {
    // Puts the word at this place after the others.
    fn put(&mut self, alloc: Global, place: usize, word: &[u8]) -> Result<(), AllocError> {
        match std::str::from_utf8(word) {
            Ok(text) => self.words.push(String::from_str(alloc, text)?)?,
            Err(_) => {
                self.escaped.push(place)?;
                self.words.push(format!(in alloc; "{}", Shown(word))?)?;
            }
        }
        Ok(())
    }

    /// What is said of the first word that is not UTF-8: its place after the name of the program, and its bytes, escaped.
    ///
    /// # Errors
    ///
    /// Returns `AllocError` if a request for memory was refused.
    pub fn said(&self, alloc: Global) -> Result<String, AllocError> {
        for place in &self.escaped {
            if let Some(word) = self.words.get(*place) {
                return format!(in alloc;
                    "word {place}, {word}, is not UTF-8: give the file as -, by < FILE"
                );
            }
        }
        String::from_str(alloc, "a word is not UTF-8")
    }

    /// What git asks for by these words, if it asks. The path of a table may be any bytes, and is shown; a file whose name is not UTF-8
    /// can't be opened: then there is nothing to compare, and nothing to merge.
    pub fn asked_by_git<'a>(&self, asked: &Asked<'a>) -> Option<Asked<'a>> {
        match asked {
            Asked::GitDiff {
                settings,
                how,
                diff,
            } => Some(if self.has_escaped(diff.old) || self.has_escaped(diff.new) {
                Asked::GitUnopened { diff: *diff }
            } else {
                Asked::GitDiff {
                    settings: *settings,
                    how: *how,
                    diff: *diff,
                }
            }),
            Asked::GitMerge {
                settings,
                how,
                merge,
            } => {
                let files = [merge.base, merge.ours, merge.theirs];
                if files.iter().any(|file| self.has_escaped(file)) {
                    None
                } else {
                    Some(Asked::GitMerge {
                        settings: *settings,
                        how: *how,
                        merge: *merge,
                    })
                }
            }
            Asked::GitUnmerged { path } => Some(Asked::GitUnmerged { path: *path }),
            _ => None,
        }
    }

    // Whether this is a word that is escaped.
    fn has_escaped(&self, word: &str) -> bool {
        self.escaped.iter().any(|place| {
            match self.words.get(*place) {
                Some(shown) => shown.as_str() == word,
                None => false,
            }
        })
    }
}

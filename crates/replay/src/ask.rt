//! A line taken apart, and its answer as text.

use crate::calls::Calls;
use crate::functions::Function;
use crate::read::Held;
use std::alloc::{AllocError, Global};
use std::fmt::Debug;

/// Why a line has no answer.
#[derive(Debug, Drop)]
pub enum Refused {
    /// It has a call or a value that is not known.
    Line,
    /// A request for memory was refused.
    Memory,
}

impl From<AllocError> for Refused {
    fn from(_refused: AllocError) -> Self {
        Refused::Memory
    }
}

/// The answer as text, and None where the call is one of another family.
pub type Said = Result<Option<String>, Refused>;

/// A line: `value.call(args)`.
#[derive(Drop)]
pub struct Ask<'a> {
    /// The value that the call is made on.
    pub value: &'a str,
    /// The name of the call.
    pub call: &'a str,
    /// Its arguments.
    pub args: &'a str,
    /// The calls of functions that the call makes.
    pub calls: Calls,
}

impl<'a> Ask<'a> {
    /// The parts of a line.
    pub fn read(alloc: Global, line: &'a str) -> Option<Ask<'a>> {
        let (value, rest) = line.split_once('.')?;
        let (call, args) = rest.strip_suffix(')')?.split_once('(')?;
        Some(Ask {
            value,
            call,
            args,
            calls: Calls::new(alloc),
        })
    }

    /// Where memory is taken.
    pub fn alloc(&self) -> Global {
        self.calls.alloc()
    }

    // The first argument and the last one: the same, where there is one.
    fn words(&self) -> (&'a str, &'a str) {
        self.args.split_once(", ").unwrap_or((self.args, self.args))
    }

    /// The functions of left and of right values: the first argument and the last one, but for a value before them.
    pub fn functions(&self) -> (Function<'_>, Function<'_>) {
        let (first, last) = self.words();
        let first = if is_value(first) { last } else { first };
        (
            Function::new(first, &self.calls),
            Function::new(last, &self.calls),
        )
    }

    /// The functions of nothing that give the first argument and the last one, but for a function after them.
    pub fn makers(&self) -> (Function<'_>, Function<'_>) {
        let (first, last) = self.words();
        let last = if is_value(last) { last } else { first };
        (
            Function::new(first, &self.calls),
            Function::new(last, &self.calls),
        )
    }

    /// The first argument, as a value.
    pub fn first<T: Held>(&self) -> Result<T, Refused> {
        T::read(self.alloc(), self.words().0)
    }

    /// The last argument, as a value.
    pub fn last<T: Held>(&self) -> Result<T, Refused> {
        T::read(self.alloc(), self.words().1)
    }

    /// An answer as text.
    pub fn show<D: Debug + Drop>(&self, answer: D) -> Said {
        let alloc = self.alloc();
        Ok(Some(format!(in alloc; "{answer:?}")?))
    }

    /// The answer where the original panics, and the caller of this library has nothing to call.
    pub fn panics(&self) -> Said {
        Ok(Some(String::from_str(self.alloc(), "panics")?))
    }

    /// An answer as text, and what is left in place.
    pub fn show_left<D: Debug + Drop>(&self, answer: D, left: &impl Debug) -> Said {
        let alloc = self.alloc();
        Ok(Some(format!(in alloc; "{answer:?} leaves {left:?}")?))
    }

    /// The answer, and after it the calls of functions that were made.
    pub fn with_calls(&self, answer: String) -> Result<String, Refused> {
        let calls = self.calls.take();
        if calls.is_empty() {
            return Ok(answer);
        }
        let alloc = self.alloc();
        Ok(format!(in alloc; "{answer} calls {calls}")?)
    }
}

// Whether an argument is a value, and no name of a function.
fn is_value(word: &str) -> bool {
    word.parse::<i32>().is_ok() || word.ends_with("u8") || word.starts_with('\'')
}

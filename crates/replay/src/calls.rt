//! Which functions a call calls, in their order and with what, as the text `next(3) negate(4)`.

use std::alloc::Global;
use std::cell::RefCell;
use std::fmt::Debug;

/// The calls of functions so far. What is refused memory is missing from the text, so that the answers differ.
#[derive(Drop)]
pub struct Calls {
    alloc: Global,
    text: RefCell<String>,
}

impl Calls {
    /// No call, and where the text takes its memory.
    pub fn new(alloc: Global) -> Calls {
        Calls {
            alloc,
            text: RefCell::new(String::new(alloc)),
        }
    }

    /// Where the text takes its memory.
    pub fn alloc(&self) -> Global {
        self.alloc
    }

    /// Records a call of the function `name` with a value.
    pub fn note(&self, name: &str, value: &impl Debug) {
        if let Ok(mut text) = self.text.try_borrow_mut() {
            let text = &mut *text;
            let space = if text.is_empty() { "" } else { " " };
            let _ = write!(text, "{space}{name}({value:?})");
        }
    }

    /// Records a call of the function `name` with two values.
    pub fn note_two(&self, name: &str, first: &impl Debug, second: &impl Debug) {
        if let Ok(mut text) = self.text.try_borrow_mut() {
            let text = &mut *text;
            let space = if text.is_empty() { "" } else { " " };
            let _ = write!(text, "{space}{name}({first:?}, {second:?})");
        }
    }

    /// Records a call of the function `name` with nothing.
    pub fn note_empty(&self, name: &str) {
        if let Ok(mut text) = self.text.try_borrow_mut() {
            let text = &mut *text;
            let space = if text.is_empty() { "" } else { " " };
            let _ = write!(text, "{space}{name}()");
        }
    }

    /// The calls so far, which are forgotten.
    pub fn take(&self) -> String {
        match self.text.try_replace(String::new(self.alloc)) {
            Ok(text) => text,
            Err(empty) => empty,
        }
    }
}

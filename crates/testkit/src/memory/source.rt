//! A source of items for tests of refused requests.

use super::Refusing;
use std::alloc::Global;
use std::cell::Cell;

/// What is seen of the sources of a test: how often they were asked, and whether one was asked after a refusal.
#[derive(Drop)]
pub struct Watch<'a> {
    memory: &'a Refusing<Global>,
    calls: Cell<u64>,
    is_late: Cell<bool>,
}

impl<'a> Watch<'a> {
    /// Watches for refusals of this memory.
    pub fn new(memory: &'a Refusing<Global>) -> Watch<'a> {
        Watch {
            memory,
            calls: Cell::new(0),
            is_late: Cell::new(false),
        }
    }

    /// How often the sources were asked.
    pub fn calls(&self) -> u64 {
        self.calls.get()
    }

    /// Whether one was asked after a refusal.
    pub fn is_late(&self) -> bool {
        self.is_late.get()
    }

    fn see(&self) {
        self.calls.set(self.calls.get().saturating_add(1));
        if self.memory.has_refused() {
            self.is_late.set(true);
        }
    }
}

/// Clones of the items of a list, with no hint. It takes no memory of its own, and ends where a clone is refused.
#[derive(Drop)]
pub struct Source<'a, I> {
    rest: &'a [I],
    watch: &'a Watch<'a>,
}

impl<'a, I> Source<'a, I> {
    /// The items of the list, under this watch.
    pub fn new(items: &'a [I], watch: &'a Watch<'a>) -> Source<'a, I> {
        Source { rest: items, watch }
    }
}

impl<'a, I: Clone> Iterator for Source<'a, I> {
    type Item = I;

    ghost use Rattle.std.specs.Prelude.{length};
    ghost use Rattle.std.specs.Iterator.{at_most};

    ghost remaining = { λ s. at_most (length s.rest.now) };

    fn next(&mut self) -> Option<I> {
        self.watch.see();
        let (first, rest) = self.rest.split_first()?;
        self.rest = rest;
        first.clone().ok()
    }
}

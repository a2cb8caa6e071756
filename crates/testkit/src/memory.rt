//! For tests alone: memory of which a chosen request is refused, and what the tests of refused requests share.
//!
//! [`Refusing`] is the allocator. Lent as a `&Refusing<_>` it is `Copy`, and what is built with it keeps asking it. [`Source`] gives
//! items and sees whether it is asked after a refusal, and [`Tokens`] are values of which each that is alive is counted.

mod runs;
mod source;
mod tokens;

pub use runs::Runs;
pub use source::{Source, Watch};
use std::alloc::{AllocError, Allocator};
use std::cell::Cell;
pub use tokens::Tokens;

/// How many runs a test makes at most, before it gives up.
pub const RUNS: u64 = 99;

// Counts the requests, and refuses the one with a given number.
#[derive(Drop)]
struct Gate {
    asked: Cell<u64>,
    refused: Cell<u64>,
    and_later: Cell<bool>,
}

impl Gate {
    // Counts one request, and says whether it is one to refuse.
    fn refuses(&self) -> bool {
        let asked = self.asked.get().saturating_add(1);
        self.asked.set(asked);
        let number = self.refused.get();
        asked == number || self.and_later.get() && 0 < number && number < asked
    }
}

/// Memory of an inner allocator, of which the request with a given number is refused.
///
/// ```
/// let memory = Refusing::new(alloc);
/// let mut items = Vec::new(&memory);
/// memory.refuse(1);
/// assert!(rt; items.push(7).is_err() && memory.has_refused());
/// assert!(rt; items.push(7).is_ok());
/// ```
#[derive(Drop)]
pub struct Refusing<B: Allocator> {
    inner: B,
    gate: Gate,
}

impl<B: Allocator> Refusing<B> {
    /// Memory of which no request is refused yet.
    pub fn new(inner: B) -> Refusing<B> {
        Refusing {
            inner,
            gate: Gate {
                asked: Cell::new(0),
                refused: Cell::new(0),
                and_later: Cell::new(false),
            },
        }
    }

    /// Counts from 1 again, and refuses the request with this number. At 0 it refuses none.
    pub fn refuse(&self, number: u64) {
        self.gate.asked.set(0);
        self.gate.refused.set(number);
        self.gate.and_later.set(false);
    }

    /// Counts from 1 again, and refuses the request with this number and each one after it. At 0 it refuses none.
    pub fn refuse_from(&self, number: u64) {
        self.refuse(number);
        self.gate.and_later.set(true);
    }

    /// How many requests have come since the last choice of what is refused.
    pub fn asked(&self) -> u64 {
        self.gate.asked.get()
    }

    /// Whether a request has been refused since then.
    pub fn has_refused(&self) -> bool {
        let number = self.gate.refused.get();
        number > 0 && number <= self.asked()
    }

    // Whether requests came after the one that alone was refused.
    fn has_asked_on(&self) -> bool {
        !self.gate.and_later.get() && self.gate.refused.get() < self.asked()
    }

    /// What a run shows that ended like this since then: the whole answer, or None where it stopped at the refusal. Each other
    /// end is wrong.
    pub fn judge<T: Drop>(&self, ended: Result<T, AllocError>) -> Result<Option<T>, Wrong> {
        match ended {
            Ok(_answer) if self.has_refused() => Err(Wrong::Answered),
            Ok(_answer) if self.asked() == 0 => Err(Wrong::NeverAsked),
            Ok(answer) => Ok(Some(answer)),
            Err(AllocError) if !self.has_refused() => Err(Wrong::Refused),
            Err(AllocError) if self.has_asked_on() => Err(Wrong::AskedOn),
            Err(AllocError) => Ok(None),
        }
    }
}

unsafe impl<B: Allocator> Allocator for Refusing<B> {
    ghost dealloc_token = { λ heap ty ptr. B.dealloc_token heap.inner ty ptr };

    fn allocate(&self, size: usize, align: usize) -> Result<*mut u8, AllocError> {
        if self.gate.refuses() {
            return Err(AllocError);
        }
        self.inner.allocate(size, align)
    }

    unsafe fn deallocate(&self, ptr: *mut u8, size: usize, align: usize) {
        self.inner.deallocate(ptr, size, align);
    }
}

/// How a run under [`Refusing`] memory can end wrong.
#[derive(Debug, Clone, Copy, PartialEq, Eq)]
pub enum Wrong {
    /// It answered although a request had been refused.
    Answered,
    /// It gave want of memory although no request had been refused.
    Refused,
    /// It went on asking for memory after the refused request.
    AskedOn,
    /// It asked for no memory, so that none could be refused.
    NeverAsked,
    /// Its whole answer is another one.
    Differs,
    /// It kept a value that it was to drop, or dropped one that it was not to.
    Kept,
}

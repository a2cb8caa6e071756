//! For tests alone: what counts how often it is called. A test lends the count, and reads it afterwards.
ghost use Rattle.std.proofs.Common.{rules};
ghost use Rattle.std.specs.Cmp.Rules.{comparing, hashing};
ghost use Rattle.std.specs.Cmp.{partial_order_from_own_ties};
ghost use Rattle.std.specs.Hash as fed;
ghost use Rattle.std.specs.Ordering.{as_partial_cmp, nat_cmp, on};
ghost use Rattle.std.specs.Prelude.{◌≡◌};

use std::alloc::AllocError;
use std::cell::Cell;
use std::cmp::Ordering;
use std::hash::{Hash, Hasher};

/// How often something was called. It stays at the greatest number that it can tell.
#[derive(Drop)]
pub struct Count(Cell<u32>);

impl Count {
    /// No call.
    pub fn new() -> Count {
        Count(Cell::new(0))
    }

    /// One call more.
    pub fn add_one(&self) {
        self.0.set(self.0.get().saturating_add(1));
    }

    /// How many calls there were since it was made or last cleared.
    pub fn get(&self) -> u32 {
        self.0.get()
    }

    /// Counts from 0 again.
    pub fn clear(&self) {
        self.0.set(0);
    }
}

/// How many clones were made, and how many values were dropped.
#[derive(Drop)]
pub struct Tally {
    cloned: Count,
    dropped: Count,
}

impl Tally {
    /// No clone and no drop.
    pub fn new() -> Tally {
        Tally {
            cloned: Count::new(),
            dropped: Count::new(),
        }
    }

    /// How many clones were made.
    pub fn cloned(&self) -> u32 {
        self.cloned.get()
    }

    /// How many values were dropped.
    pub fn dropped(&self) -> u32 {
        self.dropped.get()
    }
}

/// A value of safe code whose clones and drops are counted in a tally, and whose clone may be refused memory.
pub struct Counted<'a> {
    tally: &'a Tally,
    refuses: bool,
}

impl<'a> Counted<'a> {
    /// A value whose clone is refused if `refuses` says so.
    pub fn new(tally: &'a Tally, refuses: bool) -> Counted<'a> {
        Counted { tally, refuses }
    }

    /// Whether a clone of it is refused.
    pub fn refuses(&self) -> bool {
        self.refuses
    }
}

impl Clone for Counted<'_> {
    ghost is_clone = { λ value clone. clone ≡ value };

    fn clone(&self) -> Result<Self, AllocError> {
        if self.refuses {
            return Err(AllocError);
        }
        self.tally.cloned.add_one();
        Ok(Counted {
            tally: self.tally,
            refuses: self.refuses,
        })
    }
}

impl Drop for Counted<'_> {
    fn drop(self) {
        let Counted { tally, refuses: _ } = self;
        tally.dropped.add_one();
    }
}

/// A number as key, of which each comparison and each hash is counted.
#[derive(Drop)]
#[derive_where(PartialEq, Eq)]
pub struct Key<'a> {
    pub number: u32,
    #[derive_where(skip)]
    pub count: &'a Count,
}

impl Ord for Key<'_> {
    ghost cmp = { on (λ k. k.number) nat_cmp };

    ghost total = { Prim.search (comparing, rules) };

    ghost matches_partial_cmp = { Prim.search (comparing, rules) };

    ghost matches_eq = { Prim.search (comparing, rules) };

    fn cmp(&self, other: &Self) -> Ordering {
        self.count.add_one();
        self.number.cmp(&other.number)
    }
}

impl PartialOrd for Key<'_> {
    ghost partial_cmp = { as_partial_cmp (on (λ k. k.number) nat_cmp) };

    ghost laws = { partial_order_from_own_ties (Prim.search (comparing, rules))
        (Prim.search (comparing, rules)) };

    fn partial_cmp(&self, other: &Self) -> Option<Ordering> {
        Some(self.cmp(other))
    }
}

impl Hash for Key<'_> {
    ghost hash_input = { λ k. fed.u32 k.number };

    ghost respects_eq = { Prim.search (hashing, rules) };

    fn hash<H: Hasher>(&self, state: &mut H) {
        self.count.add_one();
        self.number.hash(state);
    }
}

/// A hasher that answers how many writes it got.
#[derive(Default, Clone, Copy, Drop)]
pub struct WriteCount {
    writes: u64,
}

impl Hasher for WriteCount {
    ghost use Rattle.std.specs.Prelude.{◌+◌, ◌%◌, ◌^◌};

    ghost write = { λ h _. record { writes = (h.writes + 1) % 2 ^ 64 } };

    ghost finish = { λ h. h.writes };

    fn finish(&self) -> u64 {
        self.writes
    }

    fn write(&mut self, _bytes: &[u8]) {
        self.writes = self.writes.wrapping_add(1);
    }
}

/// How often a side of a walk was asked from its front, and from its back; and where sides share it, in which order.
#[derive(Drop)]
pub struct Asked {
    next: Count,
    next_back: Count,
    order: Cell<u64>,
}

impl Asked {
    /// Asked for nothing.
    pub fn new() -> Asked {
        Asked {
            next: Count::new(),
            next_back: Count::new(),
            order: Cell::new(0),
        }
    }

    /// One call of `next` more, of the side with this digit as its name.
    pub fn add_next(&self, name: u64) {
        self.next.add_one();
        self.write_down(name);
    }

    /// One call of `next_back` more, of the side with this digit as its name.
    pub fn add_next_back(&self, name: u64) {
        self.next_back.add_one();
        self.write_down(name);
    }

    /// The number of calls of `next`, and of `next_back`.
    pub fn calls(&self) -> (usize, usize) {
        (self.next.get() as usize, self.next_back.get() as usize)
    }

    /// The names of the sides that were asked, in order, as the digits of a number.
    pub fn order(&self) -> u64 {
        self.order.get()
    }

    fn write_down(&self, name: u64) {
        self.order
            .set(self.order.get().saturating_mul(10).saturating_add(name));
    }
}

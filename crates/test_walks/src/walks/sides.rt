//! Sides of a walk made for tests: one that counts how often it is asked, and one whose hint is known.

use eob_known_lists::listing::{CountedListing, Listing, OwnListing};
use std::iter::FusedIterator;
use testkit::counts::Asked;

/// The items of a list, which counts how often it is asked in a number that the test lends. It stays ended.
#[derive(Drop)]
pub struct Counting<'a, T> {
    rest: &'a [T],
    asked: &'a Asked,
    name: u64,
}

impl<'a, T> Counting<'a, T> {
    pub fn new(items: &'a [T], asked: &'a Asked) -> Counting<'a, T> {
        Counting::named(items, asked, 0)
    }

    /// The same, which writes down this digit each time that it is asked.
    pub fn named(items: &'a [T], asked: &'a Asked, name: u64) -> Counting<'a, T> {
        Counting {
            rest: items,
            asked,
            name,
        }
    }
}

impl<'a, T: Copy> Iterator for Counting<'a, T> {
    type Item = T;

    ghost use Rattle.std.specs.Iterator.{item_count, YieldsFirst};

    ghost next_gives = { YieldsFirst (λ s. s.rest.now) };

    ghost remaining = { item_count (λ s. s.rest.now) };

    fn next(&mut self) -> Option<T> {
        self.asked.add_next(self.name);
        let (first, rest) = self.rest.split_first()?;
        self.rest = rest;
        Some(*first)
    }

    fn size_hint(&self) -> (usize, Option<usize>) {
        (self.rest.len(), Some(self.rest.len()))
    }
}

impl<'a, T: Copy> DoubleEndedIterator for Counting<'a, T> {
    ghost use Rattle.std.specs.Iterator.{YieldsLast};

    ghost next_back_gives = { YieldsLast (λ s. s.rest.now) };

    fn next_back(&mut self) -> Option<T> {
        self.asked.add_next_back(self.name);
        let (last, rest) = self.rest.split_last()?;
        self.rest = rest;
        Some(*last)
    }
}

impl<'a, T: Copy> ExactSizeIterator for Counting<'a, T> {
    fn len(&self) -> usize {
        self.rest.len()
    }
}

impl<'a, T: Copy> FusedIterator for Counting<'a, T> {}

// It has its list still to come, as a driver asks of the sides of its walk.
impl<'a, T: Copy> Listing for Counting<'a, T> {
    ghost use Rattle.eob_known_lists.specs.Listed.{at_same, uncounted_walk};
    ghost use Rattle.eob_lists.proofs.ShownLemmas.{shown_to_come};

    ghost view = { λ x. x };

    ghost listed = { λ s. s.rest.now };

    ghost comes = { uncounted_walk _ _ (λ x. x) (λ s. s.rest.now)
        (at_same _ _ (λ x. x) _ (shown_to_come (λ s. s.rest.now))) };
}

impl<'a, T: Copy> CountedListing for Counting<'a, T> {
    ghost use Rattle.eob_known_lists.specs.Listed.{at_same};
    ghost use Rattle.eob_lists.proofs.ShownLemmas.{shown_to_come};

    ghost counts = { at_same _ _ (λ x. x) _ (shown_to_come (λ s. s.rest.now)) };
}

impl<'a, T: Copy> OwnListing for Counting<'a, T> {
    ghost use Rattle.std.specs.Prelude.{refl};

    ghost as_is = { λ x. refl };
}

/// A side whose hint is known: endless, or with a number of items left, which a vague one tells as an upper bound alone.
#[derive(Debug, Clone, Copy)]
pub struct Hinted {
    endless: bool,
    left: usize,
    vague: bool,
}

pub const ENDLESS: Hinted = Hinted {
    endless: true,
    left: 0,
    vague: false,
};

impl Hinted {
    pub const fn exact(left: usize) -> Hinted {
        Hinted {
            endless: false,
            left,
            vague: false,
        }
    }

    pub const fn vague(left: usize) -> Hinted {
        Hinted {
            endless: false,
            left,
            vague: true,
        }
    }
}

/// A side with two items.
impl Default for Hinted {
    fn default() -> Hinted {
        Hinted::exact(2)
    }
}

impl Iterator for Hinted {
    type Item = u8;

    ghost use Rattle.std.specs.Prelude.{not};

    ghost remaining = { λ s. record { bounded = not s.endless; bound = s.left } };

    fn next(&mut self) -> Option<u8> {
        if self.endless {
            return Some(0);
        }
        if self.left == 0 {
            return None;
        }
        self.left -= 1;
        Some(0)
    }

    fn size_hint(&self) -> (usize, Option<usize>) {
        if self.endless {
            (usize::MAX, None)
        } else if self.vague {
            (0, Some(self.left))
        } else {
            (self.left, Some(self.left))
        }
    }
}

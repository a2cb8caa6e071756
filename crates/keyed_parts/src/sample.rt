//! A sample of keys, from which boundaries are taken.

use crate::boundaries::Boundaries;
use rand::RngExt;
use rand_core::SeedableRng;
use rand_xoshiro::Xoshiro256PlusPlus;
use std::alloc::{AllocError, Global};
use std::cmp::{OrderedFloat, Reverse};
use std::collections::BinaryHeap;
use std::num::{nearest_u64_to_f64, saturating_f64_to_u64};

// What the generator begins with: two samples of the same keys are the same.
const SEED: u64 = 1;

// The logarithm of a key's priority, by which it is kept, and where the key stands. The least priority is on top.
type Ticket = (Reverse<OrderedFloat<f64>>, usize);

// A key that is kept, with its weight and how many bytes it takes.
#[derive(Drop)]
struct Kept<K> {
    key: K,
    weight: f64,
    bytes: u64,
}

/// A sample of keys that are shown one by one, each kept with a chance that grows with its weight. Where boundaries are taken from it, the
/// parts have about the same weight; how exactly is a matter of luck, and nothing rests on it.
///
/// A key of weight w draws the priority u^(1/w), and the greatest priorities are kept; keys are passed over by jumps of weight, so that few
/// numbers are drawn (A-ExpJ of Efraimidis and Spirakis). Logarithms of priorities are compared, so that none becomes zero. A key that is
/// kept stands for its weight by the chance that it had: for its own weight where all are kept, and for about as much as any other where
/// few are.
///
/// ```
/// let mut sample = Sample::new(alloc, 2, 100);
/// sample.take(5, 10, 1)?;
/// let bounds = sample.into_boundaries(2)?;
/// assert_eq!(rt; bounds.map(|bounds| bounds.part_of(&7)), Some(1));
/// ```
#[derive(Drop)]
pub struct Sample<K> {
    alloc: Global,
    // How many keys there may be, and how many bytes they may take.
    room: usize,
    most: u64,
    bytes: u64,
    tickets: BinaryHeap<Ticket>,
    // The keys, with a gap for each that was given up where they took too many bytes.
    keys: Vec<Option<Kept<K>>>,
    // Whether all keys that were shown are kept.
    is_whole: bool,
    random: Xoshiro256PlusPlus,
    // How much weight is still passed over.
    skip: f64,
}

impl<K: Drop> Sample<K> {
    /// Returns a sample of no key, which keeps so many keys at most, of so many bytes.
    ///
    /// ```
    /// let sample: Sample<u32> = Sample::new(alloc, 2, 100);
    /// assert!(rt; sample.into_boundaries(2)?.is_none());
    /// ```
    pub fn new(alloc: Global, room: usize, most: u64) -> Self {
        Sample {
            alloc,
            room,
            most,
            bytes: 0,
            tickets: BinaryHeap::new(alloc),
            keys: Vec::new(alloc),
            is_whole: true,
            random: Xoshiro256PlusPlus::seed_from_u64(SEED),
            skip: 0.0,
        }
    }

    /// Shows the next key, with its weight and how many bytes it takes.
    ///
    /// # Errors
    ///
    /// `AllocError` if a request for memory was refused.
    ///
    /// ```
    /// let mut sample = Sample::new(alloc, 1, 100);
    /// sample.take(5, 10, 1)?;
    /// sample.take(6, 10, 1)?;
    /// assert!(rt; sample.into_boundaries(2)?.is_some());
    /// ```
    pub fn take(&mut self, key: K, weight: u64, bytes: u64) -> Result<(), AllocError> {
        let weight = nearest_u64_to_f64(weight.max(1));
        if self.tickets.len() < self.room {
            let priority = self.unit().ln() / weight;
            let place = self.keys.len();
            self.keys.push(None)?;
            self.put(priority, place, Kept { key, weight, bytes })?;
            self.jump();
            return Ok(());
        }
        self.is_whole = false;
        self.skip -= weight;
        if self.skip > 0.0 {
            return Ok(());
        }
        if let Some((least, place)) = self.give_up() {
            // A priority that is at least the one that goes.
            let low = (least * weight).exp();
            let priority = (low + (1.0 - low) * self.unit()).ln() / weight;
            self.put(priority, place, Kept { key, weight, bytes })?;
            self.jump();
        }
        Ok(())
    }

    // A number above zero, and one at most.
    fn unit(&mut self) -> f64 {
        let below: f64 = self.random.random();
        1.0 - below
    }

    // Keeps a key. The greatest priorities of a sample are a sample too, so that the least may go where keys are long.
    fn put(&mut self, priority: f64, place: usize, kept: Kept<K>) -> Result<(), AllocError> {
        self.bytes = self.bytes.saturating_add(kept.bytes);
        if let Some(slot) = self.keys.get_mut(place) {
            *slot = Some(kept);
        }
        self.tickets.push((Reverse(OrderedFloat(priority)), place))?;
        for _ in 0..self.tickets.len() {
            if self.bytes <= self.most || self.tickets.len() <= 1 {
                break;
            }
            self.give_up();
            self.is_whole = false;
            self.room = self.tickets.len();
        }
        Ok(())
    }

    // Gives up the key with the least priority, and returns this and where the key stood.
    fn give_up(&mut self) -> Option<(f64, usize)> {
        let (Reverse(OrderedFloat(priority)), place) = self.tickets.pop()?;
        if let Some(slot) = self.keys.get_mut(place) {
            if let Some(kept) = slot.take() {
                self.bytes = self.bytes.saturating_sub(kept.bytes);
            }
        }
        Some((priority, place))
    }

    // Draws how much weight is passed over next.
    fn jump(&mut self) {
        if let Some(least) = self.least() {
            self.skip = self.unit().ln() / least;
        }
    }

    // The logarithm of the least priority that is kept.
    fn least(&self) -> Option<f64> {
        match self.tickets.peek() {
            Some((Reverse(OrderedFloat(least)), _)) => Some(*least),
            None => None,
        }
    }
}

// The weight of all keys for which one of this weight stands, where those with a priority below the least one are given up: its own by
// the chance 1 - least^weight that its priority is greater. Where the two are so small that the chance is zero, that is as much as there
// may be.
fn share_of(weight: f64, least: Option<f64>) -> u64 {
    let share = match least {
        Some(least) => weight / (0.0 - (weight * least).exp_m1()),
        None => weight,
    };
    saturating_f64_to_u64(share).max(1)
}

impl<K: Ord + Clone + Drop> Sample<K> {
    /// Returns the boundaries of so many parts of about the same weight, or `None` where no key was kept. They coincide where a key is
    /// heavier than a part.
    ///
    /// # Errors
    ///
    /// `AllocError` if a request for memory was refused.
    ///
    /// ```
    /// let mut sample = Sample::new(alloc, 4, 100);
    /// for (key, weight) in [(1, 50), (2, 20), (3, 20), (4, 10)] {
    ///     sample.take(key, weight, 1)?;
    /// }
    /// let bounds = sample.into_boundaries(2)?;
    /// assert_eq!(rt; bounds.map(|bounds| (bounds.part_of(&1), bounds.part_of(&2))), Some((0, 1)));
    /// ```
    pub fn into_boundaries(self, parts: usize) -> Result<Option<Boundaries<K>>, AllocError> {
        let alloc = self.alloc;
        let least = if self.is_whole { None } else { self.least() };
        let mut shares = Vec::new(alloc);
        let mut total = 0_u64;
        for kept in self.keys {
            if let Some(kept) = kept {
                let share = share_of(kept.weight, least);
                total = total.saturating_add(share);
                shares.push((kept.key, share))?;
            }
        }
        shares.sort_unstable();
        if shares.is_empty() {
            Ok(None)
        } else {
            Ok(Some(Boundaries::new(cut_evenly(alloc, &shares, total, parts)?)))
        }
    }
}

// The keys at which parts of about the same weight begin, of keys in order, each with its share of the whole. A key of which the greater
// half lies below where a part should begin stands before it; a part that would begin after the last key begins at it.
fn cut_evenly<K: Clone + Drop>(
    alloc: Global,
    shares: &[(K, u64)],
    total: u64,
    parts: usize,
) -> Result<Vec<K>, AllocError> {
    let mut bounds = Vec::new(alloc);
    let mut below = 0_u64;
    for (key, share) in shares.iter() {
        let middle = below.saturating_add(*share / 2);
        for part in bounds.len().saturating_add(1)..parts {
            if middle < weight_below(total, part, parts) {
                break;
            }
            bounds.push(key.clone()?)?;
        }
        below = below.saturating_add(*share);
    }
    if let Some((key, _share)) = shares.last() {
        for _ in bounds.len().saturating_add(1)..parts {
            bounds.push(key.clone()?)?;
        }
    }
    Ok(bounds)
}

// The weight of so many parts of all.
fn weight_below(total: u64, part: usize, parts: usize) -> u64 {
    let below = (total as u128).saturating_mul(part as u128) / (parts as u128).max(1);
    below.min(u64::MAX as u128) as u64
}

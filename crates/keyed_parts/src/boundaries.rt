//! Boundaries between parts, and the part of a key.
ghost use Rattle.std.specs.Prelude.{◌≡◌, ◌≤◌, ◌∷◌, IsPermutation, length};
ghost use Rattle.std.specs.List.Sorted.{IsSorted};
ghost use Rattle.keyed_parts.specs.Boundaries.{IsSorted-prop};
ghost use Rattle.keyed_parts.specs.Parts.{part_in};

/// Keys in order, at each of which a part begins. Equal ones are let stand: between them lies a part of no key.
///
/// ```
/// let bounds = Boundaries::new(vec![in alloc; 20, 10]?);
/// assert!(rt; bounds.part_of(&9) == 0 && bounds.part_of(&10) == 1 && bounds.part_of(&30) == 2);
/// ```
#[derive(Drop)]
pub struct Boundaries<K: Ord> {
    keys: Vec<K>,
    ghost sorted: { IsSorted K.cmp keys.items } by { IsSorted-prop K.cmp keys.items },
}

impl<K: Ord> Boundaries<K> {
    /// Returns these keys as boundaries, in their order. Takes no memory.
    ///
    /// ```
    /// let bounds = Boundaries::new(vec![in alloc; 20, 10]?);
    /// assert_eq!(rt; bounds.keys(), &[10, 20]);
    /// ```
    pub fn new(mut keys: Vec<K>) -> Self
        ensures { IsPermutation keys.items result.keys.items }
    {
        keys.sort_unstable();
        Boundaries { keys }
    }

    /// Returns the boundaries, in order.
    ///
    /// ```
    /// let bounds = Boundaries::new(vec![in alloc; 20, 10]?);
    /// assert!(rt; bounds.keys().first() == Some(&10));
    /// ```
    pub fn keys(&self) -> &[K]
        ensures { result.now ≡ self.now.keys.items }
    {
        &self.keys
    }

    /// Returns how many parts there are: one more than there are boundaries.
    ///
    /// ```
    /// let bounds = Boundaries::new(vec![in alloc; 20, 10]?);
    /// assert!(rt; bounds.count_parts() == 3);
    /// ```
    pub fn count_parts(&self) -> usize {
        self.keys.len().saturating_add(1)
    }

    /// Returns the part of a key: how many boundaries are not above it. Takes a comparison for each bit of their number.
    ///
    /// ```
    /// let bounds = Boundaries::new(vec![in alloc; 10, 10]?);
    /// assert!(rt; bounds.part_of(&9) == 0 && bounds.part_of(&10) == 2);
    /// ```
    pub fn part_of(&self, key: &K) -> usize
        ensures part { result ≡ part_in K.cmp self.now.keys.items key.now }
        ensures bound { result ≤ length self.now.keys.items }
    {
        self.keys.partition_point(|bound| bound.cmp(key).is_le())
    }
}

//! The order in which rows come out: that of their keys, or that of the files.
ghost use Rattle.std.specs.Prelude.{◌≡◌, [], None, Some, IfOk, IsPermutation, OnOk, option_map};
ghost use Rattle.keyed_tables.specs.Arranged.{AreArranged, IsNoted, noted};
ghost use Rattle.keyed_tables.specs.Placed.{placed_noted};

use crate::placed::placed_keys;
use indexmap::IndexSet;
use keyed_rows::Key;
use std::alloc::{AllocError, Global};

/// The keys of the files, in the order in which they stand there first, where rows come out in their order.
#[derive(Drop)]
pub struct Order {
    keys: Option<IndexSet<Key>>,
}

impl Order {
    /// The order of keys.
    pub fn by_key() -> Self
        ensures { noted result ≡ None }
    {
        Order { keys: None }
    }

    /// The order of the files, of which none is read yet.
    pub fn by_file(alloc: Global) -> Self
        ensures { noted result ≡ Some [] }
    {
        Order {
            keys: Some(IndexSet::new(alloc)),
        }
    }

    /// An order of the same kind, that of keys or that of the files, with no file read yet.
    pub fn begun(&self, alloc: Global) -> Self
        ensures { noted result ≡ option_map (λ keys. []) (noted self.now) }
    {
        match &self.keys {
            Some(_) => Order::by_file(alloc),
            None => Order::by_key(),
        }
    }

    /// The order of a table that is merged of two: the keys of ours as they were taken, and each that only theirs has right after the key
    /// that it follows there, or first where it is the first there. It is the order of keys where one of both is.
    ///
    /// # Errors
    ///
    /// Returns `AllocError` if a request for memory was refused.
    pub fn placed(alloc: Global, ours: &Order, theirs: &Order) -> Result<Self, AllocError>
        ensures { IfOk result
            (λ order. noted order ≡ placed_noted ⟦<Key as Eq>⟧.eq (noted ours.now) (noted theirs.now)) }
    {
        match &ours.keys {
            Some(ours) => match &theirs.keys {
                Some(theirs) => Ok(Order {
                    keys: Some(placed_keys(alloc, ours, theirs)?),
                }),
                None => Ok(Order::by_key()),
            },
            None => Ok(Order::by_key()),
        }
    }

    /// Takes the key that is read next. One that was read before keeps its place.
    ///
    /// # Errors
    ///
    /// Returns `AllocError` if a request for memory was refused.
    pub fn note(&mut self, key: &Key) -> Result<(), AllocError>
        ensures { OnOk result
            (IsNoted ⟦<Key as Ord>⟧.cmp ⟦<Key as Eq>⟧.eq key.now (noted self.old) (noted self.new)) }
    {
        if let Some(keys) = &mut self.keys {
            keys.insert(key.clone()?)?;
        }
        Ok(())
    }

    /// Rows that are in the order of their keys, put into this order. A row whose key was not taken would stand before the others.
    ///
    /// # Errors
    ///
    /// Returns `AllocError` if a request for memory was refused.
    pub fn arrange<V: Drop>(&self, mut rows: Vec<(Key, V)>) -> Result<Vec<(Key, V)>, AllocError>
        ensures same { IfOk result (λ arranged. IsPermutation rows.items arranged.items) }
        ensures order { IfOk result
            (λ arranged. AreArranged ⟦<Key as Eq>⟧.eq (noted self.now) rows.items arranged.items) }
    {
        match &self.keys {
            Some(keys) => {
                rows.sort_by_cached_key(|row| keys.get_index_of(&row.0))?;
                Ok(rows)
            }
            None => Ok(rows),
        }
    }
}

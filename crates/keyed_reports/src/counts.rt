//! How many rows changed.
ghost use Rattle.std.specs.Prelude.{◌≡◌, ◌+◌, ◌-◌, ◌^◌, Some, min};
ghost use Rattle.keyed_reports.specs.SaidAfter.{count_added, count_changed, count_removed, count_rows};
ghost use Rattle.keyed_reports.specs.SaidAfter.{counts_of, counts_text};

use eob_joins::Change;
use keyed_rows::{Group, Key};
use std::fmt;

/// How many rows were added, removed, changed and left as they were. Prints as these four numbers, each with its word.
#[derive(Clone, Copy, Debug, PartialEq, Eq)]
pub struct Counts {
    pub added: usize,
    pub removed: usize,
    pub changed: usize,
    pub same: usize,
}

impl Counts {
    /// Of no row.
    pub const NONE: Counts = Counts {
        added: 0,
        removed: 0,
        changed: 0,
        same: 0,
    };

    /// The counts of these rows and of others, each the greatest number there is where it would be more.
    pub fn plus(self, others: Counts) -> Counts
        ensures added { result.added ≡ min (self.added + others.added) (2 ^ 64 - 1) }
        ensures removed { result.removed ≡ min (self.removed + others.removed) (2 ^ 64 - 1) }
        ensures changed { result.changed ≡ min (self.changed + others.changed) (2 ^ 64 - 1) }
        ensures same { result.same ≡ min (self.same + others.same) (2 ^ 64 - 1) }
    {
        Counts {
            added: self.added.saturating_add(others.added),
            removed: self.removed.saturating_add(others.removed),
            changed: self.changed.saturating_add(others.changed),
            same: self.same.saturating_add(others.same),
        }
    }
}

impl fmt::Display for Counts {
    ghost output = { λ counts. Some (counts_text counts) };

    fn fmt<W: fmt::Write>(&self, f: &mut fmt::Formatter<W>) -> fmt::Result {
        write!(
            f,
            "{} added, {} removed, {} changed, {} the same",
            self.added, self.removed, self.changed, self.same
        )
    }
}

/// How many rows a table has, or the greatest number where they are more.
pub fn count_rows(pairs: &[(Key, Group)]) -> usize
    ensures { result ≡ count_rows pairs.now }
{
    let mut count: usize = 0;
    for pair in pairs {
        count = count.saturating_add(pair.1.rows().len());
    }
    count
}

/// The counts of changes to a table that had this many rows, each of one row.
pub fn count<K, V>(old_rows: usize, changes: &[(K, Change<V>)]) -> Counts
    ensures { result ≡ counts_of old_rows changes.now }
{
    let removed = count_removed(changes);
    let changed = count_changed(changes);
    Counts {
        added: count_added(changes),
        removed,
        changed,
        same: old_rows.saturating_sub(removed).saturating_sub(changed),
    }
}

fn count_added<K, V>(changes: &[(K, Change<V>)]) -> usize
    ensures { result ≡ count_added changes.now }
{
    changes.iter().filter(|row| row.1.is_right()).count()
}

fn count_removed<K, V>(changes: &[(K, Change<V>)]) -> usize
    ensures { result ≡ count_removed changes.now }
{
    changes.iter().filter(|row| row.1.is_left()).count()
}

fn count_changed<K, V>(changes: &[(K, Change<V>)]) -> usize
    ensures { result ≡ count_changed changes.now }
{
    changes.iter().filter(|row| row.1.is_both()).count()
}

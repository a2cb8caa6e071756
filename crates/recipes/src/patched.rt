//! A copy of a table brought up to date: what is sent is what changed in the table, and nothing else.
ghost use Rattle.std.specs.Prelude.{◌≡◌};
ghost use Rattle.either_or_both.specs.Prelude.{IfOk, Rising, true, value_under};

use eob_joins::{apply, diff, law_changed_value};
use std::alloc::{AllocError, Global};

/// The copy with the changes from the old version to the new one made to it. Under each key where it had what the old version has, it
/// has what the new one has.
pub fn caught_up<K: Ord + Drop, V: Eq + Drop>(
    alloc: Global,
    copy: Vec<(K, V)>,
    old: Vec<(K, V)>,
    new: Vec<(K, V)>,
) -> Result<Vec<(K, V)>, AllocError>
    requires values { (v w : V) → V.eq v w ≡ true → v ≡ w }
    requires copy { Rising K.cmp copy.items }
    requires old { Rising K.cmp old.items }
    requires new { Rising K.cmp new.items }
    ensures { IfOk result (λ rows. (k : _) → value_under K.cmp copy.items k ≡ value_under K.cmp old.items k
        → value_under K.cmp rows.items k ≡ value_under K.cmp new.items k) }
{
    law_changed_value::<V>();
    let changes = diff(alloc, old, new)?;
    Ok(apply(alloc, copy, changes)?)
}

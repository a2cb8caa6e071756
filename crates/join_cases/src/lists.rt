//! Joins of two lists whose keys strictly increase.

use crate::read::{Wrong, rising, shown, two};
use either_or_both::join::outer_join;
use eob_joins::{anti_join, apply, diff, inner_join, left_join, right_join, semi_join};
use std::alloc::Global;

/// What a call on two lists returns.
pub fn returned(alloc: Global, call: &str, tables: &str) -> Result<String, Wrong> {
    let (left, right) = two(tables)?;
    if call == "apply" {
        return applied(alloc, left, right);
    }
    let left = rising::<u32>(alloc, left)?;
    let right = rising::<u32>(alloc, right)?;
    match call {
        "outer_join" => shown(alloc, &outer_join(alloc, left, right)?),
        "inner_join" => shown(alloc, &inner_join(alloc, left, right)?),
        "left_join" => shown(alloc, &left_join(alloc, left, right)?),
        "right_join" => shown(alloc, &right_join(alloc, left, right)?),
        "semi_join" => shown(alloc, &semi_join(alloc, left, right)?),
        "anti_join" => shown(alloc, &anti_join(alloc, left, right)?),
        _ => shown(alloc, &diff(alloc, left, right)?),
    }
}

// A list with changes made to it.
fn applied(alloc: Global, old: &str, changes: &str) -> Result<String, Wrong> {
    let old = rising::<u32>(alloc, old)?;
    let changes = rising(alloc, changes)?;
    shown(alloc, &apply(alloc, old, changes)?)
}

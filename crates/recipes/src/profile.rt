//! A profile of three layers that are ordered maps: the defaults, the team's over them, the user's over both. Under each name stands the
//! value of the highest layer that has it.
ghost use Rattle.std.specs.Prelude.{◌≡◌};
ghost use Rattle.std.specs.BTreeMap.{get};
ghost use Rattle.either_or_both.specs.Prelude.{IfOk, option_or};

use eob_maps::overlay_maps;
use std::alloc::{AllocError, Global};
use std::collections::BTreeMap;

/// The values that hold.
pub fn profile<K: Ord + Drop, V: Drop>(
    alloc: Global,
    defaults: BTreeMap<K, V>,
    team: BTreeMap<K, V>,
    user: BTreeMap<K, V>,
) -> Result<BTreeMap<K, V>, AllocError>
    ensures { IfOk result (λ all. (k : _) → get K.cmp all k
        ≡ option_or (get K.cmp user k) (option_or (get K.cmp team k) (get K.cmp defaults k))) }
{
    let shared = overlay_maps(alloc, defaults, team)?;
    let all = overlay_maps(alloc, shared, user)?;
    Ok(all)
}

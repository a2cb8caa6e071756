//! Tariffs in two versions that are ordered maps: what changed, by name, with the price before and after. Another copy of the old version
//! is brought up to date by the changes alone, and has then the new version's price under each name.
ghost use Rattle.std.specs.Prelude.{◌≡◌};
ghost use Rattle.std.specs.BTreeMap.{get};
ghost use Rattle.either_or_both.specs.Prelude.{IfOk, from_places, nat_eq, option_and_then, string_cmp};
ghost use Rattle.eob_joins.specs.Changes.{changed};

use eob_joins::Change;
use eob_maps::{apply_map, diff_maps, law_applied_maps};
use eob_sums::law_numbers;
use std::alloc::{AllocError, Global};
use std::collections::BTreeMap;

/// Prices by name.
pub type Tariffs = BTreeMap<String, u64>;

/// The names whose price is not the same in both versions, each with what either version has.
pub fn changed_prices(
    alloc: Global,
    old: Tariffs,
    new: Tariffs,
) -> Result<BTreeMap<String, Change<u64>>, AllocError>
    ensures { IfOk result (λ changes. (k : _) → get string_cmp changes k
        ≡ option_and_then (changed nat_eq) (from_places (get string_cmp old k) (get string_cmp new k))) }
{
    diff_maps(alloc, old, new)
}

/// The copy with the changes from the old version to the new one made to it.
pub fn caught_up(
    alloc: Global,
    copy: Tariffs,
    old: Tariffs,
    new: Tariffs,
) -> Result<Tariffs, AllocError>
    requires { (k : _) → get string_cmp copy k ≡ get string_cmp old k }
    ensures { IfOk result (λ made. (k : _) → get string_cmp made k ≡ get string_cmp new k) }
{
    law_numbers();
    law_applied_maps::<u64>();
    let changes = diff_maps(alloc, old, new)?;
    let made = apply_map(alloc, copy, changes)?;
    Ok(made)
}

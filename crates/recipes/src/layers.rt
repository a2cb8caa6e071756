//! Settings in three layers that are maps: the user's over the site's over the defaults, in the order in which the layers bring them.
ghost use Rattle.either_or_both.specs.Prelude.{IfOk};
ghost use Rattle.eob_joins.specs.MapJoin.{IsMapOverlay};

use eob_joins::overlay_index_maps;
use indexmap::IndexMap;
use std::alloc::{AllocError, Global};
use std::hash::Hash;

/// Each setting of any layer: the user's if it is set, else the site's, else the default.
pub fn settings<K: Eq + Hash + Drop, V: Drop>(
    alloc: Global,
    default: IndexMap<K, V>,
    site: IndexMap<K, V>,
    user: IndexMap<K, V>,
) -> Result<IndexMap<K, V>, AllocError>
    ensures { IfOk result (λ m. (below : _) × IsMapOverlay K.eq default.entries site.entries below
        × IsMapOverlay K.eq below user.entries m.entries) }
{
    let settings = overlay_index_maps(alloc, default, site)?;
    Ok(overlay_index_maps(alloc, settings, user)?)
}

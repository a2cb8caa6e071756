//! Settings in three layers that are ordered maps, each setting with the layer that it comes from.
ghost use Rattle.std.specs.Prelude.{[], ◌∷◌};
ghost use Rattle.either_or_both.specs.Prelude.{IfOk, string_cmp};
ghost use Rattle.eob_joins.specs.Layers.{topmost};
ghost use Rattle.eob_joins.specs.Tables.{Tabulates};

use eob_joins::{Layered, overlay_maps};
use std::alloc::{AllocError, Global};
use std::collections::BTreeMap;

/// A layer of settings, by name.
pub type Settings = BTreeMap<String, String>;

/// Each setting of any layer, in the order of their names: the user's if it is set, else the site's, else the default, with the number of
/// the layer that it is of, from 0 for a default to 2 for the user's.
pub fn settings(
    alloc: Global,
    default: Settings,
    site: Settings,
    user: Settings,
) -> Result<Vec<(String, Layered<String>)>, AllocError>
    ensures { IfOk result (λ rows. Tabulates string_cmp rows.items
        (topmost string_cmp 0 (default ∷ site ∷ user ∷ []))) }
{
    let layers = vec![in alloc; default, site, user]?;
    let settings = overlay_maps(alloc, layers)?;
    Ok(settings)
}

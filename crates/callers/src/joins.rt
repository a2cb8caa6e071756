//! Joins of lists, and what a law tells of them: under which key which value stands, in a map or in a table of one's own.
ghost use Rattle.std.specs.Prelude.{◌≡◌, ◌∷◌, [], IfOk, map, List, Some};
ghost use Rattle.std.specs.BTreeMap.{get};
ghost use Rattle.std.specs.HashMap.{get_by};
ghost use Rattle.std.specs.Option.{option_or};
ghost use Rattle.either_or_both.specs.Places.{from_places};
ghost use Rattle.either_or_both.specs.Join.{Rising, value_under};
ghost use Rattle.either_or_both.specs.JoinLaws.{overlaid};
ghost use Rattle.std.specs.Map.{keys_of};
ghost use Rattle.std.specs.declared.cmp.Ordering.TheVariants.{Equal};
ghost use Rattle.std.specs.List.Sorted.{IsStrictlySortedBy};
ghost use Rattle.eob_joins.specs.Groups.{IsGroupJoin, shown_row};
ghost use Rattle.eob_joins.specs.Tables.{kept};
ghost use Rattle.eob_joins.specs.Versions.{IsMerge, IsMergeByKey};

use either_or_both::EitherOrBoth;
use either_or_both::join::{
    law_join_overlaid, law_rising_hash_map, law_rising_keys, law_rising_map, outer_join,
    outer_join_lazily,
};
use eob_joins::{
    GroupRow, Marked, Merged, Parted, group_join, law_join_self, law_merge, law_ordered_rises,
    part_marked,
};
use indexmap::IndexMap;
use std::alloc::{AllocError, Global};
use std::collections::BTreeMap;
use std::hash::Hash;

/// The join of two lists as an ordered map, which has under each key what the two lists have there.
pub fn map_of_join<K: Ord + Drop, A: Drop, B: Drop>(
    alloc: Global,
    left: Vec<(K, A)>,
    right: Vec<(K, B)>,
) -> Result<BTreeMap<K, EitherOrBoth<A, B>>, AllocError>
    requires left { Rising K.cmp left.items }
    requires right { Rising K.cmp right.items }
    ensures { IfOk result (λ rows. (k : _) → get K.cmp rows k
        ≡ from_places (value_under K.cmp left.items k) (value_under K.cmp right.items k)) }
{
    law_rising_map::<K, EitherOrBoth<A, B>>();
    outer_join_lazily(left, right).collect(alloc)
}

/// The join of two lists as a map in the order of the keys, which has under each key what the two lists have there.
pub fn index_map_of_join<K: Ord + Hash + Drop, A: Drop, B: Drop>(
    alloc: Global,
    left: Vec<(K, A)>,
    right: Vec<(K, B)>,
) -> Result<IndexMap<K, EitherOrBoth<A, B>>, AllocError>
    requires left { Rising K.cmp left.items }
    requires right { Rising K.cmp right.items }
    ensures { IfOk result (λ rows. (k : _) → get_by (K.eq k) rows
        ≡ from_places (value_under K.cmp left.items k) (value_under K.cmp right.items k)) }
{
    law_rising_hash_map::<K, EitherOrBoth<A, B>>();
    outer_join_lazily(left, right).collect(alloc)
}

// A setting by its key: the user's if he has made one, and else the site's.
fn setting<K, V: Drop>(layers: (K, EitherOrBoth<V, V>)) -> (K, V)
    ensures { result ≡ (layers.0, overlaid layers.1) }
{
    let (key, layers) = layers;
    (key, layers.reduce_right(|site| site))
}

/// The settings that hold, of those of the site joined with those of the user.
pub fn topmost<K: Drop, V: Drop>(
    alloc: Global,
    joined: Vec<(K, EitherOrBoth<V, V>)>,
) -> Result<Vec<(K, V)>, AllocError>
    ensures { IfOk result (λ all. all.items ≡ map (λ z. (z.0, overlaid z.1)) joined.items) }
{
    joined.into_iter().map(setting).collect(alloc)
}

/// Settings by key: under each key what the user has set, and else what the site has.
pub fn settings<K: Ord + Drop, V: Drop>(
    alloc: Global,
    site: Vec<(K, V)>,
    user: Vec<(K, V)>,
) -> Result<Vec<(K, V)>, AllocError>
    requires site { Rising K.cmp site.items }
    requires user { Rising K.cmp user.items }
    ensures { IfOk result (λ all. (k : _) → value_under K.cmp all.items k
        ≡ option_or (value_under K.cmp user.items k) (value_under K.cmp site.items k)) }
{
    let joined = outer_join(alloc, site, user)?;
    law_join_overlaid(&joined);
    let all = topmost(alloc, joined)?;
    Ok(all)
}

/// A join whose keys are sorted, as std's ordered maps say it.
pub fn sorted_join<K: Ord + Drop, A: Drop, B: Drop>(
    alloc: Global,
    left: Vec<(K, A)>,
    right: Vec<(K, B)>,
) -> Result<Vec<(K, EitherOrBoth<A, B>)>, AllocError>
    requires left { Rising K.cmp left.items }
    requires right { Rising K.cmp right.items }
    ensures { IfOk result (λ rows. IsStrictlySortedBy K.cmp (keys_of rows.items)) }
{
    law_rising_keys::<K, EitherOrBoth<A, B>>();
    Ok(outer_join(alloc, left, right)?)
}

/// A table compared with a copy of it: each value stands on both sides.
pub fn with_itself<K: Ord + Drop, V: Drop>(
    alloc: Global,
    table: Vec<(K, V)>,
    copy: Vec<(K, V)>,
) -> Result<Vec<(K, EitherOrBoth<V, V>)>, AllocError>
    requires keys { (j k : K) → K.cmp j k ≡ Equal → j ≡ k }
    requires same { copy.items ≡ table.items }
    requires table { Rising K.cmp table.items }
    ensures { IfOk result (λ rows. rows.items ≡ kept (λ v. Some (EitherOrBoth.Both v v)) table.items) }
{
    law_join_self::<K, V>();
    Ok(outer_join(alloc, table, copy)?)
}

/// A group join of tables with strictly increasing keys, which so are ordered.
pub fn group_rising<K: Ord + Drop, A: Drop, B: Drop>(
    alloc: Global,
    left: Vec<(K, A)>,
    right: Vec<(K, B)>,
) -> Result<Vec<GroupRow<K, A, B>>, AllocError>
    requires left { Rising K.cmp left.items }
    requires right { Rising K.cmp right.items }
    ensures { IfOk result (λ rows. IsGroupJoin K.cmp left.items right.items (map shown_row rows.items)) }
{
    law_ordered_rises::<K, A>();
    law_ordered_rises::<K, B>();
    group_join(alloc, left, right)
}

/// Of rows that are written out, one of them in conflict, that one is apart from those that are merged, which stay in their order.
pub fn rows_apart(alloc: Global) -> Result<Parted<u32, u8>, AllocError>
    ensures settled { IfOk result (λ parted. parted.settled.items ≡ (1, 10) ∷ (3, 30) ∷ []) }
    ensures unresolved { IfOk result
        (λ parted. parted.unresolved.items ≡ (2, EitherOrBoth.Both 20 (EitherOrBoth.Left 21)) ∷ []) }
{
    let in_conflict = EitherOrBoth::Both(20, EitherOrBoth::Left(21));
    let rows = vec![in alloc;
        (1, Marked::Settled(10)),
        (2, Marked::Unresolved(in_conflict)),
        (3, Marked::Settled(30)),
    ]?;
    part_marked(alloc, rows)
}

/// What a merge gives, by look-ups, whatever three versions were merged.
pub fn law_merged_by_key<K: Ord, V: Eq>(merge: &Merged<K, V>)
    ensures { (b p q : List (K × V)) → IsMerge K.cmp V.eq b p q merge.now
        → IsMergeByKey K.cmp V.eq b p q merge.now }
{
    law_merge(merge);
}

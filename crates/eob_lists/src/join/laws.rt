//! What follows for every full outer join, as contracts of functions that do nothing.
ghost use Rattle.std.specs.Prelude.{◌≡◌, map};
ghost use Rattle.std.specs.Option.{option_or};
ghost use Rattle.eob_lists.specs.Join.{IsJoin, value_under};
ghost use Rattle.eob_lists.specs.JoinLaws.{IsCallRun, JoinBothLaw, JoinCountsLaw, JoinFlipLaw};
ghost use Rattle.eob_lists.specs.JoinLaws.{JoinLengthLaw, JoinPlacesLaw};
ghost use Rattle.eob_lists.specs.JoinLaws.{JoinSidesLaw, OneJoinLaw, RisingEqMapLaw, RisingKeysLaw};
ghost use Rattle.eob_lists.specs.JoinLaws.{RisingLaw, RisingMapLaw, ShownJoinLaw};
ghost use Rattle.eob_lists.specs.JoinLaws.{ShownRisesLaw, SortedRisesLaw, overlaid};
ghost use Rattle.eob_lists.specs.OuterJoin.{BeginsJoinLaw};

use crate::EitherOrBoth;

/// Two joins of the same lists have equal keys and the same values, place by place.
pub fn law_one_join<K: Ord, A, B>()
    ensures { OneJoinLaw K.cmp A B }
{}

/// Each value of a join has as its places what the two lists have under its key.
pub fn law_join_places<K: Ord, A, B>()
    ensures { JoinPlacesLaw K.cmp A B }
{}

/// The left values of a join are the left list's, in order, and its right values are the right list's.
pub fn law_join_sides<K: Ord, A, B>()
    ensures { JoinSidesLaw K.cmp A B }
{}

/// A join is as long as both lists together, less the keys that they share.
pub fn law_join_length<K: Ord, A, B>()
    ensures { JoinLengthLaw K.cmp A B }
{}

/// A join has a lone left value for each key of the left list alone, a lone right value for each of the right list alone, and Both
/// for each key that they share.
pub fn law_join_counts<K: Ord, A, B>()
    ensures { JoinCountsLaw K.cmp A B }
{}

/// The join of the lists in the other order has the same keys, and each value flipped.
pub fn law_join_flip<K: Ord, A, B>()
    ensures { JoinFlipLaw K.cmp A B }
{}

/// Where the two lists have the same keys, each value of a join is Both.
pub fn law_join_both<K: Ord, A, B>()
    ensures { JoinBothLaw K.cmp A B }
{}

/// A join of two lists whose values are of one type, with each right value over the left one, has under each key what the right list
/// has there, and else what the left list has.
pub fn law_join_overlaid<K: Ord, V>(joined: &[(K, EitherOrBoth<V, V>)])
    ensures { (p : _) (q : _) → IsJoin K.cmp p q joined.now → (k : _)
        → value_under K.cmp (map (λ z. (z.0, overlaid z.1)) joined.now) k
        ≡ option_or (value_under K.cmp q k) (value_under K.cmp p k) }
{}

/// A list strictly increases exactly where each key is less than the next.
pub fn law_rising<K: Ord, V>()
    ensures { RisingLaw K.cmp V }
{}

/// A list whose keys are strictly sorted, as those of an ordered map are, strictly increases.
pub fn law_sorted_rises<K: Ord, V>()
    ensures { SortedRisesLaw K.cmp V }
{}

/// The keys of a strictly increasing list are sorted, and so distinct, in the words of the standard library's ordered maps.
pub fn law_rising_keys<K: Ord, V>()
    ensures { RisingKeysLaw K.cmp V }
{}

/// A strictly increasing list that is collected into an ordered map is found there: the map has under each key what the list has.
/// Called before `collect`.
pub fn law_rising_map<K: Ord, V>()
    ensures { RisingMapLaw K.cmp V }
{}

/// A strictly increasing list that is collected into a hashed map, or into one in the order of insertion, is found there: the map has
/// under each key what the list has. Called before `collect`.
pub fn law_rising_hash_map<K: Ord, V>()
    ensures { RisingEqMapLaw K.cmp V K.eq }
{}

/// What a clause says of the runs of an iterator, it says of the first call of `next`. Called before that call, on the iterator.
// The conclusion repeats the call, since the search takes a law only at a term that shows all its variables.
pub fn law_first_call<I: Iterator>(_walk: &I)
    ensures { (r : _) (t : I) → I.next_gives _walk.now r t
        → I.next_gives _walk.now r t × IsCallRun I.next_gives _walk.now r }
{}

/// Rows are a beginning of a join exactly where some rows after them make it whole.
pub fn law_begins_join<K: Ord, A, B>()
    ensures { BeginsJoinLaw K.cmp A B }
{}

/// A list of references strictly increases where what it shows does.
pub fn law_shown_rises<K: Ord, V>()
    ensures { ShownRisesLaw K.cmp V }
{}

/// What a join of two lists of references shows is the join of what the two lists show.
pub fn law_shown_join<K: Ord, A, B>()
    ensures { ShownJoinLaw K.cmp A B }
{}

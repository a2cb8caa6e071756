//! Laws of the aligned list. Those of its items, of `map` and of references stand in `eob_both`.
ghost use Rattle.eob_lists.specs.AlignedLaws.{AlignedFlipLaw, AlignedSelfLaw, AlignedThreeLaw};
ghost use Rattle.eob_lists.specs.AlignedLaws.{LeftsAloneLaw, RightsAloneLaw};
ghost use Rattle.eob_lists.specs.Laws.{AlignedLaw};

/// The two sides of an aligned list are the lists that were aligned. It is as long as the longer one, and at each index it has the
/// left list's item there and the right list's, each absent past its end.
pub fn law_aligned<L, R>()
    ensures { AlignedLaw L R }
{}

/// Two lists side by side, with the sides exchanged, have each item flipped.
pub fn law_aligned_flip<L, R>()
    ensures { AlignedFlipLaw L R }
{}

/// A list side by side with itself has each item on both sides.
pub fn law_aligned_self<T>()
    ensures { AlignedSelfLaw T }
{}

/// Three lists side by side, the last two aligned first or the first two: at each index stand the same three places, nested the one
/// way or the other.
pub fn law_aligned_three<A, B, C>()
    ensures { AlignedThreeLaw A B C }
{}

/// Values of one side alone have on that side what they were made of, and nothing on the other.
pub fn law_one_sided<L, R>()
    ensures lefts { LeftsAloneLaw L R }
    ensures rights { RightsAloneLaw L R }
{}

//! Values that are walked as a list which is known beforehand.
ghost use Rattle.std.specs.Prelude.{refl, ◌≡◌, ◌-◌, ◌++◌, List, map, reverse};
ghost use Rattle.std.specs.Iterator.Adapters.{rev_source};
ghost use Rattle.std.specs.List.{range_with_len};
ghost use Rattle.std.specs.Option.{option_to_list};
ghost use Rattle.eob_both.specs.Chain.{chain_left, chain_right};
ghost use Rattle.eob_both.specs.Ends.{CountedToCome, StillToCome};
ghost use Rattle.eob_both.specs.Places.{map_places};
ghost use Rattle.eob_both.specs.Values.{values_of};
ghost use Rattle.eob_both.proofs.StdEnds.{ref_to};
ghost use Rattle.eob_known_lists.specs.Arrays.{array_comes};
ghost use Rattle.eob_known_lists.specs.Listed.{at_same, chain_comes, deque_comes, listed_at, once_comes};
ghost use Rattle.eob_known_lists.specs.Listed.{place_as_is, range_comes, rev_comes, rev_counts, same_ref};
ghost use Rattle.eob_known_lists.specs.Listed.{slice_comes, uncounted_walk, values_come, vec_comes};
ghost use Rattle.eob_known_lists.specs.Listed.{walk_comes, walk_lists};

use crate::listed::{CountedIter, ListedIter, OwnIter};
use eob_lists::EitherOrBoth;
use eob_lists::iter::{ChainedIterEitherOrBoth, SwapIterEitherOrBoth};
use std::alloc::Allocator;
use std::collections::VecDeque;
use std::iter::Rev;
use std::ops::Range;

/// What is walked as a known list, from either end.
pub trait Listing: IntoIterator
where
    Self::IntoIter: DoubleEndedIterator,
{
    // How items are read as elements of the list: references are read by what they point to.
    ghost view: { Self.Item → Self.Item };

    // The list.
    ghost listed: { Self → List Self.Item };

    ghost comes: { (x : Self) (s : Self.IntoIter) → Self.into_iter_gives x s
        → StillToCome Self.IntoIter.DoubleEndedIterator view (listed x) s };
}

/// What counts its list too, as the sides of a paired walk do for its back end.
pub trait CountedListing: Listing
where
    Self::IntoIter: DoubleEndedIterator + ExactSizeIterator,
{
    ghost counts: { (x : Self) (s : Self.IntoIter) → Self.into_iter_gives x s
        → CountedToCome Self.IntoIter.DoubleEndedIterator Self.view (Self.listed x) s };
}

/// What is walked by value: its items are the list's own.
pub trait OwnListing: Listing
where
    Self::IntoIter: DoubleEndedIterator,
{
    ghost as_is: { (x : Self.Item) → Self.view x ≡ x };
}

impl<T: Drop, A: Allocator> Listing for Vec<T, A> {
    ghost view = { λ x. x };

    ghost listed = { λ v. v.items };

    ghost comes = { uncounted_walk _ _ (λ x. x) (λ v. v.items)
        (λ x s e. let rest = e.0 in vec_comes x.items s rest) };
}

impl<T: Drop, A: Allocator> CountedListing for Vec<T, A> {
    ghost counts = { λ x s e. let rest = e.0 in vec_comes x.items s rest };
}

impl<T: Drop, A: Allocator> OwnListing for Vec<T, A> {
    ghost as_is = { λ x. refl };
}

impl<T: Drop, const N: usize> Listing for [T; N] {
    ghost view = { λ x. x };

    ghost listed = { λ xs. xs };

    ghost comes = { uncounted_walk _ _ (λ x. x) (λ xs. xs)
        (λ x s e. let rest = e.0 in array_comes x s rest) };
}

impl<T: Drop, const N: usize> CountedListing for [T; N] {
    ghost counts = { λ x s e. let rest = e.0 in array_comes x s rest };
}

impl<T: Drop, const N: usize> OwnListing for [T; N] {
    ghost as_is = { λ x. refl };
}

impl<T: Drop, A: Allocator> Listing for VecDeque<T, A> {
    ghost view = { λ x. x };

    ghost listed = { λ v. v.items };

    ghost comes = { uncounted_walk _ _ (λ x. x) (λ v. v.items)
        (λ x s e. let rest = e.1 in vec_comes x.items s rest) };
}

impl<T: Drop, A: Allocator> CountedListing for VecDeque<T, A> {
    ghost counts = { λ x s e. let rest = e.1 in vec_comes x.items s rest };
}

impl<T: Drop, A: Allocator> OwnListing for VecDeque<T, A> {
    ghost as_is = { λ x. refl };
}

impl<T: Drop> Listing for Option<T> {
    ghost view = { λ x. x };

    ghost listed = { option_to_list };

    ghost comes = { uncounted_walk _ _ (λ x. x) (option_to_list)
        (λ x s e. let rest = e.0 in once_comes x s rest) };
}

impl<T: Drop> CountedListing for Option<T> {
    ghost counts = { λ x s e. let rest = e.0 in once_comes x s rest };
}

impl<T: Drop> OwnListing for Option<T> {
    ghost as_is = { λ x. refl };
}

impl Listing for Range<u32> {
    ghost view = { λ x. x };

    ghost listed = { λ r. range_with_len r.start (r.end - r.start) };

    ghost comes = { uncounted_walk _ _ (λ x. x) (λ r. range_with_len r.start (r.end - r.start))
        (range_comes) };
}

impl CountedListing for Range<u32> {
    ghost counts = { range_comes };
}

impl OwnListing for Range<u32> {
    ghost as_is = { λ x. refl };
}

impl Listing for Range<usize> {
    ghost view = { λ x. x };

    ghost listed = { λ r. range_with_len r.start (r.end - r.start) };

    ghost comes = { uncounted_walk _ _ (λ x. x) (λ r. range_with_len r.start (r.end - r.start))
        (range_comes) };
}

impl CountedListing for Range<usize> {
    ghost counts = { range_comes };
}

impl OwnListing for Range<usize> {
    ghost as_is = { λ x. refl };
}

impl<'a, T> Listing for &'a [T] {
    ghost view = { same_ref };

    ghost listed = { λ s. map ref_to s.now };

    ghost comes = { uncounted_walk _ _ (same_ref) (λ s. map ref_to s.now)
        (λ x s e. let rest = e.0 in slice_comes x.now s rest) };
}

impl<'a, T> CountedListing for &'a [T] {
    ghost counts = { λ x s e. let rest = e.0 in slice_comes x.now s rest };
}

impl<'a, T, A: Allocator> Listing for &'a Vec<T, A> {
    ghost view = { same_ref };

    ghost listed = { λ v. map ref_to v.now.items };

    ghost comes = { uncounted_walk _ _ (same_ref) (λ v. map ref_to v.now.items)
        (λ x s e. let rest = e.0 in slice_comes x.now.items s rest) };
}

impl<'a, T, A: Allocator> CountedListing for &'a Vec<T, A> {
    ghost counts = { λ x s e. let rest = e.0 in slice_comes x.now.items s rest };
}

impl<'a, T, A: Allocator> Listing for &'a VecDeque<T, A> {
    ghost view = { same_ref };

    ghost listed = { λ v. map ref_to v.now.items };

    ghost comes = { uncounted_walk _ _ (same_ref) (λ v. map ref_to v.now.items)
        (λ x s e. let rest = e.0 in deque_comes x.now.items s rest) };
}

impl<'a, T, A: Allocator> CountedListing for &'a VecDeque<T, A> {
    ghost counts = { λ x s e. let rest = e.0 in deque_comes x.now.items s rest };
}

impl<T: Drop> Listing for EitherOrBoth<T, T> {
    ghost view = { λ x. x };

    ghost listed = { values_of };

    ghost comes = { uncounted_walk _ _ (λ x. x) (values_of) (λ x s e. values_come x s e) };
}

impl<T: Drop> CountedListing for EitherOrBoth<T, T> {
    ghost counts = { λ x s e. values_come x s e };
}

impl<T: Drop> OwnListing for EitherOrBoth<T, T> {
    ghost as_is = { λ x. refl };
}

impl<S: CountedIter, T: CountedIter> Listing for SwapIterEitherOrBoth<S, T> {
    ghost view = { map_places S.view T.view };

    ghost listed = { walk_lists S.listed T.listed };

    ghost comes = { uncounted_walk _ _ (map_places S.view T.view) (walk_lists S.listed T.listed)
        (at_same _ _ (map_places S.view T.view) _
        (walk_comes S.DoubleEndedIterator T.DoubleEndedIterator S.view T.view
        S.listed T.listed S.counts T.counts)) };
}

impl<S: CountedIter, T: CountedIter> CountedListing for SwapIterEitherOrBoth<S, T> {
    ghost counts = { at_same _ _ (map_places S.view T.view) _
        (walk_comes S.DoubleEndedIterator T.DoubleEndedIterator S.view T.view
        S.listed T.listed S.counts T.counts) };
}

impl<S: CountedIter + OwnIter, T: CountedIter + OwnIter> OwnListing for SwapIterEitherOrBoth<S, T> {
    ghost as_is = { place_as_is S.view T.view S.as_is T.as_is };
}

impl<S: ListedIter> Listing for ChainedIterEitherOrBoth<S> {
    ghost view = { S.view };

    ghost listed = { λ s. listed_at S.listed (chain_left s) ++ listed_at S.listed (chain_right s) };

    ghost comes = { at_same _ _ S.view _ (chain_comes S.DoubleEndedIterator S.view S.listed S.comes) };
}

impl<S: OwnIter> OwnListing for ChainedIterEitherOrBoth<S> {
    ghost as_is = { S.as_is };
}

impl<I: ListedIter> Listing for Rev<I> {
    ghost view = { I.view };

    ghost listed = { λ s. reverse (I.listed (rev_source s)) };

    ghost comes = { at_same _ _ I.view _ (rev_comes I.DoubleEndedIterator I.view I.listed I.comes) };
}

impl<I: CountedIter> CountedListing for Rev<I> {
    ghost counts = { at_same _ _ I.view _ (rev_counts I.DoubleEndedIterator I.view I.listed I.counts) };
}

impl<I: OwnIter> OwnListing for Rev<I> {
    ghost as_is = { I.as_is };
}

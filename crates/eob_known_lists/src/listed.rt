//! Iterators that have a known list still to come, whatever was called before.
ghost use Rattle.std.specs.Prelude.{refl, ◌≡◌, ◌++◌, List, map, reverse, length, true};
ghost use Rattle.std.specs.Array.Iter.{array_into_iter_items};
ghost use Rattle.std.specs.Iterator.Adapters.{once_item, rev_source, rev_steps};
ghost use Rattle.std.specs.Iterator.Runs.{EachRunFrom};
ghost use Rattle.std.specs.Option.{option_to_list};
ghost use Rattle.std.specs.Slice.Iter.{iter_rest};
ghost use Rattle.std.specs.Vec.Iter.{into_iter_items};
ghost use Rattle.std.specs.VecDeque.Iter.{deque_iter_rest};
ghost use Rattle.eob_both.specs.Chain.{chain_left, chain_right};
ghost use Rattle.eob_both.specs.Ends.{CountedToCome, StillToCome};
ghost use Rattle.eob_both.specs.Places.{map_places};
ghost use Rattle.eob_both.specs.Values.{values_left};
ghost use Rattle.eob_both.proofs.StdEnds.{once_to_come, range_rest, range_to_come, ref_to, vec_to_come};
ghost use Rattle.eob_known_lists.specs.Arrays.{array_to_come};
ghost use Rattle.eob_known_lists.specs.Listed.{chain_comes, deque_to_come_by_ref, listed_at, place_as_is};
ghost use Rattle.eob_known_lists.specs.Listed.{ReadsPlaces, rev_comes, rev_counts, same_ref};
ghost use Rattle.eob_known_lists.specs.Listed.{slice_to_come_by_ref, uncounted, walk_comes, walk_lists};
ghost use Rattle.eob_lists.proofs.ShownLemmas.{shown_to_come};

use eob_lists::iter::{ChainedIterEitherOrBoth, IntoIterEitherOrBoth, SwapIterEitherOrBoth};
use std::alloc::Allocator;
use std::array;
use std::collections::vec_deque;
use std::iter::{Once, Rev};
use std::ops::Range;
use std::slice::Iter;
use std::vec::IntoIter;

/// An iterator that has a known list still to come, from either end.
pub trait ListedIter: DoubleEndedIterator {
    // How items are read as elements of the list: references are read by what they point to.
    ghost view: { Self.Item → Self.Item };

    // The list.
    ghost listed: { Self → List Self.Item };

    ghost comes: { (s : Self) → StillToCome Self.DoubleEndedIterator view (listed s) s };
}

/// One that counts its list too.
pub trait CountedIter: ListedIter + ExactSizeIterator {
    ghost counts: { (s : Self) → CountedToCome Self.DoubleEndedIterator Self.view (Self.listed s) s };
}

/// One whose items are the list's own.
pub trait OwnIter: ListedIter {
    ghost as_is: { (x : Self.Item) → Self.view x ≡ x };
}

impl<T: Drop, A: Allocator> ListedIter for IntoIter<T, A> {
    ghost view = { λ x. x };

    ghost listed = { into_iter_items };

    ghost comes = { uncounted _ (λ x. x) into_iter_items vec_to_come };
}

impl<T: Drop, A: Allocator> CountedIter for IntoIter<T, A> {
    ghost counts = { vec_to_come };
}

impl<T: Drop, A: Allocator> OwnIter for IntoIter<T, A> {
    ghost as_is = { λ x. refl };
}

impl<T: Drop, const N: usize> ListedIter for array::IntoIter<T, N> {
    ghost view = { λ x. x };

    ghost listed = { array_into_iter_items };

    ghost comes = { uncounted _ (λ x. x) array_into_iter_items array_to_come };
}

impl<T: Drop, const N: usize> CountedIter for array::IntoIter<T, N> {
    ghost counts = { array_to_come };
}

impl<T: Drop, const N: usize> OwnIter for array::IntoIter<T, N> {
    ghost as_is = { λ x. refl };
}

impl ListedIter for Range<u32> {
    ghost view = { λ x. x };

    ghost listed = { range_rest };

    ghost comes = { uncounted _ (λ x. x) range_rest range_to_come };
}

impl CountedIter for Range<u32> {
    ghost counts = { range_to_come };
}

impl OwnIter for Range<u32> {
    ghost as_is = { λ x. refl };
}

impl ListedIter for Range<usize> {
    ghost view = { λ x. x };

    ghost listed = { range_rest };

    ghost comes = { uncounted _ (λ x. x) range_rest range_to_come };
}

impl CountedIter for Range<usize> {
    ghost counts = { range_to_come };
}

impl OwnIter for Range<usize> {
    ghost as_is = { λ x. refl };
}

impl<'a, T> ListedIter for Iter<'a, T> {
    ghost view = { same_ref };

    ghost listed = { λ s. map ref_to (iter_rest s) };

    ghost comes = { uncounted _ same_ref (λ s. map ref_to (iter_rest s)) slice_to_come_by_ref };
}

impl<'a, T> CountedIter for Iter<'a, T> {
    ghost counts = { slice_to_come_by_ref };
}

impl<'a, T> ListedIter for vec_deque::Iter<'a, T> {
    ghost view = { same_ref };

    ghost listed = { λ s. map ref_to (deque_iter_rest s) };

    ghost comes = { uncounted _ same_ref (λ s. map ref_to (deque_iter_rest s)) deque_to_come_by_ref };
}

impl<'a, T> CountedIter for vec_deque::Iter<'a, T> {
    ghost counts = { deque_to_come_by_ref };
}

impl<T: Drop> ListedIter for Once<T> {
    ghost view = { λ x. x };

    ghost listed = { λ s. option_to_list (once_item s) };

    ghost comes = { uncounted _ (λ x. x) (λ s. option_to_list (once_item s)) once_to_come };
}

impl<T: Drop> CountedIter for Once<T> {
    ghost counts = { once_to_come };
}

impl<T: Drop> OwnIter for Once<T> {
    ghost as_is = { λ x. refl };
}

impl<I: ListedIter> ListedIter for Rev<I> {
    ghost view = { I.view };

    ghost listed = { λ s. reverse (I.listed (rev_source s)) };

    ghost comes = { rev_comes I.DoubleEndedIterator I.view I.listed I.comes };
}

impl<I: CountedIter> CountedIter for Rev<I> {
    ghost counts = { rev_counts I.DoubleEndedIterator I.view I.listed I.counts };
}

impl<I: OwnIter> OwnIter for Rev<I> {
    ghost as_is = { I.as_is };
}

impl<T: Drop> ListedIter for IntoIterEitherOrBoth<T> {
    ghost view = { λ x. x };

    ghost listed = { values_left };

    ghost comes = { uncounted _ (λ x. x) values_left (shown_to_come values_left) };
}

impl<T: Drop> CountedIter for IntoIterEitherOrBoth<T> {
    ghost counts = { shown_to_come values_left };
}

impl<T: Drop> OwnIter for IntoIterEitherOrBoth<T> {
    ghost as_is = { λ x. refl };
}

impl<S: CountedIter, T: CountedIter> ListedIter for SwapIterEitherOrBoth<S, T> {
    ghost view = { map_places S.view T.view };

    ghost listed = { walk_lists S.listed T.listed };

    ghost comes = { uncounted _ (map_places S.view T.view) (walk_lists S.listed T.listed)
        (walk_comes S.DoubleEndedIterator T.DoubleEndedIterator S.view T.view
        S.listed T.listed S.counts T.counts) };
}

impl<S: CountedIter, T: CountedIter> CountedIter for SwapIterEitherOrBoth<S, T> {
    ghost counts = { walk_comes S.DoubleEndedIterator T.DoubleEndedIterator S.view T.view
        S.listed T.listed S.counts T.counts };
}

impl<S: CountedIter + OwnIter, T: CountedIter + OwnIter> OwnIter for SwapIterEitherOrBoth<S, T> {
    ghost as_is = { place_as_is S.view T.view S.as_is T.as_is };
}

impl<S: ListedIter> ListedIter for ChainedIterEitherOrBoth<S> {
    ghost view = { S.view };

    ghost listed = { λ s. listed_at S.listed (chain_left s) ++ listed_at S.listed (chain_right s) };

    ghost comes = { chain_comes S.DoubleEndedIterator S.view S.listed S.comes };
}

impl<S: OwnIter> OwnIter for ChainedIterEitherOrBoth<S> {
    ghost as_is = { S.as_is };
}

/// An iterator that is taken from its end gives its list, last first.
///
/// Call it before a reversed iterator is collected, with that iterator.
///
/// # Examples
///
/// ```
/// let walk = EitherOrBoth::Both([1, 2], ['a']).into_iter_swap().rev();
/// law_rev(&walk);
/// let rows: Vec<EitherOrBoth<i32, char>> = walk.collect(alloc)?;
/// assert_eq!(rt; rows, vec![in alloc; EitherOrBoth::Left(2), EitherOrBoth::Both(1, 'a')]?);
/// ```
pub fn law_rev<I: OwnIter>(_walk: &Rev<I>)
    ensures { EachRunFrom (rev_steps I.next_back_gives) _walk.now
        (λ p. p.whole ≡ true → p.items ≡ reverse (I.listed (rev_source _walk.now))) }
{}

/// An iterator that is taken from its front gives its list.
///
/// Call it where a generic function is to know what it collects or counts, with the iterator.
///
/// # Examples
///
/// ```
/// let walk = EitherOrBoth::Both([1, 2], ['a']).into_iter_swap();
/// law_forward(&walk);
/// assert_eq!(rt; walk.count(), 2);
/// ```
pub fn law_forward<I: OwnIter>(_walk: &I)
    ensures { EachRunFrom I.next_gives _walk.now
        (λ p. (p.whole ≡ true → p.items ≡ I.listed _walk.now)
        × (p.whole ≡ true → p.len ≡ length (I.listed _walk.now))) }
{}

/// The item that `nth(n)` returns is the one at place `n` of the list, or `None` where the list ends before it.
///
/// Call it before `nth`, with the iterator.
///
/// # Examples
///
/// ```
/// let mut walk = EitherOrBoth::Both([1, 2], ['a']).into_iter_swap();
/// law_nth(&walk);
/// assert_eq!(rt; walk.nth(1), Some(EitherOrBoth::Left(2)));
/// ```
pub fn law_nth<I: OwnIter>(_walk: &I)
    ensures { EachRunFrom I.next_gives _walk.now (λ p. ReadsPlaces p (I.listed _walk.now)) }
{}

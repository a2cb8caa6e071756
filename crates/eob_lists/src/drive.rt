//! Iterators whose two ends are called in a given order: what each call returns, and how many items are left.
//!
//! Each driver makes the iterator, calls `next` for each `Front` and `next_back` for each `Back`, and returns what they did, in order.
ghost use Rattle.std.specs.Prelude.{◌≡◌, List, ◌++◌, length, map, IfOk};
ghost use Rattle.std.specs.Option.{option_map};
ghost use Rattle.eob_both.specs.Aligned.{aligned};
ghost use Rattle.eob_both.specs.Ends.{HasBound, CountedToCome, PlaceToCome, StillToCome};
ghost use Rattle.eob_both.specs.Places.{left_place, right_place, map_places};
ghost use Rattle.eob_both.specs.Values.{values_of};
ghost use Rattle.eob_lists.specs.Answers.{answers, left_over, Listed, MatchEnd, PlaceCounts};

use crate::EitherOrBoth;
use std::alloc::{AllocError, Allocator, Global};

/// An end of an iterator.
#[derive(Debug, Clone, Copy, PartialEq, Eq)]
pub enum End {
    /// The front, from which `next` takes.
    Front,
    /// The back, from which `next_back` takes.
    Back,
}

/// What an iterator returned at calls of its ends, and what it has left.
#[derive(Debug, PartialEq, Eq, Drop)]
pub struct Driven<I, A: Allocator = Global> {
    /// What each call returned.
    pub answers: Vec<Option<I>, A>,
    /// How many items are left.
    pub rest: usize,
}

// One call of an end.
fn call_end<I: DoubleEndedIterator>(walk: &mut I, end: End) -> Option<I::Item>
    requires front { I.can_next walk.old }
    requires back { I.can_next_back walk.old }
    ensures { MatchEnd end (I.next_gives walk.old result walk.new)
        (I.next_back_gives walk.old result walk.new) }
{
    match end {
        End::Front => walk.next(),
        End::Back => walk.next_back(),
    }
}

/// Calls the ends of an iterator in turn, and returns what each call did. The iterator can be used on
/// afterwards, so that many calls can be made some at a time. Where it has a list still to come, the calls return what calls of that list
/// do, and where the list is counted, so is what is left of it. Takes memory for one item a call.
///
/// The caller must prove that the iterator has such a list.
///
/// # Errors
///
/// `AllocError` where a request for memory was refused.
///
/// # Examples
///
/// ```
/// let mut rows = EitherOrBoth::Both([1, 2, 3], ['a']).into_iter_swap();
/// let answers = drive_walk(alloc, &mut rows, &[End::Back])?;
/// assert_eq!(rt; answers, vec![in alloc; Some(EitherOrBoth::Left(3))]?);
/// assert_eq!(rt; rows.len(), 2);
/// ```
pub fn drive_walk<I: DoubleEndedIterator, A: Allocator>(
    alloc: A,
    walk: &mut I,
    ends: &[End],
) -> Result<Vec<Option<I::Item>, A>, AllocError>
where
    I::Item: Drop,
    requires { (list : Listed I.Item) × StillToCome I.DoubleEndedIterator list.view list.items walk.old }
    ensures answers { (list : Listed I.Item) → StillToCome I.DoubleEndedIterator list.view list.items walk.old
        → IfOk result (λ v. map (option_map list.view) v.items ≡ answers list.items ends.now) }
    ensures rest { (list : Listed I.Item) → CountedToCome I.DoubleEndedIterator list.view list.items walk.old
        → IfOk result (λ _. (left : List I.Item) × CountedToCome I.DoubleEndedIterator list.view left walk.new
        × (length left ≡ left_over list.items ends.now)) }
{
    let mut answers = Vec::with_capacity(alloc, ends.len())?;
    for end in ends {
        answers.push(call_end(walk, *end))?;
    }
    Ok(answers)
}

// What calls of the ends of an iterator that knows its length return, and how many items it has left.
fn drive<I: DoubleEndedIterator + ExactSizeIterator, A: Allocator>(
    alloc: A,
    mut walk: I,
    ends: &[End],
) -> Result<(Vec<Option<I::Item>, A>, usize), AllocError>
where
    I::Item: Drop,
    requires { (list : Listed I.Item) × CountedToCome I.DoubleEndedIterator list.view list.items walk }
    ensures answers { (list : Listed I.Item) → CountedToCome I.DoubleEndedIterator list.view list.items walk
        → IfOk result (λ d. map (option_map list.view) d.0.items ≡ answers list.items ends.now) }
    ensures rest { (list : Listed I.Item) → CountedToCome I.DoubleEndedIterator list.view list.items walk
        → IfOk result (λ d. d.1 ≡ left_over list.items ends.now) }
{
    let answers = drive_walk(alloc, &mut walk, ends)?;
    let rest = walk.len();
    Ok((answers, rest))
}

/// Calls the ends of [`into_iter_swap`](EitherOrBoth::into_iter_swap) over a pair in turn, and returns what each call did and how many
/// items are left. Where the sides have lists still to come, which are counted, the calls return what calls of the aligned list do.
///
/// The caller must prove that the sides have such lists. `drive_swap_owned` and `drive_swap_listed` of the crate `eob_known_lists`
/// are this function with nothing to prove, over vectors, arrays, slices, queues, ranges, options and the iterators of this library: call
/// those, as the example does.
///
/// # Errors
///
/// `AllocError` where a request for memory was refused: then the pair is dropped.
///
/// # Examples
///
/// Over arrays, with nothing to prove:
///
/// ```
/// let pair = EitherOrBoth::Both([1, 2, 3], ['a']);
/// let driven = drive_swap_owned(alloc, pair, &[End::Front, End::Back])?;
/// let answers = vec![in alloc; Some(EitherOrBoth::Both(1, 'a')), Some(EitherOrBoth::Left(3))]?;
/// assert_eq!(rt; driven.answers, answers);
/// assert_eq!(rt; driven.rest, 1);
/// ```
pub fn drive_swap<L, R, A: Allocator>(
    alloc: A,
    pair: EitherOrBoth<L, R>,
    ends: &[End],
) -> Result<Driven<EitherOrBoth<L::Item, R::Item>, A>, AllocError>
where
    L: IntoIterator,
    R: IntoIterator,
    L::IntoIter: DoubleEndedIterator + ExactSizeIterator,
    R::IntoIter: DoubleEndedIterator + ExactSizeIterator,
    L::Item: Drop,
    R::Item: Drop,
    requires { (a : Listed L.Item) × (b : Listed R.Item)
        × PlaceCounts L.into_iter_gives L.IntoIter.DoubleEndedIterator a (left_place pair)
        × PlaceCounts R.into_iter_gives R.IntoIter.DoubleEndedIterator b (right_place pair) }
    ensures answers { (a : Listed L.Item) (b : Listed R.Item)
        → PlaceCounts L.into_iter_gives L.IntoIter.DoubleEndedIterator a (left_place pair)
        → PlaceCounts R.into_iter_gives R.IntoIter.DoubleEndedIterator b (right_place pair)
        → IfOk result (λ d. map (option_map (map_places a.view b.view)) d.answers.items
        ≡ answers (aligned a.items b.items) ends.now) }
    ensures rest { (a : Listed L.Item) (b : Listed R.Item)
        → PlaceCounts L.into_iter_gives L.IntoIter.DoubleEndedIterator a (left_place pair)
        → PlaceCounts R.into_iter_gives R.IntoIter.DoubleEndedIterator b (right_place pair)
        → IfOk result (λ d. d.rest ≡ left_over (aligned a.items b.items) ends.now) }
{
    let (answers, rest) = drive(alloc, pair.into_iter_swap(), ends)?;
    Ok(Driven { answers, rest })
}

/// Calls the ends of [`into_iter_chain`](EitherOrBoth::into_iter_chain) over a pair in turn, and returns what each call did. Where the
/// sides have lists still to come, the calls return what calls of the left list followed by the right one do.
///
/// The caller must prove that the sides have such lists. `drive_chain_owned` and `drive_chain_listed` of the crate `eob_known_lists`
/// are this function with nothing to prove: call those, as the example does.
///
/// # Errors
///
/// `AllocError` where a request for memory was refused: then the pair is dropped.
///
/// # Examples
///
/// Over arrays, with nothing to prove:
///
/// ```
/// let pair = EitherOrBoth::Both([1, 2], [3, 4]);
/// let answers = drive_chain_owned(alloc, pair, &[End::Front, End::Back])?;
/// assert_eq!(rt; answers, vec![in alloc; Some(1), Some(4)]?);
/// ```
pub fn drive_chain<T, A: Allocator>(
    alloc: A,
    pair: EitherOrBoth<T, T>,
    ends: &[End],
) -> Result<Vec<Option<T::Item>, A>, AllocError>
where
    T: IntoIterator,
    T::IntoIter: DoubleEndedIterator,
    T::Item: Drop,
    requires { (view : T.Item → T.Item) × (p : List T.Item) × (q : List T.Item)
        × PlaceToCome T.into_iter_gives HasBound T.IntoIter.DoubleEndedIterator view p (left_place pair)
        × PlaceToCome T.into_iter_gives HasBound T.IntoIter.DoubleEndedIterator view q (right_place pair) }
    ensures { (view : T.Item → T.Item) (p : List T.Item) (q : List T.Item)
        → PlaceToCome T.into_iter_gives HasBound T.IntoIter.DoubleEndedIterator view p (left_place pair)
        → PlaceToCome T.into_iter_gives HasBound T.IntoIter.DoubleEndedIterator view q (right_place pair)
        → IfOk result (λ v. map (option_map view) v.items ≡ answers (p ++ q) ends.now) }
{
    let mut walk = pair.into_iter_chain();
    drive_walk(alloc, &mut walk, ends)
}

/// Calls the ends of the iterator over the one or two values of a value in turn, left first, and returns what each call did and how many
/// values are left.
///
/// # Errors
///
/// `AllocError` where a request for memory was refused: then the value is dropped.
///
/// # Examples
///
/// ```
/// let driven = drive_items(alloc, EitherOrBoth::Both(1, 2), &[End::Back])?;
/// assert_eq!(rt; driven.answers, vec![in alloc; Some(2)]?);
/// assert_eq!(rt; driven.rest, 1);
/// ```
pub fn drive_items<T: Drop, A: Allocator>(
    alloc: A,
    value: EitherOrBoth<T, T>,
    ends: &[End],
) -> Result<Driven<T, A>, AllocError>
    ensures answers { IfOk result (λ d. d.answers.items ≡ answers (values_of value) ends.now) }
    ensures rest { IfOk result (λ d. d.rest ≡ left_over (values_of value) ends.now) }
{
    let (answers, rest) = drive(alloc, value.into_iter(), ends)?;
    Ok(Driven { answers, rest })
}

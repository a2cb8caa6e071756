//! Walks over such values, driven from both ends, with no premise.
ghost use Rattle.std.specs.Prelude.{◌≡◌, ◌++◌, map, reverse, IfOk};
ghost use Rattle.std.specs.Option.{option_map};
ghost use Rattle.eob_both.specs.Aligned.{aligned};
ghost use Rattle.eob_both.specs.Places.{left_place, right_place, map_places};
ghost use Rattle.eob_both.specs.Ends.{CountedToCome};
ghost use Rattle.eob_lists.specs.Answers.{answers, left_over, Listed};
ghost use Rattle.eob_known_lists.specs.Listed.{AreTakenInTurn, listed_at};

use crate::listing::{CountedListing, Listing, OwnListing};
use eob_lists::EitherOrBoth;
use eob_lists::laws::{Driven, End, drive_chain, drive_swap};
use std::alloc::{AllocError, Allocator};

/// Calls the ends of `into_iter_swap` over a pair of such values in turn, as [`drive_swap`] does, with nothing for the caller to prove.
/// The answers hold the items as the iterator returns them, such as the references of slices; the contract reads those by what they
/// point to.
///
/// # Errors
///
/// `AllocError` where a request for memory was refused: then the pair is dropped.
///
/// # Examples
///
/// ```
/// let (numbers, letters) = ([1, 2, 3], ['a']);
/// let pair = EitherOrBoth::Both(numbers.as_slice(), letters.as_slice());
/// let driven = drive_swap_listed(alloc, pair, &[End::Back, End::Front])?;
/// let answers = vec![in alloc; Some(EitherOrBoth::Left(&3)), Some(EitherOrBoth::Both(&1, &'a'))]?;
/// assert_eq!(rt; driven.answers, answers);
/// assert_eq!(rt; driven.rest, 1);
/// ```
pub fn drive_swap_listed<L, R, A: Allocator>(
    alloc: A,
    pair: EitherOrBoth<L, R>,
    ends: &[End],
) -> Result<Driven<EitherOrBoth<L::Item, R::Item>, A>, AllocError>
where
    L: CountedListing,
    R: CountedListing,
    L::IntoIter: DoubleEndedIterator + ExactSizeIterator,
    R::IntoIter: DoubleEndedIterator + ExactSizeIterator,
    L::Item: Drop,
    R::Item: Drop,
    ensures answers { IfOk result (λ d. map (option_map (map_places L.view R.view)) d.answers.items
        ≡ answers
        (aligned (listed_at L.listed (left_place pair)) (listed_at R.listed (right_place pair))) ends.now) }
    ensures rest { IfOk result (λ d. d.rest
        ≡ left_over
        (aligned (listed_at L.listed (left_place pair)) (listed_at R.listed (right_place pair))) ends.now) }
{
    drive_swap(alloc, pair, ends)
}

/// [`drive_swap_listed`] of two values that are walked by value: the answers are the items themselves.
///
/// # Errors
///
/// `AllocError` where a request for memory was refused: then the pair is dropped.
///
/// # Examples
///
/// ```
/// let pair = EitherOrBoth::Both([1, 2, 3], ['a']);
/// let driven = drive_swap_owned(alloc, pair, &[End::Back, End::Front])?;
/// let answers = vec![in alloc; Some(EitherOrBoth::Left(3)), Some(EitherOrBoth::Both(1, 'a'))]?;
/// assert_eq!(rt; driven.answers, answers);
/// assert_eq!(rt; driven.rest, 1);
/// ```
pub fn drive_swap_owned<L, R, A: Allocator>(
    alloc: A,
    pair: EitherOrBoth<L, R>,
    ends: &[End],
) -> Result<Driven<EitherOrBoth<L::Item, R::Item>, A>, AllocError>
where
    L: CountedListing + OwnListing,
    R: CountedListing + OwnListing,
    L::IntoIter: DoubleEndedIterator + ExactSizeIterator,
    R::IntoIter: DoubleEndedIterator + ExactSizeIterator,
    L::Item: Drop,
    R::Item: Drop,
    ensures answers { IfOk result (λ d. d.answers.items
        ≡ answers
        (aligned (listed_at L.listed (left_place pair)) (listed_at R.listed (right_place pair))) ends.now) }
    ensures rest { IfOk result (λ d. d.rest
        ≡ left_over
        (aligned (listed_at L.listed (left_place pair)) (listed_at R.listed (right_place pair))) ends.now) }
{
    drive_swap_listed(alloc, pair, ends)
}

/// Calls the ends of the chain of two such values in turn: [`drive_chain`] with nothing to prove.
///
/// # Errors
///
/// `AllocError` where a request for memory was refused: then the pair is dropped.
///
/// # Examples
///
/// ```
/// let (low, high) = ([1, 2], [3, 4]);
/// let pair = EitherOrBoth::Both(low.as_slice(), high.as_slice());
/// let answers = drive_chain_listed(alloc, pair, &[End::Back, End::Front])?;
/// assert_eq!(rt; answers, vec![in alloc; Some(&4), Some(&1)]?);
/// ```
pub fn drive_chain_listed<T, A: Allocator>(
    alloc: A,
    pair: EitherOrBoth<T, T>,
    ends: &[End],
) -> Result<Vec<Option<T::Item>, A>, AllocError>
where
    T: Listing,
    T::IntoIter: DoubleEndedIterator,
    T::Item: Drop,
    ensures { IfOk result (λ v. map (option_map T.view) v.items
        ≡ answers (listed_at T.listed (left_place pair) ++ listed_at T.listed (right_place pair)) ends.now) }
{
    drive_chain(alloc, pair, ends)
}

/// [`drive_chain_listed`] of two values that are walked by value: the answers are the items themselves.
///
/// # Errors
///
/// `AllocError` where a request for memory was refused: then the pair is dropped.
///
/// # Examples
///
/// ```
/// let pair = EitherOrBoth::Both([1, 2], [3, 4]);
/// let answers = drive_chain_owned(alloc, pair, &[End::Back, End::Front])?;
/// assert_eq!(rt; answers, vec![in alloc; Some(4), Some(1)]?);
/// ```
pub fn drive_chain_owned<T, A: Allocator>(
    alloc: A,
    pair: EitherOrBoth<T, T>,
    ends: &[End],
) -> Result<Vec<Option<T::Item>, A>, AllocError>
where
    T: OwnListing,
    T::IntoIter: DoubleEndedIterator,
    T::Item: Drop,
    ensures { IfOk result (λ v. v.items
        ≡ answers (listed_at T.listed (left_place pair) ++ listed_at T.listed (right_place pair)) ends.now) }
{
    drive_chain_listed(alloc, pair, ends)
}

// Takes from the front and the back of an iterator in turn until they meet.
fn take_in_turn<I: DoubleEndedIterator + ExactSizeIterator, A: Allocator + Copy>(
    alloc: A,
    mut walk: I,
) -> Result<(Vec<I::Item, A>, Vec<I::Item, A>), AllocError>
where
    I::Item: Drop,
    requires { (list : Listed I.Item) × CountedToCome I.DoubleEndedIterator list.view list.items walk }
    ensures list { (list : Listed I.Item) → CountedToCome I.DoubleEndedIterator list.view list.items walk
        → IfOk result (λ r. map list.view r.0.items ++ reverse (map list.view r.1.items) ≡ list.items) }
    ensures turns { IfOk result (λ r. AreTakenInTurn r.0.items r.1.items) }
{
    let mut fronts = Vec::new(alloc);
    let mut backs = Vec::new(alloc);
    while let Some(first) = walk.next() {
        fronts.push(first)?;
        match walk.next_back() {
            Some(last) => backs.push(last)?,
            None => break,
        }
    }
    Ok((fronts, backs))
}

/// Takes from the front and the back of `into_iter_swap` over a pair of such values in turn until they meet: returns the items from the
/// front, and those from the back in the order in which they came. Together they are the aligned list, cut in two: half of the items came
/// from each end, and where their number is odd one more from the front.
///
/// # Errors
///
/// `AllocError` where a request for memory was refused: then the pair is dropped.
///
/// # Examples
///
/// ```
/// let pair = EitherOrBoth::Both(vec![in alloc; 1, 2, 3]?, vec![in alloc; 'a']?);
/// let (fronts, backs) = take_swap_in_turn(alloc, pair)?;
/// assert_eq!(rt; fronts, vec![in alloc; EitherOrBoth::Both(1, 'a'), EitherOrBoth::Left(2)]?);
/// assert_eq!(rt; backs, vec![in alloc; EitherOrBoth::Left(3)]?);
/// ```
pub fn take_swap_in_turn<L, R, A: Allocator + Copy>(
    alloc: A,
    pair: EitherOrBoth<L, R>,
) -> Result<
    (
        Vec<EitherOrBoth<L::Item, R::Item>, A>,
        Vec<EitherOrBoth<L::Item, R::Item>, A>,
    ),
    AllocError,
>
where
    L: CountedListing + OwnListing,
    R: CountedListing + OwnListing,
    L::IntoIter: DoubleEndedIterator + ExactSizeIterator,
    R::IntoIter: DoubleEndedIterator + ExactSizeIterator,
    L::Item: Drop,
    R::Item: Drop,
    ensures list { IfOk result (λ r. r.0.items ++ reverse r.1.items
        ≡ aligned (listed_at L.listed (left_place pair)) (listed_at R.listed (right_place pair))) }
    ensures turns { IfOk result (λ r. AreTakenInTurn r.0.items r.1.items) }
{
    take_in_turn(alloc, pair.into_iter_swap())
}

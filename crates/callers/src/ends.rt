//! Iterators taken from both ends: what each call returns, over vectors, slices, queues, ranges and iterators, and what an iterator that is
//! taken apart gives.
ghost use Rattle.std.specs.Prelude.{◌≡◌, ◌++◌, map, reverse, IfOk};
ghost use Rattle.std.specs.List.{range_with_len};
ghost use Rattle.std.specs.Option.{option_map};
ghost use Rattle.either_or_both.specs.Aligned.{aligned};
ghost use Rattle.either_or_both.specs.Answers.{answers, left_over};
ghost use Rattle.either_or_both.specs.Places.{map_places};
ghost use Rattle.either_or_both.specs.Values.{values_of};
ghost use Rattle.eob_both.proofs.StdEnds.{ref_to};
ghost use Rattle.eob_known_lists.specs.Listed.{same_ref};

use either_or_both::EitherOrBoth;
use either_or_both::laws::{Driven, End, drive_items};
use eob_known_lists::drive::{
    drive_chain_owned, drive_swap_listed, drive_swap_owned, take_swap_in_turn,
};
use std::alloc::{AllocError, Global};
use std::collections::VecDeque;

/// Two vectors side by side, called from both ends in any order.
pub fn two_vectors<T: Drop, U: Drop>(
    alloc: Global,
    a: Vec<T>,
    b: Vec<U>,
    ends: &[End],
) -> Result<Driven<EitherOrBoth<T, U>>, AllocError>
    ensures answers { IfOk result (λ d. d.answers.items ≡ answers (aligned a.items b.items) ends.now) }
    ensures rest { IfOk result (λ d. d.rest ≡ left_over (aligned a.items b.items) ends.now) }
{
    drive_swap_owned(alloc, EitherOrBoth::Both(a, b), ends)
}

/// Two slices: the results hold references, read by what they point to.
pub fn two_slices<'a, T, U>(
    alloc: Global,
    a: &'a [T],
    b: &'a [U],
    ends: &[End],
) -> Result<Driven<EitherOrBoth<&'a T, &'a U>>, AllocError>
    ensures { IfOk result (λ d. map (option_map (map_places same_ref same_ref)) d.answers.items
        ≡ answers (aligned (map ref_to a.now) (map ref_to b.now)) ends.now) }
{
    drive_swap_listed(alloc, EitherOrBoth::Both(a, b), ends)
}

/// A range beside a queue.
pub fn numbered<T: Drop>(
    alloc: Global,
    n: usize,
    queue: VecDeque<T>,
    ends: &[End],
) -> Result<Driven<EitherOrBoth<usize, T>>, AllocError>
    ensures { IfOk result (λ d. d.answers.items
        ≡ answers (aligned (range_with_len 0 n) queue.items) ends.now) }
{
    drive_swap_owned(alloc, EitherOrBoth::Both(0..n, queue), ends)
}

/// Three vectors side by side, the last of them from its end.
pub fn three_vectors<T: Drop, U: Drop, V: Drop>(
    alloc: Global,
    a: Vec<T>,
    b: Vec<U>,
    c: Vec<V>,
    ends: &[End],
) -> Result<Driven<EitherOrBoth<EitherOrBoth<T, U>, V>>, AllocError>
    ensures { IfOk result (λ d. d.answers.items
        ≡ answers (aligned (aligned a.items b.items) (reverse c.items)) ends.now) }
{
    let first_two = EitherOrBoth::Both(a, b).into_iter_swap();
    drive_swap_owned(
        alloc,
        EitherOrBoth::Both(first_two, c.into_iter().rev()),
        ends,
    )
}

/// Four vectors in turn, by a chain of chains.
pub fn four_in_turn<T: Drop>(
    alloc: Global,
    a: Vec<T>,
    b: Vec<T>,
    c: Vec<T>,
    d: Vec<T>,
    ends: &[End],
) -> Result<Vec<Option<T>>, AllocError>
    ensures { IfOk result (λ v. v.items ≡ answers ((a.items ++ b.items) ++ (c.items ++ d.items)) ends.now) }
{
    let first = EitherOrBoth::Both(a, b).into_iter_chain();
    let second = EitherOrBoth::Both(c, d).into_iter_chain();
    drive_chain_owned(alloc, EitherOrBoth::Both(first, second), ends)
}

/// The one or two values of a value.
pub fn items<T: Drop>(
    alloc: Global,
    value: EitherOrBoth<T, T>,
    ends: &[End],
) -> Result<Driven<T>, AllocError>
    ensures { IfOk result (λ d. d.answers.items ≡ answers (values_of value) ends.now) }
{
    drive_items(alloc, value, ends)
}

/// Taken from both ends until they meet, the two halves are the list, cut in two.
pub fn halves<T: Drop, U: Drop>(
    alloc: Global,
    a: Vec<T>,
    b: Vec<U>,
) -> Result<(Vec<EitherOrBoth<T, U>>, Vec<EitherOrBoth<T, U>>), AllocError>
    ensures { IfOk result (λ r. r.0.items ++ reverse r.1.items ≡ aligned a.items b.items) }
{
    take_swap_in_turn(alloc, EitherOrBoth::Both(a, b))
}

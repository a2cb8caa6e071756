//! The paired iterator and the chain, taken from the front: the list that each gives, and what two lists side by side have in common with
//! their mirror and with lists nested another way. The loop has an invariant, which only its author can choose.
ghost use Rattle.std.specs.Prelude.{◌≡◌, ◌++◌, ◌%◌, ◌==◌, max, [], map, filter, length, slice_get, IfOk};
ghost use Rattle.std.specs.Map.Iter.{deref};
ghost use Rattle.std.specs.List.{range_with_len};
ghost use Rattle.either_or_both.specs.Aligned.{aligned};
ghost use Rattle.either_or_both.specs.Runs.{SwapsRuns};
ghost use Rattle.either_or_both.specs.Places.{map_places, MatchPlaces};
ghost use Rattle.either_or_both.specs.AlignedLaws.{nested_right};
ghost use Rattle.either_or_both.specs.JoinLaws.{flipped};

use either_or_both::EitherOrBoth;
use either_or_both::iter::SwapIterEitherOrBoth;
use either_or_both::laws::{
    law_aligned_flip, law_aligned_refs, law_aligned_self, law_aligned_three, law_range,
};
use eob_known_lists::listed::law_nth;
use std::alloc::{AllocError, Global};

/// A pair of vectors, of which one may be absent.
pub fn pair_side_by_side<T: Drop, U: Drop>(
    alloc: Global,
    pair: EitherOrBoth<Vec<T>, Vec<U>>,
) -> Result<Vec<EitherOrBoth<T, U>>, AllocError>
    ensures { IfOk result (λ v. MatchPlaces pair
        (λ a b. v.items ≡ aligned a.items b.items)
        (λ a. v.items ≡ aligned a.items [])
        (λ b. v.items ≡ aligned [] b.items)) }
{
    pair.into_iter_swap().collect(alloc)
}

/// Three vectors in turn.
pub fn three_in_turn<T: Drop>(
    alloc: Global,
    a: Vec<T>,
    b: Vec<T>,
    c: Vec<T>,
) -> Result<Vec<T>, AllocError>
    ensures { IfOk result (λ v. v.items ≡ (a.items ++ b.items) ++ c.items) }
{
    let first = EitherOrBoth::Both(a, b).into_iter_chain();
    let last = EitherOrBoth::Left(c).into_iter_chain();
    EitherOrBoth::Both(first, last)
        .into_iter_chain()
        .collect(alloc)
}

/// How many items two slices have side by side.
pub fn count_items<T, U>(a: &[T], b: &[U]) -> usize
    ensures { result ≡ max (length a.now) (length b.now) }
{
    EitherOrBoth::Both(a, b).into_iter_swap().count()
}

/// The item at place `n` of two vectors side by side.
pub fn nth_side_by_side<T: Drop, U: Drop>(
    a: Vec<T>,
    b: Vec<U>,
    n: usize,
) -> Option<EitherOrBoth<T, U>>
    ensures { result ≡ slice_get (aligned a.items b.items) n }
{
    let mut walk = EitherOrBoth::Both(a, b).into_iter_swap();
    law_nth(&walk);
    walk.nth(n)
}

/// References to the items of two vectors side by side.
pub fn lent_side_by_side<'a, T, U>(
    alloc: Global,
    pair: &'a EitherOrBoth<Vec<T>, Vec<U>>,
) -> Result<Vec<EitherOrBoth<&'a T, &'a U>>, AllocError>
    ensures { IfOk result (λ v. MatchPlaces pair.now
        (λ a b. map (map_places deref deref) v.items ≡ aligned a.items b.items)
        (λ a. map (map_places deref deref) v.items ≡ aligned a.items [])
        (λ b. map (map_places deref deref) v.items ≡ aligned [] b.items)) }
{
    law_aligned_refs::<T, U>();
    pair.iter_swap().collect(alloc)
}

/// References to the items of two vectors in turn.
pub fn lent_in_turn<'a, T>(
    alloc: Global,
    pair: &'a EitherOrBoth<Vec<T>, Vec<T>>,
) -> Result<Vec<&'a T>, AllocError>
    ensures { IfOk result (λ v. MatchPlaces pair.now
        (λ a b. map deref v.items ≡ a.items ++ b.items)
        (λ a. map deref v.items ≡ a.items)
        (λ b. map deref v.items ≡ b.items)) }
{
    pair.iter_chain().collect(alloc)
}

/// Numbers beside a vector.
pub fn numbered<T: Drop>(
    alloc: Global,
    a: Vec<T>,
    n: u32,
) -> Result<Vec<EitherOrBoth<u32, T>>, AllocError>
    ensures { IfOk result (λ v. v.items ≡ aligned (range_with_len 0 n) a.items) }
{
    law_range();
    EitherOrBoth::Both(0..n, a).into_iter_swap().collect(alloc)
}

/// Two vectors side by side, by a loop.
pub fn by_a_loop<T: Drop, U: Drop>(
    alloc: Global,
    a: Vec<T>,
    b: Vec<U>,
) -> Result<Vec<EitherOrBoth<T, U>>, AllocError>
    ensures { IfOk result (λ v. v.items ≡ aligned a.items b.items) }
{
    let mut items = Vec::new(alloc);
    for item in EitherOrBoth::Both(a, b).into_iter_swap() {
        items.push(item)?;
    }
    Ok(items)
}

/// The paired iterator over any two iterators.
pub fn walk_of_both<L: Iterator, R: Iterator>(left: L, right: R) -> SwapIterEitherOrBoth<L, R>
    ensures { SwapsRuns (λ l s. s ≡ l) (λ r t. t ≡ r)
        L.next_gives R.next_gives (EitherOrBoth.Both left right) result }
{
    EitherOrBoth::Both(left, right).into_iter_swap()
}

/// A caller of it.
pub fn evens_beside_numbers(
    alloc: Global,
    a: &[u32],
    b: &[u32],
) -> Result<Vec<EitherOrBoth<u32, u32>>, AllocError>
    ensures { IfOk result (λ v. v.items ≡ aligned (filter (λ x. x % 2 == 0) a.now) b.now) }
{
    walk_of_both(a.iter().copied().filter(|x| *x % 2 == 0), b.iter().copied()).collect(alloc)
}

/// Two lists side by side, with the sides exchanged.
pub fn side_by_side_flipped<L: Drop, R: Drop>(
    alloc: Global,
    left: Vec<L>,
    right: Vec<R>,
) -> Result<Vec<EitherOrBoth<R, L>>, AllocError>
    ensures { IfOk result (λ v. v.items ≡ map flipped (aligned left.items right.items)) }
{
    law_aligned_flip::<L, R>();
    let items = EitherOrBoth::Both(right, left)
        .into_iter_swap()
        .collect(alloc)?;
    Ok(items)
}

/// A list beside a copy of it.
pub fn side_by_side_with_itself<T: Drop>(
    alloc: Global,
    list: Vec<T>,
    copy: Vec<T>,
) -> Result<Vec<EitherOrBoth<T, T>>, AllocError>
    requires { copy.items ≡ list.items }
    ensures { IfOk result (λ v. v.items ≡ map (λ x. EitherOrBoth.Both x x) list.items) }
{
    law_aligned_self::<T>();
    let items = EitherOrBoth::Both(list, copy)
        .into_iter_swap()
        .collect(alloc)?;
    Ok(items)
}

// Three lists side by side, nested to the right.
fn nested_to_right<A: Drop, B: Drop, C: Drop>(
    alloc: Global,
    first: Vec<A>,
    second: Vec<B>,
    third: Vec<C>,
) -> Result<Vec<EitherOrBoth<A, EitherOrBoth<B, C>>>, AllocError>
    ensures { IfOk result (λ v. v.items ≡ aligned first.items (aligned second.items third.items)) }
{
    let others = EitherOrBoth::Both(second, third).into_iter_swap();
    EitherOrBoth::Both(first, others)
        .into_iter_swap()
        .collect(alloc)
}

/// Three lists side by side, nested to the right, known by the iterator that is nested to the left.
pub fn three_side_by_side<A: Drop, B: Drop, C: Drop>(
    alloc: Global,
    first: Vec<A>,
    second: Vec<B>,
    third: Vec<C>,
) -> Result<Vec<EitherOrBoth<A, EitherOrBoth<B, C>>>, AllocError>
    ensures { IfOk result (λ v. v.items
        ≡ map nested_right (aligned (aligned first.items second.items) third.items)) }
{
    law_aligned_three::<A, B, C>();
    let items = nested_to_right(alloc, first, second, third)?;
    Ok(items)
}

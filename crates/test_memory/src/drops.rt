//! Tests: a walk that is given up after any number of calls from either end drops each value that it still has, once.

use crate::token::{Token, counted};
use either_or_both::EitherOrBoth::{Both, Left, Right};
use either_or_both::{Either, EitherOrBoth};
use std::alloc::{AllocError, Global};
use std::test::Fail;
use testkit::memory::Tokens;
use testkit::same::same;

// How many calls are made at most, and in how many orders.
const CALLS: [(usize, usize); 6] = [(0, 1), (1, 2), (2, 4), (3, 8), (4, 16), (5, 32)];

type Side = Vec<Token>;

// So many values that are counted.
fn values(alloc: Global, tokens: &Tokens, length: usize) -> Result<Side, AllocError> {
    let mut made = Vec::new(alloc);
    for _ in 0..length {
        made.push(counted(tokens, 1)?)?;
    }
    Ok(made)
}

// Calls an end of a walk.
fn call<I: DoubleEndedIterator>(walk: &mut I, at_front: bool)
where
    I::Item: Drop,
    requires front { I.can_next walk.old }
    requires back { I.can_next_back walk.old }
{
    let _item = if at_front {
        walk.next()
    } else {
        walk.next_back()
    };
}

// Calls the ends of a walk in an order that a number stands for, a bit for each call, and gives it up.
fn give_up<I: DoubleEndedIterator + Drop>(mut walk: I, calls: (usize, usize))
where
    I::Item: Drop,
    requires front { (walk : I) → I.can_next walk }
    requires back { (walk : I) → I.can_next_back walk }
{
    let (count, mut order) = calls;
    for _ in 0..count {
        call(&mut walk, order % 2 == 0);
        order /= 2;
    }
}

// Two sides with so many values.
fn sides(
    alloc: Global,
    tokens: &Tokens,
    lengths: (usize, usize),
) -> Result<EitherOrBoth<Side>, AllocError> {
    let left = values(alloc, tokens, lengths.0)?;
    Ok(Both(left, values(alloc, tokens, lengths.1)?))
}

// Two sides walked at once and in turn, and given up after these calls.
fn give_up_sides(
    alloc: Global,
    tokens: &Tokens,
    lengths: (usize, usize),
    calls: (usize, usize),
) -> Result<(), AllocError> {
    give_up(sides(alloc, tokens, lengths)?.into_iter_swap(), calls);
    give_up(sides(alloc, tokens, lengths)?.into_iter_chain(), calls);
    Ok(())
}

// The held side of an `Either` with so many values walked alone and in its variant, and given up after these calls.
fn give_up_held(
    alloc: Global,
    tokens: &Tokens,
    length: usize,
    calls: (usize, usize),
) -> Result<(), AllocError> {
    let right: Either<Side> = Either::Right(values(alloc, tokens, length)?);
    give_up(right.into_iter_inner(), calls);
    let left: Either<Side> = Either::Left(values(alloc, tokens, length)?);
    give_up(left.into_iter_swap(), calls);
    Ok(())
}

// The values of both places and of one walked, and given up after these calls.
fn give_up_values(tokens: &Tokens, calls: (usize, usize)) -> Result<(), AllocError> {
    let left: EitherOrBoth<Token> = Left(counted(tokens, 1)?);
    give_up(left.into_iter(), calls);
    let right: EitherOrBoth<Token> = Right(counted(tokens, 2)?);
    give_up(right.into_iter(), calls);
    let first = counted(tokens, 1)?;
    give_up(Both(first, counted(tokens, 2)?).into_iter(), calls);
    let held: Either<Token> = Either::Left(counted(tokens, 1)?);
    give_up(held.into_iter(), calls);
    Ok(())
}

/// Whatever ends were called, and however often, the values that are alive are those from before the walk was made.
#[test]
fn walks_that_are_given_up_drop_what_they_have(rt: HostRuntime) -> Result<(), Fail> {
    let alloc = rt.alloc();
    let tokens = Tokens::new(alloc)?;
    let alive = tokens.alive();
    for (count, orders) in CALLS {
        for order in 0..orders {
            let calls = (count, order);
            for l in 0..4usize {
                give_up_held(alloc, &tokens, l, calls)?;
                for r in 0..4usize {
                    give_up_sides(alloc, &tokens, (l, r), calls)?;
                    same("values alive", &(l, r, calls), &tokens.alive(), &alive)?;
                }
            }
            give_up_values(&tokens, calls)?;
            same("values alive", &calls, &tokens.alive(), &alive)?;
        }
    }
    Ok(())
}

//! Tests: clones of values with memory of their own, and clones that are refused.

use crate::owned::{check_owned, owned};
use either_or_both::EitherOrBoth::{Both, Left, Right};
use either_or_both::{Either, EitherOrBoth};
use std::alloc::{AllocError, Global};
use std::test::Fail;
use testkit::counts::{Counted, Tally};
use testkit::same::same;

// Adds a letter and a number to what is held.
fn extend(value: &mut EitherOrBoth<String, Vec<u8>>) -> Result<(), AllocError> {
    if let Both(l, r) = value.as_mut() {
        l.push('b')?;
        r.push(2)?;
    }
    Ok(())
}

fn extend_either(value: &mut Either<String, Vec<u8>>) -> Result<(), AllocError> {
    if let Either::Right(r) = value.as_mut() {
        r.push(2)?;
    }
    Ok(())
}

/// A clone of a value with memory of its own has memory of its own too.
#[test]
fn clone_has_memory_of_its_own(rt: HostRuntime) -> Result<(), Fail> {
    let alloc = rt.alloc();
    let value = owned(alloc, "a", &[1])?;
    let mut copy = value.clone()?;
    extend(&mut copy)?;
    check_owned(alloc, "clone, written", &copy, "ab", &[1, 2])?;
    check_owned(alloc, "clone, not written", &value, "a", &[1])?;
    Ok(())
}

// The value holds these numbers on the right.
fn check_numbers(
    alloc: Global,
    call: &str,
    value: &Either<String, Vec<u8>>,
    numbers: &[u8],
) -> Result<(), Fail> {
    let want = Either::Right(numbers.to_vec(alloc)?);
    same(call, &"numbers", value, &want)
}

/// The same of `Either`.
#[test]
fn clone_of_either_has_memory_of_its_own(rt: HostRuntime) -> Result<(), Fail> {
    let alloc = rt.alloc();
    let value: Either<String, Vec<u8>> = Either::Right(vec![in alloc; 1]?);
    let mut copy = value.clone()?;
    extend_either(&mut copy)?;
    check_numbers(alloc, "clone, written", &copy, &[1, 2])?;
    check_numbers(alloc, "clone, not written", &value, &[1])?;
    Ok(())
}

/// Which of the held values refuse to be cloned, whether a clone of the whole is made, and how many held values are cloned.
#[rattlefmt::skip]
static CLONES_OF_EITHER_OR_BOTH: [(EitherOrBoth<bool, bool>, bool, u32); 8] = [
    // refusing          made   cloned
    (Left(false),        true,  1),
    (Left(true),         false, 0),
    (Both(false, false), true,  2),
    (Both(false, true),  false, 1),
    (Both(true, false),  false, 0),
    (Both(true, true),   false, 0),
    (Right(false),       true,  1),
    (Right(true),        false, 0),
];

// A value whose held values are counted and refuse as told.
fn counted<'a>(tally: &'a Tally, refusing: EitherOrBoth<bool, bool>) -> EitherOrBoth<Counted<'a>> {
    match refusing {
        Left(l) => Left(Counted::new(tally, l)),
        Both(l, r) => Both(Counted::new(tally, l), Counted::new(tally, r)),
        Right(r) => Right(Counted::new(tally, r)),
    }
}

// Which of the held values refuse.
fn refusing_in<'a>(value: &EitherOrBoth<Counted<'a>, Counted<'a>>) -> EitherOrBoth<bool, bool> {
    value.as_ref().bimap(|l| l.refuses(), |r| r.refuses())
}

// A clone of the value, made in this way.
fn cloned_by<'a>(
    way: &str,
    value: &mut EitherOrBoth<Counted<'a>>,
) -> Result<EitherOrBoth<Counted<'a>>, AllocError> {
    match way {
        "clone" => value.clone(),
        "cloned on &" => value.as_ref().cloned(),
        _ => value.as_mut().cloned(),
    }
}

// How many of so many clones are dropped: all, where the whole is not made.
fn dropped_of(is_made: bool, count: u32) -> u32 {
    if is_made { 0 } else { count }
}

/// A clone is refused where that of a held value is. Then each clone that was made is dropped, and the value stays as it was.
#[test]
fn refused_clone_drops_what_it_made() -> Result<(), Fail> {
    for (refusing, is_made, count) in &CLONES_OF_EITHER_OR_BOTH {
        for way in ["clone", "cloned on &", "cloned on &mut"] {
            let tally = Tally::new();
            let mut value = counted(&tally, *refusing);
            let made = cloned_by(way, &mut value);
            let dropped = dropped_of(*is_made, *count);
            same(
                way,
                refusing,
                &(tally.cloned(), tally.dropped()),
                &(*count, dropped),
            )?;
            let copied = made.as_ref().ok().map(refusing_in);
            same(way, refusing, &copied, &is_made.then_some(*refusing))?;
            same(way, refusing, &refusing_in(&value), refusing)?;
        }
    }
    Ok(())
}

/// The same of `Either`.
#[rattlefmt::skip]
static CLONES_OF_EITHER: [(Either<bool, bool>, bool, u32); 4] = [
    // refusing            made   cloned
    (Either::Left(false),  true,  1),
    (Either::Left(true),   false, 0),
    (Either::Right(false), true,  1),
    (Either::Right(true),  false, 0),
];

// Whether the held value refuses, in its place.
fn refusing_in_either<'a>(value: &Either<Counted<'a>, Counted<'a>>) -> Either<bool, bool> {
    value.as_ref().bimap(|l| l.refuses(), |r| r.refuses())
}

// The same of `Either`.
fn counted_either<'a>(tally: &'a Tally, refusing: Either<bool, bool>) -> Either<Counted<'a>> {
    match refusing {
        Either::Left(l) => Either::Left(Counted::new(tally, l)),
        Either::Right(r) => Either::Right(Counted::new(tally, r)),
    }
}

// The same of `Either`.
fn cloned_by_either<'a>(
    way: &str,
    value: &mut Either<Counted<'a>>,
) -> Result<Either<Counted<'a>>, AllocError> {
    match way {
        "clone" => value.clone(),
        "cloned on &" => value.as_ref().cloned(),
        _ => value.as_mut().cloned(),
    }
}

/// A clone is refused where that of the held value is. Then no clone was made, and the value stays as it was.
#[test]
fn refused_clone_of_either_makes_none() -> Result<(), Fail> {
    for (refusing, is_made, count) in &CLONES_OF_EITHER {
        for way in ["clone", "cloned on &", "cloned on &mut"] {
            let tally = Tally::new();
            let mut value = counted_either(&tally, *refusing);
            let made = cloned_by_either(way, &mut value);
            same(
                way,
                refusing,
                &(tally.cloned(), tally.dropped()),
                &(*count, 0),
            )?;
            let copied = made.as_ref().ok().map(refusing_in_either);
            same(way, refusing, &copied, &is_made.then_some(*refusing))?;
            same(way, refusing, &refusing_in_either(&value), refusing)?;
        }
    }
    Ok(())
}

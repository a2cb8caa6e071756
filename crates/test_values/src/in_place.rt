//! Tests: changes in place of values with memory of their own, and what such calls drop.

use crate::owned::check_owned;
use either_or_both::EitherOrBoth::{Both, Left, Right};
use either_or_both::{Either, EitherOrBoth};
use std::test::Fail;
use testkit::counts::{Counted, Tally};
use testkit::same::same;

/// A text that is put beside numbers leaves them whole, each with memory of its own.
#[test]
fn insertion_on_the_left_leaves_the_other_value_whole(rt: HostRuntime) -> Result<(), Fail> {
    let alloc = rt.alloc();
    let mut value: EitherOrBoth<String, Vec<u8>> = Right(vec![in alloc; 1, 2]?);
    value
        .insert_left(String::from_str(alloc, "seven")?)
        .push('!')?;
    check_owned(alloc, "insert_left on Right", &value, "seven!", &[1, 2])?;
    Ok(())
}

/// So do numbers that are put beside a text, and a text that takes the place of another one.
#[test]
fn insertion_leaves_the_other_value_whole(rt: HostRuntime) -> Result<(), Fail> {
    let alloc = rt.alloc();
    let mut value: EitherOrBoth<String, Vec<u8>> = Left(String::from_str(alloc, "seven")?);
    value.insert_right(vec![in alloc; 1, 2]?).push(3)?;
    check_owned(alloc, "insert_right on Left", &value, "seven", &[1, 2, 3])?;
    value.insert_left(String::from_str(alloc, "eight")?);
    check_owned(alloc, "insert_left on Both", &value, "eight", &[1, 2, 3])?;
    Ok(())
}

/// A call, a value, and how many of its held values and of the arguments are dropped when the call and its answer are over.
#[rattlefmt::skip]
static DROPPED: [(&str, EitherOrBoth<(), ()>, u32, u32); 21] = [
    // call             value         held given
    ("insert_left",     Left(()),     1,   0),
    ("insert_left",     Both((), ()), 1,   0),
    ("insert_left",     Right(()),    0,   0),
    ("insert_right",    Left(()),     0,   0),
    ("insert_right",    Both((), ()), 1,   0),
    ("insert_right",    Right(()),    1,   0),
    ("left_or_insert",  Left(()),     0,   1),
    ("left_or_insert",  Both((), ()), 0,   1),
    ("left_or_insert",  Right(()),    0,   0),
    ("right_or_insert", Left(()),     0,   0),
    ("right_or_insert", Both((), ()), 0,   1),
    ("right_or_insert", Right(()),    0,   1),
    ("replace_left",    Left(()),     1,   0),
    ("replace_left",    Both((), ()), 1,   0),
    ("replace_left",    Right(()),    0,   1),
    ("replace_right",   Left(()),     0,   1),
    ("replace_right",   Both((), ()), 1,   0),
    ("replace_right",   Right(()),    1,   0),
    ("replace_any",     Left(()),     1,   1),
    ("replace_any",     Both((), ()), 2,   0),
    ("replace_any",     Right(()),    1,   1),
];

// A value of this variant whose held values are counted.
fn counted<'a>(held: &'a Tally, variant: EitherOrBoth<(), ()>) -> EitherOrBoth<Counted<'a>> {
    match variant {
        Left(()) => Left(Counted::new(held, false)),
        Both((), ()) => Both(Counted::new(held, false), Counted::new(held, false)),
        Right(()) => Right(Counted::new(held, false)),
    }
}

// Makes the call, with arguments that are counted, and drops its answer.
fn give_up<'a>(call: &str, value: &mut EitherOrBoth<Counted<'a>>, given: &'a Tally) {
    let argument = Counted::new(given, false);
    match call {
        "insert_left" => drop(value.insert_left(argument)),
        "insert_right" => drop(value.insert_right(argument)),
        "left_or_insert" => drop(value.left_or_insert(argument)),
        "right_or_insert" => drop(value.right_or_insert(argument)),
        "replace_left" => drop(value.replace_left(argument)),
        "replace_right" => drop(value.replace_right(argument)),
        _ => drop(value.replace_any(argument, Counted::new(given, false))),
    }
}

// How many values are held at first, and how many the call is given.
fn in_all(call: &str, variant: EitherOrBoth<(), ()>) -> (u32, u32) {
    let held = if variant.is_both() { 2 } else { 1 };
    let given = if call == "replace_any" { 2 } else { 1 };
    (held, given)
}

/// What a call gives up is dropped once: an old value that an argument takes the place of, or an argument that finds no place.
/// All the rest is dropped once with the value.
#[test]
fn what_is_given_up_is_dropped_once() -> Result<(), Fail> {
    for row in &DROPPED {
        let (call, variant, want_held, want_given) = *row;
        let held = Tally::new();
        let given = Tally::new();
        let mut value = counted(&held, variant);
        give_up(call, &mut value, &given);
        let dropped = (held.dropped(), given.dropped());
        same(call, &variant, &dropped, &(want_held, want_given))?;
        drop(value);
        let dropped = (held.dropped(), given.dropped());
        same(call, &variant, &dropped, &in_all(call, variant))?;
    }
    Ok(())
}

/// The same of `Either`.
#[rattlefmt::skip]
static DROPPED_BY_EITHER: [(&str, Either<(), ()>, u32, u32); 4] = [
    // call           value              held given
    ("replace_left",  Either::Left(()),  1,   0),
    ("replace_left",  Either::Right(()), 0,   1),
    ("replace_right", Either::Left(()),  0,   1),
    ("replace_right", Either::Right(()), 1,   0),
];

// The same of `Either`.
fn counted_either<'a>(held: &'a Tally, variant: Either<(), ()>) -> Either<Counted<'a>> {
    match variant {
        Either::Left(()) => Either::Left(Counted::new(held, false)),
        Either::Right(()) => Either::Right(Counted::new(held, false)),
    }
}

// The same of `Either`.
fn give_up_either<'a>(call: &str, value: &mut Either<Counted<'a>>, given: &'a Tally) {
    let argument = Counted::new(given, false);
    match call {
        "replace_left" => drop(value.replace_left(argument)),
        _ => drop(value.replace_right(argument)),
    }
}

/// What a replacement in an `Either` gives up is dropped once, and the rest with the value.
#[test]
fn what_either_gives_up_is_dropped_once() -> Result<(), Fail> {
    for row in &DROPPED_BY_EITHER {
        let (call, variant, want_held, want_given) = *row;
        let held = Tally::new();
        let given = Tally::new();
        let mut value = counted_either(&held, variant);
        give_up_either(call, &mut value, &given);
        let dropped = (held.dropped(), given.dropped());
        same(call, &variant, &dropped, &(want_held, want_given))?;
        drop(value);
        let dropped = (held.dropped(), given.dropped());
        same(call, &variant, &dropped, &(1, 1))?;
    }
    Ok(())
}

//! Getters: what a place holds, and another value in its stead.

use crate::ask::{Ask, Refused, Said};
use crate::read::{Given, Held, Value};
use either_or_both::{Either, EitherOrBoth};

/// The answer of a getter.
pub fn answer<L: Value, R: Value>(ask: &Ask, given: Given<L, R>) -> Said {
    match given {
        Given::Both(value) => of_both(ask, value),
        Given::One(value) => of_either(ask, value),
    }
}

fn of_both<L: Value, R: Value>(ask: &Ask, value: EitherOrBoth<L, R>) -> Said {
    let (f, _) = ask.functions();
    match ask.call {
        "both" => ask.show(value.both()),
        "both_and" => ask.show(value.both_and(other(ask)?)),
        "both_and_then" => ask.show(value.both_and_then(|l: L, r: R| f.place_two(l, r))),
        "left" => ask.show(value.left()),
        "left_and" => ask.show(value.left_and(other::<EitherOrBoth<L, R>>(ask)?)),
        "left_and_then" => ask.show(value.left_and_then(|l: L| f.place::<L, L, R>(l))),
        "right" => ask.show(value.right()),
        "right_and" => ask.show(value.right_and(other::<EitherOrBoth<L, R>>(ask)?)),
        "right_and_then" => ask.show(value.right_and_then(|r: R| f.place::<R, L, R>(r))),
        "only_left" => ask.show(value.only_left()),
        "only_right" => ask.show(value.only_right()),
        "unzip" => ask.show(value.unzip()),
        _ => Ok(None),
    }
}

fn of_either<L: Value, R: Value>(ask: &Ask, value: Either<L, R>) -> Said {
    let (f, _) = ask.functions();
    match ask.call {
        "left" => ask.show(value.left()),
        "left_and" => ask.show(value.left_and(other::<Either<L, R>>(ask)?)),
        "left_and_then" => ask.show(value.left_and_then(|l: L| f.side::<L, L, R>(l))),
        "right" => ask.show(value.right()),
        "right_and" => ask.show(value.right_and(other::<Either<L, R>>(ask)?)),
        "right_and_then" => ask.show(value.right_and_then(|r: R| f.side::<R, L, R>(r))),
        _ => Ok(None),
    }
}

// The other value.
fn other<T: Held>(ask: &Ask) -> Result<T, Refused> {
    T::read(ask.alloc(), ask.args)
}

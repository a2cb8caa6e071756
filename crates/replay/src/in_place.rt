//! In place: what the call gives, and what is left. What is given by reference is shown, and then twice that is written through it.

use crate::ask::{Ask, Said};
use crate::read::{Given, Value};
use either_or_both::{Either, EitherOrBoth};

/// The answer of a call that changes a value in place.
pub fn answer<L: Value, R: Value>(ask: &Ask, given: Given<L, R>) -> Said {
    match given {
        Given::Both(value) => of_both(ask, value),
        Given::One(value) => of_either(ask, value),
    }
}

fn of_both<L: Value, R: Value>(ask: &Ask, value: EitherOrBoth<L, R>) -> Said {
    let mut value = value;
    match ask.call {
        "replace_any" => {
            let replaced = value.replace_any(ask.first()?, ask.last()?);
            ask.show_left(replaced, &value)
        }
        "replace_left" => {
            let replaced = value.replace_left(ask.first()?);
            ask.show_left(replaced, &value)
        }
        "replace_right" => {
            let replaced = value.replace_right(ask.first()?);
            ask.show_left(replaced, &value)
        }
        "insert_left" | "left_or_insert" | "left_or_insert_default" | "left_or_insert_with" => {
            insert_left(ask, value)
        }
        "insert_right" | "right_or_insert" | "right_or_insert_default" | "right_or_insert_with" => {
            insert_right(ask, value)
        }
        _ => Ok(None),
    }
}

fn insert_left<L: Value, R: Value>(ask: &Ask, value: EitherOrBoth<L, R>) -> Said {
    let mut value = value;
    let (given, _) = ask.makers();
    let argument = if ask.args.is_empty() {
        L::default()
    } else {
        ask.first()?
    };
    let held = match ask.call {
        "insert_left" => double(value.insert_left(argument)),
        "left_or_insert" => double(value.left_or_insert(argument)),
        "left_or_insert_with" => double(value.left_or_insert_with(|| given.make())),
        _ => double(value.left_or_insert_default()),
    };
    ask.show_left(held, &value)
}

fn insert_right<L: Value, R: Value>(ask: &Ask, value: EitherOrBoth<L, R>) -> Said {
    let mut value = value;
    let (given, _) = ask.makers();
    let argument = if ask.args.is_empty() {
        R::default()
    } else {
        ask.first()?
    };
    let held = match ask.call {
        "insert_right" => double(value.insert_right(argument)),
        "right_or_insert" => double(value.right_or_insert(argument)),
        "right_or_insert_with" => double(value.right_or_insert_with(|| given.make())),
        _ => double(value.right_or_insert_default()),
    };
    ask.show_left(held, &value)
}

/// What a place holds, which then holds twice that.
pub fn double<T: Value>(place: &mut T) -> T {
    let held = *place;
    *place = T::of_code(held.code().wrapping_mul(2));
    held
}

fn of_either<L: Value, R: Value>(ask: &Ask, value: Either<L, R>) -> Said {
    let mut value = value;
    match ask.call {
        "replace_left" => {
            let replaced = value.replace_left(ask.first()?);
            ask.show_left(replaced, &value)
        }
        "replace_right" => {
            let replaced = value.replace_right(ask.first()?);
            ask.show_left(replaced, &value)
        }
        _ => Ok(None),
    }
}

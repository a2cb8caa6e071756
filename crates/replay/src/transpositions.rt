//! Transpositions: of tuples, of options and of results.

use crate::ask::{Ask, Refused, Said};
use crate::read::{Held, Value, optional};
use either_or_both::{Either, EitherOrBoth};

/// The answer of a transposition.
pub fn answer(ask: &Ask) -> Said {
    match of_types::<i32, i32>(ask)? {
        Some(answer) => Ok(Some(answer)),
        None => of_types::<u8, char>(ask),
    }
}

// The same where what is held is made of these types.
fn of_types<A: Value, B: Value>(ask: &Ask) -> Said {
    match of_both::<A, B>(ask)? {
        Some(answer) => Ok(Some(answer)),
        None => of_either::<A, B>(ask),
    }
}

fn of_both<A: Value, B: Value>(ask: &Ask) -> Said {
    let alloc = ask.alloc();
    let (f, _) = ask.functions();
    if let Some(value) = optional(EitherOrBoth::<(A, B)>::read(alloc, ask.value))? {
        return match ask.call {
            "transpose" => ask.show(value.transpose()),
            "transpose_left" => ask.show(value.transpose_left(|x: A, y: A| f.of_two(x, y))),
            "transpose_right" => ask.show(value.transpose_right(|x: B, y: B| f.of_two(x, y))),
            _ => Err(Refused::Line),
        };
    }
    if let Some(value) = optional(EitherOrBoth::<Option<A>, Option<B>>::read(alloc, ask.value))? {
        return ask.show(value.transpose());
    }
    let Some(value) = optional(EitherOrBoth::<Result<A, B>>::read(alloc, ask.value))? else {
        return Ok(None);
    };
    match ask.call {
        "transpose" => ask.show(value.transpose()),
        "transpose_err" => ask.show(value.transpose_err(|x: B, y: B| f.of_two(x, y))),
        "transpose_ok" => ask.show(value.transpose_ok(|x: A, y: A| f.of_two(x, y))),
        _ => Err(Refused::Line),
    }
}

fn of_either<A: Value, B: Value>(ask: &Ask) -> Said {
    let alloc = ask.alloc();
    if let Some(value) = optional(Either::<(A, B)>::read(alloc, ask.value))? {
        return match ask.call {
            "transpose" => ask.show(value.transpose()),
            "transpose_left" => ask.show(value.transpose_left()),
            "transpose_right" => ask.show(value.transpose_right()),
            _ => Err(Refused::Line),
        };
    }
    if let Some(value) = optional(Either::<Option<A>, Option<B>>::read(alloc, ask.value))? {
        return ask.show(value.transpose());
    }
    let Some(value) = optional(Either::<Result<A, B>>::read(alloc, ask.value))? else {
        return Ok(None);
    };
    match ask.call {
        "transpose" => ask.show(value.transpose()),
        "transpose_err" => ask.show(value.transpose_err()),
        "transpose_ok" => ask.show(value.transpose_ok()),
        _ => Err(Refused::Line),
    }
}

//! Conversions: `into` and `try_into`, and those that `?` makes.

use crate::ask::{Ask, Said};
use crate::read::{Held, Value, optional};
use either_or_both::{Either, EitherOrBoth, TryFromOptionsError};

/// The answer of a conversion.
pub fn answer(ask: &Ask) -> Said {
    match of_types::<i32, i32>(ask)? {
        Some(answer) => Ok(Some(answer)),
        None => of_types::<u8, char>(ask),
    }
}

// The same between these types.
fn of_types<L: Value, R: Value>(ask: &Ask) -> Said {
    let alloc = ask.alloc();
    if let Some(value) = optional(Either::<L, R>::read(alloc, ask.value))? {
        return match ask.call {
            "question" => ask.show(raise(value)),
            _ => ask.show::<EitherOrBoth<L, R>>(value.into()),
        };
    }
    if let Some(value) = optional(Result::<R, L>::read(alloc, ask.value))? {
        return ask.show::<Either<L, R>>(value.into());
    }
    match ask.call {
        "into" => of_tuple::<L, R>(ask),
        _ => of_options::<L, R>(ask),
    }
}

fn of_tuple<L: Value, R: Value>(ask: &Ask) -> Said {
    let alloc = ask.alloc();
    if let Some(value) = optional(<(L, R)>::read(alloc, ask.value))? {
        return ask.show::<EitherOrBoth<L, R>>(value.into());
    }
    if let Some(value) = optional(<(Option<L>, R)>::read(alloc, ask.value))? {
        return ask.show::<EitherOrBoth<L, R>>(value.into());
    }
    match optional(<(L, Option<R>)>::read(alloc, ask.value))? {
        Some(value) => ask.show::<EitherOrBoth<L, R>>(value.into()),
        None => Ok(None),
    }
}

fn of_options<L: Value, R: Value>(ask: &Ask) -> Said {
    let Some(value) = optional(<(Option<L>, Option<R>)>::read(ask.alloc(), ask.value))? else {
        return Ok(None);
    };
    match ask.call {
        "question" => ask.show(places(value)),
        "message" => match places(value) {
            Ok(value) => ask.show(value),
            Err(refused) => ask.show(refused.to_string(ask.alloc())?),
        },
        _ => {
            let converted: Result<EitherOrBoth<L, R>, TryFromOptionsError> = value.try_into();
            ask.show(converted)
        }
    }
}

// The value with these places, whose refusal `?` hands on.
fn places<L: Value, R: Value>(
    options: (Option<L>, Option<R>),
) -> Result<EitherOrBoth<L, R>, TryFromOptionsError> {
    let value = EitherOrBoth::try_from(options)?;
    Ok(value)
}

// The value as an error, which `?` converts.
fn raise<L: Value, R: Value>(error: Either<L, R>) -> Result<(), EitherOrBoth<L, R>> {
    let failed: Result<(), Either<L, R>> = Err(error);
    failed?;
    Ok(())
}

//! Iterators over the values of both enums.

use crate::ask::{Ask, Said};
use crate::ends::{show_exact, write};
use crate::read::Value;
use either_or_both::{Either, EitherOrBoth};

/// The answer of an iterator over the one or two values of an `EitherOrBoth`.
pub fn of_both<T: Value>(ask: &Ask, value: EitherOrBoth<T>) -> Said {
    let mut value = value;
    match ask.call {
        "into_iter" => show_exact(ask, value.into_iter()),
        "iter" => show_exact(ask, value.iter()),
        "iter_mut" => {
            let written = write(ask, value.iter_mut())?;
            ask.show_left(written, &value)
        }
        _ => Ok(None),
    }
}

/// The same of the one value of an `Either`.
pub fn of_either<T: Value>(ask: &Ask, value: Either<T>) -> Said {
    let mut value = value;
    match ask.call {
        "into_iter" => show_exact(ask, value.into_iter()),
        "iter" => show_exact(ask, value.iter()),
        "iter_mut" => {
            let written = write(ask, value.iter_mut())?;
            ask.show_left(written, &value)
        }
        _ => Ok(None),
    }
}

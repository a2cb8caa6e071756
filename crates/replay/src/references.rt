//! References to the places, and clones and copies of what they point to.

use crate::ask::{Ask, Said};
use crate::read::{Given, Value};
use either_or_both::{Either, EitherOrBoth};
use std::alloc::{AllocError, Global};

// The calls that both enums have. What is read from the line is written through a reference.
macro_rules! shared {
    ($ask:ident, $value:ident, $boxes:ident, $left:ident, $right:ident) => {
        match $ask.call {
            "as_ref" => $ask.show($value.as_ref()),
            "as_mut" => {
                $value.as_mut().biapply($left, $right);
                $ask.show_left((), &$value)
            }
            "left_mut" => {
                let held = match $value.left_mut() {
                    Some(place) => Some(std::mem::replace(place, $ask.first()?)),
                    None => None,
                };
                $ask.show_left(held, &$value)
            }
            "right_mut" => {
                let held = match $value.right_mut() {
                    Some(place) => Some(std::mem::replace(place, $ask.last()?)),
                    None => None,
                };
                $ask.show_left(held, &$value)
            }
            "as_deref" => $ask.show($boxes($ask.alloc(), $value)?.as_deref()),
            "as_deref_mut" => {
                let mut boxes = $boxes($ask.alloc(), $value)?;
                boxes.as_deref_mut().biapply($left, $right);
                $ask.show_left((), &boxes)
            }
            "clone" => $ask.show($value.clone()?),
            "cloned" => $ask.show($value.as_ref().cloned()?),
            "cloned_mut" => $ask.show($value.as_mut().cloned()?),
            "copied" => $ask.show($value.as_ref().copied()),
            "copied_mut" => $ask.show($value.as_mut().copied()),
            _ => Ok(None),
        }
    };
}

/// The answer of a call that makes references or takes such. An `Either` is made one of references by `from` too.
pub fn answer<L: Value, R: Value>(ask: &Ask, given: Given<L, R>) -> Said {
    let (first, second) = ask.functions();
    let left = |l: &mut L| *l = first.of(*l);
    let right = |r: &mut R| *r = second.of(*r);
    let mut value = match given {
        Given::One(value) => value,
        Given::Both(value) => {
            let mut value = value;
            return shared!(ask, value, boxed, left, right);
        }
    };
    match ask.call {
        "from_ref" => ask.show(Either::from(&value)),
        "from_mut" => {
            let places: Either<&mut L, &mut R> = Either::from(&mut value);
            places.biapply(left, right);
            ask.show_left((), &value)
        }
        _ => shared!(ask, value, boxed_either, left, right),
    }
}

// The values, each in a box.
fn boxed<L: Value, R: Value>(
    alloc: Global,
    value: EitherOrBoth<L, R>,
) -> Result<EitherOrBoth<Box<L>, Box<R>>, AllocError> {
    match value {
        EitherOrBoth::Left(l) => Ok(EitherOrBoth::Left(Box::new(alloc, l)?)),
        EitherOrBoth::Both(l, r) => {
            let left = Box::new(alloc, l)?;
            Ok(EitherOrBoth::Both(left, Box::new(alloc, r)?))
        }
        EitherOrBoth::Right(r) => Ok(EitherOrBoth::Right(Box::new(alloc, r)?)),
    }
}

/// The value of an `Either` in a box.
pub fn boxed_either<L: Value, R: Value>(
    alloc: Global,
    value: Either<L, R>,
) -> Result<Either<Box<L>, Box<R>>, AllocError> {
    match value {
        Either::Left(l) => Ok(Either::Left(Box::new(alloc, l)?)),
        Either::Right(r) => Ok(Either::Right(Box::new(alloc, r)?)),
    }
}

//! Inspection and application: functions called on the values, in their order.

use crate::ask::{Ask, Said};
use crate::read::{Given, Value};

// The calls that both enums have.
macro_rules! shared {
    ($ask:ident, $value:ident, $see_left:ident, $see_right:ident, $left:ident, $right:ident) => {
        match $ask.call {
            "biinspect" => $ask.show($value.biinspect($see_left, $see_right)),
            "inspect_left" => $ask.show($value.inspect_left($see_left)),
            "inspect_right" => $ask.show($value.inspect_right($see_right)),
            "biapply" => $ask.show($value.biapply($left, $right)),
            "apply_left" => $ask.show($value.apply_left($left)),
            "apply_right" => $ask.show($value.apply_right($right)),
            _ => Ok(None),
        }
    };
}

/// The answer of a call that inspects a value or applies functions to it.
pub fn answer<L: Value, R: Value>(ask: &Ask, given: Given<L, R>) -> Said {
    let (first, second) = ask.functions();
    let see_left = |l: &L| first.see(l);
    let see_right = |r: &R| second.see(r);
    let left = |l: L| first.see(&l);
    let right = |r: R| second.see(&r);
    if ask.call == "biapply_with" {
        return folded(ask, given);
    }
    match given {
        Given::Both(value) => shared!(ask, value, see_left, see_right, left, right),
        Given::One(value) => shared!(ask, value, see_left, see_right, left, right),
    }
}

// An accumulator is changed in place, by the left value and then by the right one.
fn folded<L: Value, R: Value>(ask: &Ask, given: Given<L, R>) -> Said {
    let (first, second) = ask.functions();
    let left = |acc: &mut i32, l: L| *acc = first.fold(*acc, l);
    let right = |acc: &mut i32, r: R| *acc = second.fold(*acc, r);
    let mut acc = 1;
    match given {
        Given::Both(value) => value.biapply_with(&mut acc, left, right),
        Given::One(value) => value.biapply_with(&mut acc, left, right),
    }
    ask.show(acc)
}

/// The same of two places of one type.
pub fn of_one_type<T: Value>(ask: &Ask, given: Given<T, T>) -> Said {
    let (f, _) = ask.functions();
    let see = |x: &T| f.see(x);
    let take = |x: T| f.see(&x);
    match given {
        Given::Both(value) => match ask.call {
            "inspect" => ask.show(value.inspect(see)),
            "apply" => ask.show(value.apply(take)),
            _ => Ok(None),
        },
        Given::One(value) => match ask.call {
            "inspect" => ask.show(value.inspect(see)),
            "apply" => ask.show(value.apply(take)),
            _ => Ok(None),
        },
    }
}

//! Tests: which places are present, and whether what they hold passes a test.

use crate::ask::{Ask, Said};
use crate::read::{Given, Value};

// The calls that both enums have.
macro_rules! shared {
    ($ask:ident, $value:ident, $left:ident, $right:ident) => {
        match $ask.call {
            "is_left" => $ask.show($value.is_left()),
            "is_left_and" => $ask.show($value.is_left_and($left)),
            "is_left_or" => $ask.show($value.is_left_or($right)),
            "is_right" => $ask.show($value.is_right()),
            "is_right_and" => $ask.show($value.is_right_and($right)),
            "is_right_or" => $ask.show($value.is_right_or($left)),
            _ => Ok(None),
        }
    };
}

/// The answer of a test.
pub fn answer<L: Value, R: Value>(ask: &Ask, given: Given<L, R>) -> Said {
    let (first, second) = ask.functions();
    let left = |l: L| first.test(l);
    let right = |r: R| second.test(r);
    let value = match given {
        Given::One(value) => return shared!(ask, value, left, right),
        Given::Both(value) => value,
    };
    match ask.call {
        "has_left" => ask.show(value.has_left()),
        "has_left_and" => ask.show(value.has_left_and(left)),
        "has_left_or" => ask.show(value.has_left_or(right)),
        "has_right" => ask.show(value.has_right()),
        "has_right_and" => ask.show(value.has_right_and(right)),
        "has_right_or" => ask.show(value.has_right_or(left)),
        "is_both" => ask.show(value.is_both()),
        "is_both_and" => ask.show(value.is_both_and(|l: L, r: R| first.test_two(l, r))),
        "is_both_or" => ask.show(value.is_both_or(left, right)),
        _ => shared!(ask, value, left, right),
    }
}

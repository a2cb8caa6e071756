//! Unwraps. Here the caller proves the variant; where it is another one, the original panics, and the answer is `panics`.

use crate::ask::{Ask, Said};
use crate::read::{Given, Value};
use either_or_both::EitherOrBoth;

// The calls that both enums have.
macro_rules! shared {
    ($ask:ident, $value:ident) => {
        match $ask.call {
            "expect_left" | "unwrap_left" | "unwrap_left_unchecked" if $value.left().is_none() => {
                $ask.panics()
            }
            "expect_left" => $ask.show($value.expect_left("left")),
            "unwrap_left" => $ask.show($value.unwrap_left()),
            "unwrap_left_unchecked" => $ask.show($value.unwrap_left_unchecked()),
            "expect_right" | "unwrap_right" | "unwrap_right_unchecked"
                if $value.right().is_none() =>
            {
                $ask.panics()
            }
            "expect_right" => $ask.show($value.expect_right("right")),
            "unwrap_right" => $ask.show($value.unwrap_right()),
            "unwrap_right_unchecked" => $ask.show($value.unwrap_right_unchecked()),
            _ => Ok(None),
        }
    };
}

/// The answer of an unwrap.
pub fn answer<L: Value, R: Value>(ask: &Ask, given: Given<L, R>) -> Said {
    match given {
        Given::Both(value) => of_both(ask, value),
        Given::One(value) => shared!(ask, value),
    }
}

fn of_both<L: Value, R: Value>(ask: &Ask, value: EitherOrBoth<L, R>) -> Said {
    match ask.call {
        "expect_both" | "unwrap_both" | "unwrap_both_unchecked" if !value.is_both() => ask.panics(),
        "expect_both" => ask.show(value.expect_both("both")),
        "unwrap_both" => ask.show(value.unwrap_both()),
        "unwrap_both_unchecked" => ask.show(value.unwrap_both_unchecked()),
        "expect_only_left" | "unwrap_only_left" | "unwrap_only_left_unchecked"
            if value.has_right() => { ask.panics() }
        "expect_only_left" => ask.show(value.expect_only_left("left")),
        "unwrap_only_left" => ask.show(value.unwrap_only_left()),
        "unwrap_only_left_unchecked" => ask.show(value.unwrap_only_left_unchecked()),
        "expect_only_right" | "unwrap_only_right" | "unwrap_only_right_unchecked"
            if value.has_left() => { ask.panics() }
        "expect_only_right" => ask.show(value.expect_only_right("right")),
        "unwrap_only_right" => ask.show(value.unwrap_only_right()),
        "unwrap_only_right_unchecked" => ask.show(value.unwrap_only_right_unchecked()),
        _ => shared!(ask, value),
    }
}

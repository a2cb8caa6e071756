//! Changes of form: sides exchanged, values mapped, reduced to one side, or filled up to both.

use crate::ask::{Ask, Said};
use crate::read::{Given, Value};

// The calls of both enums that exchange or map the sides.
macro_rules! maps {
    ($ask:ident, $value:ident, $left:ident, $right:ident, $make_left:ident, $make_right:ident) => {
        match $ask.call {
            "flip" => $ask.show($value.flip()),
            "bimap" => $ask.show($value.bimap($left, $right)),
            "map_left" => $ask.show($value.map_left($left)),
            "map_left_or" => $ask.show($value.map_left_or($ask.first()?, $left)),
            "map_left_or_default" => $ask.show($value.map_left_or_default($left)),
            "map_left_or_else" => $ask.show($value.map_left_or_else($make_left, $left)),
            "map_right" => $ask.show($value.map_right($right)),
            "map_right_or" => $ask.show($value.map_right_or($ask.first()?, $right)),
            "map_right_or_default" => $ask.show($value.map_right_or_default($right)),
            "map_right_or_else" => $ask.show($value.map_right_or_else($make_right, $right)),
            _ => Ok(None),
        }
    };
}

// The calls of both enums that give one side, a result, or both sides.
macro_rules! reductions {
    ($ask:ident, $value:ident, $left:ident, $right:ident, $make_left:ident, $make_right:ident) => {
        match $ask.call {
            "reduce_left" => $ask.show($value.reduce_left($right)),
            "reduce_right" => $ask.show($value.reduce_right($left)),
            "ok" => $ask.show($value.ok()),
            "ok_or" => $ask.show($value.ok_or($ask.first::<L>()?)),
            "ok_or_else" => $ask.show($value.ok_or_else($make_left)),
            "or" => $ask.show($value.or($ask.first()?, $ask.last()?)),
            "or_default" => $ask.show($value.or_default()),
            "or_else" => $ask.show($value.or_else($make_left, $make_right)),
            "into_left" => $ask.show($value.into_left($right)),
            "into_right" => $ask.show($value.into_right($left)),
            _ => Ok(None),
        }
    };
}

/// The answer of a change of form.
pub fn answer<L: Value, R: Value>(ask: &Ask, given: Given<L, R>) -> Said {
    match mapped(ask, given)? {
        Some(answer) => Ok(Some(answer)),
        None => reduced(ask, given),
    }
}

fn mapped<L: Value, R: Value>(ask: &Ask, given: Given<L, R>) -> Said {
    let (first, second) = ask.functions();
    let (made, _) = ask.makers();
    let left = |l: L| first.of::<L, L>(l);
    let right = |r: R| second.of::<R, R>(r);
    let make_left = || made.make::<L>();
    let make_right = || made.make::<R>();
    match given {
        Given::Both(value) => maps!(ask, value, left, right, make_left, make_right),
        Given::One(value) => maps!(ask, value, left, right, make_left, make_right),
    }
}

fn reduced<L: Value, R: Value>(ask: &Ask, given: Given<L, R>) -> Said {
    let (first, second) = ask.functions();
    let (made, other) = ask.makers();
    let left = |l: L| first.of::<L, L>(l);
    let right = |r: R| second.of::<R, R>(r);
    let to_left = |r: R| second.of::<R, L>(r);
    let to_right = |l: L| first.of::<L, R>(l);
    let make_left = || made.make::<L>();
    let make_right = || other.make::<R>();
    let value = match given {
        Given::One(value) => value,
        Given::Both(value) => {
            return match ask.call {
                "reduce_map_left" => ask.show(value.reduce_map_left(left, to_left)),
                "reduce_map_right" => ask.show(value.reduce_map_right(to_right, right)),
                _ => reductions!(ask, value, to_right, to_left, make_left, make_right),
            };
        }
    };
    match ask.call {
        "bireduce" => ask.show(value.bireduce(left, to_left)),
        "inject_left" => ask.show(value.inject_left(ask.first()?)),
        "inject_right" => ask.show(value.inject_right(ask.first()?)),
        _ => reductions!(ask, value, to_right, to_left, make_left, make_right),
    }
}

/// The same of two places of one type.
pub fn of_one_type<T: Value>(ask: &Ask, given: Given<T, T>) -> Said {
    let (first, _) = ask.functions();
    let f = |x: T| first.of::<T, T>(x);
    match given {
        Given::Both(value) => match ask.call {
            "map" => ask.show(value.map(f)),
            "reduce" => ask.show(value.reduce(|x: T, y: T| first.of_two(x, y))),
            _ => Ok(None),
        },
        Given::One(value) => match ask.call {
            "map" => ask.show(value.map(f)),
            "reduce" => ask.show(value.reduce()),
            "reduce_map" => ask.show(value.reduce_map(f)),
            _ => Ok(None),
        },
    }
}

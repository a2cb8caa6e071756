//! The order of two values, and whether they are equal and hash alike.

use crate::ask::{Ask, Said};
use crate::read::{Given, Held, Value};
use std::hash::{DefaultHasher, Hash, Hasher};

/// The comparison of a value with another one.
pub fn answer<L: Value, R: Value>(ask: &Ask, given: Given<L, R>) -> Said {
    if ask.call != "cmp" {
        return Ok(None);
    }
    match given {
        Given::Both(value) => compared(ask, value),
        Given::One(value) => compared(ask, value),
    }
}

// The value, compared with the argument in each way, and whether they hash alike.
fn compared<T: Held + Ord + Hash>(ask: &Ask, one: T) -> Said {
    let other = T::read(ask.alloc(), ask.args)?;
    let alike = hash_of(&one) == hash_of(&other);
    ask.show((
        one.cmp(&other),
        one.partial_cmp(&other),
        one < other,
        one == other,
        alike,
    ))
}

fn hash_of<T: Hash>(value: &T) -> u64 {
    let mut hasher = DefaultHasher::new();
    value.hash(&mut hasher);
    hasher.finish()
}

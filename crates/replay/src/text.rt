//! What values print, under the settings of a formatter, and what they are in JSON.

use crate::ask::{Ask, Refused, Said};
use crate::read::{Given, Value};
use either_or_both::{Either, EitherOrBoth};
use serde::{Deserialize, Serialize};
use std::fmt::{Debug, Display};

/// What a value prints.
pub fn answer<L: Value, R: Value>(ask: &Ask, given: Given<L, R>) -> Said {
    if ask.call != "print" {
        return Ok(None);
    }
    match given {
        Given::Both(value) => printed(ask, value),
        Given::One(value) => printed(ask, value),
    }
}

// The value as text in a style: for developers, and for users.
fn printed<T: Debug + Display + Drop>(ask: &Ask, value: T) -> Said {
    let alloc = ask.alloc();
    let text = match ask.args {
        "" => format!(in alloc; "{value}")?,
        ":>5" => format!(in alloc; "{value:>5}")?,
        ":*^5" => format!(in alloc; "{value:*^5}")?,
        ":+" => format!(in alloc; "{value:+}")?,
        ":05" => format!(in alloc; "{value:05}")?,
        ":?" => format!(in alloc; "{value:?}")?,
        ":#?" => format!(in alloc; "{value:#?}")?,
        _ => return Err(Refused::Line),
    };
    ask.show(text)
}

/// What a text of JSON is as a value of the type that the line names, and the text that is written of that value.
pub fn of_json(ask: &Ask) -> Said {
    match ask.args {
        "EitherOrBoth" => read_json::<EitherOrBoth<i32>>(ask),
        "EitherOrBoth<u8, char>" => read_json::<EitherOrBoth<u8, char>>(ask),
        "Either" => read_json::<Either<i32>>(ask),
        "Either<u8, char>" => read_json::<Either<u8, char>>(ask),
        _ => Err(Refused::Line),
    }
}

fn read_json<'de, T: Deserialize<'de> + Serialize + Debug + Drop>(ask: &'de Ask) -> Said {
    let alloc = ask.alloc();
    let read: Result<T, serde_json::Error> = serde_json::from_str(alloc, ask.value);
    let Ok(value) = read else {
        return ask.show(None::<T>);
    };
    let written = serde_json::to_string(alloc, &value).map_err(|_| Refused::Memory)?;
    ask.show(Some((value, written)))
}

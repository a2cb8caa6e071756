//! An `Either` as the container or the pointer that it holds.

use crate::ask::{Ask, Said};
use crate::in_place::double;
use crate::read::{Held, Value};
use crate::references::boxed_either;
use either_or_both::Either;
use std::ops::{Deref, DerefMut};

/// What a container holds once a list was put after it.
pub fn answer(ask: &Ask) -> Said {
    let alloc = ask.alloc();
    let mut value = Either::<Vec<i32>>::read(alloc, ask.value)?;
    value.extend(Vec::<i32>::read(alloc, ask.args)?)?;
    ask.show_left((), &value)
}

/// What a pointer to the value points to, and what it points to once that was doubled through it.
pub fn of_pointer<T: Value>(ask: &Ask, value: Either<T>) -> Said {
    let mut pointer = boxed_either(ask.alloc(), value)?;
    match ask.call {
        "deref" => ask.show(*pointer.deref()),
        "deref_mut" => {
            let held = double(pointer.deref_mut());
            ask.show_left(held, &pointer)
        }
        _ => Ok(None),
    }
}

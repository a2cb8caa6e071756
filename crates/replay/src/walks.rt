//! Iterators over lists: side by side, in turn, and over the list that an `Either` holds.

use crate::ask::{Ask, Refused, Said};
use crate::ends::{show, show_exact, write};
use crate::read::{Held, Value, optional};
use either_or_both::{Either, EitherOrBoth};

/// The answer of such an iterator.
pub fn answer(ask: &Ask) -> Said {
    let alloc = ask.alloc();
    match ask.call {
        "into_iter_chain" | "iter_chain" | "iter_chain_mut" => {
            chained(ask, EitherOrBoth::<Vec<i32>>::read(alloc, ask.value)?)
        }
        "into_iter_inner" | "iter_inner" | "iter_inner_mut" => {
            inner(ask, Either::<Vec<i32>>::read(alloc, ask.value)?)
        }
        _ => match paired::<i32, i32>(ask)? {
            Some(answer) => Ok(Some(answer)),
            None => paired::<u8, char>(ask),
        },
    }
}

// The iterators that give the items of both sides at once.
fn paired<L: Value, R: Value>(ask: &Ask) -> Said {
    let alloc = ask.alloc();
    if let Some(lists) = optional(EitherOrBoth::<Vec<L>, Vec<R>>::read(alloc, ask.value))? {
        return side_by_side(ask, lists);
    }
    match optional(Either::<Vec<L>, Vec<R>>::read(alloc, ask.value))? {
        Some(list) => held(ask, list),
        None => Ok(None),
    }
}

fn side_by_side<L: Value, R: Value>(ask: &Ask, lists: EitherOrBoth<Vec<L>, Vec<R>>) -> Said {
    let mut lists = lists;
    match ask.call {
        "into_iter_swap" => show_exact(ask, lists.into_iter_swap()),
        "iter_swap" => show_exact(ask, lists.iter_swap()),
        "iter_swap_mut" => {
            let written = write(ask, lists.iter_swap_mut())?;
            ask.show_left(written, &lists)
        }
        _ => Err(Refused::Line),
    }
}

fn chained<T: Value>(ask: &Ask, lists: EitherOrBoth<Vec<T>>) -> Said {
    let mut lists = lists;
    match ask.call {
        "into_iter_chain" => show(ask, lists.into_iter_chain()),
        "iter_chain" => show(ask, lists.iter_chain()),
        _ => {
            let written = write(ask, lists.iter_chain_mut())?;
            ask.show_left(written, &lists)
        }
    }
}

// The items of the one list, in its variant.
fn held<L: Value, R: Value>(ask: &Ask, list: Either<Vec<L>, Vec<R>>) -> Said {
    let mut list = list;
    match ask.call {
        "into_iter_swap" => show_exact(ask, list.into_iter_swap()),
        "iter_swap" => show_exact(ask, list.iter_swap()),
        "iter_swap_mut" => {
            let written = write(ask, list.iter_swap_mut())?;
            ask.show_left(written, &list)
        }
        _ => Err(Refused::Line),
    }
}

// The items of the one list, alone.
fn inner<T: Value>(ask: &Ask, list: Either<Vec<T>>) -> Said {
    let mut list = list;
    match ask.call {
        "into_iter_inner" => show_exact(ask, list.into_iter_inner()),
        "iter_inner" => show_exact(ask, list.iter_inner()),
        _ => {
            let written = write(ask, list.iter_inner_mut())?;
            ask.show_left(written, &list)
        }
    }
}

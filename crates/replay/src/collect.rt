//! Pairs of containers, collected from a list of values of either enum, as `[Left(1); Both(2, 3)]` and `Either[Left(1); Right(2)]`. A
//! hashed container is shown in the order of its keys.

use crate::ask::{Ask, Refused, Said};
use crate::read::{Held, Value, optional, read_values};
use either_or_both::{Either, EitherOrBoth};
use indexmap::{IndexMap, IndexSet};
use std::alloc::{AllocError, Global};
use std::collections::{BTreeMap, BTreeSet, HashMap, HashSet, VecDeque};

// Values, collected into the pair of lists or sets that the line names.
macro_rules! lists {
    ($ask:ident, $values:ident) => {{
        let alloc = $ask.alloc();
        match $ask.args {
            "Vec" => $ask.show($values.collect::<EitherOrBoth<Vec<L>, Vec<R>>>(alloc)?),
            "VecDeque" => {
                $ask.show($values.collect::<EitherOrBoth<VecDeque<L>, VecDeque<R>>>(alloc)?)
            }
            "IndexSet" => {
                $ask.show($values.collect::<EitherOrBoth<IndexSet<L>, IndexSet<R>>>(alloc)?)
            }
            "BTreeSet" => {
                $ask.show($values.collect::<EitherOrBoth<BTreeSet<L>, BTreeSet<R>>>(alloc)?)
            }
            "HashSet" => $ask.show(rising_sets(alloc, $values.collect(alloc)?)?),
            _ => Err(Refused::Line),
        }
    }};
}

// The same of pairs of maps.
macro_rules! maps {
    ($ask:ident, $entries:ident) => {{
        let alloc = $ask.alloc();
        match $ask.args {
            "IndexMap" => {
                $ask.show($entries.collect::<EitherOrBoth<IndexMap<K, V>>>(alloc)?)
            }
            "BTreeMap" => {
                $ask.show($entries.collect::<EitherOrBoth<BTreeMap<K, V>>>(alloc)?)
            }
            "HashMap" => $ask.show(rising_maps(alloc, $entries.collect(alloc)?)?),
            _ => Err(Refused::Line),
        }
    }};
}

/// The collected pair.
pub fn answer(ask: &Ask) -> Said {
    match of_types::<i32, i32>(ask)? {
        Some(answer) => Ok(Some(answer)),
        None => of_types::<u8, char>(ask),
    }
}

// The same of values of these types.
fn of_types<L: Value, R: Value>(ask: &Ask) -> Said {
    let alloc = ask.alloc();
    if ask.args.ends_with("Map") {
        return of_entries::<L, R>(ask);
    }
    match ask.value.strip_prefix("Either") {
        Some(list) => match optional(read_either(alloc, list))? {
            Some(values) => of_either::<L, R>(ask, values),
            None => Ok(None),
        },
        None => match optional(read_values(alloc, ask.value))? {
            Some(values) => of_both::<L, R>(ask, values),
            None => Ok(None),
        },
    }
}

fn of_entries<K: Value, V: Value>(ask: &Ask) -> Said {
    let alloc = ask.alloc();
    match ask.value.strip_prefix("Either") {
        Some(list) => match optional(read_either(alloc, list))? {
            Some(entries) => entries_of_either::<K, V>(ask, entries),
            None => Ok(None),
        },
        None => match optional(read_values(alloc, ask.value))? {
            Some(entries) => entries_of_both::<K, V>(ask, entries),
            None => Ok(None),
        },
    }
}

fn of_both<L: Value, R: Value>(ask: &Ask, values: Vec<EitherOrBoth<L, R>>) -> Said {
    let values = values.into_iter();
    lists!(ask, values)
}

fn of_either<L: Value, R: Value>(ask: &Ask, values: Vec<Either<L, R>>) -> Said {
    let values = values.into_iter();
    lists!(ask, values)
}

fn entries_of_both<K: Value, V: Value>(ask: &Ask, entries: Vec<EitherOrBoth<(K, V)>>) -> Said {
    let entries = entries.into_iter();
    maps!(ask, entries)
}

fn entries_of_either<K: Value, V: Value>(ask: &Ask, entries: Vec<Either<(K, V)>>) -> Said {
    let entries = entries.into_iter();
    maps!(ask, entries)
}

// A list of values of `Either`.
fn read_either<L: Held, R: Held>(alloc: Global, text: &str) -> Result<Vec<Either<L, R>>, Refused> {
    let mut list = Vec::new(alloc);
    for value in read_values::<EitherOrBoth<L, R>>(alloc, text)? {
        let value = match value {
            EitherOrBoth::Left(l) => Either::Left(l),
            EitherOrBoth::Right(r) => Either::Right(r),
            EitherOrBoth::Both(_left, _right) => return Err(Refused::Line),
        };
        list.push(value).map_err(AllocError::from)?;
    }
    Ok(list)
}

fn rising_sets<L: Value, R: Value>(
    alloc: Global,
    pair: EitherOrBoth<HashSet<L>, HashSet<R>>,
) -> Result<EitherOrBoth<BTreeSet<L>, BTreeSet<R>>, AllocError> {
    match pair {
        EitherOrBoth::Left(l) => Ok(EitherOrBoth::Left(l.into_iter().collect(alloc)?)),
        EitherOrBoth::Both(l, r) => {
            let l = l.into_iter().collect(alloc)?;
            Ok(EitherOrBoth::Both(l, r.into_iter().collect(alloc)?))
        }
        EitherOrBoth::Right(r) => Ok(EitherOrBoth::Right(r.into_iter().collect(alloc)?)),
    }
}

fn rising_maps<K: Value, V: Value>(
    alloc: Global,
    pair: EitherOrBoth<HashMap<K, V>>,
) -> Result<EitherOrBoth<BTreeMap<K, V>>, AllocError> {
    match pair {
        EitherOrBoth::Left(l) => Ok(EitherOrBoth::Left(l.into_iter().collect(alloc)?)),
        EitherOrBoth::Both(l, r) => {
            let l = l.into_iter().collect(alloc)?;
            Ok(EitherOrBoth::Both(l, r.into_iter().collect(alloc)?))
        }
        EitherOrBoth::Right(r) => Ok(EitherOrBoth::Right(r.into_iter().collect(alloc)?)),
    }
}

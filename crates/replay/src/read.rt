//! Values of both enums, read from text as `Both(1, 2)`, `Left(1u8)` and `Either::Right('c')`.

use crate::ask::Refused;
use either_or_both::{Either, EitherOrBoth};
use std::alloc::{AllocError, Global};
use std::fmt::{Debug, Display};
use std::hash::Hash;

/// What is read from text: a value, an option, a result, a pair or a list of such.
pub trait Held: Sized + Drop {
    /// `Refused::Line` where the text is another thing.
    fn read(alloc: Global, text: &str) -> Result<Self, Refused>;
}

/// What a place holds in most lines: a number or a letter.
pub trait Value: Held + Copy + Default + Ord + Hash + Debug + Display {
    /// The number that it is, or the place of the letter in the alphabet.
    fn code(self) -> i32;

    /// The value with this code, modulo how many there are.
    fn of_code(code: i32) -> Self;
}

impl Held for i32 {
    fn read(_alloc: Global, text: &str) -> Result<Self, Refused> {
        text.parse().ok().ok_or(Refused::Line)
    }
}

impl Value for i32 {
    fn code(self) -> i32 {
        self
    }

    fn of_code(code: i32) -> Self {
        code
    }
}

impl Held for u8 {
    fn read(_alloc: Global, text: &str) -> Result<Self, Refused> {
        let digits = text.strip_suffix("u8").ok_or(Refused::Line)?;
        digits.parse().ok().ok_or(Refused::Line)
    }
}

impl Value for u8 {
    fn code(self) -> i32 {
        i32::from(self)
    }

    fn of_code(code: i32) -> Self {
        u8::try_from(code.rem_euclid(256)).unwrap_or(0)
    }
}

impl Held for char {
    fn read(_alloc: Global, text: &str) -> Result<Self, Refused> {
        let letter = between(text, "'", "'")?;
        letter.chars().next().ok_or(Refused::Line)
    }
}

impl Value for char {
    fn code(self) -> i32 {
        i32::try_from(self as u32).unwrap_or(0).wrapping_sub(97)
    }

    fn of_code(code: i32) -> Self {
        let place = u8::try_from(code.rem_euclid(26)).unwrap_or(0);
        b'a'.wrapping_add(place) as char
    }
}

impl<T: Held> Held for Option<T> {
    fn read(alloc: Global, text: &str) -> Result<Self, Refused> {
        if text == "None" {
            return Ok(None);
        }
        Ok(Some(T::read(alloc, between(text, "Some(", ")")?)?))
    }
}

impl<T: Held, E: Held> Held for Result<T, E> {
    fn read(alloc: Global, text: &str) -> Result<Self, Refused> {
        match between(text, "Ok(", ")") {
            Ok(inner) => Ok(Ok(T::read(alloc, inner)?)),
            Err(_) => Ok(Err(E::read(alloc, between(text, "Err(", ")")?)?)),
        }
    }
}

impl<A: Held, B: Held> Held for (A, B) {
    fn read(alloc: Global, text: &str) -> Result<Self, Refused> {
        let inner = between(text, "(", ")")?;
        let (first, second) = inner.split_once(',').ok_or(Refused::Line)?;
        let first = A::read(alloc, first)?;
        Ok((first, B::read(alloc, second)?))
    }
}

impl<T: Held> Held for Vec<T> {
    fn read(alloc: Global, text: &str) -> Result<Self, Refused> {
        read_list(alloc, between(text, "[", "]")?, ",")
    }
}

impl<L: Held, R: Held> Held for EitherOrBoth<L, R> {
    fn read(alloc: Global, text: &str) -> Result<Self, Refused> {
        if let Ok(inner) = between(text, "Left(", ")") {
            return Ok(EitherOrBoth::Left(L::read(alloc, inner)?));
        }
        if let Ok(inner) = between(text, "Right(", ")") {
            return Ok(EitherOrBoth::Right(R::read(alloc, inner)?));
        }
        let inner = between(text, "Both(", ")")?;
        let (left, right) = inner.split_once(", ").ok_or(Refused::Line)?;
        let left = L::read(alloc, left)?;
        Ok(EitherOrBoth::Both(left, R::read(alloc, right)?))
    }
}

impl<L: Held, R: Held> Held for Either<L, R> {
    fn read(alloc: Global, text: &str) -> Result<Self, Refused> {
        if let Ok(inner) = between(text, "Either::Left(", ")") {
            return Ok(Either::Left(L::read(alloc, inner)?));
        }
        let inner = between(text, "Either::Right(", ")")?;
        Ok(Either::Right(R::read(alloc, inner)?))
    }
}

fn between<'a>(text: &'a str, before: &str, after: &str) -> Result<&'a str, Refused> {
    let rest = text.strip_prefix(before).ok_or(Refused::Line)?;
    rest.strip_suffix(after).ok_or(Refused::Line)
}

/// A list of values with this text between two of them.
pub fn read_list<T: Held>(alloc: Global, text: &str, between: &str) -> Result<Vec<T>, Refused> {
    let mut list = Vec::new(alloc);
    if text.is_empty() {
        return Ok(list);
    }
    for word in text.split(between) {
        list.push(T::read(alloc, word)?).map_err(AllocError::from)?;
    }
    Ok(list)
}

/// A list of values, as `[Left(1); Both(2, 3)]`.
pub fn read_values<T: Held>(alloc: Global, text: &str) -> Result<Vec<T>, Refused> {
    read_list(alloc, between(text, "[", "]")?, "; ")
}

/// A value of one of the two enums, with these types on its sides.
#[derive(Clone, Copy, Drop)]
pub enum Given<L, R> {
    /// An `EitherOrBoth`.
    Both(EitherOrBoth<L, R>),
    /// An `Either`.
    One(Either<L, R>),
}

impl<L: Value, R: Value> Held for Given<L, R> {
    fn read(alloc: Global, text: &str) -> Result<Self, Refused> {
        match optional(EitherOrBoth::read(alloc, text))? {
            Some(value) => Ok(Given::Both(value)),
            None => Ok(Given::One(Either::read(alloc, text)?)),
        }
    }
}

/// What was read, and None where the text is another thing.
pub fn optional<T: Drop>(read: Result<T, Refused>) -> Result<Option<T>, Refused> {
    match read {
        Ok(value) => Ok(Some(value)),
        Err(Refused::Line) => Ok(None),
        Err(Refused::Memory) => Err(Refused::Memory),
    }
}

//! Iterators whose ends are called in the order that a line says.

use crate::ask::{Ask, Refused, Said};
use crate::in_place::double;
use crate::read::Value;
use either_or_both::{Either, EitherOrBoth};
use std::alloc::AllocError;
use std::fmt::Debug;

/// What each call returned: `next` for a word `front`, `next_back` for a word `back`.
pub fn drive<I: DoubleEndedIterator>(
    ask: &Ask,
    walk: &mut I,
) -> Result<Vec<Option<I::Item>>, Refused>
where
    I::Item: Drop,
    requires front { (s : I) → I.can_next s }
    requires back { (s : I) → I.can_next_back s }
{
    let mut answers = Vec::new(ask.alloc());
    if ask.args.is_empty() {
        return Ok(answers);
    }
    for word in ask.args.split(' ') {
        let item = match word {
            "front" => walk.next(),
            "back" => walk.next_back(),
            _ => return Err(Refused::Line),
        };
        answers.push(item).map_err(AllocError::from)?;
    }
    Ok(answers)
}

/// What an iterator still gives from the front, by its clone.
pub fn still_to_come<I: Iterator + Clone + Drop>(
    ask: &Ask,
    walk: &I,
) -> Result<Vec<I::Item>, Refused>
where
    I::Item: Drop,
    requires { (s : I) → I.can_next s }
{
    let mut items = Vec::new(ask.alloc());
    let mut copy = walk.clone()?;
    let (count, _) = walk.size_hint();
    for _ in 0..count.saturating_add(1) {
        put_next(&mut items, &mut copy)?;
    }
    Ok(items)
}

// Puts what an iterator gives next after the items, if it gives one.
fn put_next<I: Iterator>(items: &mut Vec<I::Item>, walk: &mut I) -> Result<(), AllocError>
where
    I::Item: Drop,
    requires { (s : I) → I.can_next s }
{
    if let Some(item) = walk.next() {
        items.push(item)?;
    }
    Ok(())
}

/// What the calls returned, the hint then, and what still comes.
pub fn show<I: DoubleEndedIterator + Clone + Drop>(ask: &Ask, walk: I) -> Said
where
    I::Item: Debug + Drop,
    requires front { (s : I) → I.can_next s }
    requires back { (s : I) → I.can_next_back s }
{
    let mut walk = walk;
    let answers = drive(ask, &mut walk)?;
    let rest = still_to_come(ask, &walk)?;
    ask.show((answers, walk.size_hint(), rest))
}

/// The same of an iterator that knows its length, with that before the hint.
pub fn show_exact<I: DoubleEndedIterator + ExactSizeIterator + Clone + Drop>(
    ask: &Ask,
    walk: I,
) -> Said
where
    I::Item: Debug + Drop,
    requires front { (s : I) → I.can_next s }
    requires back { (s : I) → I.can_next_back s }
{
    let mut walk = walk;
    let answers = drive(ask, &mut walk)?;
    let rest = still_to_come(ask, &walk)?;
    ask.show((answers, walk.len(), walk.size_hint(), rest))
}

/// An item that gives places for writing.
pub trait Place: Drop {
    /// What such places hold.
    type Held: Debug + Drop;

    /// What the places hold, which then hold twice that.
    fn double(self) -> Self::Held;
}

impl<'a, T: Value> Place for &'a mut T {
    type Held = T;

    fn double(self) -> T {
        double(self)
    }
}

impl<'a, L: Value, R: Value> Place for EitherOrBoth<&'a mut L, &'a mut R> {
    type Held = EitherOrBoth<L, R>;

    fn double(self) -> EitherOrBoth<L, R> {
        match self {
            EitherOrBoth::Left(l) => EitherOrBoth::Left(double(l)),
            EitherOrBoth::Both(l, r) => {
                let left = double(l);
                EitherOrBoth::Both(left, double(r))
            }
            EitherOrBoth::Right(r) => EitherOrBoth::Right(double(r)),
        }
    }
}

impl<'a, L: Value, R: Value> Place for Either<&'a mut L, &'a mut R> {
    type Held = Either<L, R>;

    fn double(self) -> Either<L, R> {
        match self {
            Either::Left(l) => Either::Left(double(l)),
            Either::Right(r) => Either::Right(double(r)),
        }
    }
}

/// What each call returned, which is then doubled in its place.
pub fn write<I: DoubleEndedIterator + Drop>(
    ask: &Ask,
    walk: I,
) -> Result<Vec<Option<<I::Item as Place>::Held>>, Refused>
where
    I::Item: Place,
    requires front { (s : I) → I.can_next s }
    requires back { (s : I) → I.can_next_back s }
{
    let mut walk = walk;
    let mut shown = Vec::new(ask.alloc());
    for item in drive(ask, &mut walk)? {
        let held = match item {
            Some(item) => Some(item.double()),
            None => None,
        };
        shown.push(held).map_err(AllocError::from)?;
    }
    Ok(shown)
}

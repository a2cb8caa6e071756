//! Clones of both enums and of their walks, and clones of what references show.

use crate::token::{Token, counted};
use either_or_both::EitherOrBoth::{Both, Left, Right};
use either_or_both::{Either, EitherOrBoth};
use std::alloc::{AllocError, Global};
use std::fmt::Debug;
use std::test::Fail;
use testkit::memory::{RUNS, Refusing, Runs, Tokens};
use testkit::same::same;

type Memory<'a> = &'a Refusing<Global>;

type List<'a> = Vec<Token, Memory<'a>>;

fn shown<T: Debug>(alloc: Global, value: &T) -> Result<String, AllocError> {
    format!(in alloc; "{value:?}")
}

// Clones the value with each request refused in turn. What a refused run has cloned is dropped, the value is as it was, and the run
// that meets no refusal answers its like. The value asks for memory with the handle that it was built with.
fn check<V: Clone + Debug + Drop>(
    alloc: Global,
    memory: Memory,
    tokens: &Tokens,
    value: V,
) -> Result<(), Fail> {
    let want = shown(alloc, &value)?;
    let runs = Runs::new(alloc, memory, tokens);
    for number in 1..RUNS {
        memory.refuse(number);
        let is_whole = runs.is_whole(value.clone(), &want)?;
        same("the value", &number, &shown(alloc, &value)?, &want)?;
        if is_whole {
            same("refused runs", &want, &(1 < number), &true)?;
            return Ok(());
        }
    }
    Err("each run was refused")?;
    Ok(())
}

// A list of two numbers, built with nothing refused.
fn list<'a>(memory: Memory<'a>, tokens: &Tokens) -> Result<List<'a>, AllocError> {
    memory.refuse(0);
    let mut list = Vec::new(memory);
    list.push(counted(tokens, 1)?)?;
    list.push(counted(tokens, 3)?)?;
    Ok(list)
}

// The same on both sides.
fn lists<'a>(
    memory: Memory<'a>,
    tokens: &Tokens,
) -> Result<EitherOrBoth<List<'a>, List<'a>>, AllocError> {
    Ok(Both(list(memory, tokens)?, list(memory, tokens)?))
}

// Each variant of `EitherOrBoth`.
const PAIRS: [EitherOrBoth<()>; 3] = [Left(()), Both((), ()), Right(())];

// Each variant of `Either`.
const ONES: [Either<()>; 2] = [Either::Left(()), Either::Right(())];

// Lists in the places of this variant.
fn pair<'a>(
    memory: Memory<'a>,
    tokens: &Tokens,
    variant: EitherOrBoth<()>,
) -> Result<EitherOrBoth<List<'a>>, AllocError> {
    match variant {
        Left(()) => Ok(Left(list(memory, tokens)?)),
        Both((), ()) => lists(memory, tokens),
        Right(()) => Ok(Right(list(memory, tokens)?)),
    }
}

// A list in the place of this variant.
fn one<'a>(
    memory: Memory<'a>,
    tokens: &Tokens,
    variant: Either<()>,
) -> Result<Either<List<'a>>, AllocError> {
    let list = list(memory, tokens)?;
    match variant {
        Either::Left(()) => Ok(Either::Left(list)),
        Either::Right(()) => Ok(Either::Right(list)),
    }
}

/// Each variant of both enums: a clone is made whole, or where memory is refused is dropped.
#[test]
fn values_are_cloned(rt: HostRuntime) -> Result<(), Fail> {
    let alloc = rt.alloc();
    let m = &Refusing::new(alloc);
    let t = &Tokens::new(alloc)?;
    for variant in PAIRS {
        check(alloc, m, t, pair(m, t, variant)?)?;
    }
    for variant in ONES {
        check(alloc, m, t, one(m, t, variant)?)?;
    }
    Ok(())
}

/// The same of the walks over `EitherOrBoth`.
#[test]
fn walks_over_either_or_both_are_cloned(rt: HostRuntime) -> Result<(), Fail> {
    let alloc = rt.alloc();
    let m = &Refusing::new(alloc);
    let t = &Tokens::new(alloc)?;
    check(alloc, m, t, lists(m, t)?.into_iter())?;
    check(alloc, m, t, lists(m, t)?.into_iter_chain())?;
    check(alloc, m, t, lists(m, t)?.into_iter_swap())
}

/// The same of the walks over `Either`.
#[test]
fn walks_over_either_are_cloned(rt: HostRuntime) -> Result<(), Fail> {
    let alloc = rt.alloc();
    let m = &Refusing::new(alloc);
    let t = &Tokens::new(alloc)?;
    let (left, right) = (Either::Left(()), Either::Right(()));
    check(alloc, m, t, one(m, t, left)?.into_iter())?;
    check(alloc, m, t, one(m, t, right)?.into_iter_inner())?;
    check(alloc, m, t, one(m, t, left)?.into_iter_swap())
}

// A value whose places are cloned through references to them.
trait ClonedPlaces: Debug + Drop + Sized {
    fn cloned_places(&self) -> Result<Self, AllocError>;

    fn cloned_places_mut(&mut self) -> Result<Self, AllocError>;
}

impl<'a> ClonedPlaces for EitherOrBoth<List<'a>, List<'a>> {
    fn cloned_places(&self) -> Result<Self, AllocError> {
        self.as_ref().cloned()
    }

    fn cloned_places_mut(&mut self) -> Result<Self, AllocError> {
        self.as_mut().cloned()
    }
}

impl<'a> ClonedPlaces for Either<List<'a>, List<'a>> {
    fn cloned_places(&self) -> Result<Self, AllocError> {
        self.as_ref().cloned()
    }

    fn cloned_places_mut(&mut self) -> Result<Self, AllocError> {
        self.as_mut().cloned()
    }
}

// Clones what is behind the references of a value with each request refused in turn.
fn check_cloned<V: ClonedPlaces>(
    alloc: Global,
    memory: Memory,
    tokens: &Tokens,
    mut value: V,
) -> Result<(), Fail> {
    let want = shown(alloc, &value)?;
    let runs = Runs::new(alloc, memory, tokens);
    for number in 1..RUNS {
        memory.refuse(number);
        let is_whole = runs.is_whole(value.cloned_places(), &want)?;
        memory.refuse(number);
        let is_lent_whole = runs.is_whole(value.cloned_places_mut(), &want)?;
        same("cloned on &mut", &number, &is_lent_whole, &is_whole)?;
        same("the value", &number, &shown(alloc, &value)?, &want)?;
        if is_whole {
            same("refused runs", &want, &(1 < number), &true)?;
            return Ok(());
        }
    }
    Err("each run was refused")?;
    Ok(())
}

/// The same of each variant of both enums through references, and through references for writing.
#[test]
fn places_are_cloned_through_references(rt: HostRuntime) -> Result<(), Fail> {
    let alloc = rt.alloc();
    let m = &Refusing::new(alloc);
    let t = &Tokens::new(alloc)?;
    for variant in PAIRS {
        check_cloned(alloc, m, t, pair(m, t, variant)?)?;
    }
    for variant in ONES {
        check_cloned(alloc, m, t, one(m, t, variant)?)?;
    }
    Ok(())
}

/// A value whose clone refuses by itself.
#[derive(Debug, PartialEq, Eq, Drop)]
struct Stubborn;

impl Clone for Stubborn {
    fn clone(&self) -> Result<Stubborn, AllocError> {
        Err(AllocError)
    }
}

/// A clone that refuses by itself is handed on: what was borrowed is as it was.
#[test]
fn clone_that_refuses_by_itself_is_handed_on(rt: HostRuntime) {
    let left = 1;
    let right = Stubborn;
    let refused: Result<EitherOrBoth<i32, Stubborn>, AllocError> = Both(&left, &right).cloned();
    let either: Either<Stubborn> = Either::Right(Stubborn);
    let are_refused = [
        refused.is_err(),
        either.clone().is_err(),
        either.as_ref().cloned().is_err(),
    ];
    assert_eq!(rt; are_refused, [true; 3]);
    let held = (left, right, either);
    assert_eq!(rt; held, (1, Stubborn, Either::Right(Stubborn)));
}

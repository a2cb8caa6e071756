//! Three hundred values a side in each shape of container, past its first tables: collected, collected again and cloned; regrouped,
//! driven and joined, too. Each request is refused in turn.
ghost use Rattle.std.specs.Prelude.{List, ◌≤◌};
ghost use Rattle.eob_both.specs.declared.either_or_both.EitherOrBoth as enum;
ghost use Rattle.either_or_both.specs.declared.either.Either as one;

use crate::shapes::{Memory, long_lists_and_sets, long_maps, pair};
use crate::token::{Entry, Token, counted};
use either_or_both::EitherOrBoth::{Both, Left, Right};
use either_or_both::join::{is_rising, outer_join};
use either_or_both::laws::{Walked, recollect_walked, regroup};
use either_or_both::{Either, EitherOrBoth};
use std::alloc::{AllocError, Global};
use std::process::Abort;
use std::test::Fail;
use testkit::memory::{RUNS, Refusing, Source, Tokens, Watch};
use testkit::same::same;

// So many values on each side.
const MANY: u16 = 300;

// More requests than collecting them or cloning takes, since containers grow by a multiple of what they hold or hold some values a
// request. With so many runs, each request has been refused.
const FEW: u64 = 150;

// The numbers below a prime and some more, in an order that neither rises nor falls.
fn numbers(alloc: Global, tokens: &Tokens, first: u16) -> Result<Vec<Token>, AllocError> {
    let mut numbers = Vec::new(alloc);
    for i in 0..MANY {
        let number = i.wrapping_mul(97) % 307;
        numbers.push(counted(tokens, number.saturating_add(first))?)?;
    }
    Ok(numbers)
}

// The numbers as keys, each with another one as value.
fn entries(alloc: Global, numbers: &[Token]) -> Result<Vec<Entry>, AllocError> {
    let mut entries = Vec::new(alloc);
    for (key, value) in numbers.iter().zip(numbers.iter().rev()) {
        entries.push((key.clone()?, value.clone()?))?;
    }
    Ok(entries)
}

// Values that bring each item to its side, some alone and some at once.
fn values<'a, T: Clone + Drop>(
    alloc: Global,
    (left, right): (&'a [T], &'a [T]),
) -> Result<Vec<EitherOrBoth<T>>, AllocError> {
    let mut values = Vec::new(alloc);
    for (i, (l, r)) in left.iter().zip(right).enumerate() {
        if i % 3 == 0 {
            values.push(Right(r.clone()?))?;
            values.push(Left(l.clone()?))?;
        } else {
            values.push(Both(l, r).cloned()?)?;
        }
    }
    Ok(values)
}

// The same of `Either`.
fn eithers<T: Clone + Drop>(
    alloc: Global,
    (left, right): (&[T], &[T]),
) -> Result<Vec<Either<T>>, AllocError> {
    let mut values = Vec::new(alloc);
    for (l, r) in left.iter().zip(right) {
        values.push(Either::Left(l.clone()?))?;
        values.push(Either::Right(r.clone()?))?;
    }
    Ok(values)
}

// Whether a run of a call was whole that ended like this, and not refused. Its answer is the wanted one.
fn is_whole<P: PartialEq + Drop>(
    memory: Memory,
    call: &str,
    number: u64,
    ended: Result<P, AllocError>,
    want: &P,
) -> Result<bool, Fail> {
    match memory.judge(ended)? {
        Some(whole) => {
            same(call, &number, &(whole == *want), &true)?;
            Ok(true)
        }
        None => Ok(false),
    }
}

// Collects the items with each request refused in turn: for few requests, they make what is wanted.
fn check_collected<'a, I: Clone + Drop, P: FromIterator<I, Alloc = Memory<'a>> + PartialEq + Drop>(
    memory: Memory<'a>,
    tokens: &Tokens,
    items: &[I],
    want: &P,
) -> Result<(), Fail>
    requires { (xs : List I) → P.can_from_iter xs }
{
    let alive = tokens.alive();
    for number in 1..FEW {
        let watch = Watch::new(memory);
        memory.refuse(number);
        let ended: Result<P, AllocError> = Source::new(items, &watch).collect(memory);
        same("a late call", &number, &watch.is_late(), &false)?;
        let is_whole = is_whole(memory, "collect", number, ended, want)?;
        same("values alive", &number, &tokens.alive(), &alive)?;
        if is_whole {
            same("refused runs", &number, &(1 < number), &true)?;
            return Ok(());
        }
    }
    Err("it asks too often")?;
    Ok(())
}

// Clones the pair and collects it again with each request refused in turn.
fn check_again<'a, C: Walked + Clone + PartialEq + Drop>(
    memory: Memory<'a>,
    tokens: &Tokens,
    want: &EitherOrBoth<C>,
) -> Result<(), Fail>
where
    C::Item: Drop,
    EitherOrBoth<C, C>: FromIterator<EitherOrBoth<C::Item, C::Item>, Alloc = Memory<'a>>,
    requires any { (xs : List (enum.EitherOrBoth C.Item C.Item))
        → ⟦<EitherOrBoth<C, C> as FromIterator<EitherOrBoth<C::Item, C::Item>>>⟧.can_from_iter xs }
    requires whole { (v : enum.EitherOrBoth C C)
        → ⟦<EitherOrBoth<C, C> as FromIterator<EitherOrBoth<C::Item, C::Item>>>⟧.is_complete v }
{
    let alive = tokens.alive();
    for number in 1..FEW {
        memory.refuse(number);
        let is_cloned = is_whole(memory, "clone", number, want.clone(), want)?;
        memory.refuse(0);
        let pair = want.clone()?;
        memory.refuse(number);
        let ended = recollect_walked(memory, pair);
        let is_collected = is_whole(memory, "recollect", number, ended, want)?;
        same("values alive", &number, &tokens.alive(), &alive)?;
        if is_cloned && is_collected {
            same("refused runs", &number, &(1 < number), &true)?;
            return Ok(());
        }
    }
    Err("it asks too often")?;
    Ok(())
}

/// Collects a pair with these many items a side from both enums, clones it and collects it again.
pub fn check<'a, C: Walked + FromIterator<C::Item, Alloc = Memory<'a>> + Clone + PartialEq + Drop>(
    alloc: Global,
    memory: Memory<'a>,
    tokens: &Tokens,
    sides: (&[C::Item], &[C::Item]),
) -> Result<(), Fail>
where
    C::Item: Clone + Drop,
    EitherOrBoth<C, C>: FromIterator<EitherOrBoth<C::Item, C::Item>, Alloc = Memory<'a>>
        + FromIterator<Either<C::Item, C::Item>, Alloc = Memory<'a>>,
    requires made { (xs : List C.Item) → C.can_from_iter xs }
    requires any { (xs : List (enum.EitherOrBoth C.Item C.Item))
        → ⟦<EitherOrBoth<C, C> as FromIterator<EitherOrBoth<C::Item, C::Item>>>⟧.can_from_iter xs }
    requires whole { (v : enum.EitherOrBoth C C)
        → ⟦<EitherOrBoth<C, C> as FromIterator<EitherOrBoth<C::Item, C::Item>>>⟧.is_complete v }
    requires any_one { (xs : List (one.Either C.Item C.Item))
        → ⟦<EitherOrBoth<C, C> as FromIterator<Either<C::Item, C::Item>>>⟧.can_from_iter xs }
{
    let want: EitherOrBoth<C> = pair(memory, sides)?;
    check_collected(memory, tokens, &values(alloc, sides)?, &want)?;
    check_collected(memory, tokens, &eithers(alloc, sides)?, &want)?;
    check_again(memory, tokens, &want)
}

/// Lists and sets are collected from both enums, cloned and collected again, for few requests.
#[test]
fn lists_and_sets_are_collected_and_cloned(rt: HostRuntime) -> Result<(), Fail> {
    let alloc = rt.alloc();
    let t = &Tokens::new(alloc)?;
    let left = &numbers(alloc, t, 0)?;
    let right = &numbers(alloc, t, 200)?;
    long_lists_and_sets(alloc, &Refusing::new(alloc), t, left, right)
}

/// Maps are collected from both enums, cloned and collected again, for few requests.
#[test]
fn maps_are_collected_and_cloned(rt: HostRuntime) -> Result<(), Fail> {
    let alloc = rt.alloc();
    let t = &Tokens::new(alloc)?;
    let left = &entries(alloc, &numbers(alloc, t, 0)?)?;
    let right = &entries(alloc, &numbers(alloc, t, 200)?)?;
    long_maps(alloc, &Refusing::new(alloc), t, left, right)
}

// The numbers of the left side and of the right side.
type Numbers<'a> = (&'a [Token], &'a [Token]);

// The numbers side by side, as regrouping them gives them: a value has both while the right ones last.
fn side_by_side<'a>(
    memory: Memory<'a>,
    numbers: Numbers,
) -> Result<Vec<EitherOrBoth<Token>, Memory<'a>>, AllocError> {
    let mut list = Vec::new(memory);
    for (i, l) in numbers.0.iter().enumerate() {
        let value = match numbers.1.get(i) {
            Some(r) => Both(l, r),
            None => Left(l),
        };
        list.push(value.cloned()?)?;
    }
    Ok(list)
}

// The left numbers, and then the right ones.
fn in_turn<'a>(
    memory: Memory<'a>,
    numbers: Numbers,
) -> Result<Vec<EitherOrBoth<Token>, Memory<'a>>, AllocError> {
    let mut list = Vec::new(memory);
    for item in numbers.0 {
        list.push(Left(item.clone()?))?;
    }
    for item in numbers.1 {
        list.push(Right(item.clone()?))?;
    }
    Ok(list)
}

// Regroups the numbers with each request refused in turn.
fn check_regrouped(memory: Memory, tokens: &Tokens, numbers: Numbers) -> Result<(), Fail> {
    let want = side_by_side(memory, numbers)?;
    let alive = tokens.alive();
    for number in 1..RUNS {
        memory.refuse(0);
        let list = in_turn(memory, numbers)?;
        memory.refuse(number);
        let ended = regroup(memory, list);
        if is_whole(memory, "regroup", number, ended, &want)? {
            return Ok(());
        }
        same("values alive", &number, &tokens.alive(), &alive)?;
    }
    Err("each run was refused")?;
    Ok(())
}

/// A list of three hundred left values and then two hundred right ones is regrouped into two hundred of both and the other left ones.
#[test]
fn lists_are_regrouped(rt: HostRuntime) -> Result<(), Fail> {
    let alloc = rt.alloc();
    let t = &Tokens::new(alloc)?;
    let left = numbers(alloc, t, 0)?;
    let mut right = numbers(alloc, t, 200)?;
    right.truncate(200);
    check_regrouped(&Refusing::new(alloc), t, (&left, &right))
}

type Rows<A> = Vec<(u16, Token), A>;

// Three hundred rows whose keys strictly increase by this step.
fn rows<'a>(memory: Memory<'a>, one: &Token, step: u16) -> Result<Rows<Memory<'a>>, AllocError>
    requires { step ≤ 3 }
{
    let mut rows = Vec::new(memory);
    for i in 0..MANY {
        rows.push((i * step, one.clone()?))?;
    }
    Ok(rows)
}

type Joined<A> = Vec<(u16, EitherOrBoth<Token>), A>;

// The join of three hundred even keys with three hundred keys that three divides.
fn joined<'a>(memory: Memory<'a>, one: &Token) -> Result<Joined<Memory<'a>>, AllocError> {
    let mut joined = Vec::new(memory);
    for key in 0..900u16 {
        let value = match (key % 2 == 0 && key < 600, key % 3 == 0) {
            (true, false) => Left(one),
            (true, true) => Both(one, one),
            (false, true) => Right(one),
            (false, false) => continue,
        };
        joined.push((key, value.cloned()?))?;
    }
    Ok(joined)
}

// Joins such rows with each request refused in turn.
fn check_joined(rt: &impl Abort, memory: Memory, tokens: &Tokens, one: &Token) -> Result<(), Fail> {
    let want = joined(memory, one)?;
    let alive = tokens.alive();
    for number in 1..RUNS {
        memory.refuse(0);
        let left = rows(memory, one, 2)?;
        let right = rows(memory, one, 3)?;
        assert!(rt; is_rising(&left) && is_rising(&right));
        memory.refuse(number);
        let ended = outer_join(memory, left, right);
        if is_whole(memory, "outer_join", number, ended, &want)? {
            return Ok(());
        }
        same("values alive", &number, &tokens.alive(), &alive)?;
    }
    Err("each run was refused")?;
    Ok(())
}

/// Three hundred keys a side, of which a hundred are on both, are joined.
#[test]
fn lists_are_joined(rt: HostRuntime) -> Result<(), Fail> {
    let alloc = rt.alloc();
    let t = &Tokens::new(alloc)?;
    check_joined(&rt, &Refusing::new(alloc), t, &counted(t, 1)?)
}

//! Containers in an `Either` that grow.

use either_or_both::Either;
use std::alloc::{AllocError, Global};
use std::rc::Rc;
use std::test::Fail;
use testkit::memory::{RUNS, Refusing, Source, Tokens, Watch};
use testkit::same::same;

type List<'a> = Vec<Rc<u8>, &'a Refusing<Global>>;

// A vector of one value.
fn list<'a>(memory: &'a Refusing<Global>, tokens: &Tokens) -> Result<List<'a>, AllocError> {
    let mut list = Vec::new(memory);
    list.push(tokens.one()?)?;
    Ok(list)
}

// Such a vector on a side, made with nothing refused.
fn held<'a>(
    memory: &'a Refusing<Global>,
    tokens: &Tokens,
    is_left: bool,
) -> Result<Either<List<'a>>, AllocError> {
    memory.refuse(0);
    let list = list(memory, tokens)?;
    if is_left {
        Ok(Either::Left(list))
    } else {
        Ok(Either::Right(list))
    }
}

// Whether the list has all of the items after the value that it held. It has a beginning of them.
fn is_whole(number: u64, list: List, items: &[Rc<u8>]) -> Result<bool, Fail> {
    let (first, rest) = list.split_first().ok_or("it lost what it held")?;
    let begins = items.starts_with(rest);
    same("the list", &number, &(**first, begins), &(1, true))?;
    Ok(rest.len() == items.len())
}

// Extends a vector on one side with each request and all after it refused in turn. The side is kept and holds what it held, and a
// beginning of the items.
fn check(
    memory: &Refusing<Global>,
    tokens: &Tokens,
    items: &[Rc<u8>],
    is_left: bool,
) -> Result<(), Fail> {
    let alive = tokens.alive();
    for number in 1..RUNS {
        let watch = Watch::new(memory);
        let mut pair = held(memory, tokens, is_left)?;
        memory.refuse_from(number);
        let ended = pair.extend(Source::new(items, &watch));
        let is_extended = memory.judge(ended)?.is_some();
        same("a late call", &number, &watch.is_late(), &false)?;
        same("is_left", &number, &pair.is_left(), &is_left)?;
        let is_whole = is_whole(number, pair.reduce(), items)?;
        same("values alive", &number, &tokens.alive(), &alive)?;
        same("extend", &number, &is_extended, &is_whole)?;
        if is_whole {
            same("refused runs", &is_left, &(1 < number), &true)?;
            return Ok(());
        }
    }
    Err("each run was refused")?;
    Ok(())
}

/// A vector grows by three hundred values on each side. All requests after the refused one are refused too, since std's own `extend`
/// asks a second time, for less, where its first request is refused.
#[test]
fn vectors_are_extended(rt: HostRuntime) -> Result<(), Fail> {
    let alloc = rt.alloc();
    let memory = Refusing::new(alloc);
    let tokens = Tokens::new(alloc)?;
    let mut items = Vec::new(alloc);
    for _ in 0..150 {
        items.push(tokens.two()?)?;
        items.push(tokens.three()?)?;
    }
    check(&memory, &tokens, items.as_slice(), true)?;
    check(&memory, &tokens, items.as_slice(), false)
}

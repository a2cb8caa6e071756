//! Tests: a paired walk that is driven from both ends, with each request for memory refused in turn. The drivers of the chain and of
//! the one or two values go over the same loop.

use crate::token::{Token, counted};
use either_or_both::EitherOrBoth;
use either_or_both::EitherOrBoth::{Both, Left};
use either_or_both::laws::{Driven, End, drive_swap};
use std::alloc::{AllocError, Global};
use std::test::Fail;
use testkit::memory::{RUNS, Refusing, Tokens};
use testkit::same::same;

type Memory<'a> = &'a Refusing<Global>;

type Side<'a> = Vec<Token, Memory<'a>>;

type Answers<'a> = Driven<EitherOrBoth<Token>, Memory<'a>>;

type Wanted = Vec<Option<EitherOrBoth<Token>>>;

fn drive<'a>(
    memory: Memory<'a>,
    pair: EitherOrBoth<Side<'a>, Side<'a>>,
    ends: &[End],
) -> Result<Answers<'a>, AllocError> {
    drive_swap(memory, pair, ends)
}

// So many values on a side, which count up from this number.
fn side<'a>(
    memory: Memory<'a>,
    tokens: &Tokens,
    length: u16,
    first: u16,
) -> Result<Side<'a>, AllocError> {
    let mut side = Vec::new(memory);
    for place in 0..length {
        side.push(counted(tokens, place.saturating_add(first))?)?;
    }
    Ok(side)
}

// What the call of this number answers: the front and the back are called in turn.
fn answer(tokens: &Tokens, call: u16) -> Result<Option<EitherOrBoth<Token>>, AllocError> {
    let place = if call % 2 == 0 {
        call / 2
    } else {
        299u16.saturating_sub(call / 2)
    };
    if call >= 300 {
        return Ok(None);
    }
    let left = counted(tokens, place)?;
    if place < 200 {
        Ok(Some(Both(left, counted(tokens, place.saturating_add(1))?)))
    } else {
        Ok(Some(Left(left)))
    }
}

// So many calls, and what each answers.
fn calls(alloc: Global, tokens: &Tokens) -> Result<(Vec<End>, Wanted), AllocError> {
    let mut ends = Vec::new(alloc);
    let mut want = Vec::new(alloc);
    for call in 0..320u16 {
        ends.push(if call % 2 == 0 { End::Front } else { End::Back })?;
        want.push(answer(tokens, call)?)?;
    }
    Ok((ends, want))
}

// Sides of three hundred and of two hundred values, made with nothing refused.
fn sides<'a>(
    memory: Memory<'a>,
    tokens: &Tokens,
) -> Result<EitherOrBoth<Side<'a>, Side<'a>>, AllocError> {
    memory.refuse(0);
    let left = side(memory, tokens, 300, 0)?;
    Ok(Both(left, side(memory, tokens, 200, 1)?))
}

// Drives such sides with each request refused in turn. A run that is refused has dropped what it took.
fn check(
    memory: Memory,
    tokens: &Tokens,
    ends: &[End],
    want: &[Option<EitherOrBoth<Token>>],
) -> Result<(), Fail> {
    let alive = tokens.alive();
    for number in 1..RUNS {
        let pair = sides(memory, tokens)?;
        memory.refuse(number);
        if let Some(driven) = memory.judge(drive(memory, pair, ends))? {
            same(
                "drive_swap",
                &number,
                &(driven.answers.as_slice(), driven.rest),
                &(want, 0),
            )?;
            return Ok(());
        }
        same("values alive", &number, &tokens.alive(), &alive)?;
    }
    Err("each run was refused")?;
    Ok(())
}

/// Sides of three hundred and of two hundred values are driven past their end, from the front and the back in turn. Where memory is
/// refused, the pair, what it still has to give and what it has given are dropped.
#[test]
fn walk_is_driven_past_its_end(rt: HostRuntime) -> Result<(), Fail> {
    let alloc = rt.alloc();
    let tokens = Tokens::new(alloc)?;
    let (ends, want) = calls(alloc, &tokens)?;
    check(&Refusing::new(alloc), &tokens, &ends, &want)
}

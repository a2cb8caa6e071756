//! Tests of the three drivers: every order of calls of both ends, compared with the list by index, and what a driver asks of the
//! sides of its walk.

use crate::walks::sides::Counting;
use either_or_both::EitherOrBoth::{self, Both, Left, Right};
use either_or_both::laws::End::{self, Back, Front};
use either_or_both::laws::drive_items;
use eob_known_lists::drive::{drive_chain_owned, drive_swap_owned};
use std::alloc::{AllocError, Global};
use std::fmt::Debug;
use std::test::Fail;
use testkit::counts::Asked;
use testkit::same::same;

const NUMBERS: [u8; 8] = [1, 2, 3, 4, 5, 6, 7, 8];

const LETTERS: [char; 4] = ['a', 'b', 'c', 'd'];

/// What the k-th of these calls answers over a list: nothing once as many calls were made as it has items, else the item of that
/// end that is still to come.
fn answer<T: Copy>(list: &[T], ends: &[End], k: usize) -> Option<T> {
    if k >= list.len() {
        return None;
    }
    let before = ends.get(..k)?;
    let fronts = before.iter().filter(|end| **end == Front).count();
    let backs = before.iter().filter(|end| **end == Back).count();
    match ends.get(k)? {
        Front => list.get(fronts).copied(),
        Back => list
            .get(list.len().checked_sub(1)?.checked_sub(backs)?)
            .copied(),
    }
}

/// The list of ends that a number stands for: a bit for each.
fn ends_of(alloc: Global, length: usize, bits: usize) -> Result<Vec<End>, AllocError> {
    let mut ends = Vec::new(alloc);
    let mut left = bits;
    for _ in 0..length {
        ends.push(if left % 2 == 0 { Front } else { Back })?;
        left /= 2;
    }
    Ok(ends)
}

fn same_answers<T: Copy + PartialEq + Debug>(
    list: &[T],
    ends: &[End],
    answers: &[Option<T>],
) -> Result<(), Fail> {
    same("length", &(list, ends), &answers.len(), &ends.len())?;
    for (k, given) in answers.iter().enumerate() {
        same("answer", &(list, ends, k), given, &answer(list, ends, k))?;
    }
    Ok(())
}

/// Two lists side by side, by index.
fn side_by_side(
    alloc: Global,
    l: &[u8],
    r: &[char],
) -> Result<Vec<EitherOrBoth<u8, char>>, AllocError> {
    let mut list = Vec::new(alloc);
    for i in 0..l.len().max(r.len()) {
        if let Ok(item) = EitherOrBoth::try_from((l.get(i).copied(), r.get(i).copied())) {
            list.push(item)?;
        }
    }
    Ok(list)
}

/// The paired walk and the chain over two lists, called in this order.
fn drive_both(alloc: Global, l: usize, r: usize, ends: &[End]) -> Result<(), Fail> {
    let numbers = NUMBERS.get(..l).unwrap_or(&[]);
    let letters = LETTERS.get(..r).unwrap_or(&[]);
    let more = NUMBERS
        .get(4..)
        .and_then(|rest| rest.get(..r))
        .unwrap_or(&[]);
    let list = side_by_side(alloc, numbers, letters)?;
    let driven = drive_swap_owned(
        alloc,
        Both(numbers.to_vec(alloc)?, letters.to_vec(alloc)?),
        ends,
    )?;
    same_answers(&list, ends, &driven.answers)?;
    let rest = list.len().saturating_sub(ends.len());
    same("rest", &(numbers, letters, ends), &driven.rest, &rest)?;
    if r == 0 {
        let alone: EitherOrBoth<Vec<u8>, Vec<char>> = Left(numbers.to_vec(alloc)?);
        same_answers(&list, ends, &drive_swap_owned(alloc, alone, ends)?.answers)?;
    }
    if l == 0 {
        let alone: EitherOrBoth<Vec<u8>, Vec<char>> = Right(letters.to_vec(alloc)?);
        same_answers(&list, ends, &drive_swap_owned(alloc, alone, ends)?.answers)?;
    }
    let mut in_turn = numbers.to_vec(alloc)?;
    in_turn.extend_from_slice(more)?;
    let chained = drive_chain_owned(
        alloc,
        Both(numbers.to_vec(alloc)?, more.to_vec(alloc)?),
        ends,
    )?;
    same_answers(&in_turn, ends, &chained)
}

/// Every order of up to six calls, over lists of each pair of lengths up to four, and over the values of each variant.
#[test]
fn every_order_of_calls_gives_the_list(rt: HostRuntime) -> Result<(), Fail> {
    let alloc = rt.alloc();
    for (length, orders) in [1usize, 2, 4, 8, 16, 32, 64].iter().copied().enumerate() {
        for bits in 0..orders {
            let ends = ends_of(alloc, length, bits)?;
            for l in 0..5usize {
                for r in 0..5usize {
                    drive_both(alloc, l, r, &ends)?;
                }
            }
            for (value, list) in [
                (Left(1), &[1u8][..]),
                (Both(1, 2), &[1, 2]),
                (Right(2), &[2]),
            ] {
                let driven = drive_items(alloc, value, &ends)?;
                same_answers(list, &ends, &driven.answers)?;
                let rest = list.len().saturating_sub(ends.len());
                same("rest", &(value, ends.as_slice()), &driven.rest, &rest)?;
            }
        }
    }
    Ok(())
}

type Answers = &'static [Option<EitherOrBoth<u8, char>>];

// Two lists and calls; what they answer, and how many items are left.
#[rattlefmt::skip]
static DRIVEN: [(&[u8], &[char], &[End], Answers, usize); 5] = [
    (&[1, 2, 3], &['a'], &[Back, Front, Back, Front],
        &[Some(Left(3)), Some(Both(1, 'a')), Some(Left(2)), None], 0),
    (&[1, 2], &['a', 'b', 'c', 'd'], &[Front, Front, Front, Back, Front],
        &[Some(Both(1, 'a')), Some(Both(2, 'b')), Some(Right('c')), Some(Right('d')), None], 0),
    (&[], &[], &[Front, Back], &[None, None], 0),
    (&[1, 2], &['c'], &[], &[], 2),
    (&[1, 2, 3], &['a'], &[Back], &[Some(Left(3))], 2),
];

/// The drivers answer each call from the end that it names, also over a lone side, and tell how many items are left.
#[test]
fn each_call_is_answered_from_its_end(rt: HostRuntime) -> Result<(), Fail> {
    let alloc = rt.alloc();
    for (l, r, ends, answers, rest) in DRIVEN.iter().copied() {
        let driven = drive_swap_owned(alloc, Both(l.to_vec(alloc)?, r.to_vec(alloc)?), ends)?;
        let came = (driven.answers.as_slice(), driven.rest);
        same("drive_swap", &(l, r, ends), &came, &(answers, rest))?;
    }
    let backs = [Back, Back, Back];
    let alone: EitherOrBoth<Vec<u8>, Vec<char>> = Right(vec![in alloc; 'c', 'm']?);
    let driven = drive_swap_owned(alloc, alone, &backs)?;
    let came = (driven.answers.as_slice(), driven.rest);
    let answers = [Some(Right('m')), Some(Right('c')), None];
    same("drive_swap", &backs, &came, &(answers.as_slice(), 0))?;
    let in_turn = Both(vec![in alloc; 1u8, 2]?, vec![in alloc; 3u8]?);
    let ends = [Back, Front, Back, Front];
    let answers = drive_chain_owned(alloc, in_turn, &ends)?;
    let want = [Some(3), Some(1), Some(2), None];
    same("drive_chain", &ends, &answers.as_slice(), &want.as_slice())?;
    let driven = drive_items(alloc, Both(1u8, 2), &[Back, Front, Front])?;
    let came = (driven.answers.as_slice(), driven.rest);
    let want = [Some(2), Some(1), None];
    same("drive_items", &"Both(1, 2)", &came, &(want.as_slice(), 0))
}

/// A driver takes its answers from the walk: one call of the back asks the side that gives the item once, from its back, and the
/// other side nothing.
#[test]
fn one_call_of_the_back_asks_one_side(rt: HostRuntime) -> Result<(), Fail> {
    let alloc = rt.alloc();
    let (left, right) = (Asked::new(), Asked::new());
    let pair = Both(
        Counting::new(&[1u8, 2, 3], &left),
        Counting::new(&['a'], &right),
    );
    let driven = drive_swap_owned(alloc, pair, &[Back])?;
    let came = (driven.answers.as_slice(), driven.rest);
    same(
        "drive_swap",
        &"a back",
        &came,
        &([Some(Left(3))].as_slice(), 2),
    )?;
    same(
        "drive_swap",
        &"a back",
        &[left.calls(), right.calls()],
        &[(0, 1), (0, 0)],
    )?;

    let (first, second) = (Asked::new(), Asked::new());
    let pair = Both(
        Counting::new(&[1u8], &first),
        Counting::new(&[2, 3], &second),
    );
    let answers = drive_chain_owned(alloc, pair, &[Back])?;
    same(
        "drive_chain",
        &"a back",
        &answers.as_slice(),
        &[Some(3)].as_slice(),
    )?;
    same(
        "drive_chain",
        &"a back",
        &[first.calls(), second.calls()],
        &[(0, 0), (0, 1)],
    )
}

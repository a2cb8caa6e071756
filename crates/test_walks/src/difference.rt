//! Tests of the first difference of two iterators: where it stands, what either has there, and what the sides are asked.

use crate::walks::sides::Counting;
use either_or_both::EitherOrBoth::{self, Both, Left, Right};
use either_or_both::difference::first_difference;
use std::test::Fail;
use testkit::counts::Asked;
use testkit::same::same;

/// Two lists, and their first difference.
type Row = (
    &'static [u8],
    &'static [u8],
    Option<(usize, EitherOrBoth<u8, u8>)>,
);

#[rattlefmt::skip]
static DIFFERENCES: [Row; 10] = [
    // left         right           first difference
    (&[],           &[],            None),
    (&[1],          &[],            Some((0, Left(1)))),
    (&[],           &[2],           Some((0, Right(2)))),
    (&[1],          &[1],           None),
    (&[1],          &[2],           Some((0, Both(1, 2)))),
    (&[1, 2],       &[1],           Some((1, Left(2)))),
    (&[1],          &[1, 2],        Some((1, Right(2)))),
    (&[1, 2, 3],    &[1, 5, 3],     Some((1, Both(2, 5)))),
    (&[1, 2, 3],    &[1, 2, 4, 5],  Some((2, Both(3, 4)))),
    (&[7, 7, 7],    &[7, 7, 7],     None),
];

#[test]
fn difference_is_the_first_one(rt: HostRuntime) -> Result<(), Fail> {
    for (left, right, want) in &DIFFERENCES {
        let found = first_difference(left.iter().copied(), right.iter().copied());
        same("first_difference", &(left, right), &found, want)?;
    }
    Ok(())
}

#[rattlefmt::skip]
static ASKED: [(&[u8], &[u8], u64); 5] = [
    // left         right           which side was asked, in order: 1 the left one, 2 the right one
    (&[],           &[],            12),
    (&[1],          &[2],           12),
    (&[1, 2],       &[1, 3],        1212),
    (&[1, 2, 3],    &[1, 9, 3],     1212),
    (&[1],          &[1, 2, 3],     1212),
];

/// The left side is asked first, and no side after the difference.
#[test]
fn sides_are_asked_in_turn_up_to_it(rt: HostRuntime) -> Result<(), Fail> {
    for (left, right, want) in &ASKED {
        let asked = Asked::new();
        let found = first_difference(
            Counting::named(left, &asked, 1),
            Counting::named(right, &asked, 2),
        );
        same("order", &(left, right, found), &asked.order(), want)?;
    }
    Ok(())
}

/// Three hundred equal items and then one that differs, or the end of a side.
#[test]
fn difference_far_behind(rt: HostRuntime) -> Result<(), Fail> {
    let alloc = rt.alloc();
    let left = vec![in alloc; 5u8; 301]?;
    let mut right = left.clone()?;
    same(
        "equal",
        &301,
        &first_difference(left.iter().copied(), right.iter().copied()),
        &None,
    )?;
    right.pop();
    right.push(6)?;
    let want = Some((300, Both(5, 6)));
    same(
        "last",
        &300,
        &first_difference(left.iter().copied(), right.iter().copied()),
        &want,
    )?;
    right.pop();
    let want = Some((300, Left(5)));
    same(
        "end",
        &300,
        &first_difference(left.iter().copied(), right.iter().copied()),
        &want,
    )?;
    Ok(())
}

//! Pairs of containers of each shape, collected from values of either enum.

use crate::shapes::Given::{Eithers, Values};
use crate::shapes::{Memory, Wanted, lists_and_sets, maps};
use crate::token::list;
use either_or_both::EitherOrBoth::{Both, Left, Right};
use either_or_both::{Either, EitherOrBoth};
use std::alloc::AllocError;
use std::test::Fail;
use testkit::memory::{Refusing, Source, Tokens, Watch};

/// Lists and sets, from values of `EitherOrBoth`.
#[test]
fn lists_and_sets_are_collected(rt: HostRuntime) -> Result<(), Fail> {
    let alloc = rt.alloc();
    let m = &Refusing::new(alloc);
    let t = &Tokens::new(alloc)?;
    let items = &list(alloc, t, &[Left(3), Both(1, 2), Right(1), Left(3)])?;
    let alike = &list(alloc, t, &[Left(3), Both(3, 2)])?;
    let lists = "Both([3, 1, 3], [2, 1])";
    let sets = Wanted {
        hashed: "Both({3}, {2})",
        inserted: "Both({3, 1}, {2, 1})",
        ordered: "Both({1, 3}, {1, 2})",
    };
    lists_and_sets(alloc, m, t, &Values(items), &Values(alike), lists, sets)
}

/// Lists and sets, from values of `Either`.
#[test]
fn lists_and_sets_are_collected_from_either(rt: HostRuntime) -> Result<(), Fail> {
    let alloc = rt.alloc();
    let m = &Refusing::new(alloc);
    let t = &Tokens::new(alloc)?;
    let numbers = [Either::Right(3), Either::Left(2), Either::Right(1)];
    let items = &list(alloc, t, &numbers)?;
    let alike = &list(alloc, t, &[Either::Right(3), Either::Right(3)])?;
    let lists = "Both([2], [3, 1])";
    let sets = Wanted {
        hashed: "Right({3})",
        inserted: "Both({2}, {3, 1})",
        ordered: "Both({2}, {1, 3})",
    };
    lists_and_sets(alloc, m, t, &Eithers(items), &Eithers(alike), lists, sets)
}

/// Maps, from values of `EitherOrBoth`.
#[test]
fn maps_are_collected(rt: HostRuntime) -> Result<(), Fail> {
    let alloc = rt.alloc();
    let m = &Refusing::new(alloc);
    let t = &Tokens::new(alloc)?;
    let numbers = [Left((3, 1)), Both((1, 1), (2, 2)), Left((3, 2))];
    let items = &list(alloc, t, &numbers)?;
    let alike = &list(alloc, t, &[Left((3, 1)), Both((3, 2), (2, 2))])?;
    let want = Wanted {
        hashed: "Both({3: 2}, {2: 2})",
        inserted: "Both({3: 2, 1: 1}, {2: 2})",
        ordered: "Both({1: 1, 3: 2}, {2: 2})",
    };
    maps(alloc, m, t, &Values(items), &Values(alike), want)
}

/// Maps, from values of `Either`.
#[test]
fn maps_are_collected_from_either(rt: HostRuntime) -> Result<(), Fail> {
    let alloc = rt.alloc();
    let m = &Refusing::new(alloc);
    let t = &Tokens::new(alloc)?;
    let numbers = [
        Either::Left((3, 1)),
        Either::Left((1, 2)),
        Either::Left((3, 3)),
    ];
    let items = &list(alloc, t, &numbers)?;
    let alike = &list(alloc, t, &[Either::Left((3, 1)), Either::Right((3, 2))])?;
    let want = Wanted {
        hashed: "Both({3: 1}, {3: 2})",
        inserted: "Left({3: 3, 1: 2})",
        ordered: "Left({1: 2, 3: 3})",
    };
    maps(alloc, m, t, &Eithers(items), &Eithers(alike), want)
}

/// Where the first request is refused the source was asked for one value alone.
#[test]
fn source_is_asked_no_more_after_a_refusal(rt: HostRuntime) -> Result<(), Fail> {
    let memory = &Refusing::new(rt.alloc());
    let watch = Watch::new(memory);
    let items: [EitherOrBoth<u8>; 3] = [Left(1), Left(2), Left(3)];
    memory.refuse(1);
    let refused: Result<EitherOrBoth<Vec<u8, Memory>>, AllocError> = Source::new(
        &items, &watch,
    ).collect(memory);
    assert!(rt; refused.is_err());
    assert_eq!(rt; watch.calls(), 1);
    Ok(())
}
